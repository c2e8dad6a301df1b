//! What holds of all sessions over a plain map.
//!
//! The functions do nothing: each has a law for its contract, and so the check proves the law.
ghost use Rattle.line_session.specs.Laws.{RequestsHaveOneText, BytesHaveOneText};

/// The replies of a session, and the map that it leaves, are settled by its requests.
pub fn requests_have_one_text()
    ensures { RequestsHaveOneText }
{}

/// What a session writes is settled by the bytes that it took and by how it ended, unless the sink failed.
pub fn bytes_have_one_text()
    ensures { BytesHaveOneText }
{}
