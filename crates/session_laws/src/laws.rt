//! What holds of all sessions over an index that nobody else changes.
//!
//! The functions do nothing: each has a law for its contract, and so the check proves the law.
ghost use Rattle.session_laws.specs.PlainLaw.{BytesAloneHaveOneText, PlainSessionsHaveTheSameReplies};
ghost use Rattle.session_laws.specs.PlainLaw.{SessionsAloneArePlain};

/// Where no reply is `full` or `worn`, the session is one over a plain map too, with the same requests and
/// replies, and it leaves the map that the log tells.
pub fn sessions_alone_are_plain()
    ensures { SessionsAloneArePlain }
{}

/// Where no reply is `full` or `worn`, and an empty plain map, whatever its room, answers the same requests
/// without `full`, the replies are the same, and the log tells the map that the plain session leaves.
pub fn plain_sessions_have_the_same_replies()
    ensures { PlainSessionsHaveTheSameReplies }
{}

/// Where no reply is `full` or `worn`, what a session writes and the map that it leaves are settled by the
/// bytes that it took and by how it ended, unless the sink failed.
pub fn bytes_alone_have_one_text()
    ensures { BytesAloneHaveOneText }
{}
