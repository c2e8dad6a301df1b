//! What holds of calls on an index. Each function is a law and does nothing.
ghost use Rattle.index_laws.specs.AloneAnswers.{CallsAloneHaveAnswers};
ghost use Rattle.index_laws.specs.Undisturbed.{UndisturbedTriesEnd};

/// Where caller 0 alone changes an index that was opened empty, it has an answer to each call of one key.
pub fn calls_alone_have_answers()
    ensures { CallsAloneHaveAnswers }
{}

/// A try is to be tried again only where another hand made a step during it, or held a version lock
/// as it began, or where it met a frozen group.
pub fn undisturbed_tries_end()
    ensures { UndisturbedTriesEnd }
{}
