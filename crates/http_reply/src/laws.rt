//! Laws of the outcome, as functions that do nothing.
ghost use Rattle.http_reply.specs.Computed.{OutcomeIsThere, OutcomeIsComputed};
ghost use Rattle.http_reply.specs.Laws.{HasOneOutcome, FrontDecides};
ghost use Rattle.http_reply.specs.Printed.{PrintedIsWhole, EndedIsWhole};

/// The bytes received, the end of the peer and the fault have one outcome.
pub fn has_one_outcome()
    ensures { HasOneOutcome }
{}

/// For all bytes, an end or none and a fault or none, there is an outcome that isn't want of memory, or
/// the bytes decide nothing and the peer goes on. The definition that the law names computes which.
pub fn outcome_is_there()
    ensures { OutcomeIsThere }
{}

/// The outcome that is computed is the outcome, but for want of memory.
pub fn outcome_is_computed()
    ensures { OutcomeIsComputed }
{}

/// The shortest front that decides is the outcome, and what follows changes nothing.
pub fn front_decides()
    ensures { FrontDecides }
{}

/// A reply that the grammar prints, with no body, one by its length or one in chunks, is whole.
pub fn printed_is_whole()
    ensures { PrintedIsWhole }
{}

/// A reply whose body lasts until the peer ends is whole at that end.
pub fn ended_is_whole()
    ensures { EndedIsWhole }
{}
