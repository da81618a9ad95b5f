//! What is true of all rules, partitions and parameters.
ghost use Rattle.endpoint_rules.specs.Laws.{EndpointsHaveOutcome, FalseLeavesAreFree, EscapesArePlain};

/// Resolving gives one endpoint or one fault.
pub fn endpoints_have_outcome()
    ensures { EndpointsHaveOutcome }
{}

/// A leaf with a condition that doesn't hold changes nothing, wherever it stands.
pub fn false_leaves_are_free()
    ensures { FalseLeavesAreFree }
{}

/// The escapes that `uriEncode` gives have no byte outside `A-Za-z0-9-._~%`.
pub fn escapes_are_plain()
    ensures { EscapesArePlain }
{}
