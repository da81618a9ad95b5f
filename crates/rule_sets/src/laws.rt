//! What is true of all rule sets and partitions.
ghost use Rattle.rule_sets.specs.Laws.{RulesHaveOutcome, PartitionsHaveOutcome};

/// A rule set is read as one list of leaves, or has one first bad place.
pub fn rules_have_outcome()
    ensures { RulesHaveOutcome }
{}

/// Partitions are read as one list, or have one first bad place.
pub fn partitions_have_outcome()
    ensures { PartitionsHaveOutcome }
{}
