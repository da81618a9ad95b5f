//! What is true of all files, lines and environments.
ghost use Rattle.config_file.specs.Laws.{LineIsGrammar, FilesHaveOutcome, SettingsHaveOutcome, BlanksAreFree, RemarksAreFree, OrderIsFree};

/// What a line is goes by the grammar: it is of one form, or it is faulty.
pub fn line_has_one_form()
    ensures { LineIsGrammar }
{}

/// Two files have one list of sections each, or one first faulty line. Settings come of each, or one fault
/// that isn't a line's.
pub fn outcome_is_there()
    ensures files { FilesHaveOutcome }
    ensures settings { SettingsHaveOutcome }
{}

/// Blanks at the end of a line, comments and empty lines change nothing.
pub fn remarks_change_nothing()
    ensures blanks { BlanksAreFree }
    ensures remarks { RemarksAreFree }
{}

/// The order of sections changes nothing where no profile has a key twice.
pub fn order_is_free()
    ensures { OrderIsFree }
{}
