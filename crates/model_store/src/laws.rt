//! What is true of all files.
ghost use Rattle.model_store.specs.Laws.{OneModelIsDue, OneFileIsDue, NewestIsFirst};

/// A service has one model at most, or one reason why there is none, in given files and folders.
pub fn one_model_is_due()
    ensures { OneModelIsDue }
{}

/// A version has one set of paginators, one of waiters and one of endpoint rules at most, and there is
/// one list of partitions, or one reason why there is none, in given files and folders.
pub fn one_file_is_due()
    ensures { OneFileIsDue }
{}

/// The model file of a service's newest version is that of the first folder that has it, as each other
/// file of the version is.
pub fn newest_is_first()
    ensures { NewestIsFirst }
{}
