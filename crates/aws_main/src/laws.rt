//! What is true of every line and all files.
ghost use Rattle.std.specs.Prelude.{◌≡◌, ℕ, List, Result, Some};
ghost use Rattle.aws_main.specs.declared.causes.Unread.{Unread as Refused};
ghost use Rattle.aws_main.specs.declared.planning.Planned.{Planned as Request};
ghost use Rattle.aws_main.specs.Due.{IsDue};
ghost use Rattle.model_store.specs.Folders.{Held};

/// One thing is due of a line, an environment and files at most: one request, or one reason why there
/// is none.
pub fn one_is_due()
    ensures { (words : List (List ℕ)) (env files : Held) (due other : Result Request Refused)
        → IsDue words env (Some files) due → IsDue words env (Some files) other → due ≡ other }
{}
