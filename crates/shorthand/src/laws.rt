//! What is true of every text, whichever is read.
ghost use Rattle.std.specs.Prelude.{◌≡◌, ◌⊎◌, ℕ, List};
ghost use Rattle.shorthand.specs.declared.short.Short.{Short};
ghost use Rattle.shorthand.specs.Grammar.{IsShorthand};
ghost use Rattle.shorthand.specs.Faults.{HasFault};

/// A text has one tree at most, and then it has no fault; or it has one fault at most.
pub fn shorthand_is_unique()
    ensures tree { (text : List ℕ) (s t : Short) → IsShorthand text s → IsShorthand text t → s ≡ t }
    ensures no_fault { (text : List ℕ) (t : Short) (at : ℕ) → IsShorthand text t → HasFault text at → ⊥ }
    ensures fault { (text : List ℕ) (m n : ℕ) → HasFault text m → HasFault text n → m ≡ n }
{}

/// A text has a tree or a fault. Not both: that is unique.
pub fn shorthand_has_outcome()
    ensures { (text : List ℕ) → ((t : Short) × IsShorthand text t) ⊎ ((at : ℕ) × HasFault text at) }
{}
