//! What is true of every text, whichever is read.
ghost use Rattle.std.specs.Prelude.{◌≡◌, ◌↔◌, ◌⊎◌, ℕ, List, Some, Ok, encode_utf8_all};
ghost use Rattle.jmes_syntax.specs.declared.expr.Expr.{Expr};
ghost use Rattle.jmes_syntax.specs.declared.function.Function.{Function};
ghost use Rattle.jmes_syntax.specs.declared.parse_fault.ParseFault.{ParseFault};
ghost use Rattle.jmes_syntax.specs.Functions.{name_of, function_named};
ghost use Rattle.jmes_syntax.specs.Grammar.{Expression};
ghost use Rattle.jmes_syntax.specs.Scans.{Scans, HasFault};

/// Reading from the left ends with an expression exactly where the text is one of the grammar.
pub fn reading_is_grammar()
    ensures { (text : List ℕ) (e : Expr) → Expression text e ↔ Scans (encode_utf8_all text) (Ok e) }
{}

/// A text is one expression at most, and then it has no fault; or it has one fault at most.
pub fn parsing_is_unique()
    ensures expression { (text : List ℕ) (d e : Expr) → Expression text d → Expression text e → d ≡ e }
    ensures no_fault { (text : List ℕ) (e : Expr) (f : ParseFault) → Expression text e → HasFault text f → ⊥ }
    ensures fault { (text : List ℕ) (f g : ParseFault) → HasFault text f → HasFault text g → f ≡ g }
{}

/// A text is an expression or has a fault. Not both: that is unique.
pub fn parsing_has_outcome()
    ensures { (text : List ℕ) → ((e : Expr) × Expression text e) ⊎ ((f : ParseFault) × HasFault text f) }
{}

/// Each function is found by its name.
pub fn function_is_named()
    ensures { (f : Function) → function_named (name_of f) ≡ Some f }
{}
