//! What is true of values set along names, whatever they are.
ghost use Rattle.std.specs.Prelude.{◌≡◌, ◌∷◌, ◌++◌, ℕ, List, Ok};
ghost use Rattle.json_doc.specs.declared.doc.Doc.{Doc};
ghost use Rattle.texts.specs.Keys.{value_at};
ghost use Rattle.jmes_syntax.specs.declared.expr.Expr.{Expr};
ghost use Rattle.jmes_syntax.specs.Paths.{IsPath};
ghost use Rattle.jmes_eval.specs.Meaning.{meaning};
ghost use Rattle.jmes_eval.specs.Setting.{pairs_of, path_of, set_at, value_along};

/// A search along a chain of names gives the value at the names in turn. What was set there is found,
/// and on the way every other key has what it had.
pub fn set_is_found()
    ensures along { (path : Expr) (d : Doc) → IsPath path → meaning path d ≡ Ok (value_along (path_of path) d) }
    ensures found { (path : Expr) (value d : Doc) → IsPath path → meaning path (set_at (path_of path) value d) ≡ Ok value }
    ensures others { (front behind : List (List ℕ)) (k j : List ℕ) (value d : Doc) → (j ≡ k → ⊥) → value_at j (pairs_of (value_along front (set_at (front ++ k ∷ behind) value d))) ≡ value_at j (pairs_of (value_along front d)) }
{}
