//! What is true of every time.
ghost use Rattle.std.specs.Prelude.{◌≡◌, ◌⊎◌, ℕ, ℤ, List};
ghost use Rattle.moments.specs.Times.{IsTime};

/// A text names one instant at most.
pub fn moments_are_unique()
    ensures { (bytes : List ℕ) (a b : ℤ) → IsTime bytes a → IsTime bytes b → a ≡ b }
{}

/// A text names an instant, or it is no time.
pub fn moments_are_told()
    ensures { (bytes : List ℕ) → ((instant : ℤ) × IsTime bytes instant) ⊎ ((instant : ℤ) → IsTime bytes instant → ⊥) }
{}
