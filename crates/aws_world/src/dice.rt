ghost use Rattle.std.specs.Prelude.{◌≡◌, ℕ, Option, List, [], ◌∷◌, ◌++◌, IfOk, OnErr};
ghost use Rattle.aws_world.specs.Told.{Tells, HasCause};

/// No random word could be had.
#[derive(Clone, Copy, Debug, PartialEq, Eq)]
pub struct DiceFault;

/// A source of random words.
pub trait Dice {
    /// The words given so far, where the object tells them.
    ghost told: { Self → Option (List ℕ) };

    /// How many calls have failed.
    ghost faults: { Self → ℕ };

    /// A random word of 32 bits.
    fn word(&mut self) -> Result<u32, DiceFault>
        ensures given { IfOk result (λ word. Tells (told self.old) (told self.new)
            (λ before after. after ≡ before ++ word ∷ [])) }
        ensures failed { OnErr result (Tells (told self.old) (told self.new)
            (λ before after. after ≡ before)) }
        ensures cause { HasCause (faults self.old) (faults self.new) result };
}
