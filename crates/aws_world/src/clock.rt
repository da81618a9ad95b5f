ghost use Rattle.std.specs.Prelude.{◌≡◌, ℕ, ◌≤◌, Option};
ghost use Rattle.aws_world.specs.Told.{Tells};
ghost use Rattle.aws_world.specs.Moments.{Moments, with_moment, with_pause};

/// A clock that also waits.
pub trait Clock {
    /// The moments given and the pauses asked for so far, where the object tells them.
    ghost told: { Self → Option Moments };

    /// How often the clock could not be read.
    ghost faults: { Self → ℕ };

    /// The moment, in Unix seconds.
    fn now(&mut self) -> i64
        ensures given { Tells (told self.old) (told self.new)
            (λ before after. after ≡ with_moment result before) }
        ensures later { faults self.old ≤ faults self.new };

    /// Waits for so many milliseconds.
    fn pause(&mut self, ms: u64)
        ensures paused { Tells (told self.old) (told self.new)
            (λ before after. after ≡ with_pause ms before) }
        ensures later { faults self.old ≤ faults self.new };
}
