ghost use Rattle.std.specs.Prelude.{◌≡◌, ℕ, ◌<◌, ◌≤◌, Option, List, ◌++◌, length, take, IfOk, OnErr};
ghost use Rattle.aws_world.specs.Told.{Tells, HasCause};

/// A sink took nothing.
#[derive(Clone, Copy, Debug, PartialEq, Eq)]
pub struct SinkFault;

/// A place that bytes are written to, such as standard output.
pub trait Sink {
    /// The bytes taken so far, where the object tells them.
    ghost told: { Self → Option (List ℕ) };

    /// How many calls have failed.
    ghost faults: { Self → ℕ };

    /// Takes bytes from the front of the piece, at least one, and answers how many.
    fn write(&mut self, piece: &[u8]) -> Result<usize, SinkFault>
        requires { 0 < length piece.now }
        ensures some { IfOk result (λ count. 0 < count) }
        ensures within { IfOk result (λ count. count ≤ length piece.now) }
        ensures taken { IfOk result (λ count. Tells (told self.old) (told self.new)
            (λ before after. after ≡ before ++ take count piece.now)) }
        ensures failed { OnErr result (Tells (told self.old) (told self.new)
            (λ before after. after ≡ before)) }
        ensures cause { HasCause (faults self.old) (faults self.new) result };
}
