ghost use Rattle.std.specs.Prelude.{◌≡◌, ◌++◌, take, ℕ, OnOk, OnErr};
ghost use Rattle.aws_world.specs.Told.{Tells, HasCause};
ghost use Rattle.aws_main.specs.Causes.{GainsFront};

use aws_world::{Sink, SinkFault};

/// Writes all bytes, in as many pieces as the sink takes. After a fault a front of them is written.
pub fn write_all<S: Sink>(sink: &mut S, bytes: &[u8]) -> Result<(), SinkFault>
    ensures ok { OnOk result (Tells (S.told sink.old) (S.told sink.new)
        (λ before after. after ≡ before ++ bytes.now)) }
    ensures err { OnErr result (Tells (S.told sink.old) (S.told sink.new) (GainsFront bytes.now)) }
    ensures cause { HasCause (S.faults sink.old) (S.faults sink.new) result }
{
    let mut at = 0;
    while at < bytes.len() {
        let (_, rest) = bytes.split_at(at);
        at += sink.write(rest)?;
    }
    Ok(())
}
