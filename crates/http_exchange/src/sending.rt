ghost use Rattle.std.specs.Prelude.{◌≡◌, ◌≤◌, true, false, OnOk, IfErr};
ghost use Rattle.aws_world.specs.Told.{Tells, HasCause};
ghost use Rattle.aws_world.specs.Connection.{on_last, more_sent};
ghost use Rattle.http_exchange.specs.Exchange.{SendsFront};

use aws_world::{Link, LinkFault};

/// Sends all bytes on the live connection, in as many pieces as the link takes.
pub fn send_all<L: Link>(link: &mut L, bytes: &[u8]) -> Result<(), LinkFault>
    requires live { L.live link.old ≡ true }
    requires unheard { L.heard link.old ≡ false }
    ensures live { L.live link.new ≡ true }
    ensures unheard { L.heard link.new ≡ false }
    ensures sent { OnOk result (Tells (L.told link.old) (L.told link.new)
        (λ before after. after ≡ on_last (more_sent bytes.now) before)) }
    ensures failed { IfErr result
        (λ fault. Tells (L.told link.old) (L.told link.new) (SendsFront bytes.now fault)) }
    ensures cause { HasCause (L.faults link.old) (L.faults link.new) result }
{
    let mut at = 0;
    while at < bytes.len() {
        let (_, rest) = bytes.split_at(at);
        at += link.send(rest)?;
    }
    Ok(())
}
