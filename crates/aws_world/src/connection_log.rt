ghost use Rattle.std.specs.Prelude.{◌≡◌, Some, [], ◌∷◌, ◌++◌, OnOk};
ghost use Rattle.std.specs.Option.{option_copied};
ghost use Rattle.aws_world.specs.Told.{Tells};
ghost use Rattle.aws_world.specs.Connection.{fresh, on_last, more_sent, more_received, peer_ended, faulted};
ghost use Rattle.aws_world.specs.ConnectionLog.{with_fault, told_of};

use crate::{Connection, LinkFault};
use std::alloc::Global;
use texts::{Bytes, OutOfMemory, Text};

/// The connections so far, oldest first. It tells nothing from then on where it can't grow.
#[derive(Debug, Drop)]
pub struct ConnectionLog {
    kept: Vec<Connection>,
    tells: bool,
}

impl ConnectionLog {
    pub fn new(alloc: Global) -> ConnectionLog
        ensures { told_of result ≡ Some [] }
    {
        ConnectionLog {
            kept: Vec::new(alloc),
            tells: true,
        }
    }

    /// The connections; None where it tells nothing.
    pub fn kept(&self) -> Option<&[Connection]>
        ensures { option_copied result ≡ told_of self.now }
    {
        if self.tells {
            Some(self.kept.as_slice())
        } else {
            None
        }
    }

    /// Adds a connection with no bytes.
    pub fn add(&mut self, host: &Text, port: u16, fault: Option<LinkFault>)
        ensures { Tells (told_of self.old) (told_of self.new)
            (λ before after. after ≡ before ++ with_fault fault (fresh host.now port) ∷ []) }
    {
        if self.tells && push_new(&mut self.kept, host, port, fault).is_err() {
            self.tells = false;
        }
    }

    pub fn add_sent(&mut self, bytes: &[u8])
        ensures { Tells (told_of self.old) (told_of self.new)
            (λ before after. after ≡ on_last (more_sent bytes.now) before) }
    {
        if self.tells && put_sent(&mut self.kept, bytes).is_err() {
            self.tells = false;
        }
    }

    pub fn add_received(&mut self, bytes: &[u8])
        ensures { Tells (told_of self.old) (told_of self.new)
            (λ before after. after ≡ on_last (more_received bytes.now) before) }
    {
        if self.tells && put_received(&mut self.kept, bytes).is_err() {
            self.tells = false;
        }
    }

    pub fn add_end(&mut self)
        ensures { Tells (told_of self.old) (told_of self.new)
            (λ before after. after ≡ on_last peer_ended before) }
    {
        if self.tells && put_end(&mut self.kept).is_err() {
            self.tells = false;
        }
    }

    pub fn add_fault(&mut self, fault: LinkFault)
        ensures { Tells (told_of self.old) (told_of self.new)
            (λ before after. after ≡ on_last (faulted fault) before) }
    {
        if self.tells && put_fault(&mut self.kept, fault).is_err() {
            self.tells = false;
        }
    }
}

fn push_new(
    kept: &mut Vec<Connection>,
    host: &Text,
    port: u16,
    fault: Option<LinkFault>,
) -> Result<(), OutOfMemory>
    ensures { OnOk result (kept.new.items
        ≡ kept.old.items ++ with_fault fault (fresh host.now port) ∷ []) }
{
    let alloc = *kept.allocator();
    let host = host.copy(alloc)?;
    kept.push(Connection {
        host,
        port,
        sent: Bytes::new(alloc),
        received: Bytes::new(alloc),
        ended: false,
        fault,
    })?;
    Ok(())
}

fn put_sent(kept: &mut Vec<Connection>, bytes: &[u8]) -> Result<(), OutOfMemory>
    ensures { OnOk result (kept.new.items ≡ on_last (more_sent bytes.now) kept.old.items) }
{
    if let Some(mut last) = kept.pop() {
        last.sent.extend(bytes)?;
        kept.push(last)?;
    }
    Ok(())
}

fn put_received(kept: &mut Vec<Connection>, bytes: &[u8]) -> Result<(), OutOfMemory>
    ensures { OnOk result (kept.new.items ≡ on_last (more_received bytes.now) kept.old.items) }
{
    if let Some(mut last) = kept.pop() {
        last.received.extend(bytes)?;
        kept.push(last)?;
    }
    Ok(())
}

fn put_end(kept: &mut Vec<Connection>) -> Result<(), OutOfMemory>
    ensures { OnOk result (kept.new.items ≡ on_last peer_ended kept.old.items) }
{
    if let Some(mut last) = kept.pop() {
        last.ended = true;
        kept.push(last)?;
    }
    Ok(())
}

fn put_fault(kept: &mut Vec<Connection>, fault: LinkFault) -> Result<(), OutOfMemory>
    ensures { OnOk result (kept.new.items ≡ on_last (faulted fault) kept.old.items) }
{
    if let Some(mut last) = kept.pop() {
        last.fault = Some(fault);
        kept.push(last)?;
    }
    Ok(())
}
