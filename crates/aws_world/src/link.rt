ghost use Rattle.std.specs.Prelude.{◌≡◌, ℕ, ◌<◌, ◌≤◌, Bool, true, false, Option, List, [], ◌∷◌, ◌++◌, length, take, is_ok, IfOk, IfErr, OnOk};
ghost use Rattle.aws_world.specs.Told.{Tells, HasCause};
ghost use Rattle.aws_world.specs.declared.connection.Connection.{Connection};
ghost use Rattle.aws_world.specs.Connection.{fresh, refused, on_last, more_sent, more_received, peer_ended, faulted};

use texts::Text;

/// Why a connection could not be made or used.
#[derive(Clone, Copy, Debug, PartialEq, Eq)]
pub enum LinkFault {
    /// No connection was made.
    Connect,
    /// The peer was silent for too long.
    Timeout,
    /// The connection broke.
    Broken,
}

/// A maker of connections, of which at most one is live at a time.
pub trait Link {
    /// The connections so far, oldest first and the live one last, where the object tells them.
    ghost told: { Self → Option (List Connection) };

    /// Whether a connection is live.
    ghost live: { Self → Bool };

    /// Whether `receive` was called on the live connection.
    ghost heard: { Self → Bool };

    /// How many calls have failed.
    ghost faults: { Self → ℕ };

    /// Makes a connection, which is live until `close`. A refused one is kept with no bytes.
    fn connect(&mut self, host: &Text, port: u16) -> Result<(), LinkFault>
        requires { live self.old ≡ false }
        ensures live { live self.new ≡ is_ok result }
        ensures unheard { OnOk result (heard self.new ≡ false) }
        ensures made { OnOk result (Tells (told self.old) (told self.new)
            (λ before after. after ≡ before ++ fresh host.now port ∷ [])) }
        ensures refused { IfErr result (λ fault. Tells (told self.old) (told self.new)
            (λ before after. after ≡ before ++ refused fault host.now port ∷ [])) }
        ensures cause { HasCause (faults self.old) (faults self.new) result };

    /// Sends bytes from the front of the piece, at least one, and answers how many.
    fn send(&mut self, piece: &[u8]) -> Result<usize, LinkFault>
        requires live { live self.old ≡ true }
        requires unheard { heard self.old ≡ false }
        requires some { 0 < length piece.now }
        ensures live { live self.new ≡ true }
        ensures unheard { heard self.new ≡ false }
        ensures some { IfOk result (λ count. 0 < count) }
        ensures within { IfOk result (λ count. count ≤ length piece.now) }
        ensures sent { IfOk result (λ count. Tells (told self.old) (told self.new)
            (λ before after. after ≡ on_last (more_sent (take count piece.now)) before)) }
        ensures failed { IfErr result (λ fault. Tells (told self.old) (told self.new)
            (λ before after. after ≡ on_last (faulted fault) before)) }
        ensures cause { HasCause (faults self.old) (faults self.new) result };

    /// Puts bytes from the peer at the front of the room and answers how many; 0 means that the
    /// peer ended.
    fn receive(&mut self, room: &mut [u8]) -> Result<usize, LinkFault>
        requires live { live self.old ≡ true }
        requires some { 0 < length room.old }
        ensures live { live self.new ≡ true }
        ensures heard { heard self.new ≡ true }
        ensures within { IfOk result (λ count. count ≤ length room.new) }
        ensures ended { IfOk result (λ count. count ≡ 0 → Tells (told self.old) (told self.new)
            (λ before after. after ≡ on_last peer_ended before)) }
        ensures received { IfOk result (λ count. 0 < count → Tells (told self.old) (told self.new)
            (λ before after. after ≡ on_last (more_received (take count room.new)) before)) }
        ensures failed { IfErr result (λ fault. Tells (told self.old) (told self.new)
            (λ before after. after ≡ on_last (faulted fault) before)) }
        ensures cause { HasCause (faults self.old) (faults self.new) result };

    /// Ends the live connection, if there is one.
    fn close(&mut self)
        ensures none_live { live self.new ≡ false }
        ensures same { Tells (told self.old) (told self.new) (λ before after. after ≡ before) }
        ensures later { faults self.old ≤ faults self.new };
}
