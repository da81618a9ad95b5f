ghost use Rattle.std.specs.Prelude.{◌≡◌, ◌<◌, ◌≤◌};
ghost use Rattle.aws_world.specs.Told.{Tells, Rose, one_more};
ghost use Rattle.aws_world.specs.Connection.{on_last, faulted};
ghost use Rattle.aws_world.specs.ConnectionLog.{told_of};

use crate::connection_log::ConnectionLog;
use crate::talk::{Script, Talk};
use crate::{Connection, Link, LinkFault};
use std::alloc::Global;
use std::collections::VecDeque;
use texts::{List, Text};

/// A link whose connections go by scripts.
#[derive(Debug, Drop)]
pub struct ScriptLink {
    scripts: VecDeque<Script>,
    piece: u32,
    talk: Option<Talk>,
    heard: bool,
    log: ConnectionLog,
    faults: u64,
    ghost some: { 0 < piece },
}

impl ScriptLink {
    ghost use Rattle.std.specs.Prelude.{Some, false, []};
    ghost use Rattle.std.specs.Option.{option_copied};
    ghost use Rattle.aws_world.specs.ScriptLink.{scripts_left, piece_of};

    /// A link whose connections go by these scripts, one after another, and give at most `piece`
    /// bytes at a time. It takes no memory.
    pub fn new(alloc: Global, scripts: List<Script>, piece: u32) -> ScriptLink
        requires { 1 ≤ piece }
        ensures told { ⟦<ScriptLink as Link>⟧.told result ≡ Some [] }
        ensures none_live { ⟦<ScriptLink as Link>⟧.live result ≡ false }
        ensures faults { ⟦<ScriptLink as Link>⟧.faults result ≡ 0 }
        ensures scripts { scripts_left result ≡ scripts }
        ensures piece { piece_of result ≡ piece }
    {
        ScriptLink {
            scripts: VecDeque::from_vec(scripts.into_vec()),
            piece,
            talk: None,
            heard: false,
            log: ConnectionLog::new(alloc),
            faults: 0,
        }
    }

    /// The connections so far, oldest first; None where the link tells nothing for want of memory.
    pub fn connections(&self) -> Option<&[Connection]>
        ensures { option_copied result ≡ ⟦<ScriptLink as Link>⟧.told self.now }
    {
        self.log.kept()
    }

    pub fn faults(&self) -> u64
        ensures { result ≡ ⟦<ScriptLink as Link>⟧.faults self.now }
    {
        self.faults
    }
}

impl Link for ScriptLink {
    ghost use Rattle.std.specs.Prelude.{◌+◌, true, false, Some, [], ◌∷◌, ◌++◌, length, take, drop, min, is_some, is_ok, IfOk, IfErr, OnOk, IfSome, OnErr};
    ghost use Rattle.std.specs.Result.{result_ok};
    ghost use Rattle.aws_world.specs.Told.{HasCause};
    ghost use Rattle.aws_world.specs.Connection.{fresh, refused, more_sent, more_received, peer_ended};
    ghost use Rattle.aws_world.specs.Talk.{next_talk, sending, less_taken, receiving, reply_left};
    ghost use Rattle.aws_world.specs.ScriptLink.{connections_told, scripts_left, piece_of, talk_of, is_heard, faults_of};

    ghost told = { connections_told };

    ghost live = { λ link. is_some (talk_of link) };

    ghost heard = { is_heard };

    ghost faults = { faults_of };

    fn connect(&mut self, host: &Text, port: u16) -> Result<(), LinkFault>
        requires { is_some (talk_of self.old) ≡ false }
        ensures live { is_some (talk_of self.new) ≡ is_ok result }
        ensures unheard { OnOk result (is_heard self.new ≡ false) }
        ensures made { OnOk result (Tells (connections_told self.old) (connections_told self.new)
            (λ before after. after ≡ before ++ fresh host.now port ∷ [])) }
        ensures refused { IfErr result (λ fault. Tells (connections_told self.old) (connections_told self.new)
            (λ before after. after ≡ before ++ refused fault host.now port ∷ [])) }
        ensures cause { HasCause (faults_of self.old) (faults_of self.new) result }

        // What this link does beyond any link.
        ensures begun { talk_of self.new ≡ result_ok (next_talk (scripts_left self.old)) }
        ensures why { IfErr result (λ fault. next_talk (scripts_left self.old) ≡ Err fault) }
        ensures risen { OnErr result (faults_of self.new ≡ one_more (faults_of self.old)) }
        ensures level { OnOk result (faults_of self.new ≡ faults_of self.old) }
        ensures later { scripts_left self.new ≡ drop 1 (scripts_left self.old) }
        ensures piece { piece_of self.new ≡ piece_of self.old }
    {
        self.heard = false;
        match Talk::next(&mut self.scripts) {
            Ok(talk) => {
                self.talk = Some(talk);
                self.log.add(host, port, None);
                Ok(())
            }
            Err(fault) => {
                self.talk = None;
                self.faults = self.faults.saturating_add(1);
                self.log.add(host, port, Some(fault));
                Err(fault)
            }
        }
    }

    fn send(&mut self, piece: &[u8]) -> Result<usize, LinkFault>
        requires live { is_some (talk_of self.old) ≡ true }
        requires unheard { is_heard self.old ≡ false }
        requires some { 0 < length piece.now }
        ensures live { is_some (talk_of self.new) ≡ true }
        ensures unheard { is_heard self.new ≡ false }
        ensures some { IfOk result (λ count. 0 < count) }
        ensures within { IfOk result (λ count. count ≤ length piece.now) }
        ensures sent { IfOk result (λ count. Tells (connections_told self.old) (connections_told self.new)
            (λ before after. after ≡ on_last (more_sent (take count piece.now)) before)) }
        ensures failed { IfErr result (λ fault. Tells (connections_told self.old) (connections_told self.new)
            (λ before after. after ≡ on_last (faulted fault) before)) }
        ensures cause { HasCause (faults_of self.old) (faults_of self.new) result }

        // What this link does beyond any link.
        ensures taken { IfSome (talk_of self.old) (λ talk. result ≡ sending talk.stop_send (length piece.now)) }
        ensures rest { IfSome (talk_of self.old) (λ talk. IfOk result (λ count. talk_of self.new
            ≡ Some (record talk { stop_send = less_taken count talk.stop_send }))) }
        ensures same { OnErr result (talk_of self.new ≡ talk_of self.old) }
        ensures risen { OnErr result (faults_of self.new ≡ one_more (faults_of self.old)) }
        ensures level { OnOk result (faults_of self.new ≡ faults_of self.old) }
        ensures scripts { scripts_left self.new ≡ scripts_left self.old }
        ensures piece { piece_of self.new ≡ piece_of self.old }
    {
        let Some(talk) = &mut self.talk else {
            unreachable!()
        };
        match talk.send(piece.len()) {
            Ok(count) => {
                let (front, _) = piece.split_at(count);
                self.log.add_sent(front);
                Ok(count)
            }
            Err(fault) => {
                note_fault(&mut self.log, &mut self.faults, fault);
                Err(fault)
            }
        }
    }

    fn receive(&mut self, room: &mut [u8]) -> Result<usize, LinkFault>
        requires live { is_some (talk_of self.old) ≡ true }
        requires some { 0 < length room.old }
        ensures live { is_some (talk_of self.new) ≡ true }
        ensures heard { is_heard self.new ≡ true }
        ensures within { IfOk result (λ count. count ≤ length room.new) }
        ensures ended { IfOk result (λ count. count ≡ 0 → Tells (connections_told self.old) (connections_told self.new)
            (λ before after. after ≡ on_last peer_ended before)) }
        ensures received { IfOk result (λ count. 0 < count → Tells (connections_told self.old) (connections_told self.new)
            (λ before after. after ≡ on_last (more_received (take count room.new)) before)) }
        ensures failed { IfErr result (λ fault. Tells (connections_told self.old) (connections_told self.new)
            (λ before after. after ≡ on_last (faulted fault) before)) }
        ensures cause { HasCause (faults_of self.old) (faults_of self.new) result }

        // What this link does beyond any link.
        ensures given { IfSome (talk_of self.old) (λ talk. result ≡ receiving (min (length room.old) (piece_of self.old)) talk) }
        ensures bytes { IfSome (talk_of self.old) (λ talk. IfOk result (λ count. take count room.new ≡ take count (reply_left talk))) }
        ensures rest { IfSome (talk_of self.old) (λ talk. IfOk result (λ count. talk_of self.new
            ≡ Some (record talk { given = talk.given + count }))) }
        ensures same { OnErr result (talk_of self.new ≡ talk_of self.old) }
        ensures risen { OnErr result (faults_of self.new ≡ one_more (faults_of self.old)) }
        ensures level { OnOk result (faults_of self.new ≡ faults_of self.old) }
        ensures scripts { scripts_left self.new ≡ scripts_left self.old }
        ensures piece { piece_of self.new ≡ piece_of self.old }
    {
        self.heard = true;
        let Some(talk) = &mut self.talk else {
            unreachable!()
        };
        match talk.receive(room, self.piece) {
            Ok(0) => {
                self.log.add_end();
                Ok(0)
            }
            Ok(count) => {
                let (front, _) = room.split_at(count);
                self.log.add_received(front);
                Ok(count)
            }
            Err(fault) => {
                note_fault(&mut self.log, &mut self.faults, fault);
                Err(fault)
            }
        }
    }

    fn close(&mut self)
        ensures none_live { is_some (talk_of self.new) ≡ false }
        ensures same { Tells (connections_told self.old) (connections_told self.new) (λ before after. after ≡ before) }
        ensures later { faults_of self.old ≤ faults_of self.new }

        // What this link does beyond any link.
        ensures level { faults_of self.new ≡ faults_of self.old }
        ensures scripts { scripts_left self.new ≡ scripts_left self.old }
        ensures piece { piece_of self.new ≡ piece_of self.old }
    {
        self.talk = None;
    }
}

/// Counts a fault, with which the last connection ended.
fn note_fault(log: &mut ConnectionLog, faults: &mut u64, fault: LinkFault)
    ensures told { Tells (told_of log.old) (told_of log.new)
        (λ before after. after ≡ on_last (faulted fault) before) }
    ensures later { faults.old ≤ faults.new }
    ensures rose { Rose faults.old faults.new }
    ensures risen { faults.new ≡ one_more faults.old }
{
    *faults = faults.saturating_add(1);
    log.add_fault(fault);
}
