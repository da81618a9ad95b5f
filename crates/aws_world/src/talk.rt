ghost use Rattle.std.specs.Prelude.{◌≡◌, ◌<◌, ◌≤◌, ◌+◌, length, take, drop, min, IfOk, OnErr};
ghost use Rattle.aws_world.specs.Talk.{next_talk, sending, less_taken, receiving, reply_left};

use crate::LinkFault;
use std::collections::VecDeque;
use texts::Bytes;

/// What one connection of a `ScriptLink` does.
#[derive(Debug, Drop)]
pub struct Script {
    /// The fault of a connection that is refused.
    pub refuse: Option<LinkFault>,
    /// How many bytes are still taken, and the fault then.
    pub stop_send: Option<(u64, LinkFault)>,
    pub reply: Bytes,
    /// The fault after the reply; with None the peer ends.
    pub after: Option<LinkFault>,
}

/// How far a live connection has come in its script.
#[derive(Debug, Drop)]
pub struct Talk {
    stop_send: Option<(u64, LinkFault)>,
    reply: Bytes,
    given: usize,
    after: Option<LinkFault>,
}

impl Talk {
    /// Begins the next script, which may refuse; where the scripts have run out, the answer is
    /// Connect.
    pub fn next(scripts: &mut VecDeque<Script>) -> Result<Talk, LinkFault>
        ensures begun { result ≡ next_talk scripts.old.items }
        ensures later { scripts.new.items ≡ drop 1 scripts.old.items }
    {
        let Some(script) = scripts.pop_front() else {
            return Err(LinkFault::Connect);
        };
        if let Some(fault) = script.refuse {
            return Err(fault);
        }
        Ok(Talk {
            stop_send: script.stop_send,
            reply: script.reply,
            given: 0,
            after: script.after,
        })
    }

    /// How many of so many bytes are taken.
    pub fn send(&mut self, offered: usize) -> Result<usize, LinkFault>
        requires { 0 < offered }
        ensures taken { result ≡ sending self.old.stop_send offered }
        ensures some { IfOk result (λ count. 0 < count) }
        ensures within { IfOk result (λ count. count ≤ offered) }
        ensures rest { IfOk result (λ count. self.new
            ≡ record self.old { stop_send = less_taken count self.old.stop_send }) }
        ensures same { OnErr result (self.new ≡ self.old) }
    {
        let Some((left, fault)) = self.stop_send else {
            return Ok(offered);
        };
        if left == 0 {
            return Err(fault);
        }
        let count = left.min(offered as u64);
        self.stop_send = Some((left - count, fault));
        Ok(count as usize)
    }

    /// Puts the next bytes of the reply at the front of the room, at most so many; then the end or
    /// the fault.
    pub fn receive(&mut self, room: &mut [u8], most: u32) -> Result<usize, LinkFault>
        requires room { 0 < length room.old }
        requires some { 0 < most }
        ensures given { result ≡ receiving (min (length room.old) most) self.old }
        ensures bytes { IfOk result (λ count. take count room.new ≡ take count (reply_left self.old)) }
        ensures within { IfOk result (λ count. count ≤ length room.new) }
        ensures rest { IfOk result (λ count. self.new ≡ record self.old { given = self.old.given + count }) }
        ensures same { OnErr result (self.new ≡ self.old) }
    {
        let count = self.give(room, most);
        match self.after {
            Some(fault) if count == 0 => Err(fault),
            _ => Ok(count),
        }
    }

    /// Puts the next bytes of the reply at the front of the room, and answers how many.
    fn give(&mut self, room: &mut [u8], most: u32) -> usize
        ensures count { result ≡ min (min (length room.old) most) (length (reply_left self.old)) }
        ensures bytes { take result room.new ≡ take result (reply_left self.old) }
        ensures rest { self.new ≡ record self.old { given = self.old.given + result } }
    {
        let reply = self.reply.as_slice();
        if self.given >= reply.len() {
            return 0;
        }
        let (_, left) = reply.split_at(self.given);
        let count = room.len().min(most as usize).min(left.len());
        room[..count].copy_from_slice(&left[..count]);
        self.given += count;
        count
    }
}
