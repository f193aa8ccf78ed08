// What is left of a reply.
ghost use Rattle.std.specs.Prelude.{◌≡◌, ◌+◌, ◌≤◌, ◌<◌, ◌++◌, [], length, take, drop, IfOk};
ghost use Rattle.world_face.specs.Journal.{TcpWrite, count_of};
ghost use Rattle.world_face.specs.Tells.{Answers};
ghost use Rattle.rules_control.specs.Talk.{longest_reply, most_at_once};

use crate::session::LONGEST_REPLY;
use net_octets::NoMemory;
use std::alloc::Global;
use std::marker::Model;
use world_face::{Io, MOST_TO_FLOW, World};

#[derive(Drop)]
pub(crate) struct Reply {
    octets: Vec<u8>,
    from: usize,
    to: usize,
}

impl Model for Reply {
    ghost use Rattle.std.specs.Prelude.{◌≡◌, ◌-◌, ◌≤◌, length, take, drop};
    ghost use Rattle.rules_control.specs.Talk.{Pending};

    ghost Value = { Pending };

    ghost view = { λ r. record { left = take (r.to - r.from) (drop r.from r.octets.items); room = 280000 - r.to } };

    ghost invariant = { λ r. (r.from ≤ r.to) × (r.to ≤ 280000) × (length r.octets.items ≡ 280000) };
}

impl Reply {
    pub(crate) fn open(alloc: Global) -> Result<Reply, NoMemory>
        ensures { IfOk result (λ reply. reply.left ≡ []) }
    {
        let Ok(octets) = vec![in alloc; 0; LONGEST_REPLY] else {
            return Err(NoMemory);
        };
        Ok(Reply {
            octets,
            from: 0,
            to: 0,
        })
    }

    pub(crate) fn clear(&mut self)
        ensures { self.new.left ≡ [] }
    {
        self.from = 0;
        self.to = 0;
    }

    pub(crate) fn left(&self) -> &[u8]
        ensures { result.now ≡ self.now.left }
    {
        &self.octets[self.from..self.to]
    }

    // Moves what is left to the front.
    fn settle(&mut self)
        ensures left { self.new.left ≡ self.old.left }
        ensures room { self.new.room + length self.new.left ≡ longest_reply }
    {
        self.octets.copy_within(self.from..self.to, 0);
        self.to -= self.from;
        self.from = 0;
    }

    // Puts octets at the end.
    pub(crate) fn put(&mut self, octets: &[u8])
        requires { length self.old.left + length octets.now ≤ longest_reply }
        ensures { self.new.left ≡ self.old.left ++ octets.now }
    {
        if octets.len() <= LONGEST_REPLY - self.to {
            self.append(octets);
        } else {
            self.settle();
            self.append(octets);
        }
    }

    fn append(&mut self, octets: &[u8])
        requires { length octets.now ≤ self.old.room }
        ensures { self.new.left ≡ self.old.left ++ octets.now }
    {
        let to = self.to + octets.len();
        write_part(&mut self.octets, self.to, octets);
        self.to = to;
    }

    // Offers the front of what is left.
    pub(crate) fn write<W: World>(&mut self, world: &mut W, connection: u64) -> Io
        requires { 0 < length self.old.left }
        ensures call { Answers (W.tells world.old) (W.tells world.new) (TcpWrite connection (take most_at_once self.old.left) result) }
        ensures left { self.new.left ≡ drop (count_of result) self.old.left }
    {
        let offered = self.left().len().min(MOST_TO_FLOW);
        let answer = world.tcp_write(connection, &self.octets[self.from..self.from + offered]);
        self.from += answer.count();
        answer
    }
}

// Writes octets to a place of a buffer.
fn write_part(into: &mut [u8], at: usize, octets: &[u8])
    requires { at + length octets.now ≤ length into.old }
    ensures before { take (at + length octets.now) into.new ≡ take at into.old ++ octets.now }
    ensures size { length into.new ≡ length into.old }
{
    into[at..at + octets.len()].copy_from_slice(octets);
}
