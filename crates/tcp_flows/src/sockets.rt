//! Which slot has the socket of a number: the open sockets of flows by rising number, found without a walk.

ghost use Rattle.std.specs.Prelude.{◌≡◌, ◌<◌, [], ◌∷◌, ◌++◌, length, None, Some, IfOk, IfNone, IfSome, IsTrue};
ghost use Rattle.tcp_flows.specs.SocketPlaces.{HasNumber};
ghost use Rattle.tcp_flows.specs.Sockets.{AreBelow, Rise, after, slot_of, without};

use net_octets::NoMemory;
use std::alloc::Global;
use std::marker::Model;

/// An open socket: its number, and the slot of its flow.
#[derive(Clone, Copy)]
pub struct Numbered {
    pub number: u64,
    pub slot: usize,
}

/// Open sockets by rising number, with room for a fixed number of them. A contract sees them as a list, and the room.
#[derive(Drop)]
pub struct SocketSlots {
    rows: Vec<Numbered>,
    room: usize,
}

impl Model for SocketSlots {
    ghost use Rattle.std.specs.Prelude.{◌≤◌, length};
    ghost use Rattle.std.specs.Vec.{vec_capacity};
    ghost use Rattle.tcp_flows.specs.Sockets.{Listed, Rise};

    ghost Value = { Listed };

    ghost view = { λ s. record { rows = s.rows.items; room = s.room } };

    ghost invariant = { λ s. Rise s.rows.items × (length s.rows.items ≤ s.room) × (s.room ≤ vec_capacity s.rows) };
}

impl SocketSlots {
    /// No socket is open. All room is taken now, and no other call takes memory.
    ///
    /// # Errors
    /// `NoMemory` where no memory is left.
    pub fn open(alloc: Global, room: usize) -> Result<SocketSlots, NoMemory>
        ensures none { IfOk result (λ s. s.rows ≡ []) }
        ensures room { IfOk result (λ s. s.room ≡ room) }
    {
        let Ok(rows) = Vec::with_capacity(alloc, room) else {
            return Err(NoMemory);
        };
        Ok(SocketSlots { rows, room })
    }

    /// A socket was opened for the flow of a slot, with a number above those of all.
    pub fn push(&mut self, number: u64, slot: usize)
        requires room { length self.old.rows < self.old.room }
        requires above { AreBelow number self.old.rows }
        ensures rows { self.new.rows ≡ self.old.rows ++ record { number = number; slot = slot } ∷ [] }
        ensures room { self.new.room ≡ self.old.room }
    {
        let _ = self.rows.push(Numbered { number, slot });
    }

    /// The socket with this number was closed, where one has it.
    pub fn remove(&mut self, number: u64)
        ensures rows { self.new.rows ≡ without number self.old.rows }
        ensures room { self.new.room ≡ self.old.room }
        ensures rise { Rise self.old.rows }
    {
        if let Some(place) = place_of(&self.rows, number) {
            let _ = self.rows.remove(place);
        }
    }

    /// The slot of the socket with this number. None exactly where none has it.
    pub fn slot_of(&self, number: u64) -> Option<usize>
        ensures slot { result ≡ slot_of number self.now.rows }
        ensures rise { Rise self.now.rows }
    {
        let place = place_of(&self.rows, number)?;
        Some(self.rows[place].slot)
    }

    /// The first socket whose number is above this one, or the first of all. None exactly where there is none.
    pub fn after(&self, last: Option<u64>) -> Option<Numbered>
        ensures first { result ≡ after last self.now.rows }
        ensures rise { Rise self.now.rows }
    {
        match last {
            None => self.rows.first().copied(),
            Some(number) => first_above(&self.rows, number),
        }
    }
}

// The place of the socket with this number. None exactly where none has it.
fn place_of(rows: &[Numbered], number: u64) -> Option<usize>
    requires { Rise rows.now }
    ensures found { IfSome result (HasNumber number rows.now) }
    ensures none { IfNone result (slot_of number rows.now ≡ None) }
{
    rows.binary_search_by_key(&number, |row| row.number).ok()
}

// The first socket whose number is above this one. None exactly where there is none.
fn first_above(rows: &[Numbered], number: u64) -> Option<Numbered>
    requires { Rise rows.now }
    ensures { result ≡ after (Some number) rows.now }
{
    let place = rows.partition_point(|row| row.number <= number);
    rows.get(place).copied()
}
