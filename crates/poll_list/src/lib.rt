//! Lists of what a program waits for, and of what became ready.
//!
//! Proved: `Wants` and `ReadyList` are lists: `open`, `clear`, `add`, `add_all`, `truncate`, `items`. How many of the wants are for writing is counted as they come and
//! go (`writes`). `is_among` says exactly whether something is among them in a direction.
//!
//! Let through (rt plant): nothing.
#![tactic(auto)]

mod among;

ghost use Rattle.std.specs.Prelude.{◌≡◌};
ghost use Rattle.poll_list.specs.Writes.{count_to_write};

pub use among::is_among;
use std::alloc::{AllocError, Global};
use std::marker::Model;

/// What can become ready: the link, or a socket by its number.
#[derive(Clone, Copy, Debug, PartialEq, Eq)]
pub enum Who {
    Link,
    Listener(u64),
    Udp(u64),
    Tcp(u64),
}

/// The directions in which something is wanted or ready: for reading, for writing, or both.
#[derive(Clone, Copy, Debug, PartialEq, Eq)]
pub struct Want {
    pub of: Who,
    pub read: bool,
    pub write: bool,
}

/// A direction in which something is wanted or ready.
#[derive(Clone, Copy, Debug, PartialEq, Eq)]
pub enum Way {
    Read,
    Write,
}

/// What a wait is for: a list with room for a fixed number of wants, all of it taken at opening.
/// It stands in the order link, listeners, UDP sockets, TCP sockets, each by rising number.
#[derive(Drop)]
pub struct Wants {
    list: Vec<Want>,
    room: usize,
    // How many of the list are for writing.
    writes: usize,
    // How long a first part of the list is, and how many of that part are for writing: what stood before the list that was put last, or was left.
    base: usize,
    base_writes: usize,
}

impl Model for Wants {
    ghost use Rattle.std.specs.Prelude.{◌≡◌, ◌≤◌, length, take};
    ghost use Rattle.std.specs.Vec.{vec_capacity};
    ghost use Rattle.poll_list.specs.Listing.{Listing};
    ghost use Rattle.poll_list.specs.Writes.{count_to_write};

    ghost Value = { Listing };

    ghost view = { λ w. record { items = w.list.items; capacity = w.room } };

    ghost invariant = { λ w. (length w.list.items ≤ w.room) × (w.room ≤ vec_capacity w.list)
        × (w.writes ≡ count_to_write w.list.items) × (w.base ≤ length w.list.items) × (w.base_writes ≡ count_to_write (take w.base w.list.items)) };
}

impl Wants {
    ghost use Rattle.std.specs.Prelude.{◌≡◌, ◌+◌, ◌<◌, ◌≤◌, [], ◌∷◌, ◌++◌, IfOk, length, take};

    /// An empty list with room for `capacity` wants.
    pub fn open(alloc: Global, capacity: usize) -> Result<Wants, AllocError>
        ensures empty { IfOk result (λ wants. wants.items ≡ []) }
        ensures capacity { IfOk result (λ wants. wants.capacity ≡ capacity) }
    {
        let list = Vec::with_capacity(alloc, capacity)?;
        Ok(Wants {
            list,
            room: capacity,
            writes: 0,
            base: 0,
            base_writes: 0,
        })
    }

    /// Takes away all wants; the room stays.
    pub fn clear(&mut self)
        ensures items { self.new.items ≡ [] }
        ensures capacity { self.new.capacity ≡ self.old.capacity }
    {
        self.list.clear();
        self.writes = 0;
        self.base = 0;
        self.base_writes = 0;
    }

    /// Puts a want at the end.
    #[tactic(auto, using(crate::proofs::Counting::count_kept))]
    pub fn add(&mut self, w: Want)
        requires { length self.old.items < self.old.capacity }
        ensures items { self.new.items ≡ self.old.items ++ w ∷ [] }
        ensures capacity { self.new.capacity ≡ self.old.capacity }
    {
        self.list.push_reserved(w);
        if w.write {
            self.writes += 1;
        }
    }

    /// Puts all of a list at the end, in its order. `writes` says how many of them are for writing, so that none is looked at.
    #[tactic(auto, using(crate::proofs::Counting::count_appended, crate::proofs::Counting::count_before))]
    pub fn add_all(&mut self, wants: &[Want], writes: usize)
        requires room { length self.old.items + length wants.now ≤ self.old.capacity }
        requires writes { writes ≡ count_to_write wants.now }
        ensures items { self.new.items ≡ self.old.items ++ wants.now }
        ensures capacity { self.new.capacity ≡ self.old.capacity }
    {
        if wants.is_empty() {
            return;
        }
        let base = self.list.len();
        if self.list.extend_from_slice(wants).is_err() {
            unreachable!();
        }
        self.base = base;
        self.base_writes = self.writes;
        self.writes += writes;
    }

    /// Takes away all but the first `len`; nothing where there are no more. What was put by the last `add_all` alone is taken away without a look at it.
    #[tactic(auto, using(crate::proofs::Counting::count_all))]
    pub fn truncate(&mut self, len: usize)
        ensures items { self.new.items ≡ take len self.old.items }
        ensures capacity { self.new.capacity ≡ self.old.capacity }
    {
        if len >= self.list.len() {
            return;
        }
        let left = self.writes_before(len);
        self.list.truncate(len);
        self.writes = left;
        self.base = self.list.len();
        self.base_writes = left;
    }

    // How many of the first `len` wants are for writing.
    fn writes_before(&self, len: usize) -> usize
        requires { len ≤ length self.now.items }
        ensures { result ≡ count_to_write (take len self.now.items) }
    {
        if len == self.base {
            self.base_writes
        } else {
            count_writes(&self.list[..len])
        }
    }

    /// The wants, in the order in which they were put.
    pub fn items(&self) -> &[Want]
        ensures { result.now ≡ self.now.items }
    {
        self.list.as_slice()
    }

    /// How many of the wants are for writing, that of the link among them. No want is looked at: the count is kept as wants are put and taken away.
    pub fn writes(&self) -> usize
        ensures { result ≡ count_to_write self.now.items }
    {
        self.writes
    }
}

// How many of some wants are for writing.
fn count_writes(wants: &[Want]) -> usize
    ensures { result ≡ count_to_write wants.now }
{
    wants.iter().filter(|want| want.write).count()
}

/// What a wait reported: a list with room for a fixed number of items, all of it taken at opening.
#[derive(Drop)]
pub struct ReadyList {
    list: Wants,
}

impl Model for ReadyList {
    ghost use Rattle.poll_list.specs.Listing.{Listing};

    ghost Value = { Listing };

    ghost view = { λ r. r.list };
}

impl ReadyList {
    ghost use Rattle.std.specs.Prelude.{◌≡◌, ◌<◌, [], ◌∷◌, ◌++◌, IfOk, length};

    /// An empty list with room for `capacity` items.
    pub fn open(alloc: Global, capacity: usize) -> Result<ReadyList, AllocError>
        ensures empty { IfOk result (λ ready. ready.items ≡ []) }
        ensures capacity { IfOk result (λ ready. ready.capacity ≡ capacity) }
    {
        let list = Wants::open(alloc, capacity)?;
        Ok(ReadyList { list })
    }

    /// Takes away all that was reported; the room stays.
    pub fn clear(&mut self)
        ensures items { self.new.items ≡ [] }
        ensures capacity { self.new.capacity ≡ self.old.capacity }
    {
        self.list.clear();
    }

    /// Puts an item at the end.
    pub fn add(&mut self, w: Want)
        requires { length self.old.items < self.old.capacity }
        ensures items { self.new.items ≡ self.old.items ++ w ∷ [] }
        ensures capacity { self.new.capacity ≡ self.old.capacity }
    {
        self.list.add(w);
    }

    /// What was reported, in the order in which it was put.
    pub fn items(&self) -> &[Want]
        ensures { result.now ≡ self.now.items }
    {
        self.list.items()
    }
}
