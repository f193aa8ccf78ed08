//! A table of the flows of a network: which slot has which two ends, and which slot is taken next. A slot *is in TIME-WAIT* where its flow is in TIME-WAIT.
//!
//! Proved:
//! - Slots of flows as a list, with the order in which they came to TIME-WAIT, in which each number stands once (`kept`): `FlowTable::open` has them free, `find` is
//!   None exactly where no slot has the tuple, and no other slot has it. `find_counted` answers the same (`found`, `alone`, `none`), and where 2^k is at least the
//!   number of slots with at most k + 1 comparisons (`few`): 13 for 4,096. A comparison is `Steps::order`, which counts as one step (`step`; `open`, `tick`).
//! - `take` gives a free slot, else the one that has been in TIME-WAIT longest, None exactly where every slot is in use. `in_time_wait`, `free`.
#![tactic(auto)]

ghost use Rattle.std.specs.Prelude.{◌≡◌, ℕ, ◌+◌, ◌^◌, ◌<◌, ◌≤◌, List, [], ◌∷◌, ◌++◌, length, slice_set, vec_len, IfOk, IfSome, IfNone, Some};
ghost use Rattle.spec_flows.specs.declared.Tuple.{Tuple};
ghost use Rattle.flow_table.specs.declared.Slot.TheVariants.{Free, InUse, InTimeWait};
ghost use Rattle.flow_table.specs.Slots.{AreKept, HasTuple, HasSome, NoneHas, NoneIsFree, NoneInTimeWait, MayBeTaken, all_free, flows, moved_last, tuple_of, with_slot};
ghost use Rattle.flow_table.specs.Rows.{AreEntries, AreFree, AreTimeWaits, IsVacated, tuple_cmp};
ghost use Rattle.std.specs.List.{range_with_len};
ghost use Rattle.std.specs.Ordering.{nat_cmp, ordering_then};
ghost use Rattle.std.specs.Vec.{vec_capacity};

mod entries;
mod time_waits;

use entries::{insert_entry, place_of, remove_entry, search, slot_found};
use net_octets::{Endpoint, NoMemory};
use spec_flows::Tuple;
use std::alloc::{AllocError, Global};
use std::cmp::Ordering;
use std::marker::Model;
use std::sync::ledger::{Blank, Book, Ledger, Share};
use time_waits::{end_time_wait, insert_time_wait, move_last};

/// How many comparisons of tuples were made. It takes no octets, and `tick` alone changes it.
#[derive(Drop)]
pub struct Steps<L: Ledger> {
    book: Book<L>,
    share: Share<L>,
}

impl<L: Ledger> Model for Steps<L> {
    ghost use Rattle.std.specs.Prelude.{ℕ, ◌<◌};

    ghost Value = { ℕ };

    ghost view = { λ steps. steps.book.total };

    ghost invariant = { λ steps. 0 < steps.share.parts };
}

impl<L: Ledger> Steps<L> {
    /// None was made.
    pub fn open(blank: Blank) -> Steps<L>
        requires name { blank.name ≡ L.name }
        requires parts { blank.parts ≡ L.parts }
        requires some { 0 < blank.parts }
        ensures { result ≡ 0 }
    {
        let (book, share) = blank.open::<L>();
        Steps { book, share }
    }

    /// One more was made.
    pub fn tick(&mut self)
        ensures { self.new ≡ self.old + 1 }
    {
        self.book.add(&mut self.share, 1);
    }

    /// Which of two tuples stands first: by guest address, guest port, other address and other
    /// port. It is one step.
    pub fn order(&mut self, one: &Tuple, other: &Tuple) -> Ordering
        ensures order { result ≡ tuple_cmp one.now other.now }
        ensures step { self.new ≡ self.old + 1 }
    {
        self.tick();
        compare(one, other)
    }
}

/// The order of two tuples.
fn compare(one: &Tuple, other: &Tuple) -> Ordering
    ensures { result ≡ tuple_cmp one.now other.now }
{
    let guests = compare_ends(&one.guest, &other.guest);
    guests.then(compare_ends(&one.other, &other.other))
}

/// The order of two ends: by address, then by port.
fn compare_ends(one: &Endpoint, other: &Endpoint) -> Ordering
    ensures { result ≡ ordering_then (nat_cmp one.now.addr.0 other.now.addr.0) (nat_cmp one.now.port other.now.port) }
{
    let addresses = one.addr.0.cmp(&other.addr.0);
    addresses.then(one.port.cmp(&other.port))
}

/// A tuple with its slot, as it stands in the row by tuple.
#[derive(Clone, Copy)]
struct Entry {
    tuple: Tuple,
    slot: usize,
}

/// A slot in TIME-WAIT, and the moment since when it is, as it stands in the row of TIME-WAITs.
#[derive(Clone, Copy)]
struct TimeWait {
    slot: usize,
    since: u64,
}

/// A slot has no flow, one that is in use, or one in TIME-WAIT whose host socket is closed
/// (RFC 9293, 3.6.1), with the moment since when it is in TIME-WAIT, in milliseconds.
#[derive(Clone, Copy, Debug, PartialEq, Eq)]
pub enum Slot {
    Free,
    InUse(Tuple),
    InTimeWait(Tuple, u64),
}

/// A fixed number of slots for flows. A contract sees a list of slots, and their numbers in the
/// order in which each last entered TIME-WAIT, the latest last. No two slots have the same tuple.
///
/// Beside these the tuples stand in their order with their slots, the slots in TIME-WAIT with the longest
/// rest first, and the free ones on a stack.
#[derive(Drop)]
pub struct FlowTable {
    slots: Vec<Slot>,
    time_wait_order: Vec<usize>,
    entries: Vec<Entry>,
    time_waits: Vec<TimeWait>,
    free: Vec<usize>,
}

impl Model for FlowTable {
    ghost use Rattle.flow_table.specs.Slots.{Flows, flows};
    ghost use Rattle.flow_table.specs.Rows.{IsTable};
    ghost use Rattle.std.specs.Vec.{vec_capacity};

    ghost Value = { Flows };

    ghost view = { λ table. flows table.slots.items table.time_wait_order.items };

    ghost invariant = { λ table. IsTable table.slots.items table.time_wait_order.items table.entries.items table.time_waits.items table.free.items
        (vec_capacity table.entries) (vec_capacity table.time_waits) (vec_capacity table.free) };
}

impl FlowTable {
    /// A table with `slots` free slots, one at least. No other call takes memory.
    ///
    /// # Errors
    /// `NoMemory` where no memory is left.
    pub fn open(alloc: Global, slots: usize) -> Result<FlowTable, NoMemory>
        requires { 1 ≤ slots }
        ensures { IfOk result (λ table. table ≡ all_free slots) }
    {
        let Ok(time_wait_order) = slot_numbers(alloc, slots) else {
            return Err(NoMemory);
        };
        let Ok(free) = slot_numbers(alloc, slots) else {
            return Err(NoMemory);
        };
        let Ok(entries) = Vec::with_capacity(alloc, slots) else {
            return Err(NoMemory);
        };
        let Ok(time_waits) = Vec::with_capacity(alloc, slots) else {
            return Err(NoMemory);
        };
        let Ok(slots) = vec![in alloc; Slot::Free; slots] else {
            return Err(NoMemory);
        };
        Ok(FlowTable {
            slots,
            time_wait_order,
            entries,
            time_waits,
            free,
        })
    }

    /// The slot that has the tuple, in use or in TIME-WAIT. None exactly where no slot has it.
    pub fn find(&self, t: &Tuple) -> Option<usize>
        ensures found { IfSome result (λ slot. HasTuple self.now.slots slot t.now) }
        ensures alone { IfSome result (λ slot. (other : ℕ) → HasTuple self.now.slots other t.now
            → other ≡ slot) }
        ensures none { IfNone result (NoneHas self.now.slots t.now) }
        // No two slots have one tuple, and each slot's number stands once in the order of TIME-WAITs.
        ensures kept { AreKept self.now.slots self.now.time_wait_order }
    {
        let found = place_of(&self.entries, t);
        slot_found(&self.entries, found)
    }

    /// The slot that has the tuple, found by the walk of `find`, whose comparisons are counted: at most one
    /// more than the logarithm of the number of slots to base 2, rounded up.
    pub fn find_counted<L: Ledger>(&self, t: &Tuple, steps: &mut Steps<L>) -> Option<usize>
        ensures found { IfSome result (λ slot. HasTuple self.now.slots slot t.now) }
        ensures alone { IfSome result (λ slot. (other : ℕ) → HasTuple self.now.slots other t.now
            → other ≡ slot) }
        ensures none { IfNone result (NoneHas self.now.slots t.now) }
        // Where 2 ^ k is at least the number of slots, at most k + 1.
        ensures few { (k : ℕ) → length self.now.slots ≤ 2 ^ k → steps.new ≤ steps.old + k + 1 }
    {
        let found = search(&self.entries, t, steps);
        slot_found(&self.entries, found)
    }

    /// Gives a slot to the tuple, which no slot has: a free one, else the one that has been in TIME-WAIT
    /// longest, of those that are in TIME-WAIT since the same moment the one that entered TIME-WAIT first. None
    /// exactly where every slot is in use and none is in TIME-WAIT.
    /// Which of several free slots is taken is left open.
    pub fn take(&mut self, t: &Tuple) -> Option<usize>
        requires { NoneHas self.old.slots t.now }
        ensures which { IfSome result (λ slot. MayBeTaken self.old slot) }
        ensures taken { IfSome result (λ slot. self.new ≡ with_slot self.old slot (InUse t.now)) }
        ensures free { IfNone result (NoneIsFree self.old.slots) }
        ensures in_time_wait { IfNone result (NoneInTimeWait self.old.slots) }
        ensures unchanged { IfNone result (self.new ≡ self.old) }
    {
        let slot = vacate(
            &self.slots,
            &mut self.entries,
            &mut self.time_waits,
            &mut self.free,
        )?;
        insert_entry(&mut self.entries, Entry { tuple: *t, slot });
        self.slots[slot] = Slot::InUse(*t);
        Some(slot)
    }

    /// The flow in a slot that has one is in TIME-WAIT since this moment, in milliseconds, whether
    /// it was in TIME-WAIT before or not.
    /// The order of TIME-WAITs is a list of slot numbers of fixed length, so no counter can run out.
    pub fn in_time_wait(&mut self, slot: usize, since: u64)
        requires { HasSome self.old.slots slot }
        ensures { (t : Tuple) → HasTuple self.old.slots slot t
            → self.new ≡ flows (slice_set self.old.slots slot (InTimeWait t since))
            (moved_last slot self.old.time_wait_order) }
    {
        if let Some(tuple) = self.slots[slot].tuple() {
            end_time_wait(&self.slots, &mut self.time_waits, slot);
            insert_time_wait(&mut self.time_waits, TimeWait { slot, since });
            self.slots[slot] = Slot::InTimeWait(tuple, since);
            move_last(&mut self.time_wait_order, slot);
        }
    }

    /// Makes a slot that has a flow free.
    pub fn free(&mut self, slot: usize)
        requires { HasSome self.old.slots slot }
        ensures { self.new ≡ with_slot self.old slot Free }
    {
        release(&self.slots, &mut self.entries, &mut self.time_waits, slot);
        give_back(&mut self.free, slot);
        self.slots[slot] = Slot::Free;
    }
}

impl Slot {
    /// The tuple that it has.
    fn tuple(&self) -> Option<Tuple>
        ensures { result ≡ tuple_of self.now }
    {
        match *self {
            Slot::Free => None,
            Slot::InUse(tuple) => Some(tuple),
            Slot::InTimeWait(tuple, _) => Some(tuple),
        }
    }
}

/// The numbers of so many slots, by number.
fn slot_numbers(alloc: Global, slots: usize) -> Result<Vec<usize>, AllocError>
    ensures items { IfOk result (λ numbers. numbers.items ≡ range_with_len 0 slots) }
    ensures room { IfOk result (λ numbers. slots ≤ vec_capacity numbers) }
{
    let mut numbers = vec![in alloc; 0; slots]?;
    for (k, number) in numbers.iter_mut().enumerate() {
        *number = k;
    }
    Ok(numbers)
}

/// Takes a slot that may be taken: a free one, or else the one that has been in TIME-WAIT the longest, which
/// gives its tuple up.
fn vacate(
    slots: &[Slot],
    entries: &mut Vec<Entry>,
    time_waits: &mut Vec<TimeWait>,
    free: &mut Vec<usize>,
) -> Option<usize>
    requires entries { AreEntries slots.now entries.old.items }
    requires time_waits { (time_wait_order : List ℕ) × AreTimeWaits slots.now time_wait_order time_waits.old.items }
    requires free { AreFree slots.now free.old.items }
    ensures none { IfNone result (NoneIsFree slots.now) }
    ensures in_time_wait { IfNone result (NoneInTimeWait slots.now) }
    ensures unchanged { IfNone result ((entries.new.items ≡ entries.old.items) × (time_waits.new.items ≡ time_waits.old.items) × (free.new.items ≡ free.old.items)) }
    ensures vacated { IfSome result (λ slot. IsVacated slots.now slot time_waits.old.items entries.new.items time_waits.new.items free.new.items) }
    ensures count { IfSome result (λ slot. length entries.new.items + length free.new.items + 1 ≡ length entries.old.items + length free.old.items) }
    ensures room { vec_capacity entries.new ≡ vec_capacity entries.old }
    ensures bed { vec_capacity time_waits.new ≡ vec_capacity time_waits.old }
    ensures stack { vec_capacity free.new ≡ vec_capacity free.old }
{
    match free.pop() {
        Some(slot) => Some(slot),
        None => {
            let slot = time_waits.first()?.slot;
            release(slots, entries, time_waits, slot);
            Some(slot)
        }
    }
}

/// Takes a slot out of both rows.
fn release(slots: &[Slot], entries: &mut Vec<Entry>, time_waits: &mut Vec<TimeWait>, slot: usize)
    requires entries { AreEntries slots.now entries.old.items }
    requires time_waits { (time_wait_order : List ℕ) × AreTimeWaits slots.now time_wait_order time_waits.old.items }
    requires some { HasSome slots.now slot }
    ensures entries { AreEntries (slice_set slots.now slot Free) entries.new.items }
    ensures one { length entries.new.items + 1 ≡ length entries.old.items }
    ensures time_waits { (time_wait_order : List ℕ) → AreTimeWaits slots.now time_wait_order time_waits.old.items
        → AreTimeWaits (slice_set slots.now slot Free) time_wait_order time_waits.new.items }
    ensures room { vec_capacity entries.new ≡ vec_capacity entries.old }
    ensures bed { vec_capacity time_waits.new ≡ vec_capacity time_waits.old }
{
    end_time_wait(slots, time_waits, slot);
    if let Some(tuple) = slots[slot].tuple() {
        remove_entry(entries, &tuple);
    }
}

/// Puts a slot to the free ones.
fn give_back(free: &mut Vec<usize>, slot: usize)
    requires { vec_len free.old < vec_capacity free.old }
    ensures items { free.new.items ≡ free.old.items ++ slot ∷ [] }
    ensures room { vec_capacity free.old ≤ vec_capacity free.new }
{
    let _ = free.push(slot);
}
