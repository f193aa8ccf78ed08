//! Rows that stand in order. A queue of slots by their numbers, the least first: a moment, or the number of what stands in a slot. Each slot has one number at most,
//! and is found by it and by itself.
//!
//! Beside it, in proofs/, lemmas over any type of items: what a row has, place by place, after one is written, taken out or put in; and how many numbers a row has that
//! differ and are below a bound.
//!
//! Proved:
//! - A number for each slot: `SlotQueue::open`, `set`, `clear`, `least`, `first_up_to` (`first`, `none`), each exactly.
//! - Lemmas alone: what a row has, place by place, after a write, a removal or an insert; and that items whose numbers differ and are below a bound are no more than
//!   the bound.
#![tactic(auto)]

ghost use Rattle.std.specs.Prelude.{◌≡◌, ℕ, ◌<◌, ◌≤◌, List, length, replicate, slice_get, slice_set, vec_len, IfOk, IfSome, IfNone, IsTrue, ◌↔◌, Option, None, Some};
ghost use Rattle.std.specs.List.{insert, remove};
ghost use Rattle.std.specs.Vec.{vec_capacity};
ghost use Rattle.ordered_rows.specs.Numbers.{AllAbove, IsLeast, IsLeastUpTo, NoNumbers};
ghost use Rattle.ordered_rows.specs.Rows.{AreQueued, BelongsAt, IsBefore, Rise};

use std::alloc::{AllocError, Global};
use std::marker::Model;

/// A number for each of a fixed number of slots, or none. A contract sees a list with the number of each slot that has
/// one.
#[derive(Drop)]
pub struct SlotQueue {
    numbers: Vec<Option<u64>>,
    row: Vec<Queued>,
}

impl Model for SlotQueue {
    ghost use Rattle.std.specs.Prelude.{List, Option, ℕ};

    ghost Value = { List (Option ℕ) };

    ghost use Rattle.std.specs.Vec.{vec_capacity};
    ghost use Rattle.ordered_rows.specs.Rows.{IsRow};

    ghost view = { λ q. q.numbers.items };

    ghost invariant = { λ q. IsRow q.numbers.items q.row.items (vec_capacity q.row) };
}

/// A slot that has a number.
#[derive(Clone, Copy)]
struct Queued {
    slot: usize,
    number: u64,
}

impl SlotQueue {
    /// A queue of the slots from 0 to `slots - 1`, of which none has a number. No other call takes memory.
    ///
    /// # Errors
    /// `AllocError` where no memory is left.
    pub fn open(alloc: Global, slots: usize) -> Result<SlotQueue, AllocError>
        ensures { IfOk result (λ queue. queue ≡ replicate slots None) }
    {
        let row = Vec::with_capacity(alloc, slots)?;
        let numbers = vec![in alloc; None; slots]?;
        Ok(SlotQueue { numbers, row })
    }

    /// Gives a slot a number, whether it had one before or not.
    pub fn set(&mut self, slot: usize, number: u64)
        requires { slot < length self.old }
        ensures { self.new ≡ slice_set self.old slot (Some number) }
    {
        if self.numbers[slot] != Some(number) {
            self.put(slot, number);
        }
    }

    // A slot has another number.
    fn put(&mut self, slot: usize, number: u64)
        requires { slot < length self.old }
        ensures { self.new ≡ slice_set self.old slot (Some number) }
    {
        take_from(&self.numbers, &mut self.row, slot);
        insert_queued(&mut self.row, Queued { slot, number });
        self.numbers[slot] = Some(number);
    }

    /// Takes the number of a slot, if it has one.
    pub fn clear(&mut self, slot: usize)
        requires { slot < length self.old }
        ensures { self.new ≡ slice_set self.old slot None }
    {
        if self.numbers[slot].is_some() {
            self.take_out(slot);
        }
    }

    // A slot, which has a number, has none.
    fn take_out(&mut self, slot: usize)
        requires { slot < length self.old }
        ensures { self.new ≡ slice_set self.old slot None }
    {
        take_from(&self.numbers, &mut self.row, slot);
        self.numbers[slot] = None;
    }

    /// The slot with the least number, the lowest of those that share it, where that number is at most `most`.
    pub fn first_up_to(&self, most: u64) -> Option<usize>
        ensures first { IfSome result (λ slot. IsLeastUpTo self.now most slot) }
        ensures none { IfNone result (AllAbove self.now most) }
    {
        let first = first_of(&self.row)?;
        if first.number <= most {
            Some(first.slot)
        } else {
            None
        }
    }

    /// The least number of a slot; None where no slot has one.
    pub fn least(&self) -> Option<u64>
        ensures least { IfSome result (λ n. (slot : ℕ) × IsLeast self.now slot n) }
        ensures none { IfNone result (NoNumbers self.now) }
    {
        let first = first_of(&self.row)?;
        Some(first.number)
    }
}

// The slot with the least number, the lowest where slots share it.
fn first_of(row: &[Queued]) -> Option<Queued>
    ensures least { (numbers : List (Option ℕ)) → AreQueued numbers row.now
        → IfSome result (λ first. IsLeast numbers first.slot first.number) }
    ensures none { (numbers : List (Option ℕ)) → AreQueued numbers row.now → IfNone result (NoNumbers numbers) }
{
    row.first().copied()
}

// Takes a slot out of the row, if it has a number.
fn take_from(numbers: &[Option<u64>], row: &mut Vec<Queued>, slot: usize)
    requires within { slot < length numbers.now }
    requires queued { AreQueued numbers.now row.old.items }
    ensures queued { AreQueued (slice_set numbers.now slot None) row.new.items }
    ensures room { vec_capacity row.new ≡ vec_capacity row.old }
{
    if let Some(number) = numbers[slot] {
        remove_queued(row, Queued { slot, number });
    }
}

// Takes one out of the row.
fn remove_queued(row: &mut Vec<Queued>, one: Queued)
    requires rise { Rise row.old.items }
    requires there { (i : ℕ) × (slice_get row.old.items i ≡ Some one) }
    ensures place { (place : ℕ) × ((slice_get row.old.items place ≡ Some one)
        × (row.new.items ≡ remove row.old.items place)) }
    ensures room { vec_capacity row.new ≡ vec_capacity row.old }
{
    let place = place_of(row, one);
    if place < row.len() {
        let _ = row.remove(place);
    }
}

// Puts one into its place in the row.
fn insert_queued(row: &mut Vec<Queued>, one: Queued)
    requires rise { Rise row.old.items }
    requires room { vec_len row.old < vec_capacity row.old }
    ensures place { (place : ℕ) × (BelongsAt row.old.items place one
        × (row.new.items ≡ insert row.old.items place one)) }
    ensures room { vec_capacity row.old ≤ vec_capacity row.new }
{
    let place = place_of(row, one);
    let _ = row.insert(place, one);
}

// The place of one, whether it stands there or not.
fn place_of(row: &[Queued], one: Queued) -> usize
    requires { Rise row.now }
    ensures { BelongsAt row.now result one }
{
    let mut low = 0;
    let mut size = row.len();
    while size > 0 {
        let half = size / 2;
        let middle = low + half;
        if is_before(row[middle], one) {
            low = middle + 1;
            size -= half + 1;
        } else {
            size = half;
        }
    }
    low
}

// Whether one stands before another.
fn is_before(one: Queued, other: Queued) -> bool
    ensures { IsTrue result ↔ IsBefore one other }
{
    if one.number == other.number {
        one.slot < other.slot
    } else {
        one.number < other.number
    }
}
