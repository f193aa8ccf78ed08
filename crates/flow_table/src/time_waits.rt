// The row in which slots in TIME-WAIT stand, the longest TIME-WAIT first, and the order in which slots entered TIME-WAIT.
ghost use Rattle.std.specs.Prelude.{◌≡◌, ◌==◌, ℕ, ◌<◌, ◌≤◌, List, length, slice_get, slice_set, vec_len, IfSome, IfNone, Some};
ghost use Rattle.std.specs.List.{position, insert, remove};
ghost use Rattle.std.specs.Vec.{vec_capacity};
ghost use Rattle.flow_table.specs.declared.Slot.TheVariants.{Free};
ghost use Rattle.flow_table.specs.Slots.{Stands, moved_last};
ghost use Rattle.flow_table.specs.Rows.{AreTimeWaits, DoNotFall, IsFirstAfter, IsFirstSince};

use crate::{Slot, TimeWait};

/// Takes a slot out of the row of TIME-WAITs, where it is in TIME-WAIT.
pub(crate) fn end_time_wait(slots: &[Slot], time_waits: &mut Vec<TimeWait>, slot: usize)
    requires within { slot < length slots.now }
    requires time_waits { (time_wait_order : List ℕ) × AreTimeWaits slots.now time_wait_order time_waits.old.items }
    ensures time_waits { (time_wait_order : List ℕ) → AreTimeWaits slots.now time_wait_order time_waits.old.items
        → AreTimeWaits (slice_set slots.now slot Free) time_wait_order time_waits.new.items }
    ensures room { vec_capacity time_waits.new ≡ vec_capacity time_waits.old }
{
    if let Slot::InTimeWait(_, since) = slots[slot] {
        remove_time_wait(time_waits, TimeWait { slot, since });
    }
}

/// Takes a TIME-WAIT out of the row.
fn remove_time_wait(time_waits: &mut Vec<TimeWait>, rest: TimeWait)
    requires order { DoNotFall time_waits.old.items }
    requires there { (i : ℕ) × (slice_get time_waits.old.items i ≡ Some rest) }
    ensures place { (place : ℕ) × ((slice_get time_waits.old.items place ≡ Some rest)
        × (time_waits.new.items ≡ remove time_waits.old.items place)) }
    ensures room { vec_capacity time_waits.new ≡ vec_capacity time_waits.old }
{
    if let Some(place) = time_wait_among(time_waits, rest) {
        let _ = time_waits.remove(place);
    }
}

/// Where a TIME-WAIT stands.
fn time_wait_among(time_waits: &[TimeWait], rest: TimeWait) -> Option<usize>
    requires { DoNotFall time_waits.now }
    ensures found { IfSome result (λ place. slice_get time_waits.now place ≡ Some rest) }
    ensures none { IfNone result ((i : ℕ) → slice_get time_waits.now i ≡ Some rest → ⊥) }
{
    let mut place = first_since(time_waits, rest.since);
    while place < time_waits.len() && time_waits[place].since == rest.since {
        if time_waits[place].slot == rest.slot {
            return Some(place);
        }
        place += 1;
    }
    None
}

/// The first place of those that aren't in TIME-WAIT longer than since this moment.
fn first_since(time_waits: &[TimeWait], since: u64) -> usize
    requires { DoNotFall time_waits.now }
    ensures { IsFirstSince time_waits.now since result }
{
    time_waits.partition_point(|rest| rest.since < since)
}

/// The first place of those that are in TIME-WAIT since a later moment.
fn first_after(time_waits: &[TimeWait], since: u64) -> usize
    requires { DoNotFall time_waits.now }
    ensures { IsFirstAfter time_waits.now since result }
{
    time_waits.partition_point(|rest| rest.since <= since)
}

/// Puts a TIME-WAIT into the row, behind those in TIME-WAIT as long.
pub(crate) fn insert_time_wait(time_waits: &mut Vec<TimeWait>, rest: TimeWait)
    requires order { DoNotFall time_waits.old.items }
    requires room { vec_len time_waits.old < vec_capacity time_waits.old }
    ensures place { (place : ℕ) × (IsFirstAfter time_waits.old.items rest.since place
        × (time_waits.new.items ≡ insert time_waits.old.items place rest)) }
    ensures room { vec_capacity time_waits.old ≤ vec_capacity time_waits.new }
{
    let place = first_after(time_waits, rest.since);
    let _ = time_waits.insert(place, rest);
}

/// Puts a number behind all others.
pub(crate) fn move_last(time_wait_order: &mut [usize], slot: usize)
    requires { Stands time_wait_order.old slot }
    ensures { time_wait_order.new ≡ moved_last slot time_wait_order.old }
{
    if let Some(at) = place_in(time_wait_order, slot) {
        time_wait_order[at..].rotate_left(1);
    }
}

/// The first place of a number.
fn place_in(time_wait_order: &[usize], slot: usize) -> Option<usize>
    ensures { result ≡ position (λ other. other == slot) time_wait_order.now }
{
    time_wait_order.iter().position(|number| *number == slot)
}
