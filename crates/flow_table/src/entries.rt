// The row in which tuples stand in their order, each with its slot.
ghost use Rattle.std.specs.Prelude.{◌≡◌, ℕ, ◌+◌, ◌^◌, ◌<◌, ◌≤◌, Some, length, slice_get, vec_len};
ghost use Rattle.std.specs.List.{insert, remove};
ghost use Rattle.std.specs.Vec.{vec_capacity};
ghost use Rattle.spec_flows.specs.declared.Tuple.{Tuple};
ghost use Rattle.flow_table.specs.Rows.{BelongsAt, IsPlaceOf, IsSlotIn, Rise, StandsAt, entry_of};

use crate::{Entry, Steps};
use spec_flows::Tuple;
use std::cmp::Ordering;
use std::marker::Brand;
use std::sync::ledger::{Blank, Ledger};

/// Where a tuple stands in the row, or where it would.
pub(crate) fn search<L: Ledger>(
    entries: &[Entry],
    t: &Tuple,
    steps: &mut Steps<L>,
) -> Result<usize, usize>
    requires { Rise entries.now }
    ensures place { IsPlaceOf entries.now t.now result }
    ensures few { (k : ℕ) → length entries.now < 2 ^ k → steps.new ≤ steps.old + k }
{
    let mut low = 0;
    let mut size = entries.len();
    while size > 0 {
        let half = size / 2;
        let middle = low + half;
        match steps.order(&entries[middle].tuple, t) {
            Ordering::Equal => return Ok(middle),
            Ordering::Less => {
                low = middle + 1;
                size -= half + 1;
            }
            Ordering::Greater => size = half,
        }
    }
    Err(low)
}

/// The slot of what was found.
pub(crate) fn slot_found(entries: &[Entry], found: Result<usize, usize>) -> Option<usize>
    requires { (t : Tuple) × IsPlaceOf entries.now t found }
    ensures { (t : Tuple) → IsPlaceOf entries.now t found → IsSlotIn entries.now t result }
{
    match found {
        Ok(place) => Some(entries[place].slot),
        Err(_) => None,
    }
}

/// Where a tuple stands in the row, or where it would; nothing is counted.
pub(crate) fn place_of(entries: &[Entry], t: &Tuple) -> Result<usize, usize>
    requires { Rise entries.now }
    ensures { IsPlaceOf entries.now t.now result }
{
    place_from::<Brand>(entries, t, Blank::new(1))
}

fn place_from<L: Ledger>(entries: &[Entry], t: &Tuple, blank: Blank) -> Result<usize, usize>
    requires rise { Rise entries.now }
    requires name { blank.name ≡ L.name }
    requires parts { blank.parts ≡ L.parts }
    requires some { 0 < blank.parts }
    ensures { IsPlaceOf entries.now t.now result }
{
    let mut steps = Steps::<L>::open(blank);
    search(entries, t, &mut steps)
}

/// Puts a tuple into its place in the row.
pub(crate) fn insert_entry(entries: &mut Vec<Entry>, entry: Entry)
    requires rise { Rise entries.old.items }
    requires room { vec_len entries.old < vec_capacity entries.old }
    requires new { (i k : ℕ) → slice_get entries.old.items i ≡ Some (entry_of entry.tuple k) → ⊥ }
    ensures place { (place : ℕ) × (BelongsAt entries.old.items place entry.tuple
        × (entries.new.items ≡ insert entries.old.items place entry)) }
    ensures room { vec_capacity entries.old ≤ vec_capacity entries.new }
{
    if let Err(place) = place_of(entries, &entry.tuple) {
        let _ = entries.insert(place, entry);
    }
}

/// Takes a tuple out of the row.
pub(crate) fn remove_entry(entries: &mut Vec<Entry>, t: &Tuple)
    requires rise { Rise entries.old.items }
    requires there { (i : ℕ) × StandsAt entries.old.items i t.now }
    ensures place { (place : ℕ) × (StandsAt entries.old.items place t.now
        × (entries.new.items ≡ remove entries.old.items place)) }
    ensures room { vec_capacity entries.new ≡ vec_capacity entries.old }
{
    if let Ok(place) = place_of(entries, t) {
        let _ = entries.remove(place);
    }
}
