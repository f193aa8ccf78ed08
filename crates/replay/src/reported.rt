// What a wait reports as ready.
#![tactic(auto)]

ghost use Rattle.std.specs.Prelude.{◌≡◌, ◌↔◌, [], IfOk, IsTrue, map, length};
ghost use Rattle.std.specs.List.Sorted.{IsStrictlyIncreasing};
ghost use Rattle.poll_list.specs.Listing.{differ};
ghost use Rattle.replay.specs.Reporting.{keys_of, key_of};

use crate::allowing::number_of;
use std::alloc::{AllocError, Global};
use std::marker::Model;
use world_face::{Want, Who};

/// The items that a wait reports as ready. Whether no socket stands twice among them, nor the
/// link, is found once, where the line is read.
#[derive(Drop)]
pub struct Reported {
    items: Vec<Want>,
    apart: bool,
}

impl Model for Reported {
    ghost use Rattle.std.specs.Prelude.{◌≡◌, List};
    ghost use Rattle.poll_list.specs.declared.Want.{Want};
    ghost use Rattle.poll_list.specs.Listing.{differ};

    ghost Value = { List Want };

    ghost view = { λ r. r.items.items };

    ghost invariant = { λ r. r.apart ≡ differ r.items.items };
}

impl Reported {
    /// The report of no item.
    pub fn none(alloc: Global) -> Reported
        ensures { result ≡ [] }
    {
        Reported {
            items: Vec::new(alloc),
            apart: true,
        }
    }

    /// The report of these items. Err where there is no memory to find whether a socket stands twice.
    pub fn of(alloc: Global, items: Vec<Want>) -> Result<Reported, AllocError>
        ensures { IfOk result (λ reported. reported ≡ items.items) }
    {
        let apart = are_apart(alloc, &items)?;
        Ok(Reported { items, apart })
    }

    /// The items, in the order in which they stand in the line.
    pub fn items(&self) -> &[Want]
        ensures { result.now ≡ self.now }
    {
        self.items.as_slice()
    }

    /// Whether no socket stands twice among the items, nor the link.
    pub fn are_apart(&self) -> bool
        ensures { result ≡ differ self.now }
    {
        self.apart
    }
}

// Whether no two of the items that were read are of one socket, by their numbers in rising order.
fn are_apart(alloc: Global, items: &[Want]) -> Result<bool, AllocError>
    ensures { IfOk result (λ apart. apart ≡ differ items.now) }
{
    let mut keys = keys_of(alloc, items)?;
    keys.sort_unstable();
    Ok(rises(&keys))
}

fn keys_of(alloc: Global, items: &[Want]) -> Result<Vec<u128>, AllocError>
    ensures { IfOk result (λ keys. keys.items ≡ keys_of items.now) }
{
    items.iter().map(|item| key_of(&item.of)).collect(alloc)
}

// One more than the number of a socket, and 0 for the link.
fn key_of(who: &Who) -> u128
    ensures { result ≡ key_of who.now }
{
    match number_of(who) {
        None => 0,
        Some(number) => u128::from(number) + 1,
    }
}

// Each number is greater than the one before it.
fn rises(keys: &[u128]) -> bool
    ensures { IsTrue result ↔ IsStrictlyIncreasing keys.now }
{
    for later in 1..keys.len() {
        if keys[later] <= keys[later - 1] {
            return false;
        }
    }
    true
}
