// What the flows of the slots wait for, and the wants of those whose socket waits, which stand from turn to turn.
ghost use Rattle.std.specs.Prelude.{◌≡◌, ◌^◌, ◌<◌, ◌≤◌, length, slice_get, slice_set, replicate, IfOk, Some, []};
ghost use Rattle.std.specs.Vec.{vec_capacity};
ghost use Rattle.poll_list.specs.Writes.{count_to_write};
ghost use Rattle.rules_flow.specs.declared.Waits.{Waits as WaitsOf};
ghost use Rattle.tcp_flows.specs.Places.{IsPlaceOf, has_at};
ghost use Rattle.tcp_flows.specs.Standing.{AreOrdered, is_any as is_any_by, listed, number_in, wants_after, with_wants};
ghost use Rattle.tcp_flows.specs.Rows.{no_waits};

use net_octets::NoMemory;
use poll_list::{Want, Who};
use rules_flow::{Waits, same_ways};
use std::alloc::Global;
use std::marker::Model;

// What each slot's flow waits for, and the wants of the sockets for which something is waited, by rising number. A contract sees a `Waited`.
#[derive(Drop)]
pub(crate) struct Waiting {
    each: Vec<Waits>,
    wants: Vec<Want>,
    // how many of the wants are for writing
    writes: usize,
}

impl Model for Waiting {
    ghost use Rattle.std.specs.Prelude.{◌≡◌, ◌≤◌, length};
    ghost use Rattle.std.specs.Vec.{vec_capacity};
    ghost use Rattle.poll_list.specs.Writes.{count_to_write};
    ghost use Rattle.tcp_flows.specs.Standing.{Waited};

    ghost Value = { Waited };

    ghost view = { λ s. record { each = s.each.items; wants = s.wants.items } };

    ghost invariant = { λ s. (length s.each.items ≤ vec_capacity s.wants) × (s.writes ≡ count_to_write s.wants.items) };
}

impl Waiting {
    ghost use Rattle.std.specs.Prelude.{slice_index_or};

    // Nothing is waited for. There is room for a want of each slot, and no other call takes memory.
    pub(crate) fn open(alloc: Global, slots: usize) -> Result<Waiting, NoMemory>
        ensures { IfOk result (λ w. w ≡ record { each = replicate slots no_waits; wants = [] }) }
    {
        let Ok(each) = vec![in alloc; Waits::NONE; slots] else {
            return Err(NoMemory);
        };
        let Ok(wants) = Vec::with_capacity(alloc, slots) else {
            return Err(NoMemory);
        };
        Ok(Waiting {
            each,
            wants,
            writes: 0,
        })
    }

    // What the flow of a slot waits for.
    pub(crate) fn at(&self, slot: usize) -> Waits
        requires { slot < length self.now.each }
        ensures value { result ≡ slice_index_or self.now.each slot result }
        ensures few { length self.now.each < 2 ^ 64 }
    {
        self.each[slot]
    }

    // The wants, by rising number of the socket.
    pub(crate) fn wants(&self) -> &[Want]
        ensures { result.now ≡ self.now.wants }
    {
        self.wants.as_slice()
    }

    // How many of them are for writing.
    pub(crate) fn writes(&self) -> usize
        ensures { result ≡ count_to_write self.now.wants }
    {
        self.writes
    }

    // The flow of a slot, on the socket of this number, waits for this now. Where nothing else is waited for on its socket than was, the wants stay as they are.
    pub(crate) fn set(&mut self, slot: usize, number: u64, waits: Waits)
        requires slot { slot < length self.old.each }
        requires order { AreOrdered self.old.wants }
        requires room { (was : WaitsOf) → slice_get self.old.each slot ≡ Some was
            → length (wants_after was number waits self.old.wants) ≤ length self.old.each }
        ensures each { self.new.each ≡ slice_set self.old.each slot waits }
        ensures wants { (was : WaitsOf) → slice_get self.old.each slot ≡ Some was → self.new.wants ≡ wants_after was number waits self.old.wants }
    {
        let was = self.each[slot];
        self.each[slot] = waits;
        if !same_ways(was, waits) {
            list(&mut self.wants, &mut self.writes, number, waits);
        }
    }
}

// What stands for the number is what is waited for on its socket, or nothing. The wants for writing are counted, before and after.
fn list(wants: &mut Vec<Want>, writes: &mut usize, number: u64, waits: Waits)
    requires order { AreOrdered wants.old.items }
    requires counted { writes.old ≡ count_to_write wants.old.items }
    requires room { length (with_wants number (listed number waits) wants.old.items) ≤ vec_capacity wants.old }
    ensures counted { writes.new ≡ count_to_write wants.new.items }
    ensures items { wants.new.items ≡ with_wants number (listed number waits) wants.old.items }
    ensures capacity { vec_capacity wants.old ≤ vec_capacity wants.new }
{
    let place = place_of(wants, number);
    let want = Want {
        of: Who::Tcp(number),
        read: waits.read,
        write: waits.write,
    };
    match (stands_at(wants, place, number), is_any(waits)) {
        (true, true) => {
            *writes -= usize::from(wants[place].write);
            *writes += usize::from(want.write);
            wants[place] = want;
        }
        (true, false) => {
            *writes -= usize::from(wants[place].write);
            let _ = wants.remove(place);
        }
        (false, true) => {
            *writes += usize::from(want.write);
            let _ = wants.insert(place, want);
        }
        (false, false) => {}
    }
}

// Whether anything is waited for on a socket.
fn is_any(waits: Waits) -> bool
    ensures { result ≡ is_any_by waits }
{
    waits.read || waits.write
}

// How many of the wants have a number below this one.
fn place_of(wants: &[Want], number: u64) -> usize
    requires { AreOrdered wants.now }
    ensures bound { result ≤ length wants.now }
    ensures place { IsPlaceOf number wants.now result }
{
    wants.partition_point(|want| number_of(want) < number)
}

// Whether the want at a place has this number.
fn stands_at(wants: &[Want], place: usize, number: u64) -> bool
    ensures { result ≡ has_at place number wants.now }
{
    match wants.get(place) {
        Some(want) => number_of(want) == number,
        None => false,
    }
}

// The number of a socket of TCP that is waited for; 0 of what is none.
fn number_of(want: &Want) -> u64
    ensures { result ≡ number_in want.now }
{
    match want.of {
        Who::Tcp(number) => number,
        Who::Link | Who::Listener(_) | Who::Udp(_) => 0,
    }
}
