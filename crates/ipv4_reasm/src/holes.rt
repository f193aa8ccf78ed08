ghost use Rattle.std.specs.Prelude.{◌≡◌, ◌==◌, ◌+◌, ◌<◌, ◌≤◌, ◌++◌, [], true, false, nat_le, take, drop, length, vec_len, IfOk};
ghost use Rattle.std.specs.List.{position};
ghost use Rattle.std.specs.List.Sorted.{IsPartitionPoint};
ghost use Rattle.ipv4_head.specs.declared.holes.Hole.{Hole};
ghost use Rattle.std.specs.Vec.{vec_capacity};
ghost use Rattle.ipv4_head.specs.Sets.{end_of, part_of};
ghost use Rattle.ipv4_head.specs.Holes.{lies_in};
ghost use Rattle.ipv4_reasm.specs.Holes.{all_open, filled, has_hole, listed, Rise};
ghost use Rattle.net_octets.specs.Sizes.{most_carried};

use ipv4_head::{Hole, IpView};
use net_octets::NoMemory;
use std::alloc::Global;
use std::marker::Model;

/// The most holes that a datagram can have, and one more.
const ROOM: usize = 4_097;

/// The holes of a datagram of which parts came (RFC 815), in rising order. The last one is endless
/// until the last part came. A contract sees their list.
#[derive(Drop)]
pub struct Holes {
    row: Vec<Hole>,
}

impl Model for Holes {
    ghost use Rattle.std.specs.Prelude.{List};
    ghost use Rattle.std.specs.Vec.{vec_capacity};
    ghost use Rattle.ipv4_head.specs.declared.holes.Hole.{Hole};
    ghost use Rattle.ipv4_reasm.specs.Holes.{IsRow};

    ghost Value = { List Hole };

    ghost view = { λ holes. holes.row.items };

    ghost invariant = { λ holes. IsRow holes.row.items (vec_capacity holes.row) };
}

impl Holes {
    /// Room for the holes of a datagram. No other call takes memory.
    pub fn open(alloc: Global) -> Result<Holes, NoMemory>
        ensures { IfOk result (λ holes. holes ≡ []) }
    {
        match Vec::with_capacity(alloc, ROOM) {
            Ok(row) => Ok(Holes { row }),
            Err(_) => Err(NoMemory),
        }
    }

    /// Nothing came: one hole from the start without end.
    pub fn begin(&mut self)
        ensures { self.new ≡ all_open }
    {
        self.row.clear();
        let _ = self.row.push(Hole { from: 0, to: None });
    }

    /// Whether nothing is missed.
    pub fn is_empty(&self) -> bool
        ensures { result ≡ (length self.now == 0) }
    {
        self.row.is_empty()
    }

    /// Whether a part lies in a hole.
    /// It clashes with what came exactly where it lies in no hole, so one test takes the place of three.
    pub fn has_hole(&self, v: &IpView<'_>) -> bool
        requires { end_of (part_of v.now) ≤ most_carried }
        ensures { result ≡ has_hole (part_of v.now) self.now }
    {
        place_of(&self.row, v).is_some()
    }

    /// Takes what a part brings out of the hole in which it lies.
    pub fn fill(&mut self, v: &IpView<'_>)
        requires some { 0 < length v.now.body.now }
        requires end { end_of (part_of v.now) ≤ most_carried }
        requires hole { has_hole (part_of v.now) self.old ≡ true }
        ensures { self.new ≡ filled (part_of v.now) self.old }
    {
        if let Some(i) = place_of(&self.row, v) {
            let hole = self.row[i];
            replace(&mut self.row, i, hole.before(v), hole.behind(v));
        }
    }
}

/// How many of some holes don't begin behind a unit.
fn begun_by(holes: &[Hole], place: u16) -> usize
    requires { Rise 0 holes.now }
    ensures bound { result ≤ length holes.now }
    ensures point { IsPartitionPoint (λ (h : Hole). nat_le h.from place ≡ true)
        (λ (h : Hole). nat_le h.from place ≡ false) holes.now result }
{
    holes.partition_point(|hole| hole.from <= place)
}

/// The place of the hole in which a part lies: it is the last that doesn't begin behind the part.
fn place_of(holes: &[Hole], v: &IpView<'_>) -> Option<usize>
    requires rise { Rise 0 holes.now }
    requires end { end_of (part_of v.now) ≤ most_carried }
    ensures { result ≡ position (lies_in (part_of v.now)) holes.now }
{
    let last = begun_by(holes, v.offset).checked_sub(1)?;
    holes[last].takes(v).then_some(last)
}

/// Puts what is left of a hole in its place.
fn replace(row: &mut Vec<Hole>, i: usize, before: Option<Hole>, behind: Option<Hole>)
    requires place { i < length row.old.items }
    requires room { vec_len row.old < vec_capacity row.old }
    ensures items { row.new.items ≡ take i row.old.items ++ (listed before ++ (listed behind ++ drop (i + 1) row.old.items)) }
    ensures room { vec_capacity row.old ≤ vec_capacity row.new }
{
    match (before, behind) {
        (Some(front), Some(back)) => {
            row[i] = back;
            let _ = row.insert(i, front);
        }
        (Some(front), None) => row[i] = front,
        (None, Some(back)) => row[i] = back,
        (None, None) => {
            let _ = row.remove(i);
        }
    }
}
