// A flow gives way to a guest's SYN.
ghost use Rattle.std.specs.Prelude.{◌≡◌, ℕ, ◌^◌, ◌≤◌, List, slice_get, true, false, Some, IfSome, IfNone};
ghost use Rattle.std.specs.List.{list_any};
ghost use Rattle.world_face.specs.Journal.{Close};
ghost use Rattle.world_face.specs.Tells.{Makes};
ghost use Rattle.flow_splice.specs.Splice.{Splice};
ghost use Rattle.tcp_flows.specs.Way.{AreFirst, IsFirstQuiet, gives as gives_by, owes as owes_by, quiet_at as quiet_at_by};

use crate::flows::TcpFlows;
use crate::rows::Before;
use flow_splice::{Place, Spliced};
use rules_flow::{Quiet, earlier_quiet};
use world_face::World;

impl TcpFlows {
    ghost use Rattle.tcp_flows.specs.Way.{GivesWay};
    ghost use Rattle.tcp_flows.specs.Reading.{Stays};

    /// A guest's SYN asks for a connection, and all slots are in use. Of the flows that may give way the one is closed whose last sign of life is the earliest,
    /// of several the one with the least number, and its guest is owed a reset; none is where a flow that was closed still owes its own. No other call is made.
    pub(crate) fn give_way<W: World>(&mut self, world: &mut W, now: u64)
        requires now { now ≤ 2 ^ 62 }
        ensures makes { Makes (W.tells world.old) (W.tells world.new) (GivesWay now self.old self.new) }
        ensures stays { Stays self.old self.new }
        ensures turn { self.new.turn ≡ self.old.turn }
        ensures served { self.new.served ≡ self.old.served }
    {
        if one_owes(&self.slots) {
            return;
        }
        let Some(quiet) = quietest(&self.slots, now) else {
            return;
        };
        let part = &mut self.slots[quiet.slot];
        let before = Before::of(part);
        part.give_way(world, now);
        self.rows.follow(quiet.slot, &before, false, part);
    }
}

// Whether a flow that was closed owes its guest a reset.
fn one_owes(slots: &[Spliced]) -> bool
    ensures { result ≡ list_any (λ (p : Splice). owes_by p) slots.now }
{
    slots.iter().any(owes)
}

fn owes(part: &Spliced) -> bool
    ensures { result ≡ owes_by part.now }
{
    part.place() == Place::InUse && !part.is_open()
}

// Of the flows that may give way the one that goes before all others.
fn quietest(slots: &[Spliced], now: u64) -> Option<Quiet>
    ensures { AreFirst now slots.now result }
{
    let mut first = None;
    for (slot, part) in slots.iter().enumerate() {
        first = earlier_quiet(first, quiet_at(slot, part, now));
    }
    first
}

// The flow of a slot, where it may give way.
fn quiet_at(slot: usize, part: &Spliced, now: u64) -> Option<Quiet>
    ensures { result ≡ quiet_at_by now slot part.now }
{
    if gives(part, now) {
        Some(Quiet {
            slot,
            last: part.last(),
            number: part.number(),
        })
    } else {
        None
    }
}

fn gives(part: &Spliced, now: u64) -> bool
    ensures { result ≡ gives_by now part.now }
{
    part.is_open() && part.gives_way_at() <= now
}
