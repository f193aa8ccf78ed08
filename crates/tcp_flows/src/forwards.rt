// Peers come to ports of the host that are given to guests, and guests' hardware addresses are learnt.
ghost use Rattle.std.specs.Prelude.{◌≡◌, ℕ, ◌+◌, ◌-◌, ◌^◌, ◌<◌, ◌≤◌, List, [], length, option_map, slice_get, slice_set, true, false, Some};
ghost use Rattle.sim_flows.specs.Seats.{in_use_slots};
ghost use Rattle.spec_flow.specs.Flow.{first_number};
ghost use Rattle.flow_table.specs.Slots.{NoneHas};
ghost use Rattle.flow_table.specs.declared.Slot.TheVariants.{InUse as SlotInUse};
ghost use Rattle.flow_splice.specs.Splice.{Splice, is_in_use as is_in_use_by};
ghost use Rattle.sock_buffers.specs.Downward.{downward};
ghost use Rattle.sock_buffers.specs.Upward.{empty};
ghost use Rattle.tcp_connection.specs.Connection.{HasBuffers, to_guest};
ghost use Rattle.tcp_flows.specs.Rows.{AreSized};

use crate::flows::{Sizes, TcpFlows};
use crate::guest::first_number;
use crate::rows::Before;
use arp_table::ArpTable;
use flow_splice::Place;
use net_octets::Mac;
use spec_flows::Tuple;
use tcp_connection::Conn;

impl TcpFlows {
    ghost use Rattle.spec_flows.specs.Book.{book};
    ghost use Rattle.spec_flows.specs.Flows.{is_used};
    ghost use Rattle.slirp_settings.specs.Addresses.{Config};
    ghost use Rattle.sim_flows.specs.Core.{CoreHolds, number_of};
    ghost use Rattle.std.specs.Prelude.{Bool, Option};
    ghost use Rattle.tcp_flows.specs.Kept.{with_flows};
    ghost use Rattle.tcp_flows.specs.Reading.{HaveLearnt, AreTold, NoneInSlots, NoneUses, Stays, StaysBut, learnt_from};
    ghost use Rattle.tcp_flows.specs.Runs.{Learns, MakesWay, Welcomes};
    ghost use Rattle.tcp_flows.specs.Settled.{IsInTime, OwesNoAck};
    ghost use Rattle.world_face.specs.Journal.{Call, Entry};

    /// Flows that don't know their guest's hardware address are told it where it is known, and may owe a frame from then on. No flow is looked at where each knows it.
    pub fn learn(&mut self, guests: &ArpTable)
        ensures learns { Learns guests.now self.old self.new }
        ensures learnt { HaveLearnt guests.now self.old.flows.slots self.new.flows.slots }
        ensures told { AreTold guests.now self.new.flows.slots }
        ensures idle { NoneInSlots self.old.flows.slots → self.new ≡ self.old }
        // A flow that was in time is so then, and one that owed no acknowledgement owes none.
        ensures ahead { (now n : ℕ) → IsInTime now self.old.flows.slots n → IsInTime now self.new.flows.slots n }
        ensures calm { (n : ℕ) → OwesNoAck self.old.flows.slots n → OwesNoAck self.new.flows.slots n }
        ensures stays { Stays self.old self.new }
        ensures same { self.new ≡ with_flows self.new.flows self.new.owing self.old }
    {
        if self.rows.resolving == 0 {
            return;
        }
        self.learn_all(guests);
    }

    // Each slot's flow is told its guest's hardware address, where it doesn't know it.
    fn learn_all(&mut self, guests: &ArpTable)
        ensures learns { Learns guests.now self.old self.new }
        ensures learnt { HaveLearnt guests.now self.old.flows.slots self.new.flows.slots }
        ensures stays { Stays self.old self.new }
        ensures same { self.new ≡ with_flows self.new.flows self.new.owing self.old }
    {
        for slot in 0..self.slots.len() {
            self.learn_slot(slot, guests);
        }
    }

    // The flow of a slot is told its guest's hardware address, where it doesn't know it.
    fn learn_slot(&mut self, slot: usize, guests: &ArpTable)
        requires slot { slot < length self.old.flows.slots }
        ensures learns { Learns guests.now self.old self.new }
        ensures parts { (x : Option Splice) → slice_get self.old.flows.slots slot ≡ Some x
            → self.new.flows.slots ≡ slice_set self.old.flows.slots slot (option_map (learnt_from guests.now) x) }
        ensures stays { Stays self.old self.new }
        ensures same { self.new ≡ with_flows self.new.flows self.new.owing self.old }
    {
        let resolves = self.rows.waits.at(slot).mac;
        if !resolves {
            return;
        }
        let part = &mut self.slots[slot];
        let before = Before::of(part);
        let mac = guests.find(part.guest().addr);
        part.learn(mac);
        self.rows.follow(slot, &before, false, part);
    }

    /// Whether a slot in use has these two ends.
    pub fn is_used(&self, ends: &Tuple) -> bool
        ensures used { result ≡ true → (k : ℕ) × (slice_get self.now.flows.table.slots k ≡ Some (SlotInUse ends.now)) }
        ensures unused { result ≡ false → NoneUses self.now.flows.table.slots ends.now }
        // So has a flow of the trace.
        ensures recorded { (config : Config) (now : ℕ) (aged : Bool) (task : Option Call) (past : List Entry)
            → CoreHolds config now aged task self.now.flows past
            → result ≡ is_used ends.now (book config past).flows }
    {
        let Some(slot) = self.rows.table.find(ends) else {
            return false;
        };
        is_in_use(self.slots[slot].place())
    }

    /// A peer's connection between these ends, which no slot in use has, was accepted with this number: the flow begins, and calls its guest once it knows its
    /// hardware address. The flow that stays in TIME-WAIT these ends leaves its slot first. Then a free slot is taken, or that of the flow that has been in TIME-WAIT the longest. The number
    /// is above those of all open sockets.
    pub fn accept(&mut self, now: u64, ends: &Tuple, number: u64, mac: Option<Mac>)
        requires now { now ≤ 2 ^ 62 }
        requires room { in_use_slots self.old.flows.table.slots < length self.old.flows.table.slots }
        requires unused { NoneUses self.old.flows.table.slots ends.now }
        requires above { (k : ℕ) (p : Splice) → slice_get self.old.flows.slots k ≡ Some (Some p) → number_of p < number }
        requires count { self.old.flows.opened + 1 < 2 ^ 64 }
        ensures welcomes { Welcomes now number self.old self.new ends.now mac }
        ensures turn { self.new.turn ≡ self.old.turn }
        ensures served { self.new.served ≡ self.old.served }
        ensures opened { self.new.flows.opened ≡ self.old.flows.opened + 1 }
        ensures slots { length self.new.flows.slots ≡ length self.old.flows.slots }
        // Each flow has that number, or the number of the flow that its slot had.
        ensures numbers { StaysBut number self.old self.new }
    {
        let conn = called(&self.sizes, now, self.opened);
        self.make_way(ends);
        self.seat(now, ends, number, mac, conn);
    }

    // The flow that stays in TIME-WAIT these ends leaves its slot.
    fn make_way(&mut self, ends: &Tuple)
        requires unused { NoneUses self.old.flows.table.slots ends.now }
        ensures way { MakesWay self.old self.new ends.now }
        ensures none { NoneHas self.new.flows.table.slots ends.now }
        ensures room { in_use_slots self.new.flows.table.slots ≡ in_use_slots self.old.flows.table.slots }
        ensures slots { length self.new.flows.table.slots ≡ length self.old.flows.table.slots }
        ensures stays { Stays self.old self.new }
        ensures same { self.new ≡ with_flows self.new.flows self.new.owing self.old }
    {
        let Some(slot) = self.rows.table.find(ends) else {
            return;
        };
        self.leave_slot(slot);
    }
}

// Whether a place is one of a flow in use.
fn is_in_use(place: Place) -> bool
    ensures { result ≡ is_in_use_by place }
{
    match place {
        Place::InUse => true,
        Place::Empty | Place::InTimeWait(_) => false,
    }
}

// The connection that calls a guest, after so many others.
fn called(sizes: &Sizes, now: u64, opened: u64) -> Conn
    requires sizes { AreSized sizes.now.ring sizes.now.mtu sizes.now.mru }
    ensures exact { result ≡ to_guest (first_number now opened) (sizes.now.mtu - 40) sizes.now.ring sizes.now.congestion }
    ensures buffers { HasBuffers result (empty sizes.now.ring) (downward [] 0 sizes.now.ring) }
{
    let ours = first_number(now, opened);
    Conn::to_guest(ours, sizes.mtu - 40, sizes.ring as u32, sizes.congestion)
}
