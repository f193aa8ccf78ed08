// Ports of the host that are given to guests: they are opened before all else or while a run goes on, and closed at the end or before it.
ghost use Rattle.std.specs.Prelude.{[], ◌≡◌, ◌≢◌, ◌<◌, ◌≤◌, ◌+◌, ◌^◌, ℕ, length, map, slice_get, OnSome, IfSome, Some, None};
ghost use Rattle.std.specs.Result.{result_err};
ghost use Rattle.rules_forward.specs.declared.FwdFault.TheVariants.{Refused};
ghost use Rattle.slirp_core.specs.Added.{number_after};

use crate::network::Slirp;
use net_octets::Endpoint;
use port_forward::NotThere;
use rules_forward::FwdFault;
use slirp_settings::{Forward, Proto};
use spec_flows::Tuple;
use world_face::{Accepted, World};

impl Slirp {
    ghost use Rattle.slirp_settings.specs.Addresses.{Config};
    ghost use Rattle.slirp_settings.specs.Ranges.{IsSound};
    ghost use Rattle.slirp_core.specs.Forwards.{ClosesForward};
    ghost use Rattle.slirp_core.specs.Holds.{AfterListening, Opens};
    ghost use Rattle.stream_netdev.specs.State.{LinkState};
    ghost use Rattle.world_face.specs.Tells.{Brings, Makes, Rose};
    ghost use Rattle.world_face.specs.Journal.{Entry};
    ghost use Rattle.poll_list.specs.declared.Want.{Want as AnItem};
    ghost use Rattle.poll_list.specs.declared.Who.TheVariants.{Listener};
    ghost use Rattle.spec_run.specs.Agenda.{is_to_read, wanted_of};
    ghost use Rattle.slirp_core.specs.Counts.{AreGrown};
    ghost use Rattle.slirp_core.specs.Forwards.{Listens};
    ghost use Rattle.slirp_core.specs.Holds.{Holds, after, as_given, flowing, standing};
    ghost use Rattle.slirp_core.specs.Marks.{KeepsMarks};
    ghost use Rattle.rules_forward.specs.Adding.{Adds, fault_of};
    ghost use Rattle.rules_forward.specs.Opened.{socket_at, without};
    ghost use Rattle.slirp_core.specs.Added.{MayAdd, MayRemove, closed_at};
    ghost use Rattle.std.specs.Result.{is_ok};
    ghost use Rattle.sim_flows.specs.Seats.{in_use_slots};
    ghost use Rattle.spec_flows.specs.Book.{book, is_refused, tuple_for};
    ghost use Rattle.host_policy.specs.Targets.{is_hidden};
    ghost use Rattle.sim_flows.specs.Core.{CoreHolds};
    ghost use Rattle.tcp_flows.specs.Reading.{NoneUses};
    ghost use Rattle.spec_duties.specs.Serving.{is_left_to_read};
    ghost use Rattle.slirp_core.specs.Visits.{AsksForPeer, ClosesOne, Treats, is_awaited};
    ghost use Rattle.std.specs.Prelude.{Bool, List, ◌∷◌, true, false, not, is_some};

    /// Opens the ports of the host that the settings give to guests, in their order, each with the next number. Answers the place of the first one that the
    /// host refuses, counted from 0: those behind it aren't opened. Neither is anything else done before.
    pub fn listen_all<W: World>(&mut self, world: &mut W, forwards: &[Forward]) -> Option<usize>
        requires forwards { forwards.now ≡ self.old.config.forwards }
        requires sound { IsSound self.old.config }
        requires none { self.old.forwards ≡ [] }
        requires number { self.old.number ≡ 0 }
        ensures makes { (config : Config) (link : LinkState) → self.old.config ≡ as_given config → Brings (W.tells world.old) (W.tells world.new)
            (Opens config 0 self.old link) (AfterListening result config self.new link) }
        // The count of the sockets' faults rose where one was refused.
        ensures counted { IfSome result (λ k. Rose (W.tells world.old).faults.socket (W.tells world.new).faults.socket) }
        ensures number { self.new.number ≤ 32 }
        ensures others { self.new ≡ record self.old { number = self.new.number; forwards = self.new.forwards } }
    {
        for place in 0..forwards.len() {
            if !self.listen_next(world, forwards[place]) {
                return Some(place);
            }
        }
        None
    }

    // Opens the next port of the host, and answers whether the host lets it be opened.
    fn listen_next<W: World>(&mut self, world: &mut W, forward: Forward) -> bool
        requires few { self.old.number < 32 }
        requires host_port { forward.host.port ≢ 0 }
        requires guest_port { forward.guest.port ≢ 0 }
        requires unasked { fault_of self.old.config forward self.old.forwards ≡ None }
        ensures adds { Makes (W.tells world.old) (W.tells world.new) (Listens result forward self.old.number self.old.forwards self.new.forwards) }
        ensures counted { result ≡ false → Rose (W.tells world.old).faults.socket (W.tells world.new).faults.socket }
        ensures others { self.new ≡ record self.old { number = self.old.number + 1; forwards = self.new.forwards } }
    {
        let number = self.number;
        self.number += 1;
        self.forwards
            .add_hostfwd(world, &self.policy, forward, number)
            .is_ok()
    }

    /// Gives a port of the host to a guest while the run goes on: its socket is opened, with the next number. Neither port of the forward is 0.
    ///
    /// # Errors
    /// In this order: `Taken` where a forward has that port of the host with this protocol; `BadGuest` where the address that it leads to isn't a guest's;
    /// `Full` where 32 are open; `Refused` where the host doesn't open the socket. The forwards are then as they were.
    pub fn add_hostfwd<W: World>(&mut self, world: &mut W, forward: Forward) -> Result<(), FwdFault>
        requires number { self.old.number + 1 < 2 ^ 64 }
        requires host_port { forward.host.port ≢ 0 }
        requires guest_port { forward.guest.port ≢ 0 }
        ensures adds { Makes (W.tells world.old) (W.tells world.new)
            (Adds (fault_of self.old.config forward self.old.forwards) forward self.old.number self.old.forwards self.new.forwards (result_err result)) }
        ensures counted { result_err result ≡ Some Refused → Rose (W.tells world.old).faults.socket (W.tells world.new).faults.socket }
        // Between the calls of a turn it may be added, where the settings have it for the number of its socket.
        ensures makes { (config : Config) (count : ℕ) (link : LinkState) → 0 < count → MayAdd config self.old forward → Brings (W.tells world.old) (W.tells world.new)
            (Holds config (after count) self.old (flowing false self.old.flows) link) (Holds config (after count) self.new (flowing false self.new.flows) link) }
        ensures others { self.new ≡ record self.old { number = number_after (result_err result) self.old.number; forwards = self.new.forwards } }
    {
        let number = self.number;
        let added = self
            .forwards
            .add_hostfwd(world, &self.policy, forward, number);
        let next = next_number(number, &added);
        self.number = next;
        added
    }

    /// Takes a port of the host back while the run goes on: its socket is closed, and connections that came by it go on.
    ///
    /// # Errors
    /// `NotThere` exactly where no forward has that port with this protocol.
    pub fn remove_hostfwd<W: World>(
        &mut self,
        world: &mut W,
        proto: Proto,
        host: Endpoint,
    ) -> Result<(), NotThere>
        ensures closes { Makes (W.tells world.old) (W.tells world.new) (λ made. made ≡ closed_at (socket_at proto host self.old.forwards)) }
        ensures found { is_ok result ≡ is_some (socket_at proto host self.old.forwards) }
        // Between the calls of a turn it may be taken back, where it is so by the settings.
        ensures makes { (config : Config) (count : ℕ) (link : LinkState) → 0 < count → MayRemove config self.old proto host → Brings (W.tells world.old) (W.tells world.new)
            (Holds config (after count) self.old (flowing false self.old.flows) link) (Holds config (after count) self.new (flowing false self.new.flows) link) }
        ensures others { self.new ≡ record self.old { forwards = without proto host self.old.forwards } }
    {
        self.forwards.remove_hostfwd(world, proto, host)
    }

    /// The port of the host at this place of those that are given to guests, in the order in which they were added, with the number of its socket. `None` exactly
    /// where there are no more.
    pub fn forward(&self, place: usize) -> Option<(Forward, u64)>
        ensures at { result ≡ slice_get self.now.forwards place }
        ensures few { length self.now.forwards ≤ 32 }
    {
        self.forwards.at(place)
    }

    /// A peer is taken that came to a port of the host, where there is one and room for its flow: that begins, with the next number, and calls the guest.
    /// One that would pass for a guest, or whose two ends are in use, is refused: its socket is closed at once.
    pub fn accept<W: World>(&mut self, world: &mut W, listener: u64)
        requires number { self.old.number + 1 < 2 ^ 64 }
        // Where there is room, and peers come to that port, one is asked for, once.
        ensures asks { is_awaited listener self.old ≡ true → Makes (W.tells world.old) (W.tells world.new) (AsksForPeer listener self.old.number) }
        ensures makes { (config : Config) (count : ℕ) (wants : List AnItem) (item : AnItem) (items : List AnItem) (link : LinkState)
            → is_to_read (Listener listener) (wanted_of wants item) ≡ true
            → Brings (W.tells world.old) (W.tells world.new)
            (Holds config (standing count wants (item ∷ items)) self.old (flowing false self.old.flows) link)
            (λ past. Holds config (standing count wants items) self.new (flowing false self.new.flows) link past
            × (is_left_to_read config past (Listener listener) ≡ false)) }
        ensures counts { AreGrown (W.tells world.old).faults (W.tells world.new).faults }
        ensures number { self.new.number ≤ self.old.number + 1 }
        ensures turn { self.new.flows.turn ≡ self.old.flows.turn }
        ensures marks { KeepsMarks self.old.number self.old.flows self.new.flows }
        ensures others { self.new ≡ record self.old { number = self.new.number; flows = self.new.flows } }
    {
        if !self.flows.has_room_for_peer() {
            return;
        }
        let Some(forward) = self.forwards.with_socket(listener) else {
            return;
        };
        match forward.proto {
            Proto::Tcp => match world.accept(listener, self.number) {
                Accepted::From(peer) => self.welcome(world, forward.guest, peer),
                Accepted::NotYet | Accepted::Failed => {}
            },
            Proto::Udp => {}
        }
    }

    // A peer's connection to this guest was accepted with the next number: its flow begins, or its socket is closed.
    fn welcome<W: World>(&mut self, world: &mut W, guest: Endpoint, peer: Endpoint)
        requires number { self.old.number + 1 < 2 ^ 64 }
        requires room { in_use_slots self.old.flows.flows.table.slots < length self.old.flows.flows.table.slots }
        ensures closes { Makes (W.tells world.old) (W.tells world.new) (ClosesOne self.old.number) }
        ensures treats { Makes (W.tells world.old) (W.tells world.new) (λ made. (config : Config) (now : ℕ) (aged : Bool) (past : List Entry)
            → CoreHolds config now aged None self.old.flows.flows past → self.old.config ≡ as_given config
            → Treats (is_refused config guest peer (book config past)) guest peer self.old self.new made) }
        ensures turn { self.new.flows.turn ≡ self.old.flows.turn }
        ensures marks { KeepsMarks self.old.number self.old.flows self.new.flows }
        ensures others { self.new ≡ record self.old { number = self.old.number + 1; flows = self.new.flows } }
    {
        let ends = self.ends_for(guest, peer);
        let number = self.number;
        self.number += 1;
        let Some(ends) = ends else {
            world.close(number);
            return;
        };
        let mac = self.guests.find(guest.addr);
        self.flows.accept(self.moment, &ends, number, mac);
    }

    // The two ends between which a peer's flow to this guest is to stand, where it wouldn't pass for a guest, and they aren't in use.
    fn ends_for(&self, guest: Endpoint, peer: Endpoint) -> Option<Tuple>
        ensures some { IfSome result (λ ends. (ends ≡ tuple_for self.now.config guest peer) × (is_hidden self.now.config peer ≡ false)
            × NoneUses self.now.flows.flows.table.slots ends) }
        ensures recorded { (config : Config) (now : ℕ) (aged : Bool) (past : List Entry) → CoreHolds config now aged None self.now.flows.flows past
            → self.now.config ≡ as_given config
            → is_some result ≡ not (is_refused config guest peer (book config past)) }
    {
        let other = self.policy.shown(peer)?;
        let ends = Tuple { guest, other };
        if self.flows.is_used(&ends) {
            return None;
        }
        Some(ends)
    }

    // Closes the socket of the first forward, and answers whether there was one.
    pub(crate) fn close_forward<W: World>(&mut self, world: &mut W) -> bool
        ensures makes { Makes (W.tells world.old) (W.tells world.new) (ClosesForward result self.old.forwards self.new.forwards) }
        ensures fewer { result ≡ true → length self.new.forwards < length self.old.forwards }
        ensures others { self.new ≡ record self.old { forwards = self.new.forwards } }
    {
        let Some((forward, _)) = self.forwards.at(0) else {
            return false;
        };
        self.forwards
            .remove_hostfwd(world, forward.proto, forward.host)
            .is_ok()
    }
}

// The number of the next socket: this one is used up where the host was asked.
fn next_number(number: u64, added: &Result<(), FwdFault>) -> u64
    requires { number + 1 < 2 ^ 64 }
    ensures { result ≡ number_after (result_err added.now) number }
{
    match added {
        Ok(()) | Err(FwdFault::Refused) => number + 1,
        Err(FwdFault::Taken | FwdFault::BadGuest | FwdFault::Full) => number,
    }
}
