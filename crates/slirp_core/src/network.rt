// The network: what it knows and keeps, a frame taken in, and what time does to it.
ghost use Rattle.std.specs.Prelude.{[], ◌≡◌, ◌≤◌, ◌^◌, ◌<◌, All, ℕ, Some, length, not, slice_get, true, false, unwrap_or};
ghost use Rattle.std.specs.List.Sorted.{IsNonDecreasing};
ghost use Rattle.slirp_settings.specs.Settings.{settings};
ghost use Rattle.spec_trace.specs.Sockets.{is_among};
ghost use Rattle.ipv4_head.specs.Ip.{ip_of, is_unbroken};

use crate::datagrams::datagram_in;
use crate::fragments::datagram_at;
use crate::icmp::is_message_to_us;
use crate::opening::{Frames, Servers};
use crate::tcp::{is_segment, segment_in};
use arp_table::ArpTable;
use dhcp_server::Leases;
use dns_relay::Relay;
use host_policy::Policy;
use ipv4_head::IpView;
use ipv4_reasm::Reasm;
use net_octets::{ARP_KIND, IPV4_KIND, Ip4, Mac, NoMemory};
use owed_frames::Outgoing;
use port_forward::{Ports, closes_before};
use slirp_settings::SlirpConfig;
use std::alloc::Global;
use std::marker::Model;
use tcp_flows::TcpFlows;
use tftp_server::Tftp;
use udp_assoc::Assocs;
use world_face::{LAST_MOMENT, World};

/// The virtual network: who its guests are, which sockets are open for their datagrams and their questions, how many datagrams went out, the frames that are
/// owed to a guest and aren't out yet, the fragments that wait to be joined, the flows of TCP, who has which address, the ports of the host that are given to
/// guests, and the files that guests get.
#[derive(Drop)]
pub struct Slirp {
    pub(crate) policy: Policy,
    pub(crate) guests: ArpTable,
    pub(crate) associations: Assocs,
    pub(crate) questions: Relay,
    pub(crate) sent: u16,
    pub(crate) outgoing: Outgoing,
    pub(crate) moment: u64,
    pub(crate) number: u64,
    pub(crate) reasm: Reasm,
    pub(crate) flows: TcpFlows,
    pub(crate) leases: Leases,
    pub(crate) forwards: Ports,
    pub(crate) files: Tftp,
    /// Room for what a server of ours answers: a packet of a file, or a reply to a client of DHCP, which has at most 790 octets.
    pub(crate) message: Vec<u8>,
}

impl Model for Slirp {
    ghost use Rattle.std.specs.Prelude.{◌≡◌, ◌<◌, ◌≤◌, ◌^◌, All, length, unwrap_or};
    ghost use Rattle.rules_udp.specs.Associations.{numbers};
    ghost use Rattle.rules_tftp.specs.Saying.{most_packet};
    ghost use Rattle.slirp_core.specs.State.{SlirpState};
    ghost use Rattle.slirp_core.specs.Numbers.{AreDrawn};
    ghost use Rattle.slirp_core.specs.Services.{AreAsked, IsServer};

    ghost Value = { SlirpState };

    ghost view = { λ s. record {
      config = s.policy;
      known = s.guests;
      sent = s.sent;
      pending = s.outgoing;
      moment = s.moment;
      number = s.number;
      associations = s.associations.list;
      questions = s.questions.list;
      fragments = s.reasm;
      flows = s.flows;
      leases = s.leases.leases;
      forwards = s.forwards;
      transfers = s.files.transfers;
    } };

    // each socket has a number under that of the next one, those of questions and of flows too, of which there are at most 4,096; sockets are opened at the
    // address of the settings, or at 0.0.0.0, every address of the host; and the servers of leases and of files and the relay of questions have the settings,
    // and there is room for a reply
    ghost invariant = { λ s. All (λ n. n < s.number) (numbers s.associations.list) × (s.moment ≤ 2 ^ 62) × (s.associations.bind ≡ unwrap_or s.policy.outbound 0)
        × AreDrawn s.number s.flows × (s.leases.config ≡ s.policy) × (length s.message.items ≡ most_packet) × AreAsked s.number s.policy s.questions
        × IsServer s.policy s.files };
}

impl Slirp {
    ghost use Rattle.rules_dhcp.specs.declared.Lease.TheVariants.{Free};
    ghost use Rattle.rules_tftp.specs.Saying.{most_packet};
    ghost use Rattle.slirp_core.specs.Services.{IsServer};
    ghost use Rattle.slirp_core.specs.State.{fresh};
    ghost use Rattle.world_face.specs.Limits.{last_moment};
    ghost use Rattle.std.specs.Prelude.{map, replicate, reverse, slice_get, false, Bool, ℕ, List, ◌∷◌, ◌≤◌, ◌+◌, IfOk, Some, None, min, max};
    ghost use Rattle.std.specs.Option.{option_map};
    ghost use Rattle.slirp_settings.specs.Addresses.{Config};
    ghost use Rattle.slirp_settings.specs.Ranges.{IsSound};
    ghost use Rattle.slirp_settings.specs.Settings.{settings};
    ghost use Rattle.rules_udp.specs.Associations.{is_over};
    ghost use Rattle.rules_dns.specs.Questions.{is_over as is_over_question, numbers as question_numbers};
    ghost use Rattle.slirp_core.specs.Packets.{with_address};
    ghost use Rattle.slirp_core.specs.Numbers.{flows_for};
    ghost use Rattle.ipv4_head.specs.Sets.{PartSet, young};
    ghost use Rattle.slirp_core.specs.Fragments.{IsHeld};
    ghost use Rattle.world_face.specs.Tells.{Brings, Makes};
    ghost use Rattle.slirp_core.specs.Waiting.{AreFresh};
    ghost use Rattle.slirp_core.specs.Hearing.{ClosesByKind, WhereItTicks};
    ghost use Rattle.tcp_flows.specs.Runs.{ClosesRising};
    ghost use Rattle.tcp_flows.specs.Reading.{AreTold, IsFirst, IsOpenAt, NoneIsAbove, Stays};
    ghost use Rattle.tcp_flows.specs.Settled.{HaveTime, IsInTime, OwesNoAck};
    ghost use Rattle.world_face.specs.Journal.{Close, Entry};
    ghost use Rattle.flow_splice.specs.Splice.{Splice};
    ghost use Rattle.sim_flows.specs.Core.{CoreHolds, number_of};
    ghost use Rattle.rules_udp.specs.Associations.{IsLeast, numbers};
    ghost use Rattle.dns_relay.specs.Relaying.{IsLeast as IsLeastAsked};
    ghost use Rattle.spec_trace.specs.Sockets.{is_among};
    ghost use Rattle.slirp_core.specs.Firsts.{IsFlowFirst, IsQuestionFirst, NoFlowFirst, NoQuestionFirst, open_count, others_open};
    ghost use Rattle.stream_netdev.specs.State.{LinkState};
    ghost use Rattle.slirp_core.specs.Datagrams.{Lies};
    ghost use Rattle.poll_list.specs.declared.Want.{Want as AnItem};
    ghost use Rattle.poll_list.specs.declared.Who.TheVariants.{Link as TheLink};
    ghost use Rattle.spec_run.specs.Agenda.{is_to_read, wanted_of};
    ghost use Rattle.slirp_core.specs.Came.{DatagramCame, FrameCame, OctetsCame};
    ghost use Rattle.slirp_core.specs.Counts.{AreGrown};
    ghost use Rattle.slirp_core.specs.Marks.{KeepsMarks};
    ghost use Rattle.rules_tftp.specs.Transfers.{are_left};
    ghost use Rattle.slirp_core.specs.Forwards.{AreCloses, ClosesForward};
    ghost use Rattle.rules_forward.specs.Opened.{forward_sockets};
    ghost use Rattle.slirp_core.specs.Holds.{Standing, after, carriers, flowing, Holds, holders_of, standing, ClosesAll, ClosesNext, ClosesOther, HoldsNothingElse, IsForwardFirst, NoForwardFirst};

    /// A network in which no guest is known, no socket is open and nothing is owed, with room for as many flows of TCP as the settings say. It takes all the memory that it will ever need.
    pub fn new(alloc: Global, c: &SlirpConfig) -> Result<Slirp, NoMemory>
        requires { IsSound (settings c.now) }
        ensures config { IfOk result (λ slirp. slirp.config ≡ settings c.now) }
        ensures known { IfOk result (λ slirp. slirp.known ≡ []) }
        ensures sent { IfOk result (λ slirp. slirp.sent ≡ 0) }
        ensures pending { IfOk result (λ slirp. slirp.pending ≡ []) }
        ensures moment { IfOk result (λ slirp. slirp.moment ≡ 0) }
        ensures number { IfOk result (λ slirp. slirp.number ≡ 0) }
        ensures associations { IfOk result (λ slirp. slirp.associations ≡ []) }
        ensures questions { IfOk result (λ slirp. slirp.questions ≡ []) }
        ensures fragments { IfOk result (λ slirp. slirp.fragments ≡ []) }
        ensures flows { IfOk result (λ slirp. slirp.flows ≡ flows_for (settings c.now)) }
        ensures leases { IfOk result (λ slirp. slirp.leases ≡ replicate 16 Free) }
        ensures forwards { IfOk result (λ slirp. slirp.forwards ≡ []) }
        ensures transfers { IfOk result (λ slirp. slirp.transfers ≡ []) }
    {
        let frames = Frames::open(alloc)?;
        let servers = Servers::open(alloc, c)?;
        Ok(Slirp::begun(c, frames, servers))
    }

    // A network of these parts, of which nothing was asked yet.
    fn begun(c: &SlirpConfig, frames: Frames, servers: Servers) -> Slirp
        requires sound { IsSound (settings c.now) }
        requires outgoing { frames.outgoing ≡ [] }
        requires reasm { frames.reasm ≡ [] }
        requires message { length frames.message.items ≡ most_packet }
        requires flows { servers.flows ≡ flows_for (settings c.now) }
        requires forwards { servers.forwards ≡ [] }
        requires files { IsServer (settings c.now) servers.files }
        requires transfers { servers.files.transfers ≡ [] }
        ensures { result ≡ fresh (settings c.now) }
    {
        Slirp {
            policy: Policy::new(c),
            guests: ArpTable::new(),
            associations: Assocs::new(bind_for(c)),
            questions: Relay::new(c),
            sent: 0,
            outgoing: frames.outgoing,
            moment: 0,
            number: 0,
            reasm: frames.reasm,
            flows: servers.flows,
            leases: Leases::new(c),
            forwards: servers.forwards,
            files: servers.files,
            message: frames.message,
        }
    }

    /// Lets go of it, with all its memory: what a function lets go of is proved in it, and a network is large.
    pub fn let_go(self) {
        self.flows.let_go();
    }

    /// The clock told a moment, in milliseconds: the moment in force is the greatest so far, at most the last one.
    pub fn tell_moment(&mut self, told: u64)
        ensures { self.new ≡ record self.old { moment = max (min told last_moment) self.old.moment } }
    {
        self.moment = told.min(LAST_MOMENT).max(self.moment);
    }

    /// Takes in a frame that came on the link, where nothing is left to be sent: its sender is learnt, what it asks for is owed from now on, its datagram goes
    /// out or is served, and its segment is handed to its flow. A part of a datagram is kept until all have come; with the last of them the datagram is joined
    /// in `room`, 65,575 octets, and taken in.
    pub fn input<W: World>(&mut self, world: &mut W, frame: &[u8], room: &mut [u8])
        requires none { self.old.pending ≡ [] }
        requires room { length room.old ≡ 65575 }
        requires number { self.old.number + 1 < 2 ^ 64 }
        // Where the reads of the link have just brought the frame, all stands as it must after them and the calls that it asks for.
        ensures makes { (config : Config) (count : ℕ) (wants : List AnItem) (item : AnItem) (items : List AnItem) (link : LinkState)
            → is_to_read TheLink (wanted_of wants item) ≡ true → Brings (W.tells world.old) (W.tells world.new)
            (FrameCame config (standing count wants (item ∷ items)) self.old link frame.now)
            (Holds config (standing count wants items) self.new (flowing false self.new.flows) link) }
        ensures marks { KeepsMarks self.old.number self.old.flows self.new.flows }
        ensures counts { AreGrown (W.tells world.old).faults (W.tells world.new).faults }
        ensures config { self.new.config ≡ self.old.config }
        ensures forwards { self.new.forwards ≡ self.old.forwards }
        ensures number { self.new.number ≤ self.old.number + 1 }
        ensures turn { self.new.flows.turn ≡ self.old.flows.turn }
        ensures room { length room.new ≡ 65575 }
    {
        let Ok(ether) = ether_frame::decode(frame) else {
            return;
        };
        if ether.kind == ARP_KIND {
            self.take_arp(ether.body);
        } else if ether.kind == IPV4_KIND {
            self.take_ip(world, ether.from, ether.body, room);
        }
    }

    // Takes in a datagram, or a part of one, that came from this hardware address.
    fn take_ip<W: World>(&mut self, world: &mut W, mac: Mac, body: &[u8], room: &mut [u8])
        requires none { self.old.pending ≡ [] }
        requires room { length room.old ≡ 65575 }
        requires number { self.old.number + 1 < 2 ^ 64 }
        ensures makes { (config : Config) (at : Standing) (link : LinkState) → Brings (W.tells world.old) (W.tells world.new)
            (OctetsCame config at self.old link mac.0 body.now) (Holds config at self.new (flowing false self.new.flows) link) }
        ensures marks { KeepsMarks self.old.number self.old.flows self.new.flows }
        ensures config { self.new.config ≡ self.old.config }
        ensures forwards { self.new.forwards ≡ self.old.forwards }
        ensures number { self.new.number ≤ self.old.number + 1 }
        ensures turn { self.new.flows.turn ≡ self.old.flows.turn }
        ensures room { length room.new ≡ 65575 }
    {
        let Ok(packet) = ipv4_head::decode(body) else {
            return;
        };
        self.learn(packet.from, mac);
        if is_part(&packet) {
            if let Some(assembled) = self.gather(&packet, room) {
                let datagram = datagram_at(&assembled, room);
                self.take_datagram(world, mac, room, &datagram);
            }
        } else {
            self.take_datagram(world, mac, body, &packet);
        }
    }

    // Takes in a whole datagram that came from this hardware address. `octets` begin with its header and its body.
    fn take_datagram<W: World>(
        &mut self,
        world: &mut W,
        mac: Mac,
        octets: &[u8],
        datagram: &IpView<'_>,
    )
        requires none { self.old.pending ≡ [] }
        requires lies { Lies octets.now datagram.now.head.now datagram.now.body.now }
        requires number { self.old.number + 1 < 2 ^ 64 }
        ensures makes { (config : Config) (at : Standing) (link : LinkState) → Brings (W.tells world.old) (W.tells world.new)
            (DatagramCame config at self.old link mac.0 (ip_of datagram.now)) (Holds config at self.new (flowing false self.new.flows) link) }
        ensures marks { KeepsMarks self.old.number self.old.flows self.new.flows }
        ensures config { self.new.config ≡ self.old.config }
        ensures forwards { self.new.forwards ≡ self.old.forwards }
        ensures number { self.new.number ≤ self.old.number + 1 }
        ensures turn { self.new.flows.turn ≡ self.old.flows.turn }
    {
        if is_message_to_us(&self.policy, datagram) {
            self.take_icmp(mac, datagram);
        } else if is_segment(&self.policy, datagram) {
            if let Some(segment) = segment_in(mac, datagram) {
                self.take_segment(world, &segment);
            }
        } else if let Some(udp) = datagram_in(&self.policy, mac, octets, datagram) {
            self.take_udp(world, &udp);
        }
    }

    // The guest's address is known from now on.
    pub(crate) fn learn(&mut self, ip: Ip4, mac: Mac)
        ensures { self.new ≡ record self.old { known = with_address self.old.config ip.0 mac.0 self.old.known } }
    {
        if self.policy.is_guest(ip) {
            self.guests.learn(ip, mac);
        }
    }

    /// Begins a turn after which another wait may come: the flows are told their guests' hardware addresses and the time, the transfers of files that are over
    /// are gone, the fragments that have waited for 60,000 milliseconds are dropped, and the
    /// sockets of datagrams whose idle life is over are closed, and those of questions that have waited for 10,000 milliseconds. Of each kind sockets are
    /// closed by rising number. There are at most 2^45 turns.
    /// A flow that owed no acknowledgement is in time then: its timer isn't due.
    pub fn tick<W: World>(&mut self, world: &mut W)
        requires { self.old.flows.turn < 2 ^ 45 }
        ensures makes { (config : Config) (count : ℕ) (link : LinkState) → count < config.turns → Brings (W.tells world.old) (W.tells world.new)
            (Holds config (after count) self.old (flowing false self.old.flows) link) (Holds config (after count) self.new (flowing true self.new.flows) link) }
        ensures rising { Makes (W.tells world.old) (W.tells world.new) (λ made. WhereItTicks self.old (ClosesByKind made)) }
        ensures none { All (λ a. is_over self.new.moment a ≡ false) self.new.associations }
        ensures in_time { HaveTime self.new.moment self.new.flows.flows.slots }
        ensures ahead { (config : Config) (at : Standing) (aged : Bool) (link : LinkState) (past : List Entry)
            → Holds config at self.old (flowing aged self.old.flows) link past
            → (n : ℕ) → OwesNoAck self.old.flows.flows.slots n → IsInTime self.new.moment self.new.flows.flows.slots n }
        ensures fragments { (held : List PartSet) → IsHeld self.old.fragments held → IsHeld self.new.fragments (young self.old.moment held) }
        // None of the fragments that are left is to be dropped yet.
        ensures fresh { AreFresh self.new.moment self.new.fragments }
        ensures turn { self.new.flows.turn ≡ self.old.flows.turn + 1 }
        // No socket was served in the turn that begins.
        ensures unserved { (k : ℕ) → slice_get self.new.flows.served k ≡ Some self.new.flows.turn → ⊥ }
        ensures unasked { All (λ q. is_over_question self.new.moment q ≡ false) self.new.questions }
        ensures over { self.new.transfers ≡ are_left self.old.moment self.old.transfers }
        ensures same { self.new ≡ record self.old {
          associations = self.new.associations;
          questions = self.new.questions;
          fragments = self.new.fragments;
          flows = self.new.flows;
          transfers = self.new.transfers;
        } }
    {
        self.flows.begin_turn();
        self.tell_addresses();
        self.tell_time(world);
        self.drop_fragments();
        self.close_unused(world);
        self.close_unanswered(world);
    }

    // Tells the flows that don't know it their guest's hardware address, where that is known.
    pub(crate) fn tell_addresses(&mut self)
        ensures holds { (config : Config) (at : Standing) (aged : Bool) (link : LinkState) (past : List Entry)
            → Holds config at self.old (flowing aged self.old.flows) link past
            → Holds config at self.new (flowing aged self.new.flows) link past }
        ensures told { AreTold self.new.known self.new.flows.flows.slots }
        ensures ahead { (now n : ℕ) → IsInTime now self.old.flows.flows.slots n → IsInTime now self.new.flows.flows.slots n }
        ensures calm { (n : ℕ) → OwesNoAck self.old.flows.flows.slots n → OwesNoAck self.new.flows.flows.slots n }
        ensures in_time { (now : ℕ) → HaveTime now self.old.flows.flows.slots → HaveTime now self.new.flows.flows.slots }
        ensures turn { self.new.flows.turn ≡ self.old.flows.turn }
        ensures served { self.new.flows.served ≡ self.old.flows.served }
        ensures stays { Stays self.old.flows self.new.flows }
        ensures same { self.new ≡ record self.old { flows = self.new.flows } }
    {
        self.flows.learn(&self.guests);
    }

    // Tells the flows the time, and lets the transfers go that are over.
    fn tell_time<W: World>(&mut self, world: &mut W)
        requires told { AreTold self.old.known self.old.flows.flows.slots }
        ensures makes { (config : Config) (count : ℕ) (link : LinkState) → count < config.turns → Brings (W.tells world.old) (W.tells world.new)
            (Holds config (after count) self.old (flowing false self.old.flows) link) (Holds config (after count) self.new (flowing true self.new.flows) link) }
        ensures rising { Makes (W.tells world.old) (W.tells world.new) (λ made. WhereItTicks self.old (ClosesRising made)) }
        ensures in_time { HaveTime self.new.moment self.new.flows.flows.slots }
        ensures ahead { (config : Config) (before : ℕ) (aged : Bool) (past : List Entry) → CoreHolds config before aged None self.old.flows.flows past → (n : ℕ)
            → OwesNoAck self.old.flows.flows.slots n
            → IsInTime self.new.moment self.new.flows.flows.slots n }
        ensures turn { self.new.flows.turn ≡ self.old.flows.turn }
        ensures served { self.new.flows.served ≡ self.old.flows.served }
        ensures over { self.new.transfers ≡ are_left self.old.moment self.old.transfers }
        ensures same { self.new ≡ record self.old { flows = self.new.flows; transfers = self.new.transfers } }
    {
        self.flows.tick(world, self.moment);
        self.files.end_over(self.moment);
    }

    // Drops the fragments that have waited for 60,000 milliseconds.
    fn drop_fragments(&mut self)
        ensures fragments { (held : List PartSet) → IsHeld self.old.fragments held → IsHeld self.new.fragments (young self.old.moment held) }
        ensures fresh { AreFresh self.new.moment self.new.fragments }
        ensures same { self.new ≡ record self.old { fragments = self.new.fragments } }
    {
        self.reasm.tick(self.moment);
    }

    // Closes the sockets of datagrams whose idle life is over, by rising number.
    fn close_unused<W: World>(&mut self, world: &mut W)
        ensures makes { (config : Config) (at : Standing) (aged : Bool) (link : LinkState) → Brings (W.tells world.old) (W.tells world.new)
            (Holds config at self.old (flowing aged self.old.flows) link) (Holds config at self.new (flowing aged self.new.flows) link) }
        ensures rising { Makes (W.tells world.old) (W.tells world.new) ClosesRising }
        ensures none { All (λ a. is_over self.new.moment a ≡ false) self.new.associations }
        ensures same { self.new ≡ record self.old { associations = self.new.associations } }
    {
        self.associations.tick(world, self.moment);
    }

    // Closes the sockets of questions that have waited for long enough, by rising number.
    fn close_unanswered<W: World>(&mut self, world: &mut W)
        ensures makes { (config : Config) (at : Standing) (aged : Bool) (link : LinkState) → Brings (W.tells world.old) (W.tells world.new)
            (Holds config at self.old (flowing aged self.old.flows) link) (Holds config at self.new (flowing aged self.new.flows) link) }
        ensures rising { Makes (W.tells world.old) (W.tells world.new) ClosesRising }
        ensures none { All (λ q. is_over_question self.new.moment q ≡ false) self.new.questions }
        ensures same { self.new ≡ record self.old { questions = self.new.questions } }
    {
        self.questions.tick(world, self.moment);
    }

    /// Closes all sockets, by rising number, and does nothing else.
    pub fn close_all<W: World>(&mut self, world: &mut W)
        ensures makes { Makes (W.tells world.old) (W.tells world.new)
            (λ made. ClosesAll self.old.forwards (holders_of self.old) made × AreCloses made) }
        // Where only those of forwards are open they are closed in the order of the list, whether the run has ended or not.
        ensures ports { HoldsNothingElse self.old → Makes (W.tells world.old) (W.tells world.new)
            (λ made. made ≡ map Close (reverse (forward_sockets self.old.forwards))) }
        ensures config { self.new.config ≡ self.old.config }
        ensures number { self.new.number ≡ self.old.number }
        ensures turn { self.new.flows.turn ≡ self.old.flows.turn }
        ensures none { self.new.associations ≡ [] }
        ensures unasked { self.new.questions ≡ [] }
    {
        while self.close_next(world) {}
    }

    // Closes the socket with the least number, and answers whether there was one.
    fn close_next<W: World>(&mut self, world: &mut W) -> bool
        ensures makes { Makes (W.tells world.old) (W.tells world.new)
            (λ made. ClosesNext result self.old.forwards self.new.forwards (holders_of self.old) (holders_of self.new) made × AreCloses made) }
        ensures ports { HoldsNothingElse self.old → (result ≡ true → HoldsNothingElse self.new)
            × Makes (W.tells world.old) (W.tells world.new) (ClosesForward result self.old.forwards self.new.forwards) }
        ensures fewer { result ≡ true → open_count self.new < open_count self.old }
        ensures config { self.new.config ≡ self.old.config }
        ensures number { self.new.number ≡ self.old.number }
        ensures turn { self.new.flows.turn ≡ self.old.flows.turn }
        ensures none { result ≡ false → self.new.associations ≡ [] }
        ensures unasked { result ≡ false → self.new.questions ≡ [] }
    {
        if self.forward_is_first() {
            self.close_forward(world)
        } else {
            self.close_other(world)
        }
    }

    // Closes the socket with the least number, of a flow, an association or a question, and answers whether there was one.
    fn close_other<W: World>(&mut self, world: &mut W) -> bool
        ensures makes { Makes (W.tells world.old) (W.tells world.new)
            (λ made. ClosesOther result (forward_sockets self.old.forwards) (holders_of self.old) (holders_of self.new) made × AreCloses made) }
        ensures ports { HoldsNothingElse self.old → (result ≡ false) × Makes (W.tells world.old) (W.tells world.new) (λ made. made ≡ []) }
        ensures fewer { result ≡ true → others_open self.new < others_open self.old }
        ensures forwards { self.new.forwards ≡ self.old.forwards }
        ensures config { self.new.config ≡ self.old.config }
        ensures number { self.new.number ≡ self.old.number }
        ensures turn { self.new.flows.turn ≡ self.old.flows.turn }
        ensures none { result ≡ false → self.new.associations ≡ [] }
        ensures unasked { result ≡ false → self.new.questions ≡ [] }
    {
        if self.flow_is_first() {
            self.flows.close_first(world)
        } else if self.question_is_first() {
            self.questions.close_first(world)
        } else {
            self.associations.close_first(world)
        }
    }

    // Whether the open socket with the least number is that of a port of the host that is given to a guest.
    fn forward_is_first(&self) -> bool
        ensures yes { result ≡ true → IsForwardFirst (forward_sockets self.now.forwards) (carriers (holders_of self.now)) self.now.flows.flows.slots }
        ensures no { result ≡ false → NoForwardFirst (forward_sockets self.now.forwards) (carriers (holders_of self.now)) self.now.flows.flows.slots }
    {
        let Some((_, number)) = self.forwards.at(0) else {
            return false;
        };
        if !self.is_under_flows(number) {
            return false;
        }
        is_under(number, self.associations.rising()) && is_under(number, self.questions.rising())
    }

    // Whether a number is less than those of all open flows.
    fn is_under_flows(&self, number: u64) -> bool
        ensures yes { result ≡ true → (k : ℕ) (p : Splice) → IsOpenAt self.now.flows.flows.slots k p → number ≤ number_of p }
        ensures no { result ≡ false → (n : ℕ) × IsFirst n self.now.flows.flows.slots × (n ≤ number) }
    {
        match self.flows.first() {
            Some(flow) => closes_before(number, flow),
            None => true,
        }
    }

    // Whether the open socket with the least number is a flow's.
    fn flow_is_first(&self) -> bool
        ensures yes { result ≡ true → IsFlowFirst (carriers (holders_of self.now)) self.now.flows.flows.slots }
        ensures no { result ≡ false → NoFlowFirst (carriers (holders_of self.now)) self.now.flows.flows.slots }
    {
        let Some(flow) = self.flows.first() else {
            return false;
        };
        is_under(flow, self.associations.rising()) && is_under(flow, self.questions.rising())
    }

    // Whether, of those that carry datagrams, the one with the least number is a question's.
    fn question_is_first(&self) -> bool
        ensures yes { result ≡ true → IsQuestionFirst self.now.associations self.now.questions }
        ensures no { result ≡ false → NoQuestionFirst self.now.associations self.now.questions }
    {
        match self.questions.rising().first() {
            Some(&question) => is_under(question, self.associations.rising()),
            None => false,
        }
    }
}

// Whether a number is less than all of these, which rise.
fn is_under(number: u64, rising: &[u64]) -> bool
    requires { IsNonDecreasing rising.now }
    ensures yes { result ≡ true → (m : ℕ) → is_among m rising.now ≡ true → number ≤ m }
    ensures no { result ≡ false → (first : ℕ) × (slice_get rising.now 0 ≡ Some first) × (first ≤ number) }
{
    match rising.first() {
        Some(&first) => number < first,
        None => true,
    }
}

// At which address of the host the sockets of associations are opened: that of the settings, or every one.
fn bind_for(c: &SlirpConfig) -> Ip4
    ensures { result.0 ≡ unwrap_or (settings c.now).outbound 0 }
{
    c.outbound.unwrap_or(Ip4(0))
}

// Whether a datagram is a part of a greater one.
fn is_part(datagram: &IpView<'_>) -> bool
    ensures { result ≡ not (is_unbroken (ip_of datagram.now)) }
{
    datagram.more || datagram.offset != 0
}
