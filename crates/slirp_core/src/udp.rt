// Datagrams of UDP in both directions: a guest's goes out on the socket of its port, a peer's comes in on it.
ghost use Rattle.std.specs.Prelude.{[], ◌≡◌, ℕ, ◌+◌, ◌^◌, ◌<◌, ◌≤◌, is_some, length, true, false};
ghost use Rattle.world_face.specs.Limits.{most_to_udp};

use crate::datagrams::{DatagramVerdict, DatagramView};
use crate::icmp::PROHIBITED;
use crate::network::Slirp;
use crate::sending::put_reply;
use net_octets::{Endpoint, Mac};
use rules_udp::Reply;
use slirp_settings::Proto;
use udp_assoc::OutboundView;
use world_face::World;

impl Slirp {
    ghost use Rattle.poll_list.specs.declared.Want.{Want as AnItem};
    ghost use Rattle.poll_list.specs.declared.Who.TheVariants.{Udp};
    ghost use Rattle.spec_run.specs.Agenda.{is_to_read, wanted_of};
    ghost use Rattle.std.specs.Prelude.{List, ◌∷◌, Some};
    ghost use Rattle.slirp_core.specs.Packets.{request_of};
    ghost use Rattle.slirp_settings.specs.Addresses.{Config};
    ghost use Rattle.rules_dns.specs.Questions.{numbered as question_numbered};
    ghost use Rattle.slirp_core.specs.Leases.{after_message, after_udp};
    ghost use Rattle.spec_run.specs.Datagrams.{asks_a_name};
    ghost use Rattle.slirp_core.specs.Forwards.{guest_on};
    ghost use Rattle.slirp_core.specs.Replies.{told_by, or_learnt, owed_by};
    ghost use Rattle.udp_assoc.specs.Relays.{FitsRoom};
    ghost use Rattle.world_face.specs.Tells.{Brings, Makes};
    ghost use Rattle.slirp_core.specs.Hearing.{Receives, is_heard};
    ghost use Rattle.spec_duties.specs.Serving.{is_left_to_read};
    ghost use Rattle.stream_netdev.specs.State.{LinkState};
    ghost use Rattle.slirp_core.specs.Datagrams.{datagram_of, errand_of};
    ghost use Rattle.rules_dns.specs.Questions.{is_question};
    ghost use Rattle.slirp_core.specs.Holds.{RequestLeft, asked_by, Standing, flowing, standing, Holds, HoldsAt};
    ghost use Rattle.std.specs.Prelude.{Bool};
    ghost use Rattle.slirp_core.specs.Counts.{AreGrown};

    // Takes in a datagram of UDP: what becomes of it is decided here.
    pub(crate) fn take_udp<W: World>(&mut self, world: &mut W, datagram: &DatagramView<'_>)
        requires none { self.old.pending ≡ [] }
        requires body { length datagram.now.body.now ≤ most_to_udp }
        requires quote { length datagram.now.quote.now ≤ 68 }
        requires number { self.old.number + 1 < 2 ^ 64 }
        ensures makes { (config : Config) (at : Standing) (link : LinkState) → Brings (W.tells world.old) (W.tells world.new)
            (RequestLeft config at (after_udp self.old (datagram_of datagram.now)) link (request_of self.old.config (datagram_of datagram.now)))
            (Holds config at self.new (flowing false self.new.flows) link) }
        ensures number { self.new.number ≤ self.old.number + 1 }
        ensures others { self.new ≡ record self.old {
          associations = self.new.associations;
          questions = self.new.questions;
          pending = self.new.pending;
          number = self.new.number;
          leases = self.new.leases;
          transfers = self.new.transfers;
        } }
    {
        match DatagramVerdict::of(&self.policy, datagram) {
            DatagramVerdict::Ignored => {}
            DatagramVerdict::Refused => self.tell_about(PROHIBITED, datagram),
            DatagramVerdict::Leases => self.take_message(datagram),
            DatagramVerdict::Files => self.take_file(world, datagram),
            DatagramVerdict::Question(to) => self.ask(world, datagram, to),
            DatagramVerdict::Out(to) => self.send(world, datagram, to),
        }
    }

    // A message of a client of DHCP: what it makes of the leases, and the reply that is owed for it from now on.
    fn take_message(&mut self, datagram: &DatagramView<'_>)
        requires none { self.old.pending ≡ [] }
        ensures { self.new ≡ after_message self.old (datagram_of datagram.now) }
    {
        let reply = self
            .leases
            .message(self.moment, datagram.body, &mut self.message);
        put_reply(
            &self.policy,
            self.sent,
            reply,
            &self.message,
            &mut self.outgoing,
        );
    }

    // Sends a question to the resolver, on the socket of the same question of the same port, or on one of its own.
    fn ask<W: World>(&mut self, world: &mut W, datagram: &DatagramView<'_>, to: Endpoint)
        requires none { self.old.pending ≡ [] }
        requires body { length datagram.now.body.now ≤ most_to_udp }
        requires quote { length datagram.now.quote.now ≤ 68 }
        requires question { is_question datagram.now.body.now ≡ true }
        requires name { asks_a_name self.old.config (errand_of datagram.now to) ≡ true }
        requires number { self.old.number + 1 < 2 ^ 64 }
        ensures makes { (config : Config) (at : Standing) (aged : Bool) (link : LinkState) → Brings (W.tells world.old) (W.tells world.new)
            (HoldsAt config at (asked_by config self.old (Some (errand_of datagram.now to))) self.old (flowing aged self.old.flows) link)
            (Holds config at self.new (flowing aged self.new.flows) link) }
        ensures number { self.new.number ≤ self.old.number + 1 }
        ensures others { self.new ≡ record self.old { questions = self.new.questions; pending = self.new.pending; number = self.new.number } }
    {
        let reply = self.questions.query(
            world,
            self.moment,
            &mut self.number,
            datagram.from,
            datagram.mac,
            to,
            datagram.body,
        );
        self.tell(reply, datagram);
    }

    // Sends any other datagram, on the first port of the host that is given to its port, or on the socket of its port.
    fn send<W: World>(&mut self, world: &mut W, datagram: &DatagramView<'_>, to: Endpoint)
        requires none { self.old.pending ≡ [] }
        requires body { length datagram.now.body.now ≤ most_to_udp }
        requires quote { length datagram.now.quote.now ≤ 68 }
        requires other { asks_a_name self.old.config (errand_of datagram.now to) ≡ false }
        requires number { self.old.number + 1 < 2 ^ 64 }
        ensures makes { (config : Config) (at : Standing) (aged : Bool) (link : LinkState) → Brings (W.tells world.old) (W.tells world.new)
            (HoldsAt config at (asked_by config self.old (Some (errand_of datagram.now to))) self.old (flowing aged self.old.flows) link)
            (Holds config at self.new (flowing aged self.new.flows) link) }
        ensures number { self.new.number ≤ self.old.number + 1 }
        ensures others { self.new ≡ record self.old { associations = self.new.associations; pending = self.new.pending; number = self.new.number } }
    {
        let forward = self.forwards.socket_for(datagram.from);
        let outbound = OutboundView {
            from: datagram.from,
            mac: datagram.mac,
            to,
            body: datagram.body,
        };
        let reply = self
            .associations
            .guest(world, self.moment, &mut self.number, forward, &outbound);
        self.tell(reply, datagram);
    }

    // A guest whose datagram doesn't go out is told.
    fn tell(&mut self, reply: Reply, datagram: &DatagramView<'_>)
        requires none { self.old.pending ≡ [] }
        requires quote { length datagram.now.quote.now ≤ 68 }
        ensures { self.new ≡ record self.old { pending = told_by self.old (datagram_of datagram.now) reply } }
    {
        if let Reply::Unreachable(code) = reply {
            self.tell_about(code, datagram);
        }
    }

    /// Receives a datagram on a socket: it is owed to the guest of the socket from now on; on that of a question where it answers it, and the socket is closed then.
    /// `into` is the room for it, 65,507 octets.
    pub fn receive_datagram<W: World>(&mut self, world: &mut W, number: u64, into: &mut [u8])
        requires none { self.old.pending ≡ [] }
        requires room { length into.old ≡ most_to_udp }
        // Where the socket is open a datagram is asked for on it, once.
        ensures receives { is_heard number self.old ≡ true → Makes (W.tells world.old) (W.tells world.new) (Receives number) }
        ensures makes { (config : Config) (count : ℕ) (wants : List AnItem) (item : AnItem) (items : List AnItem) (aged : Bool) (link : LinkState)
            → is_to_read (Udp number) (wanted_of wants item) ≡ true → link.tail ≡ [] → Brings (W.tells world.old) (W.tells world.new)
            (Holds config (standing count wants (item ∷ items)) self.old (flowing aged self.old.flows) link)
            (λ past. Holds config (standing count wants items) self.new (flowing aged self.new.flows) link past
            × (is_left_to_read config past (Udp number) ≡ false)) }
        ensures counts { AreGrown (W.tells world.old).faults (W.tells world.new).faults }
        ensures number { self.new.number ≡ self.old.number }
        ensures config { self.new.config ≡ self.old.config }
        ensures others { self.new ≡ record self.old { associations = self.new.associations; questions = self.new.questions; pending = self.new.pending } }
        ensures room { length into.new ≡ most_to_udp }
    {
        if self.questions.has(number) {
            self.receive_answer(world, number, into)
        } else {
            self.receive_from_peer(world, number, into)
        }
    }

    // Receives a datagram on the socket of a question.
    fn receive_answer<W: World>(&mut self, world: &mut W, number: u64, into: &mut [u8])
        requires none { self.old.pending ≡ [] }
        requires room { length into.old ≡ most_to_udp }
        requires asked { is_some (question_numbered number self.old.questions) ≡ true }
        ensures receives { Makes (W.tells world.old) (W.tells world.new) (Receives number) }
        ensures makes { (config : Config) (count : ℕ) (wants : List AnItem) (item : AnItem) (items : List AnItem) (aged : Bool) (link : LinkState)
            → is_to_read (Udp number) (wanted_of wants item) ≡ true → link.tail ≡ [] → Brings (W.tells world.old) (W.tells world.new)
            (Holds config (standing count wants (item ∷ items)) self.old (flowing aged self.old.flows) link)
            (λ past. Holds config (standing count wants items) self.new (flowing aged self.new.flows) link past
            × (is_left_to_read config past (Udp number) ≡ false)) }
        ensures counts { AreGrown (W.tells world.old).faults (W.tells world.new).faults }
        ensures others { self.new ≡ record self.old { questions = self.new.questions; pending = self.new.pending } }
        ensures room { length into.new ≡ most_to_udp }
    {
        let reply = self.questions.answer(world, self.moment, number, into);
        put_reply(&self.policy, self.sent, reply, into, &mut self.outgoing);
    }

    // Receives a datagram on the socket of a port of the host that is given to a guest, or of an association.
    fn receive_from_peer<W: World>(&mut self, world: &mut W, number: u64, into: &mut [u8])
        requires none { self.old.pending ≡ [] }
        requires room { length into.old ≡ most_to_udp }
        requires unasked { is_some (question_numbered number self.old.questions) ≡ false }
        ensures receives { is_heard number self.old ≡ true → Makes (W.tells world.old) (W.tells world.new) (Receives number) }
        ensures makes { (config : Config) (count : ℕ) (wants : List AnItem) (item : AnItem) (items : List AnItem) (aged : Bool) (link : LinkState)
            → is_to_read (Udp number) (wanted_of wants item) ≡ true → link.tail ≡ [] → Brings (W.tells world.old) (W.tells world.new)
            (Holds config (standing count wants (item ∷ items)) self.old (flowing aged self.old.flows) link)
            (λ past. Holds config (standing count wants items) self.new (flowing aged self.new.flows) link past
            × (is_left_to_read config past (Udp number) ≡ false)) }
        ensures counts { AreGrown (W.tells world.old).faults (W.tells world.new).faults }
        ensures others { self.new ≡ record self.old { associations = self.new.associations; pending = self.new.pending } }
        ensures room { length into.new ≡ most_to_udp }
    {
        let guest = self.guest_on(number);
        let reply = self
            .associations
            .host(world, self.moment, number, guest, into);
        self.answer_peer(reply, into);
    }

    // The port of a guest to which the port of the host for datagrams with this socket is given.
    fn guest_on(&self, number: u64) -> Option<Endpoint>
        ensures { result ≡ guest_on self.now.forwards number }
    {
        let forward = self.forwards.with_socket(number)?;
        match forward.proto {
            Proto::Udp => Some(forward.guest),
            Proto::Tcp => None,
        }
    }

    // What a peer said on a socket, whose octets stand at the front of these, is owed to its guest, where the peer is shown. One whose hardware address isn't
    // known is asked for it instead (RFC 826).
    fn answer_peer(&mut self, reply: Reply, octets: &[u8])
        requires none { self.old.pending ≡ [] }
        requires fits { FitsRoom reply (length octets.now) }
        requires room { length octets.now ≤ most_to_udp }
        ensures { self.new ≡ record self.old { pending = owed_by self.old octets.now reply } }
    {
        let Reply::Datagram {
            length,
            from,
            to,
            mac,
        } = reply
        else {
            return;
        };
        let Some(seen) = self.policy.shown(from) else {
            return;
        };
        let Some(known) = self.mac_for(to, mac) else {
            self.ask_for(to.addr);
            return;
        };
        let shown = Reply::Datagram {
            length,
            from: seen,
            to,
            mac: Some(known),
        };
        put_reply(&self.policy, self.sent, shown, octets, &mut self.outgoing);
    }

    // The hardware address of a guest: this one, or that which was learnt last for it.
    fn mac_for(&self, guest: Endpoint, mac: Option<Mac>) -> Option<Mac>
        ensures { result ≡ or_learnt self.now guest mac }
    {
        match mac {
            Some(mac) => Some(mac),
            None => self.guests.find(guest.addr),
        }
    }
}
