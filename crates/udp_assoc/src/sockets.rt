// The sockets of associations: a guest's datagram goes out on the one of its port, and a peer's comes in on it.
ghost use Rattle.std.specs.Prelude.{◌≡◌, ◌+◌, ◌-◌, ◌^◌, ◌<◌, ◌≤◌, [], All, IsPermutation, length, min, true, false, slice_get};
ghost use Rattle.std.specs.List.Sorted.{IsNonDecreasing};
ghost use Rattle.std.specs.Option.{option_map};
ghost use Rattle.world_face.specs.Limits.{most_to_udp};
ghost use Rattle.world_face.specs.Tells.{Makes};
ghost use Rattle.rules_udp.specs.Associations.{idle_life, is_over, most_associations, numbers, socket_of};
ghost use Rattle.udp_assoc.specs.Relays.{FitsRoom, Receives, SendsOn};
ghost use Rattle.udp_assoc.specs.Kept.{as_association};
ghost use Rattle.idle_sockets.specs.Numbers.{Rise};
ghost use Rattle.udp_assoc.specs.Sending.{outbound_of};

use idle_sockets::{IdleSocket, IdleSockets};
use net_octets::{Endpoint, Ip4, Mac};
use rules_udp::{Association, IDLE_LIFE, Reply};
use std::marker::Model;
use world_face::{Got, Made, Sent, World};

/// Why a destination can't be reached: the network can't (RFC 792).
const NO_NETWORK: u8 = 0;

/// The identifier of a socket that is the only one of its port.
const ONLY: u16 = 0;

/// A datagram of a guest that goes out.
#[derive(Clone, Copy, Debug, PartialEq, Eq)]
pub struct OutboundView<'a> {
    /// The guest's endpoint, from which it comes.
    pub from: Endpoint,
    /// The hardware address from which it came.
    pub mac: Mac,
    /// The endpoint to which it goes, as the host sees it.
    pub to: Endpoint,
    /// Its payload.
    pub body: &'a [u8],
}

/// The sockets of at most 512 associations, and the calls on them. Contracts see the address of the host from which their datagrams go out, and the list of
/// associations, the longest unused first.
///
/// Moments are in milliseconds. Each call says which calls it makes on the World, what becomes of the list, and what it answers; the address stays as it is.
/// The core draws the numbers of sockets, and keeps an answer until it is out.
#[derive(Drop)]
pub struct Assocs {
    bind: Ip4,
    list: IdleSockets,
}

impl Model for Assocs {
    ghost use Rattle.udp_assoc.specs.State.{AssocsState};
    ghost use Rattle.udp_assoc.specs.Kept.{associations, AreOnly};

    ghost Value = { AssocsState };

    ghost view = { λ s. record { bind = s.bind.0; list = associations s.list } };

    ghost invariant = { λ s. AreOnly s.list };
}

impl Assocs {
    ghost use Rattle.std.specs.Prelude.{List};
    ghost use Rattle.udp_assoc.specs.Relays.{Relays, OpensFor, Hears, Ticks, ClosesLeast, with_reply};
    ghost use Rattle.rules_udp.specs.Associations.{moved_last, sent_from};
    ghost use Rattle.std.specs.Prelude.{ℕ, None};

    /// No socket is open. Sockets will be opened at port 0 of this address of the host, where the system chooses the port; 0.0.0.0 is every address. All room
    /// for associations is in the value itself, so nothing is taken later.
    pub fn new(bind: Ip4) -> Assocs
        ensures { result ≡ record { bind = bind.0; list = [] } }
    {
        Assocs {
            bind,
            list: IdleSockets::new(),
        }
    }

    /// Sends a guest's datagram with a payload of at most 65,507 octets: on the socket of a forward where one is
    /// given, without an association; else on the socket of its port. Where that has none one is opened at the address with this number, which then counts up;
    /// where 512 are open the longest unused one is closed before. Unreachable with code 0 where no socket can be opened, or the sending fails (RFC 792).
    pub fn guest<W: World>(
        &mut self,
        world: &mut W,
        now: u64,
        number: &mut u64,
        forward: Option<u64>,
        datagram: &OutboundView<'_>,
    ) -> Reply
        requires fits { length datagram.now.body.now ≤ most_to_udp }
        requires numbers { number.old + 1 < 2 ^ 64 }
        requires above { All (λ n. n < number.old) (numbers self.old.list) }
        ensures relays { Makes (W.tells world.old) (W.tells world.new)
            (Relays self.old.bind forward (outbound_of datagram.now) now number.old number.new self.old.list self.new.list result) }
        ensures bind { self.new.bind ≡ self.old.bind }
    {
        match forward {
            Some(socket) => send(world, socket, datagram),
            None => self.relay(world, now, number, datagram),
        }
    }

    // Sends a datagram on the socket of its port, which is opened where there is none.
    fn relay<W: World>(
        &mut self,
        world: &mut W,
        now: u64,
        number: &mut u64,
        datagram: &OutboundView<'_>,
    ) -> Reply
        requires fits { length datagram.now.body.now ≤ most_to_udp }
        requires numbers { number.old + 1 < 2 ^ 64 }
        requires above { All (λ n. n < number.old) (numbers self.old.list) }
        ensures relays { Makes (W.tells world.old) (W.tells world.new)
            (Relays self.old.bind None (outbound_of datagram.now) now number.old number.new self.old.list self.new.list result) }
        ensures bind { self.new.bind ≡ self.old.bind }
    {
        match self.list.socket_of(datagram.from, ONLY) {
            Some(socket) => self.send_on(world, now, socket, datagram),
            None => {
                self.list.make_room(world);
                self.open_for(world, now, number, datagram)
            }
        }
    }

    // Opens a socket at the address, and sends the datagram on it.
    fn open_for<W: World>(
        &mut self,
        world: &mut W,
        now: u64,
        number: &mut u64,
        datagram: &OutboundView<'_>,
    ) -> Reply
        requires fits { length datagram.now.body.now ≤ most_to_udp }
        requires numbers { number.old + 1 < 2 ^ 64 }
        requires above { All (λ n. n < number.old) (numbers self.old.list) }
        requires room { length self.old.list < most_associations }
        requires fresh { socket_of datagram.now.from self.old.list ≡ None }
        ensures opens { Makes (W.tells world.old) (W.tells world.new)
            (OpensFor self.old.bind (outbound_of datagram.now) now number.old self.old.list self.new.list result) }
        ensures bind { self.new.bind ≡ self.old.bind }
        ensures next { number.new ≡ number.old + 1 }
    {
        let socket = IdleSocket {
            number: *number,
            guest: datagram.from,
            ident: ONLY,
            mac: datagram.mac,
            used: now,
        };
        *number += 1;
        match self.list.open_at(world, self.bind, socket) {
            Made::Done => self.send_on(world, now, socket.number, datagram),
            Made::Failed => Reply::Unreachable(NO_NETWORK),
        }
    }

    // Sends the datagram on the socket of an association, which is used by it.
    fn send_on<W: World>(
        &mut self,
        world: &mut W,
        now: u64,
        socket: u64,
        datagram: &OutboundView<'_>,
    ) -> Reply
        requires { length datagram.now.body.now ≤ most_to_udp }
        ensures sends { Makes (W.tells world.old) (W.tells world.new) (SendsOn socket (outbound_of datagram.now) result) }
        ensures list { self.new ≡ record self.old { list = moved_last (sent_from datagram.now.mac now) socket self.old.list } }
    {
        let reply = send(world, socket, datagram);
        self.list.sent(socket, datagram.mac, now);
        reply
    }

    /// Receives a datagram on a socket, in the room that is given, at least one octet: on the socket of a forward where its guest's endpoint is given, else on
    /// that of an association. The answer says to whom it goes and from which peer, as the host sees it; its octets lie at the front of the room.
    pub fn host<W: World>(
        &mut self,
        world: &mut W,
        now: u64,
        s: u64,
        forward: Option<Endpoint>,
        into: &mut [u8],
    ) -> Reply
        requires { 0 < length into.old }
        ensures hears { Makes (W.tells world.old) (W.tells world.new) (Hears forward now s (length into.old) into.new self.old.list self.new.list result) }
        ensures bind { self.new.bind ≡ self.old.bind }
        ensures fits { FitsRoom result (length into.new) }
        ensures room { length into.new ≡ length into.old }
    {
        match forward {
            Some(guest) => receive(world, s, guest, None, into),
            None => self.receive_datagram(world, now, s, into),
        }
    }

    // Receives a datagram on the socket of an association, which is used by it.
    fn receive_datagram<W: World>(
        &mut self,
        world: &mut W,
        now: u64,
        s: u64,
        into: &mut [u8],
    ) -> Reply
        requires { 0 < length into.old }
        ensures hears { Makes (W.tells world.old) (W.tells world.new) (Hears None now s (length into.old) into.new self.old.list self.new.list result) }
        ensures bind { self.new.bind ≡ self.old.bind }
        ensures fits { FitsRoom result (length into.new) }
        ensures room { length into.new ≡ length into.old }
    {
        let Some(association) = self.list.numbered(s) else {
            return Reply::Nothing;
        };
        let reply = receive(world, s, association.guest, Some(association.mac), into);
        self.mark(now, s, reply);
        reply
    }

    // The association of a socket is used where a datagram came.
    fn mark(&mut self, now: u64, s: u64, reply: Reply)
        ensures { self.new ≡ record self.old { list = with_reply reply now s self.old.list } }
    {
        if let Reply::Datagram { .. } = reply {
            self.list.received(s, now);
        }
    }

    /// The k-th open socket by rising number, counted from 0. None exactly where there are no more than k.
    pub fn socket(&self, k: usize) -> Option<u64>
        ensures { (rising : List ℕ) × IsPermutation (numbers self.now.list) rising × IsNonDecreasing rising × (result ≡ slice_get rising k) }
    {
        self.list.rising().get(k).copied()
    }

    /// The numbers of all open sockets, the least first.
    pub fn rising(&self) -> &[u64]
        ensures all { IsPermutation (numbers self.now.list) result.now }
        ensures rising { IsNonDecreasing result.now }
        // No number stands twice.
        ensures strict { Rise result.now }
        ensures most { length result.now ≤ most_associations }
    {
        self.list.rising()
    }

    /// The longest unused association. None exactly where there is none.
    pub fn oldest(&self) -> Option<Association>
        ensures { result ≡ slice_get self.now.list 0 }
    {
        let oldest = self.list.oldest()?;
        Some(as_association(&oldest))
    }

    /// The moment at which the idle life of the longest unused association is over, at most 2^64 - 1. None exactly where there is none.
    pub fn next_due(&self) -> Option<u64>
        ensures { result ≡ option_map (λ a. min (2 ^ 64 - 1) (a.used + idle_life)) (slice_get self.now.list 0) }
    {
        self.list.next_due(IDLE_LIFE)
    }

    /// Closes the sockets whose idle life is over, by rising number.
    pub fn tick<W: World>(&mut self, world: &mut W, now: u64)
        ensures closes { Makes (W.tells world.old) (W.tells world.new) (Ticks now self.old.list self.new.list) }
        ensures none { All (λ a. is_over now a ≡ false) self.new.list }
        ensures bind { self.new.bind ≡ self.old.bind }
    {
        self.list.close_idle(world, now, IDLE_LIFE);
    }

    /// Closes the socket with the least number, and answers whether there was one.
    pub fn close_first<W: World>(&mut self, world: &mut W) -> bool
        ensures closes { Makes (W.tells world.old) (W.tells world.new) (ClosesLeast (λ a. true) result self.old.list self.new.list) }
        ensures fewer { result ≡ true → length self.new.list < length self.old.list }
        ensures bind { self.new.bind ≡ self.old.bind }
    {
        self.list.close_first(world)
    }
}

// A socket as the association that it is.
fn as_association(socket: &IdleSocket) -> Association
    ensures { result ≡ as_association socket.now }
{
    Association {
        number: socket.number,
        guest: socket.guest,
        mac: socket.mac,
        used: socket.used,
    }
}

// Sends a datagram on a socket.
fn send<W: World>(world: &mut W, socket: u64, datagram: &OutboundView<'_>) -> Reply
    requires { length datagram.now.body.now ≤ most_to_udp }
    ensures { Makes (W.tells world.old) (W.tells world.new) (SendsOn socket (outbound_of datagram.now) result) }
{
    match world.udp_send(socket, datagram.to, datagram.body) {
        Sent::Done => Reply::Nothing,
        Sent::NotYet => Reply::Nothing,
        Sent::Failed => Reply::Unreachable(NO_NETWORK),
    }
}

// Receives a datagram on a socket, for a guest.
fn receive<W: World>(
    world: &mut W,
    socket: u64,
    guest: Endpoint,
    mac: Option<Mac>,
    into: &mut [u8],
) -> Reply
    requires { 0 < length into.old }
    ensures receives { Makes (W.tells world.old) (W.tells world.new) (Receives socket guest mac (length into.old) into.new result) }
    ensures fits { FitsRoom result (length into.new) }
    ensures room { length into.new ≡ length into.old }
{
    match world.udp_recv(socket, into) {
        Got::From(peer, length) => Reply::Datagram {
            length,
            from: peer,
            to: guest,
            mac,
        },
        Got::NotYet => Reply::Nothing,
        Got::Failed => Reply::Nothing,
    }
}
