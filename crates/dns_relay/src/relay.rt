// The sockets of questions: a guest's question goes out to the resolver on the one of its port and identifier, and the resolver's answer comes in on it.
ghost use Rattle.std.specs.Prelude.{◌≡◌, ◌+◌, ◌-◌, ◌^◌, ◌<◌, ◌≤◌, [], All, IsPermutation, is_some, length, min, true, false, slice_get};
ghost use Rattle.std.specs.List.Sorted.{IsNonDecreasing};
ghost use Rattle.std.specs.Option.{option_map};
ghost use Rattle.slirp_settings.specs.Settings.{settings};
ghost use Rattle.world_face.specs.Limits.{most_to_udp};
ghost use Rattle.world_face.specs.Tells.{Makes};
ghost use Rattle.dns_relay.specs.Asking.{asked_of, bind_for, SendsOn};
ghost use Rattle.dns_relay.specs.Kept.{as_question};
ghost use Rattle.rules_dns.specs.Questions.{is_over, is_question, most_questions, numbers, question_life, socket_of};

use crate::messages::{ident_in, is_answered};
use idle_sockets::{IdleSocket, IdleSockets};
use net_octets::{Endpoint, Ip4, Mac};
use rules_dns::{QUESTION_LIFE, Question};
use rules_udp::Reply;
use slirp_settings::{NAMES_PORT, SlirpConfig};
use std::marker::Model;
use world_face::{Got, Made, Sent, World};

/// Why a destination can't be reached: the network can't (RFC 792).
const NO_NETWORK: u8 = 0;

/// A question of a guest: its endpoint, the hardware address from which it came, the resolver, and the message.
#[derive(Clone, Copy, Debug, PartialEq, Eq)]
struct AskedView<'a> {
    from: Endpoint,
    mac: Mac,
    to: Endpoint,
    body: &'a [u8],
}

/// The sockets of at most 512 questions to the name server, and the calls on them. Contracts see the address of the host at which they are opened, the resolver,
/// the address of the name server, and the list of questions, the longest unused first.
///
/// Moments are in milliseconds. Each call says which calls it makes on the World, what becomes of the list, and what it answers; all else stays as it is. The
/// core draws the numbers of sockets, and keeps an answer until it is out.
#[derive(Drop)]
pub struct Relay {
    bind: Ip4,
    resolver: Option<Endpoint>,
    name_server: Ip4,
    list: IdleSockets,
}

impl Model for Relay {
    ghost use Rattle.dns_relay.specs.State.{RelayState};
    ghost use Rattle.dns_relay.specs.Kept.{questions};

    ghost Value = { RelayState };

    ghost view = { λ s. record { bind = s.bind.0; resolver = s.resolver; name_server = s.name_server.0; list = questions s.list } };
}

impl Relay {
    ghost use Rattle.std.specs.Prelude.{ℕ, None, Option};
    ghost use Rattle.net_octets.specs.declared.Endpoint.{Endpoint as AnEndpoint};
    ghost use Rattle.net_octets.specs.declared.Mac.{Mac as AMac};
    ghost use Rattle.rules_udp.specs.declared.Reply.TheVariants.{Datagram};
    ghost use Rattle.world_face.specs.declared.Got.TheVariants.{From};
    ghost use Rattle.rules_dns.specs.Questions.{asked_from, ident_in, moved_last, numbered};
    ghost use Rattle.dns_relay.specs.Relaying.{calls_after, list_after, passed, ClosesLeast, Hears, OpensFor, Relays, Ticks};

    /// No socket is open. Sockets will be opened at port 0, where the system chooses the port: at `outbound` where the settings have it, else at 0.0.0.0, every
    /// address; where the resolver is on the host itself, in 127/8, at 0.0.0.0. All room for questions is in the value itself, so nothing is taken later.
    pub fn new(c: &SlirpConfig) -> Relay
        ensures { result ≡ record {
          bind = bind_for (settings c.now);
          resolver = (settings c.now).resolver;
          name_server = (settings c.now).vnameserver;
          list = [];
        } }
    {
        Relay {
            bind: bind_for(c),
            resolver: c.resolver,
            name_server: c.vnameserver,
            list: IdleSockets::new(),
        }
    }

    /// Sends a guest's question of at most 65,507 octets, which came from this hardware address, to the resolver: on the socket of the same question, of this
    /// port and with this identifier. Where there is none one is opened with this number, which then counts up; where 512 wait the socket of the longest unused
    /// one is closed before. Unreachable with code 0 where no socket can be opened, or the sending fails (RFC 792).
    pub fn query<W: World>(
        &mut self,
        world: &mut W,
        now: u64,
        number: &mut u64,
        from: Endpoint,
        mac: Mac,
        to: Endpoint,
        body: &[u8],
    ) -> Reply
        requires question { is_question body.now ≡ true }
        requires fits { length body.now ≤ most_to_udp }
        requires numbers { number.old + 1 < 2 ^ 64 }
        requires above { All (λ n. n < number.old) (numbers self.old.list) }
        ensures relays { Makes (W.tells world.old) (W.tells world.new)
            (Relays self.old.bind (record { from = from; mac = mac; to = to; body = body.now }) now number.old number.new self.old.list self.new.list result) }
        ensures rest { self.new ≡ record self.old { list = self.new.list } }
    {
        let asked = AskedView {
            from,
            mac,
            to,
            body,
        };
        let ident = ident_in(body);
        match self.list.socket_of(from, ident) {
            Some(socket) => self.send_on(world, now, socket, &asked),
            None => {
                self.list.make_room(world);
                self.open_for(world, now, number, ident, &asked)
            }
        }
    }

    // Opens a socket at the address, and sends the question on it.
    fn open_for<W: World>(
        &mut self,
        world: &mut W,
        now: u64,
        number: &mut u64,
        ident: u16,
        asked: &AskedView<'_>,
    ) -> Reply
        requires ident { ident ≡ ident_in asked.now.body.now }
        requires fits { length asked.now.body.now ≤ most_to_udp }
        requires numbers { number.old + 1 < 2 ^ 64 }
        requires above { All (λ n. n < number.old) (numbers self.old.list) }
        requires room { length self.old.list < most_questions }
        requires fresh { socket_of asked.now.from ident self.old.list ≡ None }
        ensures opens { Makes (W.tells world.old) (W.tells world.new)
            (OpensFor self.old.bind (asked_of asked.now) now number.old self.old.list self.new.list result) }
        ensures rest { self.new ≡ record self.old { list = self.new.list } }
        ensures next { number.new ≡ number.old + 1 }
    {
        let socket = IdleSocket {
            number: *number,
            guest: asked.from,
            ident,
            mac: asked.mac,
            used: now,
        };
        *number += 1;
        match self.list.open_at(world, self.bind, socket) {
            Made::Done => self.send_on(world, now, socket.number, asked),
            Made::Failed => Reply::Unreachable(NO_NETWORK),
        }
    }

    // Sends the question on its socket, which is used by it.
    fn send_on<W: World>(
        &mut self,
        world: &mut W,
        now: u64,
        socket: u64,
        asked: &AskedView<'_>,
    ) -> Reply
        requires { length asked.now.body.now ≤ most_to_udp }
        ensures sends { Makes (W.tells world.old) (W.tells world.new) (SendsOn socket (asked_of asked.now) result) }
        ensures list { self.new ≡ record self.old { list = moved_last (asked_from asked.now.mac now) socket self.old.list } }
    {
        let reply = send(world, socket, asked);
        self.list.sent(socket, asked.mac, now);
        reply
    }

    /// Receives a datagram on the socket of a question, in the room that is given, at least one octet. Where it is the resolver's answer to that question the
    /// socket is closed, and the answer goes to the guest from port 53 of the name server; its octets lie at the front of the room. Any other is dropped.
    pub fn answer<W: World>(&mut self, world: &mut W, now: u64, s: u64, into: &mut [u8]) -> Reply
        requires { 0 < length into.old }
        ensures hears { Makes (W.tells world.old) (W.tells world.new) (Hears self.old now s (length into.old) into.new self.new.list result) }
        ensures rest { self.new ≡ record self.old { list = self.new.list } }
        ensures fits { (count : ℕ) (from to : AnEndpoint) (mac : Option AMac) → result ≡ Datagram count from to mac → count ≤ length into.new }
        ensures room { length into.new ≡ length into.old }
    {
        let Some(socket) = self.list.numbered(s) else {
            return Reply::Nothing;
        };
        let question = as_question(&socket);
        match world.udp_recv(s, into) {
            Got::From(peer, length) => {
                self.receive_answer(world, now, &question, peer, &into[..length])
            }
            Got::NotYet => Reply::Nothing,
            Got::Failed => Reply::Nothing,
        }
    }

    // A datagram of a peer came on the socket of a question, which is used by it.
    fn receive_answer<W: World>(
        &mut self,
        world: &mut W,
        now: u64,
        question: &Question,
        peer: Endpoint,
        octets: &[u8],
    ) -> Reply
        ensures calls { Makes (W.tells world.old) (W.tells world.new)
            (λ made. made ≡ calls_after self.old question.now (From peer (length octets.now)) octets.now) }
        ensures list { self.new ≡ record self.old { list = list_after self.old now question.now (From peer (length octets.now)) octets.now } }
        ensures reply { result ≡ passed self.old question.now (From peer (length octets.now)) octets.now }
    {
        self.list.received(question.number, now);
        if !is_answered(self.resolver, question, peer, octets) {
            return Reply::Nothing;
        }
        world.close(question.number);
        self.list.close(question.number);
        Reply::Datagram {
            length: octets.len(),
            from: Endpoint {
                addr: self.name_server,
                port: NAMES_PORT,
            },
            to: question.guest,
            mac: Some(question.mac),
        }
    }

    /// Whether a question waits on this socket.
    pub fn has(&self, s: u64) -> bool
        ensures { result ≡ is_some (numbered s self.now.list) }
    {
        self.list.numbered(s).is_some()
    }

    /// The numbers of all open sockets, the least first.
    pub fn rising(&self) -> &[u64]
        ensures all { IsPermutation (numbers self.now.list) result.now }
        ensures rising { IsNonDecreasing result.now }
        ensures most { length result.now ≤ most_questions }
    {
        self.list.rising()
    }

    /// The longest unused question. None exactly where there is none.
    pub fn oldest(&self) -> Option<Question>
        ensures { result ≡ slice_get self.now.list 0 }
    {
        let oldest = self.list.oldest()?;
        Some(as_question(&oldest))
    }

    /// The moment at which the longest unused question has waited for long enough, at most 2^64 - 1. None exactly where there is none.
    pub fn next_due(&self) -> Option<u64>
        ensures { result ≡ option_map (λ q. min (2 ^ 64 - 1) (q.used + question_life)) (slice_get self.now.list 0) }
    {
        self.list.next_due(QUESTION_LIFE)
    }

    /// Closes the sockets of questions that have waited for long enough, by rising number.
    pub fn tick<W: World>(&mut self, world: &mut W, now: u64)
        ensures closes { Makes (W.tells world.old) (W.tells world.new) (Ticks now self.old.list self.new.list) }
        ensures none { All (λ q. is_over now q ≡ false) self.new.list }
        ensures rest { self.new ≡ record self.old { list = self.new.list } }
    {
        self.list.close_idle(world, now, QUESTION_LIFE);
    }

    /// Closes the socket with the least number, and answers whether there was one.
    pub fn close_first<W: World>(&mut self, world: &mut W) -> bool
        ensures closes { Makes (W.tells world.old) (W.tells world.new) (ClosesLeast (λ q. true) result self.old.list self.new.list) }
        ensures fewer { result ≡ true → length self.new.list < length self.old.list }
        ensures rest { self.new ≡ record self.old { list = self.new.list } }
    {
        self.list.close_first(world)
    }
}

// A socket as the question that waits on it.
fn as_question(socket: &IdleSocket) -> Question
    ensures { result ≡ as_question socket.now }
{
    Question {
        number: socket.number,
        guest: socket.guest,
        mac: socket.mac,
        ident: socket.ident,
        used: socket.used,
    }
}

// At which address of the host sockets are opened.
fn bind_for(c: &SlirpConfig) -> Ip4
    ensures { result.0 ≡ bind_for (settings c.now) }
{
    match c.resolver {
        Some(resolver) if resolver.addr.0 >> 24 == 127 => Ip4(0),
        _ => c.outbound.unwrap_or(Ip4(0)),
    }
}

// Sends a question on a socket.
fn send<W: World>(world: &mut W, socket: u64, asked: &AskedView<'_>) -> Reply
    requires { length asked.now.body.now ≤ most_to_udp }
    ensures { Makes (W.tells world.old) (W.tells world.new) (SendsOn socket (asked_of asked.now) result) }
{
    match world.udp_send(socket, asked.to, asked.body) {
        Sent::Done => Reply::Nothing,
        Sent::NotYet => Reply::Nothing,
        Sent::Failed => Reply::Unreachable(NO_NETWORK),
    }
}
