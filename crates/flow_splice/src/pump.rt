// What a flow owes its guest goes out on the link.
ghost use Rattle.std.specs.Prelude.{◌≡◌, ℕ, ◌^◌, ◌<◌, ◌≤◌, List, ◌++◌, [], None, Some, length, true, false};
ghost use Rattle.world_face.specs.Frames.{encoding};
ghost use Rattle.world_face.specs.Limits.{most_to_link};
ghost use Rattle.world_face.specs.Journal.{Entry};
ghost use Rattle.world_face.specs.Tells.{Makes, Rose};
ghost use Rattle.stream_netdev.specs.Keeps.{Keeps, Settles, Writes};
ghost use Rattle.stream_netdev.specs.State.{under_way};
ghost use Rattle.tcp_connection.specs.Connection.{HasBuffers};
ghost use Rattle.tcp_connection.specs.Owing.{change_gone, owed_of};
ghost use Rattle.sim_connection.specs.Sending.{is_rst, is_syn, segment_out, with_head};
ghost use Rattle.flow_splice.specs.Frames.{IsHeld, IsSized, frame_length, request_frame, segment_frame};
ghost use Rattle.spec_flow.specs.Settings.{Settings};
ghost use Rattle.spec_flow.specs.Event.{Story};
ghost use Rattle.sim_halves.specs.Resends.{least_wait};
ghost use Rattle.net_octets.specs.declared.Endpoint.{Endpoint};
ghost use Rattle.net_octets.specs.Sizes.{most_frame};

use crate::frames::{Route, write_frame, write_request};
use crate::guest::later_if;
use crate::scratch::Scratch;
use crate::{Place, Spliced};
use net_octets::{Ip4, Mac};
use rules_flow::may_ask;
use sock_buffers::Down;
use stream_netdev::{LENGTH, Link, Offered, Pumped, encode, outcome};
use tcp_connection::{Change, Head, Owed};
use world_face::World;

impl Spliced {
    ghost use Rattle.flow_splice.specs.Frames.{segment_frame};

    // Offers what is owed, in its frame.
    fn offer_owed<W: World>(
        &mut self,
        world: &mut W,
        link: &mut Link,
        scratch: &mut Scratch,
        what: &Owed,
        mac: Mac,
        ident: u16,
    ) -> Offered
        requires owed { owed_of self.old.conn self.old.up self.old.down ≡ Some what.now }
        requires none { link.old.tail ≡ [] }
        requires free { link.old.blocked ≡ false }
        ensures makes { Makes (W.tells world.old) (W.tells world.new) (λ made.
            Writes result (encoding (segment_frame self.old.face mac ident (segment_out self.old.mru self.old.conn self.old.up self.old.down what.now))) made
            × ((past : List Entry) → Keeps link.old past → Keeps link.new (made ++ past))) }
        ensures failed { result ≡ Offered.Failed → Rose (W.tells world.old).faults.link (W.tells world.new).faults.link }
        ensures settles { Settles result link.new }
        ensures same { under_way link.new ≡ under_way link.old }
        ensures change { self.new ≡ self.old }
        ensures buffers { HasBuffers self.old.conn self.old.up self.old.down }
        ensures sized { IsSized self.old.face mac ident (segment_out self.old.mru self.old.conn self.old.up self.old.down what.now) }
    {
        let head = self.conn.head(&self.up, what);
        let route = Route {
            guest: self.guest,
            other: self.other,
            vhost: self.vhost,
            mac,
            ident,
        };
        offer_frame(
            world,
            link,
            &route,
            &head,
            what,
            self.mru,
            &self.down,
            &mut scratch.octets,
        )
    }
}

// Offers the frame of a segment.
fn offer_frame<W: World>(
    world: &mut W,
    link: &mut Link,
    route: &Route,
    head: &Head,
    what: &Owed,
    mru: u16,
    down: &Down,
    buffer: &mut [u8],
) -> Offered
    requires held { IsHeld down.now what.now }
    requires mru { 40 ≤ mru }
    requires fits { frame_length head.now mru down.now what.now ≤ most_frame }
    requires room { most_to_link ≤ length buffer.old }
    requires none { link.old.tail ≡ [] }
    requires free { link.old.blocked ≡ false }
    ensures makes { (number : ℕ) → Makes (W.tells world.old) (W.tells world.new) (λ made.
        Writes result (encoding (segment_frame
        (record { guest = route.now.guest; other = route.now.other; number = number; vhost = route.now.vhost }) route.now.mac route.now.ident
        (with_head head.now mru down.now what.now))) made
        × ((past : List Entry) → Keeps link.old past → Keeps link.new (made ++ past))) }
    ensures failed { result ≡ Offered.Failed → Rose (W.tells world.old).faults.link (W.tells world.new).faults.link }
    ensures settles { Settles result link.new }
    ensures same { under_way link.new ≡ under_way link.old }
    ensures room { length buffer.new ≡ length buffer.old }
    ensures sized { (number : ℕ) → IsSized (record { guest = route.now.guest; other = route.now.other; number = number; vhost = route.now.vhost })
        route.now.mac route.now.ident (with_head head.now mru down.now what.now) }
{
    let length = write_frame(route, head, what, mru, down, &mut buffer[LENGTH..]);
    let size = encode(buffer, length);
    link.offer(world, &buffer[..size])
}

impl Spliced {
    ghost use Rattle.flow_splice.specs.Sends.{GoesOut, Marks, ident_if, went_out};

    // Where the link took something of it, it is out: the connection goes on, and where both ends passed its socket is closed.
    fn mark<W: World>(
        &mut self,
        world: &mut W,
        ident: &mut u16,
        what: &Owed,
        offered: Offered,
        now: u64,
    )
        requires now { now ≤ 2 ^ 62 }
        requires owed { owed_of self.old.conn self.old.up self.old.down ≡ Some what.now }
        ensures makes { Makes (W.tells world.old) (W.tells world.new) (Marks offered what.now self.old self.new now) }
        ensures ident { ident.new ≡ ident_if offered ident.old }
    {
        match offered {
            Offered::Taken => {
                *ident = ident.wrapping_add(1);
                self.go_out(world, what, now);
            }
            Offered::Blocked | Offered::Failed => {}
        }
    }

    fn go_out<W: World>(&mut self, world: &mut W, what: &Owed, now: u64)
        requires now { now ≤ 2 ^ 62 }
        requires owed { owed_of self.old.conn self.old.up self.old.down ≡ Some what.now }
        ensures makes { Makes (W.tells world.old) (W.tells world.new) (GoesOut (is_rst what.now) what.now self.old self.new now) }
    {
        let change = self.note_sent(what, now);
        if is_reset(what) {
            self.leave();
        } else {
            self.see(world, now, change);
        }
    }

    // The connection knows that it is out.
    fn note_sent(&mut self, what: &Owed, now: u64) -> Change
        requires now { now ≤ 2 ^ 62 }
        requires owed { owed_of self.old.conn self.old.up self.old.down ≡ Some what.now }
        ensures change { result ≡ change_gone what.now self.old.conn self.old.up now }
        ensures sent { self.new ≡ went_out self.old what.now now }
    {
        self.last = now;
        self.called = later_if(is_syn(what), now, self.called);
        self.conn.sent(&self.up, what, now)
    }
}

// The pump.
impl Spliced {
    ghost use Rattle.flow_splice.specs.Ahead.{HasPatience, IsEarly, IsTimely};
    ghost use Rattle.flow_splice.specs.Asks.{AsksOnce};
    ghost use Rattle.flow_splice.specs.Follows.{Follows};
    ghost use Rattle.flow_splice.specs.Stays.{Stays};
    ghost use Rattle.flow_splice.specs.Left.{left};
    ghost use Rattle.flow_splice.specs.Shapes.{IsPumpWork};
    ghost use Rattle.flow_splice.specs.Splice.{is_in_time_wait, is_open as is_open_by, is_time_wait_by};
    ghost use Rattle.flow_splice.specs.Wants.{HasTime};
    ghost use Rattle.flow_splice.specs.Sends.{Acknowledges, IsClear, IsPumped, SendsOn, asked, asks_now, learnt, or_known, takes_part};
    ghost use Rattle.flow_splice.specs.declared.Place.TheVariants.{Empty};
    ghost use Rattle.stream_netdev.specs.declared.Pumped.TheVariants.{Clear, Blocked, Failed};

    /// Sends all that the flow owes, one segment at a time, until the link is blocked. Each datagram that goes out has the number `ident`, which is one more
    /// then, modulo 2^16. `mac` is the guest's hardware address, where it is known: the flow keeps it. A flow that calls a guest whose address isn't known
    /// asks for it in place of its SYN. Where both ends passed with what went out the socket is closed. No other call is made: it only writes on the link, and
    /// failed exactly where its last write did. Its frames are written in the scratch. A flow in TIME-WAIT only acknowledges (RFC 9293, 3.10.7.4, TIME-WAIT), and stays in TIME-WAIT.
    pub fn pump<W: World>(
        &mut self,
        world: &mut W,
        link: &mut Link,
        scratch: &mut Scratch,
        ident: &mut u16,
        mac: Option<Mac>,
        now: u64,
    ) -> Pumped
        requires now { now ≤ 2 ^ 62 }
        requires tail { link.old.blocked ≡ false → link.old.tail ≡ [] }
        ensures makes { Makes (W.tells world.old) (W.tells world.new)
            (λ made. SendsOn self.old self.new link.old link.new ident.old ident.new now made × IsPumpWork result made
            × AsksOnce (or_known mac self.old.mac) self.old self.new now made) }
        ensures blocked { result ≡ Blocked → link.new.blocked ≡ true }
        ensures free { result ≡ Clear → (link.new.blocked ≡ false) × (link.new.tail ≡ []) }
        ensures failed { result ≡ Failed → Rose (W.tells world.old).faults.link (W.tells world.new).faults.link }
        ensures clear { result ≡ Clear → IsClear self.new }
        ensures same { under_way link.new ≡ under_way link.old }
        ensures stays { IsPumped mac self.old self.new }
        ensures closed { is_open_by self.old ≡ false → is_open_by self.new ≡ false }
        ensures time_waits { is_in_time_wait self.old.place ≡ true → Acknowledges (learnt self.old mac) self.new now }
        // Where time didn't close it, it doesn't then.
        ensures in_time { HasTime self.old now → HasTime self.new now }
        // Where no timer of it was due, none is due then.
        ensures ahead { (s : Settings) (past : Story) (before : ℕ) → Follows s self.old past before → IsTimely self.old now → IsTimely self.new now }
    {
        // for the prover: a read gives the range of the number.
        let _first = *ident;
        self.learn(mac);
        if link.blocked() {
            return Pumped::Blocked;
        }
        match self.mac() {
            Some(mac) => self.send_all(world, link, scratch, ident, mac, now),
            None => self.resolve(world, link, scratch, now),
        }
    }

    /// The guest's hardware address is known from now on, where one is told: a flow that waits for it calls its guest with the next `pump`.
    pub fn learn(&mut self, mac: Option<Mac>)
        ensures { self.new ≡ learnt self.old mac }
    {
        if mac.is_some() {
            self.mac = mac;
        }
    }

    /// The guest's hardware address, where it is known.
    pub fn mac(&self) -> Option<Mac>
        ensures { result ≡ self.now.mac }
    {
        self.mac
    }

    // What it owes, if it has its place.
    fn owed(&self) -> Option<Owed>
        ensures owed { result ≡ takes_part self.now (owed_of self.now.conn self.now.up self.now.down) }
        ensures time_waits { is_time_wait_by self.now.place self.now.conn.stage ≡ true }
    {
        if self.place == Place::Empty {
            None
        } else {
            self.conn.owed(&self.up, &self.down)
        }
    }

    // Asks for the guest's hardware address, where it is time to.
    fn resolve<W: World>(
        &mut self,
        world: &mut W,
        link: &mut Link,
        scratch: &mut Scratch,
        now: u64,
    ) -> Pumped
        requires now { now ≤ 2 ^ 62 }
        requires none { link.old.tail ≡ [] }
        requires free { link.old.blocked ≡ false }
        requires unknown { self.old.mac ≡ None }
        ensures makes { Makes (W.tells world.old) (W.tells world.new) (λ made.
            ((first : ℕ) → first < 2 ^ 16 → SendsOn self.old self.new link.old link.new first first now made) × IsPumpWork result made
            × AsksOnce None self.old self.new now made) }
        ensures blocked { result ≡ Blocked → link.new.blocked ≡ true }
        ensures free { result ≡ Clear → (link.new.blocked ≡ false) × (link.new.tail ≡ []) }
        ensures failed { result ≡ Failed → Rose (W.tells world.old).faults.link (W.tells world.new).faults.link }
        // Where the link took all, no request is owed any more.
        ensures clear { result ≡ Clear → asks_now self.new ≡ false }
        ensures waits { HasPatience self.old now → HasPatience self.new now }
        ensures same { under_way link.new ≡ under_way link.old }
        ensures stays { IsPumped None self.old self.new }
        ensures closed { is_open_by self.old ≡ false → is_open_by self.new ≡ false }
        ensures time_waits { is_in_time_wait self.old.place ≡ true → self.new ≡ self.old }
        ensures conn { self.new.conn ≡ self.old.conn }
        ensures in_time { HasTime self.old now → HasTime self.new now }
    {
        if !self.asks_now() {
            return Pumped::Clear;
        }
        let offered = self.offer_request(world, link, scratch);
        self.mark_asked(offered, now);
        outcome(offered, link.blocked())
    }

    // Whether a request for the guest's hardware address is owed.
    fn asks_now(&self) -> bool
        ensures { result ≡ asks_now self.now }
    {
        self.is_open() && may_ask(self.asked) && self.asks
    }

    fn offer_request<W: World>(
        &mut self,
        world: &mut W,
        link: &mut Link,
        scratch: &mut Scratch,
    ) -> Offered
        requires none { link.old.tail ≡ [] }
        requires free { link.old.blocked ≡ false }
        ensures makes { Makes (W.tells world.old) (W.tells world.new) (λ made. Writes result (encoding (request_frame self.old.face)) made
            × ((past : List Entry) → Keeps link.old past → Keeps link.new (made ++ past))) }
        ensures failed { result ≡ Offered.Failed → Rose (W.tells world.old).faults.link (W.tells world.new).faults.link }
        ensures settles { Settles result link.new }
        ensures same { under_way link.new ≡ under_way link.old }
        ensures change { self.new ≡ self.old }
        ensures fits { self.old.face.guest.addr.0 < 2 ^ 32 }
    {
        let (vhost, guest) = (self.vhost, self.guest.addr);
        offer_arp(world, link, vhost, guest, &mut scratch.octets)
    }

    // Where the link took something of the request, an answer is waited for.
    fn mark_asked(&mut self, offered: Offered, now: u64)
        requires now { now ≤ 2 ^ 62 }
        requires few { self.old.asked < 9 }
        ensures { self.new ≡ asked offered self.old now }
    {
        if offered == Offered::Taken {
            self.ask_at = now + wait_after(self.asked);
            self.asked += 1;
            self.asks = false;
        }
    }

    // Sends all that is owed to a guest that is known.
    fn send_all<W: World>(
        &mut self,
        world: &mut W,
        link: &mut Link,
        scratch: &mut Scratch,
        ident: &mut u16,
        mac: Mac,
        now: u64,
    ) -> Pumped
        requires now { now ≤ 2 ^ 62 }
        requires none { link.old.tail ≡ [] }
        requires free { link.old.blocked ≡ false }
        requires mac { self.old.mac ≡ Some mac }
        ensures makes { Makes (W.tells world.old) (W.tells world.new)
            (λ made. SendsOn self.old self.new link.old link.new ident.old ident.new now made × IsPumpWork result made) }
        ensures blocked { result ≡ Blocked → link.new.blocked ≡ true }
        ensures free { result ≡ Clear → (link.new.blocked ≡ false) × (link.new.tail ≡ []) }
        ensures failed { result ≡ Failed → Rose (W.tells world.old).faults.link (W.tells world.new).faults.link }
        ensures clear { result ≡ Clear → takes_part self.new (owed_of self.new.conn self.new.up self.new.down) ≡ None }
        ensures same { under_way link.new ≡ under_way link.old }
        ensures stays { Stays self.old self.new }
        ensures time_waits { is_in_time_wait self.old.place ≡ true → Acknowledges self.old self.new now }
        ensures closed { is_open_by self.old ≡ false → is_open_by self.new ≡ false }
        ensures early { IsEarly now self.old.conn → IsEarly now self.new.conn }
        ensures in_time { HasTime self.old now → HasTime self.new now }
    {
        // for the prover: a read gives the range of the number.
        let _first = *ident;
        while let Some(what) = self.owed() {
            match self.send(world, link, scratch, ident, &what, mac, now) {
                Pumped::Clear => {}
                Pumped::Blocked => return Pumped::Blocked,
                Pumped::Failed => return Pumped::Failed,
            }
        }
        Pumped::Clear
    }

    // Sends one segment that is owed.
    fn send<W: World>(
        &mut self,
        world: &mut W,
        link: &mut Link,
        scratch: &mut Scratch,
        ident: &mut u16,
        what: &Owed,
        mac: Mac,
        now: u64,
    ) -> Pumped
        requires now { now ≤ 2 ^ 62 }
        requires none { link.old.tail ≡ [] }
        requires free { link.old.blocked ≡ false }
        requires mac { self.old.mac ≡ Some mac }
        requires owed { takes_part self.old (owed_of self.old.conn self.old.up self.old.down) ≡ Some what.now }
        requires time_waits { is_time_wait_by self.old.place self.old.conn.stage ≡ true }
        ensures makes { Makes (W.tells world.old) (W.tells world.new)
            (λ made. SendsOn self.old self.new link.old link.new ident.old ident.new now made × IsPumpWork result made) }
        ensures blocked { result ≡ Blocked → link.new.blocked ≡ true }
        ensures free { result ≡ Clear → (link.new.blocked ≡ false) × (link.new.tail ≡ []) }
        ensures failed { result ≡ Failed → Rose (W.tells world.old).faults.link (W.tells world.new).faults.link }
        ensures less { result ≡ Clear → left self.new < left self.old }
        ensures same { under_way link.new ≡ under_way link.old }
        ensures stays { Stays self.old self.new }
        ensures time_waits { is_in_time_wait self.old.place ≡ true → Acknowledges self.old self.new now }
        ensures closed { is_open_by self.old ≡ false → is_open_by self.new ≡ false }
        ensures early { IsEarly now self.old.conn → IsEarly now self.new.conn }
        ensures in_time { HasTime self.old now → HasTime self.new now }
    {
        let offered = self.offer_owed(world, link, scratch, what, mac, *ident);
        self.mark(world, ident, what, offered, now);
        outcome(offered, link.blocked())
    }
}

// How long an answer is waited for after so many requests and one more: a second, and twice as long each time, up to a minute (RFC 6298, 5).
fn wait_after(asked: u8) -> u64
    requires { asked < 9 }
    ensures exact { result ≡ least_wait asked }
    ensures few { result ≤ 60000 }
{
    (1000u64 << asked).min(60_000)
}

// Offers the frame of a request for a hardware address.
fn offer_arp<W: World>(
    world: &mut W,
    link: &mut Link,
    vhost: Ip4,
    guest: Ip4,
    buffer: &mut [u8],
) -> Offered
    requires room { most_to_link ≤ length buffer.old }
    requires none { link.old.tail ≡ [] }
    requires free { link.old.blocked ≡ false }
    ensures makes { (other at : Endpoint) (number : ℕ) → Makes (W.tells world.old) (W.tells world.new) (λ made.
        Writes result (encoding (request_frame (record { guest = record { addr = guest; port = at.port }; other = other; number = number; vhost = vhost }))) made
        × ((past : List Entry) → Keeps link.old past → Keeps link.new (made ++ past))) }
    ensures failed { result ≡ Offered.Failed → Rose (W.tells world.old).faults.link (W.tells world.new).faults.link }
    ensures settles { Settles result link.new }
    ensures same { under_way link.new ≡ under_way link.old }
    ensures room { length buffer.new ≡ length buffer.old }
{
    let length = write_request(vhost, guest, &mut buffer[LENGTH..]);
    let size = encode(buffer, length);
    link.offer(world, &buffer[..size])
}

// Whether it is our SYN or SYN-ACK.
fn is_syn(what: &Owed) -> bool
    ensures { result ≡ is_syn what.now }
{
    match what {
        Owed::Syn | Owed::SynAck => true,
        Owed::Data(_) | Owed::Ack | Owed::Reset { .. } => false,
    }
}

// Whether it is a reset.
fn is_reset(what: &Owed) -> bool
    ensures { result ≡ is_rst what.now }
{
    match what {
        Owed::Reset { .. } => true,
        Owed::Syn | Owed::SynAck | Owed::Data(_) | Owed::Ack => false,
    }
}
