//! One flow: a connection with a guest (`tcp_connection`) and a socket of the host, over any World.
//!
//! What the guest sends goes to the socket, and what is read from the socket goes to the guest. A flow connects, where the guest's SYN came and a socket of the host
//! began to connect, or it was accepted, where a peer came to a listener and its guest is called. Its calls are one socket's alone, and writes of its own frames on the
//! link. It stands in a place that another flow takes once this one is over.
//!
//! What a call makes is said over every story: where the flow followed the story so far, the entries made are events of it, and the flow follows it with these
//! (`Follows`, `Serves`). Each event was allowed by the laws of one flow, and was as it must be. Moments are in milliseconds, at most 2^62.
//!
//! | Field | RFC 9293, 3.3.1 |
//! |---|---|
//! | `conn` | the transmission control block: ISS, IRS, SND and RCV variables stand in it (`tcp_connection`) |
//! | `up` | the receive buffer, from what the host took up to RCV.NXT, and what is kept past a gap |
//! | `down` | the send buffer, from SND.UNA on |
//! | `guest`, `other` | the remote and the local socket of the guest's connection |
//!
//! Proved:
//! - After every story that the flow follows (`Follows`), `Spliced::host_ready`, `guest_segment`, `tick` and `pump` make calls that are events of this flow and no
//!   others, each allowed and as it must be after what was before it, and the flow follows the story with these (`makes` of each; of `tick` where the guest's hardware
//!   address isn't known unless the flow has it, and also directly after a segment of the flow).
//! - They say which calls: of `guest_segment` and `tick` at most a close; of `host_ready` those for writing, then those for reading, each only where that was
//!   reported, and where it is waited for, unless a call for writing closed the socket (`ServesReport`); of `pump` only writes on the link and closes, of which the
//!   last failed exactly where it answers Failed.
//! - After a report for writing a host that had connected was told the guest's end, where the flow is open, that was taken and no octet is held (`passes_end`).
//! - `guest_segment` answers true exactly where the connection has no place for the segment (`unfit`). Of a closed flow only `pump` calls something (`closed`,
//!   `time_waits`, `quiet`).
//! - `tick` closes a socket that didn't connect in 75,000 ms, and that of a deserted flow past its patience; after it, and a `pump`, time closes the flow no more
//!   (`in_time`, `HasTime`). What the connection's timer makes owed is owed (`again`), as is a request for the guest's hardware address whose wait is over (`waits`),
//!   and none of the two is due after it, unless an acknowledgement is owed (`ahead`).
//! - `pump` writes each segment in its frame, with the guest's hardware address and identifications that count up, or where the address isn't known one request for
//!   it, which it counts once the link took something of it, or nothing (`makes`, with `AsksOnce`). It answers what the link is then (`blocked`, `free`, `failed`), and
//!   Clear only where nothing is owed (`clear`). A timer that wasn't due isn't after it (`ahead`).
//! - A flow in TIME-WAIT only acknowledges, once, and stays so since the same moment (`time_waits`); `renews` is whether a segment begins TIME-WAIT anew. `start` begins
//!   the story of a flow that a guest opened or that a peer did (`connects`, `accepts`, `begins`), in a place that `open` made; after `leave` no flow has the place.
//! - `want` waits for octets exactly where the law says so, and to write where it must be and only where it may be (`wants`, `reads`, `must`, `may`). `due`, `place`,
//!   `other`, `held`, `last` and `left_at` are exact, as are `is_open`, `number`, `is_accepted`, `guest`, `mac`, and what `learn` tells it. `due` is within the two
//!   bounds on a wait (`by_connect`, `by_resend`, `from`).
//! - `last` is the moment of the flow's last sign of life. It may give way to a SYN exactly from `gives_way_at` on (`may`). `give_way` makes the close alone; where
//!   the flow may give way, and no fatal reset came directly before, it follows its story with it, also once the run is over (`makes`, `follows`).
//! - What `held` copies is, of a conforming guest, what came from where the host stopped (`front`).
//! - Laws of each flow that follows its story: what it did was lawful and dutiful (`what_a_flow_did_was_lawful`); after Clear it is settled, and in time where no
//!   timer of it is due (`a_flow_that_is_clear_is_settled`). It may be waited (`a_flow_may_be_waited_for`), held octets go on with what the host took
//!   (`held_octets_go_on_with_what_was_written`), and `a_place_is_in_use_as_long_as_its_flow_has_its_tuple`.
//!
//! Neither: of what `Scratch::open` gives, the memory that the calls share, no clause says anything.
#![tactic(auto)]

mod frames;
mod guest;
mod host;
pub mod laws;
mod pump;
mod scratch;
mod time;

ghost use Rattle.std.specs.Prelude.{◌≡◌, ℕ, ◌+◌, ◌-◌, ◌*◌, ◌^◌, ◌<◌, ◌≤◌, List, [], ◌∷◌, ◌++◌, length, take, drop, min, if◌then◌else◌, nat_le, true, false, None, Some, IfOk, IsSome, Bool, ◌&&◌, not};
ghost use Rattle.world_face.specs.Journal.{Close};
ghost use Rattle.world_face.specs.Tells.{Answers, Makes};
ghost use Rattle.sock_buffers.specs.Downward.{downward};
ghost use Rattle.sock_buffers.specs.Upward.{empty};
ghost use Rattle.tcp_connection.specs.Connection.{HasBuffers, from_guest, to_guest};
ghost use Rattle.tcp_segment.specs.Tcp.{Tcp};
ghost use Rattle.spec_flow.specs.Settings.{Settings};
ghost use Rattle.spec_flow.specs.Event.{Story, Connects, Accepts, At};
ghost use Rattle.spec_flow.specs.Windows.{mss};
ghost use Rattle.sim_connection.specs.Holding.{is_at_connecting, is_live};
ghost use Rattle.sim_connection.specs.Seen.{segment_of};
ghost use Rattle.flow_splice.specs.Wants.{sooner};

pub use guest::renews;
use net_octets::{Endpoint, Ip4, Mac, NoMemory};
use poll_list::{Want, Who};
pub use scratch::Scratch;
use seq_space::Seq;
use sock_buffers::{Down, Up};
use std::alloc::Global;
use std::marker::Model;
use tcp_connection::{Change, Conn};
use tcp_segment::USUAL_MSS;
use world_face::World;

/// How long a socket may take to connect, in milliseconds.
const CONNECTS_FOR: u64 = 75_000;

/// How long a guest may take to answer where its peer is gone.
const PATIENCE: u64 = 1_000;

/// How long a flow keeps its place without a sign of life, in milliseconds (RFC 5382, REQ-5): while its socket is to connect, where one direction ended or
/// no octet passed, and else.
const QUIET_CONNECTING: u64 = 10_000;

const QUIET_SHORT: u64 = 240_000;

const QUIET: u64 = 7_440_000;

/// The endpoint of a place that no flow has.
const NOWHERE: Endpoint = Endpoint {
    addr: Ip4(0),
    port: 0,
};

/// Where a flow stands.
#[derive(Clone, Copy, Debug, PartialEq, Eq)]
pub enum Place {
    /// No flow has it.
    Empty,
    /// Its flow's socket is open, or it owes its guest a reset.
    InUse,
    /// Its flow is in TIME-WAIT, with its socket closed, and the rest is counted from this moment.
    InTimeWait(u64),
}

/// One flow, or the place for one. A contract sees a `Splice`.
#[derive(Drop)]
pub struct Spliced {
    pub(crate) place: Place,
    pub(crate) shut: bool,
    pub(crate) guest: Endpoint,
    pub(crate) other: Endpoint,
    pub(crate) number: u64,
    pub(crate) vhost: Ip4,
    pub(crate) mac: Option<Mac>,
    pub(crate) since: u64,
    // a peer of the host was accepted
    pub(crate) accepted: bool,
    pub(crate) told_end: bool,
    pub(crate) asked: u8,
    pub(crate) ask_at: u64,
    // a request for the guest's hardware address is owed
    pub(crate) asks: bool,
    pub(crate) conn: Conn,
    pub(crate) up: Up,
    pub(crate) down: Down,
    pub(crate) mru: u16,
    // the moment of the last sign of life
    pub(crate) last: u64,
    // that at which our SYN went out last
    pub(crate) called: u64,
}

impl Model for Spliced {
    ghost use Rattle.std.specs.Prelude.{◌≡◌, ◌≤◌, ◌^◌, length, true};
    ghost use Rattle.flow_splice.specs.Splice.{AreMoments, Splice, IsSound, is_time_wait_by};

    ghost Value = { Splice };

    ghost view = { λ s. record {
      place = s.place;
      shut = s.shut;
      face = record { guest = s.guest; other = s.other; number = s.number; vhost = s.vhost };
      mac = s.mac;
      since = s.since;
      accepted = s.accepted;
      told_end = s.told_end;
      asked = s.asked;
      ask_at = s.ask_at;
      asks = s.asks;
      conn = s.conn;
      up = s.up;
      down = s.down;
      mru = s.mru;
      last = s.last;
      called = s.called;
    } };

    ghost invariant = { λ s. IsSound s.conn s.up s.down s.asked s.mru × AreMoments s.since s.last s.called × (is_time_wait_by s.place s.conn.stage ≡ true) };
}

impl Spliced {
    ghost use Rattle.flow_splice.specs.Follows.{Follows};
    ghost use Rattle.flow_splice.specs.Splice.{begun, is_open as is_open_by};
    ghost use Rattle.flow_splice.specs.Wants.{due_of, gives_way_at as gives_way_at_by, is_deserted as is_deserted_by, left_at as left_at_by, reads, writes};
    ghost use Rattle.spec_flow.specs.Close.{last_at, may_give_way};
    ghost use Rattle.flow_splice.specs.declared.Place.TheVariants.{Empty};
    ghost use Rattle.poll_list.specs.declared.Who.TheVariants.{Tcp as OnTcp};
    ghost use Rattle.spec_flow.specs.Dutiful.{MayWaitToWrite, close_deadline, must_wait_to_write, resend_deadline, waits_to_read, wakes};
    ghost use Rattle.spec_flow.specs.Bounds.{IsBy, IsFrom};
    ghost use Rattle.flow_splice.specs.Sends.{IsClear};
    ghost use Rattle.flow_splice.specs.Held.{IsFront};
    ghost use Rattle.spec_flow.specs.Flow.{guest};
    ghost use Rattle.spec_flow.specs.Guest.{Conforming};

    /// The place for a flow, with all the memory that one will ever need of its own: `ring` octets for each direction, from 1 to 1,048,576. `mru` is the longest
    /// datagram that comes from the guest, from 576 to 9,216 octets.
    ///
    /// # Errors
    /// `NoMemory` where no memory is left.
    pub fn open(alloc: Global, ring: usize, mru: u16) -> Result<Spliced, NoMemory>
        requires some { 1 ≤ ring }
        requires few { ring ≤ 1048576 }
        requires least { 576 ≤ mru }
        requires most { mru ≤ 9216 }
        ensures place { IfOk result (λ f. f.place ≡ Empty) }
        ensures size { IfOk result (λ f. (f.up.size ≡ ring) × (f.down.size ≡ ring)) }
        ensures mru { IfOk result (λ f. f.mru ≡ mru) }
    {
        let (Ok(up), Ok(down)) = (Up::open(alloc, ring), Down::open(alloc, ring)) else {
            return Err(NoMemory);
        };
        Ok(Spliced {
            place: Place::Empty,
            shut: true,
            guest: NOWHERE,
            other: NOWHERE,
            number: 0,
            vhost: Ip4(0),
            mac: None,
            since: 0,
            accepted: false,
            told_end: false,
            asked: 0,
            ask_at: 0,
            asks: true,
            conn: Conn::to_guest(Seq(0), USUAL_MSS, ring as u32, false),
            up,
            down,
            mru,
            last: 0,
            called: 0,
        })
    }

    /// A flow begins at a moment, in a place that none has: between a guest and another endpoint, on a socket with this number, with a connection that
    /// is new and has buffers of this place's size. The guest's hardware address is known, where the guest opened the flow.
    pub fn start(
        &mut self,
        now: u64,
        guest: Endpoint,
        other: Endpoint,
        number: u64,
        vhost: Ip4,
        mac: Option<Mac>,
        conn: Conn,
    )
        requires now { now ≤ 2 ^ 62 }
        requires new { HasBuffers conn (empty self.old.up.size) (downward [] 0 self.old.down.size) }
        requires size { self.old.down.size ≡ self.old.up.size }
        ensures begins { self.new ≡ begun now guest other number vhost mac conn self.old }
        // A guest's SYN came, and the socket began to connect.
        ensures connects { (s : Settings) (syn : Tcp) (ours most : ℕ) → s.scales ≡ true → s.ring ≤ 2 ^ 20 → s.ring ≡ self.old.up.size
            → s.mru ≡ self.old.mru → IsSome mac → most ≡ mss s (At now (Connects ours (segment_of syn)) ∷ [])
            → conn ≡ from_guest syn.seq ours most syn.scale s.ring s.congestion
            → Follows s self.new (At now (Connects ours (segment_of syn)) ∷ []) now }
        // A peer's connection was accepted, and its guest is called.
        ensures accepts { (s : Settings) (ours most : ℕ) → s.scales ≡ true → s.ring ≤ 2 ^ 20 → s.ring ≡ self.old.up.size
            → s.mru ≡ self.old.mru → most ≡ s.mtu - 40 → conn ≡ to_guest ours most s.ring s.congestion
            → Follows s self.new (At now (Accepts ours) ∷ []) now }
    {
        self.accepted = is_for_peer(&conn);
        self.up.reset();
        self.down.reset();
        self.conn = conn;
        self.guest = guest;
        self.other = other;
        self.number = number;
        self.vhost = vhost;
        self.mac = mac;
        self.since = now;
        self.told_end = false;
        self.asked = 0;
        self.ask_at = 0;
        self.asks = true;
        self.last = now;
        self.called = 0;
        self.shut = false;
        self.place = Place::InUse;
    }

    /// Where it stands.
    pub fn place(&self) -> Place
        ensures { result ≡ self.now.place }
    {
        self.place
    }

    /// Whether its socket is open.
    pub fn is_open(&self) -> bool
        ensures { result ≡ is_open_by self.now }
    {
        self.place == Place::InUse && !self.shut
    }

    /// The number of its socket, or of the one that it had.
    pub fn number(&self) -> u64
        ensures { result ≡ self.now.face.number }
    {
        self.number
    }

    /// Whether it was accepted, for a peer of the host; else its guest opened it.
    pub fn is_accepted(&self) -> bool
        ensures { result ≡ self.now.accepted }
    {
        self.accepted
    }

    /// Its guest's end.
    pub fn guest(&self) -> Endpoint
        ensures { result ≡ self.now.face.guest }
    {
        self.guest
    }

    /// The other end, as the guest sees it.
    pub fn other(&self) -> Endpoint
        ensures { result ≡ self.now.face.other }
    {
        self.other
    }

    /// The moment at which the flow is to be looked at: the end of the time to connect, or of the patience with a guest whose peer is gone, that of a wait
    /// for the guest's hardware address, or that of the connection's timer. `None` exactly where there is none, as where a request for that address is owed,
    /// which goes out when the link takes it.
    pub fn due(&self) -> Option<u64>
        ensures due { result ≡ due_of self.now }
        // No later than 75,000 ms after the flow was opened, while it connects; where its peer is gone, than 1,000 ms after that and after our SYN went out.
        ensures by_connect { (s : Settings) (past : Story) (now : ℕ) → Follows s self.now past now → IsBy result (close_deadline past) }
        // Where a pump cleared the flow, no later than a minute after what is under way went out, or after the last acknowledgement that moved, or after the
        // guest's hardware address was asked for.
        ensures by_resend { (s : Settings) (past : Story) (now : ℕ) → Follows s self.now past now → IsClear self.now → IsBy result (resend_deadline past) }
        // Not before the earliest moment for which a wait may be cut short, and without end where there is none.
        ensures from { (s : Settings) (past : Story) (now : ℕ) → Follows s self.now past now → IsFrom result (wakes past) }
    {
        self.next_moment()
    }

    /// The moment of its last sign of life: it was opened, or connected, octets or an end passed on the socket, or a segment came or went out.
    pub fn last(&self) -> u64
        ensures exact { result ≡ self.now.last }
        ensures last { (s : Settings) (past : Story) (now : ℕ) → Follows s self.now past now → is_open_by self.now ≡ true → result ≡ last_at past }
    {
        self.last
    }

    /// The moment from which on an open flow may give way to a SYN of a guest: 10,000 ms after its last sign of life while its socket is to connect, 240,000
    /// where the host's end was read, or was told the guest's, or no octet passed, and else 7,440,000. `u64::MAX` where both ends passed, and the last
    /// acknowledgement alone is left to be sent.
    pub fn gives_way_at(&self) -> u64
        ensures exact { result ≡ gives_way_at_by self.now }
        ensures may { (s : Settings) (past : Story) (now : ℕ) → Follows s self.now past now → is_open_by self.now ≡ true
            → (m : ℕ) → m ≤ 2 ^ 62 → may_give_way m past ≡ nat_le result m }
    {
        self.way_moment()
    }

    /// The moment by which the flow is closed because its peer ended without an octet before its guest answered, where that is so, it is open and no
    /// acknowledgement is owed.
    pub fn left_at(&self) -> Option<u64>
        ensures { result ≡ (if is_open_by self.now && is_deserted_by self.now then Some (left_at_by self.now) else None) }
    {
        (self.is_open() && self.is_deserted()).then_some(self.left_moment())
    }

    /// What is waited for: that the socket has octets, where there is room for them; that it connects or takes octets or the guest's end.
    pub fn want(&self) -> Want
        ensures wants { result ≡ record { of = OnTcp self.now.face.number; read = reads self.now; write = writes self.now } }
        // It is waited for octets exactly where the law says so, and to write where it must be, and only where it may be.
        ensures reads { (s : Settings) (past : Story) (now : ℕ) → Follows s self.now past now → waits_to_read s past ≡ result.read }
        ensures must { (s : Settings) (past : Story) (now : ℕ) → Follows s self.now past now → must_wait_to_write past ≡ true → result.write ≡ true }
        ensures may { (s : Settings) (past : Story) (now : ℕ) → Follows s self.now past now → result.write ≡ true → MayWaitToWrite past }
    {
        Want {
            of: Who::Tcp(self.number),
            read: self.reads(),
            write: self.writes(),
        }
    }

    /// Copies the octets of the guest that the host didn't take yet to the start of `into`, the oldest first, as many as fit, and answers how many.
    pub fn held(&self, into: &mut [u8]) -> usize
        ensures count { result ≡ min (length into.old) (length self.now.up.held) }
        ensures copied { into.new ≡ take result self.now.up.held ++ drop result into.old }
        // Of a conforming guest they are what came from where the host stopped, and reach to what was acknowledged at least, where they fit.
        ensures front { (s : Settings) (past : Story) (now : ℕ) → Follows s self.now past now → is_open_by self.now ≡ true → Conforming (guest past)
            → IsFront past (length into.old) result (take result into.new) }
    {
        self.up.front_piece(into)
    }
}

// What is read of it.
impl Spliced {
    ghost use Rattle.flow_splice.specs.Hosts.{Sees, ends};
    ghost use Rattle.flow_splice.specs.Splice.{closed, place_after as place_after_by};
    ghost use Rattle.flow_splice.specs.Wants.{connect_end as connect_end_by, due_of, may_end, may_read as may_read_by, may_write as may_write_by, owes_octets as owes_octets_by};
    ghost use Rattle.flow_splice.specs.Wants.{reads as reads_by, resolves as resolves_by, writes as writes_by, due_else, is_deserted as is_deserted_by, is_short as is_short_by};
    ghost use Rattle.flow_splice.specs.Wants.{patience_end as patience_end_by, quiet_time as quiet_time_by, reads_none as reads_none_by, left_at as left_at_by, gives_way_at as gives_way_at_by};

    // Whether the socket is to connect.
    pub(crate) fn connects(&self) -> bool
        ensures { result ≡ is_at_connecting self.now.conn.stage }
    {
        self.conn.connecting()
    }

    // Whether a request for the guest's hardware address waits for its answer.
    pub(crate) fn resolves(&self) -> bool
        ensures { result ≡ resolves_by self.now }
    {
        self.mac.is_none() && self.asked > 0
    }

    // The moment at which it is to be looked at.
    fn next_moment(&self) -> Option<u64>
        ensures { result ≡ due_of self.now }
    {
        if !self.is_open() {
            None
        } else if self.is_deserted() {
            Some(sooner(self.left_moment(), self.next_else()))
        } else {
            self.next_else()
        }
    }

    // That of an open flow, but for the end of patience.
    fn next_else(&self) -> Option<u64>
        ensures { result ≡ due_else self.now }
    {
        if self.connects() {
            Some(self.connect_end())
        } else if self.resolves() {
            (!self.asks).then_some(self.ask_at)
        } else {
            self.conn.due()
        }
    }

    // Whether no octet of the host was read.
    fn reads_none(&self) -> bool
        ensures { result ≡ reads_none_by self.now.down }
    {
        self.down.first() == 0 && self.down.held() == 0
    }

    // Whether its peer ended without an octet before its guest answered, and no acknowledgement is owed.
    pub(crate) fn is_deserted(&self) -> bool
        ensures { result ≡ is_deserted_by self.now }
    {
        self.accepted
            && !self.connects()
            && self.conn.opening()
            && !self.conn.host_is_open()
            && self.reads_none()
            && !self.conn.owes_ack()
    }

    // The moment until which its guest may answer then.
    pub(crate) fn patience_end(&self) -> u64
        ensures { result ≡ patience_end_by self.now }
    {
        self.since.max(self.called) + PATIENCE
    }

    // The moment by which it is closed then.
    fn left_moment(&self) -> u64
        ensures { result ≡ left_at_by self.now }
    {
        self.patience_end().max(self.last + 1)
    }

    // The moment from which on it may give way, if it is open.
    fn way_moment(&self) -> u64
        ensures { result ≡ gives_way_at_by self.now }
    {
        if self.told_end && self.conn.end_acked() {
            u64::MAX
        } else {
            self.last + self.quiet_time()
        }
    }

    // Whether the host's end was read, or it was told the guest's, or no octet passed.
    fn is_short(&self) -> bool
        ensures { result ≡ is_short_by self.now }
    {
        !self.conn.host_is_open() || self.told_end || (self.reads_none() && self.up.count() == 0)
    }

    // How long it keeps its place without a sign of life.
    fn quiet_time(&self) -> u64
        ensures exact { result ≡ quiet_time_by self.now }
        ensures few { result ≤ 7440000 }
    {
        if self.connects() {
            QUIET_CONNECTING
        } else if self.is_short() {
            QUIET_SHORT
        } else {
            QUIET
        }
    }

    // The moment at which the socket's time to connect is over.
    pub(crate) fn connect_end(&self) -> u64
        ensures { result ≡ connect_end_by self.now }
    {
        self.since + CONNECTS_FOR
    }

    fn reads(&self) -> bool
        ensures { result ≡ reads_by self.now }
    {
        self.is_open() && self.may_read()
    }

    fn writes(&self) -> bool
        ensures { result ≡ writes_by self.now }
    {
        self.is_open() && self.may_write()
    }

    // Whether the host may give octets, and there is room for some.
    pub(crate) fn may_read(&self) -> bool
        ensures { result ≡ may_read_by self.now }
    {
        !self.connects() && self.conn.host_is_open() && self.down.room() > 0
    }

    // Whether there is something for the host to do: to connect, to take octets or to take the guest's end.
    pub(crate) fn may_write(&self) -> bool
        ensures { result ≡ may_write_by self.now }
    {
        self.connects() || self.owes_octets() || self.owes_end()
    }

    // Whether octets of the guest are held that the host is to take.
    pub(crate) fn owes_octets(&self) -> bool
        ensures { result ≡ owes_octets_by self.now }
    {
        self.up.held() > 0 && !self.told_end
    }

    // Whether the guest's end was taken, and the host wasn't told.
    pub(crate) fn owes_end(&self) -> bool
        ensures { result ≡ may_end self.now }
    {
        self.conn.guest_ended() && !self.told_end
    }

    // Where a flow stands that is closed at this moment.
    fn place_after(&self, now: u64) -> Place
        requires over { is_live self.now.conn.stage ≡ false }
        ensures { result ≡ place_after_by self.now.conn.stage now }
    {
        if self.conn.time_wait() {
            Place::InTimeWait(now)
        } else if self.conn.owed(&self.up, &self.down).is_some() {
            Place::InUse
        } else {
            Place::Empty
        }
    }

    // From now on it stands where its connection says, with its socket closed.
    fn mark_closed(&mut self, now: u64)
        requires over { is_live self.old.conn.stage ≡ false }
        ensures { self.new ≡ closed self.old now }
    {
        self.place = self.place_after(now);
        self.shut = true;
    }

    // Closes the socket of a connection that is over.
    pub(crate) fn close<W: World>(&mut self, world: &mut W, now: u64)
        requires over { is_live self.old.conn.stage ≡ false }
        ensures closes { Answers (W.tells world.old) (W.tells world.new) (Close self.old.face.number) }
        ensures change { self.new ≡ closed self.old now }
    {
        world.close(self.number);
        self.mark_closed(now);
    }

    // Closes the socket where a change of the connection ended it.
    pub(crate) fn see<W: World>(&mut self, world: &mut W, now: u64, change: Change)
        requires over { ends change ≡ true → is_live self.old.conn.stage ≡ false }
        ensures { Makes (W.tells world.old) (W.tells world.new) (Sees (ends change) self.old self.new now) }
    {
        match change {
            Change::GuestReset | Change::Finished => self.close(world, now),
            Change::Nothing | Change::Unfit => {}
        }
    }
}

// The earlier of two moments, of which one may be none.
fn sooner(at: u64, other: Option<u64>) -> u64
    ensures { result ≡ sooner at other }
{
    match other {
        Some(moment) => at.min(moment),
        None => at,
    }
}

// Whether a new connection is one for a peer that was accepted: no socket is to connect for it.
fn is_for_peer(conn: &Conn) -> bool
    ensures { result ≡ not (is_at_connecting conn.now.stage) }
{
    !conn.connecting()
}
