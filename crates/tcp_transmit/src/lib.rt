//! The sending half of a TCP connection: what of the host's stream goes to the guest, when it goes again, and what an acknowledgement changes (RFC 9293, 3.8 and
//! 3.10.7.4; RFC 6298).
//!
//! A place is one of the host's stream: its octets have the places from 0 on, and its end, our FIN, has the place after the last octet. The octet at place 0 has the
//! number after our SYN's. Moments are in milliseconds, at most 2^62.
//!
//! The octets lie in a `Down` that each call is passed. It is to be the connection's own: empty at first, changed by the calls here alone, and with under 2^62 octets
//! of the stream in all. Each call says that it stays so (`Feeds`).
//!
//! | Field | RFC 9293, 3.3.1 |
//! |---|---|
//! | `first` | ISS |
//! | `acked`, `sent` | SND.UNA and SND.NXT as places (`next_number` is SND.NXT) |
//! | `window.edge` | SND.UNA + SND.WND as a place |
//! | `window.seq`, `window.ack` | SND.WL1; SND.WL2 as a place |
//! | `mss` | Eff.snd.MSS (3.7.1) |
//! | `resend`, `timed` | RTO and the segment that is timed (RFC 6298) |
//! | `cwnd`, `recover`, `duplicates` | cwnd (RFC 5681), recover as a place (RFC 6582), duplicate acknowledgements |
//!
//! Proved, by places of the host's stream:
//! - `Transmit::next_piece` gives the piece that is owed by RFC 9293 and RFC 6298 (`piece`), None exactly where nothing is (`none`, `some`): octets of the stream at
//!   their place with no gap, and FIN only after the last (`stream`), no more than the MSS, 64 to 1,460 (`mss`), inside the guest's window unless something is owed
//!   again (`window`), and past the greatest end sent inside the congestion window, where there is one (`congestion`). What goes again begins at the first
//!   unacknowledged place and ends within what was sent (`again`), a probe is one number (`probes`).
//! - `more`, `ended`, `limit`, `congest`, `sent`, `acked` and `expired` change exactly what the rules say. `acked` tells by the number alone what was acknowledged
//!   (`seen`; `AckSeen::is_acceptable`) and loses no octet (`read`), moves the congestion window by its step, and makes the oldest piece owed again at the third
//!   duplicate, where it moves and is below what was sent when a loss was noticed last (`change`, by `owes_again`), and where the window opens for a probe that wasn't
//!   taken.
//! - `expired` is true exactly after eight resendings (`given_up`, `late`). Where numbers are under way a loss is noticed with it (`change`). A timer that runs keeps
//!   its base while the same place is acknowledged (`steady`).
//! - `due` runs exactly where numbers are under way or something waits for a closed window, and the timer has not expired (`runs`, `rests`). Every call keeps that
//!   the buffer is that of the connection (`feeds`). `Transmit::new`, `mss`, `end`, `next_number` (SND.NXT) and `number` exactly.
//! - Without a congestion window the guest's alone bounds what goes for the first time, and nothing brings one (`without_a_congestion_window`).
#![tactic(auto)]

ghost use Rattle.std.specs.Prelude.{◌≡◌, ℕ, [], ◌+◌, ◌-◌, ◌^◌, ◌<◌, ◌≤◌, ◌++◌, length, take, min, IsSome, None, Some, true, nat_lt};
ghost use Rattle.retransmit.specs.Resending.{due_of};
ghost use Rattle.sock_buffers.specs.Downward.{Downward, downward};
ghost use Rattle.tcp_transmit.specs.Alone.{IsAlone};
ghost use Rattle.tcp_transmit.specs.Timing.{watched, watched_over};
ghost use Rattle.tcp_transmit.specs.Transmission.{Feeds, Transmission, edge_of, is_closed, octets_read, places, unanswered};
ghost use Rattle.seq_space.specs.Places.{number_of};

mod acks;
mod pieces;
mod timing;

use cwnd::Cwnd;
use retransmit::Resend;
use seq_space::{Seq, number_at};
use sock_buffers::Down;
use std::marker::Model;

/// What is known of our end: nothing yet; the host ended the stream and FIN is unsent; or FIN was sent.
#[derive(Clone, Copy, Debug, PartialEq, Eq)]
pub enum End {
    Open,
    Unsent,
    Sent,
}

/// The guest's window: the first place past it, and the sequence number and the acknowledged place of the segment from
/// which it was taken (SND.WL1 and SND.WL2).
#[derive(Clone, Copy, Debug, PartialEq, Eq)]
pub struct Window {
    pub edge: u64,
    pub seq: Seq,
    pub ack: u64,
}

/// The piece whose round trip is measured: the place after it, and when it was sent.
#[derive(Clone, Copy, Debug, PartialEq, Eq)]
pub struct Timed {
    pub end: u64,
    pub at: u64,
}

/// A piece of the stream: the place where it begins, how many octets it has, and whether FIN goes with it.
#[derive(Clone, Copy, Debug, PartialEq, Eq)]
pub struct Piece {
    pub place: u64,
    pub length: usize,
    pub fin: bool,
}

/// What an acknowledgement was: older than the last, the same, one of so many octets more, one of our FIN and the octets
/// before it, or one of what was never sent.
#[derive(Clone, Copy, Debug, PartialEq, Eq)]
pub enum AckSeen {
    Old,
    Same,
    Forward(usize),
    FinToo(usize),
    TooFar,
}

/// The sending half of a connection. A contract sees a `Transmission`.
#[derive(Drop)]
pub struct Transmit {
    first: Seq,
    mss: u16,
    acked: u64,
    sent: u64,
    end: End,
    window: Option<Window>,
    resend: Resend,
    timed: Option<Timed>,
    cwnd: Option<Cwnd>,
    recover: u64,
    duplicates: u8,
    early: bool,
    again: bool,
    probing: bool,
}

impl Model for Transmit {
    ghost use Rattle.std.specs.Prelude.{◌≤◌, ◌^◌};
    ghost use Rattle.tcp_transmit.specs.Transmission.{Transmission};

    ghost Value = { Transmission };

    ghost view = { λ t. record {
      first = t.first.0;
      mss = t.mss;
      acked = t.acked;
      sent = t.sent;
      end = t.end;
      window = t.window;
      resend = t.resend;
      timed = t.timed;
      cwnd = t.cwnd;
      recover = t.recover;
      duplicates = t.duplicates;
      early = t.early;
      again = t.again;
      probing = t.probing;
    } };

    ghost invariant = { λ t. (64 ≤ t.mss) × (t.mss ≤ 1460) × (t.acked ≤ t.sent) × (t.sent ≤ 2 ^ 62) × (t.duplicates ≤ 3) };
}

impl Transmit {
    /// A connection whose SYN has the number `first`, and whose pieces have at most `mss` octets, from 64 to 1,460
    /// (RFC 9293, 3.7.1). Nothing goes before the SYN is acknowledged.
    pub fn new(first: Seq, mss: u16) -> Transmit
        requires low { 64 ≤ mss }
        requires high { mss ≤ 1460 }
        ensures unanswered { result ≡ unanswered first.0 mss }
        ensures feeds { (size : ℕ) → Feeds result (downward [] 0 size) }
    {
        Transmit {
            first,
            mss,
            acked: 0,
            sent: 0,
            end: End::Open,
            window: None,
            resend: Resend::new(),
            timed: None,
            cwnd: None,
            recover: 0,
            duplicates: 0,
            early: false,
            again: false,
            probing: false,
        }
    }

    /// The most octets of a piece.
    pub fn mss(&self) -> u16
        ensures mss { result ≡ self.now.mss }
        ensures least { 64 ≤ result }
        ensures most { result ≤ 1460 }
    {
        self.mss
    }

    /// Lowers the most octets of a piece, from 64 to 1,460, to what the guest says. Nothing was sent yet.
    pub fn limit(&mut self, mss: u16)
        requires low { 64 ≤ mss }
        requires high { mss ≤ 1460 }
        requires unsent { self.old.sent ≡ 0 }
        requires alone { self.old.cwnd ≡ None }
        ensures limited { self.new ≡ record self.old { mss = min self.old.mss mss } }
        ensures feeds { (down : Downward) → Feeds self.old down → Feeds self.new down }
    {
        self.mss = self.mss.min(mss);
    }

    /// From now on the congestion window, of pieces of this size, limits what is under way (RFC 5681). Nothing was sent
    /// yet.
    pub fn congest(&mut self, cwnd: Cwnd)
        requires unsent { self.old.sent ≡ 0 }
        requires segments { cwnd.mss ≡ self.old.mss }
        ensures congested { self.new ≡ record self.old { cwnd = Some cwnd } }
        ensures feeds { (down : Downward) → Feeds self.old down → Feeds self.new down }
    {
        // for the prover: a congestion window is never 0.
        prove!(cwnd.window() > 0);
        self.cwnd = Some(cwnd);
    }

    /// Octets of the host, which has not ended its stream: keeps the longest front that fits, and answers its length.
    /// Where the window is closed and nothing is under way, the timer of a probe starts (RFC 9293, 3.8.6.1).
    pub fn more(&mut self, down: &mut Down, octets: &[u8], now: u64) -> usize
        requires feeds { Feeds self.old down.old }
        requires on { self.old.end ≡ End.Open }
        requires few { octets_read down.old + length octets.now < 2 ^ 62 }
        requires now { now ≤ 2 ^ 62 }
        ensures count { result ≡ min (length octets.now) (down.old.size - length down.old.octets) }
        ensures given { down.new ≡ record down.old { octets = down.old.octets ++ take result octets.now } }
        ensures timer { self.new ≡ watched_over self.old down.new now }
        ensures steady { IsSome (due_of self.old.resend) → self.new.resend.timer ≡ self.old.resend.timer }
        ensures feeds { Feeds self.new down.new }
    {
        let count = octets.len().min(down.room());
        down.give(&octets[..count]);
        let unsent = self.has_unsent(down);
        self.watch(unsent, now);
        count
    }

    /// The host ended the stream after the octets that it gave: FIN is to go after them (RFC 9293, 3.6).
    pub fn ended(&mut self, now: u64)
        requires on { self.old.end ≡ End.Open }
        requires now { now ≤ 2 ^ 62 }
        ensures ended { self.new ≡ watched (record self.old { end = End.Unsent }) true now }
        ensures feeds { (down : Downward) → Feeds self.old down → Feeds self.new down }
    {
        self.end = End::Unsent;
        self.watch(true, now);
    }

    /// What is known of our end.
    pub fn end(&self) -> End
        ensures { result ≡ self.now.end }
    {
        self.end
    }

    /// The number after all that was sent (SND.NXT).
    pub fn next_number(&self) -> Seq
        ensures { result.0 ≡ number_of self.now.first self.now.sent }
    {
        number_at(self.first, self.sent)
    }

    /// The number of the first octet of a piece, or of its FIN where it has none.
    pub fn number(&self, p: &Piece) -> Seq
        ensures { result.0 ≡ number_of self.now.first p.now.place }
    {
        number_at(self.first, p.place)
    }
}

impl Transmit {
    /// The first place past the window, 0 where no window was taken.
    fn edge(&self) -> u64
        ensures { result ≡ edge_of self.now.window }
    {
        match self.window {
            Some(window) => window.edge,
            None => 0,
        }
    }

    /// Whether the window is known and has no room.
    /// So where no number is left before its edge, not only where the field was 0: an acknowledgement may move up to the edge by a segment whose window
    /// isn't taken.
    fn is_closed(&self) -> bool
        ensures { result ≡ is_closed self.now }
    {
        self.window.is_some() && self.edge() <= self.sent
    }

    /// Whether places of the stream are unsent.
    fn has_unsent(&self, down: &Down) -> bool
        requires { octets_read down.now < 2 ^ 62 }
        ensures { result ≡ nat_lt self.now.sent (places self.now down.now) }
    {
        let places = octets_read(down) + u64::from(self.end != End::Open);
        self.sent < places
    }
}

/// Without a congestion window the guest's window alone limits what is sent, whatever is acknowledged or expires.
pub fn without_a_congestion_window()
    ensures { (t : Transmission) → t.cwnd ≡ None → IsAlone t }
{}

/// How many octets the stream has so far.
fn octets_read(down: &Down) -> u64
    requires { octets_read down.now < 2 ^ 62 }
    ensures { result ≡ octets_read down.now }
{
    down.first() + down.held() as u64
}
