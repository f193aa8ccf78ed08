//! One connection with a guest: the state machine of TCP over its two halves (RFC 9293, 3.10).
//!
//! A guest talks to a socket of the host. Its octets are taken by a `Receive` and go to the socket, and what the socket says is sent to it by a `Transmit`. Between
//! them stands a `Conn`: what a segment of the guest is, what news of the socket mean, what is to be sent next, and when.
//!
//! A connection is opened by the guest, and its SYN is answered once the socket has connected; or it is opened by us, for a socket that was accepted. Moments are in
//! milliseconds, at most 2^62.
//!
//! The octets lie in an `Up` and a `Down` that the calls are passed. They are to be the connection's own: empty at first, and changed by the calls here alone, but that
//! the socket takes octets of `Up`. Each call says that it stays so (`HasBuffers`).
//!
//! A contract sees a `Connection` (`specs/`): the number of our SYN; its `Stage`; the two halves; the timer of our SYN and how often that went out; what is owed (SYN
//! or SYN-ACK, an acknowledgement); the number acknowledged last and the right edge told last; which ends were acknowledged, and whether the host was told the guest's;
//! the guest's window scale; the size of the ring; whether there is a congestion window. The states of RFC 9293, 3.3.2 are told by it (`state_of`): where both SYNs
//! were acknowledged, by the two ends (`state_between`). What a segment is, by the order of checks (Checks: `verdict_of`, one table by stage; RFC 9293, 3.10.7); what
//! it changes (Segments); news of the host (Hosts); what is owed and what goes out (Owing); windows (Windows; RFC 7323, 2); timers (Timing; RFC 6298). Our end was the
//! first (`closes_first`) where our FIN was out before the number that is acknowledged next, or before the last one where the next is the same.
//!
//! | Field | RFC 9293, 3.3.1 |
//! |---|---|
//! | `ours` | ISS |
//! | `received.first`, `received.taken` | IRS; RCV.NXT as a place, the number of octets taken: `expected` of `tcp_receive` is RCV.NXT itself |
//! | `told` | RCV.NXT + RCV.WND as a place, as a segment told it last; RCV.WND is the room of `Up`, scaled by `scale` (RFC 7323, 2) |
//! | `acknowledged` | the RCV.NXT that went out last (Last.ACK.sent of RFC 7323, 4.3) |
//! | `transmission` | SND.UNA, SND.NXT, SND.WND, SND.WL1, SND.WL2: `tcp_transmit` |
//!
//! Proved: each rule of RFC 9293 is a small change of a `Connection`.
//! - `Conn::from_guest` and `to_guest` begin it (`first`).
//! - `on_segment` changes the connection, and the octets of both directions, exactly as the order of checks says (`connection`, `up`, `down`), and answers
//!   `GuestReset`, `Unfit` and `Finished` exactly by their causes (`change`): a reset is taken at exactly the next expected number, and elsewhere in the window it is
//!   challenged (`verdict_synchronized`).
//! - `on_host` (`connection`, `change`), `more` (`count`, `given`, `timer`), `sent` (`connection`, `change`) and `tick` (`connection`, `change`) change it exactly by
//!   the rule.
//! - `owed` names the one thing that goes next, None exactly where nothing is owed (`owed`), `head` its numbers, window field and scale, `due` the moment of its
//!   timer, `state` the state of RFC 9293. Exactly too: `connecting`, `opening`, `owes_ack`, `end_acked`, `guest_ended`, `time_wait`, `host_is_open`.
//! - Every call keeps that the buffers are the connection's (`HasBuffers`, by `buffers`): what was taken is written or held, what was sent was read, and no number of
//!   octets passes 2^62, also while the host takes octets (`buffers_stay_while_octets_are_written`).
//!
//! Cases of one connection are run by `worked_segments`.
#![tactic(auto)]

ghost use Rattle.std.specs.Prelude.{◌≡◌, ℕ, ◌+◌, ◌-◌, ◌^◌, ◌<◌, ◌≤◌, ◌↔◌, ◌++◌, [], length, take, drop, min, IsTrue, IfSome};
ghost use Rattle.std.specs.Prelude.{true};
ghost use Rattle.sock_buffers.specs.Downward.{Downward, downward};
ghost use Rattle.sock_buffers.specs.Upward.{Upward, empty};
ghost use Rattle.tcp_receive.specs.Coming.{Comes};
ghost use Rattle.tcp_segment.specs.Tcp.{tcp_of};
ghost use Rattle.tcp_transmit.specs.Timing.{watched_over};
ghost use Rattle.tcp_transmit.specs.Transmission.{octets_read};
ghost use Rattle.tcp_connection.specs.Connection.{Connection, HasBuffers, from_guest, has_gone, has_gone_again, is_syn_received, is_opening, is_synchronized, once_more, state_of, to_guest};
ghost use Rattle.tcp_connection.specs.Hosts.{after_news, change_on, is_open};
ghost use Rattle.tcp_connection.specs.Segments.{acknowledged, after_segment, change_at, down_after_segment, up_after_segment};
ghost use Rattle.tcp_connection.specs.Timing.{after_tick, change_at_tick, due_of};

mod judging;
mod news;
mod segment;
mod sending;
mod windows;

use retransmit::Resend;
use segment::shift;
use seq_space::{Seq, number_at};
use sock_buffers::{Down, Up};
use std::marker::Model;
use tcp_receive::Receive;
use tcp_segment::TcpView;
use tcp_transmit::{End, Piece, Transmit};

/// News of the host's socket.
#[derive(Clone, Copy, Debug, PartialEq, Eq)]
pub enum HostNews {
    /// It has connected.
    Connected,
    /// It didn't connect.
    Refused,
    /// The host ended its stream.
    Ended,
    /// All octets of the guest were written, and the host was told the guest's end.
    WriteEnded,
    /// A call on it failed.
    Failed,
}

/// What a connection owes its guest.
#[derive(Clone, Copy, Debug, PartialEq, Eq)]
pub enum Owed {
    Syn,
    SynAck,
    Data(Piece),
    Ack,
    Reset { seq: Seq, ack: Seq },
}

/// What a call makes of a connection.
#[derive(Clone, Copy, Debug, PartialEq, Eq)]
pub enum Change {
    /// Nothing that its owner has to see to.
    Nothing,
    /// The guest reset it.
    GuestReset,
    /// Both ends passed and are acknowledged, and the host's writing was ended; or it was given up.
    Finished,
    /// The segment is answered by a reset, as one without a connection, and changed nothing.
    Unfit,
}

/// The numbers, the window field and the window scale of a segment that goes out.
#[derive(Clone, Copy, Debug, PartialEq, Eq)]
pub struct Head {
    pub seq: Seq,
    pub ack: Seq,
    pub window: u16,
    pub scale: Option<u8>,
}

/// The states of a connection (RFC 9293, 3.3.2), and one before them.
#[derive(Clone, Copy, Debug, PartialEq, Eq)]
pub enum State {
    Connecting,
    SynSent,
    SynReceived,
    Established,
    FinWait1,
    FinWait2,
    CloseWait,
    Closing,
    LastAck,
    TimeWait,
    Closed,
}

/// How far a connection is opened, and whether it is over.
#[derive(Clone, Copy, Debug, PartialEq, Eq)]
pub enum Stage {
    /// The guest's SYN came, and the host's socket connects: before SYN-RECEIVED, for as long as the SYN isn't answered.
    Connecting,
    /// SYN-SENT: we opened it, and the guest's SYN didn't come yet.
    SynSent,
    /// SYN-RECEIVED: both SYNs are known, and ours isn't acknowledged.
    SynReceived,
    /// Both SYNs were acknowledged: the synchronized states up to TIME-WAIT (RFC 9293, 3.5).
    Synchronized,
    /// Finished, with our end first: in TIME-WAIT, without a socket.
    TimeWait,
    /// Over, and a reset with these numbers is owed.
    Resets { seq: Seq, ack: Seq },
    /// CLOSED: over.
    Closed,
}

/// How often our SYN went out.
#[derive(Clone, Copy, Debug, PartialEq, Eq)]
pub enum Sendings {
    Never,
    Once,
    Again,
}

/// What a segment is to a connection, by the order of checks.
#[derive(Clone, Copy, Debug, PartialEq, Eq)]
pub enum Verdict {
    /// Nothing is done for it.
    Ignored,
    /// It resets the connection.
    Resets,
    /// It acknowledges another number than our SYN's.
    Unacceptable,
    /// It is the guest's SYN again.
    Repeats,
    /// It is answered by an acknowledgement, and nothing else.
    Challenged,
    /// It is the guest's SYN.
    Greets,
    /// Its acknowledgement is taken, and then its octets and its FIN.
    Heeded,
}

/// A connection with a guest. A contract sees a `Connection`.
#[derive(Drop)]
pub struct Conn {
    ours: Seq,
    stage: Stage,
    receive: Receive,
    transmit: Transmit,
    syn: Resend,
    sendings: Sendings,
    syn_owed: bool,
    ack_owed: bool,
    acknowledged: Seq,
    told: Option<u64>,
    end_acknowledged: bool,
    ours_first: bool,
    fin_acked: bool,
    host_ended: bool,
    scale: Option<u8>,
    ring: u32,
    congestion: bool,
}

impl Model for Conn {
    ghost use Rattle.std.specs.Prelude.{◌<◌, ◌≤◌, ◌^◌, IfSome};
    ghost use Rattle.tcp_connection.specs.Connection.{Connection};

    ghost Value = { Connection };

    ghost view = { λ c. record {
      ours = c.ours.0;
      stage = c.stage;
      received = c.receive;
      transmission = c.transmit;
      syn = c.syn;
      sendings = c.sendings;
      syn_owed = c.syn_owed;
      ack_owed = c.ack_owed;
      acknowledged = c.acknowledged.0;
      told = c.told;
      end_acknowledged = c.end_acknowledged;
      ours_first = c.ours_first;
      fin_acked = c.fin_acked;
      host_ended = c.host_ended;
      scale = c.scale;
      ring = c.ring;
      congestion = c.congestion;
    } };

    ghost invariant = { λ c. (c.receive.taken < 2 ^ 62) × IfSome c.scale (λ shift. shift ≤ 14) };
}

impl Stage {
    fn is_opening(self) -> bool
        ensures { result ≡ is_opening self }
    {
        match self {
            Stage::Connecting | Stage::SynSent | Stage::SynReceived => true,
            Stage::Synchronized | Stage::TimeWait | Stage::Resets { .. } | Stage::Closed => false,
        }
    }

    fn is_syn_received(self) -> bool
        ensures { result ≡ is_syn_received self }
    {
        match self {
            Stage::SynReceived => true,
            Stage::Connecting
            | Stage::SynSent
            | Stage::Synchronized
            | Stage::TimeWait
            | Stage::Resets { .. }
            | Stage::Closed => false,
        }
    }

    fn is_synchronized(self) -> bool
        ensures { result ≡ is_synchronized self }
    {
        match self {
            Stage::Synchronized => true,
            Stage::Connecting
            | Stage::SynSent
            | Stage::SynReceived
            | Stage::TimeWait
            | Stage::Resets { .. }
            | Stage::Closed => false,
        }
    }
}

impl Sendings {
    fn has_gone(self) -> bool
        ensures { result ≡ has_gone self }
    {
        match self {
            Sendings::Never => false,
            Sendings::Once | Sendings::Again => true,
        }
    }

    fn has_gone_again(self) -> bool
        ensures { result ≡ has_gone_again self }
    {
        match self {
            Sendings::Never | Sendings::Once => false,
            Sendings::Again => true,
        }
    }

    fn once_more(self) -> Sendings
        ensures { result ≡ once_more self }
    {
        match self {
            Sendings::Never => Sendings::Once,
            Sendings::Once | Sendings::Again => Sendings::Again,
        }
    }
}

impl Conn {
    /// A connection that a guest opened by a SYN with the number `first_theirs`, while the host's socket connects. Our SYN
    /// has the number `first_ours`, and a piece has at most `mss` octets, from 64 to 1,460: the guest's MSS is looked at
    /// already. `scale` is the window scale of the guest's SYN, and `ring` the size of the buffer of its octets. With
    /// `congestion` a congestion window limits what is sent.
    pub fn from_guest(
        first_theirs: Seq,
        first_ours: Seq,
        mss: u16,
        scale: Option<u8>,
        ring: u32,
        congestion: bool,
    ) -> Conn
        requires low { 64 ≤ mss }
        requires high { mss ≤ 1460 }
        ensures first { result ≡ from_guest first_theirs.0 first_ours.0 mss scale ring congestion }
        ensures buffers { (size : ℕ) → HasBuffers result (empty ring) (downward [] 0 size) }
    {
        Conn {
            ours: first_ours,
            stage: Stage::Connecting,
            receive: Receive::new(first_theirs),
            transmit: Transmit::new(first_ours, mss),
            syn: Resend::new(),
            sendings: Sendings::Never,
            syn_owed: false,
            ack_owed: false,
            acknowledged: number_at(first_theirs, 0),
            told: None,
            end_acknowledged: false,
            ours_first: false,
            fin_acked: false,
            host_ended: false,
            scale: shift(scale),
            ring,
            congestion,
        }
    }

    /// A connection that we open to a guest, for a socket of the host that was accepted: our SYN, with the number
    /// `first_ours`, is owed. A piece has at most `mss` octets, from 64 to 1,460, and the guest's SYN may make that less.
    pub fn to_guest(first_ours: Seq, mss: u16, ring: u32, congestion: bool) -> Conn
        requires low { 64 ≤ mss }
        requires high { mss ≤ 1460 }
        ensures first { result ≡ to_guest first_ours.0 mss ring congestion }
        ensures buffers { (size : ℕ) → HasBuffers result (empty ring) (downward [] 0 size) }
    {
        Conn {
            ours: first_ours,
            stage: Stage::SynSent,
            receive: Receive::new(Seq(0)),
            transmit: Transmit::new(first_ours, mss),
            syn: Resend::new(),
            sendings: Sendings::Never,
            syn_owed: true,
            ack_owed: false,
            acknowledged: Seq(0),
            told: None,
            end_acknowledged: false,
            ours_first: false,
            fin_acked: false,
            host_ended: false,
            scale: None,
            ring,
            congestion,
        }
    }

    /// A segment of the guest arrived (RFC 9293, 3.10.7). `GuestReset` where it resets the connection; `Unfit` where it is
    /// answered by a reset as one without a connection, since it acknowledges another number than our SYN's; `Finished`
    /// where both ends passed with it.
    #[tactic(auto, using(tcp_receive::proofs::Coming::nothing_comes))]
    pub fn on_segment(
        &mut self,
        up: &mut Up,
        down: &mut Down,
        now: u64,
        seg: &TcpView<'_>,
    ) -> Change
        requires buffers { HasBuffers self.old up.old down.old }
        requires few { self.old.received.taken + length seg.now.body.now + self.old.ring < 2 ^ 62 }
        requires now { now ≤ 2 ^ 62 }
        ensures change { result ≡ change_at self.old up.old down.old (tcp_of seg.now) now }
        ensures connection { self.new ≡ after_segment self.old up.old down.old (tcp_of seg.now) now }
        ensures up { up.new ≡ up_after_segment self.old up.old down.old (tcp_of seg.now) }
        ensures down { down.new ≡ down_after_segment self.old up.old down.old (tcp_of seg.now) }
        ensures read { octets_read down.new ≡ octets_read down.old }
        ensures buffers { HasBuffers self.new up.new down.new }
        // Each octet that is held now or kept was kept before at its place, or is the segment's there.
        ensures comes { Comes self.old.received seg.now.seq.0 seg.now.body.now up.old up.new }
    {
        match self.verdict(up, seg) {
            Verdict::Ignored => Change::Nothing,
            Verdict::Resets => {
                self.stage = Stage::Closed;
                Change::GuestReset
            }
            Verdict::Unacceptable => Change::Unfit,
            Verdict::Repeats => {
                self.syn_owed = true;
                Change::Nothing
            }
            Verdict::Challenged => {
                self.ack_owed = true;
                Change::Nothing
            }
            Verdict::Greets => {
                self.welcome(down, now, seg);
                Change::Nothing
            }
            Verdict::Heeded => self.heed(up, down, now, seg),
        }
    }

    /// News of the host's socket came. `Finished` where both ends passed with it. Where it was refused or failed, a reset is
    /// owed, unless the guest knows of no connection.
    pub fn on_host(&mut self, news: HostNews, now: u64) -> Change
        requires now { now ≤ 2 ^ 62 }
        ensures change { result ≡ change_on news self.old }
        ensures connection { self.new ≡ after_news news self.old now }
        ensures buffers { (up : Upward) (down : Downward) → HasBuffers self.old up down → HasBuffers self.new up down }
    {
        match news {
            HostNews::Connected => {
                self.connect();
                Change::Nothing
            }
            HostNews::Refused | HostNews::Failed => {
                self.reset();
                Change::Nothing
            }
            HostNews::Ended => {
                self.end_host(now);
                Change::Nothing
            }
            HostNews::WriteEnded => {
                self.host_ended = true;
                self.settle()
            }
        }
    }

    /// Octets of the host, which has not ended its stream: keeps the longest front that fits, and answers its length.
    pub fn more(&mut self, down: &mut Down, octets: &[u8], now: u64) -> usize
        requires feeds { (up : Upward) × HasBuffers self.old up down.old }
        requires reads { is_open self.old.transmission.end ≡ true }
        requires few { octets_read down.old + length octets.now < 2 ^ 62 }
        requires now { now ≤ 2 ^ 62 }
        ensures count { result ≡ min (length octets.now) (down.old.size - length down.old.octets) }
        ensures given { down.new ≡ record down.old { octets = down.old.octets ++ take result octets.now } }
        ensures timer { self.new ≡ record self.old { transmission = watched_over self.old.transmission down.new now } }
        ensures buffers { (up : Upward) → HasBuffers self.old up down.old → HasBuffers self.new up down.new }
    {
        self.transmit.more(down, octets, now)
    }

    /// The moment to which the timer runs: that of our SYN until it is acknowledged, and then that of pieces and probes.
    /// `None` exactly where none runs.
    pub fn due(&self) -> Option<u64>
        ensures { result ≡ due_of self.now }
    {
        match self.stage {
            Stage::SynSent | Stage::SynReceived => self.syn.due(),
            Stage::Synchronized => self.transmit.due(),
            Stage::Connecting | Stage::TimeWait | Stage::Resets { .. } | Stage::Closed => None,
        }
    }

    /// The moment came: where the timer is due it expires, and what it waits for is owed again. `Finished` where the
    /// connection is given up, since that went again eight times with no acceptable acknowledgement between (RFC 9293,
    /// 3.8.3); a reset is owed then. It isn't given up while an acknowledgement is owed: nothing changes then.
    pub fn tick(&mut self, now: u64) -> Change
        requires now { now ≤ 2 ^ 62 }
        ensures change { result ≡ change_at_tick self.old now }
        ensures connection { self.new ≡ after_tick self.old now }
        ensures buffers { (up : Upward) (down : Downward) → HasBuffers self.old up down → HasBuffers self.new up down }
    {
        match self.due() {
            Some(at) if at <= now => self.expire(),
            _ => Change::Nothing,
        }
    }

    /// The state of RFC 9293, 3.3.2, as the stage and the two ends tell it; TIME-WAIT is without a socket.
    pub fn state(&self) -> State
        ensures { result ≡ state_of self.now }
    {
        match self.stage {
            Stage::Connecting => State::Connecting,
            Stage::SynSent => State::SynSent,
            Stage::SynReceived => State::SynReceived,
            Stage::Synchronized => self.synchronized_state(),
            Stage::TimeWait => State::TimeWait,
            Stage::Resets { .. } | Stage::Closed => State::Closed,
        }
    }

    /// Whether the host's socket is to connect.
    pub fn connecting(&self) -> bool
        ensures { IsTrue result ↔ (state_of self.now ≡ State.Connecting) }
    {
        self.state() == State::Connecting
    }

    /// Whether it isn't over, and our SYN isn't acknowledged.
    pub fn opening(&self) -> bool
        ensures { result ≡ is_opening self.now.stage }
    {
        self.stage.is_opening()
    }

    /// Whether an acknowledgement is owed.
    pub fn owes_ack(&self) -> bool
        ensures { result ≡ self.now.ack_owed }
    {
        self.ack_owed
    }

    /// Whether our FIN was acknowledged.
    pub fn end_acked(&self) -> bool
        ensures { result ≡ self.now.fin_acked }
    {
        self.fin_acked
    }

    /// Whether the guest's end was taken.
    pub fn guest_ended(&self) -> bool
        ensures { result ≡ self.now.received.ended }
    {
        self.receive.ended()
    }

    /// Whether the connection is in TIME-WAIT.
    pub fn time_wait(&self) -> bool
        ensures { IsTrue result ↔ (state_of self.now ≡ State.TimeWait) }
    {
        self.state() == State::TimeWait
    }

    /// Whether the host has not ended its stream, as far as is known: more of it may come.
    pub fn host_is_open(&self) -> bool
        ensures { result ≡ is_open self.now.transmission.end }
    {
        match self.transmit.end() {
            End::Open => true,
            End::Unsent | End::Sent => false,
        }
    }
}

/// The buffers stay those of the connection while the host's socket takes octets.
pub fn buffers_stay_while_octets_are_written()
    ensures { (c : Connection) (up : Upward) (down : Downward) (n : ℕ) → n ≤ length up.held → HasBuffers c up down
        → HasBuffers c (record up {
          held = drop n up.held;
          written = up.written + n;
        }) down }
{}
