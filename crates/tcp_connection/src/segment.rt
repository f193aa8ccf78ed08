// What a segment changes (RFC 9293, 3.10.7).
ghost use Rattle.std.specs.Prelude.{◌≡◌, ◌+◌, ◌-◌, ◌/◌, ◌^◌, ◌<◌, ◌≤◌, ◌&&◌, length, min, not, IfSome, None, Some, Option, unwrap_or, true, false};
ghost use Rattle.sock_buffers.specs.Downward.{Downward};
ghost use Rattle.sock_buffers.specs.Upward.{Upward};
ghost use Rattle.tcp_receive.specs.Coming.{Comes};
ghost use Rattle.tcp_receive.specs.Received.{Fills, up_after};
ghost use Rattle.tcp_segment.specs.Tcp.{tcp_of};
ghost use Rattle.tcp_transmit.specs.Acks.{octets_acked, without};
ghost use Rattle.tcp_transmit.specs.Transmission.{Feeds, is_sent, octets_read};
ghost use Rattle.tcp_connection.specs.Checks.{is_ack, acknowledges_syn as acknowledges_syn_by};
ghost use Rattle.tcp_connection.specs.Connection.{HasBuffers, IsSound, closes_first as closes_first_by, has_gone_again, is_syn_received, is_opening, is_synchronized, shift_of, state_between};
ghost use Rattle.tcp_connection.specs.Segments.{acknowledged, arrived, change_heeding, confirmed, congested, down_heeding, down_welcoming, established, greeted, heard, heeded};
ghost use Rattle.tcp_connection.specs.Segments.{is_bare as is_bare_by, is_done as is_done_by, is_fin_too as is_fin_too_by, is_past, is_too_far as is_too_far_by, opened, seen_of};
ghost use Rattle.tcp_connection.specs.Segments.{settled, settling, up_heeding, welcomed};
ghost use Rattle.tcp_connection.specs.Windows.{window_in as window_in_by};

use crate::{Change, Conn, Stage, State};
use cwnd::Cwnd;
use seq_space::number_at;
use sock_buffers::{Down, Up};
use tcp_receive::Receive;
use tcp_segment::{TcpView, mss_of};
use tcp_transmit::{AckSeen, End};

impl Conn {
    /// The guest's SYN came.
    pub(crate) fn welcome(&mut self, down: &mut Down, now: u64, seg: &TcpView<'_>)
        requires buffers { (up : Upward) × HasBuffers self.old up down.old }
        requires calls { self.old.stage ≡ Stage.SynSent }
        requires fits { is_ack (tcp_of seg.now) ≡ true → acknowledges_syn_by self.old (tcp_of seg.now) ≡ true }
        requires now { now ≤ 2 ^ 62 }
        ensures connection { self.new ≡ welcomed self.old down.old (tcp_of seg.now) now }
        ensures down { down.new ≡ down_welcoming self.old down.old (tcp_of seg.now) }
        ensures read { octets_read down.new ≡ octets_read down.old }
        ensures buffers { (up : Upward) → HasBuffers self.old up down.old → HasBuffers self.new up down.new }
    {
        self.greet(seg);
        if seg.is_ack() {
            self.establish();
            self.acknowledge(down, now, seg, u32::from(seg.window), false);
        }
    }

    /// What the guest's SYN makes known.
    pub(crate) fn greet(&mut self, seg: &TcpView<'_>)
        requires sound { IsSound self.old }
        requires opening { is_opening self.old.stage ≡ true }
        ensures connection { self.new ≡ greeted self.old (tcp_of seg.now) }
        ensures feeds { (down : Downward) → Feeds self.old.transmission down → Feeds self.new.transmission down }
    {
        self.stage = Stage::SynReceived;
        self.receive = Receive::new(seg.seq);
        let most = mss_of(seg.mss).min(self.transmit.mss());
        self.transmit.limit(most);
        self.acknowledged = number_at(seg.seq, 0);
        self.scale = shift(seg.scale);
        self.syn_owed = true;
        self.ack_owed = true;
    }

    /// Our SYN is acknowledged.
    pub(crate) fn establish(&mut self)
        requires unsent { self.old.transmission.sent ≡ 0 }
        ensures connection { self.new ≡ established self.old }
        ensures feeds { (down : Downward) → Feeds self.old.transmission down → Feeds self.new.transmission down }
    {
        self.stage = Stage::Synchronized;
        self.syn_owed = false;
        self.syn.stop();
        self.congest();
    }

    /// A congestion window from now on, where there is to be one.
    pub(crate) fn congest(&mut self)
        requires unsent { self.old.transmission.sent ≡ 0 }
        ensures connection { self.new ≡ record self.old { transmission = congested self.old } }
        ensures feeds { (down : Downward) → Feeds self.old.transmission down → Feeds self.new.transmission down }
    {
        if self.congestion {
            let cwnd = Cwnd::new(self.transmit.mss(), self.sendings.has_gone_again());
            self.transmit.congest(cwnd);
        }
    }

    /// An acknowledgement of our SYN opens the connection.
    pub(crate) fn open(&mut self)
        requires sound { IsSound self.old }
        ensures connection { self.new ≡ opened self.old }
        ensures feeds { (down : Downward) → Feeds self.old.transmission down → Feeds self.new.transmission down }
    {
        if self.stage.is_syn_received() {
            self.establish();
        }
    }

    /// Takes the acknowledgement and the window of a segment. Answers whether it acknowledges nothing that was never sent.
    pub(crate) fn acknowledge(
        &mut self,
        down: &mut Down,
        now: u64,
        seg: &TcpView<'_>,
        window: u32,
        bare: bool,
    ) -> bool
        requires feeds { Feeds self.old.transmission down.old }
        requires now { now ≤ 2 ^ 62 }
        ensures within { result ≡ not (is_past self.old down.old (tcp_of seg.now)) }
        ensures connection { self.new ≡ acknowledged self.old down.old (tcp_of seg.now) window bare now }
        ensures down { down.new ≡ without (octets_acked (seen_of self.old.transmission down.old seg.now.ack.0)) down.old }
        ensures read { octets_read down.new ≡ octets_read down.old }
        ensures feeds { Feeds self.new.transmission down.new }
    {
        let seen = self.confirm(down, now, seg, window, bare);
        self.fin_acked |= is_fin_too(seen);
        self.ack_owed |= is_too_far(seen);
        !is_too_far(seen)
    }

    /// The sending half takes the acknowledgement and the window of a segment.
    pub(crate) fn confirm(
        &mut self,
        down: &mut Down,
        now: u64,
        seg: &TcpView<'_>,
        window: u32,
        bare: bool,
    ) -> AckSeen
        requires feeds { Feeds self.old.transmission down.old }
        requires now { now ≤ 2 ^ 62 }
        ensures seen { result ≡ seen_of self.old.transmission down.old seg.now.ack.0 }
        ensures connection { self.new ≡ confirmed self.old down.old seg.now.seq window bare now result }
        ensures down { down.new ≡ without (octets_acked result) down.old }
        ensures read { octets_read down.new ≡ octets_read down.old }
        ensures feeds { Feeds self.new.transmission down.new }
    {
        self.transmit
            .acked(down, seg.seq, seg.ack, window, now, bare)
    }

    /// Takes the octets and the FIN of a segment.
    pub(crate) fn take_octets(&mut self, up: &mut Up, seg: &TcpView<'_>)
        requires few { self.old.received.taken + length seg.now.body.now + up.old.size < 2 ^ 62 }
        ensures connection { self.new ≡ arrived self.old up.old (tcp_of seg.now) }
        ensures up { up.new ≡ up_after self.old.received seg.now.seq.0 seg.now.body.now up.old }
        ensures size { up.new.size ≡ up.old.size }
        ensures few { self.new.received.taken < 2 ^ 62 }
        ensures fills { Fills self.old.received up.old → Fills self.new.received up.new }
        ensures comes { Comes self.old.received seg.now.seq.0 seg.now.body.now up.old up.new }
    {
        let took = self.receive.arrive(up, seg.seq, seg.body, seg.is_fin());
        self.ack_owed |= took.ack_owed;
    }

    /// A segment is heeded.
    pub(crate) fn heed(
        &mut self,
        up: &mut Up,
        down: &mut Down,
        now: u64,
        seg: &TcpView<'_>,
    ) -> Change
        requires buffers { HasBuffers self.old up.old down.old }
        requires past { is_opening (opened self.old).stage ≡ false }
        requires few { self.old.received.taken + length seg.now.body.now + self.old.ring < 2 ^ 62 }
        requires now { now ≤ 2 ^ 62 }
        ensures change { result ≡ change_heeding self.old up.old down.old (tcp_of seg.now) now }
        ensures connection { self.new ≡ heeded self.old up.old down.old (tcp_of seg.now) now }
        ensures up { up.new ≡ up_heeding self.old up.old down.old (tcp_of seg.now) }
        ensures down { down.new ≡ down_heeding self.old down.old (tcp_of seg.now) }
        ensures read { octets_read down.new ≡ octets_read down.old }
        ensures buffers { HasBuffers self.new up.new down.new }
        ensures comes { Comes self.old.received seg.now.seq.0 seg.now.body.now up.old up.new }
    {
        if !self.take_segment(down, now, seg) {
            return Change::Nothing;
        }
        self.take_octets(up, seg);
        self.settle()
    }

    /// Takes the acknowledgement and the window of a segment that is heeded: one of our SYN opens the connection. Answers
    /// whether it acknowledges nothing that was never sent.
    pub(crate) fn take_segment(&mut self, down: &mut Down, now: u64, seg: &TcpView<'_>) -> bool
        requires sound { IsSound self.old }
        requires feeds { Feeds self.old.transmission down.old }
        requires now { now ≤ 2 ^ 62 }
        ensures within { result ≡ not (is_past (opened self.old) down.old (tcp_of seg.now)) }
        ensures connection { self.new ≡ heard self.old down.old (tcp_of seg.now) now }
        ensures down { down.new ≡ down_heeding self.old down.old (tcp_of seg.now) }
        ensures read { octets_read down.new ≡ octets_read down.old }
        ensures feeds { Feeds self.new.transmission down.new }
    {
        self.open();
        let window = self.window_in(seg);
        self.acknowledge(down, now, seg, window, is_bare(seg))
    }

    /// The guest's window by a segment without SYN.
    pub(crate) fn window_in(&self, seg: &TcpView<'_>) -> u32
        ensures { result ≡ window_in_by self.now (tcp_of seg.now) }
    {
        u32::from(seg.window) << self.scale.unwrap_or(0)
    }

    /// Whether both ends passed and are acknowledged, and the host was told the guest's.
    pub(crate) fn is_done(&self) -> bool
        ensures { result ≡ is_done_by self.now }
    {
        self.stage.is_synchronized() && self.host_ended && self.fin_acked && self.end_acknowledged
    }

    /// Finishes the connection where both ends passed.
    pub(crate) fn settle(&mut self) -> Change
        ensures change { result ≡ settling self.old }
        ensures connection { self.new ≡ settled self.old }
    {
        if !self.is_done() {
            return Change::Nothing;
        }
        self.stage = if self.closes_first() {
            Stage::TimeWait
        } else {
            Stage::Closed
        };
        Change::Finished
    }

    /// Whether our end comes first, or both come at once.
    pub(crate) fn closes_first(&self) -> bool
        ensures { result ≡ closes_first_by self.now }
    {
        if self.receive.expected().0 == self.acknowledged.0 {
            self.ours_first
        } else {
            self.fin_is_sent()
        }
    }

    pub(crate) fn fin_is_sent(&self) -> bool
        ensures { result ≡ is_sent self.now.transmission.end }
    {
        match self.transmit.end() {
            End::Sent => true,
            End::Open | End::Unsent => false,
        }
    }

    /// The state where both SYNs were acknowledged.
    pub(crate) fn synchronized_state(&self) -> State
        ensures { result ≡ state_between self.now.received.ended (is_sent self.now.transmission.end) self.now.fin_acked (closes_first_by self.now) }
    {
        if self.receive.ended() {
            self.ended_state()
        } else if !self.fin_is_sent() {
            State::Established
        } else if self.fin_acked {
            State::FinWait2
        } else {
            State::FinWait1
        }
    }

    /// The state where the guest's end was taken.
    pub(crate) fn ended_state(&self) -> State
        ensures { result ≡ state_between true (is_sent self.now.transmission.end) self.now.fin_acked (closes_first_by self.now) }
    {
        if !self.fin_is_sent() {
            State::CloseWait
        } else if !self.closes_first() {
            State::LastAck
        } else if self.fin_acked {
            State::TimeWait
        } else {
            State::Closing
        }
    }
}

// Whether a segment has neither octets nor FIN.
fn is_bare(seg: &TcpView<'_>) -> bool
    ensures { result ≡ is_bare_by (tcp_of seg.now) }
{
    seg.body.is_empty() && !seg.is_fin()
}

fn is_too_far(seen: AckSeen) -> bool
    ensures { result ≡ is_too_far_by seen }
{
    match seen {
        AckSeen::TooFar => true,
        AckSeen::Old | AckSeen::Same | AckSeen::Forward(_) | AckSeen::FinToo(_) => false,
    }
}

fn is_fin_too(seen: AckSeen) -> bool
    ensures { result ≡ is_fin_too_by seen }
{
    match seen {
        AckSeen::FinToo(_) => true,
        AckSeen::Old | AckSeen::Same | AckSeen::Forward(_) | AckSeen::TooFar => false,
    }
}

// A window scale, of which the part over 14 doesn't count (RFC 7323, 2.3).
pub(crate) fn shift(scale: Option<u8>) -> Option<u8>
    ensures value { result ≡ shift_of scale }
    ensures few { IfSome result (λ shift. shift ≤ 14) }
{
    match scale {
        Some(shift) => Some(shift.min(14)),
        None => None,
    }
}
