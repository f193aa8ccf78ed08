// A segment of the guest is taken in.
ghost use Rattle.std.specs.Prelude.{◌≡◌, ℕ, ◌+◌, ◌^◌, ◌<◌, ◌≤◌, length, true, false, if◌then◌else◌};
ghost use Rattle.tcp_connection.specs.Connection.{HasBuffers};
ghost use Rattle.tcp_connection.specs.Segments.{change_at};
ghost use Rattle.tcp_receive.specs.Coming.{Comes};
ghost use Rattle.tcp_segment.specs.Tcp.{tcp_of};
ghost use Rattle.tcp_transmit.specs.Transmission.{octets_read};
ghost use Rattle.world_face.specs.Tells.{Makes};
ghost use Rattle.flow_splice.specs.Guests.{renews};

use crate::{Place, Spliced};
use seq_space::is_ahead;
use tcp_connection::{Change, Owed};
use tcp_segment::TcpView;
use world_face::World;

impl Spliced {
    ghost use Rattle.flow_splice.specs.Guests.{Hears, ends_time_wait as ends_time_wait_by, heard, heard_in_time_wait, is_unfit, turns_away};
    ghost use Rattle.flow_splice.specs.Stays.{StaysButHeard};
    ghost use Rattle.flow_splice.specs.Shapes.{is_at_most_a_close};
    ghost use Rattle.flow_splice.specs.Splice.{is_in_time_wait, is_open as is_open_by, is_time_wait, is_time_wait_by};
    ghost use Rattle.flow_splice.specs.declared.Place.TheVariants.{Empty, InTimeWait};

    /// A segment of the guest arrived. Where it resets the connection, or both ends passed with it, the socket is closed. True exactly where it is to be
    /// answered by a reset, as a segment without a flow. In TIME-WAIT a SYN that is ahead of what is expected leaves the place empty, and so does a reset at the
    /// next number: the segment is one without a flow then. No call is made but a close.
    pub fn guest_segment<W: World>(&mut self, world: &mut W, now: u64, seg: &TcpView<'_>) -> bool
        requires now { now ≤ 2 ^ 62 }
        requires body { length seg.now.body.now ≤ 65535 }
        requires few { self.old.up.written + length seg.now.body.now + 2 ^ 21 < 2 ^ 62 }
        ensures makes { Makes (W.tells world.old) (W.tells world.new)
            (λ made. Hears self.old self.new (tcp_of seg.now) now made × (is_at_most_a_close made ≡ true)) }
        ensures unfit { result ≡ turns_away self.old (tcp_of seg.now) now }
        ensures stays { StaysButHeard self.old self.new }
        ensures time_waits { (since : ℕ) → self.old.place ≡ InTimeWait since → self.new ≡ heard_in_time_wait self.old since (tcp_of seg.now) now }
        ensures closed { is_open_by self.old ≡ false → is_in_time_wait self.old.place ≡ false → self.new ≡ self.old }
        ensures quiet { is_open_by self.old ≡ false → W.tells world.new ≡ W.tells world.old }
    {
        if self.is_open() {
            return self.take_segment(world, now, seg);
        }
        if let Place::InTimeWait(since) = self.place() {
            self.take_in_time_wait(since, now, seg);
        }
        false
    }

    // While its socket is open.
    fn take_segment<W: World>(&mut self, world: &mut W, now: u64, seg: &TcpView<'_>) -> bool
        requires now { now ≤ 2 ^ 62 }
        requires body { length seg.now.body.now ≤ 65535 }
        requires few { self.old.up.written + length seg.now.body.now + 2 ^ 21 < 2 ^ 62 }
        requires open_yet { is_open_by self.old ≡ true }
        ensures makes { Makes (W.tells world.old) (W.tells world.new)
            (λ made. Hears self.old self.new (tcp_of seg.now) now made × (is_at_most_a_close made ≡ true)) }
        ensures unfit { result ≡ is_unfit (change_at self.old.conn self.old.up self.old.down (tcp_of seg.now) now) }
        ensures stays { StaysButHeard self.old self.new }
    {
        let change = self.take_in(now, seg);
        self.see(world, now, change);
        change == Change::Unfit
    }

    // The connection takes it.
    fn take_in(&mut self, now: u64, seg: &TcpView<'_>) -> Change
        requires now { now ≤ 2 ^ 62 }
        requires body { length seg.now.body.now ≤ 65535 }
        requires few { self.old.up.written + length seg.now.body.now + 2 ^ 21 < 2 ^ 62 }
        requires time_waits { is_in_time_wait self.old.place ≡ true → ends_time_wait_by self.old.conn (tcp_of seg.now) ≡ false }
        ensures change { result ≡ change_at self.old.conn self.old.up self.old.down (tcp_of seg.now) now }
        ensures heard { self.new ≡ heard self.old (tcp_of seg.now) now }
        ensures buffers { HasBuffers self.new.conn self.new.up self.new.down }
        ensures within { length self.new.up.held ≤ self.new.up.size }
        ensures comes { Comes self.old.conn.received seg.now.seq.0 seg.now.body.now self.old.up self.new.up }
        ensures number { seg.now.seq.0 < 2 ^ 32 }
        ensures acknowledgement { seg.now.ack.0 < 2 ^ 32 }
        ensures read { octets_read self.new.down ≡ octets_read self.old.down }
        ensures time_waits { is_time_wait_by self.new.place self.new.conn.stage ≡ true }
    {
        let (_number, _acknowledgement) = (seg.seq.0, seg.ack.0);
        let held = self.up.held();
        // for the prover: a ring holds 2^20 octets at most.
        prove!(held <= 1 << 20);
        let change = self.conn.on_segment(&mut self.up, &mut self.down, now, seg);
        self.last = now;
        let held = self.up.held();
        // for the prover: a ring holds 2^20 octets at most.
        prove!(held <= 1 << 20);
        change
    }

    // ---- in TIME-WAIT

    fn take_in_time_wait(&mut self, since: u64, now: u64, seg: &TcpView<'_>)
        requires now { now ≤ 2 ^ 62 }
        requires body { length seg.now.body.now ≤ 65535 }
        requires few { self.old.up.written + length seg.now.body.now + 2 ^ 21 < 2 ^ 62 }
        requires time_waits { self.old.place ≡ InTimeWait since }
        ensures heard { self.new ≡ heard_in_time_wait self.old since (tcp_of seg.now) now }
        ensures up { self.new.up.written ≡ self.old.up.written }
        ensures down { octets_read self.new.down ≡ octets_read self.old.down }
    {
        if self.ends_time_wait(seg) {
            self.leave();
        } else {
            self.take_in(now, seg);
            self.rest(now, since, seg);
        }
    }

    // Whether a segment ends the rest.
    fn ends_time_wait(&self, seg: &TcpView<'_>) -> bool
        ensures { result ≡ ends_time_wait_by self.now.conn (tcp_of seg.now) }
    {
        let next = self.conn.head(&self.up, &Owed::Ack).ack;
        (seg.is_rst() && seg.seq.0 == next.0)
            || (seg.is_syn() && !seg.is_ack() && !seg.is_rst() && is_ahead(seg.seq, next))
    }

    /// From now on no flow has the place: its TIME-WAIT is over, or its reset is out.
    pub fn leave(&mut self)
        ensures { self.new ≡ record self.old { place = Empty } }
    {
        self.place = Place::Empty;
    }

    // It stays in TIME-WAIT, or enters it anew.
    fn rest(&mut self, now: u64, since: u64, seg: &TcpView<'_>)
        requires { is_time_wait self.old.conn.stage ≡ true }
        ensures { self.new ≡ record self.old { place = InTimeWait (if renews (tcp_of seg.now) then now else since) } }
    {
        self.place = Place::InTimeWait(later_if(renews(seg), now, since));
    }
}

/// Whether a segment that comes to a flow in TIME-WAIT begins the TIME-WAIT anew: FIN and ACK, and neither SYN nor RST (RFC 9293, 3.10.7.4, TIME-WAIT).
pub fn renews(seg: &TcpView<'_>) -> bool
    ensures { result ≡ renews (tcp_of seg.now) }
{
    seg.is_fin() && seg.is_ack() && !seg.is_syn() && !seg.is_rst()
}

// The later moment, or the earlier.
pub(crate) fn later_if(anew: bool, now: u64, since: u64) -> u64
    ensures { result ≡ (if anew then now else since) }
{
    if anew { now } else { since }
}
