// What a segment is (RFC 9293, 3.10.7).
ghost use Rattle.std.specs.Prelude.{◌≡◌, ◌-◌, ◌/◌, ◌<◌, ◌&&◌};
ghost use Rattle.tcp_segment.specs.Tcp.{tcp_of};
ghost use Rattle.tcp_connection.specs.Checks.{is_ack, acknowledges_syn as acknowledges_syn_by, is_in_window as in_window_by, is_next as is_next_by, is_same_syn as same_syn_by};
ghost use Rattle.tcp_connection.specs.Checks.{verdict_answering, verdict_calling, verdict_early, verdict_of, verdict_synchronized};
ghost use Rattle.tcp_connection.specs.Connection.{has_gone};

use crate::{Conn, Stage, Verdict};
use seq_space::number_at;
use sock_buffers::Up;
use tcp_segment::TcpView;

impl Conn {
    pub(crate) fn verdict(&self, up: &Up, seg: &TcpView<'_>) -> Verdict
        ensures { result ≡ verdict_of self.now up.now (tcp_of seg.now) }
    {
        match self.stage {
            Stage::Connecting => self.verdict_early(seg),
            Stage::SynSent => self.verdict_calling(seg),
            Stage::SynReceived => self.verdict_answering(up, seg),
            Stage::Synchronized | Stage::TimeWait => self.verdict_synchronized(up, seg),
            Stage::Resets { .. } | Stage::Closed => Verdict::Ignored,
        }
    }

    pub(crate) fn verdict_early(&self, seg: &TcpView<'_>) -> Verdict
        ensures { result ≡ verdict_early self.now (tcp_of seg.now) }
    {
        if seg.is_rst() && self.is_next(seg) {
            Verdict::Resets
        } else {
            Verdict::Ignored
        }
    }

    pub(crate) fn verdict_calling(&self, seg: &TcpView<'_>) -> Verdict
        ensures { result ≡ verdict_calling self.now (tcp_of seg.now) }
    {
        if seg.is_rst() {
            if self.acknowledges_syn(seg) {
                Verdict::Resets
            } else {
                Verdict::Ignored
            }
        } else if !self.sendings.has_gone() {
            Verdict::Ignored
        } else if seg.is_ack() && !self.acknowledges_syn(seg) {
            Verdict::Unacceptable
        } else if seg.is_syn() {
            Verdict::Greets
        } else {
            Verdict::Ignored
        }
    }

    pub(crate) fn verdict_answering(&self, up: &Up, seg: &TcpView<'_>) -> Verdict
        ensures { result ≡ verdict_answering self.now up.now (tcp_of seg.now) }
    {
        if !self.sendings.has_gone() {
            self.verdict_early(seg)
        } else if self.is_same_syn(seg) {
            Verdict::Repeats
        } else if seg.is_ack() && !seg.is_rst() && !self.acknowledges_syn(seg) {
            Verdict::Unacceptable
        } else {
            self.verdict_synchronized(up, seg)
        }
    }

    pub(crate) fn verdict_synchronized(&self, up: &Up, seg: &TcpView<'_>) -> Verdict
        ensures { result ≡ verdict_synchronized self.now up.now (tcp_of seg.now) }
    {
        if seg.is_rst() {
            if self.is_next(seg) {
                Verdict::Resets
            } else if self.is_in_window(up, seg) {
                Verdict::Challenged
            } else {
                Verdict::Ignored
            }
        } else if seg.is_syn() {
            Verdict::Challenged
        } else if seg.is_ack() {
            Verdict::Heeded
        } else {
            Verdict::Ignored
        }
    }

    /// Whether the acknowledgement is that of our SYN.
    pub(crate) fn acknowledges_syn(&self, seg: &TcpView<'_>) -> bool
        ensures { result ≡ acknowledges_syn_by self.now (tcp_of seg.now) }
    {
        seg.is_ack() && seg.ack.0 == number_at(self.ours, 0).0
    }

    /// Whether the number is the next expected one.
    pub(crate) fn is_next(&self, seg: &TcpView<'_>) -> bool
        ensures { result ≡ is_next_by self.now (tcp_of seg.now) }
    {
        seg.seq.0 == self.receive.expected().0
    }

    /// Whether the number lies within the room of the buffer.
    pub(crate) fn is_in_window(&self, up: &Up, seg: &TcpView<'_>) -> bool
        ensures { result ≡ in_window_by self.now up.now (tcp_of seg.now) }
    {
        let expected = self.receive.expected();
        (seg.seq.0.wrapping_sub(expected.0) as usize) < up.room()
    }

    /// Whether it is the guest's SYN again.
    pub(crate) fn is_same_syn(&self, seg: &TcpView<'_>) -> bool
        ensures { result ≡ same_syn_by self.now (tcp_of seg.now) }
    {
        seg.is_syn()
            && !seg.is_ack()
            && !seg.is_rst()
            && number_at(seg.seq, 0).0 == self.receive.expected().0
    }
}
