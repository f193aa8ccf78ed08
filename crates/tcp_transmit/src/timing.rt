// The timer of pieces and probes, and the piece whose round trip is measured (RFC 6298).
ghost use Rattle.std.specs.Prelude.{◌≡◌, ℕ, ◌+◌, ◌^◌, ◌<◌, ◌≤◌, ◌↔◌, IsTrue, IsSome, IfSome, Some};
ghost use Rattle.retransmit.specs.Resending.{HasWaitedSince, due_of};
ghost use Rattle.sock_buffers.specs.Downward.{Downward};
ghost use Rattle.tcp_transmit.specs.Pieces.{piece_owed};
ghost use Rattle.tcp_transmit.specs.Timing.{Runs, after_expired, after_sent, cwnd_expired, round_trip as round_trip_of, timed_after, timed_past as timed_past_by, watched};
ghost use Rattle.tcp_transmit.specs.Transmission.{Feeds};

use crate::{End, Piece, Timed, Transmit};
use cwnd::Cwnd;

/// The longest round trip that is measured: a longer one counts as so long.
const LONGEST_ROUND_TRIP: u64 = 1 << 40;

impl Transmit {
    /// A piece was sent: one that `next_piece` gives in this state. The timer is set where it doesn't run (RFC 6298, 5.1) or
    /// the piece goes again, and the piece is measured where none is and it went for the first time (3).
    /// A resending is counted now, when the link takes it, and not when the timer expires: an acknowledgement between them begins the count anew.
    pub fn sent(&mut self, p: &Piece, now: u64)
        requires owed { (down : Downward) × Feeds self.old down × (piece_owed self.old down ≡ Some p.now) }
        requires now { now ≤ 2 ^ 62 }
        ensures sent { self.new ≡ after_sent self.old p.now now }
        ensures feeds { (down : Downward) → Feeds self.old down → piece_owed self.old down ≡ Some p.now → Feeds self.new down }
    {
        let edge = self.edge();
        let again = p.place < self.sent;
        let end = p.place + p.numbers();
        self.timed = timed_after(self.timed, again, end, now);
        self.again = self.again || again && self.resend.has_expired();
        self.probing = self.probing || !again && edge <= p.place;
        self.early = false;
        self.sent = self.sent.max(end);
        if p.fin {
            self.end = End::Sent;
        }
        self.resend.sent(again, now);
    }

    /// The timer expired. True where the connection is given up, since the oldest piece went again eight times with no
    /// acceptable acknowledgement between (RFC 9293, 3.8.3); nothing changes then. Else the wait is doubled, and that
    /// piece, or where nothing is under way a probe, is owed (RFC 6298, 5.4 and 5.5). What is under way was lost, for all
    /// that is known: until it is acknowledged, each acknowledgement that moves owes the next piece (RFC 6582, 3.2).
    pub fn expired(&mut self) -> bool
        requires runs { IsSome (due_of self.old.resend) }
        ensures given_up { IsTrue result ↔ (8 ≤ self.old.resend.resent) }
        ensures under_way { (down : Downward) → Feeds self.old down → IsTrue result → self.old.acked < self.old.sent }
        ensures late { IsTrue result → (first at : ℕ) → HasWaitedSince first self.old.resend → due_of self.old.resend ≡ Some at
            → first + 243000 ≤ at }
        ensures change { self.new ≡ after_expired self.old }
        ensures feeds { (down : Downward) → Feeds self.old down → Feeds self.new down }
    {
        if self.resend.expired() {
            return true;
        }
        self.cwnd = cwnd_after_expiry(self.cwnd, self.sent - self.acked, self.again);
        if self.acked < self.sent {
            self.recover = self.sent;
            self.duplicates = 0;
        }
        false
    }

    /// The moment to which the timer of pieces and probes runs. `None` exactly where it doesn't run.
    pub fn due(&self) -> Option<u64>
        ensures moment { result ≡ due_of self.now.resend }
        ensures runs { (down : Downward) → Feeds self.now down → IsSome result → Runs self.now down }
        ensures rests { (down : Downward) → Feeds self.now down → Runs self.now down → IsSome result }
    {
        self.resend.due()
    }

    /// Sets or clears the timer of a closed window, where nothing is under way.
    pub(crate) fn watch(&mut self, unsent: bool, now: u64)
        requires { now ≤ 2 ^ 62 }
        ensures { self.new ≡ watched self.old unsent now }
    {
        if self.acked < self.sent {
            return;
        }
        if self.is_closed() && unsent {
            self.resend.start(now);
        } else {
            self.resend.stop();
        }
    }
}

/// The congestion window after the timer expired while so many numbers were under way.
fn cwnd_after_expiry(cwnd: Option<Cwnd>, flight: u64, again: bool) -> Option<Cwnd>
    ensures { result ≡ cwnd_expired cwnd flight again }
{
    let mut cwnd = cwnd?;
    if flight > 0 {
        cwnd.expired(flight, again);
    }
    Some(cwnd)
}

/// The round trip of the measured piece, where it is acknowledged whole.
pub(crate) fn round_trip(timed: Option<Timed>, place: u64, now: u64) -> Option<u64>
    ensures value { result ≡ round_trip_of timed place now }
    ensures longest { IfSome result (λ ms. ms ≤ 2 ^ 40) }
{
    match timed {
        Some(timed) if timed.end <= place => {
            Some(now.saturating_sub(timed.at).min(LONGEST_ROUND_TRIP))
        }
        _ => None,
    }
}

/// The measured piece after all before a place was acknowledged.
pub(crate) fn timed_past(timed: Option<Timed>, place: u64) -> Option<Timed>
    ensures { result ≡ timed_past_by timed place }
{
    match timed {
        Some(timed) if timed.end <= place => None,
        _ => timed,
    }
}

/// The measured piece after one was sent, that ends at a place.
fn timed_after(timed: Option<Timed>, again: bool, end: u64, now: u64) -> Option<Timed>
    ensures { result ≡ timed_after timed again end now }
{
    if again {
        return None;
    }
    match timed {
        Some(timed) => Some(timed),
        None => Some(Timed { end, at: now }),
    }
}
