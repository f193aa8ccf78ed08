// What an acknowledgement of the guest is, and what it changes (RFC 9293, 3.10.7.4).
ghost use Rattle.std.specs.Prelude.{◌≡◌, ℤ, ◌^◌, ◌<◌, ◌≤◌, ◌⊎◌, pos, IsSome, true};
ghost use Rattle.retransmit.specs.Resending.{due_of};
ghost use Rattle.tcp_transmit.specs.Acks.{IsSeenAs, acknowledged, after_ack, congested_by, cwnd_acked, is_acceptable, is_duplicate as is_duplicate_by, is_last_window as is_last_window_by};
ghost use Rattle.tcp_transmit.specs.Acks.{is_newer as newer_by, is_same as is_same_as, moved, octets_acked, opened, place_acked, windowed, without};
ghost use Rattle.tcp_transmit.specs.Transmission.{Feeds, is_closed, octets_read};

use crate::timing::{round_trip, timed_past};
use crate::{AckSeen, Transmit, Window, octets_read};
use cwnd::Cwnd;
use seq_space::{Seq, ahead, nearest};
use sock_buffers::Down;

/// The duplicate acknowledgement at which the oldest piece goes again (RFC 5681, 3.2).
const THIRD: u8 = 3;

impl AckSeen {
    /// Whether the acknowledgement is acceptable: of what was sent, and no older than the last.
    pub fn is_acceptable(&self) -> bool
        ensures { result ≡ is_acceptable self.now }
    {
        match self {
            AckSeen::Old | AckSeen::TooFar => false,
            AckSeen::Same | AckSeen::Forward(_) | AckSeen::FinToo(_) => true,
        }
    }

    /// Whether the acknowledgement is the last one again.
    fn is_same(&self) -> bool
        ensures { result ≡ is_same_as self.now }
    {
        match self {
            AckSeen::Same => true,
            AckSeen::Old | AckSeen::Forward(_) | AckSeen::FinToo(_) | AckSeen::TooFar => false,
        }
    }

    /// How many octets it acknowledges that were not acknowledged before.
    fn octets(&self) -> usize
        ensures { result ≡ octets_acked self.now }
    {
        match self {
            AckSeen::Forward(count) | AckSeen::FinToo(count) => *count,
            AckSeen::Old | AckSeen::Same | AckSeen::TooFar => 0,
        }
    }
}

impl Transmit {
    /// An acceptable or other acknowledgement of the guest, with the number of its segment and the window that this gives
    /// (RFC 9293, 3.10.7.4), scaled already (RFC 7323, 2.3); `bare` says that the segment has no octets, SYN or FIN. Octets
    /// that are acknowledged for the first time leave `down`, and the timer is set again, or cleared where nothing is left
    /// under way (RFC 6298, 5.2 and 5.3). A third duplicate owes the oldest piece again (RFC 5681, 3.2), and so does an
    /// acknowledgement that moves and is below what was sent at the last third duplicate or expiry (RFC 6582, 3.2). What
    /// isn't acceptable changes nothing.
    pub fn acked(
        &mut self,
        down: &mut Down,
        seq: Seq,
        ack: Seq,
        window: u32,
        now: u64,
        bare: bool,
    ) -> AckSeen
        requires feeds { Feeds self.old down.old }
        requires now { now ≤ 2 ^ 62 }
        ensures seen { IsSeenAs self.old down.old (place_acked self.old ack.0) result }
        ensures dropped { down.new ≡ without (octets_acked result) down.old }
        ensures read { octets_read down.new ≡ octets_read down.old }
        ensures change { self.new ≡ after_ack self.old down.new seq window bare now result }
        ensures steady { result ≡ AckSeen.Same → IsSome (due_of self.old.resend)
            → (self.new.acked < self.new.sent) ⊎ (is_closed self.new ≡ true) → self.new.resend.timer ≡ self.old.resend.timer }
        ensures feeds { Feeds self.new down.new }
    {
        let seen = self.seen(down, ack);
        if !seen.is_acceptable() {
            return seen;
        }
        let is_duplicate = self.is_duplicate(window, bare, seen);
        self.count_congestion(is_duplicate, seen.octets());
        self.acknowledge(down, seen, now);
        self.take_window(seq, window);
        self.owe_probe();
        let unsent = self.has_unsent(down);
        self.watch(unsent, now);
        seen
    }

    /// What an acknowledgement is.
    fn seen(&self, down: &Down, ack: Seq) -> AckSeen
        requires { Feeds self.now down.now }
        ensures { IsSeenAs self.now down.now (place_acked self.now ack.0) result }
    {
        let place = nearest(ack, self.first, self.sent);
        if place < self.acked as i64 {
            AckSeen::Old
        } else if place > self.sent as i64 {
            AckSeen::TooFar
        } else if place == self.acked as i64 {
            AckSeen::Same
        } else {
            self.seen_forward(down, place as u64)
        }
    }

    /// What an acknowledgement of more than before is.
    fn seen_forward(&self, down: &Down, place: u64) -> AckSeen
        requires feeds { Feeds self.now down.now }
        requires low { self.now.acked < place }
        requires high { place ≤ self.now.sent }
        ensures { IsSeenAs self.now down.now (pos place) result }
    {
        let octets = octets_read(down);
        let count = (place.min(octets) - self.acked) as usize;
        if place > octets {
            AckSeen::FinToo(count)
        } else {
            AckSeen::Forward(count)
        }
    }

    /// Counts an acceptable acknowledgement.
    fn acknowledge(&mut self, down: &mut Down, seen: AckSeen, now: u64)
        requires feeds { Feeds self.old down.old }
        requires seen { (at : ℤ) × IsSeenAs self.old down.old at seen }
        requires now { now ≤ 2 ^ 62 }
        ensures dropped { down.new ≡ without (octets_acked seen) down.old }
        ensures change { self.new ≡ acknowledged self.old seen now }
    {
        match seen {
            AckSeen::Old | AckSeen::TooFar => {}
            AckSeen::Same => self.resend.answered(),
            AckSeen::Forward(count) => {
                down.acked(count);
                self.move_to(self.acked + count as u64, now);
            }
            AckSeen::FinToo(count) => {
                down.acked(count);
                self.move_to(self.acked + count as u64 + 1, now);
            }
        }
    }

    /// All before a place is acknowledged.
    /// A piece that was owed again is owed no longer; the one at the new place may be, below `recover`.
    fn move_to(&mut self, place: u64, now: u64)
        requires low { self.old.acked ≤ place }
        requires high { place ≤ self.old.sent }
        requires now { now ≤ 2 ^ 62 }
        ensures { self.new ≡ moved self.old place now }
    {
        let measured = round_trip(self.timed, place, now);
        self.timed = timed_past(self.timed, place);
        self.acked = place;
        self.duplicates = 0;
        self.early = place < self.recover;
        self.again = false;
        self.probing = false;
        self.resend.moved(measured, place < self.sent, now);
    }

    /// Whether a segment is a duplicate acknowledgement.
    fn is_duplicate(&self, window: u32, bare: bool, seen: AckSeen) -> bool
        ensures { result ≡ is_duplicate_by self.now window bare seen }
    {
        bare && seen.is_same() && self.acked < self.sent && is_last_window(self.window, window)
    }

    /// Counts a duplicate, or octets that were acknowledged for the first time. The third duplicate makes the oldest piece
    /// owed again.
    fn count_congestion(&mut self, is_duplicate: bool, octets: usize)
        ensures { self.new ≡ congested_by self.old is_duplicate octets }
    {
        let flight = self.sent - self.acked;
        self.cwnd = cwnd_after_ack(self.cwnd, is_duplicate, flight, octets as u64);
        let is_third = is_duplicate && self.duplicates == THIRD - 1;
        self.early = self.early || is_third;
        if is_third {
            self.recover = self.sent;
        }
        if is_duplicate {
            self.duplicates = THIRD.min(self.duplicates + 1);
        }
    }

    /// A probe that wasn't taken is owed again once the window has room for it.
    /// A probe that the guest dropped goes again at once when its window opens, and is none of the eight resendings: else the stream could stand still
    /// for a minute.
    fn owe_probe(&mut self)
        ensures { self.new ≡ opened self.old }
    {
        let edge = self.edge();
        if self.probing && self.acked < edge {
            self.early = true;
            self.probing = false;
        }
    }

    /// Takes the window of a segment that is not older than the one of the last.
    fn take_window(&mut self, seq: Seq, window: u32)
        ensures { self.new ≡ windowed self.old seq window }
    {
        if is_newer(self.window, seq, self.acked) {
            self.window = Some(Window {
                edge: self.acked + u64::from(window),
                seq,
                ack: self.acked,
            });
        }
    }
}

/// The congestion window after a duplicate, or after octets were acknowledged, while so many numbers were under way.
fn cwnd_after_ack(cwnd: Option<Cwnd>, is_duplicate: bool, flight: u64, octets: u64) -> Option<Cwnd>
    ensures { result ≡ cwnd_acked cwnd is_duplicate flight octets }
{
    let mut cwnd = cwnd?;
    if is_duplicate {
        cwnd.duplicate(flight);
    } else if octets > 0 {
        cwnd.acked(octets);
    }
    Some(cwnd)
}

/// Whether the last window that was taken is so large.
fn is_last_window(last: Option<Window>, window: u32) -> bool
    ensures { result ≡ is_last_window_by last window }
{
    match last {
        Some(last) => u64::from(window) == last.edge.saturating_sub(last.ack),
        None => false,
    }
}

/// Whether a segment is not older than the one from which a window was taken.
/// SND.WL1 is compared as a number, SND.WL2 as a place; the segment that acknowledges our SYN gives its window whatever its number.
fn is_newer(window: Option<Window>, seq: Seq, acked: u64) -> bool
    ensures { result ≡ newer_by window seq.0 acked }
{
    match window {
        Some(window) => ahead(seq, window.seq) > 0 || (seq == window.seq && window.ack <= acked),
        None => true,
    }
}
