// What is to be sent next, and what goes again.
ghost use Rattle.std.specs.Prelude.{◌≡◌, ◌^◌, ◌<◌, ◌≤◌, IsSome, IfSome, IfNone, true, false};
ghost use Rattle.tcp_transmit.specs.Pieces.{GoesAgain, IsOfStream, IsWithin, OwesNothing, Probes, end_of, fresh, next, numbers, oldest, piece_owed, probe};
ghost use Rattle.tcp_transmit.specs.Transmission.{Feeds, edge_of, is_owed_again, octets_read, reach as reach_of};

use crate::{End, Piece, Transmit, octets_read};
use sock_buffers::Down;

impl Piece {
    /// How many sequence numbers it takes: one for each octet, and one for FIN.
    pub(crate) fn numbers(&self) -> u64
        requires { self.now.length < 2 ^ 62 }
        ensures { result ≡ numbers self.now }
    {
        self.length as u64 + u64::from(self.fin)
    }
}

impl Transmit {
    /// The piece that is to be sent next (RFC 9293, 3.8; RFC 6298, 5.4): what is owed again since the timer expired, a third
    /// duplicate came or the window opened for a probe, and else what wasn't sent yet and both windows have room for.
    /// `None` exactly where nothing is owed.
    pub fn next_piece(&self, down: &Down) -> Option<Piece>
        requires { Feeds self.now down.now }
        ensures piece { result ≡ piece_owed self.now down.now }
        ensures none { IfNone result (OwesNothing self.now down.now) }
        ensures some { IsSome result → ¬ OwesNothing self.now down.now }
        ensures stream { IfSome result (λ p. IsOfStream self.now down.now p) }
        ensures carries { IfSome result (λ p. 0 < numbers p) }
        ensures mss { IfSome result (λ p. p.length ≤ self.now.mss) }
        ensures window { IfSome result (λ p. is_owed_again self.now ≡ false → end_of p ≤ edge_of self.now.window) }
        ensures congestion { IfSome result (λ p. self.now.sent < end_of p → IsWithin self.now.cwnd self.now.acked (end_of p)) }
        ensures new { IfSome result (λ p. is_owed_again self.now ≡ false → p.place ≡ self.now.sent) }
        ensures again { IfSome result (λ p. is_owed_again self.now ≡ true → self.now.acked < self.now.sent → GoesAgain self.now p) }
        ensures probes { IfSome result (λ p. is_owed_again self.now ≡ true → self.now.acked ≡ self.now.sent → Probes self.now p) }
    {
        let piece = self.next(down);
        if piece.numbers() > 0 {
            Some(piece)
        } else {
            None
        }
    }

    /// The first place past both windows.
    fn reach(&self) -> u64
        ensures { result ≡ reach_of self.now }
    {
        match self.cwnd {
            Some(cwnd) => self.edge().min(self.acked + cwnd.window()),
            None => self.edge(),
        }
    }

    /// What goes next, with no number where nothing is owed.
    fn next(&self, down: &Down) -> Piece
        requires { Feeds self.now down.now }
        ensures { result ≡ next self.now down.now }
    {
        if self.resend.has_expired() || self.early {
            if self.acked < self.sent {
                self.oldest(down)
            } else {
                self.probe(down)
            }
        } else {
            self.fresh(down)
        }
    }

    /// What was not sent yet.
    fn fresh(&self, down: &Down) -> Piece
        requires { Feeds self.now down.now }
        ensures { result ≡ fresh self.now down.now }
    {
        let octets = octets_read(down);
        let edge = self.reach();
        let left = octets
            .saturating_sub(self.sent)
            .min(edge.saturating_sub(self.sent));
        let length = left.min(u64::from(self.mss));
        let end = self.sent + length;
        Piece {
            place: self.sent,
            length: length as usize,
            fin: self.end == End::Unsent && end == octets && end < edge,
        }
    }

    /// What is sent and unacknowledged, from its first place on.
    fn oldest(&self, down: &Down) -> Piece
        requires { Feeds self.now down.now }
        ensures { result ≡ oldest self.now down.now }
    {
        let octets = octets_read(down);
        let left = self.sent.min(octets).saturating_sub(self.acked);
        let length = left.min(u64::from(self.mss));
        Piece {
            place: self.acked,
            length: length as usize,
            fin: self.end == End::Sent && self.acked + length == octets,
        }
    }

    /// One number past the window.
    fn probe(&self, down: &Down) -> Piece
        requires { octets_read down.now < 2 ^ 62 }
        ensures { result ≡ probe self.now down.now }
    {
        let has_octet = self.sent < octets_read(down);
        Piece {
            place: self.sent,
            length: usize::from(has_octet),
            fin: !has_octet && self.end == End::Unsent,
        }
    }
}
