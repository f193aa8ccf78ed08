//! The congestion window of a connection (RFC 5681): how much may be under way before an acknowledgement comes, and when an acknowledgement that moves nothing says
//! that a segment was lost.
//!
//! Proved: the congestion window is the fold of RFC 5681 over octets acknowledged, duplicates and expiries: `Cwnd::new`, `acked`, `duplicate` (true exactly at the
//! third: `third`), `expired` (each `step`, `fold`), `window` (a segment at least, 2^30 at most: `least`, `greatest`), `mss`.
#![tactic(auto)]

ghost use Rattle.std.specs.Prelude.{◌≡◌, ℕ, ◌*◌, ◌^◌, ◌≤◌, List, [], ◌∷◌, Bool, IsTrue, ◌↔◌};
ghost use Rattle.cwnd.specs.Congestion.{Congestion, Event, Acked, Duplicate, Expired, after_acked, after_duplicate, after_expiry, congestion_after, half_of as half_by};
ghost use Rattle.cwnd.specs.Congestion.{growth as growth_by, initial_window as initial_by};

use std::marker::Model;

/// The greatest window, in octets.
const GREATEST: u64 = 1 << 30;

/// The duplicate at which a segment goes again.
const THIRD: u8 = 3;

/// The congestion window of a connection, in octets. A contract sees a `Congestion`: the most octets of a segment (SMSS),
/// the window (cwnd), the threshold (ssthresh) and the number of duplicates.
#[derive(Clone, Copy)]
pub struct Cwnd {
    mss: u16,
    window: u64,
    threshold: u64,
    duplicates: u8,
}

impl Model for Cwnd {
    ghost use Rattle.std.specs.Prelude.{◌≤◌, ◌*◌, ◌^◌};
    ghost use Rattle.cwnd.specs.Congestion.{Congestion, congestion};

    ghost Value = { Congestion };

    ghost view = { λ c. congestion c.mss c.window c.threshold c.duplicates };

    ghost inverse = { λ c. record { mss = c.mss; window = c.window; threshold = c.threshold; duplicates = c.duplicates } };

    ghost invariant = { λ c. (1 ≤ c.mss) × (c.mss ≤ c.window) × (c.window ≤ 2 ^ 30) × (2 * c.mss ≤ c.threshold) × (c.duplicates ≤ 3) };
}

impl Cwnd {
    /// The window of a connection whose segments have at most `mss` octets, of which nothing was sent yet; `syn_again`
    /// says that its SYN went out more than once (RFC 5681, 3.1).
    pub fn new(mss: u16, syn_again: bool) -> Cwnd
        requires { 1 ≤ mss }
        ensures { result ≡ congestion_after mss syn_again [] }
    {
        Cwnd {
            mss,
            window: initial_window(mss, syn_again),
            threshold: GREATEST,
            duplicates: 0,
        }
    }

    /// So many octets were acknowledged for the first time (RFC 5681, 3.1, and 3.2 step 6).
    pub fn acked(&mut self, octets: u64)
        requires { 1 ≤ octets }
        ensures step { self.new ≡ after_acked self.old octets }
        ensures fold { (mss : ℕ) (syn_again : Bool) (past : List Event) → self.old ≡ congestion_after mss syn_again past
            → self.new ≡ congestion_after mss syn_again (Acked octets ∷ past) }
    {
        let window = if self.duplicates < THIRD {
            self.window + self.growth(octets)
        } else {
            self.threshold
        };
        self.window = window.min(GREATEST);
        self.duplicates = 0;
    }

    /// A duplicate acknowledgement came while `flight` numbers were under way (RFC 5681, 3.2, steps 2 to 4). True at the
    /// third, where the oldest segment is to go again.
    pub fn duplicate(&mut self, flight: u64) -> bool
        ensures third { IsTrue result ↔ (self.old.duplicates ≡ 2) }
        ensures step { self.new ≡ after_duplicate self.old flight }
        ensures fold { (mss : ℕ) (syn_again : Bool) (past : List Event) → self.old ≡ congestion_after mss syn_again past
            → self.new ≡ congestion_after mss syn_again (Duplicate flight ∷ past) }
    {
        if self.duplicates >= THIRD {
            self.window = (self.window + u64::from(self.mss)).min(GREATEST);
            return false;
        }
        self.duplicates += 1;
        if self.duplicates < THIRD {
            return false;
        }
        self.threshold = half_of(self.mss, flight);
        self.window = (self.threshold + 3 * u64::from(self.mss)).min(GREATEST);
        true
    }

    /// The timer of what is under way, `flight` numbers, expired; `again` says that the oldest of them went again at an
    /// expiry before (RFC 5681, 3.1).
    pub fn expired(&mut self, flight: u64, again: bool)
        ensures step { self.new ≡ after_expiry self.old flight again }
        ensures fold { (mss : ℕ) (syn_again : Bool) (past : List Event) → self.old ≡ congestion_after mss syn_again past
            → self.new ≡ congestion_after mss syn_again (Expired flight again ∷ past) }
    {
        if !again {
            self.threshold = half_of(self.mss, flight);
        }
        self.window = u64::from(self.mss);
        self.duplicates = 0;
    }

    /// How many numbers past the acknowledged ones may be under way.
    pub fn window(&self) -> u64
        ensures window { result ≡ self.now.window }
        ensures least { self.now.mss ≤ result }
        ensures greatest { result ≤ 2 ^ 30 }
        ensures threshold { 2 * self.now.mss ≤ self.now.threshold }
    {
        self.window
    }

    /// The most octets of a segment.
    pub fn mss(&self) -> u16
        ensures mss { result ≡ self.now.mss }
        ensures some { 1 ≤ result }
    {
        self.mss
    }
}

impl Cwnd {
    /// By how much the window grows.
    fn growth(&self, octets: u64) -> u64
        ensures growth { result ≡ growth_by self.now octets }
        ensures bounded { result ≤ 2 ^ 32 }
    {
        let mss = u64::from(self.mss);
        if self.window < self.threshold {
            octets.min(mss)
        } else {
            (mss * mss / self.window).max(1)
        }
    }
}

/// The window at first.
fn initial_window(mss: u16, syn_again: bool) -> u64
    ensures window { result ≡ initial_by mss syn_again }
    ensures least { mss ≤ result }
    ensures greatest { result ≤ 2 ^ 30 }
{
    let one = u64::from(mss);
    if syn_again {
        one
    } else if mss <= 1_095 {
        4 * one
    } else if mss <= 2_190 {
        3 * one
    } else {
        2 * one
    }
}

/// Half of what is under way, two segments at least.
fn half_of(mss: u16, flight: u64) -> u64
    ensures half { (c : Congestion) → c.mss ≡ mss → result ≡ half_by c flight }
    ensures least { 2 * mss ≤ result }
    ensures greatest { result ≤ 2 ^ 63 }
{
    (flight / 2).max(2 * u64::from(mss))
}
