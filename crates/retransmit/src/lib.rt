//! When to send again: the retransmission timeout of a connection (RFC 6298), and the timer of what wasn't acknowledged with the count of how often it went again.
//! Moments and times are in milliseconds.
//!
//! Proved:
//! - The retransmission timeout of RFC 6298: `Rto::new`, `sample`, `expired`, `wait`, each by its step and the fold of all (`step`, `fold`; `shortest`, `longest`).
//! - The timer of what wasn't acknowledged: `Resend::new`, `sent`, `expired`, `moved`, `answered`, `start`, `stop`, `due`, `timer`, `has_expired`, `wait`. It is
//!   given up exactly after eight resendings (`given_up`), 243,000 ms at least after it first went or the last acceptable acknowledgement came (`begins`, `waited`,
//!   `late`).
#![tactic(auto)]

mod estimate;
mod resending;

use std::marker::Model;

/// What is known of the round trips of a connection, in milliseconds: their smoothed time (SRTT),
/// and how much they vary (RTTVAR).
#[derive(Clone, Copy, Debug, PartialEq, Eq)]
pub struct RoundTrips {
    pub smoothed: u64,
    pub variation: u64,
}

/// The retransmission timeout of a connection. A contract sees what is known of round trips, once
/// one was measured, and how long to wait.
#[derive(Drop)]
pub struct Rto {
    round_trips: Option<RoundTrips>,
    wait: u64,
}

impl Model for Rto {
    ghost use Rattle.std.specs.Prelude.{◌≤◌};
    ghost use Rattle.retransmit.specs.Estimate.{AreBounded, Estimate, estimate};

    ghost Value = { Estimate };

    ghost view = { λ r. estimate r.round_trips r.wait };

    ghost invariant = { λ r. (1000 ≤ r.wait) × (r.wait ≤ 60000) × AreBounded r.round_trips };
}

/// The timer of what wasn't acknowledged: it is off; it runs since a moment, its base, and expires one timeout later; or
/// it expired at a moment, and what it made owed again is unsent.
#[derive(Clone, Copy, Debug, PartialEq, Eq)]
pub enum Timer {
    Off,
    Since(u64),
    Expired(u64),
}

/// When something goes again that wasn't acknowledged, as a SYN, a request or the oldest octets under way, and how often:
/// eight times, and the ninth expiry gives it up. A contract sees a `Resending`: the estimate of the timeout, the timer,
/// and how often something went again since the timer expired, after the last acceptable acknowledgement.
#[derive(Drop)]
pub struct Resend {
    rto: Rto,
    timer: Timer,
    resent: u8,
}

impl Model for Resend {
    ghost use Rattle.retransmit.specs.Resending.{IsSteady, Resending, resending};

    ghost Value = { Resending };

    ghost view = { λ r. resending r.rto r.timer r.resent };

    ghost invariant = { λ r. IsSteady (resending r.rto r.timer r.resent) };
}
