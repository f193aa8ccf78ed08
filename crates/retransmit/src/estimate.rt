// The retransmission timeout of a connection (RFC 6298).
ghost use Rattle.std.specs.Prelude.{◌≡◌, ◌^◌, ◌≤◌, List, [], ◌∷◌};
ghost use Rattle.retransmit.specs.Estimate.{AreBounded, Event, Expired, Sampled, after_expiry, after_sample, estimate_after, round_trips_after, wait_of as wait_by};

use crate::{RoundTrips, Rto};

/// The shortest timeout, in milliseconds.
const SHORTEST: u64 = 1_000;

/// The longest timeout, in milliseconds.
const LONGEST: u64 = 60_000;

impl Rto {
    /// The timeout of a connection of which no round trip was measured: 1,000 milliseconds.
    pub fn new() -> Rto
        ensures { result ≡ estimate_after [] }
    {
        Rto {
            round_trips: None,
            wait: SHORTEST,
        }
    }

    /// A round trip of `ms` milliseconds was measured.
    pub fn sample(&mut self, ms: u64)
        requires { ms ≤ 2 ^ 40 }
        ensures step { self.new ≡ after_sample self.old ms }
        ensures fold { (past : List Event) → self.old ≡ estimate_after past
            → self.new ≡ estimate_after (Sampled ms ∷ past) }
    {
        let round_trips = measured(self.round_trips, ms);
        self.round_trips = Some(round_trips);
        self.wait = timeout(round_trips);
    }

    /// The timer expired: the timeout doubles, 60,000 ms at most (RFC 6298, 5.5).
    pub fn expired(&mut self)
        ensures step { self.new ≡ after_expiry self.old }
        ensures fold { (past : List Event) → self.old ≡ estimate_after past
            → self.new ≡ estimate_after (Expired ∷ past) }
        ensures no_shorter { self.old.wait ≤ self.new.wait }
    {
        self.wait = (2 * self.wait).min(LONGEST);
    }

    /// How long to wait for an acknowledgement, in milliseconds.
    pub fn wait(&self) -> u64
        ensures wait { result ≡ self.now.wait }
        ensures shortest { 1000 ≤ result }
        ensures longest { result ≤ 60000 }
    {
        self.wait
    }
}

/// What is known of round trips after one more.
fn measured(before: Option<RoundTrips>, ms: u64) -> RoundTrips
    requires ms { ms ≤ 2 ^ 40 }
    requires before { AreBounded before }
    ensures value { result ≡ round_trips_after before ms }
    ensures smoothed { result.smoothed ≤ 2 ^ 40 }
    ensures variation { result.variation ≤ 2 ^ 40 }
{
    match before {
        None => RoundTrips {
            smoothed: ms,
            variation: ms / 2,
        },
        Some(
            RoundTrips {
                smoothed,
                variation,
            },
        ) => RoundTrips {
            smoothed: (7 * smoothed + ms) / 8,
            variation: (3 * variation + smoothed.abs_diff(ms)) / 4,
        },
    }
}

/// The timeout for these round trips.
fn timeout(t: RoundTrips) -> u64
    requires smoothed { t.smoothed ≤ 2 ^ 40 }
    requires variation { t.variation ≤ 2 ^ 40 }
    ensures value { result ≡ wait_by t }
    ensures shortest { 1000 ≤ result }
    ensures longest { result ≤ 60000 }
{
    let wait = t.smoothed + (4 * t.variation).max(1);
    wait.max(SHORTEST).min(LONGEST)
}
