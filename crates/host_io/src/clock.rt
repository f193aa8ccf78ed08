// The moments of a World.
ghost use Rattle.std.specs.Prelude.{◌≡◌, ◌≤◌, ◌-◌, ◌/◌, min, max, List, None};
ghost use Rattle.std.specs.declared.option.Option.{Option};
ghost use Rattle.std.specs.declared.time.Instant.{Instant};
ghost use Rattle.std.specs.Time.{instant_nanos};
ghost use Rattle.host_io.specs.Moments.{IsTold, Looks, after_look, begun, moment_at};

use std::marker::Model;
use std::time::{Clock, Instant};
use world_face::LAST_MOMENT;

/// A monotonic clock. A contract sees what it told, where that is known: of a clock that tells. Of the system's nothing is known.
pub trait Ticks {
    // What the looks at it told, the newest first: the instant that it was, or None where it gave none.
    ghost told: { Self → Option (List (Option Instant)) } = { λ _. None };

    /// The instant that it is, by one look. None where the clock gives none.
    fn instant(&mut self) -> Option<Instant>
        ensures looked { IsTold (told self.old) (told self.new) result };
}

impl<R: Clock> Ticks for &R {
    fn instant(&mut self) -> Option<Instant> {
        Instant::now(*self).ok()
    }
}

/// The moments since an instant, in milliseconds, by the system's monotonic clock, as they were asked for: from 0 to 2^62. A contract sees the instant, if the
/// system gave one, and the moment that was asked for last.
#[derive(Drop)]
pub struct Moments {
    // None where the system gave none.
    start: Option<Instant>,
    moment: u64,
}

impl Model for Moments {
    ghost use Rattle.host_io.specs.Moments.{Passed};

    ghost Value = { Passed };

    ghost view = { λ m. record { start = m.start; moment = m.moment } };
}

impl Moments {
    /// Begins now, with moment 0.
    pub fn begin<C: Ticks>(clock: &mut C) -> Moments
        ensures moment { result.moment ≡ 0 }
        // It starts at what one look at the clock told.
        ensures starts { Looks (C.told clock.old) (C.told clock.new) (λ now. result ≡ begun now) }
    {
        Moments {
            start: clock.instant(),
            moment: 0,
        }
    }

    /// The moment that was asked for last.
    pub fn last(&self) -> u64
        ensures { result ≡ self.now.moment }
    {
        self.moment
    }

    /// Asks for the moment. It never falls, and stays where the system tells none.
    pub fn ask<C: Ticks>(&mut self, clock: &mut C)
        ensures rises { self.old.moment ≤ self.new.moment }
        ensures start { self.new.start ≡ self.old.start }
        // It is the later of what it was and the time since the start, by one look at the clock.
        ensures looks { Looks (C.told clock.old) (C.told clock.new) (λ now. self.new ≡ after_look now self.old) }
    {
        if let (Some(start), Some(now)) = (self.start, clock.instant()) {
            self.pass(start, now);
        }
    }

    // Goes on to the moment of an instant.
    fn pass(&mut self, start: Instant, now: Instant)
        ensures { self.new ≡ record self.old { moment = max self.old.moment (moment_at start now) } }
    {
        let passed = now.duration_since(start).as_millis();
        let moment = u64::try_from(passed).unwrap_or(u64::MAX);
        self.moment = self.moment.max(moment.min(LAST_MOMENT));
    }
}
