// When an acknowledgement to the guest waits: more that came is to be read, and what acknowledges all of it goes out in its place.
use std::marker::Model;

/// The octets of the frame of an acknowledgement alone, with its length: a frame of no more is short.
const SHORT: usize = 58;

/// Once so many octets were read after a short frame, the next one waits even where nothing more was read ahead.
const MANY: usize = 8192;

/// Once so many were read, none waits from the next wait on.
const PATIENCE: usize = 131_072;

/// Whether short frames wait. One that waits isn't taken, and is made anew when the link is told ready for writing: an acknowledgement then acknowledges all
/// that was read meanwhile, so that one goes out for many segments.
#[derive(Drop)]
pub struct Pace {
    /// How many octets were read since a short frame went out, or since none waits.
    passed: usize,
    /// One waits.
    holds: bool,
    /// None waits until the next wait.
    lets: bool,
}

impl Model for Pace {
    ghost use Rattle.guest_link.specs.Paces.{Paced};

    ghost Value = { Paced };

    ghost view = { λ p. record { passed = p.passed; holds = p.holds; lets = p.lets } };
}

impl Pace {
    ghost use Rattle.std.specs.Prelude.{◌≡◌, ◌≤◌, true, false};
    ghost use Rattle.guest_link.specs.Paces.{at_first, let_out, turned, read_on, is_kept, offered};

    /// Nothing was read, and none waits.
    pub fn new() -> Pace
        ensures { result ≡ at_first }
    {
        Pace {
            passed: 0,
            holds: false,
            lets: false,
        }
    }

    /// Whether one waits.
    pub fn holds(&self) -> bool
        ensures { result ≡ self.now.holds }
    {
        self.holds
    }

    /// A wait begins, in which the link is wanted for reading, or not. Where it isn't, or enough was read, no frame waits until the next wait.
    pub fn turn(&mut self, reads: bool)
        ensures turned { self.new ≡ turned reads self.old }
        ensures aside { reads ≡ false → self.new ≡ let_out }
        ensures bounded { 131072 ≤ self.old.passed → self.new ≡ let_out }
    {
        if reads && self.passed < PATIENCE {
            self.lets = false;
        } else {
            self.let_out();
        }
    }

    /// No frame waits until the next wait.
    pub fn let_out(&mut self)
        ensures { self.new ≡ let_out }
    {
        self.passed = 0;
        self.holds = false;
        self.lets = true;
    }

    /// Octets were read.
    pub fn read_on(&mut self, count: usize)
        ensures { self.new ≡ read_on count self.old }
    {
        self.passed = self.passed.saturating_add(count);
    }

    /// A frame of so many octets is offered, where more was read ahead or not. Whether it waits.
    pub fn keeps(&mut self, size: usize, ahead: bool) -> bool
        ensures answer { result ≡ is_kept size ahead self.old }
        ensures change { self.new ≡ offered size ahead self.old }
        // A longer one never waits, none does where they are let out, and what waits is remembered.
        ensures short { result ≡ true → size ≤ 58 }
        ensures let_out { self.old.lets ≡ true → result ≡ false }
        ensures held { result ≡ true → self.new.holds ≡ true }
    {
        if size > SHORT {
            return false;
        }
        if !self.lets && (ahead || self.passed >= MANY) {
            self.holds = true;
            return true;
        }
        self.passed = 0;
        false
    }
}
