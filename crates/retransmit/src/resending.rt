// What goes again where it wasn't acknowledged, when, and how often.
ghost use Rattle.std.specs.Prelude.{◌≡◌, ℕ, ◌+◌, ◌^◌, ◌≤◌, IsSome, IfSome, IsTrue, ◌↔◌, Some};
ghost use Rattle.retransmit.specs.Resending.{HasWaitedSince, counted as counted_by, doublings, IsNotBefore, after_answered, after_expired, after_moved, after_sent, after_start};
ghost use Rattle.retransmit.specs.Resending.{after_stop, at_rest, due_of, is_expired as is_expired_by, expired_by, IsInRange, set_unless_running};

use crate::{Resend, Rto, Timer};

/// How often something goes again before it is given up (RFC 9293, 3.8.3).
const RESENDINGS: u8 = 8;

impl Resend {
    /// Before anything was sent: the timer is off, and the timeout is 1,000 milliseconds.
    pub fn new() -> Resend
        ensures { result ≡ at_rest }
    {
        Resend {
            rto: Rto::new(),
            timer: Timer::Off,
            resent: 0,
        }
    }

    /// Something was sent, `again` where it went before. The timer is set where it doesn't run (RFC 6298, 5.1), and set
    /// anew with what goes again, which is counted where the timer had expired.
    pub fn sent(&mut self, again: bool, now: u64)
        requires { now ≤ 2 ^ 62 }
        ensures sent { self.new ≡ after_sent self.old again now }
        ensures begins { self.old.timer ≡ Timer.Off → HasWaitedSince now self.new }
        ensures waited { (first : ℕ) → first ≤ now → IsNotBefore self.old.timer now → HasWaitedSince first self.old
            → HasWaitedSince first self.new }
    {
        if again {
            self.resent = counted(self.timer, self.resent);
            self.timer = Timer::Since(now);
        } else {
            self.timer = running(self.timer, now);
        }
    }

    /// The timer expired. True where what it waits for is given up, since it went again eight times with no acceptable
    /// acknowledgement between; nothing changes then. Else the timeout is doubled, and it is owed again (RFC 6298, 5.4 and
    /// 5.5). It is given up 243,000 milliseconds at least after it first went, or after the last acceptable
    /// acknowledgement.
    pub fn expired(&mut self) -> bool
        requires runs { IsSome (due_of self.old) }
        ensures given_up { IsTrue result ↔ (8 ≤ self.old.resent) }
        ensures change { self.new ≡ after_expired self.old }
        ensures waited { (first : ℕ) → HasWaitedSince first self.old → HasWaitedSince first self.new }
        ensures late { IsTrue result → (first at : ℕ) → HasWaitedSince first self.old → due_of self.old ≡ Some at
            → first + 243000 ≤ at }
    {
        if self.resent >= RESENDINGS {
            return true;
        }
        self.timer = expired_after(self.timer, self.rto.wait());
        self.rto.expired();
        false
    }

    /// Something was acknowledged for the first time, with a measured round trip where there is one (RFC 6298, 3); what
    /// was owed again no longer is. The timer is set anew where more is under way (5.3), and else cleared (5.2).
    pub fn moved(&mut self, measured: Option<u64>, under_way: bool, now: u64)
        requires measured { IfSome measured (λ ms. ms ≤ 2 ^ 40) }
        requires now { now ≤ 2 ^ 62 }
        ensures moved { self.new ≡ after_moved self.old measured under_way now }
        ensures begins { HasWaitedSince now self.new }
    {
        if let Some(ms) = measured {
            self.rto.sample(ms);
        }
        self.resent = 0;
        self.timer = if under_way {
            Timer::Since(now)
        } else {
            Timer::Off
        };
    }

    /// An acceptable acknowledgement moved nothing: what is owed stays so, and its count begins anew.
    pub fn answered(&mut self)
        ensures answered { self.new ≡ after_answered self.old }
        ensures waited { (first : ℕ) → HasWaitedSince first self.old → HasWaitedSince first self.new }
    {
        self.resent = 0;
    }

    /// Sets the timer, where it is off, for something that waits without having gone, as octets for a closed window
    /// (RFC 9293, 3.8.6.1).
    pub fn start(&mut self, now: u64)
        requires { now ≤ 2 ^ 62 }
        ensures started { self.new ≡ after_start self.old now }
        ensures waited { (first : ℕ) → first ≤ now → HasWaitedSince first self.old → HasWaitedSince first self.new }
    {
        if self.timer == Timer::Off {
            self.timer = Timer::Since(now);
        }
    }

    /// Clears the timer, since nothing waits.
    pub fn stop(&mut self)
        ensures stopped { self.new ≡ after_stop self.old }
    {
        self.timer = Timer::Off;
        self.resent = 0;
    }

    /// The moment at which the timer expires: a timeout after its base. `None` exactly where it doesn't run.
    pub fn due(&self) -> Option<u64>
        ensures { result ≡ due_of self.now }
    {
        match self.timer {
            Timer::Since(base) => Some(base + self.rto.wait()),
            Timer::Off | Timer::Expired(_) => None,
        }
    }

    /// Whether the timer is off, runs since a moment in milliseconds, or has expired at one and what it made owed isn't out.
    pub fn timer(&self) -> Timer
        ensures { result ≡ self.now.timer }
    {
        self.timer
    }

    /// Whether the timer expired and what it made owed again is unsent.
    pub fn has_expired(&self) -> bool
        ensures { result ≡ is_expired_by self.now.timer }
    {
        match self.timer {
            Timer::Expired(_) => true,
            Timer::Off | Timer::Since(_) => false,
        }
    }

    /// How long to wait for an acknowledgement, in milliseconds.
    pub fn wait(&self) -> u64
        ensures wait { result ≡ self.now.estimate.wait }
        ensures shortest { 1000 ≤ result }
        ensures longest { result ≤ 60000 }
    {
        self.rto.wait()
    }
}

/// A timer that runs, from now on unless it runs already.
fn running(timer: Timer, now: u64) -> Timer
    ensures { result ≡ set_unless_running timer now }
{
    match timer {
        Timer::Off | Timer::Expired(_) => Timer::Since(now),
        Timer::Since(base) => Timer::Since(base),
    }
}

/// How often something went again, with what goes again now.
fn counted(timer: Timer, resent: u8) -> u8
    requires { doublings timer resent ≤ 8 }
    ensures { result ≡ counted_by timer resent }
{
    match timer {
        Timer::Expired(_) => resent + 1,
        Timer::Off | Timer::Since(_) => resent,
    }
}

/// A timer that ran out.
fn expired_after(timer: Timer, wait: u64) -> Timer
    requires wait { wait ≤ 60000 }
    requires range { IsInRange timer }
    ensures { result ≡ expired_by timer wait }
{
    match timer {
        Timer::Since(base) => Timer::Expired(base + wait),
        Timer::Off | Timer::Expired(_) => timer,
    }
}
