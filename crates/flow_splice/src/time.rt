// What time does to a flow.
ghost use Rattle.std.specs.Prelude.{◌≡◌, ◌^◌, ◌<◌, ◌≤◌, ◌&&◌, ◌⊎◌, ◌∷◌, [], Bool, ℕ, nat_eq, nat_le, true, false};
ghost use Rattle.tcp_connection.specs.Connection.{HasBuffers};
ghost use Rattle.tcp_connection.specs.Hosts.{reset};
ghost use Rattle.tcp_connection.specs.Timing.{after_tick, change_at_tick};
ghost use Rattle.world_face.specs.Journal.{Close};
ghost use Rattle.world_face.specs.Tells.{Makes};
ghost use Rattle.spec_flow.specs.Settings.{Settings};
ghost use Rattle.spec_flow.specs.Close.{follows_reset, may_give_way};
ghost use Rattle.spec_flow.specs.Event.{At, Closes, Story};
ghost use Rattle.sim_connection.specs.Holding.{is_at_connecting};

use crate::Spliced;
use rules_flow::REQUESTS;
use tcp_connection::Change;
use world_face::World;

impl Spliced {
    ghost use Rattle.flow_splice.specs.Ahead.{IsTimely};
    ghost use Rattle.flow_splice.specs.Follows.{Follows};
    ghost use Rattle.flow_splice.specs.Stays.{Stays};
    ghost use Rattle.flow_splice.specs.Serves.{GoesOnYet, TicksOn};
    ghost use Rattle.flow_splice.specs.Shapes.{is_at_most_a_close};
    ghost use Rattle.flow_splice.specs.Splice.{is_open as is_open_by};
    ghost use Rattle.flow_splice.specs.Wants.{HasTime, asks_after, connect_end as connect_end_by, is_deserted as is_deserted_by, patience_end as patience_end_by, resolves as resolves_by};

    /// The moment came. A socket that didn't connect in 75,000 ms is closed; so is that of a flow whose peer ended without an octet before its guest answered,
    /// 1,000 ms after it was accepted and after our SYN went out last, unless an acknowledgement is owed; that of a flow whose guest wasn't found by nine
    /// requests and the waits after them; and that of one that is given up. Else what the connection's timer makes owed again is owed from now on.
    /// The guest's hardware address isn't known then unless the flow has it: once it is learnt, `pump` is called with it first, also while the link is blocked.
    /// No call is made but a close. The moment may come directly after a segment of this flow, where that was the last of the turn before and nothing was owed
    /// for it.
    pub fn tick<W: World>(&mut self, world: &mut W, now: u64)
        requires now { now ≤ 2 ^ 62 }
        ensures makes { Makes (W.tells world.old) (W.tells world.new) (λ made. TicksOn self.old self.new now made × (is_at_most_a_close made ≡ true)) }
        ensures stays { Stays self.old self.new }
        // Time doesn't close it then: it would have.
        ensures in_time { HasTime self.new now }
        // A flow that calls a guest owes its request again once the wait for an answer is over.
        ensures waits { is_open_by self.old ≡ true → is_at_connecting self.old.conn.stage ≡ false → resolves_by self.old ≡ true → is_open_by self.new ≡ true
            → self.new ≡ asks_after self.old now }
        // What the connection's timer makes owed again is owed again.
        ensures again { is_open_by self.old ≡ true → is_at_connecting self.old.conn.stage ≡ false → resolves_by self.old ≡ false → is_open_by self.new ≡ true
            → self.new ≡ record self.old { conn = after_tick self.old.conn now } }
        // No timer of it is due then, unless an acknowledgement is owed.
        ensures ahead { (s : Settings) (past : Story) (before : ℕ) → Follows s self.old past before → self.old.conn.ack_owed ≡ false
            → is_open_by self.new ≡ true → IsTimely self.new now }
        ensures closed { is_open_by self.old ≡ false → self.new ≡ self.old }
    {
        if !self.is_open() {
            return;
        }
        if self.connects() {
            self.await_host(world, now);
        } else if self.is_left(now) {
            self.fail(world, now);
        } else if self.resolves() {
            self.await_guest(world, now);
        } else {
            self.expire(world, now);
        }
    }

    // Whether its peer is gone, and the patience with its guest over.
    fn is_left(&self, now: u64) -> bool
        ensures { result ≡ (is_deserted_by self.now && nat_le (patience_end_by self.now) now) }
    {
        self.is_deserted() && self.patience_end() <= now
    }

    // The socket is to connect.
    fn await_host<W: World>(&mut self, world: &mut W, now: u64)
        requires now { now ≤ 2 ^ 62 }
        requires open_yet { is_open_by self.old ≡ true }
        requires connects { is_at_connecting self.old.conn.stage ≡ true }
        ensures makes { Makes (W.tells world.old) (W.tells world.new) (λ made. GoesOnYet self.old self.new now made × (is_at_most_a_close made ≡ true)) }
        ensures stays { Stays self.old self.new }
        ensures in_time { is_open_by self.new ≡ true → now < connect_end_by self.new }
        ensures conn { (self.new.conn ≡ self.old.conn) ⊎ (self.new.conn ≡ reset self.old.conn) }
    {
        if self.connect_end() <= now {
            self.fail(world, now);
        }
    }

    // The guest is asked for its hardware address.
    fn await_guest<W: World>(&mut self, world: &mut W, now: u64)
        requires now { now ≤ 2 ^ 62 }
        requires open_yet { is_open_by self.old ≡ true }
        requires resolves { resolves_by self.old ≡ true }
        ensures makes { Makes (W.tells world.old) (W.tells world.new) (λ made. TicksOn self.old self.new now made × (is_at_most_a_close made ≡ true)) }
        ensures stays { Stays self.old self.new }
        ensures stage { is_open_by self.new ≡ true → self.new.conn.stage ≡ self.old.conn.stage }
        ensures conn { (self.new.conn ≡ self.old.conn) ⊎ (self.new.conn ≡ reset self.old.conn) }
        ensures waits { is_open_by self.new ≡ true → self.new ≡ asks_after self.old now }
    {
        if self.has_asked_enough(now) {
            self.fail(world, now);
        } else {
            self.ask_again(now);
        }
    }

    // Once the wait for an answer is over, a request is owed.
    fn ask_again(&mut self, now: u64)
        ensures { self.new ≡ asks_after self.old now }
    {
        self.asks = self.asks || self.ask_at <= now;
    }

    // Whether it was asked for nine times, and the last wait is over.
    fn has_asked_enough(&self, now: u64) -> bool
        ensures enough { result ≡ (nat_eq self.now.asked 9 && nat_le self.now.ask_at now) }
        ensures few { self.now.asked ≤ 9 }
    {
        self.asked == REQUESTS && self.ask_at <= now
    }

    // The connection's timer may be due.
    fn expire<W: World>(&mut self, world: &mut W, now: u64)
        requires now { now ≤ 2 ^ 62 }
        requires open_yet { is_open_by self.old ≡ true }
        ensures makes { Makes (W.tells world.old) (W.tells world.new) (λ made. GoesOnYet self.old self.new now made × (is_at_most_a_close made ≡ true)) }
        ensures stays { Stays self.old self.new }
        ensures stage { is_open_by self.new ≡ true → self.new.conn.stage ≡ self.old.conn.stage }
        ensures again { is_open_by self.new ≡ true → self.new ≡ record self.old { conn = after_tick self.old.conn now } }
        ensures conn { self.new.conn ≡ after_tick self.old.conn now }
    {
        let change = self.tick_connection(now);
        self.see(world, now, change);
    }

    fn tick_connection(&mut self, now: u64) -> Change
        requires now { now ≤ 2 ^ 62 }
        ensures change { result ≡ change_at_tick self.old.conn now }
        ensures ticked { self.new ≡ record self.old { conn = after_tick self.old.conn now } }
        ensures buffers { HasBuffers self.new.conn self.new.up self.new.down }
    {
        self.conn.tick(now)
    }
}

// It gives way.
impl Spliced {
    ghost use Rattle.flow_splice.specs.Follows.{Follows};
    ghost use Rattle.flow_splice.specs.Splice.{closed, is_open as is_open_by};
    ghost use Rattle.flow_splice.specs.Stays.{Stays};

    /// An open flow gives its place to a SYN of a guest: its socket is closed, and a reset is owed, unless the guest knows of no connection. No other call is
    /// made. It is to have had no sign of life for long enough (`gives_way_at`), and no reset of its guest that was fatal came directly before.
    pub fn give_way<W: World>(&mut self, world: &mut W, now: u64)
        requires now { now ≤ 2 ^ 62 }
        requires open_yet { is_open_by self.old ≡ true }
        ensures makes { Makes (W.tells world.old) (W.tells world.new) (λ made. made ≡ Close self.old.face.number ∷ []) }
        ensures change { self.new ≡ closed (record self.old { conn = reset self.old.conn }) now }
        ensures follows { (s : Settings) (past : Story) (before : ℕ) (directly ended known : Bool) → before ≤ now → may_give_way now past ≡ true
            → follows_reset directly past ≡ false → Follows s self.old past before → Follows s self.new (At now (Closes directly ended known) ∷ past) now }
        ensures stays { Stays self.old self.new }
        ensures closed { is_open_by self.new ≡ false }
    {
        self.fail(world, now);
    }
}
