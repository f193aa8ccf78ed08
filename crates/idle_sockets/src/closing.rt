// Sockets are closed, over any World.
ghost use Rattle.std.specs.Prelude.{◌≡◌, ◌<◌, All, Bool, true, false, length};
ghost use Rattle.world_face.specs.Tells.{Makes};
ghost use Rattle.idle_sockets.specs.Sockets.{is_over, most_sockets, number_of};
ghost use Rattle.idle_sockets.specs.Closing.{calls_for_room, with_room, ClosesAll, ClosesLeast};
ghost use Rattle.idle_sockets.specs.declared.IdleSocket.{IdleSocket as AnIdleSocket};

use crate::IdleSockets;
use world_face::World;

impl IdleSockets {
    /// Where as many are open as may be, the longest unused one is closed.
    pub fn make_room<W: World>(&mut self, world: &mut W)
        ensures calls { Makes (W.tells world.old) (W.tells world.new) (λ made. made ≡ calls_for_room number_of self.old) }
        ensures list { self.new ≡ with_room number_of self.old }
        ensures room { length self.new < most_sockets }
    {
        if self.is_full() {
            if let Some(oldest) = self.oldest() {
                world.close(oldest.number);
                self.close(oldest.number);
            }
        }
    }

    /// Closes those whose idle life, so many milliseconds, is over at this moment, by rising number.
    pub fn close_idle<W: World>(&mut self, world: &mut W, now: u64, life: u64)
        ensures closes { Makes (W.tells world.old) (W.tells world.new) (ClosesAll number_of (is_over life now) self.old self.new) }
        ensures none { All (λ s. is_over life now s ≡ false) self.new }
        // Each that is left was there.
        ensures among { (test : AnIdleSocket → Bool) → All (λ s. test s ≡ true) self.old → All (λ s. test s ≡ true) self.new }
    {
        while self.close_next_idle(world, now, life) {}
    }

    // Closes the one with the least number of those whose idle life is over, and answers whether there was one.
    fn close_next_idle<W: World>(&mut self, world: &mut W, now: u64, life: u64) -> bool
        ensures closes { Makes (W.tells world.old) (W.tells world.new) (ClosesLeast number_of (is_over life now) result self.old self.new) }
        ensures fewer { result ≡ true → length self.new < length self.old }
        ensures none { result ≡ false → All (λ s. is_over life now s ≡ false) self.new }
        ensures among { (test : AnIdleSocket → Bool) → All (λ s. test s ≡ true) self.old → All (λ s. test s ≡ true) self.new }
    {
        let Some(number) = self.idle(now, life) else {
            return false;
        };
        world.close(number);
        self.close(number);
        true
    }

    /// Closes the one with the least number, and answers whether there was one.
    pub fn close_first<W: World>(&mut self, world: &mut W) -> bool
        ensures closes { Makes (W.tells world.old) (W.tells world.new) (ClosesLeast number_of (λ s. true) result self.old self.new) }
        ensures fewer { result ≡ true → length self.new < length self.old }
        ensures among { (test : AnIdleSocket → Bool) → All (λ s. test s ≡ true) self.old → All (λ s. test s ≡ true) self.new }
    {
        let Some(number) = self.least() else {
            return false;
        };
        world.close(number);
        self.close(number);
        true
    }
}
