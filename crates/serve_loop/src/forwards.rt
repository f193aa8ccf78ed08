// Ports of the host that are given to guests between two turns, and taken back.
ghost use Rattle.std.specs.Prelude.{◌≡◌, ◌≢◌, ◌<◌, ◌≤◌, ◌+◌, ◌^◌, IfSome, ℕ, List, Some, length, true, false, is_some, slice_get};
ghost use Rattle.std.specs.Result.{is_ok, result_err};
ghost use Rattle.world_face.specs.Journal.{Entry};
ghost use Rattle.world_face.specs.Tells.{Brings, Makes, Rose};
ghost use Rattle.slirp_settings.specs.Addresses.{Config};
ghost use Rattle.rules_forward.specs.Adding.{Adds, fault_of};
ghost use Rattle.rules_forward.specs.Opened.{socket_at, without};
ghost use Rattle.rules_forward.specs.declared.FwdFault.TheVariants.{Refused};
ghost use Rattle.slirp_core.specs.Added.{MayAdd, MayRemove, closed_at, number_after};
ghost use Rattle.spec_flows.specs.Book.{book};
ghost use Rattle.slirp_core.specs.Holds.{after};
ghost use Rattle.slirp_core.specs.NextFlow.{IsNextFlow};
ghost use Rattle.serve_loop.specs.Turns.{AttendsNow};

use crate::service::Service;
use net_octets::Endpoint;
use slirp_core::{FwdFault, NotThere};
use slirp_settings::{Forward, Proto};
use spec_flows::Tuple;
use world_face::World;

impl Service {
    /// Gives a port of the host to a guest between two turns: its socket is opened, with the next number. Neither port of the forward is 0.
    ///
    /// # Errors
    /// In this order: `Taken` where a forward has that port of the host with this protocol; `BadGuest` where the address that it leads to isn't a guest's;
    /// `Full` where 32 are open; `Refused` where the host doesn't open the socket. The forwards are then as they were.
    pub fn add_hostfwd<W: World>(&mut self, world: &mut W, forward: Forward) -> Result<(), FwdFault>
        requires number { self.old.slirp.number + 1 < 2 ^ 64 }
        requires host_port { forward.host.port ≢ 0 }
        requires guest_port { forward.guest.port ≢ 0 }
        ensures adds { Makes (W.tells world.old) (W.tells world.new)
            (Adds (fault_of self.old.slirp.config forward self.old.slirp.forwards) forward self.old.slirp.number self.old.slirp.forwards self.new.slirp.forwards (result_err result)) }
        ensures counted { result_err result ≡ Some Refused → Rose (W.tells world.old).faults.socket (W.tells world.new).faults.socket }
        // It may be added after a turn, where the settings have it for the number of its socket.
        ensures makes { (config : Config) (count : ℕ) → 0 < count → MayAdd config self.old.slirp forward → Brings (W.tells world.old) (W.tells world.new)
            (AttendsNow config (after count) false self.old.slirp self.old.link) (AttendsNow config (after count) false self.new.slirp self.new.link) }
        ensures slirp { self.new.slirp
            ≡ record self.old.slirp { number = number_after (result_err result) self.old.slirp.number; forwards = self.new.slirp.forwards } }
        ensures link { self.new.link ≡ self.old.link }
    {
        self.slirp.add_hostfwd(world, forward)
    }

    /// Takes a port of the host back between two turns: its socket is closed, and connections that came by it go on.
    ///
    /// # Errors
    /// `NotThere` exactly where no forward has that port with this protocol.
    pub fn remove_hostfwd<W: World>(
        &mut self,
        world: &mut W,
        proto: Proto,
        host: Endpoint,
    ) -> Result<(), NotThere>
        ensures closes { Makes (W.tells world.old) (W.tells world.new) (λ made. made ≡ closed_at (socket_at proto host self.old.slirp.forwards)) }
        ensures found { is_ok result ≡ is_some (socket_at proto host self.old.slirp.forwards) }
        // It may be taken back after a turn, where it is so by the settings.
        ensures makes { (config : Config) (count : ℕ) → 0 < count → MayRemove config self.old.slirp proto host → Brings (W.tells world.old) (W.tells world.new)
            (AttendsNow config (after count) false self.old.slirp self.old.link) (AttendsNow config (after count) false self.new.slirp self.new.link) }
        ensures slirp { self.new.slirp ≡ record self.old.slirp { forwards = without proto host self.old.slirp.forwards } }
        ensures link { self.new.link ≡ self.old.link }
    {
        self.slirp.remove_hostfwd(world, proto, host)
    }

    /// The port of the host at this place of those that are given to guests, in the order in which they were added, with the number of its socket. `None` exactly
    /// where there are no more.
    pub fn forward(&self, place: usize) -> Option<(Forward, u64)>
        ensures at { result ≡ slice_get self.now.slirp.forwards place }
        ensures few { length self.now.slirp.forwards ≤ 32 }
    {
        self.slirp.forward(place)
    }

    /// The number of the flow in use that comes next after this number, or of the first one, with its two ends. A flow is in use while its socket is open, and
    /// until the reset that it owes its guest is out. It looks at all flows.
    pub fn flow_after(&self, last: Option<u64>) -> Option<(u64, Tuple)>
        ensures drawn { IfSome result (λ next. next.0 < self.now.slirp.number) }
        // By the trace, between two turns.
        ensures next { (config : Config) (count : ℕ) (past : List Entry) → AttendsNow config (after count) false self.now.slirp self.now.link past
            → IsNextFlow last result (book config past).flows }
    {
        self.slirp.flow_after(last)
    }
}
