//! The open forwards told apart by their protocol.
ghost use Rattle.std.specs.Prelude.{◌≡◌, ◌≢◌, ◌≤◌, ◌+◌, [], ◌∷◌, ℕ, nat_lt, Some, None, IfOk, IsErr, IsOk, length, slice_get};
ghost use Rattle.std.specs.Result.{result_err};
ghost use Rattle.world_face.specs.Journal.{Close};
ghost use Rattle.world_face.specs.Tells.{Makes, Rose};
ghost use Rattle.slirp_settings.specs.Ranges.{same_proto};
ghost use Rattle.rules_forward.specs.declared.FwdFault.TheVariants.{Refused};
ghost use Rattle.rules_forward.specs.Adding.{Adds, fault_of};
ghost use Rattle.rules_forward.specs.Opened.{forward_with, socket_at, socket_for, sockets_over, without};

use crate::{Forwards, NotThere};
use arrayvec::ArrayVec;
use host_policy::Policy;
use net_octets::{Endpoint, NoMemory};
use rules_forward::FwdFault;
use slirp_settings::{Forward, Proto};
use std::alloc::Global;
use std::marker::Model;
use world_face::World;

/// The open forwards, and the numbers of their sockets by protocol. Forwards change only where one is opened or closed, and what is waited for is asked at every
/// turn: so the numbers are kept. A contract sees the list of forwards.
#[derive(Drop)]
pub struct Ports {
    list: Forwards,
    listeners: ArrayVec<u64, 32>,
    carriers: ArrayVec<u64, 32>,
}

impl Model for Ports {
    ghost use Rattle.std.specs.Prelude.{◌≡◌, ◌≤◌, List, length};
    ghost use Rattle.slirp_settings.specs.declared.Proto.TheVariants.{Tcp, Udp};
    ghost use Rattle.rules_forward.specs.Opened.{Opened, sockets_over};

    ghost Value = { List Opened };

    ghost view = { λ p. p.list };

    ghost invariant = { λ p. (p.listeners.items ≡ sockets_over Tcp p.list) × (p.carriers.items ≡ sockets_over Udp p.list) × (length p.list ≤ 32) };
}

impl Ports {
    /// No forward is open. All memory that is ever needed is taken here.
    ///
    /// # Errors
    /// `NoMemory` where no memory is left.
    pub fn open(alloc: Global) -> Result<Ports, NoMemory>
        ensures empty { IfOk result (λ ports. ports ≡ []) }
    {
        let list = Forwards::open(alloc)?;
        let mut listeners = ArrayVec::new();
        let mut carriers = ArrayVec::new();
        list_over(Proto::Tcp, &list, &mut listeners);
        list_over(Proto::Udp, &list, &mut carriers);
        Ok(Ports {
            list,
            listeners,
            carriers,
        })
    }

    /// The numbers of the sockets with this protocol, in the order in which they were opened.
    pub fn over(&self, proto: Proto) -> &[u64]
        ensures sockets { result.now ≡ sockets_over proto self.now }
        ensures few { length self.now ≤ 32 }
    {
        match proto {
            Proto::Tcp => self.listeners.as_slice(),
            Proto::Udp => self.carriers.as_slice(),
        }
    }

    /// The forward at a place of the list, counted from 0, and the number of its socket. None exactly where there are no more.
    pub fn at(&self, place: usize) -> Option<(Forward, u64)>
        ensures at { result ≡ slice_get self.now place }
        ensures few { length self.now ≤ 32 }
    {
        self.list.at(place)
    }

    /// The forward whose socket has this number. None exactly where there is none.
    pub fn with_socket(&self, number: u64) -> Option<Forward>
        ensures { result ≡ forward_with number self.now }
    {
        self.list.with_socket(number)
    }

    /// The socket of the first forward of datagrams to this port of a guest. None exactly where there is none.
    pub fn socket_for(&self, guest: Endpoint) -> Option<u64>
        ensures { result ≡ socket_for guest self.now }
    {
        self.list.socket_for(guest)
    }

    /// Adds a forward at the end, on a socket with this number.
    ///
    /// # Errors
    /// As `Forwards::add_hostfwd`.
    pub fn add_hostfwd<W: World>(
        &mut self,
        world: &mut W,
        policy: &Policy,
        forward: Forward,
        socket: u64,
    ) -> Result<(), FwdFault>
        requires host_port { forward.host.port ≢ 0 }
        requires guest_port { forward.guest.port ≢ 0 }
        ensures adds { Makes (W.tells world.old) (W.tells world.new)
            (Adds (fault_of policy.now forward self.old) forward socket self.old self.new (result_err result)) }
        ensures counted { result_err result ≡ Some Refused → Rose (W.tells world.old).faults.socket (W.tells world.new).faults.socket }
    {
        let added = self.list.add_hostfwd(world, policy, forward, socket);
        list_over(Proto::Tcp, &self.list, &mut self.listeners);
        list_over(Proto::Udp, &self.list, &mut self.carriers);
        added
    }

    /// Removes the forward of a port of the host, and closes its socket.
    ///
    /// # Errors
    /// As `Forwards::remove_hostfwd`.
    pub fn remove_hostfwd<W: World>(
        &mut self,
        world: &mut W,
        proto: Proto,
        host: Endpoint,
    ) -> Result<(), NotThere>
        ensures list { self.new ≡ without proto host self.old }
        ensures one { IsOk result → length self.new + 1 ≡ length self.old }
        ensures there { (number : ℕ) → socket_at proto host self.old ≡ Some number → IsOk result × Makes (W.tells world.old) (W.tells world.new)
            (λ made. made ≡ Close number ∷ []) }
        ensures not_there { socket_at proto host self.old ≡ None → IsErr result × (W.tells world.new ≡ W.tells world.old) }
    {
        let removed = self.list.remove_hostfwd(world, proto, host);
        list_over(Proto::Tcp, &self.list, &mut self.listeners);
        list_over(Proto::Udp, &self.list, &mut self.carriers);
        removed
    }
}

/// Whether a socket is closed before another at the end of a run: they are closed by rising number, a forward's among them.
pub fn closes_before(number: u64, other: u64) -> bool
    ensures { result ≡ nat_lt number other }
{
    number < other
}

// Puts the numbers of the sockets with this protocol into a list, in the order in which they were opened, in place of what it held.
fn list_over(proto: Proto, forwards: &Forwards, numbers: &mut ArrayVec<u64, 32>)
    ensures sockets { numbers.new.items ≡ sockets_over proto forwards.now }
    ensures few { length forwards.now ≤ 32 }
{
    numbers.clear();
    for place in 0..forwards.len() {
        if let Some((forward, number)) = forwards.at(place) {
            if is_over(proto, &forward) {
                let _ = numbers.try_push(number);
            }
        }
    }
}

// Whether a forward is for this protocol.
fn is_over(proto: Proto, forward: &Forward) -> bool
    ensures { result ≡ same_proto proto forward.now.proto }
{
    proto == forward.proto
}
