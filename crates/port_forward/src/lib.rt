//! The forwards: ports of the host whose traffic goes to ports of guests, connections for TCP, datagrams for UDP, in the order in which they were added, each with the
//! socket that was opened for it. What becomes of them is defined in `specs/` of `rules_forward`: Opened, Adding.
//!
//! A port of the host is forwarded once for each protocol, and 32 forwards are open at most. All memory is taken when the list is opened, and no other call takes any:
//! a forward that is removed leaves its room to the next. Beginning with no forward, where 10.0.2.2 is the virtual host:
//!
//! | What is asked | Call | Answer | Open then |
//! |---|---|---|---|
//! | TCP 127.0.0.1:2222 to 10.0.2.15:22, as socket 1 | `listen` of 1 at 127.0.0.1:2222 | added | 1 |
//! | UDP 127.0.0.1:2222 to 10.0.2.15:5353, as socket 2 | `udp_open` of 2 at 127.0.0.1:2222 | added: another protocol | 1, 2 |
//! | TCP 127.0.0.1:2222 to 10.0.2.16:80, as socket 3 | none | `Taken` | 1, 2 |
//! | TCP 127.0.0.1:80 to 10.0.2.2:80, as socket 3 | none | `BadGuest` | 1, 2 |
//! | TCP 127.0.0.1:80 to 10.0.2.15:80, as socket 3 | `listen` of 3 at 127.0.0.1:80, fails | `Refused`; the count of socket faults rose | 1, 2 |
//! | UDP 0.0.0.0:53 to 10.0.2.15:5353, as socket 4 | `udp_open` of 4 at 0.0.0.0:53 | added | 1, 2, 4 |
//! | which socket a datagram of 10.0.2.15:5353 goes out on | none | 2, the first that leads there | 1, 2, 4 |
//! | TCP 127.0.0.1:2222 is removed | `close` of 1 | removed | 2, 4 |
//! | the same again | none | `NotThere` | 2, 4 |
//!
//! Two that differ in the protocol, the address or the port of the host are at different ports (`is_at`): so 0.0.0.0:53 and 127.0.0.1:53 may both be asked for, and
//! whether both can be had says the host.
//!
//! Proved:
//! - `Forwards::add_hostfwd`: over every World why a forward isn't added, the one call that opens its socket, or none where the cause is known before, and one more
//!   at the list's end exactly where that call was Done (`adds`). Where the host refused, the count of socket faults rose, or stands at its last value (`counted`).
//! - `remove_hostfwd` closes the socket of the forward at that port of the host with that protocol, and calls nothing else (`there`); that one alone is gone, the
//!   others stay in order (`list`, `one`). Where there is none it calls nothing (`not_there`).
//! - `at`, `len` (`count`, `few`), `with_socket` and `socket_for` exactly; `Ports`, the same list with the sockets of each protocol by themselves (`over`), keeps
//!   each of these promises. `closes_before`: sockets are closed by rising number. `open`: no forward (`empty`). There is always room for 32 forwards, whatever was
//!   removed before (the type's invariant).
//!
//! Neither: that an insertion which finds room takes no memory is `indexmap`'s word.
//!
//! Let through (rt plant): nothing but values that fill a list before it has any (`Default`).
#![tactic(auto)]

mod by_proto;
mod ports;

ghost use Rattle.std.specs.Prelude.{◌≡◌, ◌≢◌, ◌≤◌, ℕ, ◌+◌, [], ◌∷◌, Some, None, IfOk, IsOk, IsErr, length, slice_get};
ghost use Rattle.std.specs.Result.{result_err};
ghost use Rattle.world_face.specs.Journal.{Close};
ghost use Rattle.world_face.specs.Tells.{Answers, Makes, Rose};
ghost use Rattle.rules_forward.specs.declared.FwdFault.TheVariants.{Refused};
ghost use Rattle.rules_forward.specs.Adding.{Adds, fault_of, opening_of};
ghost use Rattle.rules_forward.specs.Opened.{forward_with, socket_at, socket_for, without};

pub use crate::by_proto::{Ports, closes_before};
use crate::ports::{Lead, Port, forward_of, is_for, port_of, put, remove};
use host_policy::Policy;
use indexmap::IndexMap;
use net_octets::{Endpoint, NoMemory};
use rules_forward::FwdFault;
pub use slirp_settings::Forward;
use slirp_settings::Proto;
use std::alloc::Global;
use std::marker::Model;
use world_face::{Made, World};

/// How many forwards are open at most.
pub const MOST_FORWARDS: usize = 32;

/// No forward has this port of the host, with this protocol.
#[derive(Clone, Copy, Debug, PartialEq, Eq)]
pub struct NotThere;

/// The open forwards. A contract sees a list of pairs: a forward, and the number of its socket.
#[derive(Drop)]
pub struct Forwards {
    ports: IndexMap<Port, Lead>,
}

impl Model for Forwards {
    ghost use Rattle.std.specs.Prelude.{◌≤◌, ◌+◌, List, map};
    ghost use Rattle.indexmap.specs.IndexMap.{index_map_len, spare};
    ghost use Rattle.port_forward.specs.Entries.{opened_of};
    ghost use Rattle.rules_forward.specs.Opened.{Opened, most_forwards};

    ghost Value = { List Opened };

    ghost view = { λ s. map opened_of s.ports.entries };

    ghost invariant = { λ s. (index_map_len s.ports ≤ most_forwards) × (most_forwards ≤ index_map_len s.ports + spare s.ports) };
}

impl Forwards {
    /// No forward is open. All memory that is ever needed is taken here.
    ///
    /// # Errors
    /// `NoMemory` where no memory is left.
    pub fn open(alloc: Global) -> Result<Forwards, NoMemory>
        ensures empty { IfOk result (λ list. list ≡ []) }
    {
        let Ok(ports) = IndexMap::with_capacity(alloc, MOST_FORWARDS) else {
            return Err(NoMemory);
        };
        Ok(Forwards { ports })
    }

    /// Adds a forward at the end: a socket with this number is opened at its port of the host, a listener for TCP, and for UDP one that takes datagrams.
    /// Neither port of the forward is 0.
    ///
    /// # Errors
    /// In this order: `Taken` where a forward has that port of the host with this protocol; `BadGuest` where the address that it leads to isn't a guest's;
    /// `Full` where 32 are open; `Refused` where the host doesn't open the socket. The list is then as it was.
    pub fn add_hostfwd<W: World>(
        &mut self,
        world: &mut W,
        policy: &Policy,
        forward: Forward,
        number: u64,
    ) -> Result<(), FwdFault>
        requires host_port { forward.host.port ≢ 0 }
        requires guest_port { forward.guest.port ≢ 0 }
        ensures adds { Makes (W.tells world.old) (W.tells world.new)
            (Adds (fault_of policy.now forward self.old) forward number self.old self.new (result_err result)) }
        ensures counted { result_err result ≡ Some Refused → Rose (W.tells world.old).faults.socket (W.tells world.new).faults.socket }
    {
        let port = port_of(forward.proto, forward.host);
        if self.ports.contains_key(&port) {
            return Err(FwdFault::Taken);
        }
        if !policy.is_guest(forward.guest.addr) {
            return Err(FwdFault::BadGuest);
        }
        if self.ports.len() >= MOST_FORWARDS {
            return Err(FwdFault::Full);
        }
        match open_port(world, forward.proto, number, forward.host) {
            Made::Done => {
                let lead = Lead {
                    guest: forward.guest,
                    number,
                };
                put(&mut self.ports, port, lead);
                Ok(())
            }
            Made::Failed => Err(FwdFault::Refused),
        }
    }

    /// How many forwards are open, 32 at most.
    pub fn len(&self) -> usize
        ensures count { result ≡ length self.now }
        ensures few { length self.now ≤ 32 }
    {
        self.ports.len()
    }

    /// The forward at a place of the list, counted from 0, and the number of its socket. None exactly where there are no more.
    pub fn at(&self, place: usize) -> Option<(Forward, u64)>
        ensures { result ≡ slice_get self.now place }
    {
        let (port, lead) = self.ports.get_index(place)?;
        Some((forward_of(port, lead), lead.number))
    }

    /// The socket of the first forward of datagrams to this port of a guest. None exactly where there is none.
    pub fn socket_for(&self, guest: Endpoint) -> Option<u64>
        ensures { result ≡ socket_for guest self.now }
    {
        let (_, lead) = self
            .ports
            .iter()
            .find(|(port, lead)| is_for(port, lead, guest))?;
        Some(lead.number)
    }

    /// The forward whose socket has this number. None exactly where there is none.
    pub fn with_socket(&self, number: u64) -> Option<Forward>
        ensures { result ≡ forward_with number self.now }
    {
        let (port, lead) = self.ports.iter().find(|(_, lead)| lead.number == number)?;
        Some(forward_of(port, lead))
    }

    /// Removes the forward of a port of the host, and closes its socket. Connections that came by it go on.
    ///
    /// # Errors
    /// `NotThere` exactly where no forward has that port with this protocol.
    pub fn remove_hostfwd<W: World>(
        &mut self,
        world: &mut W,
        proto: Proto,
        host: Endpoint,
    ) -> Result<(), NotThere>
        ensures list { self.new ≡ without proto host self.old }
        ensures one { IsOk result → length self.new + 1 ≡ length self.old }
        ensures there { (number : ℕ) → socket_at proto host self.old ≡ Some number → IsOk result
            × Makes (W.tells world.old) (W.tells world.new) (λ made. made ≡ Close number ∷ []) }
        ensures not_there { socket_at proto host self.old ≡ None → IsErr result × (W.tells world.new ≡ W.tells world.old) }
    {
        let port = port_of(proto, host);
        let Some(lead) = self.ports.get(&port) else {
            return Err(NotThere);
        };
        world.close(lead.number);
        remove(&mut self.ports, &port);
        Ok(())
    }
}

// Opens a socket at a port of the host: a listener, or one for datagrams.
fn open_port<W: World>(world: &mut W, proto: Proto, number: u64, host: Endpoint) -> Made
    ensures { Answers (W.tells world.old) (W.tells world.new) (opening_of proto number host result) }
{
    match proto {
        Proto::Tcp => world.listen(number, host),
        Proto::Udp => world.udp_open(number, host),
    }
}
