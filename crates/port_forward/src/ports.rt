// The list as a map from ports of the host, which keeps the order in which they came.
ghost use Rattle.std.specs.Prelude.{◌≡◌, ℕ, ◌+◌, ◌≤◌, ◌<◌, [], ◌∷◌, ◌++◌, not, filter, length, IsSome, None};
ghost use Rattle.std.specs.List.{IsDistinct};
ghost use Rattle.std.specs.Map.{keys_of};
ghost use Rattle.indexmap.specs.IndexMap.{get, index_map_len, spare};
ghost use Rattle.port_forward.specs.Entries.{opened_of, port_of, same_port};
ghost use Rattle.rules_forward.specs.Opened.{leads_to, most_forwards};

use crate::{Forward, MOST_FORWARDS};
use arrayvec::ArrayVec;
use indexmap::IndexMap;
use net_octets::{Endpoint, Ip4};
use slirp_settings::Proto;

/// A port of the host with its protocol.
#[derive(Clone, Copy, Debug, Default, PartialEq, Eq, Hash)]
pub(crate) struct Port {
    datagrams: bool,
    address: u32,
    port: u16,
}

/// Where a port of the host leads: the port of a guest, and the number of the socket.
#[derive(Clone, Copy, Debug)]
pub(crate) struct Lead {
    pub guest: Endpoint,
    pub number: u64,
}

impl Default for Lead {
    /// It leads nowhere.
    fn default() -> Lead {
        Lead {
            guest: Endpoint {
                addr: Ip4(0),
                port: 0,
            },
            number: 0,
        }
    }
}

/// The port of the host with this protocol.
pub(crate) fn port_of(proto: Proto, host: Endpoint) -> Port
    ensures { result ≡ port_of proto host }
{
    Port {
        datagrams: proto == Proto::Udp,
        address: host.addr.0,
        port: host.port,
    }
}

/// The forward that stands at the port.
pub(crate) fn forward_of(port: &Port, lead: &Lead) -> Forward
    ensures { result ≡ (opened_of (port.now, lead.now)).0 }
{
    Forward {
        proto: if port.datagrams {
            Proto::Udp
        } else {
            Proto::Tcp
        },
        host: Endpoint {
            addr: Ip4(port.address),
            port: port.port,
        },
        guest: lead.guest,
    }
}

/// Whether datagrams that come to the port go to this port of a guest.
pub(crate) fn is_for(port: &Port, lead: &Lead, guest: Endpoint) -> bool
    ensures { result ≡ leads_to guest (opened_of (port.now, lead.now)) }
{
    port.datagrams && lead.guest == guest
}

/// Puts a port that isn't there behind the others, where there is room.
pub(crate) fn put(ports: &mut IndexMap<Port, Lead>, port: Port, lead: Lead)
    requires absent { get same_port ports.old port ≡ None }
    requires some_room { 0 < spare ports.old }
    ensures entries { ports.new.entries ≡ ports.old.entries ++ (port, lead) ∷ [] }
    ensures room { spare ports.old ≤ spare ports.new + 1 }
{
    let _ = ports.insert(port, lead);
}

/// Takes a port out. The others keep their order, and all room stays.
///
/// Of `shift_remove` only the room that was left before is known to be left, not that of the port; of `clear` it is all. So the map is emptied and filled anew.
pub(crate) fn remove(ports: &mut IndexMap<Port, Lead>, port: &Port)
    requires few { index_map_len ports.old ≤ most_forwards }
    ensures entries { ports.new.entries ≡ filter (λ e. not (same_port port.now e.0)) ports.old.entries }
    ensures fewer { index_map_len ports.new ≤ index_map_len ports.old }
    ensures one { IsSome (get same_port ports.old port.now) → index_map_len ports.new + 1 ≡ index_map_len ports.old }
    ensures room { index_map_len ports.old + spare ports.old ≤ index_map_len ports.new + spare ports.new }
{
    let kept = others(ports, port);
    refill(ports, kept.as_slice());
}

// All but this port.
fn others(ports: &IndexMap<Port, Lead>, port: &Port) -> ArrayVec<(Port, Lead), MOST_FORWARDS>
    requires few { index_map_len ports.now ≤ most_forwards }
    ensures entries { result.items ≡ filter (λ e. not (same_port port.now e.0)) ports.now.entries }
    ensures distinct { IsDistinct same_port (keys_of result.items) }
    ensures fewer { length result.items ≤ index_map_len ports.now }
    ensures one { IsSome (get same_port ports.now port.now) → length result.items + 1 ≡ index_map_len ports.now }
{
    let mut kept = ArrayVec::new();
    for (other, lead) in ports.iter() {
        if other != port {
            kept.push((*other, *lead));
        }
    }
    kept
}

// Empties the map, and puts these into it.
fn refill(ports: &mut IndexMap<Port, Lead>, kept: &[(Port, Lead)])
    requires distinct { IsDistinct same_port (keys_of kept.now) }
    requires fewer { length kept.now ≤ index_map_len ports.old }
    ensures entries { ports.new.entries ≡ kept.now }
    ensures room { index_map_len ports.old + spare ports.old ≤ index_map_len ports.new + spare ports.new }
{
    ports.clear();
    for (port, lead) in kept {
        put(ports, *port, *lead);
    }
}
