//! What a server answers a datagram, which sockets may be open for datagrams of guests, and how long: what is said of these is in `specs/`.
//!
//! Proved: `is_life_over` says exactly whether the idle life of a socket is over. All else is definitions.
//!
//! Let through (rt plant): nothing.
#![tactic(auto)]

ghost use Rattle.std.specs.Prelude.{◌≡◌};
ghost use Rattle.rules_udp.specs.Lives.{is_life_over};

use net_octets::{Endpoint, Mac};

/// What a service of the network answers a datagram of a guest or of a peer.
#[derive(Clone, Copy, Debug, PartialEq, Eq)]
pub enum Reply {
    /// Nothing is sent.
    Nothing,
    /// A datagram goes to a guest: its payload has so many octets. Without a hardware address it goes to the one that was learnt for `to`.
    Datagram {
        length: usize,
        from: Endpoint,
        to: Endpoint,
        mac: Option<Mac>,
    },
    /// An unreachable with this code goes back (RFC 792).
    Unreachable(u8),
}

/// How many milliseconds an association lives after its last use.
pub const IDLE_LIFE: u64 = 240_000;

/// An open socket for the datagrams of one port of a guest: its number, the port, the hardware address from which its last datagram came, and the moment of its last use in milliseconds.
#[derive(Clone, Copy, Debug, PartialEq, Eq)]
pub struct Association {
    pub number: u64,
    pub guest: Endpoint,
    pub mac: Mac,
    pub used: u64,
}

/// Whether the idle life, so many milliseconds, of what was last used at one moment is over at another.
pub fn is_life_over(life: u64, used: u64, now: u64) -> bool
    ensures { result ≡ is_life_over life used now }
{
    used <= now && now - used >= life
}
