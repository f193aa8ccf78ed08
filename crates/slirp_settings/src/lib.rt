//! The settings of the virtual network: their fields, and the range of each.
//!
//! Proved:
//! - `SlirpConfig::check` is Ok exactly where each field is in its range (`ok`, `err`), else the first field in the order of checks that isn't (`first`), for
//!   versions 1 and 2. The usual settings are in range (`SlirpConfig::usual`: `usual`, `sound`). `copied` is the same settings, `Field::name` a field's name as it is
//!   printed.
//! - Of an address, exactly: whether it is in the network (`is_inside`), of one host there (`is_of_one_host`), the host's or the name server's (`is_ours`), a guest's
//!   (`is_guest`); how many the network has (`network_size`); its first octet (`first_octet`), whether it is in 224/4 or 240/4 (`is_group_or_reserved`), or in 127/8
//!   (`is_loopback`). Whether two endpoints are one (`is_same`).
//!
//! Let through (rt plant): nothing but values that fill a list before it has any (`Default`).
#![tactic(auto)]

mod classes;
mod config;
mod fields;
mod ports;
mod ranges;

pub use classes::{first_octet, is_group_or_reserved, is_loopback, is_same};
pub use config::SlirpConfig;
pub use fields::Field;
use net_octets::{Endpoint, Ip4, Prefix};
pub use ports::{CLIENT_PORT, FILES_PORT, LEASES_PORT, NAMES_PORT};

/// A protocol that carries ports.
#[derive(Clone, Copy, Debug, PartialEq, Eq)]
pub enum Proto {
    Tcp,
    Udp,
}

/// A port of the host whose traffic goes to a port of a guest.
#[derive(Clone, Copy, Debug, PartialEq, Eq)]
pub struct Forward {
    pub proto: Proto,
    pub host: Endpoint,
    pub guest: Endpoint,
}

impl Default for Forward {
    /// A forward of no port.
    fn default() -> Forward {
        Forward {
            proto: Proto::Tcp,
            host: NOWHERE,
            guest: NOWHERE,
        }
    }
}

/// A port of the virtual network whose connections go to a port that the host reaches.
#[derive(Clone, Copy, Debug, PartialEq, Eq)]
pub struct GuestFwd {
    pub guest: Endpoint,
    pub host: Endpoint,
}

impl Default for GuestFwd {
    /// A forward of no port.
    fn default() -> GuestFwd {
        GuestFwd {
            guest: NOWHERE,
            host: NOWHERE,
        }
    }
}

/// A network of the outside that guests don't reach.
#[derive(Clone, Copy, Debug, PartialEq, Eq)]
pub struct Denial(pub Prefix);

impl Default for Denial {
    /// The network of all addresses.
    fn default() -> Denial {
        Denial(Prefix {
            net: Ip4(0),
            length: 0,
        })
    }
}

/// No address and no port.
const NOWHERE: Endpoint = Endpoint {
    addr: Ip4(0),
    port: 0,
};
