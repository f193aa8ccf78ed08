//! Kinds of addresses.
ghost use Rattle.std.specs.Prelude.{◌≡◌};
ghost use Rattle.slirp_settings.specs.Classes.{first_octet, is_group_or_reserved, is_loopback, same_endpoint};

use net_octets::{Endpoint, Ip4};

/// Whether two endpoints are one.
pub fn is_same(a: Endpoint, b: Endpoint) -> bool
    ensures { result ≡ same_endpoint a b }
{
    a.addr.0 == b.addr.0 && a.port == b.port
}

/// The first octet of an address.
pub fn first_octet(a: Ip4) -> u32
    ensures { result ≡ first_octet a.0 }
{
    a.0 / (1 << 24)
}

/// Whether an address is in 127/8.
pub fn is_loopback(a: Ip4) -> bool
    ensures { result ≡ is_loopback a.0 }
{
    first_octet(a) == 127
}

/// Whether an address is in 224/4 or 240/4.
pub fn is_group_or_reserved(a: Ip4) -> bool
    ensures { result ≡ is_group_or_reserved a.0 }
{
    a.0 / (1 << 28) == 14 || a.0 / (1 << 28) == 15
}
