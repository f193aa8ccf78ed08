// The ends of a connection or a datagram, as the system has them.
ghost use Rattle.std.specs.Prelude.{◌≡◌, true};
ghost use Rattle.host_io.specs.Endpoints.{endpoint_of};
ghost use Rattle.host_io.specs.Ends.{IsSet};

use crate::Delays;
use std::net::{Ipv4Addr, SocketAddr, SocketAddrV4};
use world_face::{Endpoint, Ip4};

/// Has the system send what is written at once, where it can, in place of waiting for more (RFC 1122, 4.2.3.4).
pub fn send_at_once<D: Delays>(stream: &mut D)
    ensures { IsSet (D.nodelay stream.old) (D.nodelay stream.new) true }
{
    let _set = stream.set_nodelay(true);
}

/// An endpoint, as the system has it: of version 4.
pub fn address(of: Endpoint) -> SocketAddr
    // It has this address and this port.
    ensures { endpoint_of result ≡ Some of }
{
    SocketAddr::V4(SocketAddrV4::new(Ipv4Addr::from_bits(of.addr.0), of.port))
}

/// An endpoint of version 4 that the system told; None where it is one of version 6.
pub fn endpoint(of: SocketAddr) -> Option<Endpoint>
    ensures { result ≡ endpoint_of of }
{
    match of {
        SocketAddr::V4(of) => Some(Endpoint {
            addr: Ip4(of.ip().to_bits()),
            port: of.port(),
        }),
        SocketAddr::V6(_) => None,
    }
}
