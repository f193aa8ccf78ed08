//! Open sockets for datagrams, each for one port of a guest, that are closed where they weren't used for a while: what is kept of them, and which are closed (`specs/`:
//! Sockets, Closing; how they are kept: Rows, Links). Two crates stand on it: `udp_assoc`, with one socket for each port and a life of 240,000 ms, and `dns_relay`,
//! with one for each port and identifier of a question and a life of 10,000 ms.
//!
//! The list has the longest unused first. A row is the socket's number, the port, the identifier (0 where a port has one socket at most), the hardware address from
//! which the guest's last datagram came, and the moment of its last use. At most 512 are open. With a life of 10,000 ms:
//!
//! | At | What happens | Calls | What is open then |
//! |---|---|---|---|
//! | 0 ms | `open_at` of 7 for 10.0.2.15:4000, 0x1234 | `udp_open` of 7 | 7 (used at 0) |
//! | 900 | `open_at` of 8 for the same port, 0x1235 | `udp_open` of 8 | 7, 8 (used at 900) |
//! | 950 | `sent` on 7 | none | 8, 7 (used at 950) |
//! | 10,800 | `close_idle` | none: 8 is over at 10,900 | 8, 7 |
//! | 10,960 | `close_idle` | `close` of 7, `close` of 8: both are over, by rising number | nothing |
//!
//! By number and by port (`numbered`, `socket_of`) a socket is found by halving, in a row of numbers and in one of keys; a key is the address, the port and the
//! identifier as one number of 64 bits. The order of use is kept as links between numbers (`Order`), so that nothing moves where one is used. None was used before
//! `since`: so `close_idle` costs one subtraction while no life can be over, and a walk over the rows, which stand by rising number, where one may be. Which calls are
//! made and which list they leave is said over any type of rows (`calls_for_room`, `ClosesLeast`, `ClosesAll`): `udp_assoc` and `dns_relay` see the list as their own
//! rows, and that the same is closed of it then is proofs/Mapping.
//!
//! Proved:
//! - At most 512 sockets, the longest unused first: `IdleSockets::new`, `open_at` (the one call, by which a socket more is open or nothing changes: `call`, `done`, `failed`), `close`, `sent`, `received`, `numbered`, `socket_of` (by port and identifier),
//!   `oldest`, `next_due`, `rising` (all numbers in order, none twice: `all`, `rising`, `strict`, `most`), each exactly.
//! - Over every World which of them are closed, and what is left: `make_room` (the longest unused of 512: `calls`, `list`, `room`), `close_idle` (of those whose life
//!   is over the least number first: `closes`, `none`), `close_first` (`closes`, `fewer`).
//!
//! Neither: that a socket whose life isn't over costs no walk.
#![tactic(auto)]

mod closing;
mod order;
mod sockets;

ghost use Rattle.std.specs.Prelude.{◌≡◌, []};

use net_octets::{Endpoint, Ip4, Mac};
pub use sockets::IdleSockets;

/// How many are open at once at most.
pub const MOST_SOCKETS: usize = 512;

/// An open socket of a guest's port: its number, the port, what tells the sockets of one port apart (0 where a port has one at most), the hardware address from
/// which the guest's last datagram came, and the moment of its last use in milliseconds.
#[derive(Clone, Copy)]
pub struct IdleSocket {
    pub number: u64,
    pub guest: Endpoint,
    pub ident: u16,
    pub mac: Mac,
    pub used: u64,
}

impl Default for IdleSocket {
    ghost use Rattle.idle_sockets.specs.Sockets.{no_socket};

    ghost is_default = { λ socket. socket ≡ no_socket };

    /// Socket 0, for no guest, never used.
    fn default() -> IdleSocket {
        IdleSocket {
            number: 0,
            guest: Endpoint {
                addr: Ip4(0),
                port: 0,
            },
            ident: 0,
            mac: Mac([0; 6]),
            used: 0,
        }
    }
}
