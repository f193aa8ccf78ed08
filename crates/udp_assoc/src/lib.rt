//! The sockets on which datagrams of guests go out and their answers come (RFC 768): which is for which port of a guest, and the calls on them, over any World.
//!
//! Proved: which calls each makes, what becomes of the list of associations and what is answered, exactly: `Assocs::guest` (`relays`: on the socket of a forward, on
//! that of the port, or on a new one, for which the longest unused of 512 is closed), `host` (`hears`: one receipt, on the socket of a forward or of an association,
//! and none on another; `fits`), `tick` (`closes`: of those whose idle life is over the least number first; `none`), `close_first` (`closes`, `fewer`). None of them
//! changes the address (`bind`). `Assocs::new`, `socket` (the k-th by rising number), `rising` (`all`, `rising`, `strict`, `most`), `oldest`, `next_due`.
//!
//! Let through (rt plant): nothing.
#![tactic(auto)]

mod sockets;

pub use sockets::{Assocs, OutboundView};
