//! The stream to the guest, over any stream (`host_io`): what comes is read ahead and what goes out is gathered, in large pieces, and every octet is kept in its order;
//! the listener becomes its first guest. Beside it, when a short frame, such as an acknowledgement alone, waits (`Pace`).
//!
//! What a wait may tell of the link, what its calls answer and what becomes of what is written, by why a call failed, is defined in Linking; that every octet is kept
//! in Keeping, over a `Stream` that tells what it has still to give, what it took and what its calls answered; what passes the link in Passing; when a short frame
//! waits in Paces; where the link stands, and what the system is to tell of it, in Places.
//!
//! Proved:
//! - A frame to the guest waits exactly as Paces says (`Pace::keeps`: `answer`, `change`): none of over 58 octets, none once it was let out until the next wait, and
//!   a wait for a link that isn't read, or after 131,072 octets, lets out (`short`, `let_out`, `aside`, `bounded` of `turn`). `Pace::new`, `holds`, `read_on`.
//! - The link is told ready for writing exactly where it doesn't listen and the longest frame finds room, or what is written doesn't go out (`Link::is_writable`); a
//!   frame written then is answered by more than NotYet, but for a short one that waits (`served`), and then the link isn't told. For reading by `is_readable`, or
//!   where octets were read ahead (`is_ahead`). `bears` is how many sockets may be read before what was gathered is written; of the frames that wait `holds`, `turn`,
//!   `let_out`.
//! - The link keeps every octet, over every `Stream` that tells what it gives, takes and answers, by the code that runs on sockets (Keeping). What a read hands out,
//!   and then what is ahead, is what was ahead and what came (`hands` of `read`); one call says what is told, the end exactly where it gave none (`tells`). What the
//!   stream took, and then what waits, is what waited and what is told as taken (`sends`, `tries` of `flush`, `part`): all or nothing (`whole` of `write`), lost where
//!   the peer is gone (`lost`), failing exactly where the link is closed or an earlier write failed (`failed`). At first both are empty (`empty` of `open`). `passes`
//!   of `read`, `write` and `flush` says it of both ways, and that what goes out no more stays so; as `take_peer` and `shut` keep it (`passes`).
//! - Readiness: an event sets what it says (`change` of `note`); what would wait or moved less than it could takes it away, and nothing else (`wakes`, `takes`,
//!   `told`, `ended`). Where the guest takes no octets some wait, and the system is to tell (`watched`, `noted` of `Place::watch`, over `Watched::watch`).
//!   `Link::listen`; `Place::listens` and `has_guest` say where the link stands.
//!
//! Only tested (`worked_edges`): that a guest is taken, a listener's file; by `bench/edge`, ports before a guest came, guests that go.
#![tactic(auto)]

pub mod link;
mod pace;
pub mod place;
mod socket_file;

pub use pace::Pace;
