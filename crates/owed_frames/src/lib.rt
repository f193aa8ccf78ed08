//! The frames that are owed to a guest and aren't out yet: those of a datagram are cut as they go (RFC 791, 2.3).
//!
//! Proved: the value of an `Outgoing` is their list. `put_arp`, `put_message`, `put_udp` and `put_segment` make it exactly the frames of the packet (`message_frames`,
//! `udp_frames`, `segment_frames`), of a datagram those of its parts in their order, cut for the course's MTU. `frame` is the first of them, `encoded` the same behind
//! its length, `advance` leaves those behind it (`write_next` of the private `Cutting`: `frame`, `none`, `length`), `clear` none. `Outgoing::open` has none, `is_some`
//! says whether it has one, and `datagrams_in` whether a datagram begins in a frame.
//!
//! Let through (rt plant): nothing.
#![tactic(auto)]

mod cutting;
mod outgoing;

pub use outgoing::{Course, Outgoing, datagrams_in};
