//! What the system's sockets and clock are called by: octets on their way through a buffer of a fixed size, single calls on sockets, with what each tells and what a
//! socket is known to be ready for then, and the moments of a World, which never fall and stand where the system's monotonic clock tells none.
//!
//! A call that a signal interrupts is made again, 64 times at most, and the answer is `Interrupted` where a signal came each time. No contract sees a signal: that a
//! call was made again is shown by a test of `worked_edges`. A moment is in milliseconds of that clock since the World was opened, up to 2^62; one is asked for at each
//! wait that asks the system. What went out of a buffer leaves no room until the rest is moved to the front. Where an event tells urgent
//! octets, an end or a fault, the connection is read until a read brings nothing.
//!
//! Proved, of `Buffer`:
//! - It holds exactly what was put and not yet taken, in order, and has the room of its opening, less what is held and what went out since it was settled last:
//!   `open`, `is_empty`, `room`, `take`, `put`, `settle`. Octets are put exactly where all find room (`fits`).
//! - Over every `Stream`, as far as it tells: one call is made (`called`), what is read into it is what the stream gave, and what is written out of it is what it
//!   loses (`came` of `fill`, `went` of `drain`), while the other direction stays. Where there was room, nothing came only at the end (`ended`).
//!
//! Of `Moments`, over any clock (`Ticks`), as far as it tells: they begin at what one look told (`starts` of `begin`). By one look the moment becomes the later of what
//! it was and the time since then, and stays where the clock told no start or no time (`looks` of `ask`); so it never falls (`rises`). `Ticks::instant`, `last`.
//!
//! Of calls on sockets, over any `Stream` (`read`, `write`) and `Datagrams` (`send_to`, `recv_from`):
//! - A connection's Done n are the n octets that its stream gave or took, its End is the stream's (`carries`, `tells` of `stream_calls::read` and `write`); an end
//!   shuts writing alone (`end`). What is told as sent was one datagram, whole (`sends` of `datagram_calls::send`); what came is the first that waited, whole where
//!   there was room (`receives` of `receive`).
//! - Readiness: an event sets what it says (`change` of `note`); what would wait or moved less than it could takes it away, and nothing else (`tells`, `kept`,
//!   `rests`), while urgent octets are read on (`goes_on`).
//! - `Shuts::shutdown`, `Accepts::accept` and `Delays::set_nodelay` are one call each, as far as the socket tells (`called`); `send_at_once` is such a call, and asks that
//!   all goes out at once.
//! - What the system is told has an endpoint's address and port (`address`), and what it tells is an endpoint, by its own two, exactly where it is of version 4
//!   (`endpoint`): so of an endpoint's address it is that endpoint. Interrupted is a call that failed so, and no other (`kind` of `is_interrupted`).
//!
//! Only tested (`worked_edges`): that an interrupted call is made again; that the system's clock is looked at; that a connection of the system is set so by
//! `send_at_once`. Neither: what the system does then.
//!
//! Let through (rt plant): a call on the system's sockets, or a look at its clock, that isn't made, since they tell nothing.
#![tactic(auto)]

pub mod again;
mod buffer;
mod clock;
pub mod datagram_calls;
mod datagrams;
mod endpoints;
mod ends;
mod stream;
pub mod stream_calls;

pub use buffer::Buffer;
pub use clock::{Moments, Ticks};
pub use datagrams::Datagrams;
pub use endpoints::{address, endpoint, send_at_once};
pub use ends::{Accepts, Delays, Shuts};
pub use stream::Stream;
