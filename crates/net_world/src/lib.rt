//! The real outside behind the trait: sockets by readiness, files, and the clock. The link is read and written in large pieces, and the system is asked what is ready
//! only where nothing is known to be. What each call is on the system says docs/ARCHITECTURE.md.
//!
//! What is picked from the wants, and what a list that begins with the link is, is defined in `poll_list` (Picks); what many calls in a row do in Orders and Recording;
//! what is told as ready in Telling; what a listener gives in Accepting; how failures are counted in Faults; sockets in Slots and Tables;
//! how long a wait lasts in Lasting.
//!
//! Proved:
//! - `NetWorld`, which `open` makes with all its memory, is a World that tells nothing but its counts: each answer is one that a World may give, and each call raises
//!   the count of its kind exactly where it fails (`counts`).
//! - Each of them returns, as far as the system's calls do: none asks for `Wait`, the leave to block or to run on. How long `wait` blocks it tells `mio`'s `poll`.
//! - What a wait reports is picked from the wants, in their order, in directions that were wanted (`picked`), and is ready (`ready`, Telling). The link stands first
//!   in each direction in which it is wanted and known to be ready (`link` of `gather`). Gathering tells each socket that is wanted for writing and ready (`writes`),
//!   of those for reading at most as many as the link bears (`most`), and of wants in their order all where no more are ready (`reads`), else one at least (`some`). No
//!   short frame waits when the system is asked (`out`).
//! - Of the octets that pass the link each of the edge's calls puts and hands out what it tells, and no more (`passes`): so over a trace
//!   (`what_a_record_wrote_went_out_in_order`, `what_came_a_record_read_in_order`, by `what_is_put_goes_out_in_order`, `what_comes_is_handed_out_in_order`). What a
//!   connection's calls carry (`carries` of `host_io`) they carry over a trace (`what_a_record_wrote_to_a_connection_it_got`,
//!   `what_a_connection_gave_its_reads_brought`).
//! - A connection that came stands under its number (`accepts`), comes with its peer's own endpoint (`came` of `came_from`), and NotYet is told only where the listener
//!   said so (`tells` of `accept_by`). The moment never falls (`moment` of `Edge::wait`), and once the system was asked one look at the clock brings its time into it, over
//!   any clock that tells (`looks` of `Edge::ask`).
//! - Sockets (Tables), over any stream: a call is on the socket that its number finds, and all others stay (`reads`, `writes`, `receives`, `takes`, `asks`, `none`,
//!   `opened`; of `close` `gone`, `others`). Exactly those that may be read are listed, in order (`readable`); an event is noted at its own socket alone (`noted`), and
//!   what is known is told (`found`).
//! - What is left of a wait's time is none where something is ready, else up to its end; the wait is over once that has come; the link is wanted for reading where its
//!   want, the first, says so (Lasting: `time_left`, `end_of`, `is_over`, `is_link_read`). A file is kept under its whole name, or not at all (`kept`, `long`).
//!
//! Only tested (`worked_edges`): that a wait lasts that long, files. Neither: what the kernel does with octets, and when it wakes us; that a socket is registered there;
//! how often a wait tells what is known.
//!
//! Let through (rt plant): a call of `NetWorld` that isn't the edge's, since it shows its counts alone.
#![tactic(auto)]

mod counting;
mod edge;
mod files;
mod gathering;
mod laws;
mod net_world;
mod ready_list;
mod slot;
mod sockets;

pub use laws::{
    what_a_connection_gave_its_reads_brought, what_a_record_wrote_to_a_connection_it_got,
    what_a_record_wrote_went_out_in_order, what_came_a_record_read_in_order,
    what_comes_is_handed_out_in_order, what_is_put_goes_out_in_order,
};
pub use net_world::NetWorld;
