//! Datagrams of IPv4 in parts: joining those that came, and cutting those that are too long (RFC 791, 2.3 and 3.2; of overlaps RFC 5722, 3).
//!
//! Proved:
//! - For every list of sets of parts for which a `Reasm` stands (`StandFor`), `Reasm::add`, `tick` and `free` move it as the definition in `ipv4_head` does; `open`
//!   has none. Each answer of `add` exactly by the places of the parts, and with `Whole` the area of that set.
//! - `datagram` is what its parts join to, with the header of the part at the start made that of the whole (`IsJoined`). Parts join to one body at most, and are
//!   whole where they do (`parts_join_to_one_body`). Once it is freed the sets are those that are left (`freed_datagram_leaves`).
//! - `next_due` is the first moment, None exactly where no set waits; after `tick` none that is left is to be dropped yet (`fresh`).
//! - `cut` is exactly the k-th fragment, None exactly where there is none. The fragments of a datagram join to it in every order, each but the last waiting
//!   (`cuts_join`).
#![tactic(auto)]

mod area;
mod cutting;
mod holes;
mod reasm;

pub use cutting::{cut, cuts_join};
pub use reasm::{Added, Reasm, freed_datagram_leaves, parts_join_to_one_body};
