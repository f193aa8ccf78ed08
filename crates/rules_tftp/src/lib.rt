//! Which file a port of a guest gets, block after block, and what a packet says (RFC 1350; RFC 2347 to 2349): the definitions, in `specs/`. There is no code to run:
//! each function of `laws` is a law.
//!
//! Proved:
//! - No name leaves the folder, and no call asks for another file (`names_stay_in_the_folder`: `parts`, `files`).
//! - A transfer after a packet was there before, or is at the block behind the one that the packet acknowledged, or begins
//!   (`a_block_is_told_after_the_acknowledgement_of_the_one_before`).
//! - A block has the octets that its calls read, from its place on (`the_octets_of_a_block_are_those_read_at_its_place`).
//! - A packet goes again at most five times, the k-th no earlier than k timeouts after it was made, and what goes again is the packet of a transfer that is due
//!   (`a_packet_goes_again_five_times`: `five`, `apart`, `only`).
#![tactic(auto)]

mod laws;

pub use laws::{
    a_block_is_told_after_the_acknowledgement_of_the_one_before, a_packet_goes_again_five_times,
    names_stay_in_the_folder, the_octets_of_a_block_are_those_read_at_its_place,
};

/// The most octets of a packet: what UDP carries in a packet of IPv4 of 1,500 octets, behind heads of 20 and 8.
pub const MOST_PACKET: usize = 1472;
