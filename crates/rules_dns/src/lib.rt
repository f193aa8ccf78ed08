//! Which questions to the name server wait for their answer, and how long (RFC 1035): definitions alone, in `specs/Questions`. No call is public.
#![tactic(auto)]

use net_octets::{Endpoint, Mac};

/// How many milliseconds a question waits after its last use.
pub const QUESTION_LIFE: u64 = 10_000;

/// An open socket for one question of a guest's port: its number, the port, the hardware address from which the question came last, its identifier, and the
/// moment of its last use in milliseconds.
#[derive(Clone, Copy, Debug, PartialEq, Eq)]
pub struct Question {
    pub number: u64,
    pub guest: Endpoint,
    pub mac: Mac,
    pub ident: u16,
    pub used: u64,
}
