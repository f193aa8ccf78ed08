//! Which addresses are leased to whom, and how a client's message is answered (RFC 2131): the definitions, in `specs/`, and laws of every history of messages. There is
//! no code to run: each function of `history` is a law.
//!
//! Proved, over every history of messages:
//! - An OFFER is sent only for a DISCOVER, an ACK only for a REQUEST of its address or an INFORM (`each_answer_has_its_reason`: `offers`, `lends`, `informs`, `all`).
//! - A NAK is sent exactly where the rules have one (`a_refusal_is_sent_where_the_rules_have_one`: `only`, `always`).
//! - An address that was leased stays its client's for 86,400 s, unless that gives it up: no other is offered or leased it
//!   (`an_address_that_was_leased_stays_its_clients`).
#![tactic(auto)]

mod history;

pub use history::{
    a_refusal_is_sent_where_the_rules_have_one, an_address_that_was_leased_stays_its_clients,
    each_answer_has_its_reason,
};
use net_octets::{Ip4, Mac};

/// How many addresses are leased.
pub const POOL: usize = 16;

// The kinds of messages (RFC 2132, 9.6).

pub const DISCOVER: u8 = 1;

pub const OFFER: u8 = 2;

pub const REQUEST: u8 = 3;

pub const DECLINE: u8 = 4;

pub const ACK: u8 = 5;

pub const NAK: u8 = 6;

pub const RELEASE: u8 = 7;

pub const INFORM: u8 = 8;

/// What has become of an address, and until which moment, in milliseconds.
#[derive(Clone, Copy, Debug, PartialEq, Eq)]
pub enum Lease {
    /// Nobody has it.
    Free,
    /// It was offered to this hardware address.
    Reserved(Mac, u64),
    /// It is leased to this hardware address.
    Bound(Mac, u64),
    /// A client found it in use, and nobody gets it.
    Declined(u64),
}

/// What a message of a client says.
#[derive(Clone, Copy, Debug, PartialEq, Eq)]
pub struct Message {
    /// The number by which the client knows its reply.
    pub ident: [u8; 4],
    pub flags: [u8; 2],
    /// The address that the client has, or 0.
    pub client: Ip4,
    pub mac: Mac,
    /// Option 53.
    pub kind: u8,
    /// Option 50, the address that the client asks for.
    pub asked: Option<Ip4>,
    /// Option 54, the server that it chose.
    pub server: Option<Ip4>,
}

/// How a message is answered.
#[derive(Clone, Copy, Debug, PartialEq, Eq)]
pub enum Answer {
    /// Not at all.
    Silence,
    /// By an OFFER of the address at this place.
    Offers(usize),
    /// By an ACK with the address at this place.
    Lends(usize),
    /// By an ACK without an address.
    Informs,
    /// By a NAK.
    Refuses,
}

/// What a message leaves of the leases, and how it is answered.
#[derive(Clone, Copy, Debug, PartialEq, Eq)]
pub struct Outcome {
    pub leases: [Lease; POOL],
    pub answer: Answer,
}
