// What is read of a message: the header's identifier, and whether it asks or answers (RFC 1035, 4.1.1).
ghost use Rattle.std.specs.Prelude.{◌≡◌, ◌≤◌, length};
ghost use Rattle.rules_dns.specs.Questions.{ident_in, is_answer, is_answered, is_question};

use byteorder::{BigEndian, ByteOrder};
use net_octets::Endpoint;
use rules_dns::Question;

/// The octets of a header.
const HEAD: usize = 12;

/// The first bit of the flags, which an answer has.
const ANSWER: u8 = 0x80;

/// Whether octets are a question: a header of 12 octets, and not the bit of an answer (RFC 1035, 4.1.1).
pub fn is_question(octets: &[u8]) -> bool
    ensures { result ≡ is_question octets.now }
{
    octets.len() >= HEAD && octets[2] < ANSWER
}

/// Whether octets are an answer: a header, and its bit.
fn is_answer(octets: &[u8]) -> bool
    ensures { result ≡ is_answer octets.now }
{
    octets.len() >= HEAD && octets[2] >= ANSWER
}

/// The identifier of a message, by which its answer is known.
pub(crate) fn ident_in(octets: &[u8]) -> u16
    requires { 12 ≤ length octets.now }
    ensures { result ≡ ident_in octets.now }
{
    BigEndian::read_u16(&octets[..2])
}

/// Whether a datagram of a peer answers a question: it comes from the resolver, is an answer, and has the identifier (RFC 1035, 7.3; RFC 5452, 9.1).
pub(crate) fn is_answered(
    resolver: Option<Endpoint>,
    question: &Question,
    peer: Endpoint,
    octets: &[u8],
) -> bool
    ensures { result ≡ is_answered resolver question.now peer octets.now }
{
    resolver.is_some_and(|resolver| peer == resolver)
        && is_answer(octets)
        && ident_in(octets) == question.ident
}
