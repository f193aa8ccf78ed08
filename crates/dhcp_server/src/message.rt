//! Messages of clients (RFC 2131, 2).
ghost use Rattle.std.specs.Prelude.{◌≡◌, ◌+◌, ◌≤◌, length, Ok};
ghost use Rattle.std.specs.Option.{option_and_then};
ghost use Rattle.net_octets.specs.Octets.{part};
ghost use Rattle.tlv_table.specs.Reading.{first_body};
ghost use Rattle.rules_dhcp.specs.Messages.{is_request, one_in, address_in, options_in, message_of, read_message};

use crate::options::{ASKED_ADDRESS, MESSAGE_KIND, SERVER, options_read};
use byteorder::{BigEndian, ByteOrder};
use net_octets::{Ip4, Mac};
use rules_dhcp::Message;
use tlv_table::Fields;

/// The octets before the options.
const HEAD: usize = 240;

/// What begins the options: 99, 130, 83, 99 (RFC 2131, 3).
const COOKIE: u32 = 0x63825363;

/// What the octets say. None where they are no message of a client to a server: the fixed part and the cookie aren't there, it isn't a request over
/// Ethernet, a relay passed it on, or its options are no list with a kind.
pub fn read_message(octets: &[u8]) -> Option<Message>
    ensures { result ≡ read_message octets.now }
{
    if is_request(octets) {
        message_in(octets)
    } else {
        None
    }
}

// What the octets of a request say, where their options are a list with a kind.
fn message_in(octets: &[u8]) -> Option<Message>
    requires { 240 ≤ length octets.now }
    ensures { result ≡ message_of octets.now (options_in octets.now) }
{
    match options_read().read(&octets[HEAD..]) {
        Ok(fields) => message_with(octets, &fields),
        Err(_) => None,
    }
}

fn message_with(octets: &[u8], fields: &Fields<'_, 5>) -> Option<Message>
    requires { 240 ≤ length octets.now }
    ensures { result ≡ message_of octets.now (Ok fields.now) }
{
    match kind_in(fields) {
        Some(kind) => Some(Message {
            ident: four_octets(octets, 4),
            flags: two_octets(octets, 10),
            client: Ip4(BigEndian::read_u32(&octets[12..16])),
            mac: Mac::at(octets, 28),
            kind,
            asked: address_of(fields, ASKED_ADDRESS),
            server: address_of(fields, SERVER),
        }),
        None => None,
    }
}

// The kind of the message, option 53.
fn kind_in(fields: &Fields<'_, 5>) -> Option<u8>
    ensures { result ≡ option_and_then one_in (first_body 53 fields.now) }
{
    match fields.first(MESSAGE_KIND) {
        Some(body) => one_in(body),
        None => None,
    }
}

// The address in an option.
fn address_of(fields: &Fields<'_, 5>, code: u8) -> Option<Ip4>
    ensures { result ≡ option_and_then address_in (first_body code fields.now) }
{
    match fields.first(code) {
        Some(body) => address_in(body),
        None => None,
    }
}

// Whether the fixed part is that of a request over Ethernet which no relay passed on.
fn is_request(octets: &[u8]) -> bool
    ensures { result ≡ is_request octets.now }
{
    octets.len() >= HEAD
        && octets[0] == 1
        && octets[1] == 1
        && octets[2] == 6
        && BigEndian::read_u32(&octets[24..28]) == 0
        && BigEndian::read_u32(&octets[236..HEAD]) == COOKIE
}

// The octet of a body of one.
fn one_in(body: &[u8]) -> Option<u8>
    ensures { result ≡ one_in body.now }
{
    match body {
        [octet] => Some(*octet),
        _ => None,
    }
}

// The address in a body of four octets.
fn address_in(body: &[u8]) -> Option<Ip4>
    ensures { result ≡ address_in body.now }
{
    if body.len() != 4 {
        return None;
    }
    Some(Ip4(BigEndian::read_u32(body)))
}

// The four octets from a place on.
fn four_octets(octets: &[u8], place: usize) -> [u8; 4]
    requires { place + 4 ≤ length octets.now }
    ensures { result ≡ part octets.now place 4 }
{
    let mut four = [0; 4];
    four.copy_from_slice(&octets[place..place + 4]);
    four
}

// The two octets from a place on.
fn two_octets(octets: &[u8], place: usize) -> [u8; 2]
    requires { place + 2 ≤ length octets.now }
    ensures { result ≡ part octets.now place 2 }
{
    let mut two = [0; 2];
    two.copy_from_slice(&octets[place..place + 2]);
    two
}
