//! Packets of guests (RFC 1350, 5), and the texts of a request.
ghost use Rattle.std.specs.Prelude.{◌≡◌, ◌==◌, ◌<◌, ◌≤◌, [], length, map, min, position, true, IfSome};
ghost use Rattle.std.specs.Option.{option_map};
ghost use Rattle.std.specs.List.{list_all};
ghost use Rattle.rules_tftp.specs.Packets.{is_digit, is_name, is_part, is_printable, number_from, number_in, packet_in, parts_from, request_in, says, small};
ghost use Rattle.tftp_server.specs.Reading.{are_pairs, cut, first_pair, name_taken, packet_of, pair_of, parts_of, request_of_view};

use crate::MOST_NAME;
use byteorder::{BigEndian, ByteOrder};

/// Opcodes: a read request (RFC 1350, 5).
const READ: u16 = 1;

/// A write request (RFC 1350, 5).
const WRITE: u16 = 2;

/// An acknowledgement of a block (RFC 1350, 5).
const ACK: u16 = 4;

/// An error, which ends a transfer (RFC 1350, 5).
const ERROR: u16 = 5;

/// What a guest's packet says.
#[derive(Clone, Copy, Debug, PartialEq, Eq)]
pub enum PacketView<'a> {
    /// It asks for a file, by the texts that follow.
    Asks(&'a [u8]),
    /// It asks to write one.
    AsksToWrite,
    /// It acknowledges a block.
    Acknowledges(u16),
    /// It gives up.
    GivesUp,
    /// Nothing that is heard: its opcode is another, or it is too short.
    Unheard,
}

/// What the octets of a packet say.
pub fn read_packet(octets: &[u8]) -> PacketView<'_>
    ensures { packet_of result ≡ packet_in octets.now }
{
    if octets.len() < 2 {
        return PacketView::Unheard;
    }
    let opcode = BigEndian::read_u16(&octets[0..2]);
    if opcode == READ {
        return PacketView::Asks(&octets[2..]);
    }
    if opcode == WRITE {
        return PacketView::AsksToWrite;
    }
    if octets.len() < 4 {
        return PacketView::Unheard;
    }
    if opcode == ACK {
        return PacketView::Acknowledges(BigEndian::read_u16(&octets[2..4]));
    }
    if opcode == ERROR {
        return PacketView::GivesUp;
    }
    PacketView::Unheard
}

/// A read request: the name of a file, the mode, and the octets of its options, texts two and two.
#[derive(Clone, Copy, Debug, PartialEq, Eq)]
pub struct RequestView<'a> {
    pub name: &'a [u8],
    pub mode: &'a [u8],
    pub options: &'a [u8],
}

/// What the texts of a read request say. None where a name, a mode and pairs of texts aren't there, each ended by a 0.
pub fn read_request(octets: &[u8]) -> Option<RequestView<'_>>
    ensures request { option_map request_of_view result ≡ request_in octets.now }
    ensures pairs { IfSome result (λ r. are_pairs r.options.now ≡ true) }
{
    let (name, rest) = cut(octets, 0)?;
    let (mode, options) = cut(rest, 0)?;
    if !are_pairs(options) {
        return None;
    }
    Some(RequestView {
        name,
        mode,
        options,
    })
}

/// An option of a request, its value, and what stands behind it.
#[derive(Clone, Copy, Debug, PartialEq, Eq)]
pub struct PairView<'a> {
    pub name: &'a [u8],
    pub value: &'a [u8],
    pub rest: &'a [u8],
}

/// The first two texts. None where there aren't two, each ended by a 0.
pub fn first_pair(octets: &[u8]) -> Option<PairView<'_>>
    ensures pair { option_map pair_of result ≡ first_pair octets.now }
    ensures fewer { IfSome result (λ pair. length pair.rest.now < length octets.now) }
{
    let (name, rest) = cut(octets, 0)?;
    let (value, rest) = cut(rest, 0)?;
    Some(PairView { name, value, rest })
}

// Whether texts come two and two, each ended by a 0.
fn are_pairs(octets: &[u8]) -> bool
    ensures { result ≡ are_pairs octets.now }
{
    let mut rest = octets;
    while let Some(pair) = first_pair(rest) {
        rest = pair.rest;
    }
    rest.is_empty()
}

// What stands before the first such octet, and what behind it. None where there is none.
fn cut(octets: &[u8], octet: u8) -> Option<(&[u8], &[u8])>
    ensures parts { option_map parts_of result ≡ cut octet octets.now }
    ensures fewer { IfSome result (λ parts. length parts.1.now < length octets.now) }
{
    let at = place_of(octets, octet)?;
    Some((&octets[..at], &octets[at + 1..]))
}

fn place_of(octets: &[u8], octet: u8) -> Option<usize>
    ensures { result ≡ position (λ x. x == octet) octets.now }
{
    octets.iter().position(|x| *x == octet)
}

/// Whether a text says a word in small letters, which capitals say as well.
pub fn says(text: &[u8], word: &[u8]) -> bool
    requires { map small word.now ≡ word.now }
    ensures { result ≡ says word.now text.now }
{
    text.eq_ignore_ascii_case(word)
}

/// The name of a file in the folder: at most 255 printable octets of ASCII, whose parts between slashes are neither empty, nor `.`, nor `..`. None where it is another.
pub fn name_in(octets: &[u8]) -> Option<&str>
    ensures name { option_map (λ name. name.now) result ≡ name_taken octets.now }
    ensures few { IfSome result (λ name. length name.now ≤ 255) }
{
    if !is_name(octets) {
        return None;
    }
    match std::str::from_utf8(octets) {
        Ok(name) => Some(name),
        Err(_) => unreachable!(),
    }
}

fn is_name(octets: &[u8]) -> bool
    ensures { result ≡ is_name octets.now }
{
    octets.len() <= MOST_NAME && are_printable(octets) && are_parts(octets)
}

fn are_printable(octets: &[u8]) -> bool
    ensures { result ≡ list_all is_printable octets.now }
{
    octets.iter().all(|x| 0x20 <= *x && *x <= 0x7e)
}

// Whether each part between slashes stays in the folder.
fn are_parts(octets: &[u8]) -> bool
    ensures { result ≡ list_all is_part (parts_from [] octets.now) }
{
    let mut rest = octets;
    while let Some((part, behind)) = cut(rest, b'/') {
        if !is_part(part) {
            return false;
        }
        rest = behind;
    }
    is_part(rest)
}

// Neither empty, nor the folder itself, nor the one above.
fn is_part(part: &[u8]) -> bool
    ensures { result ≡ is_part part.now }
{
    !part.is_empty() && part != b".".as_slice() && part != b"..".as_slice()
}

/// The number that a text says in decimal digits, where it is one from the least to the greatest, which is under 100,000.
pub fn number_in(least: u64, greatest: u64, text: &[u8]) -> Option<u64>
    requires { greatest < 100000 }
    ensures { result ≡ number_in least greatest text.now }
{
    if text.is_empty() || !are_digits(text) {
        return None;
    }
    let n = number_from(text);
    if n < least || greatest < n {
        return None;
    }
    Some(n)
}

fn are_digits(text: &[u8]) -> bool
    ensures { result ≡ list_all is_digit text.now }
{
    text.iter().all(|x| 48 <= *x && *x <= 57)
}

/// Past it a number isn't counted on.
const TOO_MANY: u64 = 100_000;

// The number that digits say, at most 100,000.
fn number_from(digits: &[u8]) -> u64
    ensures { result ≡ min 100000 (number_from 0 digits.now) }
{
    let mut n = 0;
    for x in digits {
        n = (10 * n + x.saturating_sub(48) as u64).min(TOO_MANY);
    }
    n
}
