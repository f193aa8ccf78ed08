//! Messages of ICMP (RFC 792): echo requests and replies, and unreachable destinations.
//!
//! Proved: `decode` answers Ok exactly where the grammar holds, with the fields that the octets encode, else the first fault with its place (`packet`, `fields`,
//! `fault`). `encode` writes octets of the grammar, NoRoom exactly where the slice is too short (`written`, `room`, `unchanged`), and `write` the same where it isn't.
//! The grammar is what is read (`grammar_is_what_is_read`), and the same fields have the same octets (`same_fields_same_octets`).
#![tactic(auto)]

ghost use Rattle.std.specs.Prelude.{◌≡◌, ℕ, Bool, List, None, ◌+◌, ◌*◌, ◌≤◌, ◌<◌, ◌^◌, ◌↔◌, ◌++◌, length, take, drop, IsOk, IfOk, OnErr, MatchResult, Some};
ghost use Rattle.std.specs.Result.{result_ok, result_err};
ghost use Rattle.icmp_echo.specs.Icmp.{Icmp, IsIcmp, read_icmp, icmp_fault, icmp_with, icmp_octets, icmp_of, icmp_at, head_with, CanWrite, Fits, IsPlain};
ghost use Rattle.net_octets.specs.Octets.{IsOctets, word_sum};

use byteorder::{BigEndian, ByteOrder};
use net_octets::{Fault, FaultKind, NoRoom, checksum_after, sum_ok, write_packet};

/// The octets before what a message carries.
const HEAD: usize = 8;

/// A message: an echo, which asks or else replies; a destination that can't be reached, by the
/// reason `code`, about the datagram whose front is quoted; or another.
#[derive(Clone, Copy, Debug, PartialEq, Eq)]
pub enum IcmpView<'a> {
    Echo {
        reply: bool,
        ident: u16,
        number: u16,
        body: &'a [u8],
    },
    Unreachable {
        code: u8,
        quoted: &'a [u8],
    },
    Other {
        kind: u8,
        code: u8,
    },
}

/// Reads a message of at most 65,535 octets. The fault is the first of these: Short under 8
/// octets, with their number as its place; BadSum 2, where the sum of all octets doesn't hold.
pub fn decode(octets: &[u8]) -> Result<IcmpView<'_>, Fault>
    requires { length octets.now ≤ 65535 }
    ensures packet { MatchResult result (λ v. IsIcmp octets.now (icmp_of v))
        (λ _. (icmp : Icmp) → IsIcmp octets.now icmp → ⊥) }
    ensures fields { MatchResult result (λ v. read_icmp octets.now ≡ Some (icmp_of v))
        (λ _. read_icmp octets.now ≡ None) }
    ensures fault { result_err result ≡ icmp_fault octets.now }
{
    if octets.len() < HEAD {
        return Err(Fault {
            kind: FaultKind::Short,
            at: octets.len(),
        });
    }
    if !sum_ok(octets) {
        return Err(Fault {
            kind: FaultKind::BadSum,
            at: 2,
        });
    }
    Ok(message_at(octets))
}

/// What octets whose sum holds say.
fn message_at(octets: &[u8]) -> IcmpView<'_>
    requires { 8 ≤ length octets.now }
    ensures { icmp_of result ≡ icmp_at octets.now }
{
    let (kind, code) = (octets[0], octets[1]);
    let rest = &octets[HEAD..];
    match (kind, code) {
        (3, _) => IcmpView::Unreachable { code, quoted: rest },
        (0 | 8, 0) => IcmpView::Echo {
            reply: kind == 0,
            ident: BigEndian::read_u16(&octets[4..6]),
            number: BigEndian::read_u16(&octets[6..HEAD]),
            body: rest,
        },
        _ => IcmpView::Other { kind, code },
    }
}

/// Writes a message at the front of `into`, and answers its length in octets, at most 65,535.
/// Another message isn't of the kind and code of an echo or an unreachable, and has 8 octets.
/// `into` is unchanged where it is too short, and past the message.
pub fn encode(v: &IcmpView<'_>, into: &mut [u8]) -> Result<usize, NoRoom>
    requires size { length (icmp_with 0 (icmp_of v.now)) ≤ 65535 }
    requires kind { CanWrite (icmp_of v.now) }
    ensures written { IfOk result (λ n. into.new ≡ icmp_octets (icmp_of v.now) ++ drop n into.old) }
    ensures length { IfOk result (λ n. n ≡ length (icmp_octets (icmp_of v.now))) }
    ensures packet { IfOk result (λ n. (g : IsIcmp (take n into.new) (icmp_of v.now))
        × IsPlain (take n into.new) (icmp_of v.now) g) }
    ensures room { IsOk result ↔ (length (icmp_octets (icmp_of v.now)) ≤ length into.old) }
    ensures unchanged { OnErr result (into.new ≡ into.old) }
{
    if into.len() < length_of(v) {
        return Err(NoRoom);
    }
    Ok(write(v, into))
}

/// Writes a message at the front of `into`, which has the room for it, and answers its length in octets, at most 65,535.
/// Another message isn't of the kind and code of an echo or an unreachable, and has 8 octets. Past the message `into` is
/// unchanged.
pub fn write(v: &IcmpView<'_>, into: &mut [u8]) -> usize
    requires size { length (icmp_with 0 (icmp_of v.now)) ≤ 65535 }
    requires kind { CanWrite (icmp_of v.now) }
    requires room { length (icmp_octets (icmp_of v.now)) ≤ length into.old }
    ensures written { into.new ≡ icmp_octets (icmp_of v.now) ++ drop result into.old }
    ensures length { result ≡ length (icmp_octets (icmp_of v.now)) }
    ensures packet { (g : IsIcmp (take result into.new) (icmp_of v.now))
        × IsPlain (take result into.new) (icmp_of v.now) g }
{
    let parts = parts_of(v);
    let sum = checksum_after(words_of(&parts), parts.body);
    write_packet(&head(&parts, sum), parts.body, into)
}

/// The octets that a message takes.
fn length_of(v: &IcmpView<'_>) -> usize
    requires size { length (icmp_with 0 (icmp_of v.now)) ≤ 65535 }
    ensures { result ≡ length (icmp_octets (icmp_of v.now)) }
{
    HEAD + parts_of(v).body.len()
}

/// The grammar of messages holds of octets and fields exactly where these fields are read.
pub fn grammar_is_what_is_read()
    ensures { (octets : List ℕ) (icmp : Icmp) → IsOctets octets
        → (IsIcmp octets icmp ↔ (read_icmp octets ≡ Some icmp)) }
{}

/// Two messages with the same fields have the same octets, where they are as we write them: with
/// the sum that a checksum gives, and with zeros where nothing is said.
pub fn same_fields_same_octets()
    ensures { (first second : List ℕ) (icmp : Icmp) (g : IsIcmp first icmp) (h : IsIcmp second icmp)
        → IsPlain first icmp g → IsPlain second icmp h → first ≡ second }
{}

/// A message by its octets: the kind and the code, the two numbers behind the sum, and the rest.
#[derive(Drop)]
struct Parts<'a> {
    kind: u8,
    code: u8,
    first: u16,
    second: u16,
    body: &'a [u8],
}

/// The octets of a message, its sum aside.
fn parts_of<'a>(v: &IcmpView<'a>) -> Parts<'a>
    ensures octets { (sum : ℕ)
        → head_with sum result ++ result.body.now ≡ icmp_with sum (icmp_of v.now) }
    ensures fits { Fits (icmp_of v.now) }
{
    match *v {
        IcmpView::Echo {
            reply,
            ident,
            number,
            body,
        } => Parts {
            kind: if reply { 0 } else { 8 },
            code: 0,
            first: ident,
            second: number,
            body,
        },
        IcmpView::Unreachable { code, quoted } => Parts {
            kind: 3,
            code,
            first: 0,
            second: 0,
            body: quoted,
        },
        IcmpView::Other { kind, code } => Parts {
            kind,
            code,
            first: 0,
            second: 0,
            body: &[],
        },
    }
}

/// The sum of the words before what a message carries, its own sum aside.
fn words_of(parts: &Parts<'_>) -> u32
    ensures sum { result ≡ word_sum (head_with 0 parts.now) }
    ensures small { result ≤ 196605 }
{
    parts.kind as u32 * 256 + parts.code as u32 + parts.first as u32 + parts.second as u32
}

/// The octets before what a message carries, with this sum.
fn head(parts: &Parts<'_>, sum: u16) -> [u8; HEAD]
    ensures { result ≡ head_with sum parts.now }
{
    let mut head = [parts.kind, parts.code, 0, 0, 0, 0, 0, 0];
    BigEndian::write_u16(&mut head[2..4], sum);
    BigEndian::write_u16(&mut head[4..6], parts.first);
    BigEndian::write_u16(&mut head[6..], parts.second);
    head
}
