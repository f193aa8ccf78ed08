//! Headers of IPv4 datagrams (RFC 791, 3.1).
//!
//! Proved: `decode` answers Ok exactly where the grammar holds, with the fields that the octets encode, else the first fault with its place (`packet`, `fields`,
//! `life`, `fault`). `encode` writes octets of the grammar, NoRoom exactly where the slice is too short (`written`, `room`, `unchanged`), and `write` the same where it
//! isn't; `header` is the header that it writes. The grammar is what is read (`grammar_is_what_is_read`), and the same fields have the same octets
//! (`same_fields_same_octets`). Of a hole between the parts of a datagram: whether a part lies in it, and what is left of it before the part and behind (`Hole::takes`,
//! `before`, `behind`).
//!
//! Let through (rt plant): nothing.
#![tactic(auto)]

mod holes;

ghost use Rattle.std.specs.Prelude.{◌≡◌, ℕ, List, None, ◌+◌, ◌*◌, ◌≤◌, ◌<◌, ◌^◌, ◌↔◌, ◌++◌, length, take, drop, IsOk, IfOk, OnErr, MatchResult, Some, if◌then◌else◌};
ghost use Rattle.std.specs.Result.{result_ok, result_err};
ghost use Rattle.ipv4_head.specs.Ip.{Ip, IsIp, IsPlain, IsDatagram, SameFields, sent, read_ip, ip_fault, ip_with, head_with, summed_head, fragment_of, ip_of, head_length};
ghost use Rattle.net_octets.specs.Octets.{IsOctets, one_at};

pub use crate::holes::Hole;
use byteorder::{BigEndian, ByteOrder};
use net_octets::{Fault, FaultKind, Ip4, NoRoom, checksum, sum_ok, write_packet};

/// The octets of a header without options.
const HEAD: usize = 20;

/// The flag that says that more fragments follow, and one more than the greatest place of a
/// fragment.
const MORE: u16 = 0x2000;

/// A datagram or a fragment of one. `offset` counts units of 8 octets, `head` is the header as it
/// came, with its options.
#[derive(Clone, Copy, Debug, PartialEq, Eq)]
pub struct IpView<'a> {
    pub ident: u16,
    pub more: bool,
    pub offset: u16,
    pub ttl: u8,
    pub proto: u8,
    pub from: Ip4,
    pub to: Ip4,
    pub head: &'a [u8],
    pub body: &'a [u8],
}

/// Reads a datagram; octets past its total length are passed over. The fault is the first of
/// these: Short under 20 octets, with their number as its place; BadKind 0, where the version
/// isn't 4; BadLength 0, where the header has under 5 words; Short, where there are fewer octets
/// than the header has; BadLength 2, where the total length is under the header's or over that of
/// the octets; BadSum 10, where the header's sum doesn't hold.
pub fn decode(octets: &[u8]) -> Result<IpView<'_>, Fault>
    ensures packet { MatchResult result (λ v. (g : IsIp octets.now (ip_of v)) × (g.life ≡ v.ttl))
        (λ _. (ip : Ip) → IsIp octets.now ip → ⊥) }
    ensures fields { MatchResult result (λ v. read_ip octets.now ≡ Some (ip_of v))
        (λ _. read_ip octets.now ≡ None) }
    ensures life { IfOk result (λ v. v.ttl ≡ one_at octets.now 8) }
    ensures fault { result_err result ≡ ip_fault octets.now }
{
    check(octets)?;
    let head = octets_of_head(octets);
    let total = BigEndian::read_u16(&octets[2..4]) as usize;
    let fragment = BigEndian::read_u16(&octets[6..8]);
    Ok(IpView {
        ident: BigEndian::read_u16(&octets[4..6]),
        more: fragment / MORE % 2 == 1,
        offset: fragment % MORE,
        ttl: octets[8],
        proto: octets[9],
        from: Ip4(BigEndian::read_u32(&octets[12..16])),
        to: Ip4(BigEndian::read_u32(&octets[16..HEAD])),
        head: &octets[..head],
        body: &octets[head..total],
    })
}

/// The first fault of the octets.
fn check(octets: &[u8]) -> Result<(), Fault>
    ensures { result_err result ≡ ip_fault octets.now }
{
    let bad = |kind, at| Err(Fault { kind, at });
    if octets.len() < HEAD {
        return bad(FaultKind::Short, octets.len());
    }
    if octets[0] / 16 != 4 {
        return bad(FaultKind::BadKind, 0);
    }
    let head = octets_of_head(octets);
    if head < HEAD {
        return bad(FaultKind::BadLength, 0);
    }
    if octets.len() < head {
        return bad(FaultKind::Short, octets.len());
    }
    let total = BigEndian::read_u16(&octets[2..4]) as usize;
    if total < head || octets.len() < total {
        return bad(FaultKind::BadLength, 2);
    }
    if !sum_ok(&octets[..head]) {
        return bad(FaultKind::BadSum, 10);
    }
    Ok(())
}

/// The length of the header that the first octet says.
fn octets_of_head(octets: &[u8]) -> usize
    requires { 1 ≤ length octets.now }
    ensures length { result ≡ head_length octets.now }
    ensures small { result ≤ 60 }
{
    (octets[0] % 16) as usize * 4
}

/// The time to live of the datagrams that we write (RFC 1122, 3.2.1.7).
pub const LIFE: u8 = 64;

/// Writes a datagram at the front of `into`, with a header of 20 octets, service 0 and no flag
/// but the one for more fragments, and answers its length in octets. `head` isn't read. The whole
/// has under 65,536 octets, and `offset` is under 8,192. `into` is unchanged where it is too
/// short, and past the datagram.
pub fn encode(v: &IpView<'_>, into: &mut [u8]) -> Result<usize, NoRoom>
    requires size { 20 + length v.now.body.now < 2 ^ 16 }
    requires place { v.now.offset < 2 ^ 13 }
    ensures written { IfOk result (λ n. into.new
        ≡ ip_with v.now.ttl v.now.ident (fragment_of v.now.more v.now.offset) v.now.proto v.now.from.0
        v.now.to.0 v.now.body.now ++ drop n into.old) }
    ensures length { IfOk result (λ n. n ≡ 20 + length v.now.body.now) }
    ensures packet { IfOk result (λ n. IsDatagram (take n into.new) v.now.ttl (sent v.now)) }
    ensures room { IsOk result ↔ (20 + length v.now.body.now ≤ length into.old) }
    ensures unchanged { OnErr result (into.new ≡ into.old) }
{
    if into.len() < HEAD + v.body.len() {
        return Err(NoRoom);
    }
    Ok(write(v, into))
}

/// Writes a datagram at the front of `into`, which has the room for it, as `encode` does, and answers its length in
/// octets. Past the datagram `into` is unchanged.
pub fn write(v: &IpView<'_>, into: &mut [u8]) -> usize
    requires size { 20 + length v.now.body.now < 2 ^ 16 }
    requires place { v.now.offset < 2 ^ 13 }
    requires room { 20 + length v.now.body.now ≤ length into.old }
    ensures written { into.new
        ≡ ip_with v.now.ttl v.now.ident (fragment_of v.now.more v.now.offset) v.now.proto v.now.from.0
        v.now.to.0 v.now.body.now ++ drop result into.old }
    ensures length { result ≡ 20 + length v.now.body.now }
    ensures packet { IsDatagram (take result into.new) v.now.ttl (sent v.now) }
{
    write_packet(&header(v, v.body.len()), v.body, into)
}

/// The header that `write` writes, for a datagram with so many octets behind it. `head` and `body` aren't read.
pub fn header(v: &IpView<'_>, size: usize) -> [u8; HEAD]
    requires size { 20 + size < 2 ^ 16 }
    requires place { v.now.offset < 2 ^ 13 }
    ensures octets { result ≡ summed_head v.now.ttl v.now.ident (fragment_of v.now.more v.now.offset)
        v.now.proto v.now.from.0 v.now.to.0 size }
    ensures ident { v.now.ident < 2 ^ 16 }
    ensures from { v.now.from.0 < 2 ^ 32 }
    ensures to { v.now.to.0 < 2 ^ 32 }
{
    let sum = checksum(&head(v, size, 0));
    head(v, size, sum)
}

/// The header of a datagram with so many octets behind it, with this sum.
fn head(v: &IpView<'_>, size: usize, sum: u16) -> [u8; HEAD]
    requires size { 20 + size < 2 ^ 16 }
    requires place { v.now.offset < 2 ^ 13 }
    ensures octets { result ≡ head_with v.now.ttl sum v.now.ident
        (fragment_of v.now.more v.now.offset) v.now.proto v.now.from.0 v.now.to.0 size }
    ensures ident { v.now.ident < 2 ^ 16 }
    ensures from { v.now.from.0 < 2 ^ 32 }
    ensures to { v.now.to.0 < 2 ^ 32 }
{
    let (ident, from, to) = (v.ident, v.from.0, v.to.0);
    let mut head = [0; HEAD];
    head[0] = 0x45;
    BigEndian::write_u16(&mut head[2..4], (HEAD + size) as u16);
    BigEndian::write_u16(&mut head[4..6], ident);
    BigEndian::write_u16(&mut head[6..8], fragment(v.more, v.offset));
    head[8] = v.ttl;
    head[9] = v.proto;
    BigEndian::write_u16(&mut head[10..12], sum);
    BigEndian::write_u32(&mut head[12..16], from);
    BigEndian::write_u32(&mut head[16..], to);
    head
}

/// The number that tells whether more fragments follow, and the place.
fn fragment(more: bool, offset: u16) -> u16
    requires { offset < 2 ^ 13 }
    ensures { result ≡ fragment_of more offset }
{
    if more { MORE + offset } else { offset }
}

/// The grammar of datagrams holds of octets and fields exactly where these fields are read.
pub fn grammar_is_what_is_read()
    ensures fields { (octets : List ℕ) (ip : Ip) → IsOctets octets
        → (IsIp octets ip ↔ (read_ip octets ≡ Some ip)) }
    ensures life { (octets : List ℕ) (ip : Ip) (g : IsIp octets ip) → g.life ≡ one_at octets 8 }
{}

/// Two datagrams with the same fields have the same octets, where they are as we write them:
/// without options, with nothing behind them, with the sum that a checksum gives and with no
/// other bit. The header as it came is no field here.
pub fn same_fields_same_octets()
    ensures { (first second : List ℕ) (one other : Ip) (g : IsIp first one) (h : IsIp second other)
        → IsPlain first one g → IsPlain second other h → SameFields one other
        → g.life ≡ h.life → first ≡ second }
{}
