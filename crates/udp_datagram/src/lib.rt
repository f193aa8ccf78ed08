//! Datagrams of UDP (RFC 768): read, and written.
//!
//! Proved: `decode` answers Ok exactly where the grammar holds, with the fields that the octets encode, else the first fault with its place (`packet`, `fields`,
//! `fault`). `encode` writes octets of the grammar, NoRoom exactly where the slice is too short (`written`, `room`, `unchanged`), and `write` the same where it isn't.
//! The grammar is what is read (`grammar_is_what_is_read`), and the same fields have the same octets (`same_fields_same_octets`).
#![tactic(auto)]

ghost use Rattle.std.specs.Prelude.{◌≡◌, ℕ, List, None, ◌+◌, ◌≤◌, ◌<◌, ◌^◌, ◌↔◌, ◌++◌, length, take, drop, IsOk, IfOk, OnErr, MatchResult, Some};
ghost use Rattle.std.specs.Result.{result_ok, result_err};
ghost use Rattle.udp_datagram.specs.Udp.{Udp, IsUdp, IsPlain, read_udp, udp_fault, udp_with, udp_octets, udp_of, summed, written_sum};
ghost use Rattle.net_octets.specs.Octets.{IsOctets};

use byteorder::{BigEndian, ByteOrder};
use net_octets::{Fault, FaultKind, Ip4, NoRoom, UDP_PROTO, checksum_after, pseudo, write_packet};

/// A datagram: the ports between which it goes, and its payload.
#[derive(Clone, Copy, Debug, PartialEq, Eq)]
pub struct UdpView<'a> {
    pub from_port: u16,
    pub to_port: u16,
    pub body: &'a [u8],
}

/// The octets before the payload.
const HEAD: usize = 8;

/// Reads a datagram of at most 65,535 octets between two addresses; octets past its length are
/// passed over. A sum of 0 says that there is none. The fault is the first of these: Short under 8
/// octets, with their number as its place; BadLength 4, where the length is under 8 or over what
/// came; BadSum 6, where a sum is there and doesn't hold.
pub fn decode(octets: &[u8], from: Ip4, to: Ip4) -> Result<UdpView<'_>, Fault>
    requires { length octets.now ≤ 65535 }
    ensures packet { MatchResult result (λ v. IsUdp from.0 to.0 octets.now (udp_of v))
        (λ _. (udp : Udp) → IsUdp from.0 to.0 octets.now udp → ⊥) }
    ensures fields { MatchResult result (λ v. read_udp from.0 to.0 octets.now ≡ Some (udp_of v))
        (λ _. read_udp from.0 to.0 octets.now ≡ None) }
    ensures fault { result_err result ≡ udp_fault from.0 to.0 octets.now }
{
    check(octets, from, to)?;
    let length = BigEndian::read_u16(&octets[4..6]) as usize;
    Ok(UdpView {
        from_port: BigEndian::read_u16(&octets[..2]),
        to_port: BigEndian::read_u16(&octets[2..4]),
        body: &octets[HEAD..length],
    })
}

/// The first fault of the octets.
fn check(octets: &[u8], from: Ip4, to: Ip4) -> Result<(), Fault>
    requires { length octets.now ≤ 65535 }
    ensures { result_err result ≡ udp_fault from.0 to.0 octets.now }
{
    let bad = |kind, at| Err(Fault { kind, at });
    if octets.len() < HEAD {
        return bad(FaultKind::Short, octets.len());
    }
    let length = BigEndian::read_u16(&octets[4..6]);
    if (length as usize) < HEAD || octets.len() < length as usize {
        return bad(FaultKind::BadLength, 4);
    }
    let start = pseudo(from, to, UDP_PROTO, length);
    let sum = BigEndian::read_u16(&octets[6..HEAD]);
    if sum != 0 && checksum_after(start, &octets[..length as usize]) != 0 {
        return bad(FaultKind::BadSum, 6);
    }
    Ok(())
}

/// Writes a datagram between two addresses at the front of `into`, and answers its length in
/// octets. The payload has at most 65,527 octets. `into` is unchanged where it is too short, and
/// past the datagram.
pub fn encode(v: &UdpView<'_>, from: Ip4, to: Ip4, into: &mut [u8]) -> Result<usize, NoRoom>
    requires { length v.now.body.now ≤ 65527 }
    ensures written { IfOk result (λ n. into.new ≡ udp_octets from.0 to.0 (udp_of v.now) ++ drop n into.old) }
    ensures length { IfOk result (λ n. n ≡ 8 + length v.now.body.now) }
    ensures packet { IfOk result (λ n. (g : IsUdp from.0 to.0 (take n into.new) (udp_of v.now))
        × IsPlain from.0 to.0 (take n into.new) (udp_of v.now) g) }
    ensures room { IsOk result ↔ (8 + length v.now.body.now ≤ length into.old) }
    ensures unchanged { OnErr result (into.new ≡ into.old) }
{
    if into.len() < HEAD + v.body.len() {
        return Err(NoRoom);
    }
    Ok(write(v, from, to, into))
}

/// Writes a datagram between two addresses at the front of `into`, which has the room for it, and answers its length in
/// octets. The payload has at most 65,527 octets. Past the datagram `into` is unchanged.
pub fn write(v: &UdpView<'_>, from: Ip4, to: Ip4, into: &mut [u8]) -> usize
    requires size { length v.now.body.now ≤ 65527 }
    requires room { 8 + length v.now.body.now ≤ length into.old }
    ensures written { into.new ≡ udp_octets from.0 to.0 (udp_of v.now) ++ drop result into.old }
    ensures length { result ≡ 8 + length v.now.body.now }
    ensures packet { (g : IsUdp from.0 to.0 (take result into.new) (udp_of v.now))
        × IsPlain from.0 to.0 (take result into.new) (udp_of v.now) g }
{
    write_packet(&head(v, sum_of(v, from, to)), v.body, into)
}

/// The sum that is written: a 0 would say that there is none.
fn sum_of(v: &UdpView<'_>, from: Ip4, to: Ip4) -> u16
    requires { length v.now.body.now ≤ 65527 }
    ensures { result ≡ written_sum (summed from.0 to.0 (udp_with 0 (udp_of v.now))) }
{
    let length = (HEAD + v.body.len()) as u16;
    let ports = v.from_port as u32 + v.to_port as u32;
    let start = pseudo(from, to, UDP_PROTO, length) + ports + length as u32;
    match checksum_after(start, v.body) {
        0 => 0xffff,
        sum => sum,
    }
}

/// The octets before the payload, with this sum.
fn head(v: &UdpView<'_>, sum: u16) -> [u8; HEAD]
    requires { length v.now.body.now ≤ 65527 }
    ensures octets { result ++ v.now.body.now ≡ udp_with sum (udp_of v.now) }
    ensures from_port { v.now.from_port < 2 ^ 16 }
    ensures to_port { v.now.to_port < 2 ^ 16 }
{
    let (from_port, to_port) = (v.from_port, v.to_port);
    let mut head = [0; HEAD];
    BigEndian::write_u16(&mut head[..2], from_port);
    BigEndian::write_u16(&mut head[2..4], to_port);
    BigEndian::write_u16(&mut head[4..6], (HEAD + v.body.len()) as u16);
    BigEndian::write_u16(&mut head[6..], sum);
    head
}

/// The grammar of datagrams holds of octets and fields, with some octets behind, exactly where
/// these fields are read.
pub fn grammar_is_what_is_read()
    ensures { (from to : ℕ) (octets : List ℕ) (udp : Udp) → IsOctets octets
        → (IsUdp from to octets udp ↔ (read_udp from to octets ≡ Some udp)) }
{}

/// Two datagrams with the same fields between the same addresses have the same octets, where they
/// are as we write them: with the sum that a checksum gives, and no octets behind.
pub fn same_fields_same_octets()
    ensures { (from to : ℕ) (first second : List ℕ) (udp : Udp) (g : IsUdp from to first udp) (h : IsUdp from to second udp)
        → IsPlain from to first udp g → IsPlain from to second udp h → first ≡ second }
{}
