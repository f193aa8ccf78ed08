//! The protocol that asks for the hardware address of an IPv4 address (RFC 826), and a table of the answers.
//!
//! Proved: `decode` answers Ok exactly where the grammar holds, with the fields that the octets encode, else the first fault with its place (`packet`, `fields`,
//! `fault`). `encode` writes octets of the grammar, NoRoom exactly where the slice is too short (`written`, `room`, `unchanged`), and `write` the same where it isn't;
//! `asking` is the request for an address. The grammar is what is read (`grammar_is_what_is_read`), and the same fields have the same octets
//! (`same_fields_same_octets`). The table, of 64 addresses, is a fold over what was learnt: `ArpTable::new`, `learn`, `find`.
//!
//! Let through (rt plant): nothing.
#![tactic(auto)]

ghost use Rattle.std.specs.Prelude.{◌≡◌, ℕ, List, [], None, ◌+◌, ◌≤◌, ◌↔◌, ◌++◌, length, take, drop, IsOk, IfOk, OnErr, MatchResult, Some, if◌then◌else◌};
ghost use Rattle.std.specs.Result.{result_ok, result_err};
ghost use Rattle.arp_table.specs.Arp.{Arp, IsArp, asking, read_arp, arp_fault, arp_octets, arp_of};
ghost use Rattle.arp_table.specs.Table.{learnt, mac_of};
ghost use Rattle.net_octets.specs.Octets.{IsOctets};

use arrayvec::ArrayVec;
use byteorder::{BigEndian, ByteOrder};
use net_octets::{Fault, FaultKind, Ip4, Mac, NoRoom};
use std::marker::Model;

/// The octets of a packet.
const LENGTH: usize = 28;

/// The hardware address to which all listen (RFC 894).
pub const EVERYONE: Mac = Mac([255; 6]);

/// The hardware address that stands where none is known yet.
const NOBODY: Mac = Mac([0; 6]);

/// A packet: a reply or else a request, and the addresses of who sends it and of who is asked or
/// told.
#[derive(Clone, Copy, Debug, PartialEq, Eq)]
pub struct ArpView {
    pub reply: bool,
    pub sender_mac: Mac,
    pub sender_ip: Ip4,
    pub target_mac: Mac,
    pub target_ip: Ip4,
}

/// The request of an address of ours for the hardware address of another, which goes to everyone.
pub fn asking(ours: Ip4, other: Ip4) -> ArpView
    ensures { arp_of result ≡ asking ours.0 other.0 }
{
    ArpView {
        reply: false,
        sender_mac: Mac::of_ours(ours),
        sender_ip: ours,
        target_mac: NOBODY,
        target_ip: other,
    }
}

/// Reads a packet for IPv4 over Ethernet; octets behind it are passed over. The fault is the first
/// of these: Short under 28 octets, with their number as its place; BadKind 0 and 2, where the
/// hardware isn't Ethernet or the protocol isn't IPv4; BadLength 4 and 5, where their addresses
/// haven't 6 and 4 octets; BadKind 6, where it is neither a request nor a reply.
pub fn decode(octets: &[u8]) -> Result<ArpView, Fault>
    ensures packet { MatchResult result (λ v. IsArp octets.now (arp_of v))
        (λ _. (arp : Arp) → IsArp octets.now arp → ⊥) }
    ensures fields { MatchResult result (λ v. read_arp octets.now ≡ Some (arp_of v))
        (λ _. read_arp octets.now ≡ None) }
    ensures fault { result_err result ≡ arp_fault octets.now }
{
    check(octets)?;
    Ok(ArpView {
        reply: BigEndian::read_u16(&octets[6..8]) == 2,
        sender_mac: Mac::at(octets, 8),
        sender_ip: Ip4(BigEndian::read_u32(&octets[14..18])),
        target_mac: Mac::at(octets, 18),
        target_ip: Ip4(BigEndian::read_u32(&octets[24..LENGTH])),
    })
}

/// The first fault of the octets.
fn check(octets: &[u8]) -> Result<(), Fault>
    ensures { result_err result ≡ arp_fault octets.now }
{
    let bad = |kind, at| Err(Fault { kind, at });
    if octets.len() < LENGTH {
        return bad(FaultKind::Short, octets.len());
    }
    if BigEndian::read_u16(&octets[..2]) != 1 {
        return bad(FaultKind::BadKind, 0);
    }
    if BigEndian::read_u16(&octets[2..4]) != 0x0800 {
        return bad(FaultKind::BadKind, 2);
    }
    if octets[4] != 6 {
        return bad(FaultKind::BadLength, 4);
    }
    if octets[5] != 4 {
        return bad(FaultKind::BadLength, 5);
    }
    match BigEndian::read_u16(&octets[6..8]) {
        1 | 2 => Ok(()),
        _ => bad(FaultKind::BadKind, 6),
    }
}

/// Writes a packet at the front of `into`, and answers its length in octets. `into` is unchanged
/// where it is too short, and past the packet.
pub fn encode(v: &ArpView, into: &mut [u8]) -> Result<usize, NoRoom>
    ensures written { IfOk result (λ n. into.new ≡ arp_octets (arp_of v.now) ++ drop n into.old) }
    ensures length { IfOk result (λ n. n ≡ 28) }
    ensures packet { IfOk result (λ n. IsArp (take n into.new) (arp_of v.now)) }
    ensures room { IsOk result ↔ (28 ≤ length into.old) }
    ensures unchanged { OnErr result (into.new ≡ into.old) }
{
    if into.len() < LENGTH {
        return Err(NoRoom);
    }
    Ok(write(v, into))
}

/// Writes a packet at the front of `into`, which has the room for it, and answers its length in octets. Past the packet
/// `into` is unchanged.
pub fn write(v: &ArpView, into: &mut [u8]) -> usize
    requires room { 28 ≤ length into.old }
    ensures written { into.new ≡ arp_octets (arp_of v.now) ++ drop result into.old }
    ensures length { result ≡ 28 }
    ensures packet { IsArp (take result into.new) (arp_of v.now) }
{
    let (sender, target) = (v.sender_ip.0, v.target_ip.0);
    into[..8].copy_from_slice(&[0, 1, 8, 0, 6, 4, 0, operation(v.reply)]);
    into[8..14].copy_from_slice(&v.sender_mac.0);
    BigEndian::write_u32(&mut into[14..18], sender);
    into[18..24].copy_from_slice(&v.target_mac.0);
    BigEndian::write_u32(&mut into[24..LENGTH], target);
    LENGTH
}

/// What a packet does: 1 asks, 2 answers.
fn operation(reply: bool) -> u8
    ensures { result ≡ (if reply then 2 else 1) }
{
    if reply { 2 } else { 1 }
}

/// The grammar of packets holds of octets and fields exactly where these fields are read.
pub fn grammar_is_what_is_read()
    ensures { (octets : List ℕ) (arp : Arp) → IsOctets octets
        → (IsArp octets arp ↔ (read_arp octets ≡ Some arp)) }
{}

/// Two packets with the same fields, behind which nothing follows, have the same octets.
pub fn same_fields_same_octets()
    ensures { (first second : List ℕ) (arp : Arp) (one : IsArp first arp) (other : IsArp second arp)
        → one.rest ≡ [] → other.rest ≡ [] → first ≡ second }
{}

/// The hardware addresses of at most 64 IPv4 addresses, the one learnt last first.
#[derive(Drop)]
pub struct ArpTable {
    pairs: ArrayVec<(Ip4, Mac), 64>,
}

impl Model for ArpTable {
    ghost use Rattle.std.specs.Prelude.{List};
    ghost use Rattle.net_octets.specs.declared.Ip4.{Ip4};
    ghost use Rattle.net_octets.specs.declared.Mac.{Mac};

    ghost Value = { List (Ip4 × Mac) };

    ghost view = { λ table. table.pairs.items };
}

impl ArpTable {
    /// A table without pairs.
    pub fn new() -> ArpTable
        ensures { result ≡ [] }
    {
        ArpTable {
            pairs: ArrayVec::new(),
        }
    }

    /// Takes an older pair of the address out, and puts the new pair first. The last of 65 pairs
    /// is dropped.
    pub fn learn(&mut self, ip: Ip4, mac: Mac)
        ensures { self.new ≡ learnt ip mac self.old }
    {
        self.pairs.retain(|pair| pair.0.0 != ip.0);
        self.pairs.truncate(63);
        self.pairs.insert(0, (ip, mac));
    }

    /// The hardware address that was learnt last for the address. None exactly where no pair has
    /// the address.
    pub fn find(&self, ip: Ip4) -> Option<Mac>
        ensures { result ≡ mac_of ip self.now }
    {
        let found = self.pairs.as_slice().iter().find(|pair| pair.0.0 == ip.0);
        found.map(|pair| pair.1)
    }
}
