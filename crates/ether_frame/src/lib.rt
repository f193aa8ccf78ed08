//! Frames of Ethernet (RFC 894).
//!
//! Proved: `decode` answers Ok exactly where the grammar holds, with the fields that the octets encode, else the first fault with its place (`packet`, `fields`,
//! `fault`). `encode` writes octets of the grammar, NoRoom exactly where the slice is too short (`written`, `room`, `unchanged`), and `write` the same where it isn't.
//! The grammar is what is read (`grammar_is_what_is_read`), and the same fields have the same octets (`same_fields_same_octets`).
#![tactic(auto)]

ghost use Rattle.std.specs.Prelude.{◌≡◌, ℕ, List, None, ◌+◌, ◌≤◌, ◌↔◌, ◌++◌, length, take, drop, IsOk, IfOk, OnErr, MatchResult, Some};
ghost use Rattle.std.specs.Result.{result_ok, result_err};
ghost use Rattle.ether_frame.specs.Ether.{Ether, IsEther, read_ether, ether_fault, ether_octets, ether_of};
ghost use Rattle.net_octets.specs.Octets.{IsOctets};

use byteorder::{BigEndian, ByteOrder};
use net_octets::{Fault, FaultKind, Mac, NoRoom};

/// The octets before the packet of a frame: two hardware addresses and the kind.
const HEAD: usize = 14;

/// A frame: whom it is for, who sent it, the kind of its packet, and the packet.
#[derive(Clone, Copy, Debug, PartialEq, Eq)]
pub struct EtherView<'a> {
    pub to: Mac,
    pub from: Mac,
    pub kind: u16,
    pub body: &'a [u8],
}

/// Reads a frame. A fault is Short, where there are fewer than 14 octets, with their number as
/// its place.
pub fn decode(octets: &[u8]) -> Result<EtherView<'_>, Fault>
    ensures packet { MatchResult result (λ v. IsEther octets.now (ether_of v))
        (λ _. (ether : Ether) → IsEther octets.now ether → ⊥) }
    ensures fields { MatchResult result (λ v. read_ether octets.now ≡ Some (ether_of v))
        (λ _. read_ether octets.now ≡ None) }
    ensures fault { result_err result ≡ ether_fault octets.now }
{
    if octets.len() < HEAD {
        return Err(Fault {
            kind: FaultKind::Short,
            at: octets.len(),
        });
    }
    Ok(EtherView {
        to: Mac::at(octets, 0),
        from: Mac::at(octets, 6),
        kind: BigEndian::read_u16(&octets[12..HEAD]),
        body: &octets[HEAD..],
    })
}

/// Writes a frame at the front of `into`, and answers its length in octets. `into` is unchanged
/// where it is too short, and past the frame.
pub fn encode(v: &EtherView<'_>, into: &mut [u8]) -> Result<usize, NoRoom>
    ensures written { IfOk result (λ n. into.new
        ≡ ether_octets v.now.to.0 v.now.from.0 v.now.kind v.now.body.now ++ drop n into.old) }
    ensures length { IfOk result (λ n. n ≡ 14 + length v.now.body.now) }
    ensures packet { IfOk result (λ n. IsEther (take n into.new) (ether_of v.now)) }
    ensures room { IsOk result ↔ (14 + length v.now.body.now ≤ length into.old) }
    ensures unchanged { OnErr result (into.new ≡ into.old) }
{
    if into.len() < HEAD + v.body.len() {
        return Err(NoRoom);
    }
    Ok(write(v, into))
}

/// Writes a frame at the front of `into`, which has the room for it, and answers its length in octets. Past the frame
/// `into` is unchanged.
pub fn write(v: &EtherView<'_>, into: &mut [u8]) -> usize
    requires room { 14 + length v.now.body.now ≤ length into.old }
    ensures written { into.new
        ≡ ether_octets v.now.to.0 v.now.from.0 v.now.kind v.now.body.now ++ drop result into.old }
    ensures length { result ≡ 14 + length v.now.body.now }
    ensures packet { IsEther (take result into.new) (ether_of v.now) }
{
    let length = HEAD + v.body.len();
    into[..6].copy_from_slice(&v.to.0);
    into[6..12].copy_from_slice(&v.from.0);
    BigEndian::write_u16(&mut into[12..HEAD], v.kind);
    into[HEAD..length].copy_from_slice(v.body);
    length
}

/// The grammar of frames holds of octets and fields exactly where these fields are read.
pub fn grammar_is_what_is_read()
    ensures { (octets : List ℕ) (ether : Ether) → IsOctets octets
        → (IsEther octets ether ↔ (read_ether octets ≡ Some ether)) }
{}

/// Two frames with the same fields have the same octets.
pub fn same_fields_same_octets()
    ensures { (first second : List ℕ) (ether : Ether)
        → IsEther first ether → IsEther second ether → first ≡ second }
{}
