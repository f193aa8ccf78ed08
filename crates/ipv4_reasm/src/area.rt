ghost use Rattle.std.specs.Prelude.{◌≡◌, ◌+◌, ◌-◌, ◌^◌, ◌<◌, ◌≤◌, ◌++◌, false, take, drop, length, nat_lt};
ghost use Rattle.ipv4_head.specs.Ip.{ip_of};
ghost use Rattle.ipv4_head.specs.Sets.{end_of, is_same_key, part_of, whole_head};
ghost use Rattle.ipv4_reasm.specs.Areas.{Gathered, after_part, begun, does_clash, is_full, joined_in, key_by, with_head, with_joined, with_kept, with_octets};
ghost use Rattle.net_octets.specs.Sizes.{most_carried};

use crate::holes::Holes;
use byteorder::{BigEndian, ByteOrder};
use ipv4_head::IpView;
use net_octets::{Ip4, NoMemory, checksum};
use std::alloc::Global;
use std::marker::Model;

/// The octets of the greatest datagram.
const ROOM: usize = 65_535;

/// The octets of the shortest and of the longest header.
const SHORTEST_HEAD: usize = 20;

const LONGEST_HEAD: usize = 60;

/// How long parts wait for the rest of their datagram, in milliseconds.
const LIFE: u64 = 60_000;

/// Which datagram a part is of (RFC 791, 3.2).
#[derive(Clone, Copy, Debug, PartialEq, Eq)]
pub struct DatagramKey {
    pub from: Ip4,
    pub to: Ip4,
    pub proto: u8,
    pub ident: u16,
}

/// Where the parts of a datagram are put together. A contract sees what is in it.
#[derive(Drop)]
pub struct Area {
    key: DatagramKey,
    since: u64,
    octets: Vec<u8>,
    holes: Holes,
    top: usize,
    life: u8,
    head: [u8; LONGEST_HEAD],
    joined: [u8; LONGEST_HEAD],
    head_length: usize,
    joined_length: usize,
}

impl Model for Area {
    ghost use Rattle.std.specs.Prelude.{◌≤◌, take};
    ghost use Rattle.ipv4_reasm.specs.Areas.{Gathered, IsRoomy, gathered};

    ghost Value = { Gathered };

    ghost view = { λ a. gathered a.key a.since a.octets.items a.holes a.top a.life (take a.head_length a.head) (take a.joined_length a.joined) };

    ghost invariant = { λ a. IsRoomy a.since a.octets.items a.top a.head_length a.joined_length };
}

impl Area {
    /// An area with its room, before the first part.
    pub fn open(alloc: Global) -> Result<Area, NoMemory> {
        let Ok(octets) = vec![in alloc; 0; ROOM] else {
            return Err(NoMemory);
        };
        let holes = Holes::open(alloc)?;
        Ok(Area {
            key: DatagramKey {
                from: Ip4(0),
                to: Ip4(0),
                proto: 0,
                ident: 0,
            },
            since: 0,
            octets,
            holes,
            top: 0,
            life: 0,
            head: [0; LONGEST_HEAD],
            joined: [0; LONGEST_HEAD],
            head_length: SHORTEST_HEAD,
            joined_length: 0,
        })
    }

    /// Makes way for the parts of a datagram.
    pub fn begin(&mut self, key: DatagramKey, now: u64)
        requires { now ≤ 2 ^ 62 }
        ensures begun { self.new ≡ begun (key_by key) now self.old }
        ensures room { length self.new.octets ≡ 65535 }
    {
        self.key = key;
        self.since = now;
        self.holes.begin();
        self.top = 0;
    }

    /// Whether a part can't be of the same datagram as those that are here.
    pub fn clashes(&self, v: &IpView<'_>) -> bool
        requires { end_of (part_of v.now) ≤ most_carried }
        ensures { result ≡ does_clash self.now (part_of v.now) }
    {
        !self.holes.has_hole(v)
    }

    /// Puts a part with its octets here, which lies in a hole. Answers whether the datagram is
    /// whole with it.
    pub fn put(&mut self, v: &IpView<'_>) -> bool
        requires end { end_of (part_of v.now) ≤ most_carried }
        requires head { 20 ≤ length v.now.head.now }
        requires short { length v.now.head.now ≤ 60 }
        requires some { 0 < length v.now.body.now }
        requires free { does_clash self.old (part_of v.now) ≡ false }
        ensures put { self.new ≡ after_part self.old (part_of v.now) }
        ensures whole { result ≡ is_full (with_kept self.old (part_of v.now)) }
    {
        self.keep(v);
        if self.is_full() {
            self.join();
            true
        } else {
            false
        }
    }

    /// Puts a part with its octets here, which lies in a hole.
    fn keep(&mut self, v: &IpView<'_>)
        requires end { end_of (part_of v.now) ≤ most_carried }
        requires head { 20 ≤ length v.now.head.now }
        requires short { length v.now.head.now ≤ 60 }
        requires some { 0 < length v.now.body.now }
        requires free { does_clash self.old (part_of v.now) ≡ false }
        ensures { self.new ≡ with_kept self.old (part_of v.now) }
    {
        self.put_octets(v);
        if v.offset == 0 {
            self.put_head(v);
        }
    }

    /// Puts the octets of a part here, and takes them out of the hole in which they lie.
    fn put_octets(&mut self, v: &IpView<'_>)
        requires end { end_of (part_of v.now) ≤ most_carried }
        requires some { 0 < length v.now.body.now }
        requires free { does_clash self.old (part_of v.now) ≡ false }
        ensures { self.new ≡ with_octets self.old (part_of v.now) }
    {
        let place = v.offset as usize;
        put_at(&mut self.octets, 8 * place, v.body);
        self.holes.fill(v);
        self.top = self.top.max(end_of(v));
    }

    /// Keeps the header and the time to live of the part at the start.
    fn put_head(&mut self, v: &IpView<'_>)
        requires head { 20 ≤ length v.now.head.now }
        requires short { length v.now.head.now ≤ 60 }
        ensures { self.new ≡ with_head self.old (part_of v.now) }
    {
        write_front(v.head, &mut self.head);
        self.head_length = v.head.len();
        self.life = v.ttl;
    }

    /// Whether the parts here are a whole datagram.
    fn is_full(&self) -> bool
        ensures { result ≡ is_full self.now }
    {
        self.holes.is_empty()
    }

    /// Makes the header of the whole datagram.
    fn join(&mut self)
        ensures { self.new ≡ with_joined self.old }
    {
        write_whole_head(&self.head[..self.head_length], self.top, &mut self.joined);
        self.joined_length = self.head_length;
    }

    /// The datagram that the parts in this area make whole, with the header of its first part as that of the whole; its area stays until
    /// `free`.
    pub fn datagram(&self) -> IpView<'_>
        ensures datagram { ip_of result ≡ joined_in self.now }
        ensures life { result.ttl ≡ self.now.life }
        ensures body { length result.body.now ≤ most_carried }
        ensures head { length result.head.now ≤ 60 }
    {
        IpView {
            ident: self.key.ident,
            more: false,
            offset: 0,
            ttl: self.life,
            proto: self.key.proto,
            from: self.key.from,
            to: self.key.to,
            head: &self.joined[..self.joined_length],
            body: &self.octets[..self.top],
        }
    }

    /// Whether the parts here are of the datagram with this key.
    pub fn is_for(&self, key: DatagramKey) -> bool
        ensures { result ≡ is_same_key (key_by key) self.now.key }
    {
        key == self.key
    }

    /// Whether the first part here is less than 60,000 milliseconds old.
    pub fn is_young(&self, now: u64) -> bool
        ensures { result ≡ nat_lt (now - self.now.since) 60000 }
    {
        now.saturating_sub(self.since) < LIFE
    }

    /// When the first part here is 60,000 milliseconds old.
    pub fn due(&self) -> u64
        ensures { result ≡ self.now.since + 60000 }
    {
        self.since + LIFE
    }
}

/// Where a part ends in the body of its datagram, in octets.
pub fn end_of(v: &IpView<'_>) -> usize
    ensures { result ≡ end_of (part_of v.now) }
{
    8 * v.offset as usize + v.body.len()
}

/// Writes octets at a place of `into`.
fn put_at(into: &mut [u8], place: usize, octets: &[u8])
    requires { place + length octets.now ≤ length into.old }
    ensures { into.new ≡ take place into.old ++ octets.now ++ drop (place + length octets.now) into.old }
{
    into[place..place + octets.len()].copy_from_slice(octets);
}

/// Writes octets at the front of `into`.
fn write_front(octets: &[u8], into: &mut [u8])
    requires { length octets.now ≤ length into.old }
    ensures { into.new ≡ octets.now ++ drop (length octets.now) into.old }
{
    into[..octets.len()].copy_from_slice(octets);
}

/// Writes the header of a whole datagram with so many octets in its body at the front of `into`,
/// by that of its part at the start.
fn write_whole_head(head: &[u8], size: usize, into: &mut [u8])
    requires short { 20 ≤ length head.now }
    requires long { length head.now ≤ 60 }
    requires room { length head.now ≤ length into.old }
    requires size { size ≤ most_carried }
    ensures { into.new ≡ whole_head head.now size ++ drop (length head.now) into.old }
{
    let into = &mut into[..head.len()];
    into.copy_from_slice(head);
    fit_head(head, size, into);
}

/// Makes the header of the part at the start that of the whole.
fn fit_head(head: &[u8], size: usize, into: &mut [u8])
    requires short { 20 ≤ length head.now }
    requires long { length head.now ≤ 60 }
    requires copy { into.old ≡ head.now }
    requires size { size ≤ most_carried }
    ensures { into.new ≡ whole_head head.now size }
{
    let total = (head.len() + size).min(65_535) as u16;
    let flags = BigEndian::read_u16(&head[6..8]) / 0x4000 * 0x4000;
    BigEndian::write_u16(&mut into[2..4], total);
    BigEndian::write_u16(&mut into[6..8], flags);
    BigEndian::write_u16(&mut into[10..12], 0);
    let sum = checksum(into);
    BigEndian::write_u16(&mut into[10..12], sum);
}
