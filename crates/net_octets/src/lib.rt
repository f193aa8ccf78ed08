//! Addresses of the Internet protocol and of Ethernet, faults of packets, and want of memory or room.
//!
//! Proved:
//! - Internet checksums by 32-bit words equal the one's complement sum of 16-bit words (RFC 1071): `sum_ok`, `checksum`, `pseudo`, `checksum_after`. Laws: the sum
//!   with its carries is that of adding them again (`carries_are_added_again`), what stands before a datagram for its checksum has 12 octets
//!   (`pseudo_header_is_twelve_octets`), and a checksum that is written where a 0 stood holds when it is read (`written_checksum_holds`).
//! - Prefixes: `Prefix::holds`. Our hardware addresses (`Mac::of_ours`), the one in six octets (`Mac::at`), and what a packet's header and body are at the front of a
//!   slice (`write_packet`: `written`, `length`).
//!
//! Let through (rt plant): nothing but values that fill a list before it has any (`Default`).
#![tactic(auto)]

ghost use Rattle.std.specs.Prelude.{ℕ, true, ◌<◌, ◌%◌, ◌/◌, ◌^◌, ◌↔◌, ◌∷◌, ◌++◌, drop, IsOk, IfOk, OnErr, ◌≡◌, ◌+◌, ◌*◌, ◌≤◌, ◌==◌, length};
ghost use Rattle.net_octets.specs.Octets.{part, two, four, word_sum, with_carries, checksum, sum_ok, before_sum, first_bits, our_mac};
ghost use Rattle.net_octets.specs.Quads.{quad_sum};

/// There was no memory left.
#[derive(Clone, Copy, Debug, PartialEq, Eq)]
pub struct NoMemory;

/// A slice was too short for what was to be written into it.
#[derive(Clone, Copy, Debug, PartialEq, Eq)]
pub struct NoRoom;

/// The kind of a frame that carries a datagram of IPv4 (RFC 1700).
pub const IPV4_KIND: u16 = 0x0800;

/// The kind of a frame that carries a packet of ARP (RFC 1700).
pub const ARP_KIND: u16 = 0x0806;

/// The protocol of a datagram that carries a message of ICMP (RFC 1700).
pub const ICMP_PROTO: u8 = 1;

/// The protocol of a datagram that carries a segment of TCP (RFC 1700).
pub const TCP_PROTO: u8 = 6;

/// The protocol of a datagram that carries a datagram of UDP (RFC 1700).
pub const UDP_PROTO: u8 = 17;

/// The octets of the greatest frame that we send: 14 before a packet of 1,500 (RFC 894).
pub const MOST_FRAME: usize = 1514;

/// The octets that a datagram of IPv4 with a header of 20 carries at most (RFC 791, 3.1).
pub const MOST_CARRIED: usize = 65_515;

/// How many octets are summed at a time for a checksum.
const BLOCK: usize = 128;

/// An IPv4 address as a number, its first octet the most significant (RFC 791, 3.2).
#[derive(Clone, Copy, Debug, Default, PartialEq, Eq)]
pub struct Ip4(pub u32);

/// A hardware address of Ethernet, its octets in the order in which they are sent.
#[derive(Clone, Copy, Debug, Default, PartialEq, Eq)]
pub struct Mac(pub [u8; 6]);

/// An IPv4 address and a port of UDP or TCP.
#[derive(Clone, Copy, Debug, PartialEq, Eq)]
pub struct Endpoint {
    pub addr: Ip4,
    pub port: u16,
}

/// The addresses whose first `length` bits, 0 to 32, are those of `net` (RFC 4632, 3.1).
#[derive(Clone, Copy, Debug, PartialEq, Eq)]
pub struct Prefix {
    pub net: Ip4,
    pub length: u8,
}

/// What keeps octets from being a packet, and the offset of the octets that do.
#[derive(Clone, Copy, Debug, PartialEq, Eq)]
pub struct Fault {
    pub kind: FaultKind,
    pub at: usize,
}

/// Why octets are no packet.
#[derive(Clone, Copy, Debug, PartialEq, Eq)]
pub enum FaultKind {
    /// The octets end too early.
    Short,
    /// A number that names a kind or a version is another.
    BadKind,
    /// A length doesn't fit.
    BadLength,
    /// A checksum doesn't hold.
    BadSum,
}

impl Mac {
    /// The hardware address that the network has at an address of its own: 52:55, and then the octets of the address.
    pub fn of_ours(address: Ip4) -> Mac
        ensures { result.0 ≡ our_mac address.0 }
    {
        let [a, b, c, d] = address.0.to_be_bytes();
        Mac([0x52, 0x55, a, b, c, d])
    }

    /// The hardware address in the 6 octets from a place on.
    pub fn at(octets: &[u8], place: usize) -> Mac
        requires { place + 6 ≤ length octets.now }
        ensures { result.0 ≡ part octets.now place 6 }
    {
        let mut mac = [0; 6];
        mac.copy_from_slice(&octets[place..place + 6]);
        Mac(mac)
    }
}

impl Prefix {
    /// Whether the address is one of these: its first `length` bits are those of `net`.
    /// `length` is at most 32 (RFC 4632, 3.1).
    pub fn holds(&self, a: Ip4) -> bool
        requires { self.now.length ≤ 32 }
        ensures { result ≡ (first_bits self.now.length a.0 == first_bits self.now.length self.now.net.0) }
    {
        let rest = 32 - self.length;
        (a.0 as u64 >> rest) == (self.net.0 as u64 >> rest)
    }
}

/// Whether the octets hold their own checksum: the one's complement sum of their words is
/// 0xFFFF (RFC 1071, 1). At most 65,535 octets.
pub fn sum_ok(octets: &[u8]) -> bool
    requires { length octets.now ≤ 65535 }
    ensures { result ≡ sum_ok (word_sum octets.now) }
{
    sum_after(0, octets) == 65535
}

/// The one's complement of the one's complement sum of the 16-bit words; an odd last octet is
/// the high half of a word (RFC 1071, 1). At most 65,535 octets.
pub fn checksum(octets: &[u8]) -> u16
    requires { length octets.now ≤ 65535 }
    ensures { result ≡ checksum (word_sum octets.now) }
{
    65535 - sum_after(0, octets)
}

/// The plain sum of the words that stand before a datagram for its checksum: the two addresses,
/// the protocol and the length in octets (RFC 793, 3.1; RFC 768). At most 0x5FFFA.
pub fn pseudo(from: Ip4, to: Ip4, proto: u8, length: u16) -> u32
    ensures sum { result ≡ before_sum from.0 to.0 proto length }
    ensures small { result ≤ 393210 }
{
    words_of(from) + words_of(to) + proto as u32 + length as u32
}

/// The checksum of octets before which other words stand, whose plain sum is `start`, at most
/// 0xFFFFF (RFC 1071, 1). At most 65,535 octets.
pub fn checksum_after(start: u32, octets: &[u8]) -> u16
    requires few { length octets.now ≤ 65535 }
    requires small { start ≤ 1048575 }
    ensures { result ≡ checksum (start + word_sum octets.now) }
{
    65535 - sum_after(start, octets)
}

/// Writes a header and what it carries at the front of `into`, which has the room for both, and answers how many octets
/// they have. Past them `into` is unchanged.
pub fn write_packet(head: &[u8], body: &[u8], into: &mut [u8]) -> usize
    requires room { length head.now + length body.now ≤ length into.old }
    ensures written { into.new ≡ head.now ++ body.now ++ drop result into.old }
    ensures length { result ≡ length head.now + length body.now }
{
    let length = head.len() + body.len();
    into[..head.len()].copy_from_slice(head);
    into[head.len()..length].copy_from_slice(body);
    length
}

/// A checksum that is written where a 0 stood holds when it is read.
pub fn written_checksum_holds()
    ensures { (sum : ℕ) → sum_ok (sum + checksum sum) ≡ true }
{}

/// The one's complement sum is the plain sum with each carry past 16 bits added to it again, until
/// none is left (RFC 1071, 1 and 2, Parallel Summation).
pub fn carries_are_added_again()
    ensures again { (sum : ℕ) → with_carries sum ≡ with_carries (sum % 65536 + sum / 65536) }
    ensures none { (sum : ℕ) → sum < 65536 → with_carries sum ≡ sum }
{}

/// What stands before a datagram for its checksum is 12 octets: the addresses, a 0, the protocol
/// and the length.
pub fn pseudo_header_is_twelve_octets()
    ensures { (from to proto size : ℕ) → size < 2 ^ 16
        → before_sum from to proto size ≡ word_sum (four from ++ four to ++ 0 ∷ proto ∷ two size) }
{}

/// The one's complement sum of the words of the octets and of words before them, whose plain
/// sum is `start`.
fn sum_after(start: u32, octets: &[u8]) -> u16
    requires { length octets.now ≤ 65535 }
    ensures { result ≡ with_carries (start + word_sum octets.now) }
{
    fold(start as u64 + sum_of_blocks(octets))
}

/// The sum of the two 16-bit words of an address.
fn words_of(address: Ip4) -> u32
    ensures sum { result ≡ word_sum (four address.0) }
    ensures small { result ≤ 131070 }
{
    address.0 / 65536 + address.0 % 65536
}

/// The sum of the 16-bit words, two octets at a time.
fn sum_of_words(octets: &[u8]) -> u64
    requires { length octets.now ≤ 65535 }
    ensures sum { result ≡ word_sum octets.now }
    ensures small { result ≤ 65536 * length octets.now }
{
    let mut sum: u64 = 0;
    let mut rest = octets;
    while let [high, low, tail @ ..] = rest {
        sum += *high as u64 * 256 + *low as u64;
        rest = tail;
    }
    match rest {
        [last, ..] => sum + *last as u64 * 256,
        [] => sum,
    }
}

/// The sum of the 32-bit words as the processor reads them, the first octet lowest, times 256; and of the 16-bit words of the last one to three octets. A block
/// of octets is summed at a time, so that the compiler need not count within one.
/// A block has 128 octets: 64 spare less, 256 hardly more.
fn sum_of_blocks(octets: &[u8]) -> u64
    requires { length octets.now ≤ 65535 }
    ensures sum { result ≡ quad_sum octets.now }
    ensures small { result ≤ 1099511627776 * length octets.now }
{
    let mut sum: u64 = 0;
    let mut rest = octets;
    while rest.len() >= BLOCK {
        let (block, tail) = rest.split_at(BLOCK);
        sum += sum_of_quads(block);
        rest = tail;
    }
    sum + sum_of_quads(rest)
}

/// The same sum, a word after another, of which four are added at a time, side by side.
fn sum_of_quads(octets: &[u8]) -> u64
    requires { length octets.now ≤ 65535 }
    ensures sum { result ≡ quad_sum octets.now }
    ensures small { result ≤ 1099511627776 * length octets.now }
{
    let mut sum: u64 = 0;
    let mut rest = octets;
    while let [a, b, c, d, tail @ ..] = rest {
        sum += u32::from_le_bytes([*a, *b, *c, *d]) as u64;
        rest = tail;
    }
    256 * sum + sum_of_words(rest)
}

/// The one's complement sum that a plain sum of words comes to.
fn fold(sum: u64) -> u16
    ensures { result ≡ with_carries sum }
{
    if sum == 0 {
        0
    } else {
        ((sum - 1) % 65535) as u16 + 1
    }
}
