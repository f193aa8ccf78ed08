//! Segments of TCP (RFC 9293, 3.1).
//!
//! Proved:
//! - `decode` answers Ok exactly where the grammar holds, with the fields that the octets encode, else the first fault with its place (`packet`, `fields`, `fault`).
//!   `encode` writes octets of the grammar, NoRoom exactly where the slice is too short (`written`, `room`, `unchanged`), and `write` the same where it isn't. The
//!   grammar is what is read (`grammar_is_what_is_read`).
//! - What a SYN's MSS counts (`mss_of`: 536 without one, 64 at least). The window scale is read and written as it stands, 0 to 255, on any segment (`TcpView::scale`,
//!   `decode`, `encode`). `is_syn`, `is_ack`, `is_rst`, `is_fin`, and the numbers that a segment takes (`numbers`, SEG.LEN). A header alone with its options, 0 in the
//!   place of the sum (`put_head`, `head_size`).
//!
//! Let through (rt plant): nothing.
#![tactic(auto)]

ghost use Rattle.std.specs.Prelude.{◌≡◌, ℕ, List, [], None, Some, Ok, Err, ◌+◌, ◌-◌, ◌*◌, ◌/◌, ◌≤◌, ◌<◌, ◌^◌, ◌↔◌, ◌++◌, ◌∷◌, length, take, drop, IsOk, IfOk, IfSome, OnErr, MatchResult};
ghost use Rattle.std.specs.Result.{result_err};
ghost use Rattle.net_octets.specs.Octets.{IsOctets, two};
ghost use Rattle.tcp_segment.specs.Tcp.{Tcp, Fits, IsTcp, has, head_length, head_reading, options_reading, fields_of, mss_of, tcp_reading, read_tcp, tcp_fault, mss_octets, scale_octets};
ghost use Rattle.tcp_segment.specs.Tcp.{words_of as words_by, numbers_of, head_octets, tcp_length, tcp_with, tcp_octets, tcp_of};

use byteorder::{BigEndian, ByteOrder};
use net_octets::{Fault, FaultKind, Ip4, NoRoom, TCP_PROTO, checksum_after, pseudo};
use seq_space::Seq;
use tlv_table::{Form, Table, rows};

/// The octets of a header without options.
const HEAD: usize = 20;

/// The options: 0 ends them, 1 is a pad, and a length counts its code and itself (RFC 9293, 3.2).
const FORM: Form = Form {
    end: 0,
    pad: 1,
    end_needed: false,
    counts_head: true,
};

/// The most octets of a piece of a peer whose SYN doesn't say it (RFC 9293, 3.7.1).
pub const USUAL_MSS: u16 = 536;

/// The least that counts of what a SYN says.
pub const LEAST_MSS: u16 = 64;

/// The flag of a segment after which its sender sends no more.
pub const FIN: u8 = 0x01;

/// The flag of a segment that begins a connection.
pub const SYN: u8 = 0x02;

/// The flag of a segment that resets a connection.
pub const RST: u8 = 0x04;

/// The flag of a segment whose octets are to be handed on at once.
pub const PSH: u8 = 0x08;

/// The flag of a segment whose acknowledgement number counts.
pub const ACK: u8 = 0x10;

/// A segment. `flags` has the eight bits from CWR down to FIN. `mss` is the greatest segment size
/// that its options say first, and `scale` the first window scale, as it stands there: from 0 to
/// 255, on any segment. That it counts only with SYN, and as 14 at most (RFC 7323, 2.2 and 2.3),
/// is for the connection to see.
#[derive(Clone, Copy, Debug, PartialEq, Eq)]
pub struct TcpView<'a> {
    pub from_port: u16,
    pub to_port: u16,
    pub seq: Seq,
    pub ack: Seq,
    pub flags: u8,
    pub window: u16,
    pub mss: Option<u16>,
    pub scale: Option<u8>,
    pub body: &'a [u8],
}

impl TcpView<'_> {
    /// Whether the segment has FIN.
    pub fn is_fin(&self) -> bool
        ensures { result ≡ has FIN self.now.flags }
    {
        self.flags & FIN != 0
    }

    /// Whether the segment has SYN.
    pub fn is_syn(&self) -> bool
        ensures { result ≡ has SYN self.now.flags }
    {
        self.flags & SYN != 0
    }

    /// Whether the segment has RST.
    pub fn is_rst(&self) -> bool
        ensures { result ≡ has RST self.now.flags }
    {
        self.flags & RST != 0
    }

    /// Whether the segment has ACK.
    pub fn is_ack(&self) -> bool
        ensures { result ≡ has ACK self.now.flags }
    {
        self.flags & ACK != 0
    }

    /// How many sequence numbers the segment takes: one for each octet, one for SYN and one for
    /// FIN (RFC 9293, 3.4, SEG.LEN).
    pub fn numbers(&self) -> u64
        ensures { result ≡ numbers_of (tcp_of self.now) }
    {
        self.body.len() as u64 + u64::from(self.is_syn()) + u64::from(self.is_fin())
    }
}

/// What the options of a segment say first.
#[derive(Clone, Copy)]
struct Options {
    mss: Option<u16>,
    scale: Option<u8>,
}

/// Reads a segment between two addresses, of at most 65,535 octets. The fault is the first of
/// these: Short under 20 octets, with their number as its place; BadLength 12, where the header
/// has under 5 words or more than there are octets; BadSum 16, where the sum over the addresses
/// and the octets doesn't hold; BadLength 20, where the options are wrong.
pub fn decode(octets: &[u8], from: Ip4, to: Ip4) -> Result<TcpView<'_>, Fault>
    requires { length octets.now ≤ 65535 }
    ensures packet { MatchResult result (λ v. IsTcp from.0 to.0 octets.now (tcp_of v))
        (λ _. (tcp : Tcp) → IsTcp from.0 to.0 octets.now tcp → ⊥) }
    ensures fields { MatchResult result (λ v. read_tcp from.0 to.0 octets.now ≡ Some (tcp_of v))
        (λ _. read_tcp from.0 to.0 octets.now ≡ None) }
    ensures fault { result_err result ≡ tcp_fault from.0 to.0 octets.now }
{
    segment_in(octets, from, to)
}

fn segment_in(octets: &[u8], from: Ip4, to: Ip4) -> Result<TcpView<'_>, Fault>
    requires { length octets.now ≤ 65535 }
    ensures { MatchResult result (λ v. tcp_reading from.0 to.0 octets.now ≡ Ok (tcp_of v))
        (λ fault. tcp_reading from.0 to.0 octets.now ≡ Err fault) }
{
    let head = head_in(octets, from, to)?;
    let options = options_in(&octets[HEAD..head])?;
    Ok(fields_in(octets, head, options))
}

/// The length of the header, once the header and the sum are right.
fn head_in(octets: &[u8], from: Ip4, to: Ip4) -> Result<usize, Fault>
    requires { length octets.now ≤ 65535 }
    ensures exact { result ≡ head_reading from.0 to.0 octets.now }
    ensures bounds { IfOk result (λ head. (20 ≤ head) × (head ≤ length octets.now)) }
{
    let bad = |kind, at| Err(Fault { kind, at });
    if octets.len() < HEAD {
        return bad(FaultKind::Short, octets.len());
    }
    let head = (octets[12] / 16) as usize * 4;
    if head < HEAD || octets.len() < head {
        return bad(FaultKind::BadLength, 12);
    }
    let start = pseudo(from, to, TCP_PROTO, octets.len() as u16);
    if checksum_after(start, octets) != 0 {
        return bad(FaultKind::BadSum, 16);
    }
    Ok(head)
}

/// The first greatest segment size and the first window scale that options say.
fn options_in(options: &[u8]) -> Result<Options, Fault>
    ensures { result ≡ options_reading options.now }
{
    let table = Table::of(FORM, rows![2: 2 to 2, repeats; 3: 1 to 1, repeats]);
    let Ok(fields) = table.read(options) else {
        return Err(Fault {
            kind: FaultKind::BadLength,
            at: HEAD,
        });
    };
    Ok(Options {
        mss: fields.first(2).map(|body| BigEndian::read_u16(body)),
        scale: fields.first(3).map(|body| body[0]),
    })
}

fn fields_in(octets: &[u8], head: usize, options: Options) -> TcpView<'_>
    requires { (20 ≤ head) × (head ≤ length octets.now) }
    ensures { tcp_of result ≡ fields_of octets.now head options }
{
    TcpView {
        from_port: BigEndian::read_u16(&octets[..2]),
        to_port: BigEndian::read_u16(&octets[2..4]),
        seq: Seq(BigEndian::read_u32(&octets[4..8])),
        ack: Seq(BigEndian::read_u32(&octets[8..12])),
        flags: octets[13],
        window: BigEndian::read_u16(&octets[14..16]),
        mss: options.mss,
        scale: options.scale,
        body: &octets[head..],
    }
}

/// Writes a segment between two addresses at the front of `into`, with the greatest segment size
/// where there is one, and after it a pad and the window scale where there is one, as it is given
/// (RFC 7323, 2.2). Answers the length in octets. The whole has under 65,536 octets. `into`
/// is unchanged where it is too short, and past the segment.
pub fn encode(v: &TcpView<'_>, from: Ip4, to: Ip4, into: &mut [u8]) -> Result<usize, NoRoom>
    requires { tcp_length (tcp_of v.now) < 2 ^ 16 }
    ensures written { IfOk result (λ n. into.new
        ≡ tcp_octets from.0 to.0 (tcp_of v.now) ++ drop n into.old) }
    ensures length { IfOk result (λ n. n ≡ tcp_length (tcp_of v.now)) }
    ensures packet { IfOk result (λ n. IsTcp from.0 to.0 (take n into.new) (tcp_of v.now)) }
    ensures room { IsOk result ↔ (tcp_length (tcp_of v.now) ≤ length into.old) }
    ensures unchanged { OnErr result (into.new ≡ into.old) }
{
    if into.len() < length_of(v) {
        return Err(NoRoom);
    }
    Ok(write(v, from, to, into))
}

/// Writes a segment between two addresses at the front of `into`, which has the room for it, as `encode` does, and
/// answers its length in octets. Past the segment `into` is unchanged.
pub fn write(v: &TcpView<'_>, from: Ip4, to: Ip4, into: &mut [u8]) -> usize
    requires size { tcp_length (tcp_of v.now) < 2 ^ 16 }
    requires room { tcp_length (tcp_of v.now) ≤ length into.old }
    ensures written { into.new ≡ tcp_octets from.0 to.0 (tcp_of v.now) ++ drop result into.old }
    ensures length { result ≡ tcp_length (tcp_of v.now) }
    ensures packet { IsTcp from.0 to.0 (take result into.new) (tcp_of v.now) }
{
    let length = length_of(v);
    fill(v, from, to, &mut into[..length]);
    length
}

/// The octets that a segment takes.
fn length_of(v: &TcpView<'_>) -> usize
    requires { tcp_length (tcp_of v.now) < 2 ^ 16 }
    ensures { result ≡ tcp_length (tcp_of v.now) }
{
    head_size(v) + v.body.len()
}

/// The most octets of a piece that a SYN with this option says: `USUAL_MSS` where it has none, and `LEAST_MSS` at least (RFC 9293, 3.7.1).
pub fn mss_of(mss: Option<u16>) -> u16
    ensures value { result ≡ mss_of mss }
    ensures low { 64 ≤ result }
{
    mss.unwrap_or(USUAL_MSS).max(LEAST_MSS)
}

fn mss_size(mss: Option<u16>) -> usize
    ensures length { result ≡ length (mss_octets mss) }
    ensures few { result ≤ 4 }
{
    if mss.is_some() { 4 } else { 0 }
}

fn scale_size(scale: Option<u8>) -> usize
    ensures length { result ≡ length (scale_octets scale) }
    ensures few { result ≤ 4 }
{
    if scale.is_some() { 4 } else { 0 }
}

/// Writes a segment into exactly as many octets as it takes. Its octets are summed once, with 0 in
/// the place of the sum.
fn fill(v: &TcpView<'_>, from: Ip4, to: Ip4, segment: &mut [u8])
    requires size { tcp_length (tcp_of v.now) < 2 ^ 16 }
    requires room { length segment.old ≡ tcp_length (tcp_of v.now) }
    ensures written { segment.new ≡ tcp_octets from.0 to.0 (tcp_of v.now) }
    ensures fits { Fits (tcp_of v.now) }
    ensures mss { IfSome v.now.mss (λ mss. mss < 2 ^ 16) }
{
    put_unsummed(v, segment);
    let start = pseudo(from, to, TCP_PROTO, segment.len() as u16);
    let sum = checksum_after(start, segment);
    BigEndian::write_u16(&mut segment[16..18], sum);
}

/// Writes it with 0 in the place of the sum.
fn put_unsummed(v: &TcpView<'_>, segment: &mut [u8])
    requires { length segment.old ≡ tcp_length (tcp_of v.now) }
    ensures written { segment.new ≡ head_octets (tcp_of v.now) ++ (mss_octets v.now.mss ++ scale_octets v.now.scale) ++ v.now.body.now }
    ensures fits { Fits (tcp_of v.now) }
    ensures mss { IfSome v.now.mss (λ mss. mss < 2 ^ 16) }
{
    let size = put_head(v, segment);
    segment[size..].copy_from_slice(v.body);
}

/// Writes the header of a segment with its options at the front of `into`, which has the room for them, with 0 in the place of the sum, and answers its
/// length, from 20 to 28 octets (RFC 9293, 3.1). What the segment carries isn't written, and past the header `into` is unchanged.
pub fn put_head(v: &TcpView<'_>, into: &mut [u8]) -> usize
    requires room { 20 + length (mss_octets v.now.mss) + length (scale_octets v.now.scale) ≤ length into.old }
    ensures written { into.new ≡ (head_octets (tcp_of v.now) ++ mss_octets v.now.mss ++ scale_octets v.now.scale) ++ drop result into.old }
    ensures length { result ≡ 20 + length (mss_octets v.now.mss) + length (scale_octets v.now.scale) }
    ensures fits { Fits (tcp_of v.now) }
    ensures mss { IfSome v.now.mss (λ mss. mss < 2 ^ 16) }
{
    let size = head_size(v);
    fill_head(v, &mut into[..size]);
    size
}

/// The octets that a header takes with its options, from 20 to 28.
pub fn head_size(v: &TcpView<'_>) -> usize
    ensures length { result ≡ 20 + length (mss_octets v.now.mss) + length (scale_octets v.now.scale) }
    ensures few { result ≤ 28 }
{
    HEAD + mss_size(v.mss) + scale_size(v.scale)
}

/// Writes a header with its options into exactly as many octets as they take.
fn fill_head(v: &TcpView<'_>, into: &mut [u8])
    requires { length into.old ≡ 20 + length (mss_octets v.now.mss) + length (scale_octets v.now.scale) }
    ensures written { into.new ≡ head_octets (tcp_of v.now) ++ mss_octets v.now.mss ++ scale_octets v.now.scale }
    ensures fits { Fits (tcp_of v.now) }
    ensures mss { IfSome v.now.mss (λ mss. mss < 2 ^ 16) }
{
    let options = written_options(v.mss, v.scale);
    let options_size = mss_size(v.mss) + scale_size(v.scale);
    put(&head(v), &options[..options_size], into);
}

/// Writes two parts one after another.
fn put(head: &[u8], options: &[u8], into: &mut [u8])
    requires { length into.old ≡ length head.now + length options.now }
    ensures { into.new ≡ head.now ++ options.now }
{
    into[..head.len()].copy_from_slice(head);
    into[head.len()..].copy_from_slice(options);
}

/// The header without options and with 0 in the place of the sum.
fn head(v: &TcpView<'_>) -> [u8; HEAD]
    ensures octets { result ≡ head_octets (tcp_of v.now) }
    ensures fits { Fits (tcp_of v.now) }
{
    let mut head = [0; HEAD];
    BigEndian::write_u16(&mut head[..2], v.from_port);
    BigEndian::write_u16(&mut head[2..4], v.to_port);
    BigEndian::write_u32(&mut head[4..8], v.seq.0);
    BigEndian::write_u32(&mut head[8..12], v.ack.0);
    head[12] = words_of(v) * 16;
    head[13] = v.flags;
    BigEndian::write_u16(&mut head[14..16], v.window);
    head
}

/// The words of four octets that a header takes.
fn words_of(v: &TcpView<'_>) -> u8
    ensures words { result ≡ words_by (tcp_of v.now) }
    ensures few { result < 16 }
{
    (head_size(v) / 4) as u8
}

/// The options that we write, with octets of no meaning after them.
fn written_options(mss: Option<u16>, scale: Option<u8>) -> [u8; 8]
    ensures octets { mss_octets mss ++ scale_octets scale
        ≡ take (length (mss_octets mss) + length (scale_octets scale)) result }
    ensures fits { IfSome mss (λ mss. mss < 2 ^ 16) }
{
    let [high, low] = mss.unwrap_or(0).to_be_bytes();
    let shift = scale.unwrap_or(0);
    if mss.is_some() {
        [2, 4, high, low, 1, 3, 3, shift]
    } else {
        [1, 3, 3, shift, 0, 0, 0, 0]
    }
}

/// The grammar of segments holds of octets and fields exactly where these fields are read.
pub fn grammar_is_what_is_read()
    ensures { (from to : ℕ) (octets : List ℕ) (tcp : Tcp) → IsOctets octets
        → (IsTcp from to octets tcp ↔ (read_tcp from to octets ≡ Some tcp)) }
{}
