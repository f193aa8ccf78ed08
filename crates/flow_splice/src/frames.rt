// The frames of a flow, written in their places.
//
// A frame has the header of Ethernet, that of IPv4 and that of TCP, each where it goes out, and then the octets that the host gave, copied from where they
// are held. The checksum over the segment is taken in one pass, once all of it is there.
ghost use Rattle.std.specs.Prelude.{◌≡◌, ℕ, ◌+◌, ◌^◌, ◌<◌, ◌≤◌, ◌++◌, [], length, take, drop};
ghost use Rattle.net_octets.specs.Kinds.{ipv4_kind, tcp_proto};
ghost use Rattle.ether_frame.specs.Ether.{ether_octets};
ghost use Rattle.ipv4_head.specs.Ip.{summed_head};
ghost use Rattle.sock_buffers.specs.Downward.{Downward};
ghost use Rattle.tcp_connection.specs.declared.Head.{Head as Header};
ghost use Rattle.tcp_segment.specs.Tcp.{head_octets, mss_octets, scale_octets, tcp_length, tcp_octets, tcp_of};
ghost use Rattle.sim_connection.specs.Sending.{carried, mss_in, with_head};
ghost use Rattle.flow_splice.specs.Frames.{IsHeld, IsSized, bit_if, flags_of, frame_length, request_frame, segment_frame, tcp_out};
ghost use Rattle.net_octets.specs.declared.Endpoint.{Endpoint as AnEndpoint};
ghost use Rattle.net_octets.specs.Sizes.{most_frame};
ghost use Rattle.net_octets.specs.Octets.{our_mac};

use arp_table::{EVERYONE, asking};
use byteorder::{BigEndian, ByteOrder};
use ether_frame::EtherView;
use ipv4_head::{IpView, LIFE};
use net_octets::{ARP_KIND, Endpoint, IPV4_KIND, Ip4, Mac, TCP_PROTO, checksum_after, pseudo};
use sock_buffers::Down;
use tcp_connection::{Head, Owed};
use tcp_segment::{ACK, FIN, PSH, RST, SYN, TcpView, head_size, put_head};

/// The octets of the headers of Ethernet and IPv4.
const FRONT: usize = 34;

/// Between whom a datagram goes, and which one it is.
#[derive(Clone, Copy)]
pub(crate) struct Route {
    pub(crate) guest: Endpoint,
    pub(crate) other: Endpoint,
    pub(crate) vhost: Ip4,
    pub(crate) mac: Mac,
    pub(crate) ident: u16,
}

/// How many octets of the host a segment carries.
fn payload(what: &Owed) -> usize
    ensures length { (down : Downward) → IsHeld down what.now → result ≡ length (carried down what.now) }
    ensures few { (down : Downward) → IsHeld down what.now → result ≤ 1460 }
{
    match what {
        Owed::Data(piece) => piece.length,
        Owed::Syn | Owed::SynAck | Owed::Ack | Owed::Reset { .. } => 0,
    }
}

/// Copies them.
fn put_payload(what: &Owed, down: &Down, into: &mut [u8])
    requires held { IsHeld down.now what.now }
    requires room { length into.old ≡ length (carried down.now what.now) }
    ensures { into.new ≡ carried down.now what.now }
{
    if let Owed::Data(piece) = what {
        down.copy_at(piece.place, into);
    }
}

/// The flags of a segment: PSH where it carries octets (RFC 9293, 3.9.1.2).
fn flags(what: &Owed) -> u8
    ensures { (down : Downward) (h : Header) (mru : ℕ) → IsHeld down what.now → result ≡ flags_of (with_head h mru down what.now) }
{
    match what {
        Owed::Syn => SYN,
        Owed::SynAck => SYN + ACK,
        Owed::Data(piece) => ACK + bit_if(piece.fin, FIN) + bit_if(piece.length > 0, PSH),
        Owed::Ack => ACK,
        Owed::Reset { .. } => RST + ACK,
    }
}

fn bit_if(set: bool, bit: u8) -> u8
    ensures { result ≡ bit_if set bit }
{
    if set { bit } else { 0 }
}

/// The most octets that a segment may have that comes, where ours is a SYN (RFC 9293, 3.7.1).
fn mss(what: &Owed, mru: u16) -> Option<u16>
    requires { 40 ≤ mru }
    ensures { result ≡ mss_in mru what.now }
{
    match what {
        Owed::Syn | Owed::SynAck => Some(mru - 40),
        Owed::Data(_) | Owed::Ack | Owed::Reset { .. } => None,
    }
}

/// What goes out of a segment, its octets aside.
fn outline(route: &Route, head: &Head, what: &Owed, mru: u16) -> TcpView<'static>
    requires { 40 ≤ mru }
    ensures { (down : Downward) (number : ℕ) → IsHeld down what.now → record (tcp_of result) { body = carried down what.now }
        ≡ tcp_out (record { guest = route.now.guest; other = route.now.other; number = number; vhost = route.now.vhost }) (with_head head.now mru down what.now) }
{
    TcpView {
        from_port: route.other.port,
        to_port: route.guest.port,
        seq: head.seq,
        ack: head.ack,
        flags: flags(what),
        window: head.window,
        mss: mss(what, mru),
        scale: head.scale,
        body: &[],
    }
}

/// Writes a header with its options, with 0 in the place of the sum, and the octets that the segment carries.
fn put(v: &TcpView<'_>, what: &Owed, down: &Down, segment: &mut [u8])
    requires held { IsHeld down.now what.now }
    requires room { length segment.old ≡ tcp_length (record (tcp_of v.now) { body = carried down.now what.now }) }
    ensures { segment.new ≡ head_octets (tcp_of v.now) ++ (mss_octets v.now.mss ++ scale_octets v.now.scale) ++ carried down.now what.now }
{
    let size = put_head(v, segment);
    put_payload(what, down, &mut segment[size..]);
}

/// Writes a segment into exactly as many octets as it takes. They are summed once, with 0 in the place of the sum.
fn write_segment(v: &TcpView<'_>, from: Ip4, to: Ip4, what: &Owed, down: &Down, segment: &mut [u8])
    requires held { IsHeld down.now what.now }
    requires size { tcp_length (record (tcp_of v.now) { body = carried down.now what.now }) < 2 ^ 16 }
    requires room { length segment.old ≡ tcp_length (record (tcp_of v.now) { body = carried down.now what.now }) }
    ensures { segment.new ≡ tcp_octets from.0 to.0 (record (tcp_of v.now) { body = carried down.now what.now }) }
{
    put(v, what, down, segment);
    let start = pseudo(from, to, TCP_PROTO, segment.len() as u16);
    let sum = checksum_after(start, segment);
    BigEndian::write_u16(&mut segment[16..18], sum);
}

/// The header of a datagram with so many octets behind it.
fn ip_header(route: &Route, size: usize) -> [u8; 20]
    requires { size ≤ 1488 }
    ensures { result ≡ summed_head 64 route.now.ident 0 tcp_proto route.now.other.addr.0 route.now.guest.addr.0 size }
{
    let datagram = IpView {
        ident: route.ident,
        more: false,
        offset: 0,
        ttl: LIFE,
        proto: TCP_PROTO,
        from: route.other.addr,
        to: route.guest.addr,
        head: &[],
        body: &[],
    };
    ipv4_head::header(&datagram, size)
}

/// Writes the header of a frame at the front of `into`.
fn put_ether(route: &Route, into: &mut [u8])
    requires { 14 ≤ length into.old }
    ensures written { into.new ≡ ether_octets route.now.mac.0 (our_mac route.now.vhost.0) ipv4_kind [] ++ drop 14 into.old }
    ensures six { length route.now.mac.0 ≡ 6 }
{
    let to = route.mac;
    let ether = EtherView {
        to,
        from: Mac::of_ours(route.vhost),
        kind: IPV4_KIND,
        body: &[],
    };
    ether_frame::write(&ether, into);
}

/// The octets that a segment takes.
fn segment_size(v: &TcpView<'_>, what: &Owed) -> usize
    requires { (down : Downward) × IsHeld down what.now }
    ensures { (down : Downward) → IsHeld down what.now → result ≡ tcp_length (record (tcp_of v.now) { body = carried down what.now }) }
{
    head_size(v) + payload(what)
}

/// Writes a frame with a segment of so many octets.
fn write_at(route: &Route, v: &TcpView<'_>, what: &Owed, down: &Down, size: usize, into: &mut [u8])
    requires held { IsHeld down.now what.now }
    requires size { size ≡ tcp_length (record (tcp_of v.now) { body = carried down.now what.now }) }
    requires fits { size ≤ 1480 }
    requires room { most_frame ≤ length into.old }
    ensures written { into.new ≡ ((ether_octets route.now.mac.0 (our_mac route.now.vhost.0) ipv4_kind []
        ++ summed_head 64 route.now.ident 0 tcp_proto route.now.other.addr.0 route.now.guest.addr.0 size)
        ++ tcp_octets route.now.other.addr.0 route.now.guest.addr.0 (record (tcp_of v.now) { body = carried down.now what.now }))
        ++ drop (34 + size) into.old }
    ensures six { length route.now.mac.0 ≡ 6 }
    ensures room { length into.new ≡ length into.old }
{
    put_ether(route, into);
    into[14..FRONT].copy_from_slice(&ip_header(route, size));
    write_segment(
        v,
        route.other.addr,
        route.guest.addr,
        what,
        down,
        &mut into[FRONT..FRONT + size],
    );
}

/// Writes the frame of a segment at the front of `into`, and answers its length.
pub(crate) fn write_frame(
    route: &Route,
    head: &Head,
    what: &Owed,
    mru: u16,
    down: &Down,
    into: &mut [u8],
) -> usize
    requires held { IsHeld down.now what.now }
    requires mru { 40 ≤ mru }
    requires fits { frame_length head.now mru down.now what.now ≤ most_frame }
    requires room { most_frame ≤ length into.old }
    ensures frame { (number : ℕ) → take result into.new ≡ segment_frame
        (record { guest = route.now.guest; other = route.now.other; number = number; vhost = route.now.vhost }) route.now.mac route.now.ident
        (with_head head.now mru down.now what.now) }
    ensures short { result ≤ most_frame }
    ensures room { length into.new ≡ length into.old }
    ensures sized { (number : ℕ) → IsSized (record { guest = route.now.guest; other = route.now.other; number = number; vhost = route.now.vhost })
        route.now.mac route.now.ident (with_head head.now mru down.now what.now) }
{
    // Read here, so that their ranges are known.
    let (_ident, _from, _to) = (route.ident, route.other.addr.0, route.guest.addr.0);
    let (_from_port, _to_port) = (route.other.port, route.guest.port);
    let (_seq, _ack, _window) = (head.seq.0, head.ack.0, head.window);
    let v = outline(route, head, what, mru);
    let size = segment_size(&v, what);
    write_at(route, &v, what, down, size, into);
    FRONT + size
}

/// Writes the frame of a request for a guest's hardware address (RFC 826) at the front of `into`, and answers its length.
pub(crate) fn write_request(vhost: Ip4, guest: Ip4, into: &mut [u8]) -> usize
    requires room { most_frame ≤ length into.old }
    ensures frame { (other at : AnEndpoint) (number : ℕ) → take result into.new
        ≡ request_frame (record { guest = record { addr = guest; port = at.port }; other = other; number = number; vhost = vhost }) }
    ensures short { result ≤ most_frame }
    ensures room { length into.new ≡ length into.old }
{
    let mut packet = [0; 28];
    let written = arp_table::write(&asking(vhost, guest), &mut packet);
    let ether = EtherView {
        to: EVERYONE,
        from: Mac::of_ours(vhost),
        kind: ARP_KIND,
        body: &packet[..written],
    };
    ether_frame::write(&ether, into)
}
