// A datagram that is owed to a guest, cut as it goes.
ghost use Rattle.std.specs.Prelude.{◌≡◌, ℕ, ◌+◌, ◌++◌, ◌≤◌, ◌<◌, List, [], drop, length, take};
ghost use Rattle.ether_frame.specs.Ether.{ether_octets};
ghost use Rattle.net_octets.specs.Kinds.{ipv4_kind};
ghost use Rattle.ipv4_head.specs.Cuts.{cut_at, cut_count};
ghost use Rattle.ipv4_head.specs.Ip.{fragment_of, ip_with};
ghost use Rattle.icmp_echo.specs.Icmp.{CanWrite, icmp_of, icmp_with, icmp_octets};
ghost use Rattle.udp_datagram.specs.Udp.{udp_of, udp_octets};
ghost use Rattle.tcp_segment.specs.Tcp.{tcp_length, tcp_of};
ghost use Rattle.owed_frames.specs.Outgoing.{MayBeCut, message_frames, segment_frames, segment_octets, udp_frames};
ghost use Rattle.spec_run.specs.Answers.{part_frame, uncut};
ghost use Rattle.net_octets.specs.Sizes.{most_carried, most_frame};
ghost use Rattle.world_face.specs.Limits.{most_to_link, most_to_udp};

use crate::outgoing::Course;
use ether_frame::EtherView;
use icmp_echo::IcmpView;
use ipv4_head::{IpView, LIFE};
use ipv4_reasm::cut;
use net_octets::{ICMP_PROTO, IPV4_KIND, Ip4, MOST_CARRIED, Mac, NoMemory, TCP_PROTO, UDP_PROTO};
use std::alloc::Global;
use std::marker::Model;
use stream_netdev::{LENGTH, encode};
use tcp_segment::TcpView;
use udp_datagram::UdpView;

/// The octets of a header of IPv4 without options.
const IP_HEAD: usize = 20;

/// The octets of a header of Ethernet.
const ETHER_HEAD: usize = 14;

/// Both.
const HEADS: usize = ETHER_HEAD + IP_HEAD;

/// How a datagram is cut: its course and protocol, the octets of its body, the part that is next, and how many there are from that one on.
#[derive(Clone, Copy)]
pub struct Plan {
    pub course: Course,
    pub proto: u8,
    pub size: usize,
    pub next: usize,
    pub left: usize,
}

/// At most one datagram, whole, and its parts that aren't cut yet. A contract sees the frames of these parts, in their order.
#[derive(Drop)]
pub struct Cutting {
    body: Vec<u8>,
    plan: Plan,
}

impl Model for Cutting {
    ghost use Rattle.std.specs.Prelude.{◌≡◌, ℕ, ◌+◌, ◌≤◌, List, length};
    ghost use Rattle.ipv4_head.specs.Cuts.{cut_count};
    ghost use Rattle.owed_frames.specs.Outgoing.{frames_left};
    ghost use Rattle.net_octets.specs.Sizes.{most_carried};

    ghost Value = { List (List ℕ) };

    ghost view = { λ c. frames_left c.plan c.body.items };

    ghost invariant = { λ c. (length c.body.items ≡ most_carried) × (c.plan.size ≤ most_carried) × (28 ≤ c.plan.course.mtu) × (c.plan.course.mtu ≤ 1500)
        × (c.plan.next + c.plan.left ≤ cut_count c.plan.course.mtu c.plan.size) };
}

impl Cutting {
    ghost use Rattle.std.specs.Prelude.{[], ◌++◌, IfOk};
    ghost use Rattle.owed_frames.specs.Outgoing.{IsEncoded, frames_in};

    /// No datagram, and the room for one.
    pub fn open(alloc: Global) -> Result<Cutting, NoMemory>
        ensures { IfOk result (λ cutting. cutting ≡ []) }
    {
        let Ok(body) = vec![in alloc; 0; MOST_CARRIED] else {
            return Err(NoMemory);
        };
        let course = Course {
            to_mac: Mac([0; 6]),
            from_mac: Mac([0; 6]),
            ident: 0,
            from: Ip4(0),
            to: Ip4(0),
            mtu: 1500,
        };
        let plan = Plan {
            course,
            proto: UDP_PROTO,
            size: 0,
            next: 0,
            left: 0,
        };
        Ok(Cutting { body, plan })
    }

    /// From now on no part is left.
    pub fn clear(&mut self)
        ensures { self.new ≡ [] }
    {
        self.plan.left = 0;
    }

    /// From now on the parts of a datagram with a message are left, which has at most 65,515 octets.
    pub fn put_message(&mut self, course: &Course, message: &IcmpView<'_>)
        requires course { MayBeCut course.now }
        requires size { length (icmp_with 0 (icmp_of message.now)) ≤ most_carried }
        requires kind { CanWrite (icmp_of message.now) }
        ensures { self.new ≡ message_frames course.now (icmp_of message.now) }
    {
        let size = write_message(message, &mut self.body);
        self.plan = plan_of(course, ICMP_PROTO, size);
    }

    /// From now on the parts of a datagram of UDP are left, whose payload has at most 65,507 octets.
    pub fn put_udp(&mut self, course: &Course, datagram: &UdpView<'_>)
        requires course { MayBeCut course.now }
        requires size { length datagram.now.body.now ≤ most_to_udp }
        ensures { self.new ≡ udp_frames course.now (udp_of datagram.now) }
    {
        let size = write_udp(course, datagram, &mut self.body);
        self.plan = plan_of(course, UDP_PROTO, size);
    }

    /// From now on the parts of a datagram with a segment of TCP are left, which has at most 65,515 octets with its header.
    pub fn put_segment(&mut self, course: &Course, segment: &TcpView<'_>)
        requires course { MayBeCut course.now }
        requires size { tcp_length (tcp_of segment.now) ≤ most_carried }
        ensures { self.new ≡ segment_frames course.now (tcp_of segment.now) }
    {
        let size = write_segment(course, segment, &mut self.body);
        self.plan = plan_of(course, TCP_PROTO, size);
    }

    /// Cuts the next part and writes its frame behind its length, and answers how many octets both have: 0 exactly where no part is left.
    pub fn write_next(&mut self, frame: &mut [u8]) -> usize
        requires room { length frame.old ≡ most_to_link }
        ensures frame { frames_in result frame.new ++ self.new ≡ self.old }
        ensures encoded { IsEncoded result frame.new }
        ensures none { result ≡ 0 → self.new ≡ [] }
        ensures length { result ≤ most_to_link }
        ensures room { length frame.new ≡ most_to_link }
    {
        if self.plan.left == 0 {
            return 0;
        }
        let length = write_part(
            &self.plan,
            &self.body[..self.plan.size],
            &mut frame[LENGTH..],
        );
        self.plan.next += 1;
        self.plan.left -= 1;
        encode(frame, length)
    }
}

// How a datagram with so many octets is cut.
fn plan_of(course: &Course, proto: u8, size: usize) -> Plan
    requires least { 28 ≤ course.now.mtu }
    requires size { size ≤ most_carried }
    ensures { result ≡ record { course = course.now; proto = proto; size = size; next = 0; left = cut_count course.now.mtu size } }
{
    Plan {
        course: *course,
        proto,
        size,
        next: 0,
        left: parts_of(size, course.mtu.into()),
    }
}

// How many parts a datagram with so many octets is cut into.
fn parts_of(size: usize, mtu: usize) -> usize
    requires least { 28 ≤ mtu }
    requires size { size ≤ most_carried }
    ensures { result ≡ cut_count mtu size }
{
    let room = mtu - IP_HEAD;
    let units = 8 * (room / 8);
    1 + (size.saturating_sub(room) + (units - 1)) / units
}

// Writes a message, and answers its length.
fn write_message(message: &IcmpView<'_>, body: &mut [u8]) -> usize
    requires room { length body.old ≡ most_carried }
    requires size { length (icmp_with 0 (icmp_of message.now)) ≤ most_carried }
    requires kind { CanWrite (icmp_of message.now) }
    ensures message { take result body.new ≡ icmp_octets (icmp_of message.now) }
    ensures length { result ≡ length (icmp_octets (icmp_of message.now)) }
    ensures short { result ≤ most_carried }
    ensures room { length body.new ≡ most_carried }
{
    icmp_echo::write(message, body)
}

// Writes a datagram of UDP, and answers its length.
fn write_udp(course: &Course, datagram: &UdpView<'_>, body: &mut [u8]) -> usize
    requires room { length body.old ≡ most_carried }
    requires size { length datagram.now.body.now ≤ most_to_udp }
    ensures datagram { take result body.new ≡ udp_octets course.now.from.0 course.now.to.0 (udp_of datagram.now) }
    ensures length { result ≡ length (udp_octets course.now.from.0 course.now.to.0 (udp_of datagram.now)) }
    ensures short { result ≤ most_carried }
    ensures room { length body.new ≡ most_carried }
{
    udp_datagram::write(datagram, course.from, course.to, body)
}

// Writes a segment of TCP, and answers its length.
#[tactic(auto, unfolding(crate::specs::Outgoing::segment_octets))]
fn write_segment(course: &Course, segment: &TcpView<'_>, body: &mut [u8]) -> usize
    requires room { length body.old ≡ most_carried }
    requires size { tcp_length (tcp_of segment.now) ≤ most_carried }
    ensures segment { take result body.new ≡ segment_octets course.now.from.0 course.now.to.0 (tcp_of segment.now) }
    ensures length { result ≡ length (segment_octets course.now.from.0 course.now.to.0 (tcp_of segment.now)) }
    ensures short { result ≤ most_carried }
    ensures room { length body.new ≡ most_carried }
{
    tcp_segment::write(segment, course.from, course.to, body)
}

// Writes the frame of the part that is next of a datagram with this body, and answers its length.
fn write_part(plan: &Plan, body: &[u8], frame: &mut [u8]) -> usize
    requires room { length frame.old ≡ most_frame }
    requires least { 28 ≤ plan.now.course.mtu }
    requires most { plan.now.course.mtu ≤ 1500 }
    requires short { length body.now ≤ most_carried }
    requires part { plan.now.next < cut_count plan.now.course.mtu (length body.now) }
    ensures frame { take result frame.new ≡ part_frame plan.now.course.to_mac.0 plan.now.course.from_mac.0 plan.now.course.ident plan.now.proto
        plan.now.course.from.0 plan.now.course.to.0 (cut_at plan.now.course.mtu (uncut body.now) plan.now.next) }
    ensures length { (0 < result) × (result ≤ most_frame) }
    ensures room { length frame.new ≡ most_frame }
{
    let course = plan.course;
    let datagram = IpView {
        ident: course.ident,
        more: false,
        offset: 0,
        ttl: LIFE,
        proto: plan.proto,
        from: course.from,
        to: course.to,
        head: &[],
        body,
    };
    let Some(part) = cut(&datagram, course.mtu.into(), plan.next) else {
        unreachable!()
    };
    write_frame(&course, &part, frame)
}

// Writes the frame of a part, each header and what the part carries at their places, and answers its length.
fn write_frame(course: &Course, part: &IpView<'_>, frame: &mut [u8]) -> usize
    requires room { length frame.old ≡ most_frame }
    requires size { 20 + length part.now.body.now ≤ 1500 }
    requires place { part.now.offset < 8192 }
    ensures frame { take result frame.new ≡ ether_octets course.now.to_mac.0 course.now.from_mac.0 ipv4_kind
        (ip_with part.now.ttl part.now.ident (fragment_of part.now.more part.now.offset) part.now.proto part.now.from.0 part.now.to.0 part.now.body.now) }
    ensures length { (0 < result) × (result ≤ most_frame) }
    ensures room { length frame.new ≡ most_frame }
{
    put_ether(course, frame);
    let size = part.body.len();
    frame[ETHER_HEAD..HEADS].copy_from_slice(&ipv4_head::header(part, size));
    frame[HEADS..HEADS + size].copy_from_slice(part.body);
    HEADS + size
}

// Writes the header of a frame on this course at the front of `frame`.
fn put_ether(course: &Course, frame: &mut [u8])
    requires { length frame.old ≡ most_frame }
    ensures written { frame.new ≡ ether_octets course.now.to_mac.0 course.now.from_mac.0 ipv4_kind [] ++ drop 14 frame.old }
    ensures to { length course.now.to_mac.0 ≡ 6 }
    ensures from { length course.now.from_mac.0 ≡ 6 }
{
    let (to, from) = (course.to_mac, course.from_mac);
    let ether = EtherView {
        to,
        from,
        kind: IPV4_KIND,
        body: &[],
    };
    ether_frame::write(&ether, frame);
}
