// The frames that are owed to a guest and aren't out yet.
ghost use Rattle.std.specs.Prelude.{◌≡◌, ℕ, ◌≤◌, ◌<◌, List, [], ◌∷◌, drop, length, take};
ghost use Rattle.net_octets.specs.Kinds.{arp_kind};
ghost use Rattle.arp_table.specs.Arp.{arp_of, arp_octets};
ghost use Rattle.ether_frame.specs.Ether.{ether_octets};
ghost use Rattle.icmp_echo.specs.Icmp.{CanWrite, icmp_of, icmp_with};
ghost use Rattle.udp_datagram.specs.Udp.{udp_of};
ghost use Rattle.tcp_segment.specs.Tcp.{tcp_length, tcp_of};
ghost use Rattle.owed_frames.specs.Outgoing.{IsEncoded, MayBeCut, message_frames, segment_frames, udp_frames};
ghost use Rattle.spec_run.specs.Answers.{datagrams_in};
ghost use Rattle.net_octets.specs.Sizes.{most_carried, most_frame};
ghost use Rattle.world_face.specs.Frames.{encoding};
ghost use Rattle.world_face.specs.Limits.{most_to_link, most_to_udp};

use crate::cutting::Cutting;
use arp_table::ArpView;
use byteorder::{BigEndian, ByteOrder};
use ether_frame::EtherView;
use icmp_echo::IcmpView;
use net_octets::{ARP_KIND, IPV4_KIND, Ip4, Mac, NoMemory};
use std::alloc::Global;
use std::marker::Model;
use stream_netdev::{LENGTH, encode};
use tcp_segment::TcpView;
use udp_datagram::UdpView;
use world_face::MOST_TO_LINK;

/// The frame that is next, behind its length, and the datagram of which the parts behind it aren't cut yet.
#[derive(Drop)]
pub struct Outgoing {
    frame: Vec<u8>,
    cutting: Cutting,
    used: usize,
}

/// Between whom a datagram goes, which one it is, and how many octets of IPv4 a frame carries.
#[derive(Clone, Copy)]
pub struct Course {
    /// The guest's hardware address.
    pub to_mac: Mac,
    /// Our own.
    pub from_mac: Mac,
    pub ident: u16,
    pub from: Ip4,
    pub to: Ip4,
    pub mtu: u16,
}

impl Model for Outgoing {
    ghost use Rattle.std.specs.Prelude.{◌≡◌, ℕ, ◌≤◌, ◌++◌, [], List, length};
    ghost use Rattle.owed_frames.specs.Outgoing.{IsEncoded, frames_in};
    ghost use Rattle.world_face.specs.Limits.{most_to_link};

    ghost Value = { List (List ℕ) };

    ghost view = { λ o. frames_in o.used o.frame.items ++ o.cutting };

    ghost invariant = { λ o. (o.used ≤ most_to_link) × (length o.frame.items ≡ most_to_link)
        × (o.used ≡ 0 → o.cutting ≡ []) × IsEncoded o.used o.frame.items };
}

impl Outgoing {
    ghost use Rattle.std.specs.Prelude.{nat_lt, IfOk};

    /// No frame, and the room for those of a datagram.
    pub fn open(alloc: Global) -> Result<Outgoing, NoMemory>
        ensures { IfOk result (λ outgoing. outgoing ≡ []) }
    {
        let Ok(frame) = vec![in alloc; 0; MOST_TO_LINK] else {
            return Err(NoMemory);
        };
        let cutting = Cutting::open(alloc)?;
        Ok(Outgoing {
            frame,
            cutting,
            used: 0,
        })
    }

    /// Whether there is one.
    pub fn is_some(&self) -> bool
        ensures { result ≡ nat_lt 0 (length self.now) }
    {
        self.used > 0
    }

    /// The frame that is next.
    pub fn frame(&self) -> &[u8]
        requires { 0 < length self.now }
        ensures frame { self.now ≡ result.now ∷ drop 1 self.now }
    {
        behind_length(&self.frame[..self.used])
    }

    /// The same behind its length, as it goes out.
    pub fn encoded(&self) -> &[u8]
        requires { 0 < length self.now }
        ensures encoded { (frame : List ℕ) × (result.now ≡ encoding frame) × (self.now ≡ frame ∷ drop 1 self.now) }
        ensures length { length result.now ≤ most_to_link }
    {
        &self.frame[..self.used]
    }

    /// The frame that was next is out: from now on the one behind it is.
    pub fn advance(&mut self)
        requires { 0 < length self.old }
        ensures { self.new ≡ drop 1 self.old }
    {
        self.used = self.cutting.write_next(&mut self.frame);
    }

    /// From now on there is none.
    pub fn clear(&mut self)
        ensures { self.new ≡ [] }
    {
        self.cutting.clear();
        self.used = 0;
    }

    /// From now on the one frame is that of an ARP packet, to this hardware address.
    pub fn put_arp(&mut self, to: Mac, packet: &ArpView)
        ensures { self.new ≡ ether_octets to.0 packet.now.sender_mac.0 arp_kind (arp_octets (arp_of packet.now)) ∷ [] }
    {
        self.cutting.clear();
        self.used = write_arp(to, packet, &mut self.frame);
    }

    /// From now on the frames are those of a datagram with a message, which has at most 65,515 octets.
    pub fn put_message(&mut self, course: &Course, message: &IcmpView<'_>)
        requires course { MayBeCut course.now }
        requires size { length (icmp_with 0 (icmp_of message.now)) ≤ most_carried }
        requires kind { CanWrite (icmp_of message.now) }
        ensures { self.new ≡ message_frames course.now (icmp_of message.now) }
    {
        self.cutting.put_message(course, message);
        self.used = self.cutting.write_next(&mut self.frame);
    }

    /// From now on the frames are those of a datagram of UDP, whose payload has at most 65,507 octets.
    pub fn put_udp(&mut self, course: &Course, datagram: &UdpView<'_>)
        requires course { MayBeCut course.now }
        requires size { length datagram.now.body.now ≤ most_to_udp }
        ensures { self.new ≡ udp_frames course.now (udp_of datagram.now) }
    {
        self.cutting.put_udp(course, datagram);
        self.used = self.cutting.write_next(&mut self.frame);
    }

    /// From now on the frames are those of a datagram with a segment of TCP, which has at most 65,515 octets with its header.
    pub fn put_segment(&mut self, course: &Course, segment: &TcpView<'_>)
        requires course { MayBeCut course.now }
        requires size { tcp_length (tcp_of segment.now) ≤ most_carried }
        ensures { self.new ≡ segment_frames course.now (tcp_of segment.now) }
    {
        self.cutting.put_segment(course, segment);
        self.used = self.cutting.write_next(&mut self.frame);
    }
}

// Writes the frame of an ARP packet behind its length, and answers how many octets both have.
fn write_arp(to: Mac, packet: &ArpView, frame: &mut [u8]) -> usize
    requires room { length frame.old ≡ most_to_link }
    ensures frame { drop 4 (take result frame.new) ≡ ether_octets to.0 packet.now.sender_mac.0 arp_kind (arp_octets (arp_of packet.now)) }
    ensures encoded { IsEncoded result frame.new }
    ensures length { (0 < result) × (result ≤ most_to_link) }
    ensures room { length frame.new ≡ most_to_link }
{
    let length = write_arp_frame(to, packet, &mut frame[LENGTH..]);
    encode(frame, length)
}

// Writes the frame of an ARP packet, and answers its length.
fn write_arp_frame(to: Mac, packet: &ArpView, frame: &mut [u8]) -> usize
    requires room { length frame.old ≡ most_frame }
    ensures frame { take result frame.new ≡ ether_octets to.0 packet.now.sender_mac.0 arp_kind (arp_octets (arp_of packet.now)) }
    ensures length { (0 < result) × (result ≤ most_frame) }
    ensures room { length frame.new ≡ most_frame }
{
    let mut body = [0; 28];
    let written = arp_table::write(packet, &mut body);
    let ether = EtherView {
        to,
        from: packet.sender_mac,
        kind: ARP_KIND,
        body: &body[..written],
    };
    ether_frame::write(&ether, frame)
}

// The frame that stands behind its length.
fn behind_length(octets: &[u8]) -> &[u8]
    ensures { result.now ≡ drop 4 octets.now }
{
    &octets[octets.len().min(LENGTH)..]
}

/// How many datagrams begin in the frame: one where it carries one, or the first part of one.
pub fn datagrams_in(frame: &[u8]) -> u16
    ensures { result ≡ datagrams_in frame.now }
{
    let begins = frame.len() >= 22
        && BigEndian::read_u16(&frame[12..14]) == IPV4_KIND
        && BigEndian::read_u16(&frame[20..22]) % 8192 == 0;
    if begins { 1 } else { 0 }
}
