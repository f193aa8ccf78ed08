// Frames between the guest and the network, and the segments in them.
ghost use Rattle.std.specs.Prelude.{◌≤◌, ◌<◌, ◌+◌, ◌^◌, length, IfSome};

use crate::reporting::fill;
use ether_frame::EtherView;
use ipv4_head::IpView;
use net_octets::{Endpoint, IPV4_KIND, Ip4, Mac, NoMemory, TCP_PROTO};
use seq_space::Seq;
use std::alloc::Global;
use tcp_segment::TcpView;
use world_face::MOST_TO_LINK;

/// The address of the guest, 10.0.2.15.
pub const GUEST: Ip4 = Ip4(0x0a00020f);

/// Where the guest's flows go: port 80 at 192.0.2.7, in a block for documentation (RFC 5737, 3).
pub const SERVER: Endpoint = Endpoint {
    addr: Ip4(0xc0000207),
    port: 80,
};

const GUEST_MAC: Mac = Mac([0x52, 0x54, 0x00, 0x12, 0x34, 0x56]);

const NETWORK_MAC: Mac = Mac([0x52, 0x55, 10, 0, 2, 2]);

const TIME_TO_LIVE: u8 = 64;

/// The octets of the length before a frame.
const LENGTH: usize = 4;

/// The most octets that a segment of the guest carries, and that it has with its header and options.
pub const MOST_BODY: usize = 1000;

const MOST_SEGMENT: usize = MOST_BODY + 28;

/// A frame with its length before it, as the link carries it, and the flow of the guest that sent it.
#[derive(Clone, Copy)]
pub struct Frame {
    pub flow: usize,
    pub count: usize,
    pub octets: [u8; MOST_TO_LINK],
}

impl Frame {
    /// A frame of which nothing came yet.
    pub fn empty() -> Frame {
        Frame {
            flow: 0,
            count: 0,
            octets: [0; MOST_TO_LINK],
        }
    }

    /// Adds octets that the link carries next. Of more than 1,518 in all none is kept.
    pub fn add(&mut self, octets: &[u8]) {
        let place = self.count;
        let end = place.saturating_add(octets.len());
        if end > MOST_TO_LINK {
            self.count = 0;
            return;
        }
        self.octets[place..end].copy_from_slice(octets);
        self.count = end;
    }

    /// Whether the length came, and as many octets as it says.
    pub fn is_whole(&self) -> bool {
        let [one, two, three, four, came @ ..] = self.carried() else {
            return false;
        };
        came.len() >= u32::from_be_bytes([*one, *two, *three, *four]) as usize
    }

    /// What the link carries of it.
    pub fn carried(&self) -> &[u8] {
        match self.octets.get(..self.count) {
            Some(octets) => octets,
            None => &[],
        }
    }

    /// Reads of what the link carries, from a place on, and answers how many octets.
    pub fn read_from(&self, place: usize, into: &mut [u8]) -> usize
        ensures { result ≤ length into.old }
    {
        match self.carried().get(place..) {
            Some(left) => fill(left, into),
            None => 0,
        }
    }

    /// The frame that carries a segment of the guest's flow. None where the segment has more than 1,000 octets of data, or finds no room.
    pub fn carrying(flow: usize, segment: &TcpView<'_>) -> Option<Frame> {
        let mut body = [0; MOST_SEGMENT];
        let size = write_segment(segment, &mut body)?;
        let mut packet = [0; MOST_SEGMENT + 20];
        let size = write_datagram(body.get(..size)?, &mut packet)?;
        let mut frame = Frame::empty();
        frame.flow = flow;
        frame.put(packet.get(..size)?).then_some(frame)
    }

    // Puts a packet to the network into an empty frame, where there is room.
    fn put(&mut self, packet: &[u8]) -> bool {
        let ether = EtherView {
            to: NETWORK_MAC,
            from: GUEST_MAC,
            kind: IPV4_KIND,
            body: packet,
        };
        let Ok(size) = ether_frame::encode(&ether, &mut self.octets[LENGTH..]) else {
            return false;
        };
        self.count = LENGTH + size;
        let length = (size as u32).to_be_bytes();
        self.octets[..LENGTH].copy_from_slice(&length);
        true
    }
}

// Writes a segment to the server of at most 1,000 octets, where there is room, and answers how long it is.
#[tactic(auto, using(crate::proofs::Sizes::is_small))]
fn write_segment(segment: &TcpView<'_>, into: &mut [u8]) -> Option<usize> {
    if segment.body.len() > MOST_BODY {
        return None;
    }
    tcp_segment::encode(segment, GUEST, SERVER.addr, into).ok()
}

// Writes the datagram that carries a segment to the server, where there is room, and answers how long it is.
fn write_datagram(segment: &[u8], into: &mut [u8]) -> Option<usize>
    requires { 20 + length segment.now < 2 ^ 16 }
{
    let datagram = IpView {
        ident: 0,
        more: false,
        offset: 0,
        ttl: TIME_TO_LIVE,
        proto: TCP_PROTO,
        from: GUEST,
        to: SERVER.addr,
        head: &[],
        body: segment,
    };
    ipv4_head::encode(&datagram, into).ok()
}

/// The segment to the guest in what the link carries, where there is one of the server.
pub fn segment_in(carried: &[u8]) -> Option<TcpView<'_>> {
    let octets = octets_in(packet_in(carried)?)?;
    match tcp_segment::decode(octets, SERVER.addr, GUEST) {
        Ok(segment) if segment.from_port == SERVER.port => Some(segment),
        _ => None,
    }
}

// The packet in what the link carries.
fn packet_in(carried: &[u8]) -> Option<&[u8]> {
    let Ok(ether) = ether_frame::decode(carried.get(LENGTH..)?) else {
        return None;
    };
    (ether.kind == IPV4_KIND).then_some(ether.body)
}

// The octets of a segment in a whole datagram of the server to the guest.
fn octets_in(packet: &[u8]) -> Option<&[u8]>
    ensures { IfSome result (λ octets. length octets.now ≤ 65535) }
{
    let Ok(datagram) = ipv4_head::decode(packet) else {
        return None;
    };
    let whole = !datagram.more && datagram.offset == 0;
    if datagram.proto != TCP_PROTO || datagram.to != GUEST || !whole {
        return None;
    }
    if datagram.from != SERVER.addr || datagram.body.len() > 65535 {
        return None;
    }
    Some(datagram.body)
}

/// Frames in a row, with room for a fixed number, all of it taken at opening.
#[derive(Drop)]
pub struct Frames {
    list: Vec<Frame>,
    first: usize,
    count: usize,
}

impl Frames {
    /// No frame, and memory for `room` of them. Err where there isn't so much.
    pub fn open(alloc: Global, room: usize) -> Result<Frames, NoMemory> {
        let Ok(list) = vec![in alloc; Frame::empty(); room] else {
            return Err(NoMemory);
        };
        Ok(Frames {
            list,
            first: 0,
            count: 0,
        })
    }

    /// How many frames stand in the row, at most as many as there is room for.
    pub fn count(&self) -> usize {
        self.count
    }

    /// Puts a frame at the end. False where there is no room, and then nothing is put.
    pub fn push(&mut self, frame: &Frame) -> bool {
        let room = self.list.len();
        let free = self.count < room;
        let place = self.first.wrapping_add(self.count);
        let place = if place < room {
            place
        } else {
            place.wrapping_sub(room)
        };
        match self.list.get_mut(place) {
            Some(into) if free => {
                *into = *frame;
                self.count = self.count.saturating_add(1);
                true
            }
            _ => false,
        }
    }

    /// The frame that was put first of those that are left; None where none is.
    pub fn front(&self) -> Option<&Frame> {
        if self.count == 0 {
            return None;
        }
        self.list.get(self.first)
    }

    /// Takes the first frame away.
    pub fn drop_front(&mut self) {
        if self.count == 0 {
            return;
        }
        self.count = self.count.saturating_sub(1);
        self.first = self.first.saturating_add(1);
        if self.first >= self.list.len() {
            self.first = 0;
        }
    }

    /// Takes away the frame that was put last, and answers it; None where there is none.
    pub fn pop(&mut self) -> Option<Frame> {
        if self.count == 0 {
            return None;
        }
        self.count = self.count.saturating_sub(1);
        let room = self.list.len();
        let place = self.first.wrapping_add(self.count);
        let place = if place < room {
            place
        } else {
            place.wrapping_sub(room)
        };
        self.list.get(place).copied()
    }
}
