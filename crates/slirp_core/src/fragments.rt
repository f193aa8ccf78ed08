// Fragments of the guests' datagrams, and the datagrams to which they join.
ghost use Rattle.std.specs.Prelude.{◌≡◌, ◌+◌, ◌≤◌, ◌^◌, List, length, false};
ghost use Rattle.std.specs.Prelude.{IfSome};
ghost use Rattle.ipv4_head.specs.Ip.{ip_of};
ghost use Rattle.ipv4_head.specs.Sets.{PartSet, key_of, part_of};
ghost use Rattle.slirp_core.specs.Fragments.{FitsAssembled, IsHeld, Took, assembled_ip};
ghost use Rattle.net_octets.specs.Sizes.{most_carried};

use crate::network::Slirp;
use ipv4_head::IpView;
use ipv4_reasm::{Added, Reasm};
use net_octets::Ip4;

/// The most octets of a joined datagram: a header of 60 and a body of 65,515.
pub const LONGEST_ASSEMBLED: usize = 65_575;

/// A datagram that was joined: its fields, and how many octets its header and its body have, which stand in this order at the front of a buffer.
#[derive(Clone, Copy)]
pub struct Assembled {
    pub ident: u16,
    pub ttl: u8,
    pub proto: u8,
    pub from: Ip4,
    pub to: Ip4,
    pub head: usize,
    pub body: usize,
}

impl Slirp {
    ghost use Rattle.slirp_core.specs.Fragments.{Gathers};

    // Takes in a part of a datagram, which counts where its source is a guest, and answers the datagram that it makes whole, which then stands in the buffer.
    pub(crate) fn gather(&mut self, part: &IpView<'_>, room: &mut [u8]) -> Option<Assembled>
        requires room { length room.old ≡ 65575 }
        requires head { 20 ≤ length part.now.head.now }
        requires short { length part.now.head.now ≤ 60 }
        ensures gathers { (held : List PartSet) → IsHeld self.old.fragments held
            → Gathers self.old held (ip_of part.now) (part_of part.now) self.new.fragments result room.new }
        ensures fits { IfSome result FitsAssembled }
        ensures same { self.new ≡ record self.old { fragments = self.new.fragments } }
        ensures room { length room.new ≡ 65575 }
    {
        if !self.policy.is_guest(part.from) {
            return None;
        }
        take_part(&mut self.reasm, self.moment, part, room)
    }
}

// Puts a part to those of its datagram. Where that is whole now it is copied to the front of the buffer, and its area is free.
fn take_part(reasm: &mut Reasm, now: u64, part: &IpView<'_>, room: &mut [u8]) -> Option<Assembled>
    requires moment { now ≤ 2 ^ 62 }
    requires head { 20 ≤ length part.now.head.now }
    requires short { length part.now.head.now ≤ 60 }
    requires room { length room.old ≡ 65575 }
    ensures took { (held : List PartSet) → IsHeld reasm.old held → Took now (key_of part.now) (part_of part.now) held reasm.new result room.new }
    ensures fits { IfSome result FitsAssembled }
    ensures room { length room.new ≡ 65575 }
{
    match reasm.add(now, part) {
        Added::Whole(area) => {
            let assembled = assemble(&reasm.datagram(area), room);
            reasm.free(area);
            Some(assembled)
        }
        Added::Kept => None,
        Added::Overlap => None,
        Added::TooLong => None,
        Added::Uneven => None,
    }
}

// Copies a joined datagram to the front of a buffer.
fn assemble(datagram: &IpView<'_>, room: &mut [u8]) -> Assembled
    requires head { length datagram.now.head.now ≤ 60 }
    requires body { length datagram.now.body.now ≤ most_carried }
    requires room { length room.old ≡ 65575 }
    ensures datagram { assembled_ip result room.new ≡ record (ip_of datagram.now) { more = false; place = 0 } }
    ensures fits { FitsAssembled result }
    ensures room { length room.new ≡ 65575 }
{
    let (head, body) = (datagram.head.len(), datagram.body.len());
    room[..head].copy_from_slice(datagram.head);
    room[head..head + body].copy_from_slice(datagram.body);
    Assembled {
        ident: datagram.ident,
        ttl: datagram.ttl,
        proto: datagram.proto,
        from: datagram.from,
        to: datagram.to,
        head,
        body,
    }
}

// The datagram that stands at the front of the buffer.
pub(crate) fn datagram_at<'a>(assembled: &Assembled, octets: &'a [u8]) -> IpView<'a>
    requires { assembled.now.head + assembled.now.body ≤ length octets.now }
    ensures datagram { ip_of result ≡ assembled_ip assembled.now octets.now }
    ensures head { length result.head.now ≡ assembled.now.head }
    ensures body { length result.body.now ≡ assembled.now.body }
{
    let (head, body) = octets.split_at(assembled.head);
    IpView {
        ident: assembled.ident,
        more: false,
        offset: 0,
        ttl: assembled.ttl,
        proto: assembled.proto,
        from: assembled.from,
        to: assembled.to,
        head,
        body: &body[..assembled.body],
    }
}
