//! What didn't come yet between the parts of a datagram (RFC 815).
ghost use Rattle.std.specs.Prelude.{◌≡◌, ◌≤◌};
ghost use Rattle.ipv4_head.specs.Sets.{end_of, part_of};
ghost use Rattle.ipv4_head.specs.Holes.{left_before, left_behind, lies_in, unit_end};
ghost use Rattle.net_octets.specs.Sizes.{most_carried};

use crate::IpView;

/// A run of units of 8 octets that didn't come: from one on, up to another or without end.
#[derive(Clone, Copy)]
pub struct Hole {
    pub from: u16,
    pub to: Option<u16>,
}

impl Hole {
    /// Whether a part lies in it: the last part of a datagram only where it is endless.
    pub fn takes(&self, v: &IpView<'_>) -> bool
        requires { end_of (part_of v.now) ≤ most_carried }
        ensures { result ≡ lies_in (part_of v.now) self.now }
    {
        let end = unit_end(v);
        let ends_here = match self.to {
            None => true,
            Some(to) => v.more && end <= to,
        };
        self.from <= v.offset && ends_here
    }

    /// What is left of it before a part.
    pub fn before(&self, v: &IpView<'_>) -> Option<Hole>
        ensures { result ≡ left_before (part_of v.now) self.now }
    {
        (self.from < v.offset).then_some(Hole {
            from: self.from,
            to: Some(v.offset),
        })
    }

    /// What is left of it behind a part, of which nothing follows the last one.
    pub fn behind(&self, v: &IpView<'_>) -> Option<Hole>
        requires { end_of (part_of v.now) ≤ most_carried }
        ensures { result ≡ left_behind (part_of v.now) self.now }
    {
        let end = unit_end(v);
        let left = match self.to {
            None => true,
            Some(to) => end < to,
        };
        (v.more && left).then_some(Hole {
            from: end,
            to: self.to,
        })
    }
}

/// The first unit behind those of a part.
fn unit_end(v: &IpView<'_>) -> u16
    requires { end_of (part_of v.now) ≤ most_carried }
    ensures { result ≡ unit_end (part_of v.now) }
{
    let units = (v.body.len() + 7) / 8;
    v.offset + units as u16
}
