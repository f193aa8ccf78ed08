// The window that a segment tells (RFC 7323, 2).
ghost use Rattle.std.specs.Prelude.{◌≡◌, ◌≤◌};
ghost use Rattle.tcp_connection.specs.Windows.{field as field_by, is_update_owed as is_update_owed_by, least_shift as least_shift_by, moves_far as moves_far_by, our_shift as our_shift_by, shift_within as shift_within_by, told_edge as told_edge_by};

use crate::Conn;
use sock_buffers::Up;

impl Conn {
    /// The shift of our window field in segments without SYN.
    pub(crate) fn our_shift(&self) -> u8
        ensures shift { result ≡ our_shift_by self.now }
        ensures few { result ≤ 14 }
    {
        if self.scale.is_some() {
            least_shift(self.ring)
        } else {
            0
        }
    }

    /// Up to which place a segment tells that there is room.
    pub(crate) fn told_edge(&self, up: &Up, shift: u8) -> u64
        requires { shift ≤ 14 }
        ensures { result ≡ told_edge_by self.now up.now shift }
    {
        let place = self.receive.taken() + u64::from(self.receive.ended());
        place + (u64::from(field(shift, up.room())) << shift)
    }

    /// Whether a window update is owed.
    pub(crate) fn is_update_owed(&self, up: &Up) -> bool
        ensures { result ≡ is_update_owed_by self.now up.now }
    {
        !self.receive.ended() && moves_far(self.told, self.told_edge(up, self.our_shift()))
    }
}

/// The least shift by which so much room fits a window field.
pub(crate) fn least_shift(ring: u32) -> u8
    ensures shift { result ≡ least_shift_by ring }
    ensures few { result ≤ 14 }
{
    shift_within(14, ring)
}

// The least of 0 to `most` by which so much room fits a window field, else `most`.
fn shift_within(most: u8, room: u32) -> u8
    ensures shift { result ≡ shift_within_by most room }
    ensures few { result ≤ most }
{
    if most == 0 || room <= 65_535 {
        0
    } else {
        1 + shift_within(most - 1, room / 2)
    }
}

/// The window field for so much room.
pub(crate) fn field(shift: u8, room: usize) -> u16
    requires { shift ≤ 14 }
    ensures { result ≡ field_by shift room }
{
    (room >> shift).min(65_535) as u16
}

// Whether the right edge can move by two segments at least.
fn moves_far(told: Option<u64>, edge: u64) -> bool
    ensures { result ≡ moves_far_by told edge }
{
    match told {
        Some(told) => edge.saturating_sub(told) >= 2_920,
        None => false,
    }
}
