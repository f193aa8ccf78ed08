//! Writes into a ring of octets at places past what is held.

ghost use Rattle.std.specs.Prelude.{◌≡◌, ℕ, ◌+◌, ◌^◌, ◌<◌, ◌≤◌, length, take, max, slice_get, slice_set};
ghost use Rattle.sock_buffers.specs.Kept.{uncovered, written_at};

use crate::ranges::{KeptRange, covers};
use circular_buffer::HeapCircularBuffer;

/// What lies in a gap until octets come there.
const GAP: [u8; 64] = [0; 64];

/// Writes octets from the place `ahead` past the first `held` ones on, but for the places in these ranges, and answers how
/// many were written.
pub(crate) fn overwrite(
    ring: &mut HeapCircularBuffer<u8>,
    held: usize,
    ahead: usize,
    octets: &[u8],
    ranges: &[KeptRange],
) -> usize
    requires within { held + ahead + length octets.now ≤ length ring.old.items }
    requires small { length ring.old.items < 2 ^ 63 }
    ensures places { (place : ℕ) → slice_get ring.new.items place
        ≡ written_at ranges.now held ahead (length octets.now) octets.now ring.old.items place }
    ensures length { length ring.new.items ≡ length ring.old.items }
    ensures capacity { ring.new.capacity ≡ ring.old.capacity }
    ensures count { result ≡ uncovered ranges.now ahead (length octets.now) }
    ensures few { result ≤ length octets.now }
{
    let mut count = 0;
    for at in 0..octets.len() {
        if !covers(ranges, ahead + at) {
            count += 1;
            set(ring, held + ahead + at, octets[at]);
        }
    }
    count
}

/// Writes one octet.
fn set(ring: &mut HeapCircularBuffer<u8>, place: usize, octet: u8)
    requires { place < length ring.old.items }
    ensures items { ring.new.items ≡ slice_set ring.old.items place octet }
    ensures capacity { ring.new.capacity ≡ ring.old.capacity }
{
    if let Some(there) = ring.get_mut(place) {
        *there = octet;
    }
}

/// Lengthens a ring until it has so many octets, which fit.
pub(crate) fn reach(ring: &mut HeapCircularBuffer<u8>, len: usize)
    requires { len ≤ ring.old.capacity }
    ensures length { length ring.new.items ≡ max len (length ring.old.items) }
    ensures front { take (length ring.old.items) ring.new.items ≡ ring.old.items }
    ensures capacity { ring.new.capacity ≡ ring.old.capacity }
{
    while ring.len() < len {
        let missing = (len - ring.len()).min(GAP.len());
        ring.fill_from_slice(&GAP[..missing]);
    }
}
