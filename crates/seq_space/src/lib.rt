//! Sequence numbers of 32 bits (RFC 9293, 3.4), and the places in a stream for which they stand.
//!
//! Proved: `ahead`, `number_at` and `nearest` are exactly what they say of numbers and places; a place is unique. `is_ahead` says of two numbers what `ahead` tells of
//! them (`way`).
//!
//! Let through (rt plant): nothing.
#![tactic(auto)]

ghost use Rattle.std.specs.Prelude.{◌≡◌, ◌≤◌, ◌^◌, ◌↔◌, ℤ, pos, ◌<ℤ◌, IsTrue};
ghost use Rattle.seq_space.specs.Places.{IsAhead, IsPlace, is_ahead, number_of, place as place_of};

/// A sequence number of TCP, modulo 2^32 (RFC 9293, 3.4).
#[derive(Clone, Copy, Debug, PartialEq, Eq)]
pub struct Seq(pub u32);

/// How far `a` is ahead of `b`, the short way round: the one number from -2^31 on and below 2^31
/// that differs from `a - b` by a multiple of 2^32. Where it is negative, `a` is behind `b`.
pub fn ahead(a: Seq, b: Seq) -> i32
    ensures { IsAhead a.0 b.0 result }
{
    a.0.wrapping_sub(b.0).cast_signed()
}

/// Whether `a` is ahead of `b`, the short way round.
pub fn is_ahead(a: Seq, b: Seq) -> bool
    ensures value { result ≡ is_ahead a.0 b.0 }
    ensures way { (d : ℤ) → IsAhead a.0 b.0 d → IsTrue result ↔ (pos 0 <ℤ d) }
{
    let steps = a.0.wrapping_sub(b.0);
    0 < steps && steps < 1 << 31
}

/// The number at a place of the stream whose SYN has the number `first`. The first octet after the
/// SYN has the place 0.
pub fn number_at(first: Seq, place: u64) -> Seq
    ensures { result.0 ≡ number_of first.0 place }
{
    Seq(
        first
            .0
            .wrapping_add(1)
            .wrapping_add((place % (1 << 32)) as u32),
    )
}

/// The place nearest to `top` for which the number may stand, in the stream whose SYN has the
/// number `first`. It is from `top - 2^31` on and below `top + 2^31`, and that of the SYN is -1.
pub fn nearest(number: Seq, first: Seq, top: u64) -> i64
    requires { top ≤ 2 ^ 62 }
    ensures near { IsPlace number.0 first.0 top result }
    ensures value { result ≡ place_of number.0 first.0 top }
{
    top as i64 + i64::from(ahead(number, number_at(first, top)))
}
