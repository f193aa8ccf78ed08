//! Ranges of places, in rising order and with a place between each and the next.

ghost use Rattle.std.specs.Prelude.{◌≡◌, ◌+◌, ◌<◌, ◌∷◌, ◌++◌, IsNone, IfSome, ◌↔◌, length};
ghost use Rattle.arrayvec.specs.ArrayVec.{array_vec_len};
ghost use Rattle.sock_buffers.specs.Kept.{AreApart, covers as covers_place, first_covered, has_place, hull as hull_of, past, with_range as with_one};

use arrayvec::ArrayVec;

/// How many ranges there may be.
pub(crate) const RANGES: usize = 32;

/// Places where octets are kept: from `start` up to `end`, which is not one of them. They are counted from the end of what
/// is held.
#[derive(Clone, Copy, Debug, Default, PartialEq, Eq)]
pub struct KeptRange {
    pub start: usize,
    pub end: usize,
}

/// The ranges of kept octets.
pub(crate) type Ranges = ArrayVec<KeptRange, RANGES>;

/// Whether a place is in one of these ranges.
pub(crate) fn covers(ranges: &[KeptRange], place: usize) -> bool
    ensures { result ≡ covers_place ranges.now place }
{
    ranges
        .iter()
        .any(|range| range.start <= place && place < range.end)
}

/// These ranges with one more, where those that it overlaps or adjoins become one with it. `None` where they would be more
/// than 32.
pub(crate) fn with_range(ranges: &[KeptRange], new: KeptRange) -> Option<Ranges>
    ensures all { IfSome result (λ all. all.items ≡ with_one ranges.now new) }
    ensures none { IsNone result ↔ (RANGES < length (with_one ranges.now new)) }
{
    let mut all = ArrayVec::new();
    let mut new = new;
    for (at, range) in ranges.iter().enumerate() {
        if new.end < range.start {
            return followed_by(all, new, &ranges[at..]);
        }
        if range.end < new.start {
            all.try_push(*range).ok()?;
        } else {
            new = hull(*range, new);
        }
    }
    all.try_push(new).ok()?;
    Some(all)
}

/// These ranges, then one more, then the others.
fn followed_by(all: Ranges, new: KeptRange, rest: &[KeptRange]) -> Option<Ranges>
    ensures all { IfSome result (λ longer. longer.items ≡ all.items ++ new ∷ rest.now) }
    ensures none { IsNone result ↔ (RANGES < length all.items + 1 + length rest.now) }
{
    let mut all = all;
    all.try_push(new).ok()?;
    for range in rest {
        all.try_push(*range).ok()?;
    }
    Some(all)
}

/// The least range over two.
fn hull(a: KeptRange, b: KeptRange) -> KeptRange
    ensures { result ≡ hull_of a b }
{
    KeptRange {
        start: a.start.min(b.start),
        end: a.end.max(b.end),
    }
}

/// How many places from the first on are covered.
pub(crate) fn first_places(ranges: &[KeptRange]) -> usize
    ensures { result ≡ first_covered ranges.now }
{
    match ranges {
        [first, ..] if first.start == 0 => first.end,
        _ => 0,
    }
}

/// These ranges past the first `count` places, counted from there.
pub(crate) fn past_first(ranges: &Ranges, count: usize) -> Ranges
    ensures { result.items ≡ past count ranges.now.items }
{
    let mut all = ArrayVec::new();
    for range in ranges.as_slice() {
        if range.end > count {
            all.push(KeptRange {
                start: range.start.saturating_sub(count),
                end: range.end - count,
            });
        }
    }
    all
}
