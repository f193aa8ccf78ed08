//! The octets of a TCP connection on their way between a guest and a host socket, in both directions. A buffer takes all its room when it is opened, and no other call
//! takes memory.
//!
//! `Up` is a list of held octets with a size and a count, and past them the kept octets with the ranges of their places; `Down` a list with a place.
//!
//! Proved:
//! - `Up::take` holds what comes next and fits (`taken`, `alone`); `keep` puts octets past a gap where none is kept, within the size and in at most 32 ranges, and
//!   counts the new ones (`kept`, `count`); `join` holds those that come next and leaves none there (`joined`, `next`); `ranges` (they rise, lie apart and cover
//!   exactly the kept places: `apart`, `kept`), `room` and `held` without the kept ones.
//! - `Down::give`, `Up::written`, `Down::acked` and `reset` of both append and drop exactly, `front_piece` and `copy_at` copy exactly; what `front` hands out are the
//!   oldest octets that are held. `open` of both is empty; `Up::count` is how many octets the host took, `Down::first` the first place that isn't acknowledged, `room`
//!   and `held` of both exactly.
//!
//! Neither: that `front` hands octets out wherever they stand in one piece.
//!
//! Let through (rt plant): a `front` that hands out nothing, since no contract sees where octets stand in the ring; they are copied then.
#![tactic(auto)]

ghost use Rattle.std.specs.Prelude.{◌≡◌, ℕ, ◌+◌, ◌-◌, ◌^◌, ◌<◌, ◌≤◌, [], ◌++◌, length, take, drop, min, None, IfOk, IfSome, IsSome, IsTrue, ◌↔◌, true};
ghost use Rattle.sock_buffers.specs.Downward.{downward};
ghost use Rattle.sock_buffers.specs.Kept.{AreApart, covers, first_covered, octet_at};
ghost use Rattle.sock_buffers.specs.Upward.{after_join, after_keep, after_take, empty, fitting, newly_kept, room_of};

mod ranges;
mod ring;

use arrayvec::ArrayVec;
use circular_buffer::HeapCircularBuffer;
pub use ranges::KeptRange;
use ranges::{Ranges, first_places, past_first, with_range};
use ring::{overwrite, reach};
use std::alloc::{AllocError, Global};
use std::marker::Model;

/// The octets of a guest that its host socket has not taken yet, and past them octets that are kept until those between
/// come, in at most 32 ranges. A contract sees the octets that are held, the oldest first, the count of octets that were
/// written before them, the size, and the kept octets by their places with the ranges of these.
#[derive(Drop)]
pub struct Up {
    ring: HeapCircularBuffer<u8>,
    held: usize,
    written: u64,
    ranges: Ranges,
}

impl Model for Up {
    ghost use Rattle.std.specs.Prelude.{◌≡◌, ◌+◌, length, take, drop};
    ghost use Rattle.sock_buffers.specs.Kept.{AreApart, masked, span};
    ghost use Rattle.sock_buffers.specs.Upward.{Upward, upward};

    ghost Value = { Upward };

    ghost view = { λ u. upward (take u.held u.ring.items) u.written u.ring.capacity u.ranges.items (masked u.ranges.items 0 (drop u.held u.ring.items)) };

    ghost invariant = { λ u. (length u.ring.items ≡ u.held + span u.ranges.items) × AreApart 0 u.ranges.items };
}

impl Up {
    /// A buffer that holds at most `size` octets, with nothing in it.
    ///
    /// # Errors
    /// `AllocError` where no memory is left.
    pub fn open(alloc: Global, size: usize) -> Result<Up, AllocError>
        ensures { IfOk result (λ up. up ≡ empty size) }
    {
        let ring = HeapCircularBuffer::with_capacity(alloc, size)?;
        Ok(Up {
            ring,
            held: 0,
            written: 0,
            ranges: ArrayVec::new(),
        })
    }

    /// Forgets all octets and counts, for the next connection.
    pub fn reset(&mut self)
        ensures { self.new ≡ empty self.old.size }
    {
        self.ring.clear();
        self.held = 0;
        self.written = 0;
        self.ranges = ArrayVec::new();
    }

    /// Appends the longest front of `octets` that fits, and answers its length. These octets take the places of kept
    /// ones.
    pub fn take(&mut self, octets: &[u8]) -> usize
        ensures count { result ≡ min (length octets.now) (self.old.size - length self.old.held) }
        ensures appended { self.new.held ≡ self.old.held ++ take result octets.now }
        ensures taken { self.new ≡ after_take self.old octets.now }
        ensures alone { self.old.ranges ≡ [] → self.new ≡ record self.old {
          held = self.old.held ++ take result octets.now;
        } }
    {
        let count = octets.len().min(self.ring.capacity() - self.held);
        if self.held + count >= self.ring.len() {
            self.ring.truncate_back(self.held);
            self.ring.fill_from_slice(octets);
            self.ranges.clear();
        } else {
            overwrite(&mut self.ring, self.held, 0, &octets[..count], &[]);
            self.ranges = past_first(&self.ranges, count);
        }
        self.held += count;
        count
    }

    /// Keeps octets that come before others: they begin `ahead` places past the held ones. A place that is kept already
    /// keeps its octet. Those past the size are not kept, and none is where their range would be a 33rd. Answers at how
    /// many places octets are newly kept.
    pub fn keep(&mut self, ahead: usize, octets: &[u8]) -> usize
        requires { 1 ≤ ahead }
        ensures count { result ≡ newly_kept self.old ahead octets.now }
        ensures few { result ≤ length octets.now }
        ensures kept { self.new ≡ after_keep self.old ahead octets.now }
    {
        let room = self.ring.capacity() - self.held;
        let count = octets.len().min(room.saturating_sub(ahead));
        if count == 0 {
            return 0;
        }
        let new = KeptRange {
            start: ahead,
            end: ahead + count,
        };
        let Some(ranges) = with_range(self.ranges.as_slice(), new) else {
            return 0;
        };
        reach(&mut self.ring, self.held + new.end);
        let newly = overwrite(
            &mut self.ring,
            self.held,
            ahead,
            &octets[..count],
            self.ranges.as_slice(),
        );
        self.ranges = ranges;
        newly
    }

    /// Holds the kept octets that come next, and answers how many.
    pub fn join(&mut self) -> usize
        ensures count { result ≡ first_covered self.old.ranges }
        ensures joined { self.new ≡ after_join self.old }
        ensures length { length self.new.held ≡ length self.old.held + result }
        ensures next { octet_at self.new.kept 0 ≡ None }
    {
        let count = first_places(self.ranges.as_slice());
        if count == 0 {
            return 0;
        }
        // for the prover: what is held fits the ring.
        prove!(self.held <= self.ring.len());
        self.held += count;
        self.ranges = past_first(&self.ranges, count);
        count
    }

    /// How many ranges of places are kept: they rise, and a place that isn't kept lies between each and the next.
    pub fn ranges(&self) -> usize
        ensures ranges { result ≡ length self.now.ranges }
        ensures few { result ≤ 32 }
        ensures apart { AreApart 0 self.now.ranges }
        ensures kept { (place : ℕ) → IsSome (octet_at self.now.kept place) ↔ (covers self.now.ranges place ≡ true) }
    {
        self.ranges.len()
    }

    /// How many octets fit. Kept ones don't count.
    pub fn room(&self) -> usize
        ensures room { result ≡ self.now.size - length self.now.held }
        ensures within { length self.now.held ≤ self.now.size }
    {
        let size = self.ring.capacity();
        size - self.held
    }

    /// How many octets are held.
    pub fn held(&self) -> usize
        ensures held { result ≡ length self.now.held }
        ensures within { result ≤ self.now.size }
    {
        // for the prover: what is held fits the ring.
        prove!(self.held <= self.ring.len());
        self.held
    }

    /// Copies the oldest octets, as many as are held and fit, to the start of `into`, and answers how many. What lies past
    /// them in `into` stays, and so do the octets that are held.
    pub fn front_piece(&self, into: &mut [u8]) -> usize
        ensures count { result ≡ min (length into.old) (length self.now.held) }
        ensures copied { into.new ≡ take result self.now.held ++ drop result into.old }
    {
        let (older, newer) = self.ring.as_slices();
        let count = into.len().min(self.held);
        copy_two(older, newer, &mut into[..count])
    }

    /// The `count` oldest octets, where they are held and stand in one piece. `front_piece` copies those that stand in two.
    pub fn front(&self, count: usize) -> Option<&[u8]>
        ensures oldest { IfSome result (λ octets. octets.now ≡ take count self.now.held) }
        ensures held { IfSome result (λ octets. count ≤ length self.now.held) }
    {
        let (older, _) = self.ring.as_slices();
        if count > self.held || count > older.len() {
            return None;
        }
        Some(&older[..count])
    }

    /// Gives up the `n` oldest octets, which the host socket took.
    pub fn written(&mut self, n: usize)
        requires held { n ≤ length self.old.held }
        requires count { self.old.written + n ≤ 2 ^ 62 }
        ensures { self.new ≡ record self.old {
          held = drop n self.old.held;
          written = self.old.written + n;
        } }
    {
        let rest = self.ring.len() - n;
        self.ring.truncate_front(rest);
        self.held -= n;
        self.written += n as u64;
    }

    /// How many octets the host socket took.
    pub fn count(&self) -> u64
        ensures { result ≡ self.now.written }
    {
        self.written
    }
}

/// The octets of a host socket that its guest has not acknowledged yet. A contract sees these
/// octets, the oldest first, the place of the oldest in the stream, and the size.
#[derive(Drop)]
pub struct Down {
    ring: HeapCircularBuffer<u8>,
    first: u64,
}

impl Model for Down {
    ghost use Rattle.sock_buffers.specs.Downward.{Downward, downward};

    ghost Value = { Downward };

    ghost view = { λ d. downward d.ring.items d.first d.ring.capacity };
}

impl Down {
    /// A buffer that holds at most `size` octets, with nothing in it, at the place 0.
    ///
    /// # Errors
    /// `AllocError` where no memory is left.
    pub fn open(alloc: Global, size: usize) -> Result<Down, AllocError>
        ensures { IfOk result (λ down. down ≡ downward [] 0 size) }
    {
        let ring = HeapCircularBuffer::with_capacity(alloc, size)?;
        Ok(Down { ring, first: 0 })
    }

    /// Forgets all octets and the place, for the next connection.
    pub fn reset(&mut self)
        ensures { self.new ≡ downward [] 0 self.old.size }
    {
        self.ring.clear();
        self.first = 0;
    }

    /// How many octets fit.
    pub fn room(&self) -> usize
        ensures room { result ≡ self.now.size - length self.now.octets }
        ensures within { length self.now.octets ≤ self.now.size }
    {
        self.ring.capacity() - self.ring.len()
    }

    /// Appends octets of the host, which fit.
    pub fn give(&mut self, octets: &[u8])
        requires { length self.old.octets + length octets.now ≤ self.old.size }
        ensures { self.new ≡ record self.old { octets = self.old.octets ++ octets.now } }
    {
        self.ring.extend_from_slice(octets);
    }

    /// Copies the octets from a place of the stream on, as many as there are and fit, to the start
    /// of `into`, and answers how many. The place is one from the first that is held to the end of
    /// what is held. What lies past the copy in `into` stays, and so do the octets that are held.
    pub fn copy_at(&self, place: u64, into: &mut [u8]) -> usize
        requires low { self.now.first ≤ place }
        requires high { place ≤ self.now.first + length self.now.octets }
        ensures count { result ≡ min (length into.old) (self.now.first + length self.now.octets - place) }
        ensures copied { let there = drop (place - self.now.first) self.now.octets in
            into.new ≡ take result there ++ drop result into.old }
    {
        let skip = (place - self.first) as usize;
        let (front, back) = self.ring.as_slices();
        let (front, back) = past(front, back, skip);
        copy_two(front, back, into)
    }

    /// Gives up the `n` oldest octets, which the guest acknowledged.
    pub fn acked(&mut self, n: usize)
        requires held { n ≤ length self.old.octets }
        requires place { self.old.first + n ≤ 2 ^ 62 }
        ensures { self.new ≡ record self.old {
          octets = drop n self.old.octets;
          first = self.old.first + n;
        } }
    {
        let unacknowledged = self.ring.len() - n;
        self.ring.truncate_front(unacknowledged);
        self.first += n as u64;
    }

    /// How many octets are held.
    pub fn held(&self) -> usize
        ensures held { result ≡ length self.now.octets }
        ensures within { result ≤ self.now.size }
    {
        self.ring.len()
    }

    /// The first place of the stream that is not acknowledged.
    pub fn first(&self) -> u64
        ensures { result ≡ self.now.first }
    {
        self.first
    }
}

/// What is left of two slices, one after the other, past the first octets.
fn past<'a>(front: &'a [u8], back: &'a [u8], skip: usize) -> (&'a [u8], &'a [u8])
    requires { skip ≤ length front.now + length back.now }
    ensures rest { result.0.now ++ result.1.now ≡ drop skip (front.now ++ back.now) }
    ensures count { length result.0.now + length result.1.now + skip ≡ length front.now + length back.now }
{
    if skip <= front.len() {
        (&front[skip..], back)
    } else {
        (&front[front.len()..], &back[skip - front.len()..])
    }
}

/// Copies from two slices, one after the other, as many octets as there are and fit.
fn copy_two(front: &[u8], back: &[u8], into: &mut [u8]) -> usize
    ensures count { result ≡ min (length into.old) (length (front.now ++ back.now)) }
    ensures copied { into.new ≡ take result (front.now ++ back.now) ++ drop result into.old }
{
    let from_front = front.len().min(into.len());
    let from_back = back.len().min(into.len() - from_front);
    let count = from_front + from_back;
    into[..from_front].copy_from_slice(&front[..from_front]);
    into[from_front..count].copy_from_slice(&back[..from_back]);
    count
}
