//! The receiving half of a TCP connection: which octets of a segment come next, whether its FIN is the end of the stream, and whether an acknowledgement is owed (RFC
//! 9293, 3.10.7.4).
//!
//! | Ours | RFC 9293, 3.3.1 |
//! |---|---|
//! | `first` | IRS, the number of the guest's SYN |
//! | `taken` | RCV.NXT as a place, counted from the octet after the SYN on; `expected` is RCV.NXT, one more once `ended` |
//! | the room of `Up` | RCV.WND |
//!
//! Proved:
//! - `Receive::arrive` takes what comes next and fits, keeps what comes past a gap, then takes the kept octets that come next (`up`), by places and past every wrap,
//!   and nothing once the end was taken. Each octet that is newly held or kept is the segment's at its number or was kept there (`held`, `kept`).
//! - Its `fin` comes exactly where every octet before it is taken then, and `ack_owed` exactly by its rule.
//! - What was taken is written or held, and nothing is kept that comes next (`fills`). `Receive::new`, `taken`, `expected`, `ended` exactly.
//! - Laws: a segment's next octets are those at the places from the next on (`next_octets_stand_at_their_places`); a buffer stays that of its stream while the host
//!   takes octets (`a_buffer_stays_that_of_its_stream`).
#![tactic(auto)]

ghost use Rattle.std.specs.Prelude.{◌≡◌, ℕ, List, slice_get, ◌+◌, ◌-◌, ◌^◌, ◌<◌, ◌≤◌, ◌++◌, length, drop, take, min, pos, ◌+ℤ◌, ◌<ℤ◌, ◌≤ℤ◌, IsTrue, ◌↔◌, ◌⊎◌, ◌||◌, None, false};
ghost use Rattle.seq_space.specs.Places.{place as place_of};
ghost use Rattle.sock_buffers.specs.Kept.{KeepsAt, octet_at};
ghost use Rattle.sock_buffers.specs.Upward.{Upward, after_join, empty};
ghost use Rattle.tcp_receive.specs.Coming.{Comes};
ghost use Rattle.tcp_receive.specs.Received.{Fills, Received, StandsAt, place_in, placed, received, next_number, next_octets, octets_from, places_taken, up_after, IsAckOwed, IsEndTaken};

use seq_space::{Seq, nearest, number_at};
use sock_buffers::Up;
use std::marker::Model;

/// What has been taken of a guest's stream. A contract sees the number of the guest's SYN, the
/// count of octets that were taken, and whether the end was.
#[derive(Drop)]
pub struct Receive {
    first: Seq,
    taken: u64,
    ended: bool,
}

impl Model for Receive {
    ghost use Rattle.tcp_receive.specs.Received.{Received, received};

    ghost Value = { Received };

    ghost view = { λ r. received r.first.0 r.taken r.ended };
}

/// What was taken of a segment: the count of its octets, whether its FIN was, and whether an
/// acknowledgement is owed for it.
#[derive(Clone, Copy, Debug, PartialEq, Eq)]
pub struct Took {
    pub octets: usize,
    pub fin: bool,
    pub ack_owed: bool,
}

impl Receive {
    /// The stream whose SYN has the number `first`, of which nothing is taken yet.
    pub fn new(first: Seq) -> Receive
        ensures { result ≡ received first.0 0 false }
    {
        Receive {
            first,
            taken: 0,
            ended: false,
        }
    }

    /// A segment arrived. Takes into `up` those of its octets that come next and fit, keeps there those that come past a
    /// gap, and then takes the kept octets that come next; none once the end was taken. Takes its FIN where every octet
    /// before it is taken then. A FIN needs no room, and one past a gap is not kept.
    pub fn arrive(&mut self, up: &mut Up, seq: Seq, octets: &[u8], fin: bool) -> Took
        requires { self.old.taken + length octets.now + up.old.size < 2 ^ 62 }
        ensures octets { length up.new.held ≡ length up.old.held + result.octets }
        ensures up { up.new ≡ up_after self.old seq.0 octets.now up.old }
        ensures few { result.octets ≤ up.old.size }
        ensures size { up.new.size ≡ up.old.size }
        ensures fin { let taken_now = self.old.taken + result.octets in
            IsTrue result.fin ↔ IsEndTaken self.old seq.0 octets.now fin taken_now }
        ensures taken { self.new ≡ record self.old {
          taken = self.old.taken + result.octets;
          ended = self.old.ended || result.fin;
        } }
        ensures ack_owed { IsTrue result.ack_owed ↔ IsAckOwed self.old seq.0 octets.now fin }

        // Each octet that is held now or kept was kept before at its place, or is the segment's there.
        ensures held { (k x : ℕ) → k < result.octets → slice_get up.new.held (length up.old.held + k) ≡ Some x
            → KeepsAt up.old.kept k x ⊎ StandsAt (place_in self.old seq.0) octets.now (self.old.taken + k) x }
        ensures kept { (k x : ℕ) → KeepsAt up.new.kept k x → KeepsAt up.old.kept (result.octets + k) x
            ⊎ StandsAt (place_in self.old seq.0) octets.now (self.old.taken + (result.octets + k)) x }
        ensures comes { Comes self.old seq.0 octets.now up.old up.new }
        ensures fills { Fills self.old up.old → Fills self.new up.new }
    {
        let carries = !octets.is_empty() || fin;
        let ack_owed = is_ack_owed(self.first, seq, self.taken, self.places(), carries);
        if self.ended {
            return Took {
                octets: 0,
                fin: false,
                ack_owed,
            };
        }
        let place = nearest(seq, self.first, self.taken);
        let count = put(up, place, self.taken, octets);
        self.taken += count as u64;
        self.ended = fin && is_end(place, octets.len(), self.taken);
        Took {
            octets: count,
            fin: self.ended,
            ack_owed,
        }
    }

    /// How many octets were taken.
    pub fn taken(&self) -> u64
        ensures { result ≡ self.now.taken }
    {
        self.taken
    }

    /// The number that comes next, and so the one to acknowledge.
    pub fn expected(&self) -> Seq
        requires { self.now.taken < 2 ^ 62 }
        ensures { result.0 ≡ next_number self.now }
    {
        number_at(self.first, self.places())
    }

    /// Whether the end was taken.
    pub fn ended(&self) -> bool
        ensures { result ≡ self.now.ended }
    {
        self.ended
    }

    /// How many places were taken, the end counted as one.
    fn places(&self) -> u64
        requires { self.now.taken < 2 ^ 62 }
        ensures { result ≡ places_taken self.now }
    {
        self.taken + u64::from(self.ended)
    }
}

/// The octets of a segment that come next are those that it has at the places from the next on.
pub fn next_octets_stand_at_their_places()
    ensures each { (r : Received) (number : ℕ) (octets : List ℕ) (k x : ℕ)
        → slice_get (next_octets r number octets) k ≡ Some x
        → StandsAt (place_in r number) octets (r.taken + k) x }
    ensures all { (r : Received) (number : ℕ) (octets : List ℕ) (k x : ℕ)
        → r.ended ≡ false
        → place_in r number ≤ℤ pos r.taken
        → StandsAt (place_in r number) octets (r.taken + k) x
        → slice_get (next_octets r number octets) k ≡ Some x }
{}

/// Whether so many octets that begin at `place` end where `taken` ones do.
fn is_end(place: i64, length: usize, taken: u64) -> bool
    requires low { pos 0 ≤ℤ (place +ℤ pos (2 ^ 32)) }
    requires high { (place +ℤ pos length) <ℤ pos (2 ^ 62 + 2 ^ 31) }
    requires length { length < 2 ^ 62 }
    requires taken { taken < 2 ^ 62 }
    ensures { IsTrue result ↔ ((place +ℤ pos length) ≡ pos taken) }
{
    place + length as i64 == taken as i64
}

/// Puts octets that begin at `place` into the buffer: those from the place `taken` on are held as far as they fit, and those
/// past a gap are kept. Then kept octets that come next are held. Answers how many are newly held.
fn put(up: &mut Up, place: i64, taken: u64, octets: &[u8]) -> usize
    requires low { pos 0 ≤ℤ (place +ℤ pos (2 ^ 32)) }
    requires taken { taken < 2 ^ 62 }
    ensures up { up.new ≡ after_join (placed place taken octets.now up.old) }
    ensures count { length up.new.held ≡ length up.old.held + result }
    ensures few { result ≤ up.old.size }
    ensures size { up.new.size ≡ up.old.size }
    ensures held { (k x : ℕ) → k < result → slice_get up.new.held (length up.old.held + k) ≡ Some x
        → KeepsAt up.old.kept k x ⊎ StandsAt place octets.now (taken + k) x }
    ensures kept { (k x : ℕ) → KeepsAt up.new.kept k x → KeepsAt up.old.kept (result + k) x
        ⊎ StandsAt place octets.now (taken + (result + k)) x }
    ensures next { octet_at up.new.kept 0 ≡ None }
{
    let before = up.held();
    put_first(up, place, taken, octets);
    up.join();
    up.held() - before
}

/// The same, before the kept octets are held.
fn put_first(up: &mut Up, place: i64, taken: u64, octets: &[u8])
    requires low { pos 0 ≤ℤ (place +ℤ pos (2 ^ 32)) }
    requires taken { taken < 2 ^ 62 }
    ensures up { up.new ≡ placed place taken octets.now up.old }
    ensures size { up.new.size ≡ up.old.size }
    ensures held { length up.old.held ≤ length up.new.held }
{
    let at = taken as i64;
    if place > at {
        up.keep((place - at) as usize, octets);
    } else {
        up.take(from_place(octets, place, taken));
    }
}

/// A buffer is that of a stream at first, and stays so while the host socket takes octets.
pub fn a_buffer_stays_that_of_its_stream()
    ensures first { (first size : ℕ) → Fills (received first 0 false) (empty size) }
    ensures written { (r : Received) (up : Upward) (n : ℕ) → n ≤ length up.held → Fills r up
        → Fills r (record up {
          held = drop n up.held;
          written = up.written + n;
        }) }
{}

/// Whether an acknowledgement is owed: what carries octets or a FIN owes one, and so does a number
/// before the next expected one.
fn is_ack_owed(first: Seq, seq: Seq, taken: u64, places: u64, carries: bool) -> bool
    requires taken { taken ≤ 2 ^ 62 }
    requires places { places ≤ 2 ^ 62 }
    ensures { IsTrue result ↔ (IsTrue carries ⊎ (place_of seq.0 first.0 taken <ℤ pos places)) }
{
    carries || nearest(seq, first, taken) < places as i64
}

/// Of octets that begin at `place`, those from the place `taken` on; none where one before them is
/// missing.
fn from_place(octets: &[u8], place: i64, taken: u64) -> &[u8]
    requires low { pos 0 ≤ℤ (place +ℤ pos (2 ^ 32)) }
    requires taken { taken < 2 ^ 62 }
    ensures { result.now ≡ octets_from place octets.now taken }
{
    let at = taken as i64;
    if place > at {
        return &octets[octets.len()..];
    }
    let skip = ((at - place) as usize).min(octets.len());
    &octets[skip..]
}
