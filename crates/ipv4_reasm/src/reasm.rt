ghost use Rattle.std.specs.Prelude.{◌≡◌, ℕ, ◌+◌, ◌^◌, ◌≤◌, ◌<◌, ◌++◌, List, [], ◌∷◌, true, false, All, filter, length, IfOk, IfSome, IfNone, Some, slice_get, slice_set, take, ◌↔◌, if◌then◌else◌};
ghost use Rattle.std.specs.List.{position, remove};
ghost use Rattle.ipv4_head.specs.Ip.{ip_of};
ghost use Rattle.ipv4_head.specs.Sets.{IsJoined, Joined, Joins, Key, Part, PartSet, end_of, is_same_key, is_too_long, is_uneven, is_whole, key_of, outcome, part_of, sets_after, sets_left, young};
ghost use Rattle.ipv4_reasm.specs.Areas.{Gathered, StandFor, after_part, begun, does_clash, is_full, is_recent, joined_in, key_by, place_in, roomy, with_kept};
ghost use Rattle.ipv4_reasm.specs.declared.reasm.Added.TheVariants.{Overlap, Whole};
ghost use Rattle.ipv4_reasm.specs.Answers.{IsAnswered, IsFirstDue, IsLeastDue, IsWholeAt, answer_of, said};
ghost use Rattle.net_octets.specs.Sizes.{most_carried};

use crate::area::{Area, DatagramKey, end_of};
use ipv4_head::IpView;
use net_octets::{MOST_CARRIED, NoMemory};
use std::alloc::Global;
use std::marker::Model;

/// How many datagrams can wait for parts.
const SETS: usize = 16;

/// What became of a part.
#[derive(Clone, Copy, Debug, PartialEq, Eq)]
pub enum Added {
    /// Its datagram is whole, and lies in this area.
    Whole(usize),
    /// Its datagram isn't whole yet.
    Kept,
    /// It can't be of the same datagram as the parts that came before, which are dropped with it
    /// (RFC 5722, 3).
    Overlap,
    /// It ends past the 65,515 octets that a datagram can carry.
    TooLong,
    /// It has no octets, or more parts follow and its octets aren't whole units of 8.
    Uneven,
}

/// The parts of at most 16 datagrams that came and wait to be joined. A contract sees what lies in
/// each area, the oldest datagram first; `StandFor` says for which sets of parts they stand.
#[derive(Drop)]
pub struct Reasm {
    areas: Vec<Area>,
    count: usize,
}

impl Model for Reasm {
    ghost use Rattle.std.specs.Prelude.{◌≡◌, ◌≤◌, List, length, take};
    ghost use Rattle.ipv4_reasm.specs.Areas.{Gathered};

    ghost Value = { List Gathered };

    ghost view = { λ r. take r.count r.areas.items };

    ghost invariant = { λ r. (length r.areas.items ≡ 16) × (r.count ≤ 16) };
}

impl Reasm {
    /// Room for 16 datagrams, of which no part came. No other call takes memory.
    ///
    /// # Errors
    /// `NoMemory` where no memory is left.
    pub fn open(alloc: Global) -> Result<Reasm, NoMemory>
        ensures { IfOk result (λ r. r ≡ []) }
    {
        let Ok(mut areas) = Vec::with_capacity(alloc, SETS) else {
            return Err(NoMemory);
        };
        for _ in 0..SETS {
            let area = Area::open(alloc)?;
            if areas.push(area).is_err() {
                return Err(NoMemory);
            }
        }
        Ok(Reasm { areas, count: 0 })
    }

    /// A part of a datagram came at this moment, in milliseconds and at most 2^62. Datagrams whose
    /// first part is 60,000 ms old or older are dropped first. A part that is Uneven or TooLong
    /// changes nothing, and one that overlaps is dropped with those that came before. A new
    /// datagram takes the place of the oldest where 16 wait. The header has 20 to 60 octets.
    pub fn add(&mut self, now: u64, part: &IpView<'_>) -> Added
        requires moment { now ≤ 2 ^ 62 }
        requires head { 20 ≤ length part.now.head.now }
        requires short { length part.now.head.now ≤ 60 }
        ensures sets { (sets : List PartSet) → StandFor self.old sets
            → StandFor self.new (sets_after now (key_of part.now) (part_of part.now) sets) }
        ensures answer { (sets : List PartSet) → StandFor self.old sets
            → said result ≡ outcome now (key_of part.now) (part_of part.now) sets }
        ensures area { (sets : List PartSet) (area : ℕ) → StandFor self.old sets → result ≡ Whole area
            → IsWholeAt (sets_after now (key_of part.now) (part_of part.now) sets) (key_of part.now) area }
        ensures within { (area : ℕ) → result ≡ Whole area → area < length self.new }
    {
        self.drop_old(now);
        self.place(now, part)
    }

    /// The whole datagram that lies in an area, asked after `add` answered Whole with it. Its header is that of the
    /// part at the start, with no more fragments, the place 0, the length of the whole and the sum
    /// made anew.
    pub fn datagram(&self, area: usize) -> IpView<'_>
        requires { area < length self.now }
        ensures joined { (sets : List PartSet) (s : PartSet) → StandFor self.now sets
            → slice_get sets area ≡ Some s → is_whole s.parts ≡ true → IsJoined s (ip_of result) result.ttl }
        ensures body { length result.body.now ≤ most_carried }
        ensures head { length result.head.now ≤ 60 }
    {
        let area = &self.areas[area];
        area.datagram()
    }

    /// Forgets the datagram in an area.
    pub fn free(&mut self, area: usize)
        requires { area < length self.old }
        ensures { (sets : List PartSet) → StandFor self.old sets → StandFor self.new (remove sets area) }
    {
        self.release(area);
    }

    /// When the first of the datagrams that wait is dropped, in milliseconds. None exactly where
    /// none waits.
    pub fn next_due(&self) -> Option<u64>
        ensures due { (sets : List PartSet) → StandFor self.now sets → IfSome result (λ at. IsFirstDue sets at) }
        ensures none { (sets : List PartSet) → StandFor self.now sets → IfNone result (sets ≡ []) }
    {
        first_due(&self.areas[..self.count])
    }

    /// Drops each datagram whose first part is 60,000 ms old or older.
    pub fn tick(&mut self, now: u64)
        ensures sets { (sets : List PartSet) → StandFor self.old sets → StandFor self.new (young now sets) }
        // None of those that are left is to be dropped yet.
        ensures fresh { (sets : List PartSet) → StandFor self.new sets → All (λ (s : PartSet). now < s.since + 60000) sets }
    {
        self.drop_old(now);
    }

    /// Drops each area whose first part is 60,000 ms old or older.
    fn drop_old(&mut self, now: u64)
        ensures { self.new ≡ filter (is_recent now) self.old }
    {
        let mut i = 0;
        while i < self.count {
            if self.is_recent(i, now) {
                i += 1;
            } else {
                self.release(i);
            }
        }
    }

    /// Whether the first part in an area is less than 60,000 ms old.
    fn is_recent(&self, i: usize, now: u64) -> bool
        requires { i < length self.now }
        ensures { (g : Gathered) → slice_get self.now i ≡ Some g → result ≡ is_recent now g }
    {
        let area = &self.areas[i];
        area.is_young(now)
    }

    /// Takes an area out.
    fn release(&mut self, i: usize)
        requires { i < length self.old }
        ensures { self.new ≡ remove self.old i }
    {
        self.areas[i..].rotate_left(1);
        self.count -= 1;
    }

    /// Makes room for one more datagram.
    fn make_room(&mut self)
        ensures room { self.new ≡ roomy self.old }
        ensures few { length self.new < 16 }
    {
        if self.count == SETS {
            self.release(0);
        }
    }

    /// Begins an area for a datagram, and answers which it is.
    fn begin(&mut self, key: DatagramKey, now: u64) -> usize
        requires moment { now ≤ 2 ^ 62 }
        requires few { length self.old < 16 }
        ensures begun { (g : Gathered) × ((self.new ≡ self.old ++ begun (key_by key) now g ∷ [])
            × (length g.octets ≡ 65535)) }
        ensures last { result ≡ length self.old }
    {
        let i = self.count;
        let area = &mut self.areas[i];
        area.begin(key, now);
        self.count += 1;
        i
    }

    /// Whether a part can't be of the datagram in an area.
    fn clashes(&self, i: usize, part: &IpView<'_>) -> bool
        requires area { i < length self.now }
        requires end { end_of (part_of part.now) ≤ most_carried }
        ensures { (g : Gathered) → slice_get self.now i ≡ Some g → result ≡ does_clash g (part_of part.now) }
    {
        let area = &self.areas[i];
        area.clashes(part)
    }

    /// Puts a part into an area.
    fn put(&mut self, i: usize, part: &IpView<'_>) -> bool
        requires area { i < length self.old }
        requires end { end_of (part_of part.now) ≤ most_carried }
        requires head { 20 ≤ length part.now.head.now }
        requires short { length part.now.head.now ≤ 60 }
        requires some { 0 < length part.now.body.now }
        requires free { (g : Gathered) → slice_get self.old i ≡ Some g
            → does_clash g (part_of part.now) ≡ false }
        ensures put { (g : Gathered) → slice_get self.old i ≡ Some g
            → self.new ≡ slice_set self.old i (after_part g (part_of part.now)) }
        ensures whole { (g : Gathered) → slice_get self.old i ≡ Some g
            → result ≡ is_full (with_kept g (part_of part.now)) }
        ensures count { length self.new ≡ length self.old }
    {
        let area = &mut self.areas[i];
        area.put(part)
    }

    /// Puts a part to those of its datagram in an area, or drops them where they clash.
    fn join(&mut self, i: usize, part: &IpView<'_>) -> Added
        requires area { i < length self.old }
        requires end { end_of (part_of part.now) ≤ most_carried }
        requires head { 20 ≤ length part.now.head.now }
        requires short { length part.now.head.now ≤ 60 }
        requires some { 0 < length part.now.body.now }
        ensures clash { (g : Gathered) → slice_get self.old i ≡ Some g → does_clash g (part_of part.now) ≡ true
            → (result ≡ Overlap) × (self.new ≡ remove self.old i) }
        ensures put { (g : Gathered) → slice_get self.old i ≡ Some g → does_clash g (part_of part.now) ≡ false
            → (result ≡ answer_of i (is_full (with_kept g (part_of part.now))))
            × (self.new ≡ slice_set self.old i (after_part g (part_of part.now))) }
        ensures within { (area : ℕ) → result ≡ Whole area → area < length self.new }
    {
        if self.clashes(i, part) {
            self.release(i);
            return Added::Overlap;
        }
        let whole = self.put(i, part);
        answer_of(i, whole)
    }

    /// Begins an area for the first part of a datagram.
    fn start(&mut self, now: u64, key: DatagramKey, part: &IpView<'_>) -> Added
        requires moment { now ≤ 2 ^ 62 }
        requires end { end_of (part_of part.now) ≤ most_carried }
        requires head { 20 ≤ length part.now.head.now }
        requires short { length part.now.head.now ≤ 60 }
        requires some { 0 < length part.now.body.now }
        ensures began { (g : Gathered) × ((length g.octets ≡ 65535)
            × (self.new ≡ roomy self.old ++ after_part (begun (key_by key) now g) (part_of part.now) ∷ [])
            × (result ≡ answer_of (length (roomy self.old)) (is_full (with_kept (begun (key_by key) now g) (part_of part.now))))) }
        ensures within { (area : ℕ) → result ≡ Whole area → area < length self.new }
    {
        self.make_room();
        let i = self.begin(key, now);
        let whole = self.put(i, part);
        answer_of(i, whole)
    }

    /// Puts a part to those of its datagram, where it is one.
    fn place(&mut self, now: u64, part: &IpView<'_>) -> Added
        requires moment { now ≤ 2 ^ 62 }
        requires head { 20 ≤ length part.now.head.now }
        requires short { length part.now.head.now ≤ 60 }
        ensures answered { (sets : List PartSet) → StandFor self.old sets
            → IsAnswered now (key_of part.now) (part_of part.now) sets self.new result }
        ensures within { (area : ℕ) → result ≡ Whole area → area < length self.new }
    {
        if is_uneven(part) {
            return Added::Uneven;
        }
        if end_of(part) > MOST_CARRIED {
            return Added::TooLong;
        }
        self.gather(now, part)
    }

    /// Puts a part that is one to those of its datagram.
    fn gather(&mut self, now: u64, part: &IpView<'_>) -> Added
        requires moment { now ≤ 2 ^ 62 }
        requires even { is_uneven (part_of part.now) ≡ false }
        requires end { is_too_long (part_of part.now) ≡ false }
        requires head { 20 ≤ length part.now.head.now }
        requires short { length part.now.head.now ≤ 60 }
        ensures answered { (sets : List PartSet) → StandFor self.old sets
            → IsAnswered now (key_of part.now) (part_of part.now) sets self.new result }
        ensures within { (area : ℕ) → result ≡ Whole area → area < length self.new }
    {
        let key = key_of(part);
        match self.find(key) {
            Some(i) => self.join(i, part),
            None => self.start(now, key, part),
        }
    }

    /// The area of a datagram.
    fn find(&self, key: DatagramKey) -> Option<usize>
        ensures { result ≡ position (λ g. is_same_key (key_by key) g.key) self.now }
    {
        place_among(&self.areas[..self.count], key)
    }
}

/// Parts join to one body at most, and they are whole where they do.
pub fn parts_join_to_one_body()
    ensures whole { (parts : List Part) (body : List ℕ) → Joins parts body → is_whole parts ≡ true }
    ensures one { (parts : List Part) (body other : List ℕ) → Joins parts body → Joins parts other
        → body ≡ other }
{}

/// Once a datagram that a part joined is freed, the sets are those that are left.
pub fn freed_datagram_leaves()
    ensures { (now : ℕ) (key : Key) (p : Part) (sets : List PartSet) (area : ℕ)
        → outcome now key p sets ≡ Joined → IsWholeAt (sets_after now key p sets) key area
        → remove (sets_after now key p sets) area ≡ sets_left now key p sets }
{}

/// When the first part of the oldest datagram is 60,000 ms old.
fn first_due(areas: &[Area]) -> Option<u64>
    ensures due { IfSome result (λ at. IsLeastDue areas.now at) }
    ensures none { IfNone result (areas.now ≡ []) }
{
    let mut found: Option<u64> = None;
    for area in areas.iter() {
        let due = area.due();
        match found {
            Some(at) if at <= due => {}
            _ => found = Some(due),
        }
    }
    found
}

/// The answer for a part that was put into an area.
fn answer_of(area: usize, whole: bool) -> Added
    ensures { result ≡ answer_of area whole }
{
    if whole {
        Added::Whole(area)
    } else {
        Added::Kept
    }
}

/// The place of a datagram's area.
fn place_among(areas: &[Area], key: DatagramKey) -> Option<usize>
    ensures { result ≡ position (λ g. is_same_key (key_by key) g.key) areas.now }
{
    areas.iter().position(|area| area.is_for(key))
}

/// Which datagram a part is of.
fn key_of(part: &IpView<'_>) -> DatagramKey
    ensures { key_by result ≡ key_of part.now }
{
    DatagramKey {
        from: part.from,
        to: part.to,
        proto: part.proto,
        ident: part.ident,
    }
}

/// Whether a part has no octets, or more follow and its octets aren't whole units of 8.
fn is_uneven(part: &IpView<'_>) -> bool
    ensures { result ≡ is_uneven (part_of part.now) }
{
    part.body.is_empty() || (part.more && part.body.len() % 8 != 0)
}
