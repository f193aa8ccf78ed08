// Octets on their way.
ghost use Rattle.std.specs.Prelude.{◌≡◌, ℕ, ◌+◌, ◌<◌, ◌≤◌, ◌==◌, ◌++◌, List, length, take, drop, min, nat_le, IfOk, OnErr};
ghost use Rattle.std.specs.Bool.{OnTrue, OnFalse};
ghost use Rattle.std.specs.Io.{WritesAtMost};
ghost use Rattle.std.specs.Io.KnownBytes.{Consumes, IsAtEnd, Keeps, WriteAppends};
ghost use Rattle.host_io.specs.Buffered.{nothing_in};
ghost use Rattle.host_io.specs.Streams.{Calls, answer_of};

use crate::Stream;
use net_octets::NoMemory;
use std::alloc::Global;
use std::io;
use std::marker::Model;

/// Octets in the order in which they came, with room for a fixed number, all of it taken at opening. A contract sees the
/// octets, how many more can be put, and how many there is memory for, which is one at least.
#[derive(Drop)]
pub struct Buffer {
    octets: Vec<u8>,
    from: usize,
    to: usize,
}

impl Model for Buffer {
    ghost use Rattle.std.specs.Prelude.{◌-◌, ◌<◌, ◌≤◌, length, take, drop};
    ghost use Rattle.host_io.specs.Buffered.{Buffered, buffered};

    ghost Value = { Buffered };

    ghost view = { λ b. buffered (take (b.to - b.from) (drop b.from b.octets.items)) (length b.octets.items - b.to) (length b.octets.items) };

    ghost invariant = { λ b. (b.from ≤ b.to) × (b.to ≤ length b.octets.items) × (0 < length b.octets.items) };
}

impl Buffer {
    /// An empty buffer with room for so many octets. No other call takes memory.
    ///
    /// # Errors
    /// `NoMemory` where no memory is left.
    pub fn open(alloc: Global, room: usize) -> Result<Buffer, NoMemory>
        requires { 0 < room }
        ensures { IfOk result (λ buffer. buffer ≡ nothing_in room) }
    {
        let Ok(octets) = vec![in alloc; 0; room] else {
            return Err(NoMemory);
        };
        Ok(Buffer {
            octets,
            from: 0,
            to: 0,
        })
    }

    /// Whether there are no octets.
    pub fn is_empty(&self) -> bool
        ensures { result ≡ (length self.now.octets == 0) }
    {
        self.from == self.to
    }

    /// How many octets can be put at the end.
    pub fn room(&self) -> usize
        ensures { result ≡ self.now.room }
    {
        self.octets.len() - self.to
    }

    /// Moves octets out, the first first, as many as there are and fit.
    pub fn take(&mut self, into: &mut [u8]) -> usize
        ensures moved { self.old.octets ≡ take result into.new ++ self.new.octets }
        ensures count { result ≡ min (length into.old) (length self.old.octets) }
        ensures behind { drop result into.new ≡ drop result into.old }
        ensures room { self.new.room ≡ self.old.room }
        ensures size { self.new.size ≡ self.old.size }
    {
        let count = into.len().min(self.to - self.from);
        into[..count].copy_from_slice(&self.octets[self.from..self.from + count]);
        self.from += count;
        count
    }

    /// Puts octets at the end, all of them, where there is room; else none, and the answer is false.
    pub fn put(&mut self, octets: &[u8]) -> bool
        ensures fits { result ≡ nat_le (length octets.now) self.old.room }
        ensures put { OnTrue result (self.new.octets ≡ self.old.octets ++ octets.now) }
        ensures room { OnTrue result (self.new.room + length octets.now ≡ self.old.room) }
        ensures size { OnTrue result (self.new.size ≡ self.old.size) }
        ensures unchanged { OnFalse result (self.new ≡ self.old) }
    {
        if self.octets.len() - self.to < octets.len() {
            return false;
        }
        write_part(&mut self.octets, self.to, octets);
        self.to += octets.len();
        true
    }

    /// Moves what there is to the front, so that all else is room.
    pub fn settle(&mut self)
        ensures octets { self.new.octets ≡ self.old.octets }
        ensures room { self.new.room + length self.new.octets ≡ self.new.size }
        ensures size { self.new.size ≡ self.old.size }
        ensures some { 0 < self.new.size }
    {
        if self.from > 0 {
            self.octets.copy_within(self.from..self.to, 0);
            self.to -= self.from;
            self.from = 0;
        }
    }

    /// Reads octets to the end by one call, at most as many as there is room for, and answers how many came.
    ///
    /// # Errors
    /// That of the call, and nothing came.
    pub fn fill<T: Stream>(&mut self, source: &mut T) -> io::Result<usize>
        // What came is what the source gave, and it gave no more.
        ensures came { IfOk result (λ count. (came : List ℕ) × (length came ≡ count) × (self.new.octets ≡ self.old.octets ++ came)
            × Consumes (T.remaining source.old) (T.remaining source.new) came) }
        ensures room { IfOk result (λ count. self.new.room + count ≡ self.old.room) }
        ensures size { IfOk result (λ _. self.new.size ≡ self.old.size) }
        // Where there was room, nothing comes only at the end.
        ensures ended { IfOk result (λ count. count ≡ 0 → 0 < self.old.room → IsAtEnd (T.remaining source.new)) }
        ensures unchanged { OnErr result (self.new ≡ self.old) }
        ensures kept { OnErr result (Keeps (T.remaining source.old) (T.remaining source.new)) }
        ensures taken { Keeps (T.contents source.old) (T.contents source.new) }
        ensures called { Calls (T.answers source.old) (T.answers source.new) (λ answer. answer ≡ answer_of result) }
    {
        match read_part(source, &mut self.octets, self.to) {
            Ok(count) => {
                self.to += count;
                Ok(count)
            }
            Err(fault) => Err(fault),
        }
    }

    /// Writes octets by one call, the first first, drops what was taken, and answers how many that are.
    ///
    /// # Errors
    /// That of the call, and nothing was dropped.
    pub fn drain<T: Stream>(&mut self, sink: &mut T) -> io::Result<usize>
        ensures fits { WritesAtMost result self.old.octets }
        ensures left { IfOk result (λ count. self.new.octets ≡ drop count self.old.octets) }
        ensures room { IfOk result (λ _. self.new.room ≡ self.old.room) }
        ensures size { IfOk result (λ _. self.new.size ≡ self.old.size) }
        ensures unchanged { OnErr result (self.new ≡ self.old) }
        // The sink got those that are dropped.
        ensures went { WriteAppends (T.contents sink.old) (T.contents sink.new) result self.old.octets }
        ensures kept { Keeps (T.remaining sink.old) (T.remaining sink.new) }
        ensures called { Calls (T.answers sink.old) (T.answers sink.new) (λ answer. answer ≡ answer_of result) }
    {
        let count = sink.write(&self.octets[self.from..self.to])?;
        self.from += count;
        Ok(count)
    }
}

// Writes octets into a part.
fn write_part(into: &mut [u8], from: usize, octets: &[u8])
    requires { from + length octets.now ≤ length into.old }
    ensures { take (from + length octets.now) into.new ≡ take from into.old ++ octets.now }
{
    into[from..from + octets.len()].copy_from_slice(octets);
}

// Reads octets into the part from a place on.
fn read_part<T: Stream>(source: &mut T, into: &mut [u8], from: usize) -> io::Result<usize>
    requires { from ≤ length into.old }
    ensures came { IfOk result (λ count. (came : List ℕ) × (length came ≡ count) × (take (from + count) into.new ≡ take from into.old ++ came)
        × Consumes (T.remaining source.old) (T.remaining source.new) came) }
    ensures fits { IfOk result (λ count. from + count ≤ length into.old) }
    ensures ended { IfOk result (λ count. count ≡ 0 → from < length into.old → IsAtEnd (T.remaining source.new)) }
    ensures same { take from into.new ≡ take from into.old }
    ensures kept { OnErr result (Keeps (T.remaining source.old) (T.remaining source.new)) }
    ensures taken { Keeps (T.contents source.old) (T.contents source.new) }
    ensures called { Calls (T.answers source.old) (T.answers source.new) (λ answer. answer ≡ answer_of result) }
{
    match source.read(&mut into[from..]) {
        Ok(count) => Ok(count),
        Err(fault) => Err(fault),
    }
}
