// A sink that gathers what is put, and hands it on in few puts.
#![tactic(auto, using(world_face::proofs::Putting::puts_then, world_face::proofs::Putting::puts_failed, replay::proofs::Putting::added_none))]

ghost use Rattle.std.specs.Prelude.{◌≡◌, ◌+◌, ◌-◌, ◌≤◌, [], ◌++◌, length, IsOk, nat_eq};
ghost use Rattle.world_face.specs.Puts.{Puts, added};

use std::marker::Model;
use world_face::{Failed, Sink};

/// How many octets are gathered at most.
const ROOM: usize = 16_384;

// What was gathered.
#[derive(Drop)]
struct Gathered {
    octets: [u8; ROOM],
    count: usize,
}

impl Model for Gathered {
    ghost use Rattle.std.specs.Prelude.{ℕ, List, ◌≤◌, take};

    ghost Value = { List ℕ };

    ghost view = { λ g. take g.count g.octets };

    ghost invariant = { λ g. g.count ≤ 16384 };
}

impl Gathered {
    fn new() -> Gathered
        ensures { result ≡ [] }
    {
        Gathered {
            octets: [0; ROOM],
            count: 0,
        }
    }

    fn octets(&self) -> &[u8]
        ensures { result.now ≡ self.now }
    {
        &self.octets[..self.count]
    }

    fn is_empty(&self) -> bool
        ensures { result ≡ nat_eq (length self.now) 0 }
    {
        self.count == 0
    }

    // How many more octets can be gathered.
    fn room(&self) -> usize
        ensures { result + length self.now ≡ 16384 }
    {
        ROOM - self.count
    }

    fn add(&mut self, octets: &[u8])
        requires { length self.old + length octets.now ≤ 16384 }
        ensures { self.new ≡ self.old ++ octets.now }
    {
        let end = self.count + octets.len();
        self.octets[self.count..end].copy_from_slice(octets);
        self.count = end;
    }

    fn clear(&mut self)
        ensures { self.new ≡ [] }
    {
        self.count = 0;
    }
}

/// A sink over another, which it owns. It holds what that one holds, and then what was gathered since.
pub struct Gathering<K: Sink> {
    sink: K,
    gathered: Gathered,
}

impl<K: Sink> Gathering<K> {
    /// A sink over this one, in which nothing is gathered yet.
    pub fn over(sink: K) -> Gathering<K>
        ensures sink { result.sink ≡ sink }
        ensures nothing { result.gathered ≡ [] }
    {
        Gathering {
            sink,
            gathered: Gathered::new(),
        }
    }

    /// Hands on what was gathered, in one put.
    pub fn flush(&mut self) -> Result<(), Failed>
        ensures puts { Puts (K.holds self.old.sink) (K.holds self.new.sink) (K.faults self.old.sink) (K.faults self.new.sink) self.old.gathered result }
        ensures nothing { IsOk result → self.new.gathered ≡ [] }
    {
        if self.gathered.is_empty() {
            return Ok(());
        }
        self.sink.put(self.gathered.octets())?;
        self.gathered.clear();
        Ok(())
    }

    /// Hands on what was gathered, and gives the sink back.
    pub fn finish(mut self) -> (K, Result<(), Failed>)
        ensures { Puts (K.holds self.sink) (K.holds result.0) (K.faults self.sink) (K.faults result.0) self.gathered result.1 }
    {
        let handed = self.flush();
        (self.into_sink(), handed)
    }

    /// The sink. What was gathered is lost.
    pub fn into_sink(self) -> K
        ensures { result ≡ self.sink }
    {
        let Gathering {
            sink,
            gathered: _lost,
        } = self;
        sink
    }
}

impl<K: Sink> Sink for Gathering<K> {
    ghost holds = { λ g. added g.gathered (K.holds g.sink) };

    ghost faults = { λ g. K.faults g.sink };

    /// A piece that fits is gathered, and nothing is handed on.
    fn put(&mut self, octets: &[u8]) -> Result<(), Failed>
        ensures puts { Puts (added self.old.gathered (K.holds self.old.sink)) (added self.new.gathered (K.holds self.new.sink)) (K.faults self.old.sink)
            (K.faults self.new.sink) octets.now result }
        ensures fits { length self.old.gathered + length octets.now ≤ 16384 → IsOk result × (self.new.gathered ≡ self.old.gathered ++ octets.now)
            × (self.new.sink ≡ self.old.sink) }
    {
        if self.gathered.room() < octets.len() {
            self.flush()?;
        }
        if octets.len() > ROOM {
            return self.sink.put(octets);
        }
        self.gathered.add(octets);
        Ok(())
    }
}
