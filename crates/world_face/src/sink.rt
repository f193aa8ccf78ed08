// Where texts go.
ghost use Rattle.std.specs.Prelude.{◌≡◌, ◌+◌, ℕ, List, [], Option, Some, is_err, IfOk, OnErr, length, min, if◌then◌else◌};
ghost use Rattle.world_face.specs.Puts.{Puts};
ghost use Rattle.world_face.specs.Limits.{last_count};
ghost use Rattle.world_face.specs.Jar.{refuses};

use net_octets::NoMemory;
use std::alloc::Global;
use std::marker::Model;

/// A sink didn't take what was put.
#[derive(Clone, Copy, Debug, PartialEq, Eq)]
pub struct Failed;

/// Takes octets, in the order in which they are put.
pub trait Sink {
    /// What it got, where it tells.
    ghost holds: { Self → Option (List ℕ) };

    /// How often it has failed.
    ghost faults: { Self → ℕ };

    /// Puts octets at the end. Where it fails the count of its faults rises (or stands at its last value).
    fn put(&mut self, octets: &[u8]) -> Result<(), Failed>
        ensures { Puts (holds self.old) (holds self.new) (faults self.old) (faults self.new) octets.now result };
}

/// A sink in memory, with room for a fixed number of octets, all of it taken at opening.
#[derive(Drop)]
pub struct VecSink {
    octets: Vec<u8>,
    room: usize,
    fails: Option<u64>,
    puts: u64,
    faults: u64,
}

impl Model for VecSink {
    ghost use Rattle.std.specs.Prelude.{◌≤◌, ◌<◌, ◌^◌, length};
    ghost use Rattle.std.specs.Vec.{vec_capacity};
    ghost use Rattle.world_face.specs.Jar.{Jar};

    ghost Value = { Jar };

    ghost view = { λ s. record { octets = s.octets.items; room = s.room; fails = s.fails; puts = s.puts; faults = s.faults } };

    ghost invariant = { λ s. (length s.octets.items ≤ s.room) × (s.room ≤ vec_capacity s.octets) };
}

impl VecSink {
    /// An empty sink with room for `room` octets. It refuses the put whose number, counted from 0, is `fails`.
    pub fn open(alloc: Global, room: usize, fails: Option<u64>) -> Result<VecSink, NoMemory>
        ensures empty { IfOk result (λ sink. sink.octets ≡ []) }
        ensures room { IfOk result (λ sink. sink.room ≡ room) }
        ensures fails { IfOk result (λ sink. sink.fails ≡ fails) }
        ensures counts { IfOk result (λ sink. (sink.puts ≡ 0) × (sink.faults ≡ 0)) }
    {
        let Ok(octets) = Vec::with_capacity(alloc, room) else {
            return Err(NoMemory);
        };
        Ok(VecSink {
            octets,
            room,
            fails,
            puts: 0,
            faults: 0,
        })
    }

    /// What was put.
    pub fn octets(&self) -> &[u8]
        ensures { result.now ≡ self.now.octets }
    {
        self.octets.as_slice()
    }

    // Whether the next put, of so many octets, is refused.
    fn refuses(&self, count: usize) -> bool
        ensures { result ≡ refuses self.now count }
    {
        self.fails == Some(self.puts) || self.room - self.octets.len() < count
    }
}

impl Sink for VecSink {
    ghost holds = { λ s. Some s.octets };

    ghost faults = { λ s. s.faults };

    /// Refused, with nothing appended, exactly where the number of this put is the one that fails or its octets don't fit what is left of the room.
    fn put(&mut self, octets: &[u8]) -> Result<(), Failed>
        ensures puts { Puts (Some self.old.octets) (Some self.new.octets) self.old.faults self.new.faults octets.now result }
        ensures refused { is_err result ≡ refuses self.old (length octets.now) }
        ensures unchanged { OnErr result (self.new.octets ≡ self.old.octets) }
        ensures counted { self.new.faults ≡ (if is_err result then min last_count (self.old.faults + 1) else self.old.faults) }
        ensures number { self.new.puts ≡ min last_count (self.old.puts + 1) }
        ensures same { (self.new.room ≡ self.old.room) × (self.new.fails ≡ self.old.fails) }
    {
        let refused = self.refuses(octets.len());
        self.puts = self.puts.saturating_add(1);
        if refused || self.octets.extend_from_slice(octets).is_err() {
            self.faults = self.faults.saturating_add(1);
            return Err(Failed);
        }
        Ok(())
    }
}
