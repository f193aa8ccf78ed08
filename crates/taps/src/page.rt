// Octets that are made ready, to be put at once.
ghost use Rattle.std.specs.Prelude.{◌≡◌, [], Some, IsErr, IfOk};
ghost use Rattle.world_face.specs.Limits.{last_count};
ghost use Rattle.world_face.specs.Puts.{Puts};

use std::alloc::Global;
use std::marker::Model;
use world_face::{Failed, NoMemory, Sink};

// Room for more than the longest line, which is a wait for 5,155 wants that reports as many.
const ROOM: usize = 524_288;

/// A sink with room for 524,288 octets, all of it taken at opening.
#[derive(Drop)]
pub(crate) struct Page {
    octets: Vec<u8>,
}

impl Model for Page {
    ghost use Rattle.std.specs.Prelude.{ℕ, List};

    ghost Value = { List ℕ };

    ghost view = { λ page. page.octets.items };
}

impl Page {
    /// An empty page. Err where there is no memory for it.
    pub(crate) fn open(alloc: Global) -> Result<Page, NoMemory>
        ensures { IfOk result (λ page. page ≡ []) }
    {
        let Ok(octets) = Vec::with_capacity(alloc, ROOM) else {
            return Err(NoMemory);
        };
        Ok(Page { octets })
    }

    /// The octets that were put since it was emptied last.
    pub(crate) fn octets(&self) -> &[u8]
        ensures { result.now ≡ self.now }
    {
        self.octets.as_slice()
    }

    /// Forgets what was put.
    pub(crate) fn empty(&mut self)
        ensures { self.new ≡ [] }
    {
        self.octets.clear();
    }
}

impl Sink for Page {
    ghost holds = { λ page. Some page };

    // A refusal isn't counted: the count stands at its last value.
    ghost faults = { λ _. last_count };

    fn put(&mut self, octets: &[u8]) -> Result<(), Failed>
        ensures puts { Puts (Some self.old) (Some self.new) last_count last_count octets.now result }
        ensures refused { IsErr result → self.new ≡ self.old }
    {
        let room = ROOM.saturating_sub(self.octets.len());
        if room < octets.len() || self.octets.extend_from_slice(octets).is_err() {
            return Err(Failed);
        }
        Ok(())
    }
}
