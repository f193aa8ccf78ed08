// Room for the octets of one call.
ghost use Rattle.std.specs.Prelude.{◌≡◌, length};

use net_octets::NoMemory;
use std::alloc::Global;
use world_face::MOST_TO_FLOW;

/// Room for the octets of one call: a frame, or what goes to a socket or comes from it, 16,384 octets at most. What it holds between two calls means nothing,
/// so one serves all flows.
#[derive(Drop)]
pub struct Scratch {
    pub(crate) octets: Vec<u8>,
    ghost size: { length octets.items ≡ 16384 },
}

impl Scratch {
    /// All the memory that it will ever need.
    ///
    /// # Errors
    /// `NoMemory` where no memory is left.
    pub fn open(alloc: Global) -> Result<Scratch, NoMemory> {
        let Ok(octets) = vec![in alloc; 0; MOST_TO_FLOW] else {
            return Err(NoMemory);
        };
        Ok(Scratch { octets })
    }
}
