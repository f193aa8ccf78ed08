// What the streams carry: octet i is i modulo 251.
use net_octets::NoMemory;
use std::alloc::Global;

/// After so many octets a stream begins anew.
pub const PERIOD: usize = 251;

/// So many periods hold each part of 16,384 octets, wherever it begins.
const PERIODS: usize = 67;

/// The first 67 periods of a stream: each part of at most 16,384 octets stands in it, since 16,384 and 250 octets are fewer.
#[derive(Drop)]
pub struct Pattern {
    octets: Vec<u8>,
}

impl Pattern {
    /// Makes the stretch. Err where there is no memory for it.
    pub fn open(alloc: Global) -> Result<Pattern, NoMemory> {
        let Ok(mut octets) = Vec::with_capacity(alloc, PERIODS * PERIOD) else {
            return Err(NoMemory);
        };
        for _ in 0..PERIODS {
            for octet in 0..251u8 {
                if octets.push(octet).is_err() {
                    return Err(NoMemory);
                }
            }
        }
        Ok(Pattern { octets })
    }

    /// So many octets of a stream from a place on. None where the stretch is too short for them.
    pub fn part(&self, place: u32, count: usize) -> Option<&[u8]> {
        let from = place as usize % PERIOD;
        self.octets.get(from..from.saturating_add(count))
    }

    /// How many of these octets differ from those of a stream from this place on.
    pub fn differing(&self, place: u32, octets: &[u8]) -> u64 {
        match self.part(place, octets.len()) {
            Some(part) if part == octets => 0,
            Some(part) => part
                .iter()
                .zip(octets)
                .filter(|(right, came)| right != came)
                .count() as u64,
            None => octets.len() as u64,
        }
    }
}
