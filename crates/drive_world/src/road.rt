// The road between guest and network, on which frames are lost, come twice, or come late.
ghost use Rattle.std.specs.Prelude.{◌≡◌};
ghost use Rattle.drive_world.specs.Draws.{Comes, drawn, fate_of, lost_after, next_seed};

use crate::draws::{Draws, Fate, fate_by};
use crate::frames::{Frame, Frames};
use net_octets::NoMemory;
use std::alloc::Global;

/// So many frames may wait until the network reads them, and so many be held back in a direction.
const MOST_WAITING: usize = 1024;

const MOST_HELD: usize = 64;

/// One direction: how many frames in a row were lost last, and what is held back, the one that comes next last.
#[derive(Drop)]
pub struct Way {
    lost: u8,
    pub held: Frames,
}

impl Way {
    fn open(alloc: Global) -> Result<Way, NoMemory> {
        let held = Frames::open(alloc, MOST_HELD)?;
        Ok(Way { lost: 0, held })
    }

    /// How often a frame that is sent comes now: twice, once, or not, because it is lost or held back. Where no more can be held back it comes once.
    pub fn send(&mut self, frame: &Frame, draws: &mut Draws) -> u8
        // One draw is made, and says what becomes of the frame.
        ensures draw { draws.new.seed ≡ next_seed draws.old.seed }
        ensures comes { Comes (fate_of (drawn draws.new.seed) self.old.lost) result }
        ensures lost { self.new.lost ≡ lost_after (fate_of (drawn draws.new.seed) self.old.lost) self.old.lost }
    {
        match fate_by(draws.draw(), self.lost) {
            Fate::Lost => {
                self.lost = self.lost.saturating_add(1);
                0
            }
            Fate::Twice => {
                self.lost = 0;
                2
            }
            Fate::Late => {
                self.lost = 0;
                if self.held.push(frame) { 0 } else { 1 }
            }
            Fate::Once => {
                self.lost = 0;
                1
            }
        }
    }
}

/// Both directions between guest and network, and the draws that say what becomes of each frame.
#[derive(Drop)]
pub struct Road {
    draws: Draws,
    from_guest: Way,
    to_guest: Way,
    /// What came to the network and isn't read yet, the oldest first.
    pub waiting: Frames,
}

impl Road {
    /// An empty road, whose draws begin with `seed`. Err where there is no memory for the frames that may wait or be held back.
    pub fn open(alloc: Global, seed: u64) -> Result<Road, NoMemory> {
        let from_guest = Way::open(alloc)?;
        let to_guest = Way::open(alloc)?;
        let waiting = Frames::open(alloc, MOST_WAITING)?;
        Ok(Road {
            draws: Draws { seed },
            from_guest,
            to_guest,
            waiting,
        })
    }

    /// Sends a frame of the guest. One that comes brings those that were held back after it. Where too many wait it is lost.
    pub fn send(&mut self, frame: &Frame) {
        let times = self.from_guest.send(frame, &mut self.draws);
        for _ in 0..times {
            let _came = self.waiting.push(frame);
        }
        if times > 0 {
            self.release();
        }
    }

    /// Those of the guest that were held back come.
    pub fn release(&mut self) {
        for _ in 0..self.from_guest.held.count() {
            if let Some(frame) = self.from_guest.held.pop() {
                let _came = self.waiting.push(&frame);
            }
        }
    }

    /// How often a frame to the guest comes now.
    pub fn bring(&mut self, frame: &Frame) -> u8
        ensures draw { self.new.draws.seed ≡ next_seed self.old.draws.seed }
        ensures comes { Comes (fate_of (drawn self.new.draws.seed) self.old.to_guest.lost) result }
    {
        self.to_guest.send(frame, &mut self.draws)
    }

    /// Takes the frame to the guest that was held back last; None where none is.
    pub fn late(&mut self) -> Option<Frame> {
        self.to_guest.held.pop()
    }

    /// How many frames to the guest are held back.
    pub fn late_count(&self) -> usize {
        self.to_guest.held.count()
    }

    /// Whether anything is held back.
    pub fn holds(&self) -> bool {
        self.from_guest.held.count() > 0 || self.to_guest.held.count() > 0
    }
}
