// The guest, with eight connections to one server.
use crate::flow::{FIRST_PORT, Flow, Owed};
use crate::frames::{Frame, segment_in};
use crate::pattern::Pattern;
use crate::road::Road;
use world_face::sooner;

/// How many connections the guest has.
pub const FLOWS: usize = 8;

/// The guest with its flows, numbered from 0, whose ports rise from `FIRST_PORT` on.
#[derive(Drop)]
pub struct Guest {
    flows: [Flow; FLOWS],
}

/// How many octets a frame brought that come next, and how many of them are wrong.
#[derive(Clone, Copy)]
pub struct Taken {
    pub count: u64,
    pub wrong: u64,
}

const NOTHING_TAKEN: Taken = Taken { count: 0, wrong: 0 };

/// How many of all octets a flow sends: an eighth, and one more while some are left.
pub fn share(octets: u64, flow: u16) -> u32 {
    let more = u64::from(u64::from(flow) < octets % 8);
    u32::try_from(octets / 8 + more).unwrap_or(u32::MAX)
}

impl Guest {
    /// One that sends so many octets in all.
    pub fn new(octets: u64) -> Guest {
        let mut flows = [Flow::new(FIRST_PORT, 0); FLOWS];
        let mut number = 0;
        for flow in flows.iter_mut() {
            *flow = Flow::new(FIRST_PORT.saturating_add(number), share(octets, number));
            number = number.saturating_add(1);
        }
        Guest { flows }
    }

    /// Takes what the link carries, and sends what it owes for it.
    pub fn take_frame(
        &mut self,
        now: u64,
        carried: &[u8],
        pattern: &Pattern,
        road: &mut Road,
    ) -> Taken {
        let Some(segment) = segment_in(carried) else {
            return NOTHING_TAKEN;
        };
        let number = segment.to_port.wrapping_sub(FIRST_PORT) as usize;
        let Some(flow) = self.flows.get_mut(number) else {
            return NOTHING_TAKEN;
        };
        let place = flow.taken;
        let came = flow.take_segment(&segment);
        if let Some(frame) = frame_owed(flow, came.owed, number, now, pattern) {
            road.send(&frame);
        }
        match segment.body.get(came.from..) {
            Some(octets) => Taken {
                count: octets.len() as u64,
                wrong: pattern.differing(place, octets),
            },
            None => NOTHING_TAKEN,
        }
    }

    /// Sends what is due at this moment.
    pub fn tick(&mut self, now: u64, pattern: &Pattern, road: &mut Road) {
        let mut number = 0;
        for flow in self.flows.iter_mut() {
            if flow.is_due(now) {
                if let Some(frame) = frame_owed(flow, Owed::Piece, number, now, pattern) {
                    road.send(&frame);
                }
            }
            number = number.saturating_add(1);
        }
    }

    /// The moment, in milliseconds, at which it sends next by itself. None where no flow has something to send.
    pub fn next_due(&self) -> Option<u64> {
        let mut next = None;
        for flow in &self.flows {
            next = sooner(next, flow.due);
        }
        next
    }

    /// The flows, each at the place of its number.
    pub fn flows(&self) -> &[Flow] {
        &self.flows
    }
}

// The frame that a flow, which has this number, owes, where it does.
fn frame_owed(
    flow: &mut Flow,
    owed: Owed,
    number: usize,
    now: u64,
    pattern: &Pattern,
) -> Option<Frame> {
    match owed {
        Owed::Nothing => None,
        Owed::Word => Frame::carrying(number, &flow.word()),
        Owed::Piece => Frame::carrying(number, &flow.piece(now, pattern)?),
    }
}
