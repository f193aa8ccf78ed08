// What a run came to, and its text.
#![tactic(auto, using(world_face::proofs::Putting::puts_then, world_face::proofs::Putting::puts_failed))]

ghost use Rattle.std.specs.Prelude.{◌≡◌, codes, decimal};
ghost use Rattle.world_face.specs.Puts.{Puts};
ghost use Rattle.drive_world.specs.Runs.{line, run_of, summary_text};

use itoa::Buffer;
use world_face::{Failed, Sink};

/// The number from which a run is drawn, the octets that the host got and that the guest took in order, how many of both are wrong, and the waits.
#[derive(Clone, Copy)]
pub struct Run {
    pub number: u64,
    pub up: u64,
    pub down: u64,
    pub wrong: u64,
    pub waits: u64,
}

impl Run {
    /// Puts the summary, a line each: the number, the count of flows, which is 8, the octets up and down, how many are wrong, and the waits.
    pub fn put<K: Sink>(&self, out: &mut K) -> Result<(), Failed>
        ensures { Puts (K.holds out.old) (K.holds out.new) (K.faults out.old) (K.faults out.new) (summary_text (run_of self.now)) result }
    {
        put_line(b"number ", self.number, out)?;
        put_line(b"flows ", 8, out)?;
        put_line(b"up ", self.up, out)?;
        put_line(b"down ", self.down, out)?;
        put_line(b"wrong ", self.wrong, out)?;
        put_line(b"waits ", self.waits, out)
    }
}

fn put_line<K: Sink>(name: &[u8], number: u64, out: &mut K) -> Result<(), Failed>
    ensures { Puts (K.holds out.old) (K.holds out.new) (K.faults out.old) (K.faults out.new) (line name.now number) result }
{
    out.put(name)?;
    let mut buffer = Buffer::new();
    out.put(buffer.format(number).as_bytes())?;
    out.put(b"\n")
}
