// A World with a long file.
ghost use Rattle.std.specs.Prelude.{◌≡◌};
ghost use Rattle.world_face.specs.Journal.{MayMeasure};

use world_face::{
    Accepted, Endpoint, FileSize, Got, Io, Joined, LinkAt, Made, ReadyList, Sent, Waited, Wants,
    World,
};

// The answer of a file of so many octets.
fn measured(length: u64) -> FileSize
    ensures value { result ≡ FileSize.Length length }
    ensures range { MayMeasure result }
{
    FileSize::Length(length)
}

/// A World that has one file of so many octets, all line feeds, and tells nothing.
#[derive(Drop)]
pub struct LongFile {
    length: u64,
    reads: u64,
}

impl LongFile {
    pub fn new(length: u64) -> LongFile {
        LongFile { length, reads: 0 }
    }

    /// How often it was read.
    pub fn reads(&self) -> u64 {
        self.reads
    }
}

impl World for LongFile {
    ghost use Rattle.std.specs.Prelude.{[], None, false};

    ghost tells = { λ q. record { source = []; kept = []; live = false; stop = None; faults = record { link = 0; wait = 0; socket = 0; file = 0 } } };

    fn now(&mut self) -> u64 {
        0
    }

    fn wait(&mut self, _wants: &Wants, _timeout: Option<u64>, ready: &mut ReadyList) -> Waited {
        ready.clear();
        Waited::Stop
    }

    fn link_open(&mut self, _at: &LinkAt) -> Made {
        Made::Done
    }

    fn link_read(&mut self, _into: &mut [u8]) -> Io {
        Io::NotYet
    }

    fn link_write(&mut self, _from: &[u8]) -> Io {
        Io::NotYet
    }

    fn connect(&mut self, _c: u64, _to: Endpoint) -> Made {
        Made::Done
    }

    fn connected(&mut self, _c: u64) -> Joined {
        Joined::NotYet
    }

    fn listen(&mut self, _l: u64, _at: Endpoint) -> Made {
        Made::Done
    }

    fn accept(&mut self, _l: u64, _c: u64) -> Accepted {
        Accepted::NotYet
    }

    fn tcp_read(&mut self, _c: u64, _into: &mut [u8]) -> Io {
        Io::NotYet
    }

    fn tcp_write(&mut self, _c: u64, _from: &[u8]) -> Io {
        Io::NotYet
    }

    fn tcp_end(&mut self, _c: u64) -> Made {
        Made::Done
    }

    fn close(&mut self, _s: u64) {}

    fn udp_open(&mut self, _s: u64, _at: Endpoint) -> Made {
        Made::Done
    }

    fn udp_send(&mut self, _s: u64, _to: Endpoint, _from: &[u8]) -> Sent {
        Sent::Done
    }

    fn udp_recv(&mut self, _s: u64, _into: &mut [u8]) -> Got {
        Got::NotYet
    }

    fn file_len(&mut self, _name: &str) -> FileSize {
        measured(self.length)
    }

    fn file_read(&mut self, _name: &str, _at: u64, into: &mut [u8]) -> Io {
        into.fill(b'\n');
        self.reads = self.reads.saturating_add(1);
        Io::Done(into.len())
    }
}
