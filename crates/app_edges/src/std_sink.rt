// A sink over a writer of std.
ghost use Rattle.std.specs.Prelude.{◌≡◌, ◌+◌, ◌≤◌, min, OnOk};
ghost use Rattle.std.specs.Io.KnownBytes.{Appends};
ghost use Rattle.world_face.specs.Puts.{Puts};
ghost use Rattle.app_edges.specs.Writers.{faults_of, writer_of};

use std::io::Write;
use world_face::{Failed, Sink};

/// A sink over any writer. It doesn't tell what it got; it counts how often it has failed.
#[derive(Drop)]
pub struct StdSink<T: Write> {
    writer: T,
    faults: u64,
}

impl<T: Write> StdSink<T> {
    /// Over this writer. It has never failed.
    pub fn new(w: T) -> StdSink<T>
        ensures writer { writer_of result ≡ w }
        ensures faults { faults_of result ≡ 0 }
    {
        StdSink {
            writer: w,
            faults: 0,
        }
    }
}

impl<T: Write> Sink for StdSink<T> {
    ghost use Rattle.std.specs.Prelude.{None};

    ghost holds = { λ s. None };

    ghost faults = { λ s. s.faults };

    /// Where this is Ok the writer got all of the octets.
    fn put(&mut self, octets: &[u8]) -> Result<(), Failed>
        ensures puts { Puts None None (faults_of self.old) (faults_of self.new) octets.now result }
        ensures calm { OnOk result (faults_of self.new ≡ faults_of self.old) }
        ensures written { OnOk result (Appends (T.contents (writer_of self.old)) (T.contents (writer_of self.new)) octets.now) }
    {
        // A writer of std shows nothing of a flush: that one is made is tested in `worked_edges`.
        if self.writer.write_all(octets).is_err() || self.writer.flush().is_err() {
            self.faults = self.faults.saturating_add(1);
            return Err(Failed);
        }
        Ok(())
    }
}
