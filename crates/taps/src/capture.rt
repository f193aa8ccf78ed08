// The frames of a run, put into a sink.
ghost use Rattle.std.specs.Prelude.{◌≡◌, ◌≤◌, ◌∷◌, List, true, false};
ghost use Rattle.replay.specs.Views.{viewed};
ghost use Rattle.taps.specs.Capturing.{Tracks, FitsBy, entry_text, file_head};
ghost use Rattle.world_face.specs.Journal.{Entry};
ghost use Rattle.world_face.specs.Puts.{added};
ghost use Rattle.world_face.specs.Tells.{Rose};

use crate::framing::Framing;
use crate::journal::Journal;
use crate::tap::Book;
use replay::LineView;
use std::marker::Model;
use std::snapshot::Snapshot;
use world_face::Sink;

/// The magic number, version 2.4, no zone, no accuracy, frames of up to 69,632 octets, and Ethernet.
const FILE_HEAD: &[u8] = &[
    0xa1, 0xb2, 0xc3, 0xd4, 0, 2, 0, 4, 0, 0, 0, 0, 0, 0, 0, 0, 0, 1, 0x10, 0, 0, 0, 0, 1,
];

/// Puts the frames of the link into a sink, as a file of classic pcap: its head at the beginning, then each frame that arrives or goes out, whole and
/// once, with the moment in force. A frame that comes in pieces is put as its last octet is read, and one that goes out as its first octet is taken.
/// Where the sink doesn't take some of it, nothing is put behind that.
#[derive(Drop)]
pub struct Capture<K: Sink> {
    out: K,
    began: Snapshot<K>,
    framing: Framing,
    journal: Journal,
    failed: bool,
}

impl<K: Sink> Model for Capture<K> {
    ghost use Rattle.std.specs.Prelude.{◌≡◌};
    ghost use Rattle.taps.specs.Recording.{Written, beginning};
    ghost use Rattle.taps.specs.Capturing.{IsWatched};

    ghost Value = { Written K };

    ghost view = { λ c. record { out = c.out; source = beginning (K.faults c.began.value) (K.holds c.began.value); made = c.journal.entries; failed = c.failed } };

    ghost invariant = { λ c. IsWatched (K.holds c.began.value) (K.holds c.out) (K.faults c.began.value) (K.faults c.out) c.framing c.journal.entries c.failed };
}

// Notes a call, unless something was refused before. Answers whether anything was.
fn note_unless<K: Sink>(
    refused: bool,
    line: &LineView<'_>,
    framing: &mut Framing,
    out: &mut K,
) -> bool
    ensures before { result ≡ false → refused ≡ false }
    ensures tracks { (past : List Entry) → Tracks framing.old past → result ≡ false → Tracks framing.new (viewed line.now ∷ past) }
    ensures put { (past : List Entry) → Tracks framing.old past → result ≡ false
        → K.holds out.new ≡ added (entry_text (viewed line.now) past) (K.holds out.old) }
    ensures fault { (past : List Entry) → Tracks framing.old past → result ≡ true → refused ≡ false → FitsBy (viewed line.now) past
        → Rose (K.faults out.old) (K.faults out.new) }
    ensures later { K.faults out.old ≤ K.faults out.new }
{
    if refused {
        return true;
    }
    framing.note(line, out).is_err()
}

// Puts the head of the file. Answers whether it was refused.
fn put_head<K: Sink>(out: &mut K) -> bool
    ensures put { result ≡ false → K.holds out.new ≡ added file_head (K.holds out.old) }
    ensures rose { result ≡ true → Rose (K.faults out.old) (K.faults out.new) }
    ensures later { K.faults out.old ≤ K.faults out.new }
{
    out.put(FILE_HEAD).is_err()
}

impl<K: Sink> Capture<K> {
    ghost use Rattle.std.specs.Prelude.{ℕ, [], Option};
    ghost use Rattle.taps.specs.Recording.{beginning};
    ghost use Rattle.taps.specs.Capturing.{Fits, IsCaptured};

    /// Puts the head. Nothing may be under way in `framing`.
    pub fn new(out: K, framing: Framing) -> Capture<K>
        requires { Tracks framing [] }
        ensures made { result.made ≡ [] }
        ensures source { result.source ≡ beginning (K.faults out) (K.holds out) }
    {
        // for the prover: the sink as it is before the head is put, which has no octets.
        let began = Snapshot::of(&out);
        let mut out = out;
        let failed = put_head(&mut out);
        Capture {
            out,
            began,
            framing,
            journal: Journal::new(),
            failed,
        }
    }

    /// Whether the sink failed to take some of it. It has only where the count of its faults rose since the head was put, if each frame was of a
    /// length that may be.
    pub fn failed(&self) -> bool
        ensures value { result ≡ self.now.failed }
        ensures rose { (old : Option (List ℕ)) (faults : ℕ) → self.now.source ≡ beginning faults old → result ≡ true → Fits self.now.made
            → Rose faults (K.faults self.now.out) }
    {
        self.failed
    }

    /// Gives the sink back; says too whether it failed to take some of it.
    pub fn close(self) -> (K, bool)
        // Behind what the sink held at first it got the capture of the calls that were made, unless it failed.
        ensures { (old : Option (List ℕ)) (faults : ℕ) → self.source ≡ beginning faults old
            → IsCaptured old (K.holds result.0) faults (K.faults result.0) self.made result.1 }
    {
        let Capture {
            out,
            began: _,
            framing: _,
            journal: _,
            failed,
        } = self;
        (out, failed)
    }
}

impl<K: Sink> Book for Capture<K> {
    ghost made = { λ c. c.made };

    ghost source = { λ c. c.source };

    fn note(&mut self, line: &LineView<'_>) {
        self.failed = note_unless(self.failed, line, &mut self.framing, &mut self.out);
        // for the prover: the calls so far, which have no octets.
        self.journal = self.journal.then(line);
    }

    // Nothing of a capture waits.
    fn pause(&mut self) {}
}
