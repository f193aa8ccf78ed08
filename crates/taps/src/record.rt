// The lines of a run, put into a sink.
ghost use Rattle.std.specs.Prelude.{◌≡◌, ◌≤◌, ◌++◌, [], ◌∷◌, true, false};
ghost use Rattle.replay.specs.Text.{line_text};
ghost use Rattle.replay.specs.Views.{viewed};
ghost use Rattle.world_face.specs.Puts.{Puts, added};
ghost use Rattle.world_face.specs.Tells.{Rose};

use crate::journal::Journal;
use crate::lines::Lines;
use crate::tap::Book;
use replay::LineView;
use std::marker::Model;
use std::snapshot::Snapshot;
use world_face::Sink;

/// Puts the line of each call with its answer into a sink, as `replay` prints it, so that what the sink gets is a schedule by which the run can be made again.
/// Lines wait in a buffer until a wait comes,
/// and are put whole. Where the sink doesn't take some, nothing is put behind them.
#[derive(Drop)]
pub struct Record<K: Sink> {
    out: K,
    began: Snapshot<K>,
    lines: Lines,
    journal: Journal,
    failed: bool,
}

impl<K: Sink> Model for Record<K> {
    ghost use Rattle.std.specs.Prelude.{◌≡◌};
    ghost use Rattle.taps.specs.Recording.{Written, IsKept, beginning};

    ghost Value = { Written K };

    ghost view = { λ r. record { out = r.out; source = beginning (K.faults r.began.value) (K.holds r.began.value); made = r.journal.entries; failed = r.failed } };

    ghost invariant = { λ r. IsKept (K.holds r.began.value) (K.holds r.out) (K.faults r.began.value) (K.faults r.out) r.lines r.journal.entries r.failed };
}

// Keeps a line, unless some were refused before. Answers whether any were.
fn keep_unless<K: Sink>(refused: bool, line: &LineView<'_>, lines: &mut Lines, out: &mut K) -> bool
    ensures before { result ≡ false → refused ≡ false }
    ensures kept { result ≡ false → added lines.new (K.holds out.new) ≡ added (lines.old ++ line_text (viewed line.now)) (K.holds out.old) }
    ensures rose { result ≡ true → refused ≡ false → Rose (K.faults out.old) (K.faults out.new) }
    ensures later { K.faults out.old ≤ K.faults out.new }
{
    if refused {
        return true;
    }
    lines.keep(line, out).is_err()
}

// Puts the lines that wait, unless some were refused before. Answers whether any were.
fn flush_unless<K: Sink>(refused: bool, lines: &mut Lines, out: &mut K) -> bool
    ensures before { result ≡ false → refused ≡ false }
    ensures put { result ≡ false → K.holds out.new ≡ added lines.old (K.holds out.old) }
    ensures none { result ≡ false → lines.new ≡ [] }
    ensures rose { result ≡ true → refused ≡ false → Rose (K.faults out.old) (K.faults out.new) }
    ensures later { K.faults out.old ≤ K.faults out.new }
{
    if refused {
        return true;
    }
    lines.flush(out).is_err()
}

impl<K: Sink> Record<K> {
    ghost use Rattle.std.specs.Prelude.{ℕ, List, Option};
    ghost use Rattle.taps.specs.Recording.{IsKept, IsWritten, beginning};

    /// Nothing is put yet. No line may wait in `lines`.
    pub fn new(out: K, lines: Lines) -> Record<K>
        requires { lines ≡ [] }
        ensures { result ≡ record { out = out; source = beginning (K.faults out) (K.holds out); made = []; failed = false } }
    {
        // for the prover: the sink as it is before the first line, which has no octets.
        let began = Snapshot::of(&out);
        Record {
            out,
            began,
            lines,
            journal: Journal::new(),
            failed: false,
        }
    }

    /// Whether the sink failed to take lines. It has only where the count of its faults rose since the lines began.
    pub fn failed(&self) -> bool
        ensures value { result ≡ self.now.failed }
        ensures rose { (old : Option (List ℕ)) (faults : ℕ) → self.now.source ≡ beginning faults old → result ≡ true → Rose faults (K.faults self.now.out) }
    {
        self.failed
    }

    /// Puts the lines that wait, and gives the sink back; says too whether the sink failed to take any.
    pub fn close(self) -> (K, bool)
        // Behind what the sink held when the lines began it got the text of the calls that were made, all of them in their order, unless it failed.
        ensures { (old : Option (List ℕ)) (faults : ℕ) → self.source ≡ beginning faults old
            → IsWritten old (K.holds result.0) faults (K.faults result.0) self.made result.1 }
    {
        let Record {
            mut out,
            began: _,
            mut lines,
            journal: _,
            failed,
        } = self;
        let failed = flush_unless(failed, &mut lines, &mut out);
        (out, failed)
    }
}

impl<K: Sink> Book for Record<K> {
    ghost use Rattle.std.specs.Prelude.{ℕ, List, Option};
    ghost use Rattle.replay.specs.Text.{text};
    ghost use Rattle.taps.specs.Recording.{beginning};

    ghost made = { λ r. r.made };

    ghost source = { λ r. r.source };

    fn note(&mut self, line: &LineView<'_>) {
        self.failed = keep_unless(self.failed, line, &mut self.lines, &mut self.out);
        // for the prover: the calls so far, which have no octets.
        self.journal = self.journal.then(line);
    }

    /// Puts the lines that wait, so that the sink has the line of each call so far, unless it failed.
    fn pause(&mut self)
        ensures made { self.new.made ≡ self.old.made }
        ensures source { self.new.source ≡ self.old.source }
        ensures put { (old : Option (List ℕ)) (faults : ℕ) → self.old.source ≡ beginning faults old → self.new.failed ≡ false
            → K.holds self.new.out ≡ added (text self.new.made) old }
    {
        self.failed = flush_unless(self.failed, &mut self.lines, &mut self.out);
    }
}
