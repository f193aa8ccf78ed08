// The calls so far. They exist only in proofs.
ghost use Rattle.std.specs.Prelude.{◌≡◌, List, [], ◌∷◌};
ghost use Rattle.std.specs.Borrow.{ftrue};
ghost use Rattle.world_face.specs.Journal.{Entry};
ghost use Rattle.replay.specs.Views.{viewed};

use replay::LineView;
use std::marker::Model;

/// A list of calls with their answers, newest first, which only clauses read: it has no octets. What it says is tied to the World by `Tap` and to
/// the sink by each `Book`.
#[derive(Drop)]
pub struct Journal {
    pub ghost entries: { List Entry },
}

impl Model for Journal {
    ghost also_owns = { λ _. ftrue };
}

impl Journal {
    /// A list with no call.
    pub fn new() -> Journal
        ensures { result.entries ≡ [] }
    {
        Journal {}
    }

    /// The list with one call more.
    pub fn then(&self, _line: &LineView<'_>) -> Journal
        ensures { result.entries ≡ viewed _line.now ∷ self.now.entries }
    {
        Journal {}
    }
}
