// What holds of what is told.
ghost use Rattle.std.specs.Prelude.{◌≡◌, ℕ, List, []};
ghost use Rattle.world_face.specs.Journal.{Entry};
ghost use Rattle.world_face.specs.Tells.{Told, Counts};
ghost use Rattle.taps.specs.Recording.{telling};

/// Calls that were made on a `Tap` from its beginning on are just those that it tells, and so, where its book is a `Record`, just those whose text
/// the sink got: what is proved of the calls that a run makes, on any World, holds of the schedule that was put.
pub fn just_the_calls_made_are_told()
    ensures { (source source_new : List ℕ) (faults faults_new : Counts) (made kept : List Entry)
        → Told (telling source faults []) (telling source_new faults_new kept) made → kept ≡ made }
{}
