//! How many calls a turn of the network makes.
//!
//! There is no code to run. The definitions stand in `specs/`, over the trace of calls, newest entry first; the function here is a law of every run in which each call
//! was one that may follow its past, and its contract is proved though its body is empty.
//!
//! Proved: in every lawful run with allowed answers since the last wait at most three calls were made for each item that it reported, one for each socket that was
//! closed, port that was given, octet that came on the link or from a file and frame that began to go out, and three beside; before the first wait three for each port
//! that the settings open (`a_turn_makes_few_calls`).
#![tactic(auto)]

ghost use Rattle.std.specs.Prelude.{◌≤◌, List};
ghost use Rattle.world_face.specs.Journal.{Entry, AreAllowed};
ghost use Rattle.slirp_settings.specs.Addresses.{Config};
ghost use Rattle.spec_run.specs.Laws.{Lawful};
ghost use Rattle.spec_turns.specs.Tally.{most_calls, tally};

/// Since its wait a turn has made few calls, at every moment: three for each item that the wait reported, one for each socket
/// that was closed, each port of the host that was given to a guest, each octet that came on the link or from a file and each
/// frame that began to go out, and three beside. So has a run before its first wait, with the ports that its settings open for items.
pub fn a_turn_makes_few_calls()
    ensures { (config : Config) (past : List Entry) → Lawful config past → AreAllowed past → (tally config past).calls ≤ most_calls (tally config past) }
{}
