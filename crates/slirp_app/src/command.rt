// The program's main call: what the words of the command line ask for is done.
ghost use Rattle.std.specs.Prelude.{◌≡◌, ◌≢◌, ◌⊎◌, ℕ, ◌≤◌, ◌↔◌, List, [], None, Some, IsErr, IsOk, IsTrue, map};
ghost use Rattle.std.specs.String.{string_bytes};
ghost use Rattle.slirp_settings.specs.Addresses.{Config};
ghost use Rattle.slirp_settings.specs.Ranges.{IsSound, first_broken};
ghost use Rattle.slirp_settings.specs.declared.Forward.{Forward as AForward};
ghost use Rattle.command_words.specs.declared.Setting.{Setting as ASetting};
ghost use Rattle.command_words.specs.Meaning.{Drives, Helps, Meaning, Means, Replays, Serves, TellsVersion, broken_in, config_of, said};
ghost use Rattle.command_words.specs.Stops.{StopsAt};
ghost use Rattle.command_words.specs.declared.Stop.{Stop as AStop};
ghost use Rattle.command_words.specs.declared.Tap.{Tap as ATap};
ghost use Rattle.slirp_app.specs.Doing.{CanBeDone, Course, Does, DrivesRun, ReplaysFile, ServesLink, TellsText, forwards_in, refusal_of};
ghost use Rattle.app_edges.specs.Statuses.{code_of, is_unrun};
ghost use Rattle.app_edges.specs.Texts.{Got, help_text, version_text};
ghost use Rattle.app_edges.specs.declared.outcome.Outcome.{Outcome as AnOutcome};
ghost use Rattle.app_edges.specs.declared.outcome.Outcome.TheVariants.{BadConfig, Done, SinkFault, Usage};
ghost use Rattle.world_face.specs.Journal.{Place};
ghost use Rattle.world_face.specs.Tells.{Makes, Rose};

use crate::driving::drive;
use crate::replaying::replay_file;
use crate::serving::serve;
use app_edges::{Outcome, put_help, put_version, tell};
use command_words::{Command, WordFault, read_words};
use slirp_settings::Forward;
use std::alloc::Global;
use world_face::{Failed, Sink, World};

/// The program. The words of the command line, without the program's name, say what it does and with which settings.
///
/// `replay FILE`: the schedule in FILE is read through `world`, the network runs on it, and what it did goes to `out` as text, last the line
/// `end S` with the status S. `serve --link AT`: `world` opens the link at AT, and the network runs on `world` itself; with `--record` the line of each call behind that goes to
/// `out`, with `--capture` the frames of the link do. `drive NUMBER OCTETS`: it runs with the usual settings on a World that is made from NUMBER, whose guest sends OCTETS octets, and what
/// that came to goes to `out`. `--help` or `help`, alone, puts how the words are written, `--version` the version. The text of a status other than 0 and 12 goes to `err`.
pub fn slirp_main<W: World, K: Sink, E: Sink>(
    alloc: Global,
    words: &Vec<String>,
    world: &mut W,
    out: &mut K,
    err: &mut E,
) -> u8
    // The status is 1 exactly where the words mean nothing.
    ensures usage { (result ≡ 1) ↔ ((meaning : Meaning) → ¬ Means (map string_bytes words.now.items) meaning) }
    // Then the text names the first word by which no reading can go on, or says that one is missing.
    ensures mistake { result ≡ 1 → (stop : AStop) × StopsAt (map string_bytes words.now.items) stop
        × Got (map string_bytes words.now.items) [] (E.holds err.old) (E.holds err.new) (E.faults err.old) (E.faults err.new) (Usage stop) }
    // It is 2 exactly where they mean something of which a setting isn't in its range, and the text names the first such setting.
    ensures bad_config { (meaning : Meaning) (setting : ASetting) → Means (map string_bytes words.now.items) meaning → broken_in meaning ≡ Some setting
        → (result ≡ 2) × Got (map string_bytes words.now.items) [] (E.holds err.old) (E.holds err.new) (E.faults err.old) (E.faults err.new) (BadConfig setting) }
    ensures only_config { result ≡ 2 → (meaning : Meaning) × (setting : ASetting) × Means (map string_bytes words.now.items) meaning
        × (broken_in meaning ≡ Some setting) }
    // With either no call is made.
    ensures untouched { (result ≡ 1) ⊎ (result ≡ 2) → Makes (W.tells world.old) (W.tells world.new) (λ made. made ≡ []) }
    // With `replay FILE` a run is made on what FILE says, with the settings of the words.
    ensures replays { (file : List ℕ) (config : Config) → Means (map string_bytes words.now.items) (Replays file config) → first_broken config ≡ None
        → ReplaysFile file config result (W.tells world.old) (W.tells world.new) (K.holds out.old) (K.holds out.new)
        (Got (map string_bytes words.now.items) config.forwards (E.holds err.old) (E.holds err.new) (E.faults err.old) (E.faults err.new)) }
    // With `serve --link AT` one is made on `world` itself, and what the words ask for is put of it.
    ensures serves { (config : Config) (at : Place) (tap : ATap) → Means (map string_bytes words.now.items) (Serves config at tap) → first_broken config ≡ None
        → ServesLink config at tap result (W.tells world.old) (W.tells world.new) (K.holds out.old) (K.holds out.new)
        (Got (map string_bytes words.now.items) config.forwards (E.holds err.old) (E.holds err.new) (E.faults err.old) (E.faults err.new)) }
    // With `drive NUMBER OCTETS` one is made on a World of its own, and `world` is left alone.
    ensures drives { (number octets : ℕ) → Means (map string_bytes words.now.items) (Drives number octets) → octets ≤ 10000000
        → DrivesRun number octets result (W.tells world.old) (W.tells world.new) (K.holds out.old) (K.holds out.new) }
    // With `--help` or `help` alone how the words are written is put, and with `--version` the version; or `out` failed to take it.
    ensures helps { Means (map string_bytes words.now.items) Helps → TellsText help_text result (W.tells world.old) (W.tells world.new) (K.holds out.old) (K.holds out.new) }
    ensures tells_its_version { Means (map string_bytes words.now.items) TellsVersion
        → TellsText version_text result (W.tells world.old) (W.tells world.new) (K.holds out.old) (K.holds out.new) }
    // Where nothing was run nothing was put.
    ensures nothing { IsTrue (is_unrun result) → K.holds out.new ≡ K.holds out.old }
    // `err` got the text of the outcome and a line feed, unless its count of faults rose.
    ensures told { (outcome : AnOutcome) × (forwards : List AForward) × (result ≡ code_of outcome)
        × Got (map string_bytes words.now.items) forwards (E.holds err.old) (E.holds err.new) (E.faults err.old) (E.faults err.new) outcome }
    // With 0 and 12 it got nothing.
    ensures silent { (result ≡ 0) ⊎ (result ≡ 12) → (E.holds err.new ≡ E.holds err.old) × (E.faults err.new ≡ E.faults err.old) }
    // It is 12 only where a put to `out` failed.
    ensures refused { result ≡ 12 → Rose (K.faults out.old) (K.faults out.new) }
{
    let (outcome, command) = run_words(alloc, words, world, out);
    let _told = tell(&outcome, words.as_slice(), forwards_of(&command), err);
    outcome.code()
}

// Does what the words say, and answers their command, where they have one that is followed.
fn run_words<W: World, K: Sink>(
    alloc: Global,
    words: &Vec<String>,
    world: &mut W,
    out: &mut K,
) -> (Outcome, Option<Command>)
    ensures course { Course (map string_bytes words.now.items) result.0 (W.tells world.old) (W.tells world.new) (K.holds out.old) (K.holds out.new) }
    ensures forwards { (meaning : Meaning) → Means (map string_bytes words.now.items) meaning → broken_in meaning ≡ None → forwards_in result.1 ≡ (config_of meaning).forwards }
    ensures nothing { IsTrue (is_unrun (code_of result.0)) → K.holds out.new ≡ K.holds out.old }
    ensures refused { code_of result.0 ≡ 12 → Rose (K.faults out.old) (K.faults out.new) }
{
    match read_words(words) {
        Ok(command) => {
            let outcome = follow(alloc, &command, world, out);
            (outcome, Some(command))
        }
        Err(fault) => (refusal(fault), None),
    }
}

// Does what a command says.
fn follow<W: World, K: Sink>(
    alloc: Global,
    command: &Command,
    world: &mut W,
    out: &mut K,
) -> Outcome
    requires sound { IsSound (config_of (said command.now)) }
    requires meant { CanBeDone (said command.now) }
    ensures does { Does (said command.now) result (W.tells world.old) (W.tells world.new) (K.holds out.old) (K.holds out.new) }
    ensures run { (code_of result ≢ 1) × (code_of result ≢ 2) }
    ensures nothing { IsTrue (is_unrun (code_of result)) → K.holds out.new ≡ K.holds out.old }
    ensures refused { code_of result ≡ 12 → Rose (K.faults out.old) (K.faults out.new) }
{
    match command {
        Command::Replay(file, config) => replay_file(alloc, file.as_str(), config, world, out),
        Command::Serve(config, at, tap) => serve(alloc, config, at, *tap, world, out),
        Command::Drive(number, octets) => drive(alloc, *number, *octets, out),
        Command::Help => put_outcome(put_help(out)),
        Command::Version => put_outcome(put_version(out)),
    }
}

// What the program comes to where words aren't followed.
fn refusal(fault: WordFault) -> Outcome
    ensures { result ≡ refusal_of fault }
{
    match fault {
        WordFault::Usage(stop) => Outcome::Usage(stop),
        WordFault::BadConfig(setting) => Outcome::BadConfig(setting),
    }
}

// What the program comes to where it only puts a text.
fn put_outcome(put: Result<(), Failed>) -> Outcome
    ensures put { IsOk put → result ≡ Done }
    ensures failed { IsErr put → result ≡ SinkFault }
{
    match put {
        Ok(()) => Outcome::Done,
        Err(Failed) => Outcome::SinkFault,
    }
}

// The forwards of the settings of a command.
fn forwards_of(command: &Option<Command>) -> &[Forward]
    ensures { result.now ≡ forwards_in command.now }
{
    match command {
        Some(Command::Replay(_, config)) => config.forwards.as_slice(),
        Some(Command::Serve(config, ..)) => config.forwards.as_slice(),
        Some(Command::Drive(..) | Command::Help | Command::Version) | None => &[],
    }
}
