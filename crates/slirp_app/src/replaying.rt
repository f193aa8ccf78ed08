// A recorded schedule is read and run on.
ghost use Rattle.std.specs.Prelude.{◌≡◌, ◌≢◌, ◌⊎◌, ℕ, ◌≤◌, ◌<◌, true, false, IsTrue, length};
ghost use Rattle.slirp_settings.specs.Ranges.{IsSound};
ghost use Rattle.slirp_settings.specs.Settings.{settings};
ghost use Rattle.replay.specs.Fitting.{StopsRightly, divergence_of};
ghost use Rattle.replay.specs.Rows.{AreReadable, TakesTooMuch, schedule_text};
ghost use Rattle.replay.specs.Script.{IsFresh};
ghost use Rattle.replay.specs.Unread.{IsFirstUnread};
ghost use Rattle.replay.specs.declared.Divergence.{Divergence};
ghost use Rattle.slirp_app.specs.Causes.{Came, Caused};
ghost use Rattle.app_edges.specs.Fetching.{MayFetch};
ghost use Rattle.app_edges.specs.Statuses.{code_of, is_run, is_unrun};
ghost use Rattle.app_edges.specs.declared.outcome.Outcome.TheVariants.{Diverged, NoMemory as OfMemory, ScheduleLine, ScheduleRead, ScheduleTooLarge};
ghost use Rattle.world_face.specs.Journal.{Follows};
ghost use Rattle.world_face.specs.Tells.{Makes, Rose};

use crate::serving::run_network;
use app_edges::{Outcome, Unread, put_record, read_file};
use control_loop::Network;
use replay::{ScriptFault, ScriptWorld};
use slirp_settings::SlirpConfig;
use std::alloc::Global;
use world_face::{Sink, World};

// Reads the schedule in a file, and runs on it with these settings.
pub(crate) fn replay_file<W: World, K: Sink>(
    alloc: Global,
    name: &str,
    config: &SlirpConfig,
    world: &mut W,
    out: &mut K,
) -> Outcome
    requires sound { IsSound (settings config.now) }
    requires some { 0 < length name.now }
    requires fits { length name.now ≤ 1280 }
    ensures calls { Makes (W.tells world.old) (W.tells world.new)
        (λ made. Follows (MayFetch name.now) made × Caused (settings config.now) result made (K.holds out.old) (K.holds out.new)) }
    ensures nothing { IsTrue (is_unrun (code_of result)) → K.holds out.new ≡ K.holds out.old }
    ensures read { (code_of result ≢ 1) × (code_of result ≢ 2) }
    ensures refused { code_of result ≡ 12 → Rose (K.faults out.old) (K.faults out.new) }
{
    match read_file(alloc, world, name) {
        Ok(octets) => replay(alloc, octets, config, out),
        Err(Unread::Unreadable) => Outcome::ScheduleRead,
        Err(Unread::NoMemory) => Outcome::NoMemory,
    }
}

// Runs on the octets of a schedule.
fn replay<K: Sink>(alloc: Global, octets: Vec<u8>, config: &SlirpConfig, out: &mut K) -> Outcome
    requires sound { IsSound (settings config.now) }
    requires short { length octets.items ≤ 67108864 }
    ensures came { Came (settings config.now) result octets.items (K.holds out.old) (K.holds out.new) }
    ensures nothing { IsTrue (is_unrun (code_of result)) → K.holds out.new ≡ K.holds out.old }
    ensures first { (line : ℕ) → result ≡ ScheduleLine line → IsFirstUnread octets.items line }
    ensures misencoded { (line : ℕ) → IsFirstUnread octets.items line → (result ≡ ScheduleLine line) ⊎ (result ≡ OfMemory) }
    ensures read { (code_of result ≢ 1) × (code_of result ≢ 2) × (result ≢ ScheduleRead) }
    ensures large { result ≡ ScheduleTooLarge → TakesTooMuch octets.items }
    ensures refused { code_of result ≡ 12 → Rose (K.faults out.old) (K.faults out.new) }
{
    match ScriptWorld::read(alloc, &octets) {
        Ok(script) => run(alloc, script, config, out),
        Err(ScriptFault::Line(line)) => Outcome::ScheduleLine(line),
        Err(ScriptFault::TooLarge) => Outcome::ScheduleTooLarge,
        Err(ScriptFault::NoMemory) => Outcome::NoMemory,
    }
}

// Runs on a schedule, and puts what it did.
fn run<K: Sink>(
    alloc: Global,
    mut script: ScriptWorld,
    config: &SlirpConfig,
    out: &mut K,
) -> Outcome
    requires sound { IsSound (settings config.now) }
    requires fresh { IsFresh script }
    ensures came { Came (settings config.now) result (schedule_text script.lines) (K.holds out.old) (K.holds out.new) }
    ensures nothing { IsTrue (is_unrun (code_of result)) → K.holds out.new ≡ K.holds out.old }
    ensures read { (code_of result ≢ 1) × (code_of result ≢ 2) × (code_of result ≢ 3) × (code_of result ≢ 4) }
    ensures refused { code_of result ≡ 12 → Rose (K.faults out.old) (K.faults out.new) }
{
    let Ok(network) = Network::open(alloc, config) else {
        return Outcome::NoMemory;
    };
    let done = run_network(network, &mut script);
    let outcome = ended(&script, done);
    match put_record(&script, outcome.code(), out) {
        Ok(()) => outcome,
        Err(_) => Outcome::SinkFault,
    }
}

// What a run came to that was done so, unless it diverged.
fn ended(script: &ScriptWorld, done: Outcome) -> Outcome
    requires { IsTrue (is_run (code_of done)) }
    ensures lives { script.now.live ≡ true → result ≡ done }
    ensures ceased { script.now.live ≡ false → (divergence : Divergence) × (result ≡ Diverged divergence) × (divergence_of script.now ≡ Some divergence) }
    ensures fits_none { StopsRightly script.now.lines script.now.used script.now.stop }
    ensures within { script.now.used ≤ length script.now.lines }
    ensures readable { AreReadable script.now.lines }
    ensures ran { IsTrue (is_run (code_of result)) }
{
    match script.divergence() {
        Some(divergence) => Outcome::Diverged(divergence),
        None => done,
    }
}
