// A run on the outside of which is put what it calls. While it runs, what stands behind `world` and `out` lies in a World that passes each call on and notes it.
ghost use Rattle.std.specs.Prelude.{◌≡◌, [], if◌then◌else◌};
ghost use Rattle.slirp_app.specs.Serving.{CapturesAt, IsCounted, IsRecorded, RecordsAt};
ghost use Rattle.app_edges.specs.Statuses.{code_of};
ghost use Rattle.app_edges.specs.declared.outcome.Outcome.TheVariants.{SinkFault};
ghost use Rattle.taps.specs.Capturing.{Tracks};
ghost use Rattle.world_face.specs.Journal.{IsPlace, place_of};
ghost use Rattle.world_face.specs.Tells.{Makes, Rose};

use crate::serving::{run_network, serve_link};
use app_edges::Outcome;
use control_loop::Network;
use core::mem::replace_with;
use taps::{Capture, Framing, Lines, Record, Tap};
use world_face::{LinkAt, Made, Sink, World};

// Opens the link, and puts the line of each call of the run on it.
pub(crate) fn record_link<W: World, K: Sink>(
    network: Network,
    lines: Lines,
    at: &LinkAt,
    world: &mut W,
    out: &mut K,
) -> Outcome
    requires none { lines ≡ [] }
    requires place { IsPlace (place_of at.now) }
    ensures records { Makes (W.tells world.old) (W.tells world.new)
        (RecordsAt network (place_of at.now) result (K.holds out.old) (K.holds out.new)) }
    ensures counted { IsCounted result (W.tells world.old).faults (W.tells world.new).faults }
    ensures refused { code_of result ≡ 12 → Rose (K.faults out.old) (K.faults out.new) }
{
    match world.link_open(at) {
        Made::Done => record(network, lines, world, out),
        Made::Failed => {
            network.let_go();
            Outcome::LinkFault
        }
    }
}

// Runs a network that has served nothing on an open link, and puts the line of each call.
fn record<W: World, K: Sink>(network: Network, lines: Lines, world: &mut W, out: &mut K) -> Outcome
    requires none { lines ≡ [] }
    ensures recorded { Makes (W.tells world.old) (W.tells world.new) (IsRecorded network result (K.holds out.old) (K.holds out.new)) }
    ensures counted { IsCounted result (W.tells world.old).faults (W.tells world.new).faults }
    ensures refused { code_of result ≡ 12 → Rose (K.faults out.old) (K.faults out.new) }
{
    let (outcome, _out) = replace_with(world, (network, lines, out), record_in);
    outcome
}

// Records a run on a World that is handed over and comes back; the sink's reference comes back too.
fn record_in<'a, W: World, K: Sink>(
    world: W,
    run: (Network, Lines, &'a mut K),
) -> (W, (Outcome, &'a mut K))
    requires none { run.1 ≡ [] }
    ensures recorded { Makes (W.tells world) (W.tells result.0)
        (IsRecorded run.entry.0 result.1.0 (K.holds run.entry.2.now) (K.holds result.1.1.now)) }
    ensures counted { IsCounted result.1.0 (W.tells world).faults (W.tells result.0).faults }
    ensures refused { code_of result.1.0 ≡ 12 → Rose (K.faults run.entry.2.now) (K.faults result.1.1.now) }
    ensures same { result.1.1.ghost_name ≡ run.entry.2.ghost_name }
{
    let (network, lines, out) = run;
    let (world, outcome) = replace_with(out, (world, network, lines), record_run);
    (world, (outcome, out))
}

// And for a sink that is.
fn record_run<W: World, K: Sink>(sink: K, run: (W, Network, Lines)) -> (K, (W, Outcome))
    requires none { run.2 ≡ [] }
    ensures recorded { Makes (W.tells run.0) (W.tells result.1.0) (IsRecorded run.1 result.1.1 (K.holds sink) (K.holds result.0)) }
    ensures counted { IsCounted result.1.1 (W.tells run.0).faults (W.tells result.1.0).faults }
    ensures refused { code_of result.1.1 ≡ 12 → Rose (K.faults sink) (K.faults result.0) }
{
    let (world, network, lines) = run;
    let mut tap = Tap::new(world, Record::new(sink, lines));
    let outcome = run_network(network, &mut tap);
    let (world, record) = tap.into_parts();
    let (sink, failed) = record.close();
    (sink, (world, unless_failed(failed, outcome)))
}

// Opens the link, and puts the frames of the run on it.
pub(crate) fn capture_link<W: World, K: Sink>(
    network: Network,
    framing: Framing,
    at: &LinkAt,
    world: &mut W,
    out: &mut K,
) -> Outcome
    requires none { Tracks framing [] }
    requires place { IsPlace (place_of at.now) }
    ensures captures { Makes (W.tells world.old) (W.tells world.new)
        (CapturesAt network (place_of at.now) result (K.holds out.old) (K.holds out.new)) }
    ensures counted { IsCounted result (W.tells world.old).faults (W.tells world.new).faults }
    ensures refused { code_of result ≡ 12 → Rose (K.faults out.old) (K.faults out.new) }
{
    let (outcome, _out) = replace_with(world, (network, framing, at, out), capture_in);
    outcome
}

// Captures a run on a World that is handed over and comes back; the sink's reference comes back too.
fn capture_in<'a, W: World, K: Sink>(
    world: W,
    run: (Network, Framing, &LinkAt, &'a mut K),
) -> (W, (Outcome, &'a mut K))
    requires none { Tracks run.1 [] }
    requires place { IsPlace (place_of run.2.now) }
    ensures captures { Makes (W.tells world) (W.tells result.0)
        (CapturesAt run.entry.0 (place_of run.entry.2.now) result.1.0 (K.holds run.entry.3.now) (K.holds result.1.1.now)) }
    ensures counted { IsCounted result.1.0 (W.tells world).faults (W.tells result.0).faults }
    ensures refused { code_of result.1.0 ≡ 12 → Rose (K.faults run.entry.3.now) (K.faults result.1.1.now) }
    ensures same { result.1.1.ghost_name ≡ run.entry.3.ghost_name }
{
    let (network, framing, at, out) = run;
    let (world, outcome) = replace_with(out, (world, network, framing, at), capture_run);
    (world, (outcome, out))
}

// And for a sink that is.
fn capture_run<W: World, K: Sink>(sink: K, run: (W, Network, Framing, &LinkAt)) -> (K, (W, Outcome))
    requires none { Tracks run.2 [] }
    requires place { IsPlace (place_of run.3.now) }
    ensures captures { Makes (W.tells run.entry.0) (W.tells result.1.0)
        (CapturesAt run.entry.1 (place_of run.entry.3.now) result.1.1 (K.holds sink) (K.holds result.0)) }
    ensures counted { IsCounted result.1.1 (W.tells run.entry.0).faults (W.tells result.1.0).faults }
    ensures refused { code_of result.1.1 ≡ 12 → Rose (K.faults sink) (K.faults result.0) }
{
    let (world, network, framing, at) = run;
    let mut tap = Tap::new(world, Capture::new(sink, framing));
    let outcome = serve_link(network, at, &mut tap);
    let (world, capture) = tap.into_parts();
    let (sink, failed) = capture.close();
    (sink, (world, unless_failed(failed, outcome)))
}

// What a run comes to whose outcome is this, where the sink may have failed to take some of what is put of it.
fn unless_failed(failed: bool, outcome: Outcome) -> Outcome
    ensures { result ≡ (if failed then SinkFault else outcome) }
{
    if failed { Outcome::SinkFault } else { outcome }
}
