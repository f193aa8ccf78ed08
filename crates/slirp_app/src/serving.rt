// The network on the outside itself.
ghost use Rattle.std.specs.Prelude.{◌≡◌, IsTrue};
ghost use Rattle.slirp_settings.specs.Ranges.{IsSound};
ghost use Rattle.slirp_settings.specs.Settings.{settings};
ghost use Rattle.slirp_app.specs.Serving.{ComesTo, IsCounted, OpensAt, ServesAt};
ghost use Rattle.slirp_app.specs.Statuses.{outcome_of};
ghost use Rattle.app_edges.specs.Statuses.{code_of, is_run};
ghost use Rattle.world_face.specs.Journal.{IsPlace, place_of};
ghost use Rattle.world_face.specs.Tells.{Makes, Rose};

use crate::tapping::{capture_link, record_link};
use app_edges::Outcome;
use command_words::Tap;
use control_loop::{End, Network};
use slirp_settings::SlirpConfig;
use std::alloc::Global;
use taps::{Framing, Lines};
use world_face::{LinkAt, Made, Sink, World};

// Serves the link at a place: `world` listens there, and the network runs on it. What is asked for is put of the run as it goes. All memory is taken before the first call and the first octet.
pub(crate) fn serve<W: World, K: Sink>(
    alloc: Global,
    config: &SlirpConfig,
    at: &LinkAt,
    tap: Tap,
    world: &mut W,
    out: &mut K,
) -> Outcome
    requires sound { IsSound (settings config.now) }
    requires place { IsPlace (place_of at.now) }
    ensures serves { Makes (W.tells world.old) (W.tells world.new)
        (ServesAt (settings config.now) (place_of at.now) tap result (K.holds out.old) (K.holds out.new)) }
    // Where it ended by a fault the count of the link's, of the waits' or of the sockets' rose.
    ensures counted { IsCounted result (W.tells world.old).faults (W.tells world.new).faults }
    ensures refused { code_of result ≡ 12 → Rose (K.faults out.old) (K.faults out.new) }
{
    let Ok(network) = Network::open(alloc, config) else {
        return Outcome::NoMemory;
    };
    match tap {
        Tap::Off => serve_link(network, at, world),
        Tap::Record => match Lines::open(alloc) {
            Ok(lines) => record_link(network, lines, at, world, out),
            Err(_) => {
                network.let_go();
                Outcome::NoMemory
            }
        },
        Tap::Capture => match Framing::open(alloc) {
            Ok(framing) => capture_link(network, framing, at, world, out),
            Err(_) => {
                network.let_go();
                Outcome::NoMemory
            }
        },
    }
}

// Opens the link, and serves it by a network that has served nothing.
pub(crate) fn serve_link<W: World>(network: Network, at: &LinkAt, world: &mut W) -> Outcome
    requires place { IsPlace (place_of at.now) }
    ensures opens { Makes (W.tells world.old) (W.tells world.new) (OpensAt network (place_of at.now) result) }
    ensures counted { IsCounted result (W.tells world.old).faults (W.tells world.new).faults }
{
    match world.link_open(at) {
        Made::Done => run_network(network, world),
        Made::Failed => {
            network.let_go();
            Outcome::LinkFault
        }
    }
}

// Runs a network that has served nothing.
pub(crate) fn run_network<W: World>(network: Network, world: &mut W) -> Outcome
    ensures runs { Makes (W.tells world.old) (W.tells world.new) (ComesTo network result) }
    ensures counted { IsCounted result (W.tells world.old).faults (W.tells world.new).faults }
    ensures ran { IsTrue (is_run (code_of result)) }
{
    let end = network.serve(world);
    outcome_of(end)
}

// The outcome of a run that ended so.
fn outcome_of(end: End) -> Outcome
    ensures { result ≡ outcome_of end }
{
    match end {
        End::Done => Outcome::Done,
        End::TooLong(length) => Outcome::FrameTooLong(length),
        End::Cut(octets) => Outcome::FrameCut(octets),
        End::LinkFault => Outcome::LinkFault,
        End::WaitFault => Outcome::WaitFault,
        End::TurnsSpent(turns) => Outcome::TurnsSpent(turns),
        End::ListenRefused(forward) => Outcome::ListenRefused(forward),
        End::ControlRefused => Outcome::ControlRefused,
    }
}
