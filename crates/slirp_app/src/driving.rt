// A drill: the network on a World that is made from a number.
ghost use Rattle.std.specs.Prelude.{◌≡◌, ◌⊎◌, ◌≤◌, IsTrue};
ghost use Rattle.drive_world.specs.Runs.{Run, summary_text};
ghost use Rattle.app_edges.specs.Statuses.{code_of, is_unrun};
ghost use Rattle.world_face.specs.Puts.{Puts, added};
ghost use Rattle.world_face.specs.Tells.{Rose};

use crate::serving::run_network;
use app_edges::Outcome;
use control_loop::Network;
use drive_world::DriveWorld;
use slirp_settings::SlirpConfig;
use std::alloc::Global;
use world_face::{Failed, Sink};

// Runs the network with the usual settings on a World that is made from a number, and whose guest sends so many octets; puts what it came to. A run that ended early
// shows so there.
pub(crate) fn drive<K: Sink>(alloc: Global, number: u64, octets: u64, out: &mut K) -> Outcome
    requires { octets ≤ 10000000 }
    ensures ends { (code_of result ≡ 0) ⊎ (code_of result ≡ 12) ⊎ (code_of result ≡ 13) }
    ensures summary { code_of result ≡ 0 → (run : Run) × (run.number ≡ number) × (K.holds out.new ≡ added (summary_text run) (K.holds out.old)) }
    ensures nothing { IsTrue (is_unrun (code_of result)) → K.holds out.new ≡ K.holds out.old }
    ensures refused { code_of result ≡ 12 → Rose (K.faults out.old) (K.faults out.new) }
{
    let Ok(world) = DriveWorld::open(alloc, number, octets) else {
        return Outcome::NoMemory;
    };
    let Ok(network) = Network::open(alloc, &SlirpConfig::usual()) else {
        return Outcome::NoMemory;
    };
    match run_on(world, network, out) {
        Ok(()) => Outcome::Done,
        Err(_) => Outcome::SinkFault,
    }
}

// Runs a network that has served nothing, and puts what it came to.
fn run_on<K: Sink>(mut world: DriveWorld, network: Network, out: &mut K) -> Result<(), Failed>
    ensures { (run : Run) × (run.number ≡ world.number) × Puts (K.holds out.old) (K.holds out.new) (K.faults out.old) (K.faults out.new)
        (summary_text run) result }
{
    let _outcome = run_network(network, &mut world);
    world.summary(out)
}
