// A network that has served nothing, and its one run.
ghost use Rattle.std.specs.Prelude.{◌≡◌, List, IfOk};
ghost use Rattle.world_face.specs.Journal.{Entry as AnEntry};
ghost use Rattle.world_face.specs.Tells.{Makes};
ghost use Rattle.slirp_settings.specs.Ranges.{IsSound};
ghost use Rattle.slirp_settings.specs.Settings.{settings};
ghost use Rattle.serve_loop.specs.Ends.{IsCounted};
ghost use Rattle.serve_loop.specs.Served.{IsNew};
ghost use Rattle.spec_control.specs.ControlServer.{Reads};
ghost use Rattle.spec_control.specs.Laws.{IsReading};
ghost use Rattle.control_loop.specs.Networks.{IsControl};
ghost use Rattle.control_loop.specs.Runs.{IsRun, RunsAlone, RunsWith};

use crate::control_server::ControlServer;
use control::{Aside, Session};
use core::mem::replace_with;
use net_octets::{Endpoint, Ip4, NoMemory};
use poll_list::{ReadyList, Wants};
use serve_loop::{End, Service, Turn};
use slirp_settings::SlirpConfig;
use std::alloc::Global;
use std::marker::Model;
use world_face::{MOST_READY, MOST_WANTS, World};

/// A network that has served nothing, with a control connection where the settings have one. A contract sees its settings.
#[derive(Drop)]
pub struct Network {
    service: Service,
    control: Option<Control>,
}

// What a control has before the run begins: its connection, the place of the host at which that is taken, the first address that is leased, how many turns there may be, and lists for what a
// wait is for and what it reports.
#[derive(Drop)]
pub(crate) struct Control {
    session: Session,
    at: Endpoint,
    guest: Ip4,
    turns: u64,
    wants: Wants,
    ready: ReadyList,
}

impl Model for Network {
    ghost use Rattle.slirp_settings.specs.Addresses.{Config};
    ghost use Rattle.serve_loop.specs.Served.{IsNew};
    ghost use Rattle.control_loop.specs.Networks.{IsControl};

    ghost Value = { Config };

    ghost view = { λ n. n.service.slirp.config };

    ghost invariant = { λ n. IsNew n.service × IsControl n.service.slirp.config n.control };
}

impl Network {
    /// One with these settings. It takes all the memory that it will ever need.
    ///
    /// # Errors
    /// `NoMemory` where no memory is left.
    pub fn open(alloc: Global, c: &SlirpConfig) -> Result<Network, NoMemory>
        requires sound { IsSound (settings c.now) }
        ensures { IfOk result (λ network. network ≡ settings c.now) }
    {
        let control = Control::open(alloc, c)?;
        let service = Service::open(alloc, c)?;
        Ok(Network { service, control })
    }

    /// Lets go of it, with all its memory, where it doesn't serve: `serve` does so at its end.
    pub fn let_go(self) {
        self.service.let_go();
    }

    /// Opens the ports of the host that are given to guests, and the control's where the settings have one, and runs until the link ends, a wait is told to stop,
    /// or the turns are spent; then all sockets are closed. Where the host refuses a port the run ends before its first turn.
    pub fn serve<W: World>(self, world: &mut W) -> End
        // The calls that it makes are those of one run that came to this end.
        ensures makes { Makes (W.tells world.old) (W.tells world.new) (IsRun self result) }
        // Where it ended by a fault the count of the link's, of the waits' or of the sockets' rose.
        ensures faults { IsCounted (Turn.Ended result) (W.tells world.old).faults (W.tells world.new).faults }
    {
        let Network { service, control } = self;
        match control {
            Some(control) => serve_with(service, control, world),
            None => serve_alone(service, world),
        }
    }
}

impl Control {
    // The one that the settings have.
    fn open(alloc: Global, c: &SlirpConfig) -> Result<Option<Control>, NoMemory>
        ensures { IfOk result (λ control. IsControl (settings c.now) control) }
    {
        let Some(at) = c.control else {
            return Ok(None);
        };
        let session = Session::open(alloc)?;
        let (Ok(wants), Ok(ready)) = (
            Wants::open(alloc, MOST_WANTS),
            ReadyList::open(alloc, MOST_READY),
        ) else {
            return Err(NoMemory);
        };
        Ok(Some(Control {
            session,
            at,
            guest: c.vdhcp_start,
            turns: c.turns,
            wants,
            ready,
        }))
    }
}

// Runs a service without a control.
fn serve_alone<W: World>(mut service: Service, world: &mut W) -> End
    requires { IsNew service }
    ensures makes { Makes (W.tells world.old) (W.tells world.new) (RunsAlone service.slirp.config result) }
    ensures faults { IsCounted (Turn.Ended result) (W.tells world.old).faults (W.tells world.new).faults }
{
    let end = service.serve(world);
    service.let_go();
    end
}

// Runs one with a control, on a World that is handed over and comes back.
fn serve_with<W: World>(service: Service, control: Control, world: &mut W) -> End
    requires new { IsNew service }
    requires control { IsControl service.slirp.config (Some control) }
    ensures makes { Makes (W.tells world.old) (W.tells world.new) (λ made. (read : Reads) → IsReading service.slirp.config read → RunsWith read service.slirp.config result made) }
    ensures faults { IsCounted (Turn.Ended result) (W.tells world.old).faults (W.tells world.new).faults }
{
    replace_with(world, (service, control), run_aside)
}

// Runs it on a World over that one.
fn run_aside<W: World>(world: W, run: (Service, Control)) -> (W, End)
    requires new { IsNew run.0 }
    requires control { IsControl run.0.slirp.config (Some run.1) }
    ensures makes { Makes (W.tells world) (W.tells result.0) (λ made. (read : Reads) → IsReading run.0.slirp.config read → RunsWith read run.0.slirp.config result.1 made) }
    ensures faults { IsCounted (Turn.Ended result.1) (W.tells world).faults (W.tells result.0).faults }
{
    let (service, control) = run;
    let Control {
        session,
        at,
        guest,
        turns,
        wants,
        ready,
    } = control;
    let mut aside = Aside::new(world, wants, ready);
    let mut control_server = ControlServer {
        service,
        session,
        at,
        guest,
    };
    let end = control_server.run(&mut aside, turns);
    control_server.service.let_go();
    (aside.into_world(), end)
}
