ghost use Rattle.std.specs.Prelude.{◌≤◌, IfOk};
ghost use Rattle.serve_loop.specs.Served.{IsNew};

use drive_world::{DriveWorld, FaultWorld, How, Kind};
use serve_loop::{End, Service};
use slirp_settings::SlirpConfig;
use std::alloc::{AllocError, Global};
use world_face::{VecSink, World};

/// Room for two summaries.
const ROOM: usize = 1024;

/// How many flows the guest has, and how many there is usually room for.
const FLOWS: u32 = 8;

const USUAL_FLOWS: u32 = 256;

/// What a run came to in which a call may have got a fault.
#[derive(Clone, Copy)]
pub struct Ran {
    pub given: Option<Kind>,
    pub end: End,
    pub up: u64,
    pub down: u64,
    pub wrong: u64,
}

/// Runs the network with the fault at the first call from a number on that can get it.
pub fn run_with(
    alloc: Global,
    how: How,
    at: u64,
    number: u64,
    octets: u64,
) -> Result<Ran, AllocError>
    requires { octets ≤ 10000000 }
{
    let Ok(mut counted) = VecSink::open(alloc, ROOM, None) else {
        return Err(AllocError);
    };
    let (given, end) = run(alloc, FLOWS, number, octets, at, how, &mut counted)?;
    let lines = text_of(&counted);
    Ok(Ran {
        given,
        end,
        up: last_count(lines, "up"),
        down: last_count(lines, "down"),
        wrong: last_count(lines, "wrong"),
    })
}

/// Runs the network without a fault, and puts what the World counted before and behind it.
pub fn put_drill(
    told: &mut String,
    alloc: Global,
    number: u64,
    octets: u64,
) -> Result<(), AllocError>
    requires { octets ≤ 10000000 }
{
    let Ok(mut counted) = VecSink::open(alloc, ROOM, None) else {
        return Err(AllocError);
    };
    run(
        alloc,
        USUAL_FLOWS,
        number,
        octets,
        u64::MAX,
        How::Fail,
        &mut counted,
    )?;
    put_joined(told, text_of(&counted))
}

// Runs the network on a World whose call with this number, or the first behind it that can, gets the fault. Answers the kind of that call, and how the run ended; what
// the World counted before and behind it is put.
fn run(
    alloc: Global,
    flows: u32,
    number: u64,
    octets: u64,
    at: u64,
    how: How,
    counted: &mut VecSink,
) -> Result<(Option<Kind>, End), AllocError>
    requires { octets ≤ 10000000 }
{
    let Ok(world) = DriveWorld::open(alloc, number, octets) else {
        return Err(AllocError);
    };
    let mut world = FaultWorld::new(world, at, how);
    let _before = world.inner().summary(counted);
    let end = served(alloc, flows, &mut world);
    let _behind = world.inner().summary(counted);
    let given = world.given();
    let_go(world);
    Ok((given, end?))
}

// What a World holds is let go of here alone: each function that does has it all in its proof.
fn let_go(_world: FaultWorld<DriveWorld>) {}

// Runs a network that has room for so many flows. What it promises is not needed here.
fn served<W: World>(alloc: Global, flows: u32, world: &mut W) -> Result<End, AllocError> {
    let mut service = service_for(alloc, flows)?;
    let end = service.serve(world);
    service.let_go();
    Ok(end)
}

// A network with the usual settings that has room for so many flows, and has served nothing.
fn service_for(alloc: Global, flows: u32) -> Result<Service, AllocError>
    ensures { IfOk result (λ service. IsNew service) }
{
    let mut config = SlirpConfig::usual();
    config.flows = flows;
    let Ok(()) = config.check() else {
        return Err(AllocError);
    };
    let Ok(service) = Service::open(alloc, &config) else {
        return Err(AllocError);
    };
    Ok(service)
}

// The lines that were put.
fn text_of(counted: &VecSink) -> &str {
    str::from_utf8(counted.octets()).unwrap_or("")
}

// Puts the lines of two summaries, one behind another.
fn put_joined(told: &mut String, summaries: &str) -> Result<(), AllocError> {
    for line in summaries.lines() {
        if !told.is_empty() {
            told.push_str(mark_before(line))?;
        }
        told.push_str(line)?;
    }
    Ok(())
}

// What stands before a line that isn't the first: a summary begins with the number of its World.
fn mark_before(line: &str) -> &'static str {
    if line.starts_with("number ") {
        "; then "
    } else {
        ", "
    }
}

// The last count of this name. The greatest number where there is none.
fn last_count(lines: &str, name: &str) -> u64 {
    let mut found = u64::MAX;
    for line in lines.lines() {
        if let Some((first, count)) = line.split_once(' ') {
            if first == name {
                found = count.parse::<u64>().unwrap_or(u64::MAX);
            }
        }
    }
    found
}
