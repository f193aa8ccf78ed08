//! Tests over the system's sockets, files and clock.
use crate::asker::Asker;
use crate::file_cases::FILES;
use crate::host::Host;
use crate::link_cases;
use crate::socket_cases::SOCKETS;
use crate::steps::{Step, take_parts};
use net_world::NetWorld;
use std::alloc::Global;
use std::fs::Files;
use std::net::{Net, TcpListener, TcpStream};
use std::test::Fail;
use std::time::Clock;
use world_face::{NoMemory, World};

/// What happens in one World.
#[derive(Clone, Copy)]
enum Case {
    LinkAtAPath,
    LinkAtAnEndpoint,
    LinkAlone,
    LinkWhereOneWasLeft,
    LinkBesideForty,
    LastWrite,
    AfterTheLastWrite,
    LinkReset,
    LinkResetAtAnEndpoint,
    LinkGoneAtAWrite,
    LinkGoneWhileFull,
    Sockets,
    Files,
}

/// The cases of one World after the other.
const LINK: [Case; 11] = [
    Case::LinkAtAPath,
    Case::LinkAtAnEndpoint,
    Case::LinkAlone,
    Case::LinkWhereOneWasLeft,
    Case::LinkBesideForty,
    Case::LastWrite,
    Case::AfterTheLastWrite,
    Case::LinkReset,
    Case::LinkResetAtAnEndpoint,
    Case::LinkGoneAtAWrite,
    Case::LinkGoneWhileFull,
];

fn parts_of(case: Case) -> &'static [&'static [Step]] {
    match case {
        Case::LinkAtAPath => &link_cases::AT_A_PATH,
        Case::LinkAtAnEndpoint => &link_cases::AT_AN_ENDPOINT,
        Case::LinkAlone => &link_cases::ALONE,
        Case::LinkWhereOneWasLeft => &link_cases::WHERE_ONE_WAS_LEFT,
        Case::LinkBesideForty => &link_cases::BESIDE_FORTY,
        Case::LastWrite => &link_cases::LAST_WRITE,
        Case::AfterTheLastWrite => &link_cases::AFTER_THE_LAST_WRITE,
        Case::LinkReset => &link_cases::RESET,
        Case::LinkResetAtAnEndpoint => &link_cases::RESET_AT_AN_ENDPOINT,
        Case::LinkGoneAtAWrite => &link_cases::GONE_AT_A_WRITE,
        Case::LinkGoneWhileFull => &link_cases::GONE_WHILE_FULL,
        Case::Sockets => &SOCKETS,
        Case::Files => &FILES,
    }
}

fn goes<R: Net<Listener = TcpListener, Stream = TcpStream> + Files + Alloc<A = Global>, W: World>(
    rt: &R,
    asker: &mut Asker,
    world: &mut W,
    host: &mut Host,
    case: Case,
) -> bool {
    take_parts(rt, asker, world, host, parts_of(case))
}

/// Whether a case goes in a new World.
fn goes_in_one<
    R: Net<Listener = TcpListener, Stream = TcpStream> + Files + Clock + Alloc<A = Global>,
>(rt: &R, asker: &mut Asker, host: &mut Host, case: Case) -> Result<bool, NoMemory> {
    let mut world = NetWorld::open(rt, rt.alloc())?;
    Ok(goes(rt, asker, &mut world, host, case))
}

/// How many cases go, up to the first that doesn't.
fn gone<R: Net<Listener = TcpListener, Stream = TcpStream> + Files + Clock + Alloc<A = Global>>(
    rt: &R,
    asker: &mut Asker,
    host: &mut Host,
    cases: &[Case],
) -> Result<usize, NoMemory> {
    let mut count = 0usize;
    for case in cases {
        if !goes_in_one(rt, asker, host, *case)? {
            break;
        }
        count = count.saturating_add(1);
    }
    Ok(count)
}

/// The same with a host of their own.
fn gone_from_here<
    R: Net<Listener = TcpListener, Stream = TcpStream> + Files + Clock + Alloc<A = Global>,
>(rt: &R, cases: &[Case]) -> Result<usize, NoMemory> {
    let mut asker = Asker::open(rt.alloc())?;
    let mut host = Host::new();
    let count = gone(rt, &mut asker, &mut host, cases);
    host.leave();
    count
}

#[test]
fn the_link(rt: HostRuntime) -> Result<(), Fail> {
    assert_eq!(rt; gone_from_here(&rt, &LINK)?, 11);
    Ok(())
}

#[test]
fn sockets_of_the_host(rt: HostRuntime) -> Result<(), Fail> {
    assert_eq!(rt; gone_from_here(&rt, &[Case::Sockets])?, 1);
    Ok(())
}

#[test]
fn files_and_the_clock(rt: HostRuntime) -> Result<(), Fail> {
    assert_eq!(rt; gone_from_here(&rt, &[Case::Files])?, 1);
    Ok(())
}
