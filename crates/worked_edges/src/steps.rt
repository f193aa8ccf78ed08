// What a case does, step by step.
use crate::asker::Asker;
use crate::calls::{Call, follow};
use crate::files::Kind;
use crate::host::Host;
use crate::{files, links, sockets};
use mio::net::UnixStream;
use std::alloc::Global;
use std::fs;
use std::fs::Files;
use std::net::{Net, TcpListener, TcpStream};
use std::os::unix::fs::symlink;
use std::os::unix::net::UnixListener;
use world_face::{Made, World};

/// What takes many calls on the World.
#[derive(Clone, Copy)]
pub enum WorldAct {
    /// The link takes octets until it is full.
    LinkFills,
    /// All of them come to the host.
    LinkDrains,
    /// All of them come, while forty sockets that wait for room are told in turn.
    LinkDrainsInTurn,
    /// 8,192 octets come by the link at once.
    MuchComes,
    /// What came by the link is told in time, beside a datagram that isn't fetched.
    LinkToldInTime,
    /// Forty sockets for datagrams open and ask the host, whose answers come.
    FortyAnswered,
    /// Where so many of the forty were told in turn, so many waits more tell them up to that many.
    ToldInTurn(u64, u32, u64),
    /// What is wanted of sockets is told, in the order of the wants.
    ToldInOrder,
    /// The connection takes octets until it is full.
    ConnectionFills,
    /// All of them come to the host.
    ConnectionDrains,
    /// Sockets are opened until there is no room for another.
    AllTaken,
}

/// What the host does, with the stream in use and the port of what it opened last.
#[derive(Clone, Copy)]
pub enum HostAct {
    /// It listens at a port.
    Listens,
    /// It doesn't any more.
    StopsListening,
    /// It opens a socket for datagrams.
    TakesDatagrams,
    /// It accepts a connection.
    Accepts,
    /// It connects to the port.
    Connects,
    /// It connects to a path.
    ConnectsAt(&'static str),
    /// It closes the stream.
    HangsUp,
    /// It uses the other stream.
    Turns,
    /// It waits no more for what isn't there.
    WaitsNever,
    /// It writes these octets.
    Sends(&'static [u8]),
    /// It reads just these.
    Gets(&'static [&'static [u8]]),
    /// Nothing is there for it.
    HasNothing,
    /// It gets no octet, whatever it writes.
    GetsNone,
    /// A datagram of three octets comes, and these go back.
    Answers(&'static [&'static [u8]]),
}

/// What is done with files, and what is found of them.
#[derive(Clone, Copy)]
pub enum FileAct {
    /// A file is written.
    Writes(&'static str, &'static [u8]),
    /// It is put in the place of another.
    Renames(&'static str, &'static str),
    Removes(&'static str),
    MakesFolder(&'static str),
    RemovesFolder(&'static str),
    /// A link is put there that leads nowhere.
    MakesLink(&'static str),
    /// A socket is put there that nobody listens on.
    LeavesSocket(&'static str),
    /// Nothing is there.
    IsFree(&'static str),
    /// Nobody listens there.
    IsDeaf(&'static str),
    /// Something of that kind stands there.
    Stands(&'static str, Kind),
}

/// A step of a case, which goes as it is to go or ends the case.
#[derive(Clone, Copy)]
pub enum Step {
    /// Calls at the host's port.
    Calls(&'static [Call]),
    /// Calls at another.
    CallsAt(u16, &'static [Call]),
    /// The link, opened at a path, answers that.
    LinkOpens(&'static str, Made),
    /// The link, opened at the host's port, answers that.
    LinkOpensAtPort(Made),
    /// The link isn't opened at a path at which somebody listens.
    LinkRefusedInUse,
    /// A socket for datagrams opens under this number and asks the host, whose answer comes.
    Answered(u64),
    /// A pipe is no file.
    PipeIsNoFile,
    World(WorldAct),
    Host(HostAct),
    File(FileAct),
}

fn calls_often<W: World>(asker: &mut Asker, world: &mut W, host: &mut Host, act: WorldAct) -> bool {
    match act {
        WorldAct::LinkFills => links::fill(world, host),
        WorldAct::LinkDrains => links::drains(asker, world, host),
        WorldAct::LinkDrainsInTurn => links::drains_in_turn(asker, world, host),
        WorldAct::MuchComes => links::much_comes(asker, world, host),
        WorldAct::LinkToldInTime => links::is_told_in_time(asker, world),
        WorldAct::FortyAnswered => sockets::are_answered(asker, world, host),
        WorldAct::ToldInTurn(before, waits, after) => asker.told_by(world, waits, before)
            == Some(after),
        WorldAct::ToldInOrder => asker.tells_in_order(world),
        WorldAct::ConnectionFills => sockets::fill(world, host),
        WorldAct::ConnectionDrains => sockets::drains(host),
        WorldAct::AllTaken => sockets::take_all(world),
    }
}

fn acts<R: Net<Listener = TcpListener, Stream = TcpStream>>(
    rt: &R,
    host: &mut Host,
    act: HostAct,
) -> bool {
    match act {
        HostAct::Listens => host.listen(rt),
        HostAct::StopsListening => host.stop_listening(),
        HostAct::TakesDatagrams => host.take_datagrams(rt),
        HostAct::Accepts => host.accept(),
        HostAct::Connects => host.connect(rt),
        HostAct::ConnectsAt(path) => host.connect_at(rt, path),
        HostAct::HangsUp => host.hang_up(),
        HostAct::Turns => host.turn(),
        HostAct::WaitsNever => host.wait_never(),
        HostAct::Sends(octets) => host.write(octets),
        HostAct::Gets(parts) => host.gets(parts),
        HostAct::HasNothing => host.read(&mut [0u8; 8]).is_none(),
        HostAct::GetsNone => host.gets_none(),
        HostAct::Answers(parts) => host.answer(parts),
    }
}

fn is_done<R: Net + Files>(rt: &R, act: FileAct) -> bool {
    match act {
        FileAct::Writes(name, octets) => fs::write(rt, name, octets).is_ok(),
        FileAct::Renames(from, to) => fs::rename(rt, from, to).is_ok(),
        FileAct::Removes(name) => fs::remove_file(rt, name).is_ok(),
        FileAct::MakesFolder(name) => fs::create_dir(rt, name).is_ok(),
        FileAct::RemovesFolder(name) => fs::remove_dir(rt, name).is_ok(),
        FileAct::MakesLink(name) => symlink(rt, "nowhere", name).is_ok(),
        FileAct::LeavesSocket(name) => UnixListener::bind(rt, name).is_ok(),
        FileAct::IsFree(name) => !fs::exists(rt, name).unwrap_or(true),
        FileAct::IsDeaf(name) => UnixStream::connect(rt, name).is_err(),
        FileAct::Stands(path, kind) => files::stands(rt, path, kind),
    }
}

fn takes_step<
    R: Net<Listener = TcpListener, Stream = TcpStream> + Files + Alloc<A = Global>,
    W: World,
>(rt: &R, asker: &mut Asker, world: &mut W, host: &mut Host, step: Step) -> bool {
    match step {
        Step::Calls(calls) => follow(asker, world, host.port, calls),
        Step::CallsAt(port, calls) => follow(asker, world, port, calls),
        Step::LinkOpens(path, answer) => links::opens_at(world, path, answer),
        Step::LinkOpensAtPort(answer) => links::opens_at_port(world, host.port, answer),
        Step::LinkRefusedInUse => links::is_refused_in_use(rt, world),
        Step::Answered(number) => sockets::is_answered(asker, world, host, number),
        Step::PipeIsNoFile => files::is_no_pipe(rt, world),
        Step::World(act) => calls_often(asker, world, host, act),
        Step::Host(act) => acts(rt, host, act),
        Step::File(act) => is_done(rt, act),
    }
}

fn takes_part<
    R: Net<Listener = TcpListener, Stream = TcpStream> + Files + Alloc<A = Global>,
    W: World,
>(rt: &R, asker: &mut Asker, world: &mut W, host: &mut Host, steps: &[Step]) -> bool {
    for step in steps {
        if !takes_step(rt, asker, world, host, *step) {
            return false;
        }
    }
    true
}

/// Takes all steps of these parts, as long as each goes as it is to go.
pub fn take_parts<
    R: Net<Listener = TcpListener, Stream = TcpStream> + Files + Alloc<A = Global>,
    W: World,
>(rt: &R, asker: &mut Asker, world: &mut W, host: &mut Host, parts: &[&[Step]]) -> bool {
    for steps in parts {
        if !takes_part(rt, asker, world, host, steps) {
            return false;
        }
    }
    true
}
