// The link: who is taken, how octets come and go, and what becomes of its file.
use crate::calls::Call::{
    Connect, Connected, FileLen, LinkRead, LinkWrite, NotTold, TellsOf, Told,
};
use crate::calls::{Call, Wanted};
use crate::files::Kind;
use crate::steps::FileAct::{
    IsDeaf, IsFree, LeavesSocket, MakesFolder, MakesLink, Removes, RemovesFolder, Stands, Writes,
};
use crate::steps::HostAct::{
    Accepts, Connects, ConnectsAt, Gets, GetsNone, HangsUp, HasNothing, Listens, Sends,
    StopsListening, TakesDatagrams, Turns, WaitsNever,
};
use crate::steps::Step;
use crate::steps::Step::{
    Answered, Calls, File, Host, LinkOpens, LinkOpensAtPort, LinkRefusedInUse, World,
};
use crate::steps::WorldAct::{
    FortyAnswered, LinkDrains, LinkDrainsInTurn, LinkFills, LinkToldInTime, MuchComes, ToldInTurn,
};
use world_face::{FileSize, Io, Joined, Made};

/// Before a peer came nothing is read or written, and none of both is told.
const NO_PEER: [Call; 5] = [
    LinkRead(4, Io::NotYet, b""),
    LinkWrite(b"x", Io::NotYet),
    NotTold(Wanted::Link, 0),
    NotTold(Wanted::LinkForWriting, 0),
    LinkRead(4, Io::NotYet, b""),
];

/// Octets come from a peer and go to it.
const SERVES: [Step; 5] = [
    // Two pieces come by single reads.
    Host(Sends(b"\0\0\0\x02hi\0\0\0")),
    Calls(&[
        Told(Wanted::Link, 1000),
        LinkRead(4, Io::Done(4), b"\0\0\0\x02"),
        LinkRead(2, Io::Done(2), b"hi"),
        Told(Wanted::Link, 1000),
        LinkRead(4, Io::Done(3), b"\0\0\0"),
        LinkRead(4, Io::NotYet, b""),
        NotTold(Wanted::Link, 0),
        // Two pieces go out together at the next wait that asks the system.
        LinkWrite(b"abc", Io::Done(3)),
        LinkWrite(b"d", Io::Done(1)),
    ]),
    Host(HasNothing),
    Calls(&[NotTold(Wanted::Link, 0)]),
    Host(Gets(&[b"abcd"])),
];

/// Octets that come one at a time come in their order, and so do those that are asked for one at a time.
const BY_OCTETS: [Step; 16] = [
    Host(Sends(b"\0")),
    Calls(&[Told(Wanted::Link, 1000), LinkRead(4, Io::Done(1), b"\0")]),
    Host(Sends(b"\0")),
    Calls(&[Told(Wanted::Link, 1000), LinkRead(4, Io::Done(1), b"\0")]),
    Host(Sends(b"\0")),
    Calls(&[Told(Wanted::Link, 1000), LinkRead(4, Io::Done(1), b"\0")]),
    Host(Sends(b"\x03")),
    Calls(&[Told(Wanted::Link, 1000), LinkRead(4, Io::Done(1), b"\x03")]),
    Host(Sends(b"o")),
    Calls(&[Told(Wanted::Link, 1000), LinkRead(4, Io::Done(1), b"o")]),
    Host(Sends(b"n")),
    Calls(&[Told(Wanted::Link, 1000), LinkRead(4, Io::Done(1), b"n")]),
    Host(Sends(b"e")),
    Calls(&[Told(Wanted::Link, 1000), LinkRead(4, Io::Done(1), b"e")]),
    Host(Sends(b"two")),
    Calls(&[
        Told(Wanted::Link, 1000),
        LinkRead(1, Io::Done(1), b"t"),
        Told(Wanted::Link, 1000),
        LinkRead(1, Io::Done(1), b"w"),
        Told(Wanted::Link, 1000),
        LinkRead(1, Io::Done(1), b"o"),
        LinkRead(1, Io::NotYet, b""),
    ]),
];

/// A short frame waits for the rest of what came at once, and what was taken comes whole, in its order.
const SHORT_WAITS: [Step; 3] = [
    Host(Sends(b"onetwo")),
    Calls(&[
        // Of what came a part is read: a short frame isn't taken, a longer one is, and reading alone is told.
        Told(Wanted::Link, 1000),
        LinkRead(2, Io::Done(2), b"on"),
        LinkWrite(&[7; 58], Io::NotYet),
        LinkWrite(&[8; 59], Io::Done(59)),
        TellsOf(Wanted::LinkBothWays, Wanted::Link),
        // Where the link is wanted for writing alone it is told so at once, and the short frame is taken.
        LinkRead(2, Io::Done(2), b"et"),
        LinkWrite(&[7; 58], Io::NotYet),
        TellsOf(Wanted::LinkForWriting, Wanted::LinkForWriting),
        LinkWrite(&[7; 58], Io::Done(58)),
        TellsOf(Wanted::LinkBothWays, Wanted::LinkBothWays),
        // Once all was read a short frame is taken.
        LinkRead(4, Io::Done(2), b"wo"),
        LinkWrite(&[9; 58], Io::Done(58)),
        NotTold(Wanted::Link, 0),
    ]),
    Host(Gets(&[&[8; 59], &[7; 58], &[9; 58]])),
];

/// After much that came it waits though all was read, until nothing else is ready.
const SHORT_WAITS_ON: [Step; 3] = [
    World(MuchComes),
    Calls(&[
        LinkWrite(&[7; 58], Io::NotYet),
        TellsOf(Wanted::LinkBothWays, Wanted::LinkForWriting),
        LinkWrite(&[7; 58], Io::Done(58)),
        NotTold(Wanted::Link, 0),
    ]),
    Host(Gets(&[&[7; 58]])),
];

/// A full link is free again once the peer has read; all that was taken comes, in its order and once.
const BACKS_UP: [Step; 4] = [
    World(LinkFills),
    World(LinkDrains),
    Host(HasNothing),
    Calls(&[LinkWrite(b"x", Io::Done(1))]),
];

/// The link ends once the peer is gone, and stays so.
const ENDS: [Step; 2] = [
    Host(HangsUp),
    Calls(&[
        Told(Wanted::Link, 1000),
        LinkRead(4, Io::End, b""),
        Told(Wanted::Link, 1000),
        LinkRead(4, Io::End, b""),
    ]),
];

/// What isn't a socket that was left over stays, and the link isn't opened there, nor at a port that is taken, nor where nothing can stand.
const LEAVES_WHAT_STANDS: [Step; 19] = [
    File(Writes("regular", b"kept")),
    File(MakesFolder("folder")),
    File(MakesLink("link")),
    Host(Listens),
    LinkOpensAtPort(Made::Failed),
    Host(StopsListening),
    LinkOpens("regular", Made::Failed),
    LinkOpens("folder", Made::Failed),
    LinkOpens("link", Made::Failed),
    LinkOpens("no/such/folder", Made::Failed),
    LinkRefusedInUse,
    File(Stands("regular", Kind::File)),
    Calls(&[FileLen("regular", FileSize::Length(4))]),
    File(Stands("folder", Kind::Folder)),
    File(Stands("in_use", Kind::Socket)),
    File(Stands("link", Kind::Link)),
    File(RemovesFolder("folder")),
    File(Removes("regular")),
    File(Removes("link")),
];

/// The link opens at a path, and isn't opened again; two peers come, of which the first is the one in use.
const OPENS_AT_A_PATH: [Step; 8] = [
    File(Removes("in_use")),
    LinkOpens("served", Made::Done),
    LinkOpens("served", Made::Failed),
    Calls(&NO_PEER),
    Host(ConnectsAt("served")),
    Host(Turns),
    Host(ConnectsAt("served")),
    Host(Turns),
];

/// The second peer gets nothing; the file is gone, nobody listens, and an open link isn't opened again.
const LETS_NOBODY_IN: [Step; 6] = [
    Host(Turns),
    Host(GetsNone),
    Host(Turns),
    File(IsFree("served")),
    File(IsDeaf("served")),
    LinkOpens("served", Made::Failed),
];

/// The second goes, too.
const NOBODY_IS_LEFT: [Step; 2] = [Host(Turns), Host(HangsUp)];

/// What waited for a peer goes out once one came.
const TAKES_WHAT_WAITED: [Step; 1] = [Calls(&[Told(Wanted::LinkForWriting, 1000)])];

/// The first peer at a path is taken and served until it ends.
pub static AT_A_PATH: [&[Step]; 11] = [
    &LEAVES_WHAT_STANDS,
    &OPENS_AT_A_PATH,
    &TAKES_WHAT_WAITED,
    &SERVES,
    &LETS_NOBODY_IN,
    &BY_OCTETS,
    &SHORT_WAITS,
    &SHORT_WAITS_ON,
    &BACKS_UP,
    &ENDS,
    &NOBODY_IS_LEFT,
];

/// The link opens at an endpoint, and a peer comes.
const OPENS_AT_AN_ENDPOINT: [Step; 6] = [
    Host(Listens),
    Host(StopsListening),
    LinkOpensAtPort(Made::Done),
    Calls(&NO_PEER),
    Host(Connects),
    Host(WaitsNever),
];

/// A peer at an endpoint is served until it ends.
pub static AT_AN_ENDPOINT: [&[Step]; 5] = [
    &OPENS_AT_AN_ENDPOINT,
    &TAKES_WHAT_WAITED,
    &SERVES,
    &SHORT_WAITS,
    &ENDS,
];

/// The link opens, and its file is there while no peer comes.
const OPENS_ALONE: [Step; 2] = [
    LinkOpens("lonely", Made::Done),
    File(Stands("lonely", Kind::Socket)),
];

/// A link to which no peer comes.
pub static ALONE: [&[Step]; 1] = [&OPENS_ALONE];

/// A path of 107 octets.
const LONG: &str =
    "a_path_of_107_octets_______________________________________________________________________________________";

/// The file of a link went with its World. A socket that nobody listens on is removed; a path may have 107 octets.
const OPENS_WHERE_ONE_WAS_LEFT: [Step; 6] = [
    File(IsFree("lonely")),
    File(LeavesSocket(LONG)),
    File(Stands(LONG, Kind::Socket)),
    LinkOpens(LONG, Made::Done),
    Host(ConnectsAt(LONG)),
    Host(TakesDatagrams),
];

/// A datagram that isn't fetched is told again and again; what came by the link is told all the same.
const TAKES_TURNS: [Step; 4] = [
    Answered(3),
    Host(Sends(b"x")),
    World(LinkToldInTime),
    Host(HangsUp),
];

/// The peer is served, also beside a busy socket.
pub static WHERE_ONE_WAS_LEFT: [&[Step]; 3] = [&OPENS_WHERE_ONE_WAS_LEFT, &SERVES, &TAKES_TURNS];

/// The link opens, and forty sockets have something to read.
const OPENS_BESIDE_FORTY: [Step; 5] = [
    File(IsFree(LONG)),
    LinkOpens("crowded", Made::Done),
    Host(ConnectsAt("crowded")),
    Host(TakesDatagrams),
    World(FortyAnswered),
];

/// A connection is made, and has something to read.
const HAS_A_CONNECTION: [Step; 8] = [
    Host(Listens),
    Calls(&[
        Connect(Made::Done),
        Told(Wanted::ConnectionForWriting, 1000),
        Connected(Joined::Yes),
    ]),
    Host(Turns),
    Host(Accepts),
    Host(Sends(b"x")),
    Calls(&[Told(Wanted::Connection, 1000)]),
    Host(HangsUp),
    Host(Turns),
];

/// Nothing comes by the link, and all forty are told by three waits, in their order, and again by three more.
const TOLD_IN_TURN: [Step; 3] = [
    Calls(&[LinkRead(4, Io::NotYet, b"")]),
    World(ToldInTurn(0, 3, 40)),
    World(ToldInTurn(40, 3, 80)),
];

/// While the link is full no socket is told for reading, and a connection that is wanted in both directions for writing alone. Once the peer reads,
/// all are told in turn, and all that was taken comes.
const WAIT_FOR_ROOM: [Step; 5] = [
    World(LinkFills),
    World(ToldInTurn(0, 1, 0)),
    Calls(&[TellsOf(Wanted::ConnectionBothWays, Wanted::ConnectionForWriting)]),
    World(LinkDrainsInTurn),
    Host(HangsUp),
];

/// Forty sockets and a connection are served beside a link, whose peer reads nothing for a while.
pub static BESIDE_FORTY: [&[Step]; 4] = [
    &OPENS_BESIDE_FORTY,
    &HAS_A_CONNECTION,
    &TOLD_IN_TURN,
    &WAIT_FOR_ROOM,
];

/// A peer is written to.
const WRITES: [Step; 3] = [
    LinkOpens("last", Made::Done),
    Host(ConnectsAt("last")),
    Calls(&[Told(Wanted::Link, 1000), LinkWrite(b"bye", Io::Done(3))]),
];

/// A World whose last call writes to the peer.
pub static LAST_WRITE: [&[Step]; 1] = [&WRITES];

/// What was written by the World before went out before its end.
const HAS_COME: [Step; 3] = [Host(Gets(&[b"bye"])), Host(Gets(&[])), Host(HangsUp)];

/// What the peer finds once that World has ended.
pub static AFTER_THE_LAST_WRITE: [&[Step]; 1] = [&HAS_COME];

/// The peer goes with octets unread, which resets the stream. What it sent before is read, then the end comes, and stays.
const IS_RESET: [Step; 4] = [
    Calls(&[
        Told(Wanted::LinkForWriting, 1000),
        LinkRead(4, Io::NotYet, b""),
        LinkWrite(b"unread", Io::Done(6)),
        NotTold(Wanted::Link, 0),
    ]),
    Host(Sends(b"one")),
    Host(HangsUp),
    Calls(&[
        Told(Wanted::Link, 1000),
        LinkRead(4, Io::Done(3), b"one"),
        Told(Wanted::Link, 1000),
        LinkRead(4, Io::End, b""),
        Told(Wanted::Link, 1000),
        LinkRead(4, Io::End, b""),
    ]),
];

const OPENS_TO_BE_RESET: [Step; 2] = [LinkOpens("reset", Made::Done), Host(ConnectsAt("reset"))];

const OPENS_TO_BE_RESET_AT_AN_ENDPOINT: [Step; 4] = [
    Host(Listens),
    Host(StopsListening),
    LinkOpensAtPort(Made::Done),
    Host(Connects),
];

/// A reset of a link at a path, found by a read.
pub static RESET: [&[Step]; 2] = [&OPENS_TO_BE_RESET, &IS_RESET];

/// The same of a link at an endpoint.
pub static RESET_AT_AN_ENDPOINT: [&[Step]; 2] = [&OPENS_TO_BE_RESET_AT_AN_ENDPOINT, &IS_RESET];

/// The peer goes, and a write that is to make room finds that: it takes nothing, and the writes after it are taken and lost. What the peer sent
/// before is read, then the end comes.
const IS_GONE_AT_A_WRITE: [Step; 5] = [
    Calls(&[Told(Wanted::LinkForWriting, 1000)]),
    Host(Sends(b"two")),
    Host(HangsUp),
    World(LinkFills),
    Calls(&FOUND_GONE),
];

const FOUND_GONE: [Call; 8] = [
    Told(Wanted::LinkForWriting, 0),
    LinkWrite(b"x", Io::Done(1)),
    LinkWrite(&[7; 1518], Io::Done(1518)),
    Told(Wanted::Link, 1000),
    LinkRead(4, Io::Done(3), b"two"),
    Told(Wanted::Link, 1000),
    LinkRead(4, Io::End, b""),
    LinkWrite(b"x", Io::Done(1)),
];

const OPENS_TO_BE_GONE: [Step; 2] = [LinkOpens("gone", Made::Done), Host(ConnectsAt("gone"))];

/// A broken pipe found by a write.
pub static GONE_AT_A_WRITE: [&[Step]; 2] = [&OPENS_TO_BE_GONE, &IS_GONE_AT_A_WRITE];

/// The link is full, and its peer goes with octets unread: a wait finds that, and tells both directions.
const IS_GONE_WHILE_FULL: [Step; 5] = [
    Calls(&[Told(Wanted::LinkForWriting, 1000)]),
    World(LinkFills),
    Host(Sends(b"two")),
    Host(HangsUp),
    Calls(&FOUND_GONE_BY_A_WAIT),
];

const FOUND_GONE_BY_A_WAIT: [Call; 6] = [
    LinkWrite(&[7; 1518], Io::NotYet),
    Told(Wanted::LinkBothWays, 1000),
    LinkWrite(b"x", Io::Done(1)),
    LinkRead(4, Io::Done(3), b"two"),
    Told(Wanted::Link, 1000),
    LinkRead(4, Io::End, b""),
];

const OPENS_TO_BE_GONE_WHILE_FULL: [Step; 2] = [
    LinkOpens("full", Made::Done),
    Host(ConnectsAt("full")),
];

/// The same found by a wait.
pub static GONE_WHILE_FULL: [&[Step]; 2] = [&OPENS_TO_BE_GONE_WHILE_FULL, &IS_GONE_WHILE_FULL];
