// Sockets of the host.
use crate::calls::Call::{
    Accept, AcceptFrom, Close, Connect, Connected, Listen, NotTold, TcpEnd, TcpRead, TcpWrite,
    Told, UdpFrom, UdpOpen, UdpRecv, UdpSend,
};
use crate::calls::{Call, Wanted};
use crate::steps::HostAct::{
    Accepts, Answers, Connects, Gets, HangsUp, Listens, Sends, StopsListening, TakesDatagrams,
};
use crate::steps::Step;
use crate::steps::Step::{Answered, Calls, CallsAt, Host, World};
use crate::steps::WorldAct::{AllTaken, ConnectionDrains, ConnectionFills, ToldInOrder};
use world_face::{Accepted, Got, Io, Joined, Made, Sent};

/// A datagram goes out and its answers come, once; none once the socket is closed.
const EXCHANGE: [Step; 4] = [
    Host(TakesDatagrams),
    // A socket opens once under its number.
    Calls(&[
        UdpOpen(Made::Done),
        UdpOpen(Made::Failed),
        UdpSend(Sent::Done),
    ]),
    Host(Answers(&[b"answer", b""])),
    Calls(&[
        Told(Wanted::Datagrams, 1000),
        UdpFrom(b"answer"),
        Told(Wanted::Datagrams, 1000),
        UdpFrom(b""),
        UdpRecv(Got::NotYet),
        NotTold(Wanted::Datagrams, 0),
        Close(3),
        UdpRecv(Got::Failed),
        UdpSend(Sent::Failed),
    ]),
];

/// A connection is made.
const JOINED: [Call; 3] = [
    Connect(Made::Done),
    Told(Wanted::ConnectionForWriting, 1000),
    Connected(Joined::Yes),
];

/// A connection is made, and octets go both ways until each side has ended. An end ends one way alone.
const CONNECTS: [Step; 9] = [
    Host(Listens),
    Calls(&JOINED),
    Calls(&[TcpWrite(b"abc", Io::Done(3))]),
    Host(Accepts),
    Host(Gets(&[b"abc"])),
    Host(Sends(b"defg")),
    Calls(&[
        Told(Wanted::Connection, 1000),
        TcpRead(Io::Done(4), b"defg"),
        TcpRead(Io::NotYet, b""),
        TcpEnd(Made::Done),
        TcpRead(Io::NotYet, b""),
    ]),
    Host(Gets(&[])),
    Host(HangsUp),
];

/// The end of the host comes, and after the close nothing goes.
const ENDS: [Step; 1] = [Calls(&[
    Told(Wanted::Connection, 1000),
    TcpRead(Io::End, b""),
    Close(7),
    TcpWrite(b"x", Io::Failed),
])];

/// A peer that reads nothing makes writes short and then not yet; once it has read, octets are taken again. A peer that goes with octets unread
/// resets the connection.
const BACKS_UP_AND_BREAKS: [Step; 8] = [
    Calls(&JOINED),
    Host(Accepts),
    World(ConnectionFills),
    Calls(&[NotTold(Wanted::ConnectionForWriting, 0)]),
    World(ConnectionDrains),
    Calls(&[
        Told(Wanted::ConnectionForWriting, 1000),
        TcpWrite(b"unread", Io::Done(6)),
    ]),
    Host(HangsUp),
    Calls(&[
        Told(Wanted::Connection, 1000),
        TcpRead(Io::Failed, b""),
        Close(7),
    ]),
];

/// Nobody listens there any more.
const IS_REFUSED: [Step; 2] = [
    Host(StopsListening),
    Calls(&[
        Connect(Made::Done),
        Told(Wanted::ConnectionForWriting, 1000),
        Connected(Joined::Failed),
        Close(7),
    ]),
];

/// The system tells once that a connection is ready for writing. While it isn't wanted for that it isn't told, and once it is wanted it is, beside
/// sockets for datagrams.
const TELLS_WHAT_IS_WANTED: [Step; 9] = [
    Host(Listens),
    Calls(&[
        Connect(Made::Done),
        Told(Wanted::ConnectionForWriting, 1000),
        Connected(Joined::Yes),
        NotTold(Wanted::Connection, 10),
        NotTold(Wanted::Connection, 10),
        Told(Wanted::ConnectionForWriting, 0),
    ]),
    Host(TakesDatagrams),
    Answered(9),
    Answered(4),
    Answered(6),
    Answered(2),
    World(ToldInOrder),
    Calls(&[Close(7)]),
];

/// One listener opens at a port. A connection is taken from it, which then has none.
const ACCEPTS: [Step; 7] = [
    Host(Listens),
    Host(StopsListening),
    Calls(&[Listen(5, Made::Done), Listen(6, Made::Failed)]),
    Host(Connects),
    Calls(&[
        Told(Wanted::Listener, 1000),
        AcceptFrom,
        Accept(8, Accepted::NotYet),
        NotTold(Wanted::Listener, 0),
        TcpWrite(b"abc", Io::Done(3)),
    ]),
    Host(Gets(&[b"abc"])),
    Calls(&[Close(7)]),
];

/// Where no descriptor or no place is left a connection isn't accepted or made; its listener isn't told again before something was closed.
const MEETS_THE_LIMIT: [Step; 5] = [
    Host(HangsUp),
    Host(Connects),
    World(AllTaken),
    CallsAt(
        9,
        &[
            Told(Wanted::Listener, 1000),
            Accept(7, Accepted::Failed),
            NotTold(Wanted::Listener, 0),
            Connect(Made::Failed),
            Close(100),
            Told(Wanted::Listener, 1000),
            AcceptFrom,
        ],
    ),
    Host(HangsUp),
];

/// What is done with sockets in one World, part by part.
pub static SOCKETS: [&[Step]; 8] = [
    &EXCHANGE,
    &CONNECTS,
    &ENDS,
    &BACKS_UP_AND_BREAKS,
    &IS_REFUSED,
    &TELLS_WHAT_IS_WANTED,
    &ACCEPTS,
    &MEETS_THE_LIMIT,
];
