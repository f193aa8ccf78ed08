// Calls on a World as a table: what is called, and what it is to answer.
ghost use Rattle.std.specs.Prelude.{[], ◌∷◌};
ghost use Rattle.poll_list.specs.Listing.{AreWants};

use crate::asker::{Asker, LINK, here};
use poll_list::{Want, Who};
use world_face::{Accepted, Endpoint, FileSize, Got, Io, Ip4, Joined, Made, Sent, World};

/// What a wait is for: the link, the listener 5, the socket for datagrams 3, or the connection 7. For reading, where nothing else is said.
#[derive(Clone, Copy)]
pub enum Wanted {
    Link,
    LinkForWriting,
    LinkBothWays,
    Listener,
    Datagrams,
    Connection,
    ConnectionForWriting,
    ConnectionBothWays,
}

impl Wanted {
    fn want(self) -> Want
        ensures { AreWants (result ∷ []) }
    {
        match self {
            Wanted::Link => LINK,
            Wanted::LinkForWriting => Want {
                of: Who::Link,
                read: false,
                write: true,
            },
            Wanted::LinkBothWays => Want {
                of: Who::Link,
                read: true,
                write: true,
            },
            Wanted::Listener => Want {
                of: Who::Listener(5),
                read: true,
                write: false,
            },
            Wanted::Datagrams => Want {
                of: Who::Udp(3),
                read: true,
                write: false,
            },
            Wanted::Connection => Want {
                of: Who::Tcp(7),
                read: true,
                write: false,
            },
            Wanted::ConnectionForWriting => Want {
                of: Who::Tcp(7),
                read: false,
                write: true,
            },
            Wanted::ConnectionBothWays => Want {
                of: Who::Tcp(7),
                read: true,
                write: true,
            },
        }
    }
}

/// A call, with what it is to answer. Numbers are those of `Wanted`, and the port is one of the host itself.
#[derive(Clone, Copy)]
pub enum Call {
    /// The moment lies between these, or is one of them.
    Now(u64, u64),
    /// A wait of so many milliseconds tells this.
    Told(Wanted, u64),
    /// It doesn't.
    NotTold(Wanted, u64),
    /// A wait for the first tells the second alone.
    TellsOf(Wanted, Wanted),
    /// The link is read into so many octets, eight at most, and these come.
    LinkRead(usize, Io, &'static [u8]),
    LinkWrite(&'static [u8], Io),
    UdpOpen(Made),
    /// Asks at the port.
    UdpSend(Sent),
    /// A datagram comes from the port.
    UdpFrom(&'static [u8]),
    /// No datagram comes.
    UdpRecv(Got),
    /// Connects to the port.
    Connect(Made),
    Connected(Joined),
    TcpRead(Io, &'static [u8]),
    TcpWrite(&'static [u8], Io),
    TcpEnd(Made),
    /// A listener with this number opens at the port.
    Listen(u64, Made),
    /// A connection is accepted.
    AcceptFrom,
    /// None is accepted under this number.
    Accept(u64, Accepted),
    Close(u64),
    FileLen(&'static str, FileSize),
    /// A file is read from a place into so many octets, eight at most, and these come.
    FileRead(&'static str, u64, usize, Io, &'static [u8]),
}

use Call::{
    Accept, AcceptFrom, Close, Connect, Connected, FileLen, FileRead, LinkRead, LinkWrite, Listen,
    NotTold, Now, TcpEnd, TcpRead, TcpWrite, TellsOf, Told, UdpFrom, UdpOpen, UdpRecv, UdpSend,
};

/// Whether the link, read into so many octets, answers that, and these come.
pub fn link_reads<W: World>(world: &mut W, room: usize, answer: Io, octets: &[u8]) -> bool {
    let mut into = [0u8; 8];
    if room == 0 || room > 8 {
        return false;
    }
    world.link_read(&mut into[..room]) == answer && into.starts_with(octets)
}

fn link_writes<W: World>(world: &mut W, octets: &[u8], answer: Io) -> bool {
    !octets.is_empty() && octets.len() <= 1518 && world.link_write(octets) == answer
}

fn opens_anywhere<W: World>(world: &mut W, answer: Made) -> bool {
    let anywhere = Endpoint {
        addr: Ip4(0),
        port: 0,
    };
    world.udp_open(3, anywhere) == answer
}

fn comes_from<W: World>(world: &mut W, port: u16, octets: &[u8]) -> bool {
    let mut into = [0u8; 16];
    let wanted = Got::From(here(port), octets.len());
    world.udp_recv(3, &mut into) == wanted && into.starts_with(octets)
}

fn connection_reads<W: World>(world: &mut W, answer: Io, octets: &[u8]) -> bool {
    let mut into = [0u8; 8];
    world.tcp_read(7, &mut into) == answer && into.starts_with(octets)
}

fn connection_writes<W: World>(world: &mut W, octets: &[u8], answer: Io) -> bool {
    !octets.is_empty() && octets.len() <= 16_384 && world.tcp_write(7, octets) == answer
}

/// Whether a file has this length.
pub fn measures<W: World>(world: &mut W, name: &str, size: FileSize) -> bool {
    !name.is_empty() && name.len() <= 1280 && world.file_len(name) == size
}

/// Whether a file, read from a place into so many octets, answers that, and these come.
pub fn file_reads<W: World>(
    world: &mut W,
    name: &str,
    at: u64,
    room: usize,
    answer: Io,
    octets: &[u8],
) -> bool {
    let mut into = [0u8; 8];
    if name.is_empty() || name.len() > 1280 || room == 0 || room > 8 {
        return false;
    }
    world.file_read(name, at, &mut into[..room]) == answer && into.starts_with(octets)
}

fn closes<W: World>(world: &mut W, number: u64) -> bool {
    world.close(number);
    true
}

/// A wait, or a call on the link or on a file.
fn answers<W: World>(asker: &mut Asker, world: &mut W, port: u16, call: Call) -> bool {
    match call {
        Told(wanted, limit) => asker.is_ready(world, wanted.want(), limit),
        NotTold(wanted, limit) => !asker.is_ready(world, wanted.want(), limit),
        TellsOf(wanted, told) => asker.tells(world, wanted.want(), 1000, told.want()),
        Now(first, last) => (first..=last).contains(&world.now()),
        LinkRead(room, answer, octets) => link_reads(world, room, answer, octets),
        LinkWrite(octets, answer) => link_writes(world, octets, answer),
        FileLen(name, size) => measures(world, name, size),
        FileRead(name, at, room, answer, octets) => {
            file_reads(world, name, at, room, answer, octets)
        }
        _ => socket_answers(world, port, call),
    }
}

fn socket_answers<W: World>(world: &mut W, port: u16, call: Call) -> bool {
    match call {
        UdpOpen(answer) => opens_anywhere(world, answer),
        UdpSend(answer) => world.udp_send(3, here(port), b"ask") == answer,
        UdpFrom(octets) => comes_from(world, port, octets),
        UdpRecv(answer) => world.udp_recv(3, &mut [0u8; 16]) == answer,
        Connect(answer) => world.connect(7, here(port)) == answer,
        Connected(answer) => world.connected(7) == answer,
        TcpRead(answer, octets) => connection_reads(world, answer, octets),
        TcpWrite(octets, answer) => connection_writes(world, octets, answer),
        TcpEnd(answer) => world.tcp_end(7) == answer,
        Listen(number, answer) => world.listen(number, here(port)) == answer,
        AcceptFrom => matches!(world.accept(5, 7), Accepted::From(_)),
        Accept(number, answer) => world.accept(5, number) == answer,
        Close(number) => closes(world, number),
        _ => false,
    }
}

/// Makes the calls, as long as each answers what it is to answer.
pub fn follow<W: World>(asker: &mut Asker, world: &mut W, port: u16, calls: &[Call]) -> bool {
    for call in calls {
        if !answers(asker, world, port, *call) {
            return false;
        }
    }
    true
}
