//! The outside as the network stack sees it: one call at a time, each with its answer.
//!
//! Proved: what each call on a World tells, which is what it adds to the trace, as the contracts of `World` that each keeps: `now`, `wait`; `link_open`, `link_read`,
//! `link_write`; `connect`, `connected`, `listen`, `accept`, `tcp_read`, `tcp_write`, `tcp_end`, `close`; `udp_open`, `udp_send`, `udp_recv`; `file_len`, `file_read`.
//! What a sink gets: `Sink::put`, and of one in memory `VecSink::open`, `put`, `octets`. The octets that an answer moved (`Io::count`), and the sooner of two moments
//! (`sooner`).
//!
//! Neither: what a real World answers.
//!
//! Let through (rt plant): nothing.
#![tactic(auto)]

mod sink;

ghost use Rattle.std.specs.Prelude.{◌≡◌, ◌<◌, ◌≤◌, length};
ghost use Rattle.world_face.specs.Journal.{filled, filled_got, place_of, IsPlace, Now, Wait, LinkOpen, LinkRead, LinkWrite, Connect, Connected, Listen, Accept, TcpRead, TcpWrite, TcpEnd};
ghost use Rattle.world_face.specs.Journal.{Close, UdpOpen, UdpSend, UdpRecv, FileLen, FileRead};
ghost use Rattle.world_face.specs.Limits.{most_ready, most_to_link, most_to_flow, most_to_udp, most_wants, most_name};
ghost use Rattle.poll_list.specs.Listing.{AreWants};
ghost use Rattle.world_face.specs.Tells.{Telling, Answers};
ghost use Rattle.world_face.specs.Moments.{sooner};

use arrayvec::ArrayString;
pub use net_octets::{Endpoint, Fault, FaultKind, Ip4, Mac, NoMemory, NoRoom, Prefix};
pub use poll_list::{ReadyList, Want, Wants, Who};
pub use sink::{Failed, Sink, VecSink};

/// The octets of one write to the link at most: those of the greatest frame out, and the four of its length.
pub const MOST_TO_LINK: usize = 1518;

/// The octets of the greatest frame that may come from the guest.
pub const MOST_FROM_LINK: usize = 69_632;

/// The octets of one write to a connection at most.
pub const MOST_TO_FLOW: usize = 16_384;

/// The octets of a datagram of UDP at most (RFC 768).
pub const MOST_TO_UDP: usize = 65_507;

/// The octets of the name of a file at most.
pub const MOST_NAME: usize = 1_280;

/// The last moment, in milliseconds: a later one is taken for it.
pub const LAST_MOMENT: u64 = 1 << 62;

/// The wants of one wait at most.
pub const MOST_WANTS: usize = 5_155;

/// The items that one wait reports at most.
pub const MOST_READY: usize = 5_155;

/// The sooner of two moments, or the shorter of two times; None, which is no moment, is later than any.
pub fn sooner(one: Option<u64>, other: Option<u64>) -> Option<u64>
    ensures { result ≡ sooner one other }
{
    match (one, other) {
        (Some(one), Some(other)) => Some(one.min(other)),
        (Some(one), None) => Some(one),
        (None, other) => other,
    }
}

/// What a read or a write answers.
#[derive(Clone, Copy, Debug, PartialEq, Eq)]
pub enum Io {
    /// So many octets were moved, one at least: those that a read brought stand at the front of its slice, those that a write
    /// took at the front of what it was offered.
    Done(usize),
    /// The other side writes no more, and every later read says so again. Of a file: there are no octets from this place on. No
    /// write answers it.
    End,
    /// Nothing is there yet, or nothing is taken now: the call may be made again, and `wait` tells when. No read of a file
    /// answers it.
    NotYet,
    /// It failed, for good, and the count of its kind rose.
    Failed,
}

impl Io {
    ghost use Rattle.world_face.specs.Journal.{count_of};

    /// How many octets it moved.
    pub fn count(&self) -> usize
        ensures { result ≡ count_of self.now }
    {
        match *self {
            Io::Done(n) => n,
            _ => 0,
        }
    }
}

/// What opening the link, a listener or a socket, beginning a connection, or ending its writing direction answers.
#[derive(Clone, Copy, Debug, PartialEq, Eq)]
pub enum Made {
    /// It is done; a socket is there until its `close`. A connection has only begun: `connected` tells what became of it.
    Done,
    /// It failed, for good, and the count of its kind rose. What was to be opened isn't there.
    Failed,
}

/// What became of a connection that was begun.
#[derive(Clone, Copy, Debug, PartialEq, Eq)]
pub enum Joined {
    /// It stands: octets may be read and written.
    Yes,
    /// It is still on its way; `wait` tells, for writing, when to ask again.
    NotYet,
    /// The host refused it or wasn't reached, and the count of its kind rose. The socket is there until its `close`.
    Failed,
}

/// Whether a peer was taken from a listener.
#[derive(Clone, Copy, Debug, PartialEq, Eq)]
pub enum Accepted {
    /// A peer with this endpoint; the connection stands.
    From(Endpoint),
    /// No peer is waiting; `wait` tells, for reading of the listener, when one may be. There is no such connection.
    NotYet,
    /// It failed, and the count of its kind rose. There is no such connection.
    Failed,
}

/// Whether a datagram was sent.
#[derive(Clone, Copy, Debug, PartialEq, Eq)]
pub enum Sent {
    /// All of it.
    Done,
    /// The host takes none now: nothing of it was sent.
    NotYet,
    /// It failed, and the count of its kind rose: nothing of it was sent.
    Failed,
}

/// Whether a datagram was received.
#[derive(Clone, Copy, Debug, PartialEq, Eq)]
pub enum Got {
    /// One from this endpoint, of which so many octets stand at the front of the slice; a datagram may have none. What didn't
    /// fit is lost.
    From(Endpoint, usize),
    /// None is there; `wait` tells, for reading, when one may be.
    NotYet,
    /// It failed, and the count of its kind rose.
    Failed,
}

/// What the length of a file is.
#[derive(Clone, Copy, Debug, PartialEq, Eq)]
pub enum FileSize {
    /// So many octets.
    Length(u64),
    /// There is no such file.
    Missing,
    /// It can't be asked, and the count of its kind rose.
    Failed,
}

/// How a wait ended.
#[derive(Clone, Copy, Debug, PartialEq, Eq)]
pub enum Waited {
    /// One of the wants is ready and reported, or the time is over and nothing is.
    Ready,
    /// The run is to end in good order.
    Stop,
    /// It failed, and the count of its kind rose: the run is to end.
    Failed,
}

/// Where the link is.
#[derive(Drop)]
pub enum LinkAt {
    /// A socket of the Unix kind at this path, of 1 to 107 octets.
    Unix(ArrayString<107>),
    /// A socket of TCP at this endpoint of the host.
    Tcp(Endpoint),
}

/// The outside: all that the network does to it is one of these eighteen calls, and all that it learns is an answer.
///
/// No call waits but `wait`. A read, a receive or an accept answers NotYet where nothing is there yet, and a write or a send where nothing is taken now: the
/// call may be made again, and `wait` tells when. End is said by a read alone: the other side writes no more, and every later read on it says so again. A
/// write may take less than it was offered, but at least one octet; what is left is offered again. Failed is for good, for this call: it raises the
/// count of its kind, and what the caller does with the socket or the link then is the caller's. Octets that were read stand at the front of the
/// slice, as many as Done says.
///
/// Sockets have numbers that the caller draws upward and never uses twice. A socket is there from a `connect`, `listen` or `udp_open` that was answered
/// Done, or from an `accept` that brought a peer, until its `close`; calls on it come only in between.
///
/// `wait` is given what is wanted: the link, then listeners, sockets for datagrams and connections, each kind by rising number, each with at least one
/// direction. It answers Ready also where the time is over and nothing is ready. What it reports is a hint that a call in that direction is worth
/// while; the call may still answer NotYet. Stop ends a run in good order. `now` is asked right after it.
///
/// What an implementation tells of its calls (`tells`) is for proofs: one that tells nothing is a World too.
pub trait World {
    /// What it tells of the calls made on it.
    ghost tells: { Self → Telling };

    /// The moment, in milliseconds since some start. It may stand still, and fall; the network takes the greatest so far.
    fn now(&mut self) -> u64
        ensures { Answers (tells self.old) (tells self.new) (Now result) };

    /// Waits until one of the wants is ready, or so many milliseconds are over; without a timeout as long as it takes. At most 5,155 wants.
    fn wait(&mut self, wants: &Wants, timeout: Option<u64>, ready: &mut ReadyList) -> Waited
        requires some { AreWants wants.now.items }
        requires few { length wants.now.items ≤ most_wants }
        requires room { most_ready ≤ ready.old.capacity }
        ensures answers { Answers (tells self.old) (tells self.new) (Wait wants.now.items timeout result ready.new.items) }
        ensures capacity { ready.new.capacity ≡ ready.old.capacity };

    /// Opens the link to the guest: listens at the place, and takes the first peer. Before one came, reads and writes of the link answer NotYet.
    fn link_open(&mut self, at: &LinkAt) -> Made
        requires { IsPlace (place_of at.now) }
        ensures { Answers (tells self.old) (tells self.new) (LinkOpen (place_of at.now) result) };

    /// Reads octets of the stream from the guest, one at least.
    fn link_read(&mut self, into: &mut [u8]) -> Io
        requires { 0 < length into.old }
        ensures { Answers (tells self.old) (tells self.new) (LinkRead (length into.old) result (filled result into.new)) };

    /// Offers octets to the guest, 1 to 1,518. It never says End.
    fn link_write(&mut self, from: &[u8]) -> Io
        requires some { 0 < length from.now }
        requires fits { length from.now ≤ most_to_link }
        ensures { Answers (tells self.old) (tells self.new) (LinkWrite from.now result) };

    /// Starts a connection.
    fn connect(&mut self, c: u64, to: Endpoint) -> Made
        ensures { Answers (tells self.old) (tells self.new) (Connect c to result) };

    /// What became of it.
    fn connected(&mut self, c: u64) -> Joined
        ensures { Answers (tells self.old) (tells self.new) (Connected c result) };

    /// Opens a listener for connections, at this place of the host.
    fn listen(&mut self, l: u64, at: Endpoint) -> Made
        ensures { Answers (tells self.old) (tells self.new) (Listen l at result) };

    /// Takes a peer from listener `l` as connection `c`, where one is waiting.
    fn accept(&mut self, l: u64, c: u64) -> Accepted
        ensures { Answers (tells self.old) (tells self.new) (Accept l c result) };

    /// Reads octets of a connection, one at least.
    fn tcp_read(&mut self, c: u64, into: &mut [u8]) -> Io
        requires { 0 < length into.old }
        ensures { Answers (tells self.old) (tells self.new) (TcpRead c (length into.old) result (filled result into.new)) };

    /// Offers octets to a connection, 1 to 16,384. It never says End.
    fn tcp_write(&mut self, c: u64, from: &[u8]) -> Io
        requires some { 0 < length from.now }
        requires fits { length from.now ≤ most_to_flow }
        ensures { Answers (tells self.old) (tells self.new) (TcpWrite c from.now result) };

    /// Ends the writing direction.
    fn tcp_end(&mut self, c: u64) -> Made
        ensures { Answers (tells self.old) (tells self.new) (TcpEnd c result) };

    /// Gives up a socket of any kind.
    fn close(&mut self, s: u64)
        ensures { Answers (tells self.old) (tells self.new) (Close s) };

    /// Opens a socket for datagrams at this place of the host; at 0.0.0.0:0 the host chooses one.
    fn udp_open(&mut self, s: u64, at: Endpoint) -> Made
        ensures { Answers (tells self.old) (tells self.new) (UdpOpen s at result) };

    /// Sends one datagram, whole, of at most 65,507 octets; its payload may be empty.
    fn udp_send(&mut self, s: u64, to: Endpoint, from: &[u8]) -> Sent
        requires { length from.now ≤ most_to_udp }
        ensures { Answers (tells self.old) (tells self.new) (UdpSend s to from.now result) };

    /// Receives one datagram, and says from whom. What doesn't fit the slice is lost.
    fn udp_recv(&mut self, s: u64, into: &mut [u8]) -> Got
        requires { 0 < length into.old }
        ensures { Answers (tells self.old) (tells self.new) (UdpRecv s (length into.old) result (filled_got result into.new)) };

    /// The length of a file, whose name has 1 to 1,280 octets.
    fn file_len(&mut self, name: &str) -> FileSize
        requires some { 0 < length name.now }
        requires fits { length name.now ≤ most_name }
        ensures { Answers (tells self.old) (tells self.new) (FileLen name.now result) };

    /// Reads octets of a file from this place on, one at least; End where there are none. It never says NotYet.
    fn file_read(&mut self, name: &str, at: u64, into: &mut [u8]) -> Io
        requires some { 0 < length name.now }
        requires fits { length name.now ≤ most_name }
        requires room { 0 < length into.old }
        ensures { Answers (tells self.old) (tells self.new) (FileRead name.now at (length into.old) result (filled result into.new)) };
}
