// A socket of the host, with what it was found ready for, and its calls.
ghost use Rattle.std.specs.Prelude.{◌≡◌, ℕ, ◌<◌, true, false, Some, None, Ok, Err, length};
ghost use Rattle.std.specs.Io.KnownBytes.{Appends, Consumes, IsAtEnd, Keeps};
ghost use Rattle.host_io.specs.Streams.{Calls};
ghost use Rattle.host_io.specs.Endpoints.{endpoint_of};
ghost use Rattle.world_face.specs.Journal.{MayRead, MayWrite, MayGet, filled};
ghost use Rattle.net_world.specs.Slots.{of_stream, is_connection, are_datagrams};
ghost use Rattle.host_io.specs.Streaming.{read_tells, write_tells, after_read, after_write};
ghost use Rattle.net_world.specs.Accepting.{IsCameBy, after_accept, came_of, none_by, ready_by, starved_by, starves_by};

use host_io::stream_calls::Ready;
use host_io::{Accepts, Stream, address, datagram_calls, endpoint, send_at_once, stream_calls};
use mio::net::{TcpListener, TcpStream, UdpSocket};
use mio::{Interest, Registry, Token};
use poll_list::Who;
use std::io::ErrorKind;
use std::net::{Net, SocketAddr};
use world_face::{Endpoint, Got, Io, Joined, Sent};

/// A socket: a listener, the stream that a connection is, or one for datagrams.
#[derive(Drop)]
pub(crate) enum Socket<S> {
    Listener(TcpListener),
    Stream(S),
    Datagrams(UdpSocket),
}

/// A socket, over the stream that a connection is, and what it was found ready for.
#[derive(Drop)]
pub(crate) struct Slot<S> {
    pub of: Who,
    pub socket: Socket<S>,
    pub ready: Ready,
    /// The system refused to give a connection that has come, since it had no descriptor for it.
    pub starved: bool,
}

// A socket of that kind, if the system gives one.
pub(crate) fn new_socket<R: Net>(rt: &R, of: Who, at: Endpoint) -> Option<Socket<TcpStream>> {
    match of {
        Who::Link => None,
        Who::Listener(_) => {
            let listener = TcpListener::bind(rt, address(at)).ok()?;
            Some(Socket::Listener(listener))
        }
        Who::Udp(_) => {
            let socket = UdpSocket::bind(rt, address(at)).ok()?;
            Some(Socket::Datagrams(socket))
        }
        Who::Tcp(_) => {
            let stream = TcpStream::connect(rt, address(at)).ok()?;
            let mut calls = &stream;
            send_at_once(&mut calls);
            Some(Socket::Stream(stream))
        }
    }
}

// Has the system tell what a socket is ready for. Nobody waits until datagrams can be sent.
pub(crate) fn register(socket: &mut Socket<TcpStream>, registry: &Registry, token: Token) -> bool {
    match socket {
        Socket::Listener(listener) => registry
            .register(listener, token, Interest::READABLE)
            .is_ok(),
        Socket::Stream(stream) => registry
            .register(
                stream,
                token,
                Interest::READABLE | Interest::WRITABLE | Interest::PRIORITY,
            )
            .is_ok(),
        Socket::Datagrams(socket) => registry.register(socket, token, Interest::READABLE).is_ok(),
    }
}

pub(crate) fn joined(slot: &mut Slot<TcpStream>) -> Joined
    ensures rests { result ≡ Joined.NotYet → slot.new.ready.write ≡ false }
    ensures stays { slot.new.ready.read ≡ slot.old.ready.read }
    ensures kept { slot.new.ready.write ≡ false → slot.old.ready.write ≡ true → result ≡ Joined.NotYet }
    ensures socket { slot.new.socket ≡ slot.old.socket }
    ensures of { slot.new.of ≡ slot.old.of }
    ensures starved { slot.new.starved ≡ slot.old.starved }
{
    let Socket::Stream(stream) = &slot.socket else {
        return Joined::Failed;
    };
    match stream.take_error() {
        Ok(None) => {}
        _ => return Joined::Failed,
    }
    match stream.peer_addr() {
        Ok(_) => Joined::Yes,
        Err(fault) if fault.kind() == ErrorKind::NotConnected => {
            slot.ready.write = false;
            Joined::NotYet
        }
        Err(_) => Joined::Failed,
    }
}

// What a listener gave.
#[derive(Drop)]
pub(crate) enum Came {
    From(TcpStream, Endpoint),
    NotYet,
    Failed,
}

fn accept<S>(slot: &mut Slot<S>) -> Came
    ensures kept { slot.new.ready.read ≡ false → slot.old.ready.read ≡ true → slot.new.starved ≡ false → result ≡ Came.NotYet }
    ensures socket { slot.new.socket ≡ slot.old.socket }
    ensures of { slot.new.of ≡ slot.old.of }
    ensures stays { slot.new.ready.write ≡ slot.old.ready.write }
{
    let Socket::Listener(listener) = &slot.socket else {
        return Came::Failed;
    };
    let mut calls = listener;
    accept_by(&mut calls, &mut slot.ready, &mut slot.starved)
}

// Takes a connection by one call, which says what is told, and what the listener is known to be ready for.
fn accept_by<L: Accepts>(listener: &mut L, ready: &mut Ready, starved: &mut bool) -> Came
    ensures tells { Calls (L.answers listener.old) (L.answers listener.new) (λ answer. IsCameBy result answer
        × (ready.new ≡ after_accept answer ready.old) × (starved.new ≡ starves_by answer starved.old)) }
    ensures kept { ready.new.read ≡ false → ready.old.read ≡ true → starved.new ≡ false → result ≡ Came.NotYet }
    ensures stays { ready.new.write ≡ ready.old.write }
{
    match listener.accept() {
        Ok((stream, peer)) => came_from(stream, peer),
        Err(fault) => none_came(fault.kind(), ready, starved),
    }
}

// The connection, with its peer's endpoint. Failed where that has no address of version 4.
fn came_from(stream: TcpStream, peer: SocketAddr) -> Came
    ensures came { result ≡ came_of stream (endpoint_of peer) }
    ensures told { result ≡ Came.NotYet → ⊥ }
{
    match endpoint(peer) {
        Some(peer) => Came::From(stream, peer),
        None => Came::Failed,
    }
}

// What a call gives that failed so. Where the system had no descriptor for a connection it stays where it is.
fn none_came(kind: ErrorKind, ready: &mut Ready, starved: &mut bool) -> Came
    ensures came { result ≡ none_by kind }
    ensures ready { ready.new ≡ ready_by kind ready.old }
    ensures starved { starved.new ≡ starved_by kind starved.old }
{
    match kind {
        ErrorKind::WouldBlock => {
            ready.read = false;
            Came::NotYet
        }
        ErrorKind::ConnectionAborted => Came::NotYet,
        _ => {
            ready.read = false;
            *starved = true;
            Came::Failed
        }
    }
}

// The connection that came, where there is room for it.
pub(crate) fn take_from<S>(slot: &mut Slot<S>, full: bool) -> Came
    ensures kept { slot.new.ready.read ≡ false → slot.old.ready.read ≡ true → slot.new.starved ≡ false → result ≡ Came.NotYet }
    ensures socket { slot.new.socket ≡ slot.old.socket }
    ensures of { slot.new.of ≡ slot.old.of }
    ensures stays { slot.new.ready.write ≡ slot.old.ready.write }
{
    if full { starve(slot) } else { accept(slot) }
}

// The connection that came stays where it is.
fn starve<S>(slot: &mut Slot<S>) -> Came
    ensures starved { slot.new.starved ≡ true }
    ensures socket { slot.new.socket ≡ slot.old.socket }
    ensures of { slot.new.of ≡ slot.old.of }
    ensures stays { slot.new.ready.write ≡ slot.old.ready.write }
{
    slot.ready.read = false;
    slot.starved = true;
    Came::Failed
}

// Reads octets of a connection.
pub(crate) fn read<S: Stream>(slot: &mut Slot<S>, into: &mut [u8]) -> Io
    requires { 0 < length into.old }
    ensures may { MayRead (length into.old) result }
    // What is told as read is what the stream gave.
    ensures came { Consumes (of_stream S.remaining slot.old.socket) (of_stream S.remaining slot.new.socket) (filled result into.new) }
    ensures written { Keeps (of_stream S.contents slot.old.socket) (of_stream S.contents slot.new.socket) }
    // One call says what is told, the end where it gives none and only there, and what the socket is ready for.
    ensures tells { Calls (of_stream S.answers slot.old.socket) (of_stream S.answers slot.new.socket) (λ answer.
        (result ≡ read_tells answer) × (answer ≡ Ok 0 → IsAtEnd (of_stream S.remaining slot.new.socket))
        × (slot.new.ready ≡ after_read (length into.old) answer slot.old.ready)) }
    ensures rests { result ≡ Io.NotYet → slot.new.ready.read ≡ false }
    ensures stays { slot.new.ready.write ≡ slot.old.ready.write }
    ensures of { slot.new.of ≡ slot.old.of }
    ensures starved { slot.new.starved ≡ slot.old.starved }
    ensures goes_on { slot.old.ready.until_none ≡ true → slot.old.ready.read ≡ true → (count : ℕ) → result ≡ Io.Done count
        → (slot.new.ready.until_none ≡ true) × (slot.new.ready.read ≡ true) }
{
    match &mut slot.socket {
        Socket::Stream(stream) => stream_calls::read(stream, &mut slot.ready, into),
        _ => Io::Failed,
    }
}

// Writes octets to a connection.
pub(crate) fn write<S: Stream>(slot: &mut Slot<S>, from: &[u8]) -> Io
    requires { 0 < length from.now }
    ensures may { MayWrite (length from.now) result }
    // What is told as taken is what the stream took.
    ensures went { Appends (of_stream S.contents slot.old.socket) (of_stream S.contents slot.new.socket) (filled result from.now) }
    ensures unread { Keeps (of_stream S.remaining slot.old.socket) (of_stream S.remaining slot.new.socket) }
    // One call says what is told, and what the socket is ready for.
    ensures tells { Calls (of_stream S.answers slot.old.socket) (of_stream S.answers slot.new.socket) (λ answer.
        (result ≡ write_tells answer) × (slot.new.ready ≡ after_write (length from.now) answer slot.old.ready)) }
    ensures rests { result ≡ Io.NotYet → slot.new.ready.write ≡ false }
    ensures stays { slot.new.ready.read ≡ slot.old.ready.read }
    ensures of { slot.new.of ≡ slot.old.of }
    ensures starved { slot.new.starved ≡ slot.old.starved }
{
    match &mut slot.socket {
        Socket::Stream(stream) => stream_calls::write(stream, &mut slot.ready, from),
        _ => Io::Failed,
    }
}

pub(crate) fn end(slot: &Slot<TcpStream>) -> bool
    ensures { is_connection slot.now.socket ≡ false → result ≡ false }
{
    match &slot.socket {
        Socket::Stream(stream) => {
            let mut calls = stream;
            stream_calls::end(&mut calls)
        }
        _ => false,
    }
}

pub(crate) fn send<S>(slot: &Slot<S>, to: Endpoint, octets: &[u8]) -> Sent
    ensures { are_datagrams slot.now.socket ≡ false → result ≡ Sent.Failed }
{
    let Socket::Datagrams(socket) = &slot.socket else {
        return Sent::Failed;
    };
    let mut calls = socket;
    datagram_calls::send(&mut calls, to, octets)
}

pub(crate) fn receive<S>(slot: &mut Slot<S>, into: &mut [u8]) -> Got
    ensures may { MayGet (length into.old) result }
    ensures rests { result ≡ Got.NotYet → slot.new.ready.read ≡ false }
    ensures kept { slot.new.ready.read ≡ false → slot.old.ready.read ≡ true → result ≡ Got.NotYet }
    ensures socket { slot.new.socket ≡ slot.old.socket }
    ensures stays { slot.new.ready.write ≡ slot.old.ready.write }
    ensures of { slot.new.of ≡ slot.old.of }
    ensures starved { slot.new.starved ≡ slot.old.starved }
{
    let Socket::Datagrams(socket) = &slot.socket else {
        return Got::Failed;
    };
    let mut calls = socket;
    datagram_calls::receive(&mut calls, &mut slot.ready, into)
}
