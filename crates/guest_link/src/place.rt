// Where the link stands: its listener, and the guest that came.
ghost use Rattle.std.specs.Prelude.{◌≡◌, true, IfSome};
ghost use Rattle.guest_link.specs.Places.{listens, has_guest};
ghost use Rattle.mio.specs.Interest.{is_readable, is_writable};

use crate::socket_file;
use host_io::{Stream, address, send_at_once};
use mio::net::{TcpListener, TcpStream, UnixListener, UnixStream};
use mio::{Interest, Registry, Token};
use std::fs::Files;
use std::io;
use std::io::ErrorKind;
use std::net::Net;
use world_face::LinkAt;

/// The token under which the system tells of the link, the greatest: every other socket is to have another.
pub const LINK: Token = Token(usize::MAX);

/// A stream of which the system tells when it may be read, and when it may be written.
pub trait Watched: Stream {
    ghost use Rattle.std.specs.Prelude.{◌≡◌, None, OnOk};
    ghost use Rattle.std.specs.declared.option.Option.{Option};
    ghost use Rattle.mio.specs.declared.interest.Interest.{Interest};
    ghost use Rattle.guest_link.specs.Places.{Asks};

    // What the system is to tell, where that is known.
    ghost asked: { Self → Option Interest } = { λ _. None };

    /// Has the system tell of the link so from now on.
    ///
    /// # Errors
    /// That of the system.
    fn watch(&mut self, registry: &Registry, interest: Interest) -> io::Result<()>
        ensures remaining { Self.remaining self.new ≡ Self.remaining self.old }
        ensures contents { Self.contents self.new ≡ Self.contents self.old }
        ensures answers { Self.answers self.new ≡ Self.answers self.old }
        ensures asked { OnOk result (Asks (asked self.old) (asked self.new) interest) };
}

/// The guest, on a socket of either kind.
#[derive(Drop)]
pub enum Peer {
    Unix(UnixStream),
    Tcp(TcpStream),
}

impl Stream for Peer {
    fn read(&mut self, into: &mut [u8]) -> io::Result<usize> {
        match self {
            Peer::Unix(stream) => stream.read(into),
            Peer::Tcp(stream) => stream.read(into),
        }
    }

    fn write(&mut self, octets: &[u8]) -> io::Result<usize> {
        match self {
            Peer::Unix(stream) => stream.write(octets),
            Peer::Tcp(stream) => stream.write(octets),
        }
    }
}

impl Watched for Peer {
    fn watch(&mut self, registry: &Registry, interest: Interest) -> io::Result<()> {
        match self {
            Peer::Unix(stream) => registry.reregister(stream, LINK, interest),
            Peer::Tcp(stream) => registry.reregister(stream, LINK, interest),
        }
    }
}

/// Where the link stands: a listener becomes its first guest.
#[derive(Drop)]
pub enum Place<S> {
    Closed,
    ListensUnix(UnixListener),
    ListensTcp(TcpListener),
    Guest(S),
}

impl<S: Stream> Stream for Place<S> {
    ghost use Rattle.guest_link.specs.Places.{of_guest};

    ghost remaining = { of_guest S.remaining };

    ghost contents = { of_guest S.contents };

    ghost answers = { of_guest S.answers };

    fn read(&mut self, into: &mut [u8]) -> io::Result<usize> {
        match self {
            Place::Guest(stream) => stream.read(into),
            Place::ListensUnix(_) | Place::ListensTcp(_) => {
                Err(io::Error::from(ErrorKind::WouldBlock))
            }
            Place::Closed => Err(io::Error::from(ErrorKind::NotConnected)),
        }
    }

    fn write(&mut self, octets: &[u8]) -> io::Result<usize> {
        match self {
            Place::Guest(stream) => stream.write(octets),
            Place::ListensUnix(_) | Place::ListensTcp(_) => {
                Err(io::Error::from(ErrorKind::WouldBlock))
            }
            Place::Closed => Err(io::Error::from(ErrorKind::NotConnected)),
        }
    }
}

impl<S> Place<S> {
    ghost use Rattle.std.specs.Prelude.{◌≡◌};
    ghost use Rattle.guest_link.specs.Places.{listens, has_guest};

    /// Whether no guest has come yet.
    pub fn listens(&self) -> bool
        ensures { result ≡ listens self.now }
    {
        matches!(self, Place::ListensUnix(_) | Place::ListensTcp(_))
    }

    /// Whether one has.
    pub fn has_guest(&self) -> bool
        ensures { result ≡ has_guest self.now }
    {
        matches!(self, Place::Guest(_))
    }
}

impl<S: Watched> Place<S> {
    ghost use Rattle.std.specs.Prelude.{◌≡◌, true};
    ghost use Rattle.guest_link.specs.Places.{IsNoted, has_guest, of_guest};

    /// Has the system tell when octets came from the guest, and when it takes more, or not. False where that isn't done.
    pub fn watch(&mut self, registry: &Registry, writes: bool) -> bool
        ensures remaining { of_guest S.remaining self.new ≡ of_guest S.remaining self.old }
        ensures contents { of_guest S.contents self.new ≡ of_guest S.contents self.old }
        ensures answers { of_guest S.answers self.new ≡ of_guest S.answers self.old }
        ensures guest { has_guest self.new ≡ has_guest self.old }
        ensures noted { result ≡ true → IsNoted (of_guest S.asked self.new) writes }
    {
        match self {
            Place::Guest(stream) => stream.watch(registry, interest(writes)).is_ok(),
            _ => false,
        }
    }
}

// The interest in reading, and in writing or not.
fn interest(writes: bool) -> Interest
    ensures reads { is_readable result ≡ true }
    ensures writes { is_writable result ≡ writes }
{
    if writes {
        Interest::READABLE | Interest::WRITABLE
    } else {
        Interest::READABLE
    }
}

/// A listener at a place.
pub(crate) fn bind<R: Net + Files>(rt: &R, at: &LinkAt) -> Option<Place<Peer>>
    ensures { IfSome result (λ place. listens place ≡ true) }
{
    match at {
        LinkAt::Unix(path) => {
            let listener = socket_file::listen(rt, path.as_str()).ok()?;
            Some(Place::ListensUnix(listener))
        }
        LinkAt::Tcp(at) => {
            let listener = TcpListener::bind(rt, address(*at)).ok()?;
            Some(Place::ListensTcp(listener))
        }
    }
}

/// The first guest that came to a listener.
pub(crate) fn first_guest(place: &Place<Peer>) -> Option<Place<Peer>>
    ensures { IfSome result (λ guest. (listens place.now ≡ true) × (has_guest guest ≡ true)) }
{
    match place {
        Place::ListensUnix(listener) => {
            let (stream, _) = listener.accept().ok()?;
            Some(Place::Guest(Peer::Unix(stream)))
        }
        Place::ListensTcp(listener) => {
            let (stream, _) = listener.accept().ok()?;
            let mut calls = &stream;
            send_at_once(&mut calls);
            Some(Place::Guest(Peer::Tcp(stream)))
        }
        _ => None,
    }
}

/// Has the system tell when something came, from a guest or to a listener.
pub(crate) fn register(place: &mut Place<Peer>, registry: &Registry) -> bool
    ensures { listens place.new ≡ listens place.old }
{
    let registered = match place {
        Place::Closed => return false,
        Place::ListensUnix(listener) => registry.register(listener, LINK, Interest::READABLE),
        Place::ListensTcp(listener) => registry.register(listener, LINK, Interest::READABLE),
        Place::Guest(Peer::Unix(stream)) => registry.register(stream, LINK, Interest::READABLE),
        Place::Guest(Peer::Tcp(stream)) => registry.register(stream, LINK, Interest::READABLE),
    };
    registered.is_ok()
}
