// The host's side: what it has open, and what it does with that.
use mio::net::UnixStream;
use std::io::{Read, Write};
use std::net::{Net, SocketAddr, TcpListener, TcpStream, UdpSocket};
use std::{io, mem};

/// Whom the host has met.
#[derive(Drop)]
enum Peer {
    Nobody,
    AtPath(UnixStream),
    AtPort(TcpStream),
}

/// What the host has open. Of two streams it uses one at a time.
#[derive(Drop)]
pub struct Host {
    listener: Option<TcpListener>,
    datagrams: Option<UdpSocket>,
    peer: Peer,
    other: Peer,
    /// The port of what was opened last.
    pub port: u16,
    /// How much is on its way to the host.
    pub sent: u64,
}

impl Host {
    /// A host that has nothing open.
    pub fn new() -> Host {
        Host {
            listener: None,
            datagrams: None,
            peer: Peer::Nobody,
            other: Peer::Nobody,
            port: 0,
            sent: 0,
        }
    }

    /// Opens a listener at a free port of the loopback, and keeps the port. False where the system gives none.
    pub fn listen<R: Net<Listener = TcpListener, Stream = TcpStream>>(&mut self, rt: &R) -> bool {
        self.listener = TcpListener::bind(rt, "127.0.0.1:0").ok();
        match &self.listener {
            Some(listener) => {
                let at = listener.local_addr();
                self.keep_port(at)
            }
            None => false,
        }
    }

    // The port of what was opened.
    fn keep_port(&mut self, at: io::Result<SocketAddr>) -> bool {
        match at {
            Ok(at) => {
                self.port = at.port();
                true
            }
            Err(_) => false,
        }
    }

    /// Nobody listens at its port any more.
    pub fn stop_listening(&mut self) -> bool {
        self.listener = None;
        true
    }

    /// Opens a socket for datagrams at a free port of the loopback, and keeps the port. False where the system gives none.
    pub fn take_datagrams<R: Net>(&mut self, rt: &R) -> bool {
        self.datagrams = UdpSocket::bind(rt, "127.0.0.1:0").ok();
        match &self.datagrams {
            Some(socket) => {
                let at = socket.local_addr();
                self.keep_port(at)
            }
            None => false,
        }
    }

    /// Takes a connection that came to the listener.
    pub fn accept(&mut self) -> bool {
        let Some(listener) = &self.listener else {
            return false;
        };
        match listener.accept() {
            Ok((stream, _)) => self.meet(Peer::AtPort(stream)),
            Err(_) => false,
        }
    }

    /// Connects to the port that was opened last on the loopback, and uses that stream. False where nobody takes it.
    pub fn connect<R: Net<Listener = TcpListener, Stream = TcpStream>>(&mut self, rt: &R) -> bool {
        match TcpStream::connect(rt, SocketAddr::from(([127, 0, 0, 1], self.port))) {
            Ok(stream) => self.meet(Peer::AtPort(stream)),
            Err(_) => false,
        }
    }

    /// Connects to the Unix socket at a path, and uses that stream. False where nobody takes it.
    pub fn connect_at<R: Net>(&mut self, rt: &R, path: &str) -> bool {
        match UnixStream::connect(rt, path) {
            Ok(stream) => self.meet(Peer::AtPath(stream)),
            Err(_) => false,
        }
    }

    // The stream that was used before is closed.
    fn meet(&mut self, peer: Peer) -> bool {
        self.peer = peer;
        true
    }

    /// Closes all that is open.
    pub fn leave(self) {}

    /// Closes the stream in use.
    pub fn hang_up(&mut self) -> bool {
        self.meet(Peer::Nobody)
    }

    /// Uses the other stream.
    pub fn turn(&mut self) -> bool {
        mem::swap(&mut self.peer, &mut self.other);
        true
    }

    /// No call on the connection in use waits from now on.
    pub fn wait_never(&self) -> bool {
        match &self.peer {
            Peer::AtPort(stream) => stream.set_nonblocking(true).is_ok(),
            _ => false,
        }
    }

    /// How many octets one read brings; None where it brings none and the stream hasn't ended.
    pub fn read(&mut self, into: &mut [u8]) -> Option<usize> {
        match &mut self.peer {
            Peer::Nobody => None,
            Peer::AtPath(stream) => stream.read(into).ok(),
            Peer::AtPort(stream) => stream.read(into).ok(),
        }
    }

    /// Whether these octets are taken whole.
    pub fn write(&mut self, octets: &[u8]) -> bool {
        match &mut self.peer {
            Peer::Nobody => false,
            Peer::AtPath(stream) => stream.write_all(octets).is_ok(),
            Peer::AtPort(stream) => stream.write_all(octets).is_ok(),
        }
    }

    /// Whether one read brings just these parts.
    pub fn gets(&mut self, parts: &[&[u8]]) -> bool {
        let mut into = [0u8; 200];
        match self.read(&mut into) {
            Some(count) => are_just(&into, count, parts),
            None => false,
        }
    }

    /// Whether who was connected gets no octet.
    pub fn gets_none(&mut self) -> bool {
        !self.write(b"x") || !matches!(self.read(&mut [0u8; 4]), Some(1..))
    }

    /// Whether three octets come by a datagram, and these are sent back, each by one.
    pub fn answer(&self, parts: &[&[u8]]) -> bool {
        let Some(socket) = &self.datagrams else {
            return false;
        };
        match socket.recv_from(&mut [0u8; 16]) {
            Ok((3, sender)) => are_sent(socket, sender, parts),
            _ => false,
        }
    }
}

fn are_sent(socket: &UdpSocket, to: SocketAddr, parts: &[&[u8]]) -> bool {
    for part in parts {
        if socket.send_to(part, to).is_err() {
            return false;
        }
    }
    true
}

/// Whether these octets stand there.
fn stands_at(octets: &[u8], place: usize, part: &[u8]) -> bool {
    match octets.get(place..) {
        Some(rest) => rest.starts_with(part),
        None => false,
    }
}

/// Whether these parts are all that octets begin with, of which there are so many.
fn are_just(octets: &[u8], count: usize, parts: &[&[u8]]) -> bool {
    let mut place = 0usize;
    for part in parts {
        if !stands_at(octets, place, part) {
            return false;
        }
        place = place.saturating_add(part.len());
    }
    place == count
}
