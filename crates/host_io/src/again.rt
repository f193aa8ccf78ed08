//! Calls that a signal interrupted are made again.
ghost use Rattle.std.specs.Prelude.{◌≤◌, length, true, ◌≡◌, IfOk, IsErr};
ghost use Rattle.std.specs.Io.{ReadsAtMost, WritesAtMost};
ghost use Rattle.std.specs.Io.KnownBytes.{ReadConsumes, WriteAppends};
ghost use Rattle.host_io.specs.Streams.{is_interruption, was_interrupted};

use mio::net::UdpSocket;
use std::io;
use std::io::{ErrorKind, Read, Write};
use std::net::SocketAddr;

/// How often a call is made at most.
const TRIES: u32 = 64;

/// Reads by one call that wasn't interrupted.
pub fn read<T: Read>(source: &mut T, into: &mut [u8]) -> io::Result<usize>
    ensures fits { ReadsAtMost result into.new }
    // What came is what the source gave, and it gave no more.
    ensures came { ReadConsumes (T.remaining source.old) (T.remaining source.new) result into.new }
{
    'tries: for _ in 0..TRIES {
        let read = source.read(into);
        if !is_interrupted(&read) {
            return read;
        }
    }
    Err(io::Error::from(ErrorKind::Interrupted))
}

/// Writes by one call that wasn't interrupted.
pub fn write<T: Write>(sink: &mut T, octets: &[u8]) -> io::Result<usize>
    ensures fits { WritesAtMost result octets.now }
    // What the sink got are the first of these octets, as many as were taken.
    ensures went { WriteAppends (T.contents sink.old) (T.contents sink.new) result octets.now }
{
    'tries: for _ in 0..TRIES {
        let written = sink.write(octets);
        if !is_interrupted(&written) {
            return written;
        }
    }
    Err(io::Error::from(ErrorKind::Interrupted))
}

/// Sends a datagram by one call that wasn't interrupted.
pub fn send_to(socket: &UdpSocket, octets: &[u8], to: SocketAddr) -> io::Result<usize>
    ensures fits { WritesAtMost result octets.now }
{
    for _ in 0..TRIES {
        let sent = socket.send_to(octets, to);
        if !is_interrupted(&sent) {
            return sent;
        }
    }
    Err(io::Error::from(ErrorKind::Interrupted))
}

/// Receives a datagram by one call that wasn't interrupted.
pub fn recv_from(socket: &UdpSocket, into: &mut [u8]) -> io::Result<(usize, SocketAddr)>
    ensures { IfOk result (λ came. came.0 ≤ length into.new) }
{
    for _ in 0..TRIES {
        let came = socket.recv_from(into);
        if !is_interrupted(&came) {
            return came;
        }
    }
    Err(io::Error::from(ErrorKind::Interrupted))
}

// Whether a signal cut the call short, and nothing else did.
fn is_interrupted<T>(answer: &io::Result<T>) -> bool
    ensures failed { result ≡ true → IsErr answer.now }
    ensures kind { result ≡ was_interrupted answer.now }
{
    match answer {
        Ok(_) => false,
        Err(fault) => is_interruption(fault.kind()),
    }
}

// Whether a call that failed so was cut short by a signal.
fn is_interruption(kind: ErrorKind) -> bool
    ensures { result ≡ is_interruption kind }
{
    matches!(kind, ErrorKind::Interrupted)
}
