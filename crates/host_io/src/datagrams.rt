// Sockets for datagrams by single calls.
ghost use Rattle.std.specs.Prelude.{◌≡◌, ◌≤◌, ℕ, List, None, IfOk, length};
ghost use Rattle.std.specs.declared.option.Option.{Option};
ghost use Rattle.std.specs.Io.{WritesAtMost};
ghost use Rattle.host_io.specs.Datagrams.{Receives, Sends, Stay, answer_came};
ghost use Rattle.host_io.specs.Streams.{Answer, Calls, answer_of};

use crate::again;
use mio::net::UdpSocket;
use std::io;
use std::net::SocketAddr;

/// A socket for datagrams. A contract sees the octets of those that wait there, and of those that it sent, and what its calls answered, where these are known: of
/// a socket that tells. Of the system's nothing is known.
pub trait Datagrams {
    // Those that calls will receive from here on, the first first.
    ghost waits: { Self → Option (List (List ℕ)) } = { λ _. None };

    // Those that it sent, the last one last.
    ghost sent: { Self → Option (List (List ℕ)) } = { λ _. None };

    // What the calls answered, the newest first.
    ghost answers: { Self → Option (List Answer) } = { λ _. None };

    /// Sends a datagram by one call that no signal interrupted, and answers how many octets were taken.
    ///
    /// # Errors
    /// That of the call, and none was sent.
    fn send_to(&mut self, octets: &[u8], to: SocketAddr) -> io::Result<usize>
        ensures fits { WritesAtMost result octets.now }
        ensures went { Sends (sent self.old) (sent self.new) result octets.now }
        ensures kept { Stay (waits self.old) (waits self.new) }
        ensures called { Calls (answers self.old) (answers self.new) (λ answer. answer ≡ answer_of result) };

    /// Receives a datagram by one call that no signal interrupted, and answers how many octets came and from where. What there is no room for is lost.
    ///
    /// # Errors
    /// That of the call, and none came.
    fn recv_from(&mut self, into: &mut [u8]) -> io::Result<(usize, SocketAddr)>
        ensures fits { IfOk result (λ came. came.0 ≤ length into.new) }
        ensures came { Receives (waits self.old) (waits self.new) result into.new }
        ensures kept { Stay (sent self.old) (sent self.new) }
        ensures called { Calls (answers self.old) (answers self.new) (λ answer. answer ≡ answer_came result) };
}

impl Datagrams for &UdpSocket {
    fn send_to(&mut self, octets: &[u8], to: SocketAddr) -> io::Result<usize> {
        again::send_to(self, octets, to)
    }

    fn recv_from(&mut self, into: &mut [u8]) -> io::Result<(usize, SocketAddr)> {
        again::recv_from(self, into)
    }
}
