// Streams by single calls.
ghost use Rattle.std.specs.Prelude.{◌≡◌, ℕ, List, None};
ghost use Rattle.std.specs.declared.option.Option.{Option};
ghost use Rattle.std.specs.Io.{ReadsAtMost, WritesAtMost};
ghost use Rattle.std.specs.Io.KnownBytes.{Keeps, ReadConsumes, WriteAppends};
ghost use Rattle.host_io.specs.Streams.{Answer, Calls, answer_of};

use crate::again;
use mio::net::{TcpStream, UnixStream};
use std::io;

/// A stream in both directions. A contract sees which octets it has still to give, which it took, and what its calls answered, where these are known: of a
/// stream that tells. Of a socket nothing is known, since the system holds its octets.
pub trait Stream {
    // The octets that reads will give from here on.
    ghost remaining: { Self → Option (List ℕ) } = { λ _. None };

    // The octets that writes took.
    ghost contents: { Self → Option (List ℕ) } = { λ _. None };

    // What the calls answered, the newest first.
    ghost answers: { Self → Option (List Answer) } = { λ _. None };

    /// Reads by one call that no signal interrupted.
    ///
    /// # Errors
    /// That of the call, and nothing came.
    fn read(&mut self, into: &mut [u8]) -> io::Result<usize>
        ensures fits { ReadsAtMost result into.new }
        ensures came { ReadConsumes (remaining self.old) (remaining self.new) result into.new }
        ensures kept { Keeps (contents self.old) (contents self.new) }
        ensures called { Calls (answers self.old) (answers self.new) (λ answer. answer ≡ answer_of result) };

    /// Writes by one call that no signal interrupted.
    ///
    /// # Errors
    /// That of the call, and nothing was taken.
    fn write(&mut self, octets: &[u8]) -> io::Result<usize>
        ensures fits { WritesAtMost result octets.now }
        ensures went { WriteAppends (contents self.old) (contents self.new) result octets.now }
        ensures kept { Keeps (remaining self.old) (remaining self.new) }
        ensures called { Calls (answers self.old) (answers self.new) (λ answer. answer ≡ answer_of result) };
}

impl Stream for TcpStream {
    fn read(&mut self, into: &mut [u8]) -> io::Result<usize> {
        again::read(self, into)
    }

    fn write(&mut self, octets: &[u8]) -> io::Result<usize> {
        again::write(self, octets)
    }
}

impl Stream for UnixStream {
    fn read(&mut self, into: &mut [u8]) -> io::Result<usize> {
        again::read(self, into)
    }

    fn write(&mut self, octets: &[u8]) -> io::Result<usize> {
        again::write(self, octets)
    }
}
