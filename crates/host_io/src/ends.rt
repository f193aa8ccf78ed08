// Connections and listeners by single calls that move no octets.
ghost use Rattle.std.specs.Prelude.{◌≡◌, Bool, List, None};
ghost use Rattle.std.specs.declared.option.Option.{Option};
ghost use Rattle.std.specs.declared.net.handle.Shutdown.{Shutdown};
ghost use Rattle.host_io.specs.Ends.{IsSet, IsShut, answer_taken};
ghost use Rattle.host_io.specs.Streams.{Answer, Calls};

use mio::net::{TcpListener, TcpStream};
use std::io;
use std::net::{Shutdown, SocketAddr};

/// A connection whose directions can be shut. A contract sees which were, where that is known: of a connection that tells.
pub trait Shuts {
    // What was shut by its calls, the newest first.
    ghost shut: { Self → Option (List Shutdown) } = { λ _. None };

    /// Shuts one direction or both, by one call.
    ///
    /// # Errors
    /// That of the call.
    fn shutdown(&mut self, how: Shutdown) -> io::Result<()>
        ensures called { IsShut (shut self.old) (shut self.new) how };
}

impl Shuts for &TcpStream {
    fn shutdown(&mut self, how: Shutdown) -> io::Result<()> {
        TcpStream::shutdown(self, how)
    }
}

/// A connection that may hold back what is written, until there is more. A contract sees what it was told of that, where that is known: of a connection that tells.
pub trait Delays {
    // What its calls set, the newest first: true where all goes out at once.
    ghost nodelay: { Self → Option (List Bool) } = { λ _. None };

    /// Has it send at once what is written, or not, by one call.
    ///
    /// # Errors
    /// That of the call.
    fn set_nodelay(&mut self, at_once: bool) -> io::Result<()>
        ensures called { IsSet (nodelay self.old) (nodelay self.new) at_once };
}

impl Delays for &TcpStream {
    fn set_nodelay(&mut self, at_once: bool) -> io::Result<()> {
        TcpStream::set_nodelay(self, at_once)
    }
}

/// A listener. A contract sees what its calls answered, where that is known: of a listener that tells.
pub trait Accepts {
    // What the calls answered, the newest first: 1 for a connection that came.
    ghost answers: { Self → Option (List Answer) } = { λ _. None };

    /// Takes a connection that came, and tells its peer, by one call.
    ///
    /// # Errors
    /// That of the call, and none was taken.
    fn accept(&mut self) -> io::Result<(TcpStream, SocketAddr)>
        ensures called { Calls (answers self.old) (answers self.new) (λ answer. answer ≡ answer_taken result) };
}

impl Accepts for &TcpListener {
    fn accept(&mut self) -> io::Result<(TcpStream, SocketAddr)> {
        TcpListener::accept(self)
    }
}
