// A connection of the host: the octets of its calls, and what it is known to be ready for.
ghost use Rattle.std.specs.Prelude.{◌≡◌, ℕ, ◌<◌, [], true, false, Ok, length};
ghost use Rattle.std.specs.Io.KnownBytes.{Appends, Consumes, IsAtEnd, Keeps};
ghost use Rattle.std.specs.IoError.{error_kind};
ghost use Rattle.host_io.specs.Streams.{Calls};
ghost use Rattle.host_io.specs.Ends.{IsShut};
ghost use Rattle.std.specs.declared.net.handle.Shutdown.{Shutdown};
ghost use Rattle.world_face.specs.Journal.{MayRead, MayWrite, filled};
ghost use Rattle.host_io.specs.Carrying.{Carries, carrying};
ghost use Rattle.host_io.specs.Streaming.{would_wait, read_tells, write_tells, after_read, after_write, after_event};

use crate::{Shuts, Stream};
use mio::event::Event;
use std::io::ErrorKind;
use std::net::Shutdown;
use world_face::Io;

/// What a socket was found ready for since the last call that found otherwise.
#[derive(Clone, Copy)]
pub struct Ready {
    pub read: bool,
    pub write: bool,
    /// It is read until a read brings nothing: its end came, or octets before which a read stops, those that are marked as urgent.
    pub until_none: bool,
}

impl Ready {
    /// Nothing, as long as the system told of nothing.
    pub const NONE: Ready = Ready {
        read: false,
        write: false,
        until_none: false,
    };
}

/// Notes what the system told: an event makes ready what it says, and nothing else.
pub fn note(ready: &mut Ready, event: &Event)
    ensures change { ready.new ≡ after_event event.now ready.old }
{
    let fails = event.is_error();
    ready.until_none |= fails | event.is_read_closed() | event.is_priority();
    ready.read |= ready.until_none | event.is_readable();
    ready.write |= fails | event.is_writable() | event.is_write_closed();
}

/// Reads octets that came, one at least. Where less came than was asked for there is no more for now, unless it is read until nothing comes. End where the stream
/// has ended, NotYet where the call would have waited, Failed where it failed otherwise.
#[tactic(auto, using(crate::proofs::Carrying::kept_appends))]
pub fn read<S: Stream>(stream: &mut S, ready: &mut Ready, into: &mut [u8]) -> Io
    requires { 0 < length into.old }
    ensures may { MayRead (length into.old) result }
    // What is told as read is what the stream gave.
    ensures came { Consumes (S.remaining stream.old) (S.remaining stream.new) (filled result into.new) }
    ensures written { Keeps (S.contents stream.old) (S.contents stream.new) }
    ensures carries { Carries [] (filled result into.new) (carrying (S.contents stream.old) (S.remaining stream.old)) (carrying (S.contents stream.new) (S.remaining stream.new)) }
    // One call says what is told, the end where it gives none and only there, and what the stream is ready for.
    ensures tells { Calls (S.answers stream.old) (S.answers stream.new) (λ answer. (result ≡ read_tells answer) × (answer ≡ Ok 0 → IsAtEnd (S.remaining stream.new))
        × (ready.new ≡ after_read (length into.old) answer ready.old)) }
    ensures rests { result ≡ Io.NotYet → ready.new.read ≡ false }
    ensures stays { ready.new.write ≡ ready.old.write }
    ensures goes_on { ready.old.until_none ≡ true → ready.old.read ≡ true → (count : ℕ) → result ≡ Io.Done count → (ready.new.until_none ≡ true) × (ready.new.read ≡ true) }
{
    let asked = into.len();
    match stream.read(into) {
        Ok(0) => Io::End,
        Ok(count) => {
            ready.read = ready.until_none || count == asked;
            Io::Done(count)
        }
        Err(fault) if is_not_yet(fault.kind()) => {
            ready.read = false;
            ready.until_none = false;
            Io::NotYet
        }
        Err(_) => Io::Failed,
    }
}

/// Writes octets, as many as are taken, one at least. Where less was taken than was offered the system takes no more for now. NotYet where the call would have
/// waited, Failed where it failed otherwise, or took none.
#[tactic(auto, using(crate::proofs::Carrying::kept_consumes))]
pub fn write<S: Stream>(stream: &mut S, ready: &mut Ready, from: &[u8]) -> Io
    requires { 0 < length from.now }
    ensures may { MayWrite (length from.now) result }
    // What is told as taken is what the stream took.
    ensures went { Appends (S.contents stream.old) (S.contents stream.new) (filled result from.now) }
    ensures unread { Keeps (S.remaining stream.old) (S.remaining stream.new) }
    ensures carries { Carries (filled result from.now) [] (carrying (S.contents stream.old) (S.remaining stream.old)) (carrying (S.contents stream.new) (S.remaining stream.new)) }
    // One call says what is told, and what the stream is ready for.
    ensures tells { Calls (S.answers stream.old) (S.answers stream.new) (λ answer. (result ≡ write_tells answer)
        × (ready.new ≡ after_write (length from.now) answer ready.old)) }
    ensures rests { result ≡ Io.NotYet → ready.new.write ≡ false }
    ensures stays { ready.new.read ≡ ready.old.read }
{
    match stream.write(from) {
        Ok(0) => Io::Failed,
        Ok(taken) => {
            ready.write = taken == from.len();
            Io::Done(taken)
        }
        Err(fault) if is_not_yet(fault.kind()) => {
            ready.write = false;
            Io::NotYet
        }
        Err(_) => Io::Failed,
    }
}

/// Ends the writing direction, and no other. False where the system refuses.
pub fn end<S: Shuts>(stream: &mut S) -> bool
    ensures { IsShut (S.shut stream.old) (S.shut stream.new) Shutdown.Write }
{
    stream.shutdown(Shutdown::Write).is_ok()
}

/// Whether a call that failed so would have waited.
pub(crate) fn is_not_yet(kind: ErrorKind) -> bool
    ensures { result ≡ would_wait kind }
{
    matches!(kind, ErrorKind::WouldBlock)
}
