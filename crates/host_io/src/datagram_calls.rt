// A socket for datagrams: the datagrams of its calls.
ghost use Rattle.std.specs.Prelude.{◌≡◌, ◌<◌, true, false, length};
ghost use Rattle.host_io.specs.Datagrams.{Stay};
ghost use Rattle.host_io.specs.Streams.{Calls};
ghost use Rattle.world_face.specs.Journal.{MayGet, filled_got};
ghost use Rattle.host_io.specs.Datagramming.{IsNoneTold, ReceivesFirst, SendsWhole, send_tells};

use crate::Datagrams;
use crate::endpoints::{address, endpoint};
use crate::stream_calls::{Ready, is_not_yet};
use world_face::{Endpoint, Got, Sent};

/// Sends a datagram, whole. NotYet where the call would have waited, Failed where it failed otherwise, or the socket took less of it.
pub fn send<D: Datagrams>(socket: &mut D, to: Endpoint, octets: &[u8]) -> Sent
    ensures sends { SendsWhole (D.sent socket.old) (D.sent socket.new) result octets.now }
    ensures waiting { Stay (D.waits socket.old) (D.waits socket.new) }
    // One call says what is told.
    ensures tells { Calls (D.answers socket.old) (D.answers socket.new) (λ answer. result ≡ send_tells (length octets.now) answer) }
{
    match socket.send_to(octets, address(to)) {
        Ok(count) if count == octets.len() => Sent::Done,
        Ok(_) => Sent::Failed,
        Err(fault) if is_not_yet(fault.kind()) => Sent::NotYet,
        Err(_) => Sent::Failed,
    }
}

/// Takes a datagram, and tells its sender and how many octets came. NotYet where the call would have waited, Failed where it failed otherwise, or where the
/// sender has no address of version 4, and the datagram is lost.
pub fn receive<D: Datagrams>(socket: &mut D, ready: &mut Ready, into: &mut [u8]) -> Got
    ensures may { MayGet (length into.old) result }
    ensures receives { ReceivesFirst (D.waits socket.old) (D.waits socket.new) result (length into.old) (filled_got result into.new) }
    ensures sent { Stay (D.sent socket.old) (D.sent socket.new) }
    // One call is made, and where none came it says what is told.
    ensures tells { Calls (D.answers socket.old) (D.answers socket.new) (λ answer. IsNoneTold result answer) }
    ensures rests { result ≡ Got.NotYet → ready.new.read ≡ false }
    ensures kept { ready.new.read ≡ false → ready.old.read ≡ true → result ≡ Got.NotYet }
    ensures stays { ready.new.write ≡ ready.old.write }
{
    match socket.recv_from(into) {
        Ok((count, peer)) => match endpoint(peer) {
            Some(peer) => Got::From(peer, count),
            None => Got::Failed,
        },
        Err(fault) if is_not_yet(fault.kind()) => {
            ready.read = false;
            Got::NotYet
        }
        Err(_) => Got::Failed,
    }
}
