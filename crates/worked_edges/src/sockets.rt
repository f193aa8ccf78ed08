// What takes many calls on sockets.
use crate::asker::{Asker, here};
use crate::host::Host;
use poll_list::{Want, Who};
use world_face::{Io, Made, Sent, World};

/// A socket for datagrams is opened and asks the host, whose answer comes.
pub fn is_answered<W: World>(asker: &mut Asker, world: &mut W, host: &Host, number: u64) -> bool {
    let want = Want {
        of: Who::Udp(number),
        read: true,
        write: false,
    };
    world.udp_open(number, here(0)) == Made::Done
        && world.udp_send(number, here(host.port), b"ask") == Sent::Done
        && host.answer(&[b"answer"])
        && asker.is_ready(world, want, 1000)
}

/// Forty sockets for datagrams have something to read.
pub fn are_answered<W: World>(asker: &mut Asker, world: &mut W, host: &Host) -> bool {
    for number in 100..140u64 {
        if !is_answered(asker, world, host, number) {
            return false;
        }
    }
    true
}

/// How many octets a connection takes whose peer reads nothing, until it takes none.
fn octets_taken<W: World>(world: &mut W) -> Option<u64> {
    let piece = [7u8; 16_384];
    let mut sent = 0u64;
    for _ in 0..10_000u32 {
        match world.tcp_write(7, &piece) {
            Io::Done(count) => sent = sent.saturating_add(count as u64),
            Io::NotYet => return Some(sent),
            _ => return None,
        }
    }
    None
}

/// Fills a connection, which takes 16,384 octets at least.
pub fn fill<W: World>(world: &mut W, host: &mut Host) -> bool {
    match octets_taken(world) {
        Some(sent) => {
            host.sent = sent;
            sent >= 16_384
        }
        None => false,
    }
}

/// Whether all that it took comes to the host.
pub fn drains(host: &mut Host) -> bool {
    let mut came = 0u64;
    let mut into = [0u8; 1000];
    for _ in 0..100_000u32 {
        match host.read(&mut into) {
            Some(count) if count > 0 => came = came.saturating_add(count as u64),
            _ => return false,
        }
        if came == host.sent {
            return true;
        }
    }
    false
}

/// Opens sockets until no descriptor or no place is left.
pub fn take_all<W: World>(world: &mut W) -> bool {
    let mut last = 0u64;
    for number in 100..6100u64 {
        if world.udp_open(number, here(0)) != Made::Done {
            break;
        }
        last = number;
    }
    last != 0 && last != 6099
}
