// What takes many calls on the link.
use crate::asker::{Asker, LINK, here};
use crate::calls::link_reads;
use crate::host::Host;
use arrayvec::ArrayString;
use std::fs::Files;
use std::net::Net;
use std::os::unix::net::UnixListener;
use world_face::{Io, LinkAt, Made, World};

/// Whether the link, opened at a path, answers that.
pub fn opens_at<W: World>(world: &mut W, path: &str, answer: Made) -> bool {
    match ArrayString::from(path) {
        Ok(path) if !path.is_empty() => world.link_open(&LinkAt::Unix(path)) == answer,
        _ => false,
    }
}

/// Whether the link, opened at a port of the host, answers that.
pub fn opens_at_port<W: World>(world: &mut W, port: u16, answer: Made) -> bool {
    world.link_open(&LinkAt::Tcp(here(port))) == answer
}

/// Whether the link isn't opened where somebody listens, who is still there then.
pub fn is_refused_in_use<R: Net + Files, W: World>(rt: &R, world: &mut W) -> bool {
    match UnixListener::bind(rt, "in_use") {
        Ok(listener) => opens_at(world, "in_use", Made::Failed) && listener.accept().is_ok(),
        Err(_) => false,
    }
}

/// How many thousands of octets a link takes until it is full, which is told by NotYet: a thousand of each number.
fn thousands_taken<W: World>(world: &mut W) -> Option<u64> {
    let mut sent = 0u64;
    for _ in 0..20_000u32 {
        let piece = [(sent % 251) as u8; 1000];
        match world.link_write(&piece) {
            Io::Done(1000) => sent = sent.saturating_add(1),
            Io::NotYet => return Some(sent),
            _ => return None,
        }
    }
    None
}

/// Fills the link, which takes more than a hundred thousand octets.
pub fn fill<W: World>(world: &mut W, host: &mut Host) -> bool {
    match thousands_taken(world) {
        Some(sent) => {
            host.sent = sent;
            sent > 100
        }
        None => false,
    }
}

/// How many octets have come to the peer once it has read all that is there, where so many had come before. None where one isn't in its order.
fn octets_come(host: &mut Host, before: u64) -> Option<u64> {
    let mut came = before;
    let mut into = [0u8; 1000];
    for _ in 0..20_000u32 {
        match host.read(&mut into) {
            Some(count) if count > 0 && into[0] == (came / 1000 % 251) as u8 => {
                came = came.saturating_add(count as u64)
            }
            Some(_) => return None,
            None => break,
        }
    }
    Some(came)
}

/// Whether all that a full link took comes while the peer reads and the World waits for the link, in its order and once.
pub fn drains<W: World>(asker: &mut Asker, world: &mut W, host: &mut Host) -> bool {
    let mut came = 0u64;
    for _ in 0..20_000u32 {
        let _link = asker.is_ready(world, LINK, 0);
        match octets_come(host, came) {
            Some(now) => came = now,
            None => return false,
        }
        if came / 1000 == host.sent {
            return true;
        }
    }
    false
}

/// Whether it comes while the World waits for the link and forty sockets, and these are told in turn, all of them.
pub fn drains_in_turn<W: World>(asker: &mut Asker, world: &mut W, host: &mut Host) -> bool {
    let mut came = 0u64;
    let mut told = 0u64;
    for _ in 0..1000u32 {
        match octets_come(host, came) {
            Some(now) => came = now,
            None => return false,
        }
        match asker.told_by(world, 1, told) {
            Some(now) => told = now,
            None => return false,
        }
        if told >= 40 && came / 1000 == host.sent {
            return true;
        }
    }
    false
}

/// 8,192 octets come at once.
pub fn much_comes<W: World>(asker: &mut Asker, world: &mut W, host: &mut Host) -> bool {
    let mut into = [0u8; 8192];
    host.write(&into)
        && asker.is_ready(world, LINK, 1000)
        && world.link_read(&mut into) == Io::Done(8192)
}

/// What came by the link is told within 65 waits, beside a datagram that isn't fetched.
pub fn is_told_in_time<W: World>(asker: &mut Asker, world: &mut W) -> bool {
    for _ in 0..65u32 {
        match asker.tells_both(world) {
            Some(true) => return link_reads(world, 8, Io::Done(1), b"x"),
            Some(false) => {}
            None => return false,
        }
    }
    false
}
