// Whether an answer is one that a World may give, and whether two arguments are the same.
#![tactic(auto)]

ghost use Rattle.std.specs.Prelude.{◌≡◌, ◌↔◌, IsTrue};
ghost use Rattle.std.specs.Prelude.{◌||◌, ◌&&◌};
ghost use Rattle.std.specs.List.{list_any};
ghost use Rattle.poll_list.specs.Listing.{are_wants, differ, is_who, number_of, same_number};
ghost use Rattle.world_face.specs.Journal.{MayRead, MayReadFile, MayWrite, MayGet, MayWait, AtPath, AtEndpoint};
ghost use Rattle.replay.specs.Lines.{place_at};

use crate::line::Seat;
use crate::reported::Reported;
use world_face::{Endpoint, Got, Io, MOST_READY, Waited, Want, Who};

/// Whether a read of the link or a connection that asked for `asked` octets may be answered so: a Done tells 1 to `asked` of them, and any other
/// answer may be given.
pub fn may_read(asked: usize, answer: Io) -> bool
    ensures { IsTrue result ↔ MayRead asked answer }
{
    match answer {
        Io::Done(n) => 0 < n && n <= asked,
        _ => true,
    }
}

/// Whether a read of a file that asked for `asked` octets may be answered so: a Done tells 1 to `asked` of them, and NotYet is never given.
pub fn may_read_file(asked: usize, answer: Io) -> bool
    ensures { IsTrue result ↔ MayReadFile asked answer }
{
    match answer {
        Io::Done(n) => 0 < n && n <= asked,
        Io::NotYet => false,
        _ => true,
    }
}

/// Whether a write of `offered` octets may be answered so: a Done tells 1 to `offered` of them, and End is never given.
pub fn may_write(offered: usize, answer: Io) -> bool
    ensures { IsTrue result ↔ MayWrite offered answer }
{
    match answer {
        Io::Done(n) => 0 < n && n <= offered,
        Io::End => false,
        _ => true,
    }
}

/// Whether a call that takes a datagram into `asked` octets may be answered so: one that came has at most so many, and may have none.
pub fn may_get(asked: usize, answer: Got) -> bool
    ensures { IsTrue result ↔ MayGet asked answer }
{
    match answer {
        Got::From(_, n) => n <= asked,
        _ => true,
    }
}

/// Whether the octets are the same.
pub fn same(a: &[u8], b: &[u8]) -> bool
    ensures { IsTrue result ↔ (a.now ≡ b.now) }
{
    a == b
}

fn same_want(a: &Want, b: &Want) -> bool
    ensures { IsTrue result ↔ (a.now ≡ b.now) }
{
    *a == *b
}

/// Whether the wants are the same, in the same order.
pub fn same_wants(a: &[Want], b: &[Want]) -> bool
    ensures { IsTrue result ↔ (a.now ≡ b.now) }
{
    if a.len() != b.len() {
        return false;
    }
    for i in 0..a.len() {
        if !same_want(&a[i], &b[i]) {
            return false;
        }
    }
    true
}

// Each has a direction.
fn are_wants(wants: &[Want]) -> bool
    ensures { result ≡ are_wants wants.now }
{
    let mut rest = wants;
    while let [want, tail @ ..] = rest {
        if !has_direction(*want) {
            return false;
        }
        rest = tail;
    }
    true
}

fn has_direction(want: Want) -> bool
    ensures value { result ≡ (want.read || want.write) }
    ensures of { IsTrue (is_who want.of) }
{
    // for the prover: the number of a socket is in its range.
    match want.of {
        Who::Link => {}
        Who::Listener(_socket) | Who::Udp(_socket) | Who::Tcp(_socket) => {}
    }
    want.read || want.write
}

/// The number of a listener, a connection or a socket for datagrams; None for the link.
pub fn number_of(who: &Who) -> Option<u64>
    ensures { result ≡ number_of who.now }
{
    match *who {
        Who::Link => None,
        Who::Listener(socket) | Who::Udp(socket) | Who::Tcp(socket) => Some(socket),
    }
}

fn same_number(a: &Want, b: &Want) -> bool
    ensures { result ≡ same_number (number_of a.now.of) (number_of b.now.of) }
{
    number_of(&a.of) == number_of(&b.of)
}

// One of them has the number of this one.
fn is_among(want: &Want, wants: &[Want]) -> bool
    ensures { result ≡ list_any (λ w. same_number (number_of want.now.of) (number_of w.of)) wants.now }
{
    let mut rest = wants;
    while let [first, tail @ ..] = rest {
        if same_number(want, first) {
            return true;
        }
        rest = tail;
    }
    false
}

// No socket stands twice, nor the link.
fn differ(wants: &[Want]) -> bool
    ensures { result ≡ differ wants.now }
{
    let mut rest = wants;
    while let [want, tail @ ..] = rest {
        if is_among(want, tail) {
            return false;
        }
        rest = tail;
    }
    true
}

/// Whether a wait for these wants may be answered so. Ready comes with at most `MOST_READY` items, each with a direction, and among them no number
/// of a socket twice, nor the link, unless that is so among the wants. Any other answer comes with no item.
pub fn may_wait(wants: &[Want], answer: Waited, ready: &Reported) -> bool
    ensures { IsTrue result ↔ MayWait wants.now answer ready.now }
{
    let items = ready.items();
    match answer {
        Waited::Ready => {
            items.len() <= MOST_READY && are_wants(items) && (ready.are_apart() || !differ(wants))
        }
        _ => items.is_empty(),
    }
}

/// Whether the link is at this path; never where it is at an endpoint.
pub fn is_path(seat: &Seat, path: &[u8]) -> bool
    ensures { IsTrue result ↔ (place_at seat.now ≡ AtPath path.now) }
{
    match seat.at {
        None => same(&seat.path, path),
        Some(_) => false,
    }
}

/// Whether the link is at this endpoint; never where it is at a path.
pub fn is_endpoint(seat: &Seat, at: Endpoint) -> bool
    ensures { IsTrue result ↔ (place_at seat.now ≡ AtEndpoint at) }
{
    match seat.at {
        None => false,
        Some(here) => here == at,
    }
}
