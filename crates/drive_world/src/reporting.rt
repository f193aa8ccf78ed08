// What of the wants is ready, and octets that are handed on.
ghost use Rattle.std.specs.Prelude.{◌≡◌, ◌+◌, ◌<◌, ◌≤◌, ◌++◌, [], List, length, IfSome};
ghost use Rattle.poll_list.specs.declared.Want.{Want};
ghost use Rattle.poll_list.specs.Listing.{AreWants};
ghost use Rattle.world_face.specs.Journal.{MayWait};
ghost use Rattle.world_face.specs.Limits.{most_ready, most_wants};
ghost use Rattle.world_face.specs.declared.Waited.TheVariants.{Ready};
ghost use Rattle.world_face.specs.declared.Io.TheVariants.{Done, NotYet};
ghost use Rattle.poll_list.specs.Picks.{IsPart, IsPickedFrom, GoesOn, Adds};

use crate::host::Host;
use poll_list::{ReadyList, Want, Wants, Who};
use world_face::Io;

/// Fills the front of a slice, as far as there is something to fill it with, and answers how far.
pub fn fill(from: &[u8], into: &mut [u8]) -> usize
    ensures { result ≤ length into.old }
{
    let count = from.len().min(into.len());
    into[..count].copy_from_slice(&from[..count]);
    count
}

/// What a read answers that brought so many octets.
pub fn moved(count: usize) -> Io
    ensures done { count ≡ 0 → result ≡ NotYet }
    ensures some { 0 < count → result ≡ Done count }
{
    if count == 0 {
        Io::NotYet
    } else {
        Io::Done(count)
    }
}

/// Puts the parts of the wants that are ready into an empty list: the link for reading where frames wait, connections for reading where they bring
/// something, and each of them for writing.
pub fn report(wants: &Wants, frames_wait: bool, host: &Host, ready: &mut ReadyList)
    requires none { ready.old.items ≡ [] }
    requires some { AreWants wants.now.items }
    requires few { length wants.now.items ≤ most_wants }
    requires room { most_ready ≤ ready.old.capacity }
    ensures picked { IsPickedFrom wants.now.items ready.new.items }
    ensures may { MayWait wants.now.items Ready ready.new.items }
    ensures capacity { ready.new.capacity ≡ ready.old.capacity }
{
    add_parts(wants.items(), frames_wait, host, ready);
}

// Adds the parts of wants that are ready.
fn add_parts(wants: &[Want], frames_wait: bool, host: &Host, ready: &mut ReadyList)
    requires { length ready.old.items + length wants.now ≤ ready.old.capacity }
    ensures goes_on { (all rest : List Want) → GoesOn all (wants.now ++ rest) ready.old.items → GoesOn all rest ready.new.items }
    ensures few { length ready.new.items ≤ length ready.old.items + length wants.now }
    ensures capacity { ready.new.capacity ≡ ready.old.capacity }
{
    for want in wants {
        let (read, write) = readiness(want.of, frames_wait, host);
        add_part(*want, read, write, ready);
    }
}

// Whether something may be read, and written.
fn readiness(of: Who, frames_wait: bool, host: &Host) -> (bool, bool) {
    match of {
        Who::Link => (frames_wait, true),
        Who::Tcp(number) => (host.is_readable(number), true),
        Who::Listener(_) | Who::Udp(_) => (false, false),
    }
}

// Adds the part of a want that is ready, where there is one.
fn add_part(want: Want, read: bool, write: bool, ready: &mut ReadyList)
    requires { length ready.old.items < ready.old.capacity }
    ensures adds { Adds want ready.old.items ready.new.items }
    ensures capacity { ready.new.capacity ≡ ready.old.capacity }
{
    if let Some(part) = part_of(want, read, write) {
        ready.add(part);
    }
}

// The part of a want that is ready, if any is.
fn part_of(want: Want, read: bool, write: bool) -> Option<Want>
    ensures { IfSome result (λ part. IsPart want part) }
{
    let part = Want {
        of: want.of,
        read: want.read && read,
        write: want.write && write,
    };
    if part.read || part.write {
        Some(part)
    } else {
        None
    }
}
