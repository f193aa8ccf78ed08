// The sockets that are ready for reading, in the order of wants.
ghost use Rattle.std.specs.Prelude.{◌≡◌, ◌<◌, ◌≤◌, true, false, length, vec_capacity};
ghost use Rattle.std.specs.List.{Contains};
ghost use Rattle.std.specs.List.Sorted.{IsSearchInRange, IsBinarySearchResult};
ghost use Rattle.net_world.specs.Tables.{rank_of, by_rank, InOrder, Lists, told_or, last_read};

use poll_list::{Want, Who};

/// A socket that is ready for reading, and where the slab keeps it.
#[derive(Clone, Copy)]
pub(crate) struct Listed {
    pub of: Who,
    pub key: usize,
}

/// Puts a socket into the list of those that are ready for reading, or takes it out, where that changed.
pub(crate) fn relist(readable: &mut Vec<Listed>, listed: Listed, was: bool, is: bool)
    requires rise { InOrder readable.old.items }
    requires has { was ≡ true → Contains readable.old.items listed }
    requires alone { (other : Listed) → Contains readable.old.items other → other.of ≡ listed.of → (other ≡ listed) × (was ≡ true) }
    requires room { was ≡ false → length readable.old.items < vec_capacity readable.old }
    ensures lists { Lists readable.old.items readable.new.items listed was is }
    ensures capacity { vec_capacity readable.old ≤ vec_capacity readable.new }
{
    if was == is {
        return;
    }
    if is {
        put_in(readable, listed);
    } else {
        take_out(readable, listed);
    }
}

// Puts a socket at its place in the list.
fn put_in(readable: &mut Vec<Listed>, listed: Listed)
    requires rise { InOrder readable.old.items }
    requires alone { (other : Listed) → Contains readable.old.items other → other.of ≡ listed.of → ⊥ }
    requires room { length readable.old.items < vec_capacity readable.old }
    ensures lists { Lists readable.old.items readable.new.items listed false true }
    ensures capacity { vec_capacity readable.old ≤ vec_capacity readable.new }
{
    let Err(at) = find_listed(readable, listed.of) else {
        unreachable!();
    };
    let _put = readable.insert(at, listed);
}

// Takes a socket out of the list.
fn take_out(readable: &mut Vec<Listed>, listed: Listed)
    requires rise { InOrder readable.old.items }
    requires has { Contains readable.old.items listed }
    requires alone { (other : Listed) → Contains readable.old.items other → other.of ≡ listed.of → other ≡ listed }
    ensures lists { Lists readable.old.items readable.new.items listed true false }
    ensures capacity { vec_capacity readable.old ≤ vec_capacity readable.new }
{
    let Ok(at) = find_listed(readable, listed.of) else {
        unreachable!();
    };
    let _was = readable.remove(at);
}

/// What of a list was told last for reading, or what was before.
pub(crate) fn last_read(last: Who, told: &[Want]) -> Who
    ensures { result ≡ last_read last told.now }
{
    let mut last = last;
    for want in told {
        last = told_or(last, want.read, want.of);
    }
    last
}

// What was told last for reading, once this was told.
fn told_or(last: Who, read: bool, of: Who) -> Who
    ensures { result ≡ told_or last read of }
{
    match of {
        Who::Link => last,
        of => { if read { of } else { last } }
    }
}

/// The place of a socket among those that are ready for reading, or where it would stand.
pub(crate) fn find_listed(readable: &[Listed], of: Who) -> Result<usize, usize>
    ensures range { IsSearchInRange result (length readable.now) }
    ensures position { IsBinarySearchResult (λ listed. by_rank (rank_of listed.of) (rank_of of)) readable.now result }
{
    readable.binary_search_by_key(&rank(of), |listed| rank(listed.of))
}

/// Where something stands in the order of wants: its kind, then its number.
pub(crate) fn rank(of: Who) -> (u8, u64)
    ensures { result ≡ rank_of of }
{
    match of {
        Who::Link => (0, 0),
        Who::Listener(number) => (1, number),
        Who::Udp(number) => (2, number),
        Who::Tcp(number) => (3, number),
    }
}
