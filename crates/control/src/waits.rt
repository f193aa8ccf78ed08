// What a wait is for with the control's item among the wants, and what of its report is the control's.
ghost use Rattle.std.specs.Prelude.{◌≡◌, ◌≤◌, ◌<◌, [], Some, length, insert, not, position};
ghost use Rattle.poll_list.specs.Listing.{reads, writes};
ghost use Rattle.poll_list.specs.Picks.{as_list, part_in};
ghost use Rattle.world_face.specs.Limits.{most_wants};
ghost use Rattle.rules_control.specs.Apart.{others, reported_of};
ghost use Rattle.control.specs.Waits.{front_length, place_for, stands_in_front, with_item};

use poll_list::{ReadyList, Want, Wants, Who};
use rules_control::{is_of_control, takes_item};

// Whether this is the link or a listener, which stand in front.
fn stands_in_front(who: Who) -> bool
    ensures { result ≡ stands_in_front who }
{
    matches!(who, Who::Link | Who::Listener(_))
}

// Where the first want stands that is neither the link nor a listener.
fn first_behind(wants: &[Want]) -> Option<usize>
    ensures { result ≡ position (λ want. not (stands_in_front want.of)) wants.now }
{
    wants.iter().position(|want| !stands_in_front(want.of))
}

// How many wants stand before it, which are all where there is none.
fn front_length(wants: &[Want]) -> usize
    ensures { result ≡ front_length wants.now }
{
    first_behind(wants).unwrap_or(wants.len())
}

// Fills a list with the wants of the network, and with the control's item where there is one and they take it.
pub(crate) fn gather(wants: &Wants, item: Option<Want>, list: &mut Wants)
    requires few { length wants.now.items ≤ most_wants }
    requires room { most_wants ≤ list.old.capacity }
    ensures items { list.new.items ≡ with_item item wants.now.items }
    ensures capacity { list.new.capacity ≡ list.old.capacity }
{
    list.clear();
    match item {
        Some(item) => gather_with(wants, item, list),
        None => list.add_all(wants.items(), wants.writes()),
    }
}

// Fills an empty list so with an item.
fn gather_with(wants: &Wants, item: Want, list: &mut Wants)
    requires none { list.old.items ≡ [] }
    requires few { length wants.now.items ≤ most_wants }
    requires room { most_wants ≤ list.old.capacity }
    ensures items { list.new.items ≡ with_item (Some item) wants.now.items }
    ensures capacity { list.new.capacity ≡ list.old.capacity }
{
    if takes_item(wants.items()) {
        put_with(wants, item, list);
    } else {
        list.add_all(wants.items(), wants.writes());
    }
}

// Puts the wants into an empty list, and the item at its place.
fn put_with(wants: &Wants, item: Want, list: &mut Wants)
    requires none { list.old.items ≡ [] }
    requires room { length wants.now.items < list.old.capacity }
    ensures items { list.new.items ≡ insert wants.now.items (place_for item.of wants.now.items) item }
    ensures capacity { list.new.capacity ≡ list.old.capacity }
{
    match item.of {
        Who::Listener(_) => put_behind_listeners(wants, item, list),
        Who::Link | Who::Udp(_) | Who::Tcp(_) => {
            list.add_all(wants.items(), wants.writes());
            list.add(item);
        }
    }
}

// Puts the link and the listeners into an empty list, then the item, and then the other wants.
fn put_behind_listeners(wants: &Wants, item: Want, list: &mut Wants)
    requires none { list.old.items ≡ [] }
    requires room { length wants.now.items < list.old.capacity }
    ensures items { list.new.items ≡ insert wants.now.items (front_length wants.now.items) item }
    ensures capacity { list.new.capacity ≡ list.old.capacity }
{
    let (front, others) = wants.items().split_at(front_length(wants.items()));
    for want in front {
        list.add(*want);
    }
    let writes = wants.writes() - list.writes();
    list.add(item);
    list.add_all(others, writes);
}

// Puts what was reported of others than the control into a list, in place of what it held.
pub(crate) fn put_others(reported: &ReadyList, ready: &mut ReadyList)
    requires { length reported.now.items ≤ ready.old.capacity }
    ensures items { ready.new.items ≡ others reported.now.items }
    ensures capacity { ready.new.capacity ≡ ready.old.capacity }
{
    ready.clear();
    for item in reported.items() {
        if !is_of_control(item.of) {
            ready.add(*item);
        }
    }
}

// What was reported of the control's item, where it has one.
pub(crate) fn part_reported(item: Option<Want>, reported: &[Want]) -> Option<Want>
    ensures { as_list result ≡ reported_of (as_list item) reported.now }
{
    let item = item?;
    part_of(item, reads(item.of, reported), writes(item.of, reported))
}

// The part of a want in each direction in which it is wanted and was reported, where there is one.
fn part_of(want: Want, read: bool, write: bool) -> Option<Want>
    ensures { result ≡ part_in read write want }
{
    let part = Want {
        of: want.of,
        read: want.read && read,
        write: want.write && write,
    };
    if part.read || part.write {
        Some(part)
    } else {
        None
    }
}

// Whether this was reported for reading, and for writing.
fn reads(who: Who, reported: &[Want]) -> bool
    ensures { result ≡ reads who reported.now }
{
    reported.iter().any(|item| item.of == who && item.read)
}

fn writes(who: Who, reported: &[Want]) -> bool
    ensures { result ≡ writes who reported.now }
{
    reported.iter().any(|item| item.of == who && item.write)
}
