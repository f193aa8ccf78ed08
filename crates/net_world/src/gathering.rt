// What of the wants is ready.
ghost use Rattle.std.specs.Prelude.{◌≡◌, ◌⊎◌, ℕ, ◌+◌, ◌<◌, ◌≤◌, true, [], ◌++◌, List, None, length, drop, slice_index_or, IfSome};
ghost use Rattle.std.specs.List.{Contains};
ghost use Rattle.std.specs.List.Sorted.{IsSearchInRange, IsBinarySearchResult};
ghost use Rattle.std.specs.declared.cmp.Ordering.TheVariants.{Less};
ghost use Rattle.poll_list.specs.declared.Want.{Want};
ghost use Rattle.poll_list.specs.Listing.{same_who};
ghost use Rattle.poll_list.specs.Writes.{count_to_write};
ghost use Rattle.poll_list.specs.declared.Who.TheVariants.{Link};
ghost use Rattle.poll_list.specs.Picks.{IsPart, IsPickedFrom, GoesOn, Adds, Begins, BeginsWithLink, part_in, as_list};
ghost use Rattle.net_world.specs.Telling.{AreInOrder, AreReady, IsEndWanted, IsLinkAtMost, IsReadable, IsWritable, TellsOneRead, TellsRead, TellsWrite, WantsRead, link_told, read_sockets};
ghost use Rattle.net_world.specs.Tables.{by_rank, rank_of, one};

use crate::ready_list::{Listed, rank};
use crate::sockets::{Known, Sockets};
use mio::net::TcpStream;
use poll_list::{ReadyList, Want, Wants, Who};

/// Puts the parts of the wants that are known to be ready into a list, in place of what it held. What is known of the link is told. Each socket that is ready
/// for reading is looked up among the wants, and the sockets of the wants for writing that lie between those are looked up by their numbers, up to the last of
/// them. So a connection that idles, which is ready for writing and not wanted for it, costs one look at its want where a socket behind it is wanted for
/// writing, and nothing else.
///
/// At most `most` sockets are told for reading. Where more are ready, those are told that stand past the one that was told last, and the others at
/// later waits: so each has its turn.
pub(crate) fn gather(
    wants: &Wants,
    link: Known,
    sockets: &Sockets<TcpStream>,
    most: usize,
    ready: &mut ReadyList,
)
    requires { length wants.now.items ≤ ready.old.capacity }
    ensures picked { IsPickedFrom wants.now.items ready.new.items }
    ensures link { BeginsWithLink link.read link.write wants.now.items ready.new.items }
    ensures few { length ready.new.items ≤ length wants.now.items }
    ensures capacity { ready.new.capacity ≡ ready.old.capacity }
    // What is told is ready.
    ensures ready { AreReady link sockets.now.slots ready.new.items }
    // Each socket that is wanted for writing and ready for it is told.
    ensures writes { (want : Want) → Contains wants.now.items want → (want.of ≡ Link → ⊥) → want.write ≡ true → IsWritable sockets.now.slots want.of → TellsWrite ready.new.items want.of }
    // So is each for reading, where no more are ready than are told at most, and the wants stand in their order.
    ensures reads { AreInOrder wants.now.items → length sockets.now.readable ≤ most → (want : Want) → Contains wants.now.items want → (want.of ≡ Link → ⊥) → want.read ≡ true
        → IsReadable sockets.now.slots want.of → TellsRead ready.new.items want.of }
    ensures most { read_sockets ready.new.items ≤ most }
    // Where more are ready one is told at least.
    ensures some { AreInOrder wants.now.items → 0 < most → (want : Want) → Contains wants.now.items want → (want.of ≡ Link → ⊥) → want.read ≡ true → IsReadable sockets.now.slots want.of
        → TellsOneRead sockets.now.slots ready.new.items }
{
    ready.clear();
    let mut to_write = wants.writes();
    let mut left = gather_first(wants.items(), link, &mut to_write, ready);
    let mut room = most;
    for listed in in_turn(left, sockets.readable(), sockets, most) {
        if room == 0 {
            break;
        }
        let (rest, is_read) = gather_up_to(left, listed, sockets, &mut to_write, ready);
        left = rest;
        if is_read {
            room -= 1;
        }
    }
    gather_written(left, sockets, &mut to_write, ready);
}

/// Puts the link alone into a list, in place of what it held, where it is wanted for reading, or for writing and takes octets.
pub(crate) fn gather_link(wants: &Wants, write: bool, ready: &mut ReadyList)
    requires { length wants.now.items ≤ ready.old.capacity }
    ensures picked { IsPickedFrom wants.now.items ready.new.items }
    ensures link { BeginsWithLink true write wants.now.items ready.new.items }
    ensures told { IsLinkAtMost (link_told write) ready.new.items }
    ensures few { length ready.new.items ≤ length wants.now.items }
    ensures capacity { ready.new.capacity ≡ ready.old.capacity }
{
    ready.clear();
    let known = Known { read: true, write };
    let mut to_write = wants.writes();
    gather_first(wants.items(), known, &mut to_write, ready);
}

// Adds the part of the link's want that is ready, and answers the wants that come after it. The link stands first where it is wanted; all wants are
// answered where it isn't. The wants for writing among them are counted, before and after.
fn gather_first<'a>(
    wants: &'a [Want],
    known: Known,
    to_write: &mut usize,
    ready: &mut ReadyList,
) -> &'a [Want]
    requires room { length ready.old.items + length wants.now ≤ ready.old.capacity }
    requires counted { to_write.old ≡ count_to_write wants.now }
    ensures counted { to_write.new ≡ count_to_write result.now }
    ensures goes_on { (all : List Want) → GoesOn all wants.now ready.old.items → GoesOn all result.now ready.new.items }
    ensures link { ready.old.items ≡ [] → BeginsWithLink known.read known.write wants.now ready.new.items }
    ensures few { length ready.new.items + length result.now ≤ length ready.old.items + length wants.now }
    ensures capacity { ready.new.capacity ≡ ready.old.capacity }
    ensures told { ready.old.items ≡ [] → IsLinkAtMost known ready.new.items }
    ensures rest { (want : Want) → Contains wants.now want → (want.of ≡ Link → ⊥) → Contains result.now want }
    ensures order { AreInOrder wants.now → AreInOrder result.now }
    ensures only { (want : Want) → Contains result.now want → Contains wants.now want }
    ensures others { AreInOrder wants.now → (want : Want) → Contains result.now want → want.of ≡ Link → ⊥ }
{
    let [want, rest @ ..] = wants else {
        return wants;
    };
    if !is_link(want.of) {
        return wants;
    }
    *to_write -= usize::from(want.write);
    add_part(*want, known, ready);
    rest
}

/// Whether this is the link.
pub(crate) fn is_link(of: Who) -> bool
    ensures { result ≡ same_who Link of }
{
    matches!(of, Who::Link)
}

// Adds the part of the want for a socket that is ready for reading, after the parts of the wants for writing that stand before it, and answers the wants that
// come after it, and whether it was told for reading; all of them, and false, where it isn't wanted. The wants for writing among them are counted, before
// and after.
fn gather_up_to<'a>(
    wants: &'a [Want],
    listed: &Listed,
    sockets: &Sockets<TcpStream>,
    to_write: &mut usize,
    ready: &mut ReadyList,
) -> (&'a [Want], bool)
    requires room { length ready.old.items + length wants.now ≤ ready.old.capacity }
    requires listed { Contains sockets.now.readable listed.now }
    requires counted { to_write.old ≡ count_to_write wants.now }
    ensures counted { to_write.new ≡ count_to_write result.0.now }
    ensures goes_on { (all : List Want) → GoesOn all wants.now ready.old.items → GoesOn all result.0.now ready.new.items }
    ensures begins { (first : List Want) → Begins first ready.old.items → Begins first ready.new.items }
    ensures few { length ready.new.items + length result.0.now ≤ length ready.old.items + length wants.now }
    ensures capacity { ready.new.capacity ≡ ready.old.capacity }
    ensures ready { (link : Known) → AreReady link sockets.now.slots ready.old.items → AreReady link sockets.now.slots ready.new.items }
    ensures writes { (want : Want) → Contains wants.now want → Contains result.0.now want
        ⊎ (want.write ≡ true → IsWritable sockets.now.slots want.of → TellsWrite ready.new.items want.of) }
    ensures reads { AreInOrder wants.now → (want : Want) → Contains wants.now want → want.of ≡ listed.now.of → want.read ≡ true → TellsRead ready.new.items want.of }
    ensures rest { AreInOrder wants.now → (want : Want) → Contains wants.now want → by_rank (rank_of listed.now.of) (rank_of want.of) ≡ Less → Contains result.0.now want }
    ensures order { AreInOrder wants.now → AreInOrder result.0.now }
    ensures count { read_sockets ready.new.items ≤ read_sockets ready.old.items + one result.1 }
    ensures some { result.1 ≡ true → TellsOneRead sockets.now.slots ready.new.items }
{
    let Some(at) = place_among(wants, listed.of) else {
        return (wants, false);
    };
    gather_written(&wants[..at], sockets, to_write, ready);
    *to_write -= usize::from(wants[at].write);
    add_part(wants[at], sockets.known(listed), ready);
    (&wants[at + 1..], wants[at].read)
}

// Adds the parts of wants for writing that are ready, for writing alone: which sockets are told for reading is settled before. `to_write` counts the wants for
// writing from the first of these on: those among these are taken from it, and where none is left no want is looked at.
fn gather_written(
    wants: &[Want],
    sockets: &Sockets<TcpStream>,
    to_write: &mut usize,
    ready: &mut ReadyList,
)
    requires room { length ready.old.items + length wants.now ≤ ready.old.capacity }
    requires counted { count_to_write wants.now ≤ to_write.old }
    ensures counted { to_write.new + count_to_write wants.now ≡ to_write.old }
    ensures goes_on { (all rest : List Want) → GoesOn all (wants.now ++ rest) ready.old.items → GoesOn all rest ready.new.items }
    ensures begins { (first : List Want) → Begins first ready.old.items → Begins first ready.new.items }
    ensures few { length ready.new.items ≤ length ready.old.items + length wants.now }
    ensures capacity { ready.new.capacity ≡ ready.old.capacity }
    ensures ready { (link : Known) → AreReady link sockets.now.slots ready.old.items → AreReady link sockets.now.slots ready.new.items }
    ensures writes { (want : Want) → Contains wants.now want → want.write ≡ true → IsWritable sockets.now.slots want.of → TellsWrite ready.new.items want.of }
    ensures count { read_sockets ready.new.items ≡ read_sockets ready.old.items }
{
    for want in wants {
        if *to_write == 0 {
            break;
        }
        if want.write {
            let known = Known {
                read: false,
                write: sockets.look_up(want.of).write,
            };
            add_part(*want, known, ready);
            *to_write -= 1;
        }
    }
}

// The sockets of a list that are to be told: all of it, where they are at most so many; else those past the one that was told last.
fn in_turn<'a>(
    wants: &[Want],
    listed: &'a [Listed],
    sockets: &Sockets<TcpStream>,
    most: usize,
) -> &'a [Listed]
    ensures end { IsEndWanted wants.now listed.now result.now }
    ensures whole { length listed.now ≤ most → result.now ≡ listed.now }
{
    if listed.len() <= most {
        listed
    } else {
        from_wanted(wants, listed, sockets.next())
    }
}

// The sockets of a list from the first on that stands at the place or behind it and is wanted for reading; all of them, where none does.
fn from_wanted<'a>(wants: &[Want], listed: &'a [Listed], place: usize) -> &'a [Listed]
    ensures { IsEndWanted wants.now listed.now result.now }
{
    let start = place.min(listed.len());
    for at in start..listed.len() {
        if is_read(wants, listed[at].of) {
            return &listed[at..];
        }
    }
    listed
}

// Whether something is wanted for reading.
fn is_read(wants: &[Want], of: Who) -> bool
    ensures { result ≡ true → WantsRead wants.now of }
{
    match place_among(wants, of) {
        Some(at) => wants[at].read,
        None => false,
    }
}

// Where something stands among wants, which stand in their order.
fn place_among(wants: &[Want], of: Who) -> Option<usize>
    ensures place { IfSome result (λ at. at < length wants.now) }
    ensures of { IfSome result (λ at. (other : Want) → (slice_index_or wants.now at other).of ≡ of) }
    ensures none { AreInOrder wants.now → result ≡ None → (want : Want) → Contains wants.now want → want.of ≡ of → ⊥ }
{
    match wants.first() {
        Some(want) if want.of == of => Some(0),
        _ => match find_want(wants, of) {
            Ok(at) => Some(at),
            Err(_) => None,
        },
    }
}

// The place of something among wants, or where it would stand.
fn find_want(wants: &[Want], of: Who) -> Result<usize, usize>
    ensures range { IsSearchInRange result (length wants.now) }
    ensures position { IsBinarySearchResult (λ want. by_rank (rank_of want.of) (rank_of of)) wants.now result }
{
    wants.binary_search_by_key(&rank(of), |want| rank(want.of))
}

// Adds the part of a want that is ready, where there is one.
fn add_part(want: Want, known: Known, ready: &mut ReadyList)
    requires { length ready.old.items < ready.old.capacity }
    ensures adds { Adds want ready.old.items ready.new.items }
    ensures part { ready.new.items ≡ ready.old.items ++ as_list (part_in known.read known.write want) }
    ensures capacity { ready.new.capacity ≡ ready.old.capacity }
{
    if let Some(part) = part_of(want, known) {
        ready.add(part);
    }
}

// The part of a want that is ready, if any is.
fn part_of(want: Want, known: Known) -> Option<Want>
    ensures part { IfSome result (λ part. IsPart want part) }
    ensures each { result ≡ part_in known.read known.write want }
{
    let part = Want {
        of: want.of,
        read: want.read && known.read,
        write: want.write && known.write,
    };
    if part.read || part.write {
        Some(part)
    } else {
        None
    }
}
