//! Whether something stands in a list of what is waited for, or of what became ready.
ghost use Rattle.std.specs.Prelude.{◌≡◌, true};
ghost use Rattle.poll_list.specs.Listing.{goes, is_among, is_of};

use crate::{Want, Way, Who};

/// Whether this is among them in a direction. It is found by halving where they stand by rising number, and only what isn't found so is looked for among all.
pub fn is_among(wants: &[Want], of: Who, way: Way) -> bool
    ensures { result ≡ is_among of way wants.now }
{
    is_found(wants, of, way) || is_anywhere(wants, of, way)
}

// Whether it is found where it would stand.
fn is_found(wants: &[Want], of: Who, way: Way) -> bool
    ensures { result ≡ true → is_among of way wants.now ≡ true }
{
    match place_of(wants, of) {
        Some(place) => is_at(wants, place, of, way),
        None => false,
    }
}

fn is_anywhere(wants: &[Want], of: Who, way: Way) -> bool
    ensures { result ≡ is_among of way wants.now }
{
    wants.iter().any(|want| is_of(want, of, way))
}

// Where something would stand by its number, the link first.
fn place_of(wants: &[Want], of: Who) -> Option<usize> {
    match wants.first() {
        Some(want) if want.of == of => Some(0),
        _ => wants
            .binary_search_by_key(&socket_of(of), |want| socket_of(want.of))
            .ok(),
    }
}

// The number of the socket that an item is of.
fn socket_of(who: Who) -> Option<u64> {
    match who {
        Who::Link => None,
        Who::Listener(number) | Who::Udp(number) | Who::Tcp(number) => Some(number),
    }
}

fn is_at(wants: &[Want], place: usize, of: Who, way: Way) -> bool
    ensures { result ≡ true → is_among of way wants.now ≡ true }
{
    let Some(want) = wants.get(place) else {
        return false;
    };
    is_of(want, of, way)
}

// Whether a want is of this, in a direction.
fn is_of(want: &Want, of: Who, way: Way) -> bool
    ensures { result ≡ is_of of way want.now }
{
    want.of == of && goes(want, way)
}

fn goes(want: &Want, way: Way) -> bool
    ensures { result ≡ goes way want.now }
{
    match way {
        Way::Read => want.read,
        Way::Write => want.write,
    }
}
