// What of a wait is the control's: its sockets, its item among what is waited for, and what is reported of that.
ghost use Rattle.std.specs.Prelude.{◌≡◌, ◌∷◌, []};
ghost use Rattle.std.specs.List.{list_any};
ghost use Rattle.rules_control.specs.Apart.{is_of_control, takes_item};
ghost use Rattle.rules_control.specs.Reports.{tells_lines, tells_peer, tells_room};

use crate::LISTENER;
use poll_list::{Want, Who};
use world_face::MOST_WANTS;

/// What the last wait reported of the control's item.
#[derive(Clone, Copy)]
pub struct Reported {
    /// A peer waits at the listener.
    pub peer: bool,
    /// Octets of lines came on the connection.
    pub lines: bool,
    /// The connection takes octets of a reply.
    pub room: bool,
}

/// Whether this is a socket of the control's.
pub fn is_of_control(who: Who) -> bool
    ensures { result ≡ is_of_control who }
{
    match who {
        Who::Link => false,
        Who::Listener(number) | Who::Udp(number) | Who::Tcp(number) => number >= LISTENER,
    }
}

// Whether one of these wants is the control's.
fn has_controls(wants: &[Want]) -> bool
    ensures { result ≡ list_any (λ want. is_of_control want.of) wants.now }
{
    wants.iter().any(|want| is_of_control(want.of))
}

/// Whether the control's item can be put among these wants: there is room, and none of them is the control's.
pub fn takes_item(wants: &[Want]) -> bool
    ensures { result ≡ takes_item wants.now }
{
    wants.len() < MOST_WANTS && !has_controls(wants)
}

/// What the control learns from this part of its item.
pub fn reports_of(item: Want) -> Reported
    ensures peer { result.peer ≡ tells_peer (item ∷ []) }
    ensures lines { result.lines ≡ tells_lines (item ∷ []) }
    ensures room { result.room ≡ tells_room (item ∷ []) }
{
    let is_listener = matches!(item.of, Who::Listener(_));
    let is_connection = matches!(item.of, Who::Tcp(_));
    Reported {
        peer: is_listener && item.read,
        lines: is_connection && item.read,
        room: is_connection && item.write,
    }
}
