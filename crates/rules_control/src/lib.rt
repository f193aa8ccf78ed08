//! What the lines of a control connection ask for, what is kept of it, and what the network sees of a trace: what is said of these is in `specs/`.
//!
//! Proved, each exactly: whether a forward has the control's own port of the host (`is_its_own`), whether a socket is its own (`is_of_control`), whether its item can
//! be put among what a wait is for (`takes_item`), and what it learns from what was reported of that (`reports_of`: `peer`, `lines`, `room`). All else is definitions.
//!
//! Let through (rt plant): nothing.
#![tactic(auto)]

mod waits;

ghost use Rattle.std.specs.Prelude.{◌≡◌, ◌&&◌};
ghost use Rattle.slirp_settings.specs.Classes.{same_endpoint};
ghost use Rattle.slirp_settings.specs.Ranges.{same_proto};
ghost use Rattle.slirp_settings.specs.declared.Proto.TheVariants.{Tcp};

pub use crate::waits::{Reported, is_of_control, reports_of, takes_item};
use net_octets::Endpoint;
use slirp_settings::{Forward, Proto};

/// The number of the control's listener; those of its connections are drawn upward behind it.
pub const LISTENER: u64 = 1 << 63;

/// What a line asks for.
#[derive(Clone, Copy)]
pub enum Command {
    /// A port of the host is to be given to a guest.
    Add(Forward),
    /// A port of the host that was given to a guest is to be taken back.
    Remove(Proto, Endpoint),
    /// The ports that are given to guests are to be told, and the connections.
    List,
    /// Nothing that is known here.
    What,
}

/// Whether a forward has the control's own port of the host, which is taken at this place.
pub fn is_its_own(forward: &Forward, at: Endpoint) -> bool
    ensures { result ≡ (same_proto forward.now.proto Tcp && same_endpoint forward.now.host at) }
{
    forward.proto == Proto::Tcp && forward.host == at
}
