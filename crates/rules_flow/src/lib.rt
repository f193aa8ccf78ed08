//! What is decided of a flow: how many may be those of peers, which gives way, how often its guest's hardware address is asked for, and what a socket that can be
//! written is for. What is said of it is in `specs/`.
//!
//! Proved: each function answers exactly what its definition says (`specs/Choices`), in one clause:
//! - how many of so many flows may be those of peers (`most_for_peers`), and which of two flows that may give way goes first, by the last sign of life and then the
//!   number (`is_before`, `earlier_quiet`);
//! - whether a guest's hardware address is asked for once more, nine times at most (`may_ask`);
//! - what a socket that can be written is for: whether it connected, then octets of the guest, then its end, and so no end before the octets (`host_work`);
//! - whether a want changed (`same_ways`), and whether a moment is still to come (`if_after`).
//!
//! Only tested: no test is of these; whole runs (`worked_runs`) go by each of them.
//!
//! Let through (rt plant): nothing.
#![tactic(auto)]

ghost use Rattle.std.specs.Prelude.{◌≡◌, nat_lt};
ghost use Rattle.rules_flow.specs.Choices.{earlier_quiet, host_work, if_after, is_before, most_for_peers, most_requests, same_ways};

/// How often a guest's hardware address is asked for.
pub const REQUESTS: u8 = 9;

/// An open flow that may give way: its slot, the moment of its last sign of life in milliseconds, and the number of its socket.
#[derive(Clone, Copy)]
pub struct Quiet {
    pub slot: usize,
    pub last: u64,
    pub number: u64,
}

/// What a flow waits for: on its socket to read and to write, where that is open; and for its guest's hardware address.
#[derive(Clone, Copy)]
pub struct Waits {
    pub read: bool,
    pub write: bool,
    pub mac: bool,
}

impl Waits {
    /// Nothing is waited for.
    pub const NONE: Waits = Waits {
        read: false,
        write: false,
        mac: false,
    };
}

/// What a socket that can be written is for.
#[derive(Clone, Copy)]
pub enum HostWork {
    /// To ask whether it has connected.
    Join,
    /// To write octets of the guest.
    Octets,
    /// To tell the guest's end.
    End,
    /// Nothing.
    Nothing,
}

/// Of so many flows a quarter, rounded down, is kept for those that guests open: peers have the others at most.
pub fn most_for_peers(flows: usize) -> usize
    ensures { result ≡ most_for_peers flows }
{
    flows - flows / 4
}

/// Whether a guest's hardware address is asked for (RFC 826) after so many requests: nine are made at most.
pub fn may_ask(asked: u8) -> bool
    ensures { result ≡ nat_lt asked most_requests }
{
    asked < REQUESTS
}

/// A moment, if it is after this one; in milliseconds.
pub fn if_after(now: u64, at: Option<u64>) -> Option<u64>
    ensures { result ≡ if_after now at }
{
    let at = at?;
    if at > now { Some(at) } else { None }
}

/// What a socket that can be written is for: one that is to connect is asked whether it has, octets of the guest go before the guest's end.
pub fn host_work(connects: bool, owes_octets: bool, owes_end: bool) -> HostWork
    ensures { result ≡ host_work connects owes_octets owes_end }
{
    if connects {
        HostWork::Join
    } else if owes_octets {
        HostWork::Octets
    } else if owes_end {
        HostWork::End
    } else {
        HostWork::Nothing
    }
}

/// Whether a flow gives way before another: the earlier last sign of life goes before, of the same moment the lesser number.
pub fn is_before(one: &Quiet, other: &Quiet) -> bool
    ensures { result ≡ is_before one.now other.now }
{
    one.last < other.last || (one.last == other.last && one.number < other.number)
}

/// The one of two that gives way before the other, or the one that there is.
pub fn earlier_quiet(first: Option<Quiet>, other: Option<Quiet>) -> Option<Quiet>
    ensures { result ≡ earlier_quiet first other }
{
    match (first, other) {
        (Some(first), Some(other)) => Some(if is_before(&other, &first) {
            other
        } else {
            first
        }),
        (Some(first), None) => Some(first),
        (None, other) => other,
    }
}

/// Whether the same is waited for on a socket.
pub fn same_ways(one: Waits, other: Waits) -> bool
    ensures { result ≡ same_ways one other }
{
    one.read == other.read && one.write == other.write
}
