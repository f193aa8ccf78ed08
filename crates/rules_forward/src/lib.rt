//! Which ports of the host lead to guests, and what adding one does: definitions alone, in `specs/`. No call is public.
#![tactic(auto)]

/// Why a forward isn't added, in the order in which the causes are asked.
#[derive(Clone, Copy, Debug, PartialEq, Eq)]
pub enum FwdFault {
    /// That port of the host is forwarded already, with this protocol.
    Taken,
    /// The address that it is to lead to isn't a guest's.
    BadGuest,
    /// As many are open as may be.
    Full,
    /// The host doesn't open the socket.
    Refused,
}
