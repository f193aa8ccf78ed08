//! The core of the network: what a guest's frames and its peers' datagrams ask for, the flows of TCP, and what isn't out yet.
//!
//! Proved:
//! - `Slirp::listen_all`, `input`, `accept`, `receive_datagram`, `send_again`, `take_report`, `tick`, `pump` and `close_all` keep the relation between what the
//!   network has, its flows of TCP included, and the calls made (`Holds`: `makes`). `Slirp::new` has nothing; `tell_moment`, `is_settled` and `pending` exactly. Of
//!   `let_go` no clause says anything.
//! - `listen_all`: the settings' ports of the host are opened in order, each with the number of its place. The first that the host refuses is answered, the count of
//!   the sockets' faults rose, and none behind it is opened (`makes`, `counted`).
//! - `input`: after the reads that brought this frame all that it owes is owed, its datagram went out or was served, and its segment was taken by its flow (`makes`,
//!   from `FrameCame`). A segment goes to `TcpFlows::receive`, and one that is turned away there is answered by a reset (`take_segment`: `makes`,
//!   `number`). A message of a client of DHCP changes the
//!   leases, which are those of the trace, and owes its reply as the laws say (`take_message`). Calls on files are exactly those that a packet asks for (`take_file`:
//!   `serves`).
//! - `accept`: what it calls is lawful (`makes`); where a flow has room a peer is asked for on that listener, once (`asks`); one that came begins a flow with the
//!   next number, or is refused, exactly where it would pass for a guest or a flow has its two ends, and closed at once (`treats`).
//! - `take_report`, `accept` and `receive_datagram`: nothing is left of the report by which they came (`ServesOnce`, `is_left_to_read`), but of a flow that was told
//!   before in this turn (`marks`, `told`, `untold`, `stays`). `receive_datagram` asks for a datagram, once, on the open socket of a port of the host, an association
//!   or a question, which is closed where it answers (`receives`).
//! - `pump` sends all that is owed, then what flows owe, by rising number. After Clear nothing of an answer is left and no flow owes a frame, after Blocked the link
//!   is blocked (`leaves`, `clear`, `free`). After Clear each flow of the trace has sent, acknowledged and told all, or was asked for its guest's hardware address, and
//!   is in time if its timer wasn't due (`settled`, `ahead`).
//! - `send_again`: where nothing is left to be sent the packet of the longest unused transfer that is due is owed and counted (`holds`, `fewer`, `still`, `none`).
//! - `pollfds_fill`: what is waited for, no flow's socket twice, what flows wait for by the trace, and how long (`items`, `once`, `waited_for`, `timeout`). It is a
//!   `TurnWants`, whose parts are exact: `open`, `list`, `items`, `of_listeners`, `of_datagrams`, `of_flows`.
//! - `add_hostfwd`, `remove_hostfwd` keep it after a wait, for all settings that have the forward with its number, or its socket as taken back (`makes`: `MayAdd`,
//!   `MayRemove`; `adds`, `closes`); where the host refuses a port the count of the sockets' faults rose (`counted`). `forward`: the k-th in force, 32 at most (`at`,
//!   `few`). `flow_after`: the flow of the trace that is in use with the next number (`next`, by `IsNextFlow`; `drawn`).
//! - `tick`: sockets are closed by rising number, those of flows first (`rising`); none is left of an association or a question past its life (`none`, `unasked`);
//!   transfers that went again five times and are due once more are gone (`over`); time closes no flow (`in_time`); no socket was served in the turn that begins
//!   (`unserved`).
//! - `close_all`, once a run is over, closes all sockets by rising number, whatever they are for, and does nothing else (`makes`, `ClosesAll`, `AreCloses`); where
//!   only ports of the host are open, in their order, whether the run has ended or not (`ports`).
//! - `held` copies what the host hasn't taken, None exactly where no flow's open socket has the number (`none`, `held`, `front`).
//! - A wait for what `pollfds_fill` lists, as long as it answers, is as it must be, where what the loop carries holds (lemma `must_wait`; docs/RELATIONS.md, What a
//!   wait needs).
//!
//! Only tested, by `bench/room`: a full table of flows, with Linux as the guest.
//!
//! Let through (rt plant): after `close_all` another moment or identification, which nothing reads any more; private `are_same` and `holds_for` that always say no.
#![tactic(auto)]

mod arp;
mod datagrams;
mod files;
mod forwards;
mod fragments;
mod icmp;
mod network;
mod opening;
mod sending;
mod tcp;
mod timeouts;
mod udp;
mod wants;

pub use fragments::LONGEST_ASSEMBLED;
pub use network::Slirp;
pub use port_forward::NotThere;
pub use rules_forward::FwdFault;
pub use wants::TurnWants;
