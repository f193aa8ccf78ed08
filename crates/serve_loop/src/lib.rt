//! The loop that serves a guest: from a wait to what it reported, and to the next wait.
//!
//! Proved:
//! - `Service::serve`: the calls made are lawful for the settings, flows of TCP included, each wait is as it must be, nothing more is to be done at the end, each
//!   `End` is the one that the trace tells (`makes`), and what a World told of them is lawful, also followed by the call at which it ceased (`served`), and dutiful in
//!   the same way (`attended`). An end by a fault or a refused port comes only where its count rose (`faults`).
//! - `Service::start` opens the ports of the host (`listen`) and asks for the moment (`begin`), or ends the run where one is refused, closing the others (`makes`).
//! - `turn`, and between two turns `add_hostfwd` and `remove_hostfwd`, keep the relation (`makes`). Where a turn ends the run all sockets are closed, it made one
//!   wait at most and drew no more numbers than the network then has (`AfterWholeTurn`), else the ports of the host stay (`forwards`). `forward`, `flow_after`,
//!   `close_all` as in the core. `Service::open` has served nothing (`new`, `config`); of `let_go` no clause says anything.
//! - A report counts exactly in the directions that were wanted (`counted`, `waits_for`, `waits_for_peers`), and is served before the next wait (`ServesNow`,
//!   `IsLeftAmong`; `work`: `makes`, `ServedAfter`; `AttendsNow`). Of an item of which nothing was waited for no call comes, and no pump (`passed`).
//! - A turn waits only where no packet of a file is due to go again, or something is left to be sent (`none` of `send_all`), and where nothing is left unless the
//!   link is blocked (`sent`). After each turn that goes on no flow owes a frame, unless the link is blocked (`calm` of `turn` and of `attend`).
#![tactic(auto)]

mod forwards;
mod reports;
mod service;

pub use service::{End, Service, Turn};
pub use slirp_core::{FwdFault, NotThere};
