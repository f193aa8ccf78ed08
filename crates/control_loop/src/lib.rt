//! The network of a guest from its opening to its end: the loop that serves it, and the control connection where the settings have one.
//!
//! Where there is a control the network runs on a World over the World (`control`), and the control is served between two turns: what the wait of a turn reported of it
//! gets its one call, and a line that is whole then is answered. So the network's own laws hold of what it sees, and the control's of all that is called
//! (`spec_control`).
//!
//! Proved:
//! - `Network::serve`, over any World: the calls are those of one run that came to this end (`makes`, by `IsRun`), and at a fault or a refused port its count rose
//!   (`faults`). Without a control that run is lawful, dutiful and finished, the end the one that it tells (`RunsAlone`). With one, for every reading of lines
//!   (`RunsWith`): each call may come (`MayControl`), what the network sees is such a run for the settings with all that was added and taken back, and the control's
//!   sockets are closed (`RunsBy`); or all ports were opened, the control's was refused, and each was closed (`Refuses`). `Network::open` keeps the settings; of
//!   `let_go` no clause says anything.
//! - So replies are offered in order, and what a wait reported of the control is served before the next.
//!
//! Neither: that who connects gets replies in time.
#![tactic(auto)]

mod attending;
mod control_server;
mod network;

pub use network::Network;
pub use serve_loop::End;
