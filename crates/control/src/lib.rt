//! The control's connection: what comes on it and goes out, what its lines ask for, what is answered, and the World on which the network runs beside it.
//!
//! - `Session`: a listener of the host's with one connection at a time, on which lines come and replies go.
//! - `read_command`: what a line asks for. `added_text`, `removed_text`, `forward_line`, `flow_line`: what is answered, as text.
//! - `Aside`: a World over another World. Each wait is for what the control waits for, too, and what is reported of that is set aside for it. The network sees its
//!   own wants and reports alone.
//!
//! Proved:
//! - `Session`, over any World: each method makes the call of its name, or none, with a close where that was the last, and keeps what the answer makes of the
//!   connection (`listen`, `accept`, `read`, `write`, `close_all`, by `Talk`). `line` is the one that is to be answered now (`none`, `some`, by `is_to_answer`), `want`
//!   what is waited for. `open`, `listens`, `connection`, `drop_line`, `reply` exactly.
//! - `read_command` answers what a line means (`Means`), which is one thing (`a_line_asks_for_one_thing`); each line has one (proofs/Reading). Replies have their
//!   texts (`added_text`, `removed_text`, `forward_line`, `flow_line`: `text`, `short`).
//! - An `Aside` passes each call on: what was made below is what the network saw, but for the control's item in each wait, whose reports it sets aside (`passed`;
//!   `new`, `begin`, `reported`, `into_world`).
//!
//! Only tested, by `worked_runs` (`control`): where its item stands in a wait.
#![tactic(auto)]

mod aside;
mod command;
mod line;
mod reply;
mod session;
mod texts;
mod waits;

pub use aside::Aside;
pub use command::{a_line_asks_for_one_thing, read_command};
pub use session::{LONGEST_REPLY, Session};
pub use texts::{added_text, flow_line, forward_line, removed_text};
