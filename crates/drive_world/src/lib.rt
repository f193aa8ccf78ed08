//! A World that is made from a number: it plays the guest, the host and the clock, and loses, repeats and holds back frames between guest and network.
//!
//! Proved:
//! - `DriveWorld` as a World that tells the number by which it answers, no call, and never fails (`answers` of the eighteen calls); `open`. Its counts: `up` rises by
//!   what each write to a connection offered, all of which is taken, `waits` by one at each wait, `down` and `wrong` only at a wait or a write. A wait is answered Stop
//!   from the 20,000,000th on.
//! - What becomes of a frame by its draw, one for each (`fate_by`, `draw`; `Way::send`, `Road::bring`: `draw`, `comes`, `lost`). The whole text of `summary`.
//! - `FaultWorld`, a World over any World, in which one call gets a fault: where the fault is due and the call can be answered so, it fails or is answered NotYet and
//!   the World below is as it was (`fails`, `waits`); a read or write of several octets asks the World below for one (`falls_short`); every other call is made below
//!   with this answer (`passes`). `fired` is true exactly where the fault was given, `given` the kind of its call; `new`, `inner`.
//!
//! Only tested: a run of the service on it (`drive`; the drills of `worked_runs` and `worked_faults`), and with a fault in each of its calls (`worked_faults`).
//! Neither: that the guest speaks TCP as RFC 9293 says, of `Road::send` which frames are drawn for, and that all octets come back.
//!
//! Let through (rt plant): calls that answer otherwise or do nothing, and a number of octets that `DriveWorld::open` doesn't keep.
#![tactic(auto)]

mod draws;
mod fault;
mod flow;
mod frames;
mod guest;
mod host;
mod pattern;
mod reporting;
mod road;
mod run;
mod world;

pub use fault::{FaultWorld, How, Kind};
pub use world::DriveWorld;
