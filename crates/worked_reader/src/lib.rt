//! Cases of whole runs: files of cases are read, each case is run by a program that is handed in, over any World, and what it came to is judged. How a file of cases is
//! written stands at `Cases`.
//!
//! Proved: nothing but that each call is safe and returns: `run_files`, which runs the cases of files by a `Program` (`run`); `Cases::read`, `all`; what a case has and
//! what it came to, as text: `put_outside`, `put_words`, `put_verdict`.
#![tactic(auto)]

mod cases;
mod judging;
mod long_file;
mod run;

pub use cases::{Case, Cases, Puts};
pub use run::{Program, run_files};
