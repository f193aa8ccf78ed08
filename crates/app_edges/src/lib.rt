//! Where the program meets its outside: a schedule is read from a file, the trace of a run is put, and what the program came to is told: its status, and the word that
//! a mistake in the words names.
//!
//! Proved:
//! - A file is read by rising places, and whole where octets are answered; where it can't be read, a call says so (`read_file`: `makes`, `few`).
//! - The trace of a run is put, and its status (`put_record`). It goes in puts of up to 16 KiB by `Gathering`, which holds what its sink holds and then what was
//!   gathered (`puts`, `fits`).
//! - Each outcome has its status (`Outcome::code`) and its text, put with a line feed where there is one (`tell`: `text`, `silent`): of words without a reading the
//!   first 200 octets of the one that is named, with its number (`named_word`), of a refused port what the settings call it. Without memory for the words it tells so
//!   and the status is 13 (`out_of_memory`: `status`, `told`). `put_help` and `put_version` put their texts.
//! - `StdSink` writes all of what is put and counts a fault exactly where it fails (`written`, `calm`, `puts`; `new`), as far as the writer tells what it holds.
//!
//! Only tested (`worked_edges`): that a put of `StdSink` is flushed.
//!
//! Let through (rt plant): nothing.
#![tactic(auto)]

mod fetching;
mod gathering;
mod help;
mod mistake;
mod naming;
mod outcome;
mod record;
mod status;
mod std_sink;

pub use fetching::{Unread, read_file};
pub use help::{put_help, put_version};
pub use naming::named_word;
pub use outcome::Outcome;
pub use record::put_record;
pub use status::{out_of_memory, tell};
pub use std_sink::StdSink;
