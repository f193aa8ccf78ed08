//! Cases of one connection with a guest that were worked out by hand, from RFC 9293 and its neighbours: a state, what happens in it, and what follows. Each word of the
//! command line names a file of cases in the folder where this runs; each case is run on a connection of `tcp_connection`, and a line tells whether it came to what it
//! was to come to. How a file of cases is written stands at `Cases`.
//!
//! Proved: nothing but that it is safe and returns. It tests one connection through the public calls of `tcp_connection`: 377 cases.
#![tactic(auto)]

mod cases;
mod opening;
mod owner;
mod run;
mod steps;
mod writing;

use cases::Cases;
use std::{env, fs, io};

fn main(rt: HostRuntime) -> io::Result<()> {
    for name in env::args(&rt)?.skip(1) {
        let text = fs::read_to_string(&rt, name.as_str())?;
        let cases = Cases::read(rt.alloc(), text.as_str())?;
        for case in cases.all() {
            let verdict = run::verdict(rt.alloc(), case)?;
            println!(rt; "{name}: {}: {verdict}", case.name)?;
        }
    }
    Ok(())
}
