//! Messages of clients of DHCP, and what the server answers to each, worked out by hand. Each word of the command line names a file of cases in the folder where this
//! runs; each case is a server of its own that gets its messages in turn, and a line tells whether each was answered as it was to be. How a file of cases is written
//! stands at `Case`.
//!
//! Proved: nothing but that it is safe and returns. It tests replies of `dhcp_server` octet for octet.
#![tactic(auto)]

mod cases;
mod server;

use std::{env, fs, io};

fn main(rt: HostRuntime) -> io::Result<()> {
    for name in env::args(&rt)?.skip(1) {
        let text = fs::read_to_string(&rt, name.as_str())?;
        let cases = cases::read(rt.alloc(), text.as_str())?;
        for case in cases.iter() {
            let verdict = server::verdict(rt.alloc(), case)?;
            println!(rt; "{name}: {}: {verdict}", case.name)?;
        }
    }
    Ok(())
}
