//! Runs of the network on a World that is made from a number. Each word names a file of cases in the folder where this runs, each a line; a line that begins with `#`
//! is a remark, an empty one nothing.
//!
//! `drill NUMBER OCTETS`: the guest sends OCTETS octets. What the World counted is printed, before the run and behind it.
//!
//! `fail NUMBER OCTETS = KIND END UP DOWN, ..`: the same, once for each call of the run that can fail, which then does; likewise `short` and `not_yet`. KIND is `link`,
//! `wait`, `socket` or `file`: where a call of this kind got the fault the run has to end so, UP octets at least have to come to the host and DOWN to the guest, and
//! none may be wrong. A line tells whether each run came to that.
//!
//! Proved: nothing but that it is safe and returns. It tests the service over a `DriveWorld`, and with a fault in each of its calls.
#![tactic(auto)]

mod case;
mod run;

use std::{env, fs, io};

fn main(rt: HostRuntime) -> io::Result<()> {
    for name in env::args(&rt)?.skip(1) {
        run_file(&rt, name.as_str())?;
    }
    Ok(())
}

// Runs the cases of a file.
fn run_file(rt: &HostRuntime, name: &str) -> io::Result<()> {
    let text = fs::read_to_string(rt, name)?;
    run_lines(rt, name, text.as_str())
}

fn run_lines(rt: &HostRuntime, name: &str, text: &str) -> io::Result<()> {
    for line in text.lines() {
        if !line.is_empty() && !line.starts_with('#') {
            run_case(rt, name, line)?;
        }
    }
    Ok(())
}

fn run_case(rt: &HostRuntime, name: &str, line: &str) -> io::Result<()> {
    let mut verdict = String::new(rt.alloc());
    case::put_verdict(&mut verdict, rt.alloc(), line)?;
    println!(rt; "{name}: {line}: {verdict}")
}
