//! The program: its words, the sockets, files and clock of the system, and the runtime's output.
//!
//! Proved: without memory for its words it tells so and answers 13 (`out_of_memory` of `app_edges`: `status`, `told`). Only tested: the stored run.
#![tactic(auto)]

use net_octets::NoMemory;
use net_world::NetWorld;
use slirp_app::{StdSink, out_of_memory, slirp_main};
use std::alloc::Global;
use std::env;
use std::io::ErrorKind;
use std::process::ExitCode;
use std::rt::Env;

fn main(rt: HostRuntime) -> ExitCode {
    let mut err = StdSink::new(rt.stderr());
    let Ok(words) = words_of(&rt) else {
        return ExitCode::from(out_of_memory(&mut err));
    };
    let Ok(mut world) = NetWorld::open(&rt, rt.alloc()) else {
        return ExitCode::from(out_of_memory(&mut err));
    };
    let mut out = StdSink::new(rt.stdout());
    ExitCode::from(slirp_main(rt.alloc(), &words, &mut world, &mut out, &mut err))
}

// The words after the program's name. Words that aren't text are none.
fn words_of<R: Env + Alloc<A = Global>>(rt: &R) -> Result<Vec<String>, NoMemory> {
    let mut words = Vec::new(rt.alloc());
    match env::args(rt) {
        Ok(args) => {
            for word in args.skip(1) {
                if words.push(word).is_err() {
                    return Err(NoMemory);
                }
            }
        }
        Err(error) if error.kind() == ErrorKind::OutOfMemory => return Err(NoMemory),
        Err(_) => {}
    }
    Ok(words)
}
