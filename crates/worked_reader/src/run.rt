use crate::cases::{Case, Cases};
use crate::judging::put_reads;
use crate::long_file::LongFile;
use replay::ScriptWorld;
use std::alloc::{AllocError, Global};
use std::fs::Files;
use std::io::Print;
use std::rt::Env;
use std::{env, fs, io};
use world_face::{VecSink, World};

/// Room for what a run puts, and for what it tells.
const ROOM: usize = 4_194_304;

const TOLD_ROOM: usize = 4_096;

/// The most octets of a schedule.
const MOST: usize = 67_108_864;

/// What runs: the words of a command line are followed on an outside.
pub trait Program {
    /// The status of the run.
    fn run<W: World>(
        &self,
        alloc: Global,
        words: &Vec<String>,
        world: &mut W,
        out: &mut VecSink,
        err: &mut VecSink,
    ) -> u8;
}

/// Runs the cases of the files that the words of our own command line name, and prints for each case a line with its file, its name, and whether it came to what it must
/// come to: `passed`, or what was otherwise.
pub fn run_files<R: Env + Files + Print + Alloc<A = Global>, P: Program>(
    rt: &R,
    program: &P,
) -> io::Result<()> {
    for name in env::args(rt)?.skip(1) {
        run_file(rt, program, name.as_str())?;
    }
    Ok(())
}

fn run_file<R: Files + Print + Alloc<A = Global>, P: Program>(
    rt: &R,
    program: &P,
    name: &str,
) -> io::Result<()> {
    let text = fs::read_to_string(rt, name)?;
    let cases = Cases::read(rt.alloc(), text.as_str())?;
    run_all(rt, program, name, cases.all())
}

fn run_all<R: Print + Alloc<A = Global>, P: Program>(
    rt: &R,
    program: &P,
    file: &str,
    cases: &[Case<'_>],
) -> io::Result<()> {
    let mut verdict = String::new(rt.alloc());
    for case in cases {
        verdict.clear();
        put_verdict(program, rt.alloc(), case, &mut verdict)?;
        println!(rt; "{file}: {}: {verdict}", case.name)?;
    }
    Ok(())
}

// Runs a case, and puts whether it came to what it must come to: `passed`, or what was otherwise.
fn put_verdict<P: Program>(
    program: &P,
    alloc: Global,
    case: &Case<'_>,
    into: &mut String,
) -> Result<(), AllocError> {
    match case.long {
        Some((length, reads)) => run_long(program, alloc, case, length, reads, into),
        None => run_schedule(program, alloc, case, into),
    }
}

// Runs a case on a file of this length, which is to be read so often.
fn run_long<P: Program>(
    program: &P,
    alloc: Global,
    case: &Case<'_>,
    length: u64,
    reads: u64,
    into: &mut String,
) -> Result<(), AllocError> {
    let mut world = LongFile::new(length);
    run_on(program, alloc, case, &mut world, into)?;
    put_reads(into, world.reads(), reads)
}

// Runs a case on its calls.
fn run_schedule<P: Program>(
    program: &P,
    alloc: Global,
    case: &Case<'_>,
    into: &mut String,
) -> Result<(), AllocError> {
    let mut outside = String::new(alloc);
    case.put_outside(alloc, &mut outside)?;
    if outside.len() > MOST {
        return into.push_str("FAILED: it is too long");
    }
    match ScriptWorld::read(alloc, outside.as_bytes()) {
        Ok(mut world) => run_on(program, alloc, case, &mut world, into),
        Err(_) => into.push_str("FAILED: the calls on the outside have no reading"),
    }
}

// Runs a case on its outside.
fn run_on<P: Program, W: World>(
    program: &P,
    alloc: Global,
    case: &Case<'_>,
    world: &mut W,
    into: &mut String,
) -> Result<(), AllocError> {
    let Ok(mut out) = VecSink::open(alloc, ROOM, case.refused) else {
        return Err(AllocError);
    };
    let Ok(mut err) = VecSink::open(alloc, TOLD_ROOM, None) else {
        return Err(AllocError);
    };
    run_into(program, alloc, case, world, &mut out, &mut err, into)
}

fn run_into<P: Program, W: World>(
    program: &P,
    alloc: Global,
    case: &Case<'_>,
    world: &mut W,
    out: &mut VecSink,
    err: &mut VecSink,
    into: &mut String,
) -> Result<(), AllocError> {
    let mut words = Vec::new(alloc);
    case.put_words(alloc, &mut words)?;
    let status = program.run(alloc, &words, world, out, err);
    case.put_verdict(alloc, into, status, out.octets(), err.octets())
}
