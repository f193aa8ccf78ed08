ghost use Rattle.std.specs.Prelude.{◌≤◌};

use crate::run::{Ran, put_drill, run_with};
use drive_world::{How, Kind};
use serve_loop::End;
use std::alloc::{AllocError, Global};

/// The most octets of a drill.
const MOST_OCTETS: u64 = 10_000_000;

/// Before this call a run has to be over.
const MOST_CALLS: u64 = 1_000_000;

/// Puts what a case came to.
pub fn put_verdict(told: &mut String, alloc: Global, line: &str) -> Result<(), AllocError> {
    let (asked, wanted) = line.split_once(" = ").unwrap_or((line, ""));
    let mut words = asked.split_whitespace();
    let verb = words.next().unwrap_or("");
    let (number, octets) = (number_of(words.next()), number_of(words.next()));
    let (Some(number), Some(octets)) = (number, octets) else {
        return told.push_str("no case");
    };
    if octets > MOST_OCTETS {
        return told.push_str("too many octets");
    }
    if verb == "drill" {
        return put_drill(told, alloc, number, octets);
    }
    match how_of(verb) {
        Some(how) => put_faulted(told, alloc, how, number, octets, wanted),
        None => told.push_str("no case"),
    }
}

// The number that a word says, if it says one.
fn number_of(word: Option<&str>) -> Option<u64> {
    word?.parse::<u64>().ok()
}

// The fault of a case that begins with this word, if it is one with a fault.
fn how_of(verb: &str) -> Option<How> {
    match verb {
        "fail" => Some(How::Fail),
        "short" => Some(How::Short),
        "not_yet" => Some(How::NotYet),
        _ => None,
    }
}

// Gives the fault to each call in turn that can get it, and puts whether each run came to what it was to come to.
fn put_faulted(
    told: &mut String,
    alloc: Global,
    how: How,
    number: u64,
    octets: u64,
    wanted: &str,
) -> Result<(), AllocError>
    requires { octets ≤ 10000000 }
{
    for at in 0..MOST_CALLS {
        let ran = run_with(alloc, how, at, number, octets)?;
        let Some(kind) = ran.given else {
            return told.push_str(over_at(at));
        };
        if !is_met_by_any(wanted, kind, &ran) {
            return put_missed(told, at, kind, &ran);
        }
    }
    told.push_str("FAILED: it never ended without a fault")
}

// Whether a run with the fault at a call of this kind came to what one of the parts wants.
fn is_met_by_any(wanted: &str, kind: Kind, ran: &Ran) -> bool {
    for one in wanted.split(',') {
        if is_met(one, kind, ran) {
            return true;
        }
    }
    false
}

// What is told of a case whose run made no call from this number on that could get the fault.
fn over_at(at: u64) -> &'static str {
    if at == 0 {
        "FAILED: no call got the fault"
    } else {
        "passed"
    }
}

// Puts that a run came to something else.
fn put_missed(told: &mut String, at: u64, kind: Kind, ran: &Ran) -> Result<(), AllocError> {
    put_part(told, "FAILED: with the fault from call ", at)?;
    told.push_str(" on, of the ")?;
    told.push_str(kind_name(kind))?;
    told.push_str(", it came to ")?;
    told.push_str(name_of(ran.end))?;
    put_part(told, ", up ", ran.up)?;
    put_part(told, ", down ", ran.down)?;
    put_part(told, ", wrong ", ran.wrong)
}

// Puts a number behind a text.
fn put_part(told: &mut String, before: &str, number: u64) -> Result<(), AllocError> {
    write!(told, "{before}{number}")
}

// Whether a run with the fault at a call of this kind came to what is wanted of that kind.
fn is_met(wanted: &str, kind: Kind, ran: &Ran) -> bool {
    let mut words = wanted.split_whitespace();
    if words.next() != Some(kind_name(kind)) || words.next() != Some(name_of(ran.end)) {
        return false;
    }
    match (number_of(words.next()), number_of(words.next())) {
        (Some(up), Some(down)) => ran.up >= up && ran.down >= down && ran.wrong == 0,
        _ => false,
    }
}

fn kind_name(kind: Kind) -> &'static str {
    match kind {
        Kind::Link => "link",
        Kind::Wait => "wait",
        Kind::Socket => "socket",
        Kind::File => "file",
    }
}

fn name_of(end: End) -> &'static str {
    match end {
        End::Done => "done",
        End::TooLong(_) => "too_long",
        End::Cut(_) => "cut",
        End::LinkFault => "link_fault",
        End::WaitFault => "wait_fault",
        End::TurnsSpent(_) => "turns_spent",
        End::ListenRefused(_) => "listen_refused",
        End::ControlRefused => "control_refused",
    }
}
