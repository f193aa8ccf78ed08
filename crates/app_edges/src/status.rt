// What the program came to, as text.
#![tactic(auto, using(world_face::proofs::Putting::puts_then, world_face::proofs::Putting::puts_failed, replay::proofs::Putting::added_none))]

ghost use Rattle.std.specs.Prelude.{◌≡◌, ◌++◌, ◌∷◌, [], map, codes, decimal, option_copied, slice_get};
ghost use Rattle.std.specs.String.{string_bytes};
ghost use Rattle.replay.specs.Names.{name_text};
ghost use Rattle.world_face.specs.Puts.{Puts};
ghost use Rattle.app_edges.specs.Texts.{Got, port_text, text_of, told_text, wanted_text};
ghost use Rattle.app_edges.specs.declared.outcome.Outcome.TheVariants.{Diverged as IsDiverged, NoMemory as OfMemory, Usage as IsUsage};

use crate::Outcome;
use crate::mistake::{put_forward, tell_mistake};
use command_words::Stop;
use itoa::Buffer;
use replay::{CallName, Divergence};
use slirp_settings::Forward;
use world_face::{Failed, Sink};

/// Puts the text that tells what the program came to, with a line feed, of these words of the command line, whose settings have these forwards. There is
/// none where all went well or a sink failed.
pub fn tell<E: Sink>(
    outcome: &Outcome,
    words: &[String],
    forwards: &[Forward],
    err: &mut E,
) -> Result<(), Failed>
    ensures text { Puts (E.holds err.old) (E.holds err.new) (E.faults err.old) (E.faults err.new) (told_text (map string_bytes words.now) forwards.now outcome.now) result }
    ensures silent { text_of (map string_bytes words.now) forwards.now outcome.now ≡ [] → (E.holds err.new ≡ E.holds err.old) × (E.faults err.new ≡ E.faults err.old) }
{
    match outcome {
        Outcome::Done | Outcome::SinkFault => Ok(()),
        Outcome::Usage(stop) => tell_usage(err, words, *stop),
        Outcome::BadConfig(setting) => {
            tell_named(err, b"slirpd: config: ", setting.name(), b"\n")
        }
        Outcome::ScheduleRead | Outcome::ScheduleTooLarge => {
            err.put(b"slirpd: schedule cannot be read\n")
        }
        Outcome::ScheduleLine(line) => tell_number(err, b"slirpd: schedule line ", *line, b"\n"),
        Outcome::Diverged(divergence) => tell_divergence(err, *divergence),
        Outcome::FrameTooLong(length) => tell_number(
            err,
            b"slirpd: frame of ",
            *length as u64,
            b" octets\n",
        ),
        Outcome::FrameCut(octets) => tell_number(
            err,
            b"slirpd: link ended inside a frame, ",
            *octets as u64,
            b" octets\n",
        ),
        Outcome::LinkFault => err.put(b"slirpd: link fault\n"),
        Outcome::WaitFault => err.put(b"slirpd: wait fault\n"),
        Outcome::TurnsSpent(turns) => tell_number(err, b"slirpd: ", *turns, b" turns spent\n"),
        Outcome::ListenRefused(forward) => tell_refused(err, *forward, forwards),
        Outcome::NoMemory => err.put(b"slirpd: out of memory\n"),
        Outcome::ControlRefused => err.put(b"slirpd: control refused\n"),
    }
}

/// What the program comes to where there is no memory for its words: it tells so, and the status is 13.
pub fn out_of_memory<E: Sink>(err: &mut E) -> u8
    ensures status { result ≡ 13 }
    ensures told { Got [] [] (E.holds err.old) (E.holds err.new) (E.faults err.old) (E.faults err.new) OfMemory }
{
    let _told = tell(&Outcome::NoMemory, &[], &[], err);
    Outcome::NoMemory.code()
}

/// The line that says how the words of the command line are written, where they have no reading.
const USAGE: &[u8] =
    b"usage: slirpd serve --link AT [OPTIONS] [RULE]... | replay FILE [OPTIONS] [RULE]... | drive NUMBER OCTETS\n";

// The word that has no reading, and how words are written.
fn tell_usage<E: Sink>(err: &mut E, words: &[String], stop: Stop) -> Result<(), Failed>
    ensures { Puts (E.holds err.old) (E.holds err.new) (E.faults err.old) (E.faults err.new) (told_text (map string_bytes words.now) [] (IsUsage stop)) result }
{
    tell_mistake(err, words, stop)?;
    err.put(USAGE)
}

// Which port of the host was refused.
fn tell_refused<E: Sink>(err: &mut E, number: usize, forwards: &[Forward]) -> Result<(), Failed>
    ensures { Puts (E.holds err.old) (E.holds err.new) (E.faults err.old) (E.faults err.new)
        (codes "slirpd: forward " ++ decimal number ++ codes " refused" ++ port_text (slice_get forwards.now number) ++ 10 ∷ []) result }
{
    tell_number(err, b"slirpd: forward ", number as u64, b" refused")?;
    tell_port(err, forwards.get(number))?;
    err.put(b"\n")
}

fn tell_port<E: Sink>(err: &mut E, forward: Option<&Forward>) -> Result<(), Failed>
    ensures { Puts (E.holds err.old) (E.holds err.new) (E.faults err.old) (E.faults err.new) (port_text (option_copied forward.entry)) result }
{
    match forward {
        Some(forward) => {
            err.put(b": ")?;
            put_forward(err, forward)
        }
        None => err.put(b""),
    }
}

// A name between two texts.
fn tell_named<E: Sink>(err: &mut E, before: &[u8], name: &str, after: &[u8]) -> Result<(), Failed>
    ensures { Puts (E.holds err.old) (E.holds err.new) (E.faults err.old) (E.faults err.new) (before.now ++ name.now ++ after.now) result }
{
    err.put(before)?;
    err.put(name.as_bytes())?;
    err.put(after)
}

/// Puts a number between two texts.
pub(crate) fn tell_number<E: Sink>(
    err: &mut E,
    before: &[u8],
    number: u64,
    after: &[u8],
) -> Result<(), Failed>
    ensures { Puts (E.holds err.old) (E.holds err.new) (E.faults err.old) (E.faults err.new) (before.now ++ decimal number ++ after.now) result }
{
    let mut digits = Buffer::new();
    err.put(before)?;
    err.put(digits.format(number).as_bytes())?;
    err.put(after)
}

fn tell_divergence<E: Sink>(err: &mut E, divergence: Divergence) -> Result<(), Failed>
    ensures { Puts (E.holds err.old) (E.holds err.new) (E.faults err.old) (E.faults err.new) (told_text [] [] (IsDiverged divergence)) result }
{
    tell_number(
        err,
        b"slirpd: diverged at line ",
        divergence.line,
        b": made ",
    )?;
    put_name(err, divergence.made)?;
    tell_wanted(err, divergence.wanted)?;
    err.put(b"\n")
}

// The call of the line that stands next, if one is left.
fn tell_wanted<E: Sink>(err: &mut E, wanted: Option<CallName>) -> Result<(), Failed>
    ensures { Puts (E.holds err.old) (E.holds err.new) (E.faults err.old) (E.faults err.new) (wanted_text wanted) result }
{
    match wanted {
        Some(wanted) => tell_name(err, wanted),
        None => err.put(b", no line left"),
    }
}

fn tell_name<E: Sink>(err: &mut E, wanted: CallName) -> Result<(), Failed>
    ensures { Puts (E.holds err.old) (E.holds err.new) (E.faults err.old) (E.faults err.new) (codes ", schedule has " ++ name_text wanted) result }
{
    err.put(b", schedule has ")?;
    put_name(err, wanted)
}

fn put_name<E: Sink>(err: &mut E, call: CallName) -> Result<(), Failed>
    ensures { Puts (E.holds err.old) (E.holds err.new) (E.faults err.old) (E.faults err.new) (name_text call) result }
{
    err.put(call.name().as_bytes())
}
