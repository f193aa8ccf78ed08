// The record of a run, as it is put.
ghost use Rattle.std.specs.Prelude.{◌≡◌, ◌++◌};
ghost use Rattle.replay.specs.Script.{script_tells};
ghost use Rattle.replay.specs.Text.{text};
ghost use Rattle.app_edges.specs.Texts.{end_line};
ghost use Rattle.world_face.specs.Puts.{Puts};

use crate::gathering::Gathering;
use core::mem::replace_with;
use itoa::Buffer;
use replay::ScriptWorld;
use world_face::{Failed, Sink};

/// Puts the record of a run, and its status. While they are put the sink lies in one that gathers.
pub fn put_record<K: Sink>(script: &ScriptWorld, status: u8, out: &mut K) -> Result<(), Failed>
    ensures { Puts (K.holds out.old) (K.holds out.new) (K.faults out.old) (K.faults out.new) (text (script_tells script.now).kept ++ end_line status) result }
{
    replace_with(out, (script, status), gather_record)
}

// Puts the record into a sink that is handed over and comes back.
fn gather_record<K: Sink>(sink: K, run: (&ScriptWorld, u8)) -> (K, Result<(), Failed>)
    ensures { Puts (K.holds sink) (K.holds result.0) (K.faults sink) (K.faults result.0)
        (text (script_tells run.entry.0.now).kept ++ end_line run.entry.1) result.1 }
{
    let (script, status) = run;
    let mut gathering = Gathering::over(sink);
    match put_text(script, status, &mut gathering) {
        Ok(()) => gathering.finish(),
        Err(failed) => (gathering.into_sink(), Err(failed)),
    }
}

// Puts the text of a record, and of a status.
fn put_text<K: Sink>(script: &ScriptWorld, status: u8, out: &mut K) -> Result<(), Failed>
    ensures { Puts (K.holds out.old) (K.holds out.new) (K.faults out.old) (K.faults out.new) (text (script_tells script.now).kept ++ end_line status) result }
{
    let mut digits = Buffer::new();
    script.print(out)?;
    out.put(b"end ")?;
    out.put(digits.format(status).as_bytes())?;
    out.put(b"\n")
}
