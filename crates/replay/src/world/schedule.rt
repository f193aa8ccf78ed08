// A schedule is read, and what of it is used up is put; and where it was left.
ghost use Rattle.std.specs.Prelude.{◌≡◌, ◌≢◌, ◌≤◌, ◌↔◌, ℕ, length, take, IfOk, OnOk, OnErr, Err, IsNone, ◌⊎◌, ◌++◌, ◌∷◌, []};
ghost use Rattle.replay.specs.Lines.{rows_of};
ghost use Rattle.replay.specs.Rows.{AreReadable, TakesTooMuch, most_room, rooms, schedule_text};
ghost use Rattle.replay.specs.Unread.{IsFirstUnread};
ghost use Rattle.replay.specs.declared.ScriptFault.TheVariants.{Line as AtLine, NoMemory, TooLarge};

use crate::giving::{reserve_all, rooms};
use crate::line::name_of;
use crate::printing::put_rows;
use crate::reading::read_line;
use crate::row::Row;
use crate::tokens::{Unread, split_at};
use crate::world::ScriptWorld;
use crate::{CallName, Divergence, ScriptFault};
use std::alloc::Global;
use world_face::{Failed, MOST_TO_UDP, MOST_WANTS, Sink};

// The room that stars may take in all, in octets.
const MOST_ROOM: u64 = 1073741824;

// The lines of a schedule.
fn read_rows(alloc: Global, octets: &[u8]) -> Result<Vec<Row>, ScriptFault>
    requires { length octets.now ≤ 67108864 }
    ensures text { IfOk result (λ rows. schedule_text (rows_of rows.items) ≡ octets.now) }
    ensures few { IfOk result (λ rows. length rows.items ≤ 67108864) }
    ensures readable { IfOk result (λ rows. AreReadable (rows_of rows.items)) }
    ensures first { (n : ℕ) → result ≡ Err (AtLine n) → IsFirstUnread octets.now n }
    ensures fault { result ≢ Err TooLarge }
{
    let mut rows = Vec::new(alloc);
    let mut rest = octets;
    while !rest.is_empty() {
        let number = rows.len() as u64 + 1;
        let Ok((text, after)) = split_at(rest, b'\n') else {
            return Err(ScriptFault::Line(number));
        };
        let row = match read_line(alloc, text) {
            Ok(row) => row,
            Err(Unread::NoReading) => return Err(ScriptFault::Line(number)),
            Err(Unread::NoMemory) => return Err(ScriptFault::NoMemory),
        };
        push_row(&mut rows, row)?;
        rest = after;
    }
    Ok(rows)
}

fn push_row(rows: &mut Vec<Row>, row: Row) -> Result<(), ScriptFault>
    ensures items { OnOk result (rows.new.items ≡ rows.old.items ++ row ∷ []) }
    ensures memory { OnErr result (result ≡ Err NoMemory) }
{
    match rows.push(row) {
        Ok(()) => Ok(()),
        Err(_) => Err(ScriptFault::NoMemory),
    }
}

impl ScriptWorld {
    ghost use Rattle.std.specs.Prelude.{true, false, None, IfOk, IsSome, slice_get};
    ghost use Rattle.std.specs.Option.{option_map};
    ghost use Rattle.world_face.specs.Journal.{call_of};
    ghost use Rattle.replay.specs.Names.{name_of as call_name_of};
    ghost use Rattle.world_face.specs.Puts.{Puts};
    ghost use Rattle.replay.specs.Text.{text};
    ghost use Rattle.replay.specs.Script.{IsFresh, script_tells};
    ghost use Rattle.replay.specs.Fitting.{StopsRightly, divergence_of};

    /// Reads a schedule: no line or more, each ended by a line feed, of at most 64 MiB in all.
    /// All room that the World will need is taken here. Where a line has no reading the first such
    /// line is named, counted from 1.
    pub fn read(alloc: Global, octets: &[u8]) -> Result<ScriptWorld, ScriptFault>
        requires { length octets.now ≤ 67108864 }
        ensures fresh { IfOk result (λ world. IsFresh world) }
        ensures text { IfOk result (λ world. schedule_text world.lines ≡ octets.now) }
        // Each line has a reading.
        ensures readable { IfOk result (λ world. AreReadable world.lines) }
        // Its stars take at most 1 GiB.
        ensures room { IfOk result (λ world. rooms world.lines ≤ most_room) }
        // A line that is named is the first that has no reading.
        ensures first { (n : ℕ) → result ≡ Err (AtLine n) → IsFirstUnread octets.now n }
        // It is named wherever there is one, unless memory runs out.
        ensures only { (n : ℕ) → IsFirstUnread octets.now n → (result ≡ Err (AtLine n)) ⊎ (result ≡ Err NoMemory) }
        // It is too large only where each line has a reading, and the stars take over 1 GiB.
        ensures large { result ≡ Err TooLarge → TakesTooMuch octets.now }
        // And it is so wherever they do, unless memory runs out.
        ensures only_large { TakesTooMuch octets.now → (result ≡ Err TooLarge) ⊎ (result ≡ Err NoMemory) }
    {
        let mut rows = read_rows(alloc, octets)?;
        if rooms(&rows) > MOST_ROOM {
            return Err(ScriptFault::TooLarge);
        }
        let Ok(()) = reserve_all(&mut rows) else {
            return Err(ScriptFault::NoMemory);
        };
        let Ok(stop_octets) = Vec::with_capacity(alloc, MOST_TO_UDP) else {
            return Err(ScriptFault::NoMemory);
        };
        let Ok(stop_wants) = Vec::with_capacity(alloc, MOST_WANTS) else {
            return Err(ScriptFault::NoMemory);
        };
        Ok(ScriptWorld {
            rows,
            used: 0,
            stop: None,
            octets: stop_octets,
            wants: stop_wants,
            moment: 0,
            link_faults: 0,
            wait_faults: 0,
            socket_faults: 0,
            file_faults: 0,
        })
    }

    /// Puts the text of the lines that are used up.
    pub fn print<K: Sink>(&self, out: &mut K) -> Result<(), Failed>
        ensures { Puts (K.holds out.old) (K.holds out.new) (K.faults out.old) (K.faults out.new) (text (script_tells self.now).kept) result }
    {
        put_rows(self.used_rows(), out)
    }

    #[tactic(auto, using(crate::proofs::Scheduling::taken))]
    fn used_rows(&self) -> &[Row]
        ensures { rows_of result.now ≡ take self.now.used self.now.lines }
    {
        &self.rows[..self.used]
    }

    /// Where the schedule was left: nowhere exactly where the World still answers by it. A World has ceased exactly where it names the call at which
    /// it did, and the next line doesn't fit that call.
    pub fn divergence(&self) -> Option<Divergence>
        ensures value { result ≡ divergence_of self.now }
        ensures live { IsNone result ↔ (self.now.live ≡ true) }
        ensures stopped { IsSome self.now.stop ↔ (self.now.live ≡ false) }
        ensures fits_none { StopsRightly self.now.lines self.now.used self.now.stop }
        ensures within { self.now.used ≤ length self.now.lines }
        ensures readable { AreReadable self.now.lines }
    {
        let wanted = self.wanted();
        let line = self.used as u64 + 1;
        match self.stop {
            None => None,
            Some(stop) => Some(Divergence {
                line,
                made: stop.name(),
                wanted,
            }),
        }
    }

    // The call of the next line.
    fn wanted(&self) -> Option<CallName>
        ensures { result ≡ option_map (λ row. call_name_of (call_of row.entry)) (slice_get self.now.lines self.now.used) }
    {
        if self.used >= self.rows.len() {
            return None;
        }
        Some(name_of(&self.rows[self.used].line))
    }
}
