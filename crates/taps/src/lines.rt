// Whole lines that wait to be put.
ghost use Rattle.std.specs.Prelude.{◌≡◌, ◌≤◌, ◌++◌, [], true, false, IsOk, IsErr, IfOk};
ghost use Rattle.replay.specs.Text.{line_text};
ghost use Rattle.replay.specs.Views.{viewed};
ghost use Rattle.world_face.specs.Puts.{Puts, added};
ghost use Rattle.world_face.specs.Tells.{Rose};

use crate::page::Page;
use replay::{LineView, put_line};
use std::alloc::Global;
use std::marker::Model;
use world_face::{Failed, NoMemory, Sink};

/// Lines that wait to be put, each of them whole. Its memory is taken at opening.
#[derive(Drop)]
pub struct Lines {
    whole: Page,
    line: Page,
}

impl Model for Lines {
    ghost use Rattle.std.specs.Prelude.{ℕ, List};

    ghost Value = { List ℕ };

    ghost view = { λ lines. lines.whole };
}

impl Lines {
    /// No line waits.
    pub fn open(alloc: Global) -> Result<Lines, NoMemory>
        ensures { IfOk result (λ lines. lines ≡ []) }
    {
        Ok(Lines {
            whole: Page::open(alloc)?,
            line: Page::open(alloc)?,
        })
    }

    // Takes a line behind the others, where there is room for all of it. Answers whether there is.
    fn take(&mut self, line: &LineView<'_>) -> bool
        ensures taken { result ≡ true → self.new ≡ self.old ++ line_text (viewed line.now) }
        ensures left { result ≡ false → self.new ≡ self.old }
    {
        self.line.empty();
        if put_line(line, &mut self.line).is_err() {
            return false;
        }
        self.whole.put(self.line.octets()).is_ok()
    }

    /// Puts all that wait, by one put. Err where the sink refuses them.
    pub(crate) fn flush<K: Sink>(&mut self, out: &mut K) -> Result<(), Failed>
        ensures puts { Puts (K.holds out.old) (K.holds out.new) (K.faults out.old) (K.faults out.new) self.old result }
        ensures none { IsOk result → self.new ≡ [] }
    {
        if self.whole.octets().is_empty() {
            return Ok(());
        }
        out.put(self.whole.octets())?;
        self.whole.empty();
        Ok(())
    }

    /// Takes a line behind the others. Where there is no room the others are put first, and a line for which there is none then is put itself. Err
    /// where the sink refuses some.
    pub(crate) fn keep<K: Sink>(&mut self, line: &LineView<'_>, out: &mut K) -> Result<(), Failed>
        ensures kept { IsOk result → added self.new (K.holds out.new) ≡ added (self.old ++ line_text (viewed line.now)) (K.holds out.old) }
        ensures fault { IsErr result → Rose (K.faults out.old) (K.faults out.new) }
        ensures later { K.faults out.old ≤ K.faults out.new }
    {
        if self.take(line) {
            return Ok(());
        }
        self.flush(out)?;
        if self.take(line) {
            return Ok(());
        }
        put_line(line, out)
    }
}
