// Whether the next line fits a call, and what becomes of the World after it.
ghost use Rattle.std.specs.Prelude.{◌≡◌, ◌+◌, ◌≤◌, ◌<◌, length};
ghost use Rattle.world_face.specs.Journal.{IsPlace, place_of};
ghost use Rattle.replay.specs.Fitting.{raise};
ghost use Rattle.world_face.specs.Limits.{most_to_udp, most_wants};

use crate::CallName;
use crate::giving::{keep, keep_wants};
use crate::line::{Line, Stop, has_failed, moment_after, name_of};
use crate::row::Row;
use crate::world::ScriptWorld;
use world_face::{LinkAt, Want};

// One more, up to the last count.
fn raise(count: u64) -> u64
    ensures { result ≡ raise count }
{
    count.saturating_add(1)
}

impl ScriptWorld {
    ghost use Rattle.std.specs.Prelude.{true, false, Some, None, IfSome, IfNone, slice_get};
    ghost use Rattle.world_face.specs.Journal.{Entry, call_of};
    ghost use Rattle.replay.specs.Lines.{row_of, call_at};
    ghost use Rattle.replay.specs.Fitting.{Advances, Ceases, FitsNext, FitsNone, IsCompleted, raised};
    ghost use Rattle.replay.specs.Room.{MayBring};
    ghost use Rattle.replay.specs.Rows.{AreReadable};

    // The next line, while it answers.
    fn next(&self) -> Option<&Row>
        ensures readable { AreReadable self.now.lines }
        ensures live { IfSome result (λ row. self.now.live ≡ true) }
        ensures row { IfSome result (λ row. slice_get self.now.lines self.now.used ≡ Some (row_of row.now)) }
        ensures none { IfNone result (self.now.live ≡ true → slice_get self.now.lines self.now.used ≡ None) }
    {
        if self.stop.is_some() || self.used >= self.rows.len() {
            return None;
        }
        Some(&self.rows[self.used])
    }

    // Counts a failure of such a call.
    fn count(&mut self, name: CallName)
        ensures { self.new ≡ record self.old { faults = raised name self.old.faults } }
    {
        match name {
            CallName::Now | CallName::Close => {}
            CallName::Wait => self.wait_faults = raise(self.wait_faults),
            CallName::LinkOpen | CallName::LinkRead | CallName::LinkWrite => {
                self.link_faults = raise(self.link_faults);
            }
            CallName::FileLen | CallName::FileRead => self.file_faults = raise(self.file_faults),
            _ => self.socket_faults = raise(self.socket_faults),
        }
    }

    // Uses up the next line, which stands for a call with these arguments.
    fn advance(&mut self, given: Stop, octets: &[u8], wants: &[Want])
        requires fits { (e : Entry) × FitsNext self.old e × (call_of e ≡ call_at given octets.now wants.now) }
        requires few { MayBring given (length octets.now) (length wants.now) }
        ensures { (e : Entry) → FitsNext self.old e → call_of e ≡ call_at given octets.now wants.now → Advances self.old self.new e }
    {
        self.complete(given, octets, wants);
        let line = &self.rows[self.used].line;
        let name = name_of(line);
        let failed = has_failed(line);
        self.go_on();
        if failed {
            self.count(name);
        }
    }

    // Puts what the call brings in the place of the next line's star.
    fn complete(&mut self, given: Stop, octets: &[u8], wants: &[Want])
        requires fits { (e : Entry) × FitsNext self.old e × (call_of e ≡ call_at given octets.now wants.now) }
        requires few { MayBring given (length octets.now) (length wants.now) }
        ensures { (e : Entry) → FitsNext self.old e → call_of e ≡ call_at given octets.now wants.now → IsCompleted self.old self.new e }
    {
        self.rows[self.used].complete(given, octets, wants);
    }

    // The next line is used up, and its moment is the last.
    fn go_on(&mut self)
        requires within { self.old.used < length self.old.lines }
        requires live { self.old.live ≡ true }
        ensures { self.new ≡ record self.old { used = self.old.used + 1 } }
    {
        self.moment = moment_after(&self.rows[self.used].line, self.moment);
        self.used += 1;
    }

    // Ceases at this call, with its octets and its wants, unless it had ceased before.
    fn stop_at(&mut self, stop: Stop, octets: &[u8], wants: &[Want])
        requires octets { length octets.now ≤ most_to_udp }
        requires wants { length wants.now ≤ most_wants }
        requires fits_none { self.old.live ≡ true → FitsNone self.old.lines self.old.used (call_at stop octets.now wants.now) }
        ensures first { self.old.live ≡ true → self.new ≡ record self.old { live = false; stop = Some (call_at stop octets.now wants.now) } }
        ensures later { self.old.live ≡ false → self.new ≡ self.old }
    {
        if self.stop.is_none() {
            keep(&mut self.octets, octets);
            keep_wants(&mut self.wants, wants);
            self.stop = Some(stop);
        }
    }

    // Ceases at this call, which has failed.
    fn cease(&mut self, stop: Stop, octets: &[u8], wants: &[Want])
        requires octets { length octets.now ≤ most_to_udp }
        requires wants { length wants.now ≤ most_wants }
        requires fits_none { self.old.live ≡ true → FitsNone self.old.lines self.old.used (call_at stop octets.now wants.now) }
        ensures { Ceases self.old self.new (call_at stop octets.now wants.now) }
    {
        self.stop_at(stop, octets, wants);
        self.count(stop.name());
    }
}

impl ScriptWorld {
    ghost use Rattle.std.specs.Prelude.{true, false, IsTrue, option_map, option_copied};
    ghost use Rattle.world_face.specs.Journal.{Entry, CallLinkOpen, call_of};
    ghost use Rattle.world_face.specs.Tells.{Answers};
    ghost use Rattle.replay.specs.Fitting.{FitsNext, FitsNone};
    ghost use Rattle.replay.specs.Last.{answer_to, last_of};
    ghost use Rattle.replay.specs.Lines.{call_at, entry_of};
    ghost use Rattle.replay.specs.Range.{InRange};
    ghost use Rattle.replay.specs.Room.{MayBring};
    ghost use Rattle.replay.specs.Rows.{AreReadable};
    ghost use Rattle.replay.specs.Script.{script_tells};

    // Whether the next line answers this call.
    fn fits_next(&self, given: Stop, octets: &[u8], wants: &[Want]) -> bool
        requires { InRange (call_at given octets.now wants.now) }
        ensures found { IsTrue result → (e : Entry) × FitsNext self.now e × (call_of e ≡ call_at given octets.now wants.now) }
        ensures none { result ≡ false → self.now.live ≡ true → FitsNone self.now.lines self.now.used (call_at given octets.now wants.now) }
        ensures readable { AreReadable self.now.lines }
    {
        match self.next() {
            Some(row) => row.fits(given, octets, wants),
            None => false,
        }
    }

    /// Uses up the next line where that serves this call. Else the World ceases at this call, unless it had ceased before, and the call counts as
    /// failed where it can fail.
    pub(super) fn follow(&mut self, given: Stop, octets: &[u8], wants: &[Want])
        requires asked { InRange (call_at given octets.now wants.now) }
        requires few { MayBring given (length octets.now) (length wants.now) }
        ensures { Answers (script_tells self.old) (script_tells self.new) (answer_to self.new (call_at given octets.now wants.now)) }
    {
        if self.fits_next(given, octets, wants) {
            self.advance(given, octets, wants);
        } else {
            self.cease(given, octets, wants);
        }
    }

    /// Goes on by an opening of the link at this place, as `follow` does by a call.
    pub(super) fn follow_open(&mut self, at: &LinkAt)
        requires { IsPlace (place_of at.now) }
        ensures { Answers (script_tells self.old) (script_tells self.new) (answer_to self.new (CallLinkOpen (place_of at.now))) }
    {
        match at {
            LinkAt::Unix(path) => self.follow(Stop::LinkOpenPath, path.as_str().as_bytes(), &[]),
            LinkAt::Tcp(at) => self.follow(Stop::LinkOpenAt(*at), &[], &[]),
        }
    }

    /// The line that was used up last. None before the first, and once the World has ceased.
    pub(super) fn last(&self) -> Option<&Line>
        ensures { option_map entry_of (option_copied result) ≡ last_of self.now }
    {
        if self.stop.is_some() {
            return None;
        }
        if self.used == 0 {
            return None;
        }
        Some(&self.rows[self.used - 1].line)
    }
}
