//! What holds of the text of traces of calls: laws alone, over `replay`. There is no code to run.
//!
//! Proved: no two allowed traces are one text (`text_is_one_to_one`), and each line of one has a reading (`allowed_entries_are_read`).
#![tactic(auto)]

ghost use Rattle.std.specs.Prelude.{◌≡◌, ℕ, List};
ghost use Rattle.world_face.specs.Journal.{Entry, AreAllowed};
ghost use Rattle.replay.specs.Text.{text};
ghost use Rattle.replay.specs.Unread.{IsFirstUnread};

/// No two traces have one text, where each answer is one that a World may give.
pub fn text_is_one_to_one()
    ensures { (a : List Entry) (b : List Entry) → AreAllowed a → AreAllowed b → text a ≡ text b → a ≡ b }
{}

/// Each line of a trace's text has a reading, where each answer is one that a World may give: a transcript is a schedule.
pub fn allowed_entries_are_read()
    ensures { (past : List Entry) (n : ℕ) → AreAllowed past → ¬ IsFirstUnread (text past) n }
{}
