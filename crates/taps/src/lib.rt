//! What a run calls on its World, written down as it goes: a `Tap` is a World over another, and a `Book` says what becomes of each call.
//!
//! `Record` puts the line of each call into a sink, so that the run can be made again. `Capture` puts the frames of the link, for programs that show them. `Journal` is
//! a list of calls, newest first, which only clauses read.
//!
//! Proved:
//! - A `Tap` tells each call that is made on it, whatever the World below tells, and those are the calls that were made on the World below, with their answers
//!   (`Tap::into_parts`: `world`, `passed`, `book`). What is proved of the calls that a run makes on any World holds of what the book has
//!   (`just_the_calls_made_are_told`). `Tap::new`, `Tap::book`, `Book::note`, `Journal::new`, `then`.
//! - Behind what the sink held when the lines began it got the text of exactly the calls that were made, in their order (`text` of `replay`), unless it failed; where
//!   it failed its count rose (`Record::close`, by `IsWritten`: put, fault, later; `Record::new`, `Record::failed`). Behind a `pause` no line waits (`put`): so a run
//!   that is killed leaves whole lines up to its last wait. `Lines::open` has none that waits.
//! - Behind what the sink held at first it got the classic pcap text of exactly the frames that arrive and go out (`arrives`, `goes_out`), in order, each with the
//!   moment in force before its entry, unless it failed (`Capture::new`, `Capture::close`, by `IsCaptured`: put, fault, later; `capture`). A capture fails only where
//!   the sink's count rose, if each frame so far was of one that may be, up to 69,632 octets (`Fits`; `Capture::failed`: `value`, `rose`); `Framing::open` has nothing
//!   under way.
//! - What a line has of an answer or a place: `octets_got`, `octets_read`, `seat`.
//!
//! Neither: that lines are whole in the sink between waits, and that `pause` is called before each wait.
//!
//! Let through (rt plant): a page that refuses each put (`Page::put`).
#![tactic(auto)]

mod capture;
mod framing;
mod journal;
mod laws;
mod lines;
mod page;
mod record;
mod tap;

pub use capture::Capture;
pub use framing::Framing;
pub use journal::Journal;
pub use laws::just_the_calls_made_are_told;
pub use lines::Lines;
pub use record::Record;
pub use tap::{Book, Tap, octets_got, octets_read, seat};
