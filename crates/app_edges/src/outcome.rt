// What the program came to, the status with which it ends, and the word that a mistake in the words names.
ghost use Rattle.std.specs.Prelude.{◌≡◌};
ghost use Rattle.app_edges.specs.Statuses.{code_of};

use command_words::{Setting, Stop};
use replay::Divergence;

/// What the program came to.
#[derive(Clone, Copy)]
pub enum Outcome {
    Done,
    /// The words have no reading, which stops here.
    Usage(Stop),
    /// This field of the settings isn't in its range.
    BadConfig(Setting),
    ScheduleRead,
    /// Each line has a reading, but the room for stars passes its limit.
    ScheduleTooLarge,
    ScheduleLine(u64),
    Diverged(Divergence),
    FrameTooLong(u32),
    FrameCut(usize),
    LinkFault,
    WaitFault,
    TurnsSpent(u64),
    /// The host refused the forward with this number, counted from 0.
    ListenRefused(usize),
    SinkFault,
    NoMemory,
    /// The host refused the port of the control.
    ControlRefused,
}

impl Outcome {
    /// The status with which the program ends.
    pub fn code(&self) -> u8
        ensures { result ≡ code_of self.now }
    {
        match self {
            Outcome::Done => 0,
            Outcome::Usage(_) => 1,
            Outcome::BadConfig(_) => 2,
            Outcome::ScheduleRead | Outcome::ScheduleTooLarge => 3,
            Outcome::ScheduleLine(_) => 4,
            Outcome::Diverged(_) => 5,
            Outcome::FrameTooLong(_) => 6,
            Outcome::FrameCut(_) => 7,
            Outcome::LinkFault => 8,
            Outcome::WaitFault => 9,
            Outcome::TurnsSpent(_) => 10,
            Outcome::ListenRefused(_) => 11,
            Outcome::SinkFault => 12,
            Outcome::NoMemory => 13,
            Outcome::ControlRefused => 14,
        }
    }
}
