//! Traces of host calls as text, and a World that answers by such a text.
//!
//! Proved:
//! - `ScriptWorld::read`: the schedule's text is that of its lines (`text`), each of which has a reading (`readable`), and their stars take at most 1 GiB (`room`). A
//!   line that is named is the first that has no reading (`first`), and it is named wherever there is one (`only`, with `IsFirstUnread`); it is too large exactly where
//!   each line has a reading and the stars take over 1 GiB (`large`, `only_large`), both unless memory runs out.
//! - `ScriptWorld` as a World: once it ceased every call that can fail does, and the clock stays at the last moment (`ceased`). `print` puts the text of what was
//!   told, without a star. `divergence`.
//! - `put_line` puts the text of a line, with the call's name (`CallName::name`). That no two allowed traces are one text, and each line of one has a reading, are
//!   laws of `spec_replay`.
//!
//! Let through (rt plant): readers that take no memory and answer that there is none (`split_at`, `read_number`, `read_endpoint`, `read_timeout`, `read_name`).
#![tactic(auto)]

mod allowing;
mod answering;
mod giving;
mod line;
mod outcomes;
mod printing;
mod reading;
mod reported;
mod row;
mod tokens;
mod view;
mod world;

ghost use Rattle.std.specs.Prelude.{◌≡◌};
ghost use Rattle.replay.specs.Names.{name_text};

pub use printing::put_line;
pub use view::LineView;
pub use world::ScriptWorld;

/// The calls on a World, without their arguments; `name` encodes each as it stands in a line.
#[derive(Clone, Copy, PartialEq, Eq)]
pub enum CallName {
    Now,
    Wait,
    LinkOpen,
    LinkRead,
    LinkWrite,
    Connect,
    Connected,
    Listen,
    Accept,
    TcpRead,
    TcpWrite,
    TcpEnd,
    Close,
    UdpOpen,
    UdpSend,
    UdpRecv,
    FileLen,
    FileRead,
}

impl CallName {
    /// The name as it stands in a line.
    pub fn name(&self) -> &'static str
        ensures { result.now ≡ name_text self.now }
    {
        match self {
            CallName::Now => "now",
            CallName::Wait => "wait",
            CallName::LinkOpen => "lopen",
            CallName::LinkRead => "lread",
            CallName::LinkWrite => "lwrite",
            CallName::Connect => "connect",
            CallName::Connected => "connected",
            CallName::Listen => "listen",
            CallName::Accept => "accept",
            CallName::TcpRead => "tread",
            CallName::TcpWrite => "twrite",
            CallName::TcpEnd => "tend",
            CallName::Close => "close",
            CallName::UdpOpen => "uopen",
            CallName::UdpSend => "usend",
            CallName::UdpRecv => "urecv",
            CallName::FileLen => "flen",
            CallName::FileRead => "fread",
        }
    }
}

/// Why a text is no schedule.
#[derive(Clone, Copy)]
pub enum ScriptFault {
    /// The first line, counted from 1, that has no reading.
    Line(u64),
    /// Each line has a reading, and the stars take over 1 GiB of room.
    TooLarge,
    /// There was no memory left.
    NoMemory,
}

/// Where a run left its schedule.
#[derive(Clone, Copy, PartialEq, Eq)]
pub struct Divergence {
    /// The line, counted from 1, that stood next.
    pub line: u64,
    /// The call that didn't fit it.
    pub made: CallName,
    /// The call of that line, where there is one.
    pub wanted: Option<CallName>,
}
