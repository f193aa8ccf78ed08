// The lines of a schedule.
ghost use Rattle.std.specs.Prelude.{◌≡◌};
ghost use Rattle.world_face.specs.Journal.{call_of};
ghost use Rattle.replay.specs.Lines.{entry_of};
ghost use Rattle.replay.specs.Names.{name_of};
ghost use Rattle.replay.specs.Fitting.{has_failed, moment_after};

use crate::CallName;
use crate::reported::Reported;
use world_face::{Accepted, Endpoint, FileSize, Got, Io, Joined, Made, Sent, Waited, Want};

/// Where the link is: an endpoint, or where there is none the octets of a path.
#[derive(Drop)]
pub struct Seat {
    /// The octets of the path; they count only where `at` is None.
    pub path: Vec<u8>,
    /// The endpoint, where the link isn't at a path.
    pub at: Option<Endpoint>,
}

/// A call with its arguments and its answer, in the order in which a World takes them. Sockets stand by their numbers, moments and timeouts in
/// milliseconds. A read has the count of octets that it asked for, and behind its answer those that it brought; a wait has behind its answer what
/// it reported as ready.
#[derive(Drop)]
pub enum Line {
    Now(u64),
    Wait(Vec<Want>, Option<u64>, Waited, Reported),
    LinkOpen(Seat, Made),
    LinkRead(usize, Io, Vec<u8>),
    LinkWrite(Vec<u8>, Io),
    Connect(u64, Endpoint, Made),
    Connected(u64, Joined),
    Listen(u64, Endpoint, Made),
    Accept(u64, u64, Accepted),
    TcpRead(u64, usize, Io, Vec<u8>),
    TcpWrite(u64, Vec<u8>, Io),
    TcpEnd(u64, Made),
    Close(u64),
    UdpOpen(u64, Endpoint, Made),
    UdpSend(u64, Endpoint, Vec<u8>, Sent),
    UdpRecv(u64, usize, Got, Vec<u8>),
    FileLen(Vec<u8>, FileSize),
    FileRead(Vec<u8>, u64, usize, Io, Vec<u8>),
}

/// A call that is made, with its arguments; its octets and its wants stand beside it. A World that has ceased keeps the one that fitted no line.
#[derive(Clone, Copy)]
pub enum Stop {
    Now,
    Wait(Option<u64>),
    LinkOpenPath,
    LinkOpenAt(Endpoint),
    LinkRead(usize),
    LinkWrite,
    Connect(u64, Endpoint),
    Connected(u64),
    Listen(u64, Endpoint),
    Accept(u64, u64),
    TcpRead(u64, usize),
    TcpWrite(u64),
    TcpEnd(u64),
    Close(u64),
    UdpOpen(u64, Endpoint),
    UdpSend(u64, Endpoint),
    UdpRecv(u64, usize),
    FileLen,
    FileRead(u64, usize),
}

/// The call of the line, without its arguments.
pub fn name_of(line: &Line) -> CallName
    ensures { result ≡ name_of (call_of (entry_of line.now)) }
{
    match line {
        Line::Now(_) => CallName::Now,
        Line::Wait(_, _, _, _) => CallName::Wait,
        Line::LinkOpen(_, _) => CallName::LinkOpen,
        Line::LinkRead(_, _, _) => CallName::LinkRead,
        Line::LinkWrite(_, _) => CallName::LinkWrite,
        Line::Connect(_, _, _) => CallName::Connect,
        Line::Connected(_, _) => CallName::Connected,
        Line::Listen(_, _, _) => CallName::Listen,
        Line::Accept(_, _, _) => CallName::Accept,
        Line::TcpRead(_, _, _, _) => CallName::TcpRead,
        Line::TcpWrite(_, _, _) => CallName::TcpWrite,
        Line::TcpEnd(_, _) => CallName::TcpEnd,
        Line::Close(_) => CallName::Close,
        Line::UdpOpen(_, _, _) => CallName::UdpOpen,
        Line::UdpSend(_, _, _, _) => CallName::UdpSend,
        Line::UdpRecv(_, _, _, _) => CallName::UdpRecv,
        Line::FileLen(_, _) => CallName::FileLen,
        Line::FileRead(_, _, _, _, _) => CallName::FileRead,
    }
}

/// The moment in force behind the line, in milliseconds: a line of `now` tells it, and any other leaves the one `before`.
pub fn moment_after(line: &Line, before: u64) -> u64
    ensures { result ≡ moment_after (entry_of line.now) before }
{
    match line {
        Line::Now(moment) => *moment,
        _ => before,
    }
}

/// Whether the line answers its call by a failure. Lines of `now` and of `close` never do.
pub fn has_failed(line: &Line) -> bool
    ensures { result ≡ has_failed (entry_of line.now) }
{
    match line {
        Line::Now(_) | Line::Close(_) => false,
        Line::Wait(_, _, answer, _) => matches!(answer, Waited::Failed),
        Line::LinkOpen(_, answer)
        | Line::Connect(_, _, answer)
        | Line::Listen(_, _, answer)
        | Line::TcpEnd(_, answer)
        | Line::UdpOpen(_, _, answer) => matches!(answer, Made::Failed),
        Line::LinkRead(_, answer, _)
        | Line::LinkWrite(_, answer)
        | Line::TcpRead(_, _, answer, _)
        | Line::TcpWrite(_, _, answer)
        | Line::FileRead(_, _, _, answer, _) => matches!(answer, Io::Failed),
        Line::Connected(_, answer) => matches!(answer, Joined::Failed),
        Line::Accept(_, _, answer) => matches!(answer, Accepted::Failed),
        Line::UdpSend(_, _, _, answer) => matches!(answer, Sent::Failed),
        Line::UdpRecv(_, _, answer, _) => matches!(answer, Got::Failed),
        Line::FileLen(_, answer) => matches!(answer, FileSize::Failed),
    }
}

impl Stop {
    ghost use Rattle.std.specs.Prelude.{ℕ, List, ◌∷◌};
    ghost use Rattle.poll_list.specs.declared.Want.{Want as AWant};
    ghost use Rattle.replay.specs.Lines.{call_at};

    /// The call without its arguments.
    pub fn name(&self) -> CallName
        ensures { (octets : List ℕ) (wants : List AWant) → result ≡ name_of (call_at self.now octets wants) }
    {
        match self {
            Stop::Now => CallName::Now,
            Stop::Wait(_) => CallName::Wait,
            Stop::LinkOpenPath | Stop::LinkOpenAt(_) => CallName::LinkOpen,
            Stop::LinkRead(_) => CallName::LinkRead,
            Stop::LinkWrite => CallName::LinkWrite,
            Stop::Connect(_, _) => CallName::Connect,
            Stop::Connected(_) => CallName::Connected,
            Stop::Listen(_, _) => CallName::Listen,
            Stop::Accept(_, _) => CallName::Accept,
            Stop::TcpRead(_, _) => CallName::TcpRead,
            Stop::TcpWrite(_) => CallName::TcpWrite,
            Stop::TcpEnd(_) => CallName::TcpEnd,
            Stop::Close(_) => CallName::Close,
            Stop::UdpOpen(_, _) => CallName::UdpOpen,
            Stop::UdpSend(_, _) => CallName::UdpSend,
            Stop::UdpRecv(_, _) => CallName::UdpRecv,
            Stop::FileLen => CallName::FileLen,
            Stop::FileRead(_, _) => CallName::FileRead,
        }
    }
}
