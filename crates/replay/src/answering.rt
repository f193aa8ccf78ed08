// What is answered by the line that was used up last: a failure where there is none.
ghost use Rattle.std.specs.Prelude.{◌≡◌, option_map, option_copied};
ghost use Rattle.replay.specs.Lines.{entry_of};
ghost use Rattle.replay.specs.Last.{accepted_of, got_of, io_of, joined_of, made_of, octets_of, ready_of, sent_of, size_of, waited_of};

use crate::line::Line;
use world_face::{Accepted, FileSize, Got, Io, Joined, Made, Sent, Waited, Want};

/// What the line answers to a wait; Failed where there is no line, or it is of another call.
pub fn waited(line: Option<&Line>) -> Waited
    ensures { result ≡ waited_of (option_map entry_of (option_copied line.entry)) }
{
    let Some(line) = line else {
        return Waited::Failed;
    };
    match line {
        Line::Wait(_, _, answer, _) => *answer,
        _ => Waited::Failed,
    }
}

/// What the line of a wait reports as ready; nothing where there is no line, or it is of another call.
pub fn reported(line: Option<&Line>) -> &[Want]
    ensures { result.now ≡ ready_of (option_map entry_of (option_copied line.entry)) }
{
    let Some(line) = line else {
        return &[];
    };
    match line {
        Line::Wait(_, _, _, ready) => ready.items(),
        _ => &[],
    }
}

/// What the line answers to a call that opens the link or a socket, or that ends the writing direction of a connection; Failed where there is no
/// line, or it is of another call.
pub fn made(line: Option<&Line>) -> Made
    ensures { result ≡ made_of (option_map entry_of (option_copied line.entry)) }
{
    let Some(line) = line else {
        return Made::Failed;
    };
    match line {
        Line::LinkOpen(_, answer)
        | Line::Connect(_, _, answer)
        | Line::Listen(_, _, answer)
        | Line::TcpEnd(_, answer)
        | Line::UdpOpen(_, _, answer) => *answer,
        _ => Made::Failed,
    }
}

/// What the line answers to a read or a write of the link or a connection, or to a read of a file; Failed where there is no line, or it is of
/// another call.
pub fn io(line: Option<&Line>) -> Io
    ensures { result ≡ io_of (option_map entry_of (option_copied line.entry)) }
{
    let Some(line) = line else {
        return Io::Failed;
    };
    match line {
        Line::LinkRead(_, answer, _)
        | Line::LinkWrite(_, answer)
        | Line::TcpRead(_, _, answer, _)
        | Line::TcpWrite(_, _, answer)
        | Line::FileRead(_, _, _, answer, _) => *answer,
        _ => Io::Failed,
    }
}

/// The octets that the line of a read or of a datagram brought; none where there is no line, or it is of another call.
pub fn brought(line: Option<&Line>) -> &[u8]
    ensures { result.now ≡ octets_of (option_map entry_of (option_copied line.entry)) }
{
    let Some(line) = line else {
        return &[];
    };
    match line {
        Line::LinkRead(_, _, octets)
        | Line::TcpRead(_, _, _, octets)
        | Line::UdpRecv(_, _, _, octets)
        | Line::FileRead(_, _, _, _, octets) => octets.as_slice(),
        _ => &[],
    }
}

/// What the line answers to `connected`; Failed where there is no line, or it is of another call.
pub fn joined(line: Option<&Line>) -> Joined
    ensures { result ≡ joined_of (option_map entry_of (option_copied line.entry)) }
{
    let Some(line) = line else {
        return Joined::Failed;
    };
    match line {
        Line::Connected(_, answer) => *answer,
        _ => Joined::Failed,
    }
}

/// What the line answers to `accept`; Failed where there is no line, or it is of another call.
pub fn accepted(line: Option<&Line>) -> Accepted
    ensures { result ≡ accepted_of (option_map entry_of (option_copied line.entry)) }
{
    let Some(line) = line else {
        return Accepted::Failed;
    };
    match line {
        Line::Accept(_, _, answer) => *answer,
        _ => Accepted::Failed,
    }
}

/// What the line answers to a datagram that is sent; Failed where there is no line, or it is of another call.
pub fn sent(line: Option<&Line>) -> Sent
    ensures { result ≡ sent_of (option_map entry_of (option_copied line.entry)) }
{
    let Some(line) = line else {
        return Sent::Failed;
    };
    match line {
        Line::UdpSend(_, _, _, answer) => *answer,
        _ => Sent::Failed,
    }
}

/// What the line answers to a call that takes a datagram; Failed where there is no line, or it is of another call.
pub fn got(line: Option<&Line>) -> Got
    ensures { result ≡ got_of (option_map entry_of (option_copied line.entry)) }
{
    let Some(line) = line else {
        return Got::Failed;
    };
    match line {
        Line::UdpRecv(_, _, answer, _) => *answer,
        _ => Got::Failed,
    }
}

/// What the line answers to the question for a file's length; Failed where there is no line, or it is of another call.
pub fn size(line: Option<&Line>) -> FileSize
    ensures { result ≡ size_of (option_map entry_of (option_copied line.entry)) }
{
    let Some(line) = line else {
        return FileSize::Failed;
    };
    match line {
        Line::FileLen(_, answer) => *answer,
        _ => FileSize::Failed,
    }
}
