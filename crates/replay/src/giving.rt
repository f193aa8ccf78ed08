// What a call brings to a line whose arguments a star stands for.
#![tactic(auto)]

ghost use Rattle.std.specs.Prelude.{Bool, ◌≡◌, ◌≤◌, ◌+◌, ◌*◌, ℕ, true, OnOk, length, List};
ghost use Rattle.std.specs.Vec.{vec_capacity};
ghost use Rattle.poll_list.specs.declared.Want.{Want as AWant};
ghost use Rattle.world_face.specs.Journal.{AtPath, call_of};
ghost use Rattle.replay.specs.Fitting.{IsOf, answered, with_answer};
ghost use Rattle.replay.specs.Lines.{row_of, rows_of, entry_of, call_at, place_at};
ghost use Rattle.replay.specs.Names.{name_of};
ghost use Rattle.replay.specs.Room.{AreRoomy, HasRoom, IsRoomy, MayBring, most_octets, kind_of, OnLink, Opening, OnStream, OfDatagram, OnFile};
ghost use Rattle.replay.specs.Rows.{TakesAll, room_of, row_room, rooms};

use crate::CallName;
use crate::line::{Line, Seat, Stop, name_of};
use crate::row::{Row, wrote};
use std::alloc::AllocError;
use world_face::{MOST_NAME, MOST_TO_FLOW, MOST_TO_LINK, MOST_TO_UDP, MOST_WANTS, Want};

/// Holds just these octets from now on, for which there is room already.
pub fn keep(into: &mut Vec<u8>, from: &[u8])
    requires { length from.now ≤ vec_capacity into.old }
    ensures items { into.new.items ≡ from.now }
    ensures capacity { vec_capacity into.old ≤ vec_capacity into.new }
{
    into.clear();
    let _ = into.extend_from_slice(from);
}

/// Holds just these wants from now on, for which there is room already.
pub fn keep_wants(into: &mut Vec<Want>, from: &[Want])
    requires { length from.now ≤ vec_capacity into.old }
    ensures items { into.new.items ≡ from.now }
    ensures capacity { vec_capacity into.old ≤ vec_capacity into.new }
{
    into.clear();
    let _ = into.extend_from_slice(from);
}

fn keep_path(seat: &mut Seat, path: &[u8])
    requires { length path.now ≤ vec_capacity seat.old.path }
    ensures place { place_at seat.new ≡ AtPath path.now }
    ensures capacity { vec_capacity seat.old.path ≤ vec_capacity seat.new.path }
{
    seat.at = None;
    keep(&mut seat.path, path);
}

// Puts a call's arguments in the place of the line's own.
fn give(line: &mut Line, all: bool, given: Stop, octets: &[u8], wants: &[Want])
    requires name { name_of (call_of (entry_of line.old)) ≡ name_of (call_at given octets.now wants.now) }
    requires room { HasRoom line.old }
    requires few { MayBring given (length octets.now) (length wants.now) }
    ensures entry { entry_of line.new ≡ with_answer all (call_at given octets.now wants.now) (entry_of line.old) }
    ensures room { HasRoom line.new }
{
    match given {
        Stop::Now => {}
        Stop::Wait(_)
        | Stop::LinkOpenPath
        | Stop::LinkOpenAt(_)
        | Stop::LinkRead(_)
        | Stop::LinkWrite => give_link(line, all, given, octets, wants),
        Stop::Connect(_, _) | Stop::Connected(_) | Stop::Listen(_, _) | Stop::Accept(_, _) =>
            give_opening(line, given),
        Stop::TcpRead(_, _) | Stop::TcpWrite(_) | Stop::TcpEnd(_) | Stop::Close(_) => give_stream(
            line, all, given, octets,
        ),
        Stop::UdpOpen(_, _) | Stop::UdpSend(_, _) | Stop::UdpRecv(_, _) => give_datagram(
            line, given, octets,
        ),
        Stop::FileLen | Stop::FileRead(_, _) => give_file(line, given, octets),
    }
}

// Puts the arguments of a call of the link, or of a wait, in the place of the line's own.
fn give_link(line: &mut Line, all: bool, given: Stop, octets: &[u8], wants: &[Want])
    requires name { name_of (call_of (entry_of line.old)) ≡ name_of (call_at given octets.now wants.now) }
    requires room { HasRoom line.old }
    requires few { MayBring given (length octets.now) (length wants.now) }
    ensures entry { kind_of given ≡ OnLink → entry_of line.new ≡ with_answer all (call_at given octets.now wants.now) (entry_of line.old) }
    ensures room { HasRoom line.new }
{
    match given {
        Stop::Wait(timeout) => {
            if let Line::Wait(kept, time, _, _) = line {
                keep_wants(kept, wants);
                *time = timeout;
            }
        }
        Stop::LinkOpenPath => {
            if let Line::LinkOpen(seat, _) = line {
                keep_path(seat, octets);
            }
        }
        Stop::LinkOpenAt(at) => {
            if let Line::LinkOpen(seat, _) = line {
                seat.at = Some(at);
            }
        }
        Stop::LinkRead(asked) => {
            if let Line::LinkRead(n, _, _) = line {
                *n = asked;
            }
        }
        Stop::LinkWrite => {
            if let Line::LinkWrite(kept, answer) = line {
                keep(kept, octets);
                *answer = wrote(all, octets, *answer);
            }
        }
        _ => {}
    }
}

// Puts the arguments of a call that opens a stream in the place of the line's own.
fn give_opening(line: &mut Line, given: Stop)
    requires name { (octets : List ℕ) (wants : List AWant) → name_of (call_of (entry_of line.old)) ≡ name_of (call_at given octets wants) }
    requires room { HasRoom line.old }
    ensures entry { kind_of given ≡ Opening → (all : Bool) (octets : List ℕ) (wants : List AWant)
        → entry_of line.new ≡ with_answer all (call_at given octets wants) (entry_of line.old) }
    ensures room { HasRoom line.new }
{
    match given {
        Stop::Connect(c, to) => {
            if let Line::Connect(socket, at, _) = line {
                *socket = c;
                *at = to;
            }
        }
        Stop::Connected(c) => {
            if let Line::Connected(socket, _) = line {
                *socket = c;
            }
        }
        Stop::Listen(l, at) => {
            if let Line::Listen(socket, here, _) = line {
                *socket = l;
                *here = at;
            }
        }
        Stop::Accept(l, c) => {
            if let Line::Accept(listener, socket, _) = line {
                *listener = l;
                *socket = c;
            }
        }
        _ => {}
    }
}

// Puts the arguments of a call on a stream in the place of the line's own.
fn give_stream(line: &mut Line, all: bool, given: Stop, octets: &[u8])
    requires name { (wants : List AWant) → name_of (call_of (entry_of line.old)) ≡ name_of (call_at given octets.now wants) }
    requires room { HasRoom line.old }
    requires few { length octets.now ≤ most_octets given }
    ensures entry { kind_of given ≡ OnStream → (wants : List AWant) → entry_of line.new ≡ with_answer all (call_at given octets.now wants) (entry_of line.old) }
    ensures room { HasRoom line.new }
{
    match given {
        Stop::TcpRead(c, asked) => {
            if let Line::TcpRead(socket, n, _, _) = line {
                *socket = c;
                *n = asked;
            }
        }
        Stop::TcpWrite(c) => {
            if let Line::TcpWrite(socket, kept, answer) = line {
                *socket = c;
                keep(kept, octets);
                *answer = wrote(all, octets, *answer);
            }
        }
        Stop::TcpEnd(c) => {
            if let Line::TcpEnd(socket, _) = line {
                *socket = c;
            }
        }
        Stop::Close(s) => {
            if let Line::Close(socket) = line {
                *socket = s;
            }
        }
        _ => {}
    }
}

// Puts the arguments of a datagram's call in the place of the line's own.
fn give_datagram(line: &mut Line, given: Stop, octets: &[u8])
    requires name { (wants : List AWant) → name_of (call_of (entry_of line.old)) ≡ name_of (call_at given octets.now wants) }
    requires room { HasRoom line.old }
    requires few { length octets.now ≤ most_octets given }
    ensures entry { kind_of given ≡ OfDatagram → (all : Bool) (wants : List AWant)
        → entry_of line.new ≡ with_answer all (call_at given octets.now wants) (entry_of line.old) }
    ensures room { HasRoom line.new }
{
    match given {
        Stop::UdpOpen(s, at) => {
            if let Line::UdpOpen(socket, here, _) = line {
                *socket = s;
                *here = at;
            }
        }
        Stop::UdpSend(s, to) => {
            if let Line::UdpSend(socket, at, kept, _) = line {
                *socket = s;
                *at = to;
                keep(kept, octets);
            }
        }
        Stop::UdpRecv(s, asked) => {
            if let Line::UdpRecv(socket, n, _, _) = line {
                *socket = s;
                *n = asked;
            }
        }
        _ => {}
    }
}

// Puts the arguments of a file's call in the place of the line's own.
fn give_file(line: &mut Line, given: Stop, octets: &[u8])
    requires name { (wants : List AWant) → name_of (call_of (entry_of line.old)) ≡ name_of (call_at given octets.now wants) }
    requires room { HasRoom line.old }
    requires few { length octets.now ≤ most_octets given }
    ensures entry { kind_of given ≡ OnFile → (all : Bool) (wants : List AWant)
        → entry_of line.new ≡ with_answer all (call_at given octets.now wants) (entry_of line.old) }
    ensures room { HasRoom line.new }
{
    match given {
        Stop::FileLen => {
            if let Line::FileLen(kept, _) = line {
                keep(kept, octets);
            }
        }
        Stop::FileRead(at, asked) => {
            if let Line::FileRead(kept, place, n, _, _) = line {
                keep(kept, octets);
                *place = at;
                *n = asked;
            }
        }
        _ => {}
    }
}

fn reserve_in(line: &mut Line) -> Result<(), AllocError>
    ensures entry { entry_of line.new ≡ entry_of line.old }
    ensures room { OnOk result (HasRoom line.new) }
{
    match line {
        Line::Wait(wants, _, _, _) => wants.reserve_exact(MOST_WANTS),
        Line::LinkOpen(seat, _) => seat.path.reserve_exact(MOST_NAME),
        Line::LinkWrite(octets, _) => octets.reserve_exact(MOST_TO_LINK),
        Line::TcpWrite(_, octets, _) => octets.reserve_exact(MOST_TO_FLOW),
        Line::UdpSend(_, _, octets, _) => octets.reserve_exact(MOST_TO_UDP),
        Line::FileLen(name, _) => name.reserve_exact(MOST_NAME),
        Line::FileRead(name, _, _, _, _) => name.reserve_exact(MOST_NAME),
        _ => Ok(()),
    }
}

// The room that a star takes in a line of this name, in octets.
fn room_of(name: CallName) -> u64
    ensures room { result ≡ room_of name }
    ensures most { result ≤ 82480 }
{
    match name {
        CallName::Wait => 82480,
        CallName::LinkOpen | CallName::FileLen | CallName::FileRead => MOST_NAME as u64,
        CallName::LinkWrite => MOST_TO_LINK as u64,
        CallName::TcpWrite => MOST_TO_FLOW as u64,
        CallName::UdpSend => MOST_TO_UDP as u64,
        _ => 0,
    }
}

impl Row {
    /// Puts the call's arguments in the place of a star, and where `all` stands for the count of its write the count of its octets. A line without
    /// a star stays as it is.
    pub fn complete(&mut self, given: Stop, octets: &[u8], wants: &[Want])
        requires of { IsOf (row_of self.old) (call_at given octets.now wants.now) }
        requires all { self.old.all ≡ true → TakesAll (entry_of self.old.line) }
        requires room { IsRoomy self.old }
        requires few { MayBring given (length octets.now) (length wants.now) }
        ensures row { row_of self.new ≡ record (row_of self.old) { entry = answered (row_of self.old) (call_at given octets.now wants.now) } }
        ensures room { IsRoomy self.new }
    {
        if self.starred {
            give(&mut self.line, self.all, given, octets, wants);
        }
    }

    /// Takes the room that the arguments behind a star need at most; a line without a star needs none. Err where there is no memory for it.
    pub fn reserve(&mut self) -> Result<(), AllocError>
        ensures row { row_of self.new ≡ row_of self.old }
        ensures room { OnOk result (IsRoomy self.new) }
    {
        if !self.starred {
            return Ok(());
        }
        reserve_in(&mut self.line)
    }

    // The room that it takes, in octets.
    fn room(&self) -> u64
        ensures room { result ≡ row_room (row_of self.now) }
        ensures most { result ≤ 82480 }
    {
        if !self.starred {
            return 0;
        }
        room_of(name_of(&self.line))
    }
}

/// The room that the stars of these lines take in all, in octets.
pub fn rooms(rows: &[Row]) -> u64
    requires { length rows.now ≤ 67108864 }
    ensures { result ≡ rooms (rows_of rows.now) }
{
    let mut sum = 0;
    let mut rest = rows;
    while let [row, after @ ..] = rest {
        sum += row.room();
        rest = after;
    }
    sum
}

/// Takes the room that the stars of these lines need. Err where there is no memory for it.
pub fn reserve_all(rows: &mut [Row]) -> Result<(), AllocError>
    ensures rows { OnOk result (rows_of rows.new ≡ rows_of rows.old) }
    ensures room { OnOk result (AreRoomy rows.new) }
{
    for row in rows.iter_mut() {
        row.reserve()?;
    }
    Ok(())
}
