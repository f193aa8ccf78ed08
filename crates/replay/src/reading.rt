// Lines, read whole.
#![tactic(auto, unfolding(crate::specs::Text::call_text, crate::specs::Text::answer_text))]

ghost use Rattle.std.specs.Prelude.{◌≡◌, ◌≢◌, ◌++◌, ◌∷◌, [], ℕ, List, Err, IfOk, OnErr, IsTrue, ◌↔◌, codes, decimal, length, ◌<◌};
ghost use Rattle.replay.specs.Names.{name_text};
ghost use Rattle.replay.specs.Fitting.{with_answer};
ghost use Rattle.replay.specs.Lines.{entry_of, place_at, row_of};
ghost use Rattle.replay.specs.Rows.{Row as ARow, IsReadable, row_text};
ghost use Rattle.address_text.specs.Texts.{endpoint_text, place_text};
ghost use Rattle.net_octets.specs.declared.Endpoint.{Endpoint as AnEndpoint};
ghost use Rattle.world_face.specs.Journal.{Place, Entry, IsEndpoint, IsNumber, IsPlace, call_of};
ghost use Rattle.replay.specs.declared.CallName.TheVariants.{Now, Wait, LinkOpen, LinkRead, LinkWrite, Connect, Connected, Listen, Accept, TcpRead, TcpWrite, TcpEnd, Close, UdpOpen};
ghost use Rattle.replay.specs.declared.CallName.TheVariants.{UdpSend, UdpRecv, FileLen, FileRead};
ghost use Rattle.replay.specs.declared.tokens.Unread.TheVariants.{NoReading};
ghost use Rattle.replay.specs.Range.{AnswersInRange};
ghost use Rattle.replay.specs.Encoding.{IsWritten, Says, SaysRow, blank_args, counted_answer, given_args, is_write};

use crate::CallName;
use crate::allowing::same;
use crate::line::{Line, Seat};
use crate::outcomes::{
    read_accepted, read_file_answer, read_got, read_joined, read_made, read_read, read_sent,
    read_size, read_waited, read_written,
};
use crate::row::Row;
use crate::tokens::{
    Unread, read_endpoint, read_name, read_number, read_octets, read_timeout, read_wants, split_at,
};
use std::alloc::Global;
use world_face::{Endpoint, Io};

/// Reads a line, given without its line feed. NoReading where no line is written so, NoMemory where there is no room for what it holds.
pub fn read_line(alloc: Global, text: &[u8]) -> Result<Row, Unread>
    ensures line { IfOk result (λ row. text.now ++ 10 ∷ [] ≡ row_text (row_of row)) }
    ensures range { IfOk result (λ row. IsReadable (row_of row)) }
    ensures refused { result ≡ Err NoReading → (row : ARow) → IsReadable row → text.now ++ 10 ∷ [] ≢ row_text row }
{
    let (call, answer) = split_answer(text)?;
    let row = read_call(alloc, call, answer)?;
    Ok(row)
}

fn split_answer(text: &[u8]) -> Result<(&[u8], &[u8]), Unread>
    ensures parts { IfOk result (λ parts. text.now ≡ parts.0.now ++ codes " = " ++ parts.1.now) }
    ensures refused { OnErr result ((row : ARow) → IsReadable row → text.now ++ 10 ∷ [] ≢ row_text row) }
    ensures only { IfOk result (λ parts. (row : ARow) → IsReadable row → text.now ++ 10 ∷ [] ≡ row_text row → IsWritten parts.0.now parts.1.now row) }
{
    let (before, after) = split_at(text, b'=')?;
    let call = before_space(before)?;
    let answer = after_space(after)?;
    Ok((call, answer))
}

fn before_space(text: &[u8]) -> Result<&[u8], Unread>
    ensures rest { IfOk result (λ rest. text.now ≡ rest.now ++ 32 ∷ []) }
    ensures refused { OnErr result ((rest : List ℕ) → text.now ≢ rest ++ 32 ∷ []) }
{
    match text {
        [rest @ .., b' '] => Ok(rest),
        _ => Err(Unread::NoReading),
    }
}

fn after_space(text: &[u8]) -> Result<&[u8], Unread>
    ensures rest { IfOk result (λ rest. text.now ≡ 32 ∷ rest.now) }
    ensures refused { OnErr result ((rest : List ℕ) → text.now ≢ 32 ∷ rest) }
{
    match text {
        [b' ', rest @ ..] => Ok(rest),
        _ => Err(Unread::NoReading),
    }
}

fn read_call(alloc: Global, call: &[u8], answer: &[u8]) -> Result<Row, Unread>
    ensures line { IfOk result (λ row. IsWritten call.now answer.now (row_of row)) }
    ensures range { IfOk result (λ row. IsReadable (row_of row)) }
    ensures refused { result ≡ Err NoReading → (row : ARow) → IsReadable row → ¬ IsWritten call.now answer.now row }
{
    if same(call, b"now") {
        return read_now(answer);
    }
    let (word, args) = split_at(call, b' ')?;
    let name = read_name(word)?;
    let row = read_row(alloc, name, args, answer)?;
    Ok(row)
}

// A line whose call has arguments. A star is read as arguments of no meaning, `all` as a count of none.
fn read_row(alloc: Global, name: CallName, args: &[u8], answer: &[u8]) -> Result<Row, Unread>
    ensures line { IfOk result (λ row. IsWritten (name_text name ++ 32 ∷ args.now) answer.now (row_of row)) }
    ensures range { IfOk result (λ row. IsReadable (row_of row)) }
    ensures refused { result ≡ Err NoReading → (row : ARow) → ¬ SaysRow name args.now answer.now row }
{
    let starred = same(args, b"*");
    let all = is_all(name, answer);
    let given = given_args(starred, name, args);
    let said = counted_answer(all, answer);
    let line = read_named(alloc, name, given, said)?;
    Ok(Row {
        line: counted(line, all),
        starred,
        all,
    })
}

// All that a write offered was taken.
fn is_all(name: CallName, answer: &[u8]) -> bool
    ensures { IsTrue result ↔ (IsTrue (is_write name) × (answer.now ≡ codes "all")) }
{
    match name {
        CallName::LinkWrite | CallName::TcpWrite => same(answer, b"all"),
        _ => false,
    }
}

fn given_args(starred: bool, name: CallName, args: &[u8]) -> &[u8]
    ensures { result.now ≡ given_args starred name args.now }
{
    if starred {
        return blank_args(name);
    }
    args
}

fn counted_answer(all: bool, answer: &[u8]) -> &[u8]
    ensures { result.now ≡ counted_answer all answer.now }
{
    if all {
        return b"done 0";
    }
    answer
}

// Arguments of no meaning.
fn blank_args(name: CallName) -> &'static [u8]
    ensures { result.now ≡ blank_args name }
{
    match name {
        CallName::Now => b"",
        CallName::Wait => b"- -",
        CallName::LinkOpen => b"7463703a302e302e302e303a30",
        CallName::LinkWrite | CallName::FileLen => b"-",
        CallName::LinkRead | CallName::Connected | CallName::TcpEnd | CallName::Close => b"0",
        CallName::Connect | CallName::Listen | CallName::UdpOpen => b"0 0.0.0.0:0",
        CallName::Accept | CallName::TcpRead | CallName::UdpRecv => b"0 0",
        CallName::TcpWrite => b"0 -",
        CallName::UdpSend => b"0 0.0.0.0:0 -",
        CallName::FileRead => b"- 0 0",
    }
}

// A write that took all that was offered.
fn counted(line: Line, all: bool) -> Line
    ensures entry { entry_of result ≡ with_answer all (call_of (entry_of line)) (entry_of line) }
    ensures range { AnswersInRange (entry_of line) → AnswersInRange (entry_of result) }
{
    if !all {
        return line;
    }
    match line {
        Line::LinkWrite(octets, _) => {
            let count = octets.len();
            Line::LinkWrite(octets, Io::Done(count))
        }
        Line::TcpWrite(socket, octets, _) => {
            let count = octets.len();
            Line::TcpWrite(socket, octets, Io::Done(count))
        }
        other => other,
    }
}

fn read_named(alloc: Global, name: CallName, args: &[u8], answer: &[u8]) -> Result<Line, Unread>
    ensures said { IfOk result (λ line. Says name args.now answer.now (entry_of line)) }
    ensures some { IfOk result (λ line. name ≢ Now) }
    ensures refused { result ≡ Err NoReading → (e : Entry) → ¬ Says name args.now answer.now e }
{
    match name {
        CallName::Now => Err(Unread::NoReading),
        CallName::Wait => read_wait(alloc, args, answer),
        CallName::LinkOpen => read_link_open(alloc, args, answer),
        CallName::LinkRead => read_link_read(alloc, args, answer),
        CallName::LinkWrite => read_link_write(alloc, args, answer),
        CallName::Connect => read_connect(args, answer),
        CallName::Connected => read_connected(args, answer),
        CallName::Listen => read_listen(args, answer),
        CallName::Accept => read_accept(args, answer),
        CallName::TcpRead => read_tcp_read(alloc, args, answer),
        CallName::TcpWrite => read_tcp_write(alloc, args, answer),
        CallName::TcpEnd => read_tcp_end(args, answer),
        CallName::Close => read_close(args, answer),
        CallName::UdpOpen => read_udp_open(args, answer),
        CallName::UdpSend => read_udp_send(alloc, args, answer),
        CallName::UdpRecv => read_udp_recv(alloc, args, answer),
        CallName::FileLen => read_file_len(alloc, args, answer),
        CallName::FileRead => read_file_read(alloc, args, answer),
    }
}

fn read_now(answer: &[u8]) -> Result<Row, Unread>
    ensures line { IfOk result (λ row. IsWritten (codes "now") answer.now (row_of row)) }
    ensures range { IfOk result (λ row. IsReadable (row_of row)) }
    ensures refused { OnErr result ((moment : ℕ) → IsNumber moment → answer.now ≢ decimal moment) }
{
    let moment = read_number(answer)?;
    Ok(Row {
        line: Line::Now(moment),
        starred: false,
        all: false,
    })
}

fn read_wait(alloc: Global, args: &[u8], answer: &[u8]) -> Result<Line, Unread>
    ensures said { IfOk result (λ line. Says Wait args.now answer.now (entry_of line)) }
    ensures refused { result ≡ Err NoReading → (e : Entry) → ¬ Says Wait args.now answer.now e }
{
    let (time, list) = split_at(args, b' ')?;
    let timeout = read_timeout(time)?;
    let wants = read_wants(alloc, list)?;
    let (waited, ready) = read_waited(alloc, answer)?;
    Ok(Line::Wait(wants, timeout, waited, ready))
}

fn read_link_open(alloc: Global, args: &[u8], answer: &[u8]) -> Result<Line, Unread>
    ensures said { IfOk result (λ line. Says LinkOpen args.now answer.now (entry_of line)) }
    ensures refused { result ≡ Err NoReading → (e : Entry) → ¬ Says LinkOpen args.now answer.now e }
{
    let text = read_octets(alloc, args)?;
    let seat = read_seat(alloc, &text)?;
    let made = read_made(answer)?;
    Ok(Line::LinkOpen(seat, made))
}

fn read_link_read(alloc: Global, args: &[u8], answer: &[u8]) -> Result<Line, Unread>
    ensures said { IfOk result (λ line. Says LinkRead args.now answer.now (entry_of line)) }
    ensures refused { result ≡ Err NoReading → (e : Entry) → ¬ Says LinkRead args.now answer.now e }
{
    let asked = read_number(args)?;
    let (read, octets) = read_read(alloc, answer)?;
    Ok(Line::LinkRead(asked as usize, read, octets))
}

fn read_link_write(alloc: Global, args: &[u8], answer: &[u8]) -> Result<Line, Unread>
    ensures said { IfOk result (λ line. Says LinkWrite args.now answer.now (entry_of line)) }
    ensures refused { result ≡ Err NoReading → (e : Entry) → ¬ Says LinkWrite args.now answer.now e }
{
    let octets = read_octets(alloc, args)?;
    let written = read_written(answer)?;
    Ok(Line::LinkWrite(octets, written))
}

fn read_connect(args: &[u8], answer: &[u8]) -> Result<Line, Unread>
    ensures said { IfOk result (λ line. Says Connect args.now answer.now (entry_of line)) }
    ensures refused { result ≡ Err NoReading → (e : Entry) → ¬ Says Connect args.now answer.now e }
{
    let (socket, to) = read_socket_at(args)?;
    let made = read_made(answer)?;
    Ok(Line::Connect(socket, to, made))
}

fn read_connected(args: &[u8], answer: &[u8]) -> Result<Line, Unread>
    ensures said { IfOk result (λ line. Says Connected args.now answer.now (entry_of line)) }
    ensures refused { result ≡ Err NoReading → (e : Entry) → ¬ Says Connected args.now answer.now e }
{
    let socket = read_number(args)?;
    let joined = read_joined(answer)?;
    Ok(Line::Connected(socket, joined))
}

fn read_listen(args: &[u8], answer: &[u8]) -> Result<Line, Unread>
    ensures said { IfOk result (λ line. Says Listen args.now answer.now (entry_of line)) }
    ensures refused { result ≡ Err NoReading → (e : Entry) → ¬ Says Listen args.now answer.now e }
{
    let (socket, at) = read_socket_at(args)?;
    let made = read_made(answer)?;
    Ok(Line::Listen(socket, at, made))
}

fn read_accept(args: &[u8], answer: &[u8]) -> Result<Line, Unread>
    ensures said { IfOk result (λ line. Says Accept args.now answer.now (entry_of line)) }
    ensures refused { result ≡ Err NoReading → (e : Entry) → ¬ Says Accept args.now answer.now e }
{
    let (listener, socket) = read_two_numbers(args)?;
    let accepted = read_accepted(answer)?;
    Ok(Line::Accept(listener, socket, accepted))
}

fn read_tcp_read(alloc: Global, args: &[u8], answer: &[u8]) -> Result<Line, Unread>
    ensures said { IfOk result (λ line. Says TcpRead args.now answer.now (entry_of line)) }
    ensures refused { result ≡ Err NoReading → (e : Entry) → ¬ Says TcpRead args.now answer.now e }
{
    let (socket, asked) = read_two_numbers(args)?;
    let (read, octets) = read_read(alloc, answer)?;
    Ok(Line::TcpRead(socket, asked as usize, read, octets))
}

fn read_tcp_write(alloc: Global, args: &[u8], answer: &[u8]) -> Result<Line, Unread>
    ensures said { IfOk result (λ line. Says TcpWrite args.now answer.now (entry_of line)) }
    ensures refused { result ≡ Err NoReading → (e : Entry) → ¬ Says TcpWrite args.now answer.now e }
{
    let (first, second) = split_at(args, b' ')?;
    let socket = read_number(first)?;
    let octets = read_octets(alloc, second)?;
    let written = read_written(answer)?;
    Ok(Line::TcpWrite(socket, octets, written))
}

fn read_tcp_end(args: &[u8], answer: &[u8]) -> Result<Line, Unread>
    ensures said { IfOk result (λ line. Says TcpEnd args.now answer.now (entry_of line)) }
    ensures refused { result ≡ Err NoReading → (e : Entry) → ¬ Says TcpEnd args.now answer.now e }
{
    let socket = read_number(args)?;
    let made = read_made(answer)?;
    Ok(Line::TcpEnd(socket, made))
}

fn read_close(args: &[u8], answer: &[u8]) -> Result<Line, Unread>
    ensures said { IfOk result (λ line. Says Close args.now answer.now (entry_of line)) }
    ensures refused { result ≡ Err NoReading → (e : Entry) → ¬ Says Close args.now answer.now e }
{
    let socket = read_number(args)?;
    if same(answer, b"done") {
        return Ok(Line::Close(socket));
    }
    Err(Unread::NoReading)
}

fn read_udp_open(args: &[u8], answer: &[u8]) -> Result<Line, Unread>
    ensures said { IfOk result (λ line. Says UdpOpen args.now answer.now (entry_of line)) }
    ensures refused { result ≡ Err NoReading → (e : Entry) → ¬ Says UdpOpen args.now answer.now e }
{
    let (socket, at) = read_socket_at(args)?;
    let made = read_made(answer)?;
    Ok(Line::UdpOpen(socket, at, made))
}

fn read_udp_send(alloc: Global, args: &[u8], answer: &[u8]) -> Result<Line, Unread>
    ensures said { IfOk result (λ line. Says UdpSend args.now answer.now (entry_of line)) }
    ensures refused { result ≡ Err NoReading → (e : Entry) → ¬ Says UdpSend args.now answer.now e }
{
    let (first, rest) = split_at(args, b' ')?;
    let (second, third) = split_at(rest, b' ')?;
    let socket = read_number(first)?;
    let to = read_endpoint(second)?;
    let octets = read_octets(alloc, third)?;
    let sent = read_sent(answer)?;
    Ok(Line::UdpSend(socket, to, octets, sent))
}

fn read_udp_recv(alloc: Global, args: &[u8], answer: &[u8]) -> Result<Line, Unread>
    ensures said { IfOk result (λ line. Says UdpRecv args.now answer.now (entry_of line)) }
    ensures refused { result ≡ Err NoReading → (e : Entry) → ¬ Says UdpRecv args.now answer.now e }
{
    let (socket, asked) = read_two_numbers(args)?;
    let (got, octets) = read_got(alloc, answer)?;
    Ok(Line::UdpRecv(socket, asked as usize, got, octets))
}

fn read_file_len(alloc: Global, args: &[u8], answer: &[u8]) -> Result<Line, Unread>
    ensures said { IfOk result (λ line. Says FileLen args.now answer.now (entry_of line)) }
    ensures refused { result ≡ Err NoReading → (e : Entry) → ¬ Says FileLen args.now answer.now e }
{
    let name = read_octets(alloc, args)?;
    let size = read_size(answer)?;
    Ok(Line::FileLen(name, size))
}

fn read_file_read(alloc: Global, args: &[u8], answer: &[u8]) -> Result<Line, Unread>
    ensures said { IfOk result (λ line. Says FileRead args.now answer.now (entry_of line)) }
    ensures refused { result ≡ Err NoReading → (e : Entry) → ¬ Says FileRead args.now answer.now e }
{
    let (first, rest) = split_at(args, b' ')?;
    let (second, third) = split_at(rest, b' ')?;
    let name = read_octets(alloc, first)?;
    let place = read_number(second)?;
    let asked = read_number(third)?;
    let (read, octets) = read_file_answer(alloc, answer)?;
    Ok(Line::FileRead(name, place, asked as usize, read, octets))
}

fn read_socket_at(args: &[u8]) -> Result<(u64, Endpoint), Unread>
    ensures pair { IfOk result (λ pair. args.now ≡ decimal pair.0 ++ 32 ∷ endpoint_text pair.1) }
    ensures range { IfOk result (λ pair. IsNumber pair.0 × IsEndpoint pair.1) }
    ensures refused { OnErr result ((socket : ℕ) (at : AnEndpoint) → IsNumber socket → IsEndpoint at → args.now ≢ decimal socket ++ 32 ∷ endpoint_text at) }
{
    let (first, second) = split_at(args, b' ')?;
    let socket = read_number(first)?;
    let at = read_endpoint(second)?;
    Ok((socket, at))
}

fn read_two_numbers(args: &[u8]) -> Result<(u64, u64), Unread>
    ensures pair { IfOk result (λ pair. args.now ≡ decimal pair.0 ++ 32 ∷ decimal pair.1) }
    ensures range { IfOk result (λ pair. IsNumber pair.0 × IsNumber pair.1) }
    ensures refused { OnErr result ((one other : ℕ) → IsNumber one → IsNumber other → args.now ≢ decimal one ++ 32 ∷ decimal other) }
{
    let (first, second) = split_at(args, b' ')?;
    let one = read_number(first)?;
    let other = read_number(second)?;
    Ok((one, other))
}

// The place of the link, as on the command line. A path isn't empty.
fn read_seat(alloc: Global, text: &[u8]) -> Result<Seat, Unread>
    ensures seat { IfOk result (λ seat. text.now ≡ place_text (place_at seat)) }
    ensures range { IfOk result (λ seat. IsPlace (place_at seat)) }
    ensures refused { result ≡ Err NoReading → (place : Place) → IsPlace place → text.now ≢ place_text place }
{
    let (kind, place) = split_at(text, b':')?;
    if same(kind, b"unix") {
        return copy_path(alloc, place);
    }
    if same(kind, b"tcp") {
        return Ok(Seat {
            path: Vec::new(alloc),
            at: Some(read_endpoint(place)?),
        });
    }
    Err(Unread::NoReading)
}

fn copy_path(alloc: Global, path: &[u8]) -> Result<Seat, Unread>
    ensures seat { IfOk result (λ seat. codes "unix:" ++ path.now ≡ place_text (place_at seat)) }
    ensures range { IfOk result (λ seat. IsPlace (place_at seat)) }
    ensures refused { result ≡ Err NoReading → length path.now ≡ 0 }
{
    if path.is_empty() {
        return Err(Unread::NoReading);
    }
    match Vec::from_slice(alloc, path) {
        Ok(path) => Ok(Seat { path, at: None }),
        Err(_) => Err(Unread::NoMemory),
    }
}
