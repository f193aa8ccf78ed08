// The text of lines, put piece by piece.
#![tactic(auto, using(world_face::proofs::Putting::puts_then, world_face::proofs::Putting::puts_failed), unfolding(crate::specs::Text::call_text, crate::specs::Text::answer_text))]

ghost use Rattle.std.specs.Prelude.{◌≡◌, ◌++◌, ◌∷◌, [], ℕ, List, codes, decimal};
ghost use Rattle.std.specs.Prelude.{◌+◌, ◌≤◌, ◌<◌, length, IfSome, IfNone};
ghost use Rattle.replay.specs.Rows.{entries_of};
ghost use Rattle.replay.specs.Pieces.{lines_text, more_text};
ghost use Rattle.hex.specs.Hex.{encode_lower};
ghost use Rattle.world_face.specs.Puts.{Puts};
ghost use Rattle.world_face.specs.Journal.{call_of};
ghost use Rattle.replay.specs.Lines.{entry_of, rows_of, place_of_two};
ghost use Rattle.replay.specs.Views.{viewed};
ghost use Rattle.address_text.specs.Texts.{endpoint_text, place_text};
ghost use Rattle.replay.specs.Text.{hexadecimal, who_text, direction_text, want_text, joined_text, wants_text, timeout_text, made_text, read_text, written_text, joined_answer};
ghost use Rattle.replay.specs.Text.{accepted_text, sent_text, got_text, size_text, ready_text, waited_text, call_text, answer_text, line_text};

use crate::row::Row;
use crate::view::LineView;
use address_text::endpoint_string;
use itoa::Buffer;
use world_face::{
    Accepted, Endpoint, Failed, FileSize, Got, Io, Joined, Made, Sent, Sink, Waited, Want, Who,
};

// Octets that are put in hexadecimal at a time.
const CHUNK: usize = 512;

/// Puts the text of the calls of these lines with their answers, a line each. Where a star or `all` stood the text has what it stood for.
pub fn put_rows<K: Sink>(rows: &[Row], out: &mut K) -> Result<(), Failed>
    ensures { Puts (K.holds out.old) (K.holds out.new) (K.faults out.old) (K.faults out.new) (lines_text (entries_of (rows_of rows.now))) result }
{
    for row in rows {
        put_row(row, out)?;
    }
    Ok(())
}

fn put_row<K: Sink>(row: &Row, out: &mut K) -> Result<(), Failed>
    ensures { Puts (K.holds out.old) (K.holds out.new) (K.faults out.old) (K.faults out.new) (line_text (entry_of row.now.line)) result }
{
    put_line(&row.line.view(), out)
}

/// Puts a line: the call with its arguments, its answer, and a line feed.
pub fn put_line<K: Sink>(line: &LineView<'_>, out: &mut K) -> Result<(), Failed>
    ensures { Puts (K.holds out.old) (K.holds out.new) (K.faults out.old) (K.faults out.new) (line_text (viewed line.now)) result }
{
    put_call(line, out)?;
    out.put(b" = ")?;
    put_answer(line, out)?;
    out.put(b"\n")
}

fn put_call<K: Sink>(line: &LineView<'_>, out: &mut K) -> Result<(), Failed>
    ensures { Puts (K.holds out.old) (K.holds out.new) (K.faults out.old) (K.faults out.new) (call_text (call_of (viewed line.now))) result }
{
    match line {
        LineView::Now(_) => out.put(b"now"),
        LineView::Wait(wants, timeout, _, _) => put_wait(wants, *timeout, out),
        LineView::LinkOpen(path, at, _) => put_link_open(path, *at, out),
        LineView::LinkRead(asked, _, _) => put_numbered(b"lread ", *asked as u64, out),
        LineView::LinkWrite(octets, _) => put_with_octets(b"lwrite ", octets, out),
        LineView::Connect(socket, to, _) => put_socket_at(b"connect ", *socket, *to, out),
        LineView::Connected(socket, _) => put_numbered(b"connected ", *socket, out),
        LineView::Listen(socket, at, _) => put_socket_at(b"listen ", *socket, *at, out),
        LineView::Accept(listener, socket, _) => {
            put_two_numbers(b"accept ", *listener, *socket, out)
        }
        LineView::TcpRead(socket, asked, _, _) => {
            put_two_numbers(b"tread ", *socket, *asked as u64, out)
        }
        LineView::TcpWrite(socket, octets, _) => put_tcp_write(*socket, octets, out),
        LineView::TcpEnd(socket, _) => put_numbered(b"tend ", *socket, out),
        LineView::Close(socket) => put_numbered(b"close ", *socket, out),
        LineView::UdpOpen(socket, at, _) => put_socket_at(b"uopen ", *socket, *at, out),
        LineView::UdpSend(socket, to, octets, _) => put_udp_send(*socket, *to, octets, out),
        LineView::UdpRecv(socket, asked, _, _) => {
            put_two_numbers(b"urecv ", *socket, *asked as u64, out)
        }
        LineView::FileLen(name, _) => put_with_octets(b"flen ", name, out),
        LineView::FileRead(name, place, asked, _, _) => {
            put_file_read(name, *place, *asked as u64, out)
        }
    }
}

fn put_answer<K: Sink>(line: &LineView<'_>, out: &mut K) -> Result<(), Failed>
    ensures { Puts (K.holds out.old) (K.holds out.new) (K.faults out.old) (K.faults out.new) (answer_text (viewed line.now)) result }
{
    match line {
        LineView::Now(moment) => put_number(*moment, out),
        LineView::Wait(_, _, answer, ready) => put_waited(*answer, ready, out),
        LineView::LinkOpen(_, _, answer) => put_made(*answer, out),
        LineView::LinkRead(_, answer, octets) => put_read(*answer, octets, out),
        LineView::LinkWrite(_, answer) => put_written(*answer, out),
        LineView::Connect(_, _, answer) => put_made(*answer, out),
        LineView::Connected(_, answer) => put_joined(*answer, out),
        LineView::Listen(_, _, answer) => put_made(*answer, out),
        LineView::Accept(_, _, answer) => put_accepted(*answer, out),
        LineView::TcpRead(_, _, answer, octets) => put_read(*answer, octets, out),
        LineView::TcpWrite(_, _, answer) => put_written(*answer, out),
        LineView::TcpEnd(_, answer) => put_made(*answer, out),
        LineView::Close(_) => out.put(b"done"),
        LineView::UdpOpen(_, _, answer) => put_made(*answer, out),
        LineView::UdpSend(_, _, _, answer) => put_sent(*answer, out),
        LineView::UdpRecv(_, _, answer, octets) => put_got(*answer, octets, out),
        LineView::FileLen(_, answer) => put_size(*answer, out),
        LineView::FileRead(_, _, _, answer, octets) => put_read(*answer, octets, out),
    }
}

fn put_wait<K: Sink>(wants: &[Want], timeout: Option<u64>, out: &mut K) -> Result<(), Failed>
    ensures { Puts (K.holds out.old) (K.holds out.new) (K.faults out.old) (K.faults out.new)
        (codes "wait " ++ timeout_text timeout ++ codes " " ++ wants_text wants.now) result }
{
    out.put(b"wait ")?;
    put_timeout(timeout, out)?;
    out.put(b" ")?;
    put_wants(wants, out)
}

fn put_timeout<K: Sink>(timeout: Option<u64>, out: &mut K) -> Result<(), Failed>
    ensures { Puts (K.holds out.old) (K.holds out.new) (K.faults out.old) (K.faults out.new) (timeout_text timeout) result }
{
    match timeout {
        Some(timeout) => put_number(timeout, out),
        None => out.put(b"-"),
    }
}

fn put_link_open<K: Sink>(path: &[u8], at: Option<Endpoint>, out: &mut K) -> Result<(), Failed>
    ensures { Puts (K.holds out.old) (K.holds out.new) (K.faults out.old) (K.faults out.new)
        (codes "lopen " ++ hexadecimal (place_text (place_of_two at path.now))) result }
{
    out.put(b"lopen ")?;
    match at {
        None => put_place(b"unix:", path, out),
        Some(at) => put_place(b"tcp:", endpoint_string(at).as_str().as_bytes(), out),
    }
}

// The hexadecimal of a kind and a place.
fn put_place<K: Sink>(kind: &[u8], place: &[u8], out: &mut K) -> Result<(), Failed>
    ensures { Puts (K.holds out.old) (K.holds out.new) (K.faults out.old) (K.faults out.new) (encode_lower (kind.now ++ place.now)) result }
{
    put_digits(kind, out)?;
    put_digits(place, out)
}

fn put_numbered<K: Sink>(name: &[u8], number: u64, out: &mut K) -> Result<(), Failed>
    ensures { Puts (K.holds out.old) (K.holds out.new) (K.faults out.old) (K.faults out.new) (name.now ++ decimal number) result }
{
    out.put(name)?;
    put_number(number, out)
}

fn put_with_octets<K: Sink>(name: &[u8], octets: &[u8], out: &mut K) -> Result<(), Failed>
    ensures { Puts (K.holds out.old) (K.holds out.new) (K.faults out.old) (K.faults out.new) (name.now ++ hexadecimal octets.now) result }
{
    out.put(name)?;
    put_octets(octets, out)
}

fn put_socket_at<K: Sink>(name: &[u8], socket: u64, at: Endpoint, out: &mut K) -> Result<(), Failed>
    ensures { Puts (K.holds out.old) (K.holds out.new) (K.faults out.old) (K.faults out.new)
        (name.now ++ decimal socket ++ codes " " ++ endpoint_text at) result }
{
    put_numbered(name, socket, out)?;
    out.put(b" ")?;
    put_endpoint(at, out)
}

fn put_two_numbers<K: Sink>(name: &[u8], one: u64, other: u64, out: &mut K) -> Result<(), Failed>
    ensures { Puts (K.holds out.old) (K.holds out.new) (K.faults out.old) (K.faults out.new) (name.now ++ decimal one ++ codes " " ++ decimal other) result }
{
    put_numbered(name, one, out)?;
    out.put(b" ")?;
    put_number(other, out)
}

fn put_tcp_write<K: Sink>(socket: u64, octets: &[u8], out: &mut K) -> Result<(), Failed>
    ensures { Puts (K.holds out.old) (K.holds out.new) (K.faults out.old) (K.faults out.new)
        (codes "twrite " ++ decimal socket ++ codes " " ++ hexadecimal octets.now) result }
{
    put_numbered(b"twrite ", socket, out)?;
    out.put(b" ")?;
    put_octets(octets, out)
}

fn put_udp_send<K: Sink>(
    socket: u64,
    to: Endpoint,
    octets: &[u8],
    out: &mut K,
) -> Result<(), Failed>
    ensures { Puts (K.holds out.old) (K.holds out.new) (K.faults out.old) (K.faults out.new)
        (codes "usend " ++ decimal socket ++ codes " " ++ endpoint_text to ++ codes " " ++ hexadecimal octets.now) result }
{
    put_socket_at(b"usend ", socket, to, out)?;
    out.put(b" ")?;
    put_octets(octets, out)
}

fn put_file_read<K: Sink>(name: &[u8], place: u64, asked: u64, out: &mut K) -> Result<(), Failed>
    ensures { Puts (K.holds out.old) (K.holds out.new) (K.faults out.old) (K.faults out.new)
        (codes "fread " ++ hexadecimal name.now ++ codes " " ++ decimal place ++ codes " " ++ decimal asked) result }
{
    put_with_octets(b"fread ", name, out)?;
    put_numbered(b" ", place, out)?;
    put_numbered(b" ", asked, out)
}

fn put_waited<K: Sink>(answer: Waited, ready: &[Want], out: &mut K) -> Result<(), Failed>
    ensures { Puts (K.holds out.old) (K.holds out.new) (K.faults out.old) (K.faults out.new) (waited_text answer ready.now) result }
{
    match answer {
        Waited::Ready => put_ready(ready, out),
        Waited::Stop => out.put(b"stop"),
        Waited::Failed => out.put(b"fail"),
    }
}

fn put_ready<K: Sink>(ready: &[Want], out: &mut K) -> Result<(), Failed>
    ensures { Puts (K.holds out.old) (K.holds out.new) (K.faults out.old) (K.faults out.new) (ready_text ready.now) result }
{
    if ready.is_empty() {
        return out.put(b"ready");
    }
    out.put(b"ready ")?;
    put_items(ready, out)
}

fn put_made<K: Sink>(answer: Made, out: &mut K) -> Result<(), Failed>
    ensures { Puts (K.holds out.old) (K.holds out.new) (K.faults out.old) (K.faults out.new) (made_text answer) result }
{
    match answer {
        Made::Done => out.put(b"done"),
        Made::Failed => out.put(b"fail"),
    }
}

fn put_read<K: Sink>(answer: Io, octets: &[u8], out: &mut K) -> Result<(), Failed>
    ensures { Puts (K.holds out.old) (K.holds out.new) (K.faults out.old) (K.faults out.new) (read_text answer octets.now) result }
{
    match answer {
        Io::Done(_) => put_with_octets(b"done ", octets, out),
        Io::End => out.put(b"end"),
        Io::NotYet => out.put(b"notyet"),
        Io::Failed => out.put(b"fail"),
    }
}

fn put_written<K: Sink>(answer: Io, out: &mut K) -> Result<(), Failed>
    ensures { Puts (K.holds out.old) (K.holds out.new) (K.faults out.old) (K.faults out.new) (written_text answer) result }
{
    match answer {
        Io::Done(count) => put_numbered(b"done ", count as u64, out),
        Io::End => out.put(b"end"),
        Io::NotYet => out.put(b"notyet"),
        Io::Failed => out.put(b"fail"),
    }
}

fn put_joined<K: Sink>(answer: Joined, out: &mut K) -> Result<(), Failed>
    ensures { Puts (K.holds out.old) (K.holds out.new) (K.faults out.old) (K.faults out.new) (joined_answer answer) result }
{
    match answer {
        Joined::Yes => out.put(b"yes"),
        Joined::NotYet => out.put(b"notyet"),
        Joined::Failed => out.put(b"fail"),
    }
}

fn put_accepted<K: Sink>(answer: Accepted, out: &mut K) -> Result<(), Failed>
    ensures { Puts (K.holds out.old) (K.holds out.new) (K.faults out.old) (K.faults out.new) (accepted_text answer) result }
{
    match answer {
        Accepted::From(peer) => put_peer(peer, out),
        Accepted::NotYet => out.put(b"notyet"),
        Accepted::Failed => out.put(b"fail"),
    }
}

fn put_peer<K: Sink>(peer: Endpoint, out: &mut K) -> Result<(), Failed>
    ensures { Puts (K.holds out.old) (K.holds out.new) (K.faults out.old) (K.faults out.new) (codes "from " ++ endpoint_text peer) result }
{
    out.put(b"from ")?;
    put_endpoint(peer, out)
}

fn put_sent<K: Sink>(answer: Sent, out: &mut K) -> Result<(), Failed>
    ensures { Puts (K.holds out.old) (K.holds out.new) (K.faults out.old) (K.faults out.new) (sent_text answer) result }
{
    match answer {
        Sent::Done => out.put(b"done"),
        Sent::NotYet => out.put(b"notyet"),
        Sent::Failed => out.put(b"fail"),
    }
}

fn put_got<K: Sink>(answer: Got, octets: &[u8], out: &mut K) -> Result<(), Failed>
    ensures { Puts (K.holds out.old) (K.holds out.new) (K.faults out.old) (K.faults out.new) (got_text answer octets.now) result }
{
    match answer {
        Got::From(peer, _) => put_datagram(peer, octets, out),
        Got::NotYet => out.put(b"notyet"),
        Got::Failed => out.put(b"fail"),
    }
}

fn put_datagram<K: Sink>(peer: Endpoint, octets: &[u8], out: &mut K) -> Result<(), Failed>
    ensures { Puts (K.holds out.old) (K.holds out.new) (K.faults out.old) (K.faults out.new)
        (codes "from " ++ endpoint_text peer ++ codes " " ++ hexadecimal octets.now) result }
{
    put_peer(peer, out)?;
    out.put(b" ")?;
    put_octets(octets, out)
}

fn put_size<K: Sink>(answer: FileSize, out: &mut K) -> Result<(), Failed>
    ensures { Puts (K.holds out.old) (K.holds out.new) (K.faults out.old) (K.faults out.new) (size_text answer) result }
{
    match answer {
        FileSize::Length(length) => put_numbered(b"len ", length, out),
        FileSize::Missing => out.put(b"missing"),
        FileSize::Failed => out.put(b"fail"),
    }
}

fn put_wants<K: Sink>(wants: &[Want], out: &mut K) -> Result<(), Failed>
    ensures { Puts (K.holds out.old) (K.holds out.new) (K.faults out.old) (K.faults out.new) (wants_text wants.now) result }
{
    if wants.is_empty() {
        return out.put(b"-");
    }
    put_items(wants, out)
}

// Items joined by commas.
fn put_items<K: Sink>(items: &[Want], out: &mut K) -> Result<(), Failed>
    ensures { Puts (K.holds out.old) (K.holds out.new) (K.faults out.old) (K.faults out.new) (joined_text items.now) result }
{
    let Some((first, rest)) = split_first(items) else {
        return out.put(b"");
    };
    put_want(*first, out)?;
    put_more_items(rest, out)
}

fn split_first(items: &[Want]) -> Option<(&Want, &[Want])>
    ensures some { IfSome result (λ parts. items.now ≡ parts.0.now ∷ parts.1.now) }
    ensures none { IfNone result (items.now ≡ []) }
{
    match items {
        [first, rest @ ..] => Some((first, rest)),
        [] => None,
    }
}

fn put_more_items<K: Sink>(items: &[Want], out: &mut K) -> Result<(), Failed>
    ensures { Puts (K.holds out.old) (K.holds out.new) (K.faults out.old) (K.faults out.new) (more_text items.now) result }
{
    for item in items {
        put_next_item(*item, out)?;
    }
    Ok(())
}

fn put_next_item<K: Sink>(item: Want, out: &mut K) -> Result<(), Failed>
    ensures { Puts (K.holds out.old) (K.holds out.new) (K.faults out.old) (K.faults out.new) (codes "," ++ want_text item) result }
{
    out.put(b",")?;
    put_want(item, out)
}

fn put_want<K: Sink>(want: Want, out: &mut K) -> Result<(), Failed>
    ensures { Puts (K.holds out.old) (K.holds out.new) (K.faults out.old) (K.faults out.new) (want_text want) result }
{
    put_who(want.of, out)?;
    out.put(b":")?;
    put_direction(want.read, want.write, out)
}

fn put_who<K: Sink>(who: Who, out: &mut K) -> Result<(), Failed>
    ensures { Puts (K.holds out.old) (K.holds out.new) (K.faults out.old) (K.faults out.new) (who_text who) result }
{
    match who {
        Who::Link => out.put(b"link"),
        Who::Listener(socket) => put_numbered(b"l", socket, out),
        Who::Udp(socket) => put_numbered(b"u", socket, out),
        Who::Tcp(socket) => put_numbered(b"t", socket, out),
    }
}

fn put_direction<K: Sink>(read: bool, write: bool, out: &mut K) -> Result<(), Failed>
    ensures { Puts (K.holds out.old) (K.holds out.new) (K.faults out.old) (K.faults out.new) (direction_text read write) result }
{
    match (read, write) {
        (true, true) => out.put(b"rw"),
        (true, false) => out.put(b"r"),
        (false, true) => out.put(b"w"),
        (false, false) => out.put(b""),
    }
}

fn put_number<K: Sink>(number: u64, out: &mut K) -> Result<(), Failed>
    ensures { Puts (K.holds out.old) (K.holds out.new) (K.faults out.old) (K.faults out.new) (decimal number) result }
{
    let mut buffer = Buffer::new();
    out.put(buffer.format(number).as_bytes())
}

fn put_endpoint<K: Sink>(at: Endpoint, out: &mut K) -> Result<(), Failed>
    ensures { Puts (K.holds out.old) (K.holds out.new) (K.faults out.old) (K.faults out.new) (endpoint_text at) result }
{
    let text = endpoint_string(at);
    out.put(text.as_str().as_bytes())
}

// Octets in hexadecimal, or a dash for none.
fn put_octets<K: Sink>(octets: &[u8], out: &mut K) -> Result<(), Failed>
    ensures { Puts (K.holds out.old) (K.holds out.new) (K.faults out.old) (K.faults out.new) (hexadecimal octets.now) result }
{
    if octets.is_empty() {
        return out.put(b"-");
    }
    put_digits(octets, out)
}

// Two digits for each octet.
fn put_digits<K: Sink>(octets: &[u8], out: &mut K) -> Result<(), Failed>
    ensures { Puts (K.holds out.old) (K.holds out.new) (K.faults out.old) (K.faults out.new) (encode_lower octets.now) result }
{
    let mut rest = octets;
    while rest.len() > CHUNK {
        let (chunk, after) = rest.split_at(CHUNK);
        put_chunk(chunk, out)?;
        rest = after;
    }
    put_chunk(rest, out)
}

fn put_chunk<K: Sink>(octets: &[u8], out: &mut K) -> Result<(), Failed>
    requires { length octets.now ≤ CHUNK }
    ensures { Puts (K.holds out.old) (K.holds out.new) (K.faults out.old) (K.faults out.new) (encode_lower octets.now) result }
{
    let mut digits = [0u8; 2 * CHUNK];
    let digits = &mut digits[..2 * octets.len()];
    let _ = hex::encode_to_slice(octets, digits);
    out.put(digits)
}
