//! Tests of a World that answers by a schedule.
ghost use Rattle.std.specs.Prelude.{◌≤◌, length, IfOk};
ghost use Rattle.poll_list.specs.Listing.{AreWants};

use arrayvec::ArrayString;
use replay::{CallName, Divergence, ScriptFault, ScriptWorld};
use std::alloc::Global;
use std::test::Fail;
use world_face::{
    Accepted, Endpoint, FileSize, Got, Io, Ip4, Joined, LinkAt, Made, ReadyList, Sent, VecSink,
    Want, Wants, Who, World,
};

const LOCAL: Endpoint = Endpoint {
    addr: Ip4(0x7f00_0001),
    port: 80,
};

// One line for each call.
const ALL_CALLS: &[u8] = b"now = 18446744073709551615
wait 10 link:r,l1:r = ready link:r,l1:rw
lopen 7463703a3132372e302e302e313a3830 = done
lread 4 = done 0aff
lwrite 616263 = done 2
connect 1 127.0.0.1:80 = done
connected 1 = notyet
listen 2 127.0.0.1:80 = fail
accept 2 3 = from 127.0.0.1:80
tread 1 4 = end
twrite 1 616263 = notyet
tend 1 = done
close 1 = done
uopen 4 127.0.0.1:80 = done
usend 4 127.0.0.1:80 - = done
urecv 4 4 = from 127.0.0.1:80 -
flen 66 = len 2
fread 66 0 4 = done 6162
";

// The same with a star wherever there are arguments.
const STARRED_CALLS: &[u8] = b"now = 18446744073709551615
wait * = ready link:r,l1:rw
lopen * = done
lread * = done 0aff
lwrite * = done 2
connect * = done
connected * = notyet
listen * = fail
accept * = from 127.0.0.1:80
tread * = end
twrite * = notyet
tend * = done
close * = done
uopen * = done
usend * = done
urecv * = from 127.0.0.1:80 -
flen * = len 2
fread * = done 6162
";

// The World of a schedule.
fn read(alloc: Global, text: &[u8]) -> Result<ScriptWorld, Fail> {
    if text.len() > 67_108_864 {
        return Err(Fail::from("too long"));
    }
    ScriptWorld::read(alloc, text).map_err(|_| Fail::from("no schedule"))
}

// What a World printed.
fn printed(alloc: Global, world: &ScriptWorld) -> Result<VecSink, Fail> {
    let mut sink = VecSink::open(alloc, 1000, None).map_err(|_| "memory")?;
    match world.print(&mut sink) {
        Ok(()) => Ok(sink),
        Err(_) => Err(Fail::from("a put failed")),
    }
}

fn two_wants(alloc: Global) -> Result<Wants, Fail>
    ensures { IfOk result (λ wants. AreWants wants.items × (length wants.items ≤ 5155)) }
{
    let mut wants = Wants::open(alloc, 2)?;
    wants.add(Want {
        of: Who::Link,
        read: true,
        write: false,
    });
    wants.add(Want {
        of: Who::Listener(1),
        read: true,
        write: false,
    });
    Ok(wants)
}

// How much a wait for the link and a listener reports.
fn second_turn<W: World>(alloc: Global, world: &mut W) -> Result<usize, Fail> {
    let wants = two_wants(alloc)?;
    let mut ready = ReadyList::open(alloc, 5155)?;
    let _ = world.now();
    let _ = world.wait(&wants, Some(10), &mut ready);
    Ok(ready.items().len())
}

fn link_calls<W: World>(world: &mut W) -> (Made, Io, Io) {
    let mut into = [0; 4];
    let made = world.link_open(&LinkAt::Tcp(LOCAL));
    let read = world.link_read(&mut into);
    (made, read, world.link_write(b"abc"))
}

fn opening_calls<W: World>(world: &mut W) -> (Made, Joined, Made, Accepted) {
    let made = world.connect(1, LOCAL);
    let joined = world.connected(1);
    let listening = world.listen(2, LOCAL);
    (made, joined, listening, world.accept(2, 3))
}

fn stream_calls<W: World>(world: &mut W) -> (Io, Io, Made) {
    let mut into = [0; 4];
    let read = world.tcp_read(1, &mut into);
    let written = world.tcp_write(1, b"abc");
    let ended = world.tcp_end(1);
    world.close(1);
    (read, written, ended)
}

fn datagram_calls<W: World>(world: &mut W) -> (Made, Sent, Got) {
    let mut into = [0; 4];
    let opened = world.udp_open(4, LOCAL);
    let sent = world.udp_send(4, LOCAL, b"");
    (opened, sent, world.udp_recv(4, &mut into))
}

fn file_calls<W: World>(world: &mut W) -> (FileSize, Io) {
    let mut into = [0; 4];
    let size = world.file_len("f");
    (size, world.file_read("f", 0, &mut into))
}

// Whether each call is answered as its line says.
fn answers_each(alloc: Global, world: &mut ScriptWorld) -> Result<bool, Fail> {
    Ok(
        second_turn(alloc, world)? == 2
            && link_calls(world) == (Made::Done, Io::Done(2), Io::Done(2))
            && opening_calls(world)
                == (
                    Made::Done,
                    Joined::NotYet,
                    Made::Failed,
                    Accepted::From(LOCAL),
                )
            && stream_calls(world) == (Io::End, Io::NotYet, Made::Done)
            && datagram_calls(world) == (Made::Done, Sent::Done, Got::From(LOCAL, 0))
            && file_calls(world) == (FileSize::Length(2), Io::Done(2)),
    )
}

#[test]
fn each_call_is_answered_and_printed(rt: HostRuntime) -> Result<(), Fail> {
    for schedule in [ALL_CALLS, STARRED_CALLS] {
        let mut world = read(rt.alloc(), schedule)?;
        assert!(rt; answers_each(rt.alloc(), &mut world)?);
        assert_eq!(rt; printed(rt.alloc(), &world)?.octets(), ALL_CALLS);
    }
    let mut world = read(rt.alloc(), b"lopen * = done\n")?;
    let path = ArrayString::try_from("/run/s").map_err(|_| "too long")?;
    assert!(rt; world.link_open(&LinkAt::Unix(path)) == Made::Done);
    assert_eq!(rt;
        printed(rt.alloc(), &world)?.octets(),
        b"lopen 756e69783a2f72756e2f73 = done\n".as_slice()
    );
    Ok(())
}

// A schedule, what it leaves of it to open the link, to read and write there and to write to a connection, and what is printed then.
type Left = (&'static [u8], Option<Divergence>, &'static [u8]);

const fn left_at(line: u64, made: CallName, wanted: Option<CallName>) -> Option<Divergence> {
    Some(Divergence { line, made, wanted })
}

#[test]
fn a_schedule_is_left_where_no_line_fits(rt: HostRuntime) -> Result<(), Fail> {
    let rows: [Left; 7] = [
        (
            b"lopen * = done\nlread * = end\nlwrite * = all\ntwrite * = all\n",
            None,
            b"lopen 7463703a3132372e302e302e313a3830 = done\nlread 4 = end\nlwrite 616263 = done 3\ntwrite 1 616263 = done 3\n",
        ),
        (
            b"lopen * = done\nlread * = end\nlwrite 616263 = all\ntwrite 1 616263 = all\nnow = 1\n",
            None,
            b"lopen 7463703a3132372e302e302e313a3830 = done\nlread 4 = end\nlwrite 616263 = done 3\ntwrite 1 616263 = done 3\n",
        ),
        // Another link is opened.
        (
            b"lopen 756e69783a61 = done\nlread 4 = done -\n",
            left_at(1, CallName::LinkOpen, Some(CallName::LinkOpen)),
            b"",
        ),
        // More octets come than there is room for.
        (
            b"lopen * = done\nlread 4 = done 0102030405\n",
            left_at(2, CallName::LinkRead, Some(CallName::LinkRead)),
            b"lopen 7463703a3132372e302e302e313a3830 = done\n",
        ),
        // More octets are taken than were offered.
        (
            b"lopen * = done\nlread * = end\nlwrite * = done 4\n",
            left_at(3, CallName::LinkWrite, Some(CallName::LinkWrite)),
            b"lopen 7463703a3132372e302e302e313a3830 = done\nlread 4 = end\n",
        ),
        // Other octets are written, and to a connection.
        (
            b"lopen * = done\nlread * = end\nlwrite 6162 = all\n",
            left_at(3, CallName::LinkWrite, Some(CallName::LinkWrite)),
            b"lopen 7463703a3132372e302e302e313a3830 = done\nlread 4 = end\n",
        ),
        (
            b"lopen * = done\nlread * = end\ntwrite * = all\n",
            left_at(3, CallName::LinkWrite, Some(CallName::TcpWrite)),
            b"lopen 7463703a3132372e302e302e313a3830 = done\nlread 4 = end\n",
        ),
    ];
    for (schedule, left, text) in rows {
        let mut world = read(rt.alloc(), schedule)?;
        let _ = link_calls(&mut world);
        let _ = world.tcp_write(1, b"abc");
        assert!(rt; world.divergence() == left);
        assert_eq!(rt; printed(rt.alloc(), &world)?.octets(), text);
    }
    Ok(())
}

// The line that is named, or 0 where there is none.
fn first_fault(alloc: Global, text: &[u8]) -> u64 {
    if text.len() > 67_108_864 {
        return 0;
    }
    match ScriptWorld::read(alloc, text) {
        Err(ScriptFault::Line(line)) => line,
        _ => 0,
    }
}

#[test]
fn the_first_line_without_a_reading_is_named(rt: HostRuntime) {
    let rows: [(&[u8], u64); 8] = [
        (b"", 0),
        (b"\n", 1),
        (b"now = 0\n\n", 2),
        (b"now = 00\nnow\n", 1),
        (b"now = 0\nnow = 1", 2),
        (b"now = 0\nnow = 1\nnow = 02\nnow = 3\n", 3),
        (b"now = 0\r\n", 1),
        (b"\xff\n", 1),
    ];
    for (text, line) in rows {
        assert_eq!(rt; first_fault(rt.alloc(), text), line);
    }
}
