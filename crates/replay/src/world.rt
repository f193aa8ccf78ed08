// A World that answers by a schedule.
ghost use Rattle.std.specs.Prelude.{◌≡◌, ◌<◌, ◌≤◌, length, take};
ghost use Rattle.world_face.specs.Journal.{IsPlace};

mod fitting;
mod schedule;

use crate::answering::{accepted, brought, got, io, joined, made, reported, sent, size, waited};
use crate::line::Stop;
use crate::row::Row;
use std::marker::Model;
use world_face::{
    Accepted, Endpoint, FileSize, Got, Io, Joined, LinkAt, Made, ReadyList, Sent, Waited, Want,
    Wants, World,
};

/// A World that answers by a schedule, line by line. From the first call that fits no line on it answers nothing but failures.
#[derive(Drop)]
pub struct ScriptWorld {
    rows: Vec<Row>,
    used: usize,
    stop: Option<Stop>,
    octets: Vec<u8>,
    wants: Vec<Want>,
    moment: u64,
    link_faults: u64,
    wait_faults: u64,
    socket_faults: u64,
    file_faults: u64,
}

impl Model for ScriptWorld {
    ghost use Rattle.std.specs.Prelude.{◌≡◌, ◌≤◌, [], length, is_none};
    ghost use Rattle.std.specs.Vec.{vec_capacity};
    ghost use Rattle.replay.specs.Script.{Script, newest_onto};

    ghost Value = { Script };

    ghost use Rattle.replay.specs.Lines.{rows_of, stop_of};
    ghost use Rattle.replay.specs.Fitting.{StopsRightly, last_moment};
    ghost use Rattle.replay.specs.Rows.{AreReadable, entries_of};
    ghost use Rattle.replay.specs.Room.{AreRoomy};
    ghost use Rattle.world_face.specs.Limits.{most_to_udp, most_wants};

    ghost view = { λ w. record {
      lines = rows_of w.rows.items;
      used = w.used;
      live = is_none w.stop;
      stop = stop_of w.stop w.octets.items w.wants.items;
      faults = record { link = w.link_faults; wait = w.wait_faults; socket = w.socket_faults; file = w.file_faults };
    } };

    ghost invariant = { λ w. (w.used ≤ length w.rows.items) × (length w.rows.items ≤ 67108864) × (most_to_udp ≤ vec_capacity w.octets)
        × (most_wants ≤ vec_capacity w.wants)
        × StopsRightly (rows_of w.rows.items) w.used (stop_of w.stop w.octets.items w.wants.items)
        × (w.moment ≡ last_moment (newest_onto w.used (entries_of (rows_of w.rows.items)) []))
        × AreReadable (rows_of w.rows.items) × AreRoomy w.rows.items };
}

// Makes these items the list.
fn list(into: &mut ReadyList, items: &[Want])
    requires { length items.now ≤ into.old.capacity }
    ensures items { into.new.items ≡ items.now }
    ensures capacity { into.new.capacity ≡ into.old.capacity }
{
    into.clear();
    for item in items {
        into.add(*item);
    }
}

// Puts octets at the front of a slice.
fn fill(into: &mut [u8], from: &[u8])
    requires { length from.now ≤ length into.old }
    ensures { take (length from.now) into.new ≡ from.now }
{
    into[..from.len()].copy_from_slice(from);
}

impl World for ScriptWorld {
    ghost use Rattle.replay.specs.Script.{script_tells};
    ghost use Rattle.std.specs.Prelude.{false};
    ghost use Rattle.world_face.specs.Limits.{most_ready, most_to_link, most_to_flow, most_to_udp, most_wants, most_name};
    ghost use Rattle.poll_list.specs.Listing.{AreWants};
    ghost use Rattle.world_face.specs.Journal.{filled, filled_got, place_of, Now, Wait, LinkOpen, LinkRead, LinkWrite, Connect, Connected, Listen, Accept, TcpRead, TcpWrite, TcpEnd};
    ghost use Rattle.world_face.specs.Journal.{UdpOpen, UdpSend, UdpRecv, FileLen, FileRead};
    ghost use Rattle.world_face.specs.Tells.{Answers};
    ghost use Rattle.replay.specs.Fitting.{last_moment};

    ghost tells = { script_tells };

    // Once it has ceased each call that can fail fails, for ever.

    /// Where no line answers it is the last moment that one told, or 0.
    fn now(&mut self) -> u64
        ensures answers { Answers (script_tells self.old) (script_tells self.new) (Now result) }
        ensures last { self.new.live ≡ false → result ≡ last_moment (script_tells self.new).kept }
    {
        self.follow(Stop::Now, &[], &[]);
        self.moment
    }

    fn wait(&mut self, wants: &Wants, timeout: Option<u64>, ready: &mut ReadyList) -> Waited
        requires some { AreWants wants.now.items }
        requires few { length wants.now.items ≤ most_wants }
        requires room { most_ready ≤ ready.old.capacity }
        ensures answers { Answers (script_tells self.old) (script_tells self.new) (Wait wants.now.items timeout result ready.new.items) }
        ensures capacity { ready.new.capacity ≡ ready.old.capacity }
        ensures ceased { self.new.live ≡ false → result ≡ Waited.Failed }
    {
        let items = wants.items();
        self.follow(Stop::Wait(timeout), &[], items);
        let line = self.last();
        list(ready, reported(line));
        waited(line)
    }

    fn link_open(&mut self, at: &LinkAt) -> Made
        requires { IsPlace (place_of at.now) }
        ensures answers { Answers (script_tells self.old) (script_tells self.new) (LinkOpen (place_of at.now) result) }
        ensures ceased { self.new.live ≡ false → result ≡ Made.Failed }
    {
        self.follow_open(at);
        made(self.last())
    }

    fn link_read(&mut self, into: &mut [u8]) -> Io
        requires { 0 < length into.old }
        ensures answers { Answers (script_tells self.old) (script_tells self.new) (LinkRead (length into.old) result (filled result into.new)) }
        ensures ceased { self.new.live ≡ false → result ≡ Io.Failed }
    {
        self.follow(Stop::LinkRead(into.len()), &[], &[]);
        let line = self.last();
        fill(into, brought(line));
        io(line)
    }

    fn link_write(&mut self, from: &[u8]) -> Io
        requires some { 0 < length from.now }
        requires fits { length from.now ≤ most_to_link }
        ensures answers { Answers (script_tells self.old) (script_tells self.new) (LinkWrite from.now result) }
        ensures ceased { self.new.live ≡ false → result ≡ Io.Failed }
    {
        self.follow(Stop::LinkWrite, from, &[]);
        io(self.last())
    }

    fn connect(&mut self, c: u64, to: Endpoint) -> Made
        ensures answers { Answers (script_tells self.old) (script_tells self.new) (Connect c to result) }
        ensures ceased { self.new.live ≡ false → result ≡ Made.Failed }
    {
        self.follow(Stop::Connect(c, to), &[], &[]);
        made(self.last())
    }

    fn connected(&mut self, c: u64) -> Joined
        ensures answers { Answers (script_tells self.old) (script_tells self.new) (Connected c result) }
        ensures ceased { self.new.live ≡ false → result ≡ Joined.Failed }
    {
        self.follow(Stop::Connected(c), &[], &[]);
        joined(self.last())
    }

    fn listen(&mut self, l: u64, at: Endpoint) -> Made
        ensures answers { Answers (script_tells self.old) (script_tells self.new) (Listen l at result) }
        ensures ceased { self.new.live ≡ false → result ≡ Made.Failed }
    {
        self.follow(Stop::Listen(l, at), &[], &[]);
        made(self.last())
    }

    fn accept(&mut self, l: u64, c: u64) -> Accepted
        ensures answers { Answers (script_tells self.old) (script_tells self.new) (Accept l c result) }
        ensures ceased { self.new.live ≡ false → result ≡ Accepted.Failed }
    {
        self.follow(Stop::Accept(l, c), &[], &[]);
        accepted(self.last())
    }

    fn tcp_read(&mut self, c: u64, into: &mut [u8]) -> Io
        requires { 0 < length into.old }
        ensures answers { Answers (script_tells self.old) (script_tells self.new) (TcpRead c (length into.old) result (filled result into.new)) }
        ensures ceased { self.new.live ≡ false → result ≡ Io.Failed }
    {
        self.follow(Stop::TcpRead(c, into.len()), &[], &[]);
        let line = self.last();
        fill(into, brought(line));
        io(line)
    }

    fn tcp_write(&mut self, c: u64, from: &[u8]) -> Io
        requires some { 0 < length from.now }
        requires fits { length from.now ≤ most_to_flow }
        ensures answers { Answers (script_tells self.old) (script_tells self.new) (TcpWrite c from.now result) }
        ensures ceased { self.new.live ≡ false → result ≡ Io.Failed }
    {
        self.follow(Stop::TcpWrite(c), from, &[]);
        io(self.last())
    }

    fn tcp_end(&mut self, c: u64) -> Made
        ensures answers { Answers (script_tells self.old) (script_tells self.new) (TcpEnd c result) }
        ensures ceased { self.new.live ≡ false → result ≡ Made.Failed }
    {
        self.follow(Stop::TcpEnd(c), &[], &[]);
        made(self.last())
    }

    fn close(&mut self, s: u64) {
        self.follow(Stop::Close(s), &[], &[]);
    }

    fn udp_open(&mut self, s: u64, at: Endpoint) -> Made
        ensures answers { Answers (script_tells self.old) (script_tells self.new) (UdpOpen s at result) }
        ensures ceased { self.new.live ≡ false → result ≡ Made.Failed }
    {
        self.follow(Stop::UdpOpen(s, at), &[], &[]);
        made(self.last())
    }

    fn udp_send(&mut self, s: u64, to: Endpoint, from: &[u8]) -> Sent
        requires { length from.now ≤ most_to_udp }
        ensures answers { Answers (script_tells self.old) (script_tells self.new) (UdpSend s to from.now result) }
        ensures ceased { self.new.live ≡ false → result ≡ Sent.Failed }
    {
        self.follow(Stop::UdpSend(s, to), from, &[]);
        sent(self.last())
    }

    fn udp_recv(&mut self, s: u64, into: &mut [u8]) -> Got
        requires { 0 < length into.old }
        ensures answers { Answers (script_tells self.old) (script_tells self.new) (UdpRecv s (length into.old) result (filled_got result into.new)) }
        ensures ceased { self.new.live ≡ false → result ≡ Got.Failed }
    {
        self.follow(Stop::UdpRecv(s, into.len()), &[], &[]);
        let line = self.last();
        fill(into, brought(line));
        got(line)
    }

    fn file_len(&mut self, name: &str) -> FileSize
        requires some { 0 < length name.now }
        requires fits { length name.now ≤ most_name }
        ensures answers { Answers (script_tells self.old) (script_tells self.new) (FileLen name.now result) }
        ensures ceased { self.new.live ≡ false → result ≡ FileSize.Failed }
    {
        let file = name.as_bytes();
        self.follow(Stop::FileLen, file, &[]);
        size(self.last())
    }

    fn file_read(&mut self, name: &str, at: u64, into: &mut [u8]) -> Io
        requires some { 0 < length name.now }
        requires fits { length name.now ≤ most_name }
        requires room { 0 < length into.old }
        ensures answers { Answers (script_tells self.old) (script_tells self.new) (FileRead name.now at (length into.old) result (filled result into.new)) }
        ensures ceased { self.new.live ≡ false → result ≡ Io.Failed }
    {
        let file = name.as_bytes();
        self.follow(Stop::FileRead(at, into.len()), file, &[]);
        let line = self.last();
        fill(into, brought(line));
        io(line)
    }
}
