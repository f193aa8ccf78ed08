// The World that has real sockets.
use crate::counting::{after, after_io, counted};
use crate::edge::Edge;
use crate::files::OpenedFile;
use net_octets::NoMemory;
use std::alloc::Global;
use std::fs::Files;
use std::marker::Model;
use std::net::Net;
use std::time::Clock;
use world_face::{
    Accepted, Endpoint, FileSize, Got, Io, Joined, LinkAt, Made, ReadyList, Sent, Waited, Wants,
    Who, World,
};

/// A World that has the sockets, files and clock of the system. It tells nothing but how often its calls have failed.
///
/// A frame that it took may still lie in its own buffer: it goes out before the next wait that really waits, and a fault of the link is told at a later call. A
/// reset or a broken pipe of the link is no fault but its end: what a peer that is gone was sent is lost. What a wait reports may be known from before, so
/// something that is ready may be told some waits later.
pub struct NetWorld<'a, R: Net + Files + Clock> {
    rt: &'a R,
    edge: Edge,
    file: OpenedFile<R>,
    link_faults: u64,
    wait_faults: u64,
    socket_faults: u64,
    file_faults: u64,
}

impl<'a, R: Net + Files + Clock> Model for NetWorld<'a, R> {
    ghost use Rattle.world_face.specs.Tells.{Counts};

    ghost Value = { Counts };

    ghost view = { λ w. record { link = w.link_faults; wait = w.wait_faults; socket = w.socket_faults; file = w.file_faults } };
}

impl<'a, R: Net + Files + Clock> NetWorld<'a, R> {
    ghost use Rattle.std.specs.Prelude.{◌≡◌, IfOk};
    ghost use Rattle.net_world.specs.Faults.{no_faults};

    /// A World with a closed link and no socket. All the memory that it will ever need is taken here.
    pub fn open(rt: &'a R, alloc: Global) -> Result<NetWorld<'a, R>, NoMemory>
        ensures { IfOk result (λ world. world ≡ no_faults) }
    {
        let edge = Edge::open(rt, alloc)?;
        Ok(NetWorld {
            rt,
            edge,
            file: OpenedFile::none(),
            link_faults: 0,
            wait_faults: 0,
            socket_faults: 0,
            file_faults: 0,
        })
    }
}

impl<'a, R: Net + Files + Clock> Drop for NetWorld<'a, R> {
    /// What was gathered goes out, as much as is taken at once, and no file of a listener stays.
    fn drop(self) {
        let NetWorld {
            rt,
            edge,
            file: _file,
            link_faults: _,
            wait_faults: _,
            socket_faults: _,
            file_faults: _,
        } = self;
        edge.shut(rt);
    }
}

impl<'a, R: Net + Files + Clock> World for NetWorld<'a, R> {
    ghost use Rattle.std.specs.Prelude.{◌≡◌, ◌<◌, ◌≤◌, ℕ, length};
    ghost use Rattle.poll_list.specs.Listing.{AreWants};
    ghost use Rattle.world_face.specs.Faults.{io_failed, made_failed, join_failed, accept_failed, sent_failed, got_failed, size_failed, waited_failed};
    ghost use Rattle.world_face.specs.Journal.{filled, filled_got, place_of, IsPlace, Now, Wait as Waits, LinkOpen, LinkRead, LinkWrite, Connect, Connected, Listen, Accept, TcpRead};
    ghost use Rattle.world_face.specs.Journal.{TcpWrite, TcpEnd, Close, UdpOpen, UdpSend, UdpRecv, FileLen, FileRead};
    ghost use Rattle.world_face.specs.Limits.{most_ready, most_to_link, most_to_flow, most_to_udp, most_wants, most_name};
    ghost use Rattle.world_face.specs.Tells.{Answers};
    ghost use Rattle.net_world.specs.Faults.{raised, tells_faults};
    ghost use Rattle.poll_list.specs.Picks.{IsPickedFrom};

    ghost tells = { tells_faults };

    // Each call raises the count of its kind exactly where it fails, and no other.

    /// The moment of the last wait that asked the system, in milliseconds since the World was opened; 0 before the first.
    fn now(&mut self) -> u64
        ensures answers { Answers (tells_faults self.old) (tells_faults self.new) (Now result) }
        ensures counts { self.new ≡ self.old }
    {
        self.edge.moment()
    }

    /// What is ready is picked from the wants, in their order.
    fn wait(&mut self, wants: &Wants, timeout: Option<u64>, ready: &mut ReadyList) -> Waited
        requires some { AreWants wants.now.items }
        requires few { length wants.now.items ≤ most_wants }
        requires room { most_ready ≤ ready.old.capacity }
        ensures answers { Answers (tells_faults self.old) (tells_faults self.new) (Waits wants.now.items timeout result ready.new.items) }
        ensures capacity { ready.new.capacity ≡ ready.old.capacity }
        ensures picked { IsPickedFrom wants.now.items ready.new.items }
        ensures counts { self.new ≡ record self.old { wait = raised (waited_failed result) self.old.wait } }
    {
        let waited = self.edge.wait(self.rt, wants, timeout, ready);
        self.wait_faults = after(self.wait_faults, waited == Waited::Failed);
        waited
    }

    /// Listens at the place, and takes the first peer at the first wait or call of the link after it came. A Unix socket that was left over at the path, on
    /// which a connect is refused, is removed before; all else that stands there stays, and is a fault. An open link is a fault too.
    fn link_open(&mut self, at: &LinkAt) -> Made
        requires { IsPlace (place_of at.now) }
        ensures answers { Answers (tells_faults self.old) (tells_faults self.new) (LinkOpen (place_of at.now) result) }
        ensures counts { self.new ≡ record self.old { link = raised (made_failed result) self.old.link } }
    {
        let done = self.edge.link_open(self.rt, at);
        counted(&mut self.link_faults, done)
    }

    /// The end comes where the peer closed the stream or reset it, or where a write found the pipe broken, behind all that came.
    fn link_read(&mut self, into: &mut [u8]) -> Io
        requires { 0 < length into.old }
        ensures answers { Answers (tells_faults self.old) (tells_faults self.new) (LinkRead (length into.old) result (filled result into.new)) }
        ensures counts { self.new ≡ record self.old { link = raised (io_failed result) self.old.link } }
    {
        let read = self.edge.link_read(self.rt, into);
        self.link_faults = after_io(self.link_faults, read);
        read
    }

    /// All of it is taken, or none; none before a peer came. Once a write to the system found the peer gone all is taken and lost, so that nothing stays owed
    /// to it and the end is read. A frame of at most 58 octets with its length, such as an acknowledgement alone, isn't taken while other octets that came are
    /// to be read, or other sockets to be served, before the system is asked again.
    fn link_write(&mut self, from: &[u8]) -> Io
        requires some { 0 < length from.now }
        requires fits { length from.now ≤ most_to_link }
        ensures answers { Answers (tells_faults self.old) (tells_faults self.new) (LinkWrite from.now result) }
        ensures counts { self.new ≡ record self.old { link = raised (io_failed result) self.old.link } }
        ensures whole { (count : ℕ) → result ≡ Io.Done count → count ≡ length from.now }
    {
        let written = self.edge.link_write(self.rt, from);
        self.link_faults = after_io(self.link_faults, written);
        written
    }

    fn connect(&mut self, c: u64, to: Endpoint) -> Made
        ensures answers { Answers (tells_faults self.old) (tells_faults self.new) (Connect c to result) }
        ensures counts { self.new ≡ record self.old { socket = raised (made_failed result) self.old.socket } }
    {
        let done = self.edge.open_socket(self.rt, Who::Tcp(c), to);
        counted(&mut self.socket_faults, done)
    }

    fn connected(&mut self, c: u64) -> Joined
        ensures answers { Answers (tells_faults self.old) (tells_faults self.new) (Connected c result) }
        ensures counts { self.new ≡ record self.old { socket = raised (join_failed result) self.old.socket } }
    {
        let joined = self.edge.sockets.connected(c);
        self.socket_faults = after(self.socket_faults, joined == Joined::Failed);
        joined
    }

    fn listen(&mut self, l: u64, at: Endpoint) -> Made
        ensures answers { Answers (tells_faults self.old) (tells_faults self.new) (Listen l at result) }
        ensures counts { self.new ≡ record self.old { socket = raised (made_failed result) self.old.socket } }
    {
        let done = self.edge.open_socket(self.rt, Who::Listener(l), at);
        counted(&mut self.socket_faults, done)
    }

    /// Where the system has no descriptor for a connection that came, it waits until a socket is closed, and the listener isn't ready before.
    fn accept(&mut self, l: u64, c: u64) -> Accepted
        ensures answers { Answers (tells_faults self.old) (tells_faults self.new) (Accept l c result) }
        ensures counts { self.new ≡ record self.old { socket = raised (accept_failed result) self.old.socket } }
    {
        let accepted = self.edge.accept(l, c);
        self.socket_faults = after(self.socket_faults, accepted == Accepted::Failed);
        accepted
    }

    fn tcp_read(&mut self, c: u64, into: &mut [u8]) -> Io
        requires { 0 < length into.old }
        ensures answers { Answers (tells_faults self.old) (tells_faults self.new) (TcpRead c (length into.old) result (filled result into.new)) }
        ensures counts { self.new ≡ record self.old { socket = raised (io_failed result) self.old.socket } }
    {
        let read = self.edge.sockets.tcp_read(c, into);
        self.socket_faults = after_io(self.socket_faults, read);
        read
    }

    fn tcp_write(&mut self, c: u64, from: &[u8]) -> Io
        requires some { 0 < length from.now }
        requires fits { length from.now ≤ most_to_flow }
        ensures answers { Answers (tells_faults self.old) (tells_faults self.new) (TcpWrite c from.now result) }
        ensures counts { self.new ≡ record self.old { socket = raised (io_failed result) self.old.socket } }
    {
        let written = self.edge.sockets.tcp_write(c, from);
        self.socket_faults = after_io(self.socket_faults, written);
        written
    }

    fn tcp_end(&mut self, c: u64) -> Made
        ensures answers { Answers (tells_faults self.old) (tells_faults self.new) (TcpEnd c result) }
        ensures counts { self.new ≡ record self.old { socket = raised (made_failed result) self.old.socket } }
    {
        let done = self.edge.sockets.tcp_end(c);
        counted(&mut self.socket_faults, done)
    }

    fn close(&mut self, s: u64)
        ensures answers { Answers (tells_faults self.old) (tells_faults self.new) (Close s) }
        ensures counts { self.new ≡ self.old }
    {
        self.edge.sockets.close(s);
    }

    fn udp_open(&mut self, s: u64, at: Endpoint) -> Made
        ensures answers { Answers (tells_faults self.old) (tells_faults self.new) (UdpOpen s at result) }
        ensures counts { self.new ≡ record self.old { socket = raised (made_failed result) self.old.socket } }
    {
        let done = self.edge.open_socket(self.rt, Who::Udp(s), at);
        counted(&mut self.socket_faults, done)
    }

    fn udp_send(&mut self, s: u64, to: Endpoint, from: &[u8]) -> Sent
        requires { length from.now ≤ most_to_udp }
        ensures answers { Answers (tells_faults self.old) (tells_faults self.new) (UdpSend s to from.now result) }
        ensures counts { self.new ≡ record self.old { socket = raised (sent_failed result) self.old.socket } }
    {
        let sent = self.edge.sockets.udp_send(s, to, from);
        self.socket_faults = after(self.socket_faults, sent == Sent::Failed);
        sent
    }

    fn udp_recv(&mut self, s: u64, into: &mut [u8]) -> Got
        requires { 0 < length into.old }
        ensures answers { Answers (tells_faults self.old) (tells_faults self.new) (UdpRecv s (length into.old) result (filled_got result into.new)) }
        ensures counts { self.new ≡ record self.old { socket = raised (got_failed result) self.old.socket } }
    {
        let got = self.edge.sockets.udp_recv(s, into);
        self.socket_faults = after(self.socket_faults, got == Got::Failed);
        got
    }

    /// The file stays open until another is measured or read.
    fn file_len(&mut self, name: &str) -> FileSize
        requires some { 0 < length name.now }
        requires fits { length name.now ≤ most_name }
        ensures answers { Answers (tells_faults self.old) (tells_faults self.new) (FileLen name.now result) }
        ensures counts { self.new ≡ record self.old { file = raised (size_failed result) self.old.file } }
    {
        let size = self.file.measure(self.rt, name);
        self.file_faults = after(self.file_faults, size == FileSize::Failed);
        size
    }

    /// The file of the last length or read is read on, where it has this name.
    fn file_read(&mut self, name: &str, at: u64, into: &mut [u8]) -> Io
        requires some { 0 < length name.now }
        requires fits { length name.now ≤ most_name }
        requires room { 0 < length into.old }
        ensures answers { Answers (tells_faults self.old) (tells_faults self.new) (FileRead name.now at (length into.old) result (filled result into.new)) }
        ensures counts { self.new ≡ record self.old { file = raised (io_failed result) self.old.file } }
    {
        let read = self.file.read(self.rt, name, at, into);
        self.file_faults = after_io(self.file_faults, read);
        read
    }
}
