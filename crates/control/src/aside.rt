// A World over another, on which what is the control's is kept from the network.
ghost use Rattle.std.specs.Prelude.{◌≡◌, ◌≤◌, ◌∷◌, []};
ghost use Rattle.rules_control.specs.Reports.{tells_lines, tells_peer, tells_room};

use crate::waits::{gather, part_reported, put_others};
use poll_list::Want;
use replay::LineView;
use rules_control::{Reported, reports_of};
use std::marker::Model;
use std::snapshot::Snapshot;
use taps::{Journal, octets_got, octets_read, seat};
use world_face::{
    Accepted, Endpoint, FileSize, Got, Io, Joined, LinkAt, Made, ReadyList, Sent, Waited, Wants,
    World,
};

/// A World over another, of which it passes every call on. A wait it passes on with the control's item among what is wanted, and what is reported of sockets of the control's
/// it sets aside.
///
/// The calls on it make up *stretches*, one from each `begin` to the next: the turns of the network, and between two of them the control's own calls. It tells each call of a
/// stretch as the network sees it, whatever the World below tells: so what is proved of the network on any World holds of what it sees here, and `Passes` says what of that was
/// made on the World below.
#[derive(Drop)]
pub struct Aside<W: World> {
    world: W,
    began: Snapshot<W>,
    item: Option<Want>,
    // the part of the item that the last wait of the stretch reported
    reported: Option<Want>,
    // what the last wait on the World below was for, and what it reported
    wants: Wants,
    ready: ReadyList,
    // for the prover: the calls of the stretch, which have no octets
    seen: Journal,
}

impl<W: World> Model for Aside<W> {
    ghost use Rattle.poll_list.specs.Picks.{as_list};
    ghost use Rattle.control.specs.Stretches.{Asided, IsKept};

    ghost Value = { Asided W };

    ghost view = { λ a. record { world = a.world; began = a.began.value; item = a.item; reported = as_list a.reported; seen = a.seen.entries } };

    ghost invariant = { λ a. IsKept (W.tells a.began.value) (W.tells a.world) a.item (as_list a.reported) a.seen.entries a.wants.capacity a.ready.capacity };
}

impl<W: World> Aside<W> {
    ghost use Rattle.std.specs.Prelude.{None};
    ghost use Rattle.world_face.specs.Limits.{most_ready, most_wants};
    ghost use Rattle.control.specs.Stretches.{beginning_with, IsItem, Passes};

    /// One over a World, in a stretch without an item. The lists are for what a wait is passed on with: `MOST_WANTS` wants and `MOST_READY` reports.
    pub fn new(world: W, wants: Wants, ready: ReadyList) -> Aside<W>
        requires wants { most_wants ≤ wants.capacity }
        requires ready { most_ready ≤ ready.capacity }
        ensures { result ≡ beginning_with None world }
    {
        // for the prover: the World as it is when the stretch begins, which has no octets.
        let began = Snapshot::of(&world);
        Aside {
            world,
            began,
            item: None,
            reported: None,
            wants,
            ready,
            seen: Journal::new(),
        }
    }

    /// Begins a stretch, each wait of which is for this item of the control's, too.
    pub fn begin(&mut self, item: Option<Want>)
        requires { IsItem item }
        ensures begun { self.new ≡ beginning_with item self.old.world }
        // What was called in the stretch before is what was made on the World below.
        ensures passed { Passes W.tells self.old }
    {
        // for the prover: the World as it is now.
        self.began = Snapshot::of(&self.world);
        self.item = item;
        self.reported = None;
        self.seen = Journal::new();
    }

    /// What the last wait of the stretch reported of the item; nothing before it.
    pub fn reported(&self) -> Reported
        ensures peer { result.peer ≡ tells_peer self.now.reported }
        ensures lines { result.lines ≡ tells_lines self.now.reported }
        ensures room { result.room ≡ tells_room self.now.reported }
        ensures passed { Passes W.tells self.now }
    {
        match self.reported {
            Some(item) => reports_of(item),
            None => Reported {
                peer: false,
                lines: false,
                room: false,
            },
        }
    }

    /// Gives the World back.
    pub fn into_world(self) -> W
        ensures world { result ≡ self.world }
        // What was called in the last stretch is what was made on it.
        ensures passed { Passes W.tells self }
    {
        let Aside {
            world,
            began: _,
            item: _,
            reported: _,
            wants: _,
            ready: _,
            seen: _,
        } = self;
        world
    }
}

impl<W: World> World for Aside<W> {
    ghost use Rattle.control.specs.Stretches.{tells_seen};

    // Each call as the network sees it, with the counts of the World below.
    ghost tells = { λ a. tells_seen W.tells a };

    fn now(&mut self) -> u64 {
        let moment = self.world.now();
        self.seen = self.seen.then(&LineView::Now(moment));
        moment
    }

    // Where the network itself wants a socket of the control's the wait is passed on as it is: a World may report twice what is wanted twice.
    fn wait(&mut self, wants: &Wants, timeout: Option<u64>, ready: &mut ReadyList) -> Waited {
        gather(wants, self.item, &mut self.wants);
        let answer = self.world.wait(&self.wants, timeout, &mut self.ready);
        self.reported = part_reported(self.item, self.ready.items());
        put_others(&self.ready, ready);
        let (wanted, reported) = (wants.items(), ready.items());
        self.seen = self
            .seen
            .then(&LineView::Wait(wanted, timeout, answer, reported));
        answer
    }

    fn link_open(&mut self, at: &LinkAt) -> Made {
        let answer = self.world.link_open(at);
        let (path, endpoint) = seat(at);
        self.seen = self.seen.then(&LineView::LinkOpen(path, endpoint, answer));
        answer
    }

    fn link_read(&mut self, into: &mut [u8]) -> Io {
        let asked = into.len();
        let answer = self.world.link_read(into);
        let octets = octets_read(into, answer);
        self.seen = self.seen.then(&LineView::LinkRead(asked, answer, octets));
        answer
    }

    fn link_write(&mut self, from: &[u8]) -> Io {
        let answer = self.world.link_write(from);
        self.seen = self.seen.then(&LineView::LinkWrite(from, answer));
        answer
    }

    fn connect(&mut self, c: u64, to: Endpoint) -> Made {
        let answer = self.world.connect(c, to);
        self.seen = self.seen.then(&LineView::Connect(c, to, answer));
        answer
    }

    fn connected(&mut self, c: u64) -> Joined {
        let answer = self.world.connected(c);
        self.seen = self.seen.then(&LineView::Connected(c, answer));
        answer
    }

    fn listen(&mut self, l: u64, at: Endpoint) -> Made {
        let answer = self.world.listen(l, at);
        self.seen = self.seen.then(&LineView::Listen(l, at, answer));
        answer
    }

    fn accept(&mut self, l: u64, c: u64) -> Accepted {
        let answer = self.world.accept(l, c);
        self.seen = self.seen.then(&LineView::Accept(l, c, answer));
        answer
    }

    fn tcp_read(&mut self, c: u64, into: &mut [u8]) -> Io {
        let asked = into.len();
        let answer = self.world.tcp_read(c, into);
        let octets = octets_read(into, answer);
        self.seen = self.seen.then(&LineView::TcpRead(c, asked, answer, octets));
        answer
    }

    fn tcp_write(&mut self, c: u64, from: &[u8]) -> Io {
        let answer = self.world.tcp_write(c, from);
        self.seen = self.seen.then(&LineView::TcpWrite(c, from, answer));
        answer
    }

    fn tcp_end(&mut self, c: u64) -> Made {
        let answer = self.world.tcp_end(c);
        self.seen = self.seen.then(&LineView::TcpEnd(c, answer));
        answer
    }

    fn close(&mut self, s: u64) {
        self.world.close(s);
        self.seen = self.seen.then(&LineView::Close(s));
    }

    fn udp_open(&mut self, s: u64, at: Endpoint) -> Made {
        let answer = self.world.udp_open(s, at);
        self.seen = self.seen.then(&LineView::UdpOpen(s, at, answer));
        answer
    }

    fn udp_send(&mut self, s: u64, to: Endpoint, from: &[u8]) -> Sent {
        let answer = self.world.udp_send(s, to, from);
        self.seen = self.seen.then(&LineView::UdpSend(s, to, from, answer));
        answer
    }

    fn udp_recv(&mut self, s: u64, into: &mut [u8]) -> Got {
        let asked = into.len();
        let answer = self.world.udp_recv(s, into);
        let octets = octets_got(into, answer);
        self.seen = self.seen.then(&LineView::UdpRecv(s, asked, answer, octets));
        answer
    }

    fn file_len(&mut self, name: &str) -> FileSize {
        let answer = self.world.file_len(name);
        self.seen = self.seen.then(&LineView::FileLen(name.as_bytes(), answer));
        answer
    }

    fn file_read(&mut self, name: &str, at: u64, into: &mut [u8]) -> Io {
        let asked = into.len();
        let answer = self.world.file_read(name, at, into);
        let octets = octets_read(into, answer);
        self.seen = self.seen.then(&LineView::FileRead(name.as_bytes(), at, asked, answer, octets));
        answer
    }
}
