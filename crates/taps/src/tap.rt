// A World that writes down what is called on another.
ghost use Rattle.std.specs.Prelude.{◌≡◌, ◌≤◌, ◌∷◌, length};
ghost use Rattle.world_face.specs.Journal.{place_of, count_of, count_got, filled, filled_got};
ghost use Rattle.replay.specs.Lines.{place_of_two};
ghost use Rattle.replay.specs.Views.{viewed};

use replay::LineView;
use std::marker::Model;
use std::snapshot::Snapshot;
use world_face::{
    Accepted, Endpoint, FileSize, Got, Io, Joined, LinkAt, Made, ReadyList, Sent, Waited, Wants,
    World,
};

/// What is made of the calls of a run.
pub trait Book {
    ghost use Rattle.std.specs.Prelude.{ℕ, List};
    ghost use Rattle.world_face.specs.Journal.{Entry};

    /// The calls so far, newest first.
    ghost made: { Self → List Entry };

    /// Where the book began, which stays the same.
    ghost source: { Self → List ℕ };

    /// Takes one call more, with its answer.
    fn note(&mut self, line: &LineView<'_>)
        ensures made { made self.new ≡ viewed line.now ∷ made self.old }
        ensures source { source self.new ≡ source self.old };

    /// The run is about to wait.
    fn pause(&mut self)
        ensures made { made self.new ≡ made self.old }
        ensures source { source self.new ≡ source self.old };
}

/// A World over another, of which it passes every call on. Behind each answer its book takes the call with that answer; before a wait the book is told so.
///
/// It tells every call that is made on it, whatever the World below tells: so what is proved of a run on a World that tells its calls holds of a run
/// on any World through it, and of what the book made of the calls. It owns both while it stands, and `into_parts` gives them back.
#[derive(Drop)]
pub struct Tap<W: World, B: Book> {
    world: W,
    began: Snapshot<W>,
    book: B,
}

impl<W: World, B: Book> Model for Tap<W, B> {
    ghost use Rattle.taps.specs.Recording.{Tapped, ArePassed};

    ghost Value = { Tapped W B };

    ghost view = { λ t. record { world = t.world; began = t.began.value; book = t.book } };

    ghost invariant = { λ t. ArePassed (W.tells t.began.value) (W.tells t.world) (B.made t.book) };
}

impl<W: World, B: Book> Tap<W, B> {
    ghost use Rattle.std.specs.Prelude.{[]};
    ghost use Rattle.taps.specs.Recording.{ArePassed};

    /// No call was made yet, and the book has none.
    pub fn new(world: W, book: B) -> Tap<W, B>
        requires { B.made book ≡ [] }
        ensures { result ≡ record { world = world; began = world; book = book } }
    {
        // for the prover: the World as it is before the first call, which has no octets.
        let began = Snapshot::of(&world);
        Tap { world, began, book }
    }

    /// What was made of the calls so far.
    pub fn book(&self) -> &B
        ensures { result.now ≡ self.now.book }
    {
        &self.book
    }

    /// Gives the World and the book back.
    pub fn into_parts(self) -> (W, B)
        // The calls that the book has are those that were made on the World, with their answers.
        ensures passed { ArePassed (W.tells self.began) (W.tells result.0) (B.made result.1) }
        ensures book { result.1 ≡ self.book }
        ensures world { result.0 ≡ self.world }
    {
        let Tap {
            world,
            began: _,
            book,
        } = self;
        (world, book)
    }
}

/// The octets that a read left, as its line has them.
pub fn octets_read(octets: &[u8], answer: Io) -> &[u8]
    requires { count_of answer ≤ length octets.now }
    ensures { result.now ≡ filled answer octets.now }
{
    &octets[..answer.count()]
}

/// The octets of a datagram that came, none where none did.
pub fn octets_got(octets: &[u8], answer: Got) -> &[u8]
    requires { count_got answer ≤ length octets.now }
    ensures { result.now ≡ filled_got answer octets.now }
{
    match answer {
        Got::From(_, count) => &octets[..count],
        Got::NotYet | Got::Failed => &[],
    }
}

/// A place of the link, as it stands in a line: the octets of a path, or an endpoint and none.
pub fn seat(at: &LinkAt) -> (&[u8], Option<Endpoint>)
    ensures { place_of_two result.1 result.0.now ≡ place_of at.now }
{
    match at {
        LinkAt::Unix(path) => (path.as_str().as_bytes(), None),
        LinkAt::Tcp(at) => (&[], Some(*at)),
    }
}

impl<W: World, B: Book> World for Tap<W, B> {
    ghost use Rattle.taps.specs.Recording.{marked, telling};

    // Each call, with the counts of the World below.
    ghost tells = { λ t. telling (marked (W.tells t.began) (B.source t.book)) (W.tells t.world).faults (B.made t.book) };

    fn now(&mut self) -> u64 {
        let moment = self.world.now();
        self.book.note(&LineView::Now(moment));
        moment
    }

    fn wait(&mut self, wants: &Wants, timeout: Option<u64>, ready: &mut ReadyList) -> Waited {
        self.book.pause();
        let answer = self.world.wait(wants, timeout, ready);
        let (wanted, reported) = (wants.items(), ready.items());
        self.book
            .note(&LineView::Wait(wanted, timeout, answer, reported));
        answer
    }

    fn link_open(&mut self, at: &LinkAt) -> Made {
        let answer = self.world.link_open(at);
        let (path, endpoint) = seat(at);
        self.book.note(&LineView::LinkOpen(path, endpoint, answer));
        answer
    }

    fn link_read(&mut self, into: &mut [u8]) -> Io {
        let asked = into.len();
        let answer = self.world.link_read(into);
        let octets = octets_read(into, answer);
        self.book.note(&LineView::LinkRead(asked, answer, octets));
        answer
    }

    fn link_write(&mut self, from: &[u8]) -> Io {
        let answer = self.world.link_write(from);
        self.book.note(&LineView::LinkWrite(from, answer));
        answer
    }

    fn connect(&mut self, c: u64, to: Endpoint) -> Made {
        let answer = self.world.connect(c, to);
        self.book.note(&LineView::Connect(c, to, answer));
        answer
    }

    fn connected(&mut self, c: u64) -> Joined {
        let answer = self.world.connected(c);
        self.book.note(&LineView::Connected(c, answer));
        answer
    }

    fn listen(&mut self, l: u64, at: Endpoint) -> Made {
        let answer = self.world.listen(l, at);
        self.book.note(&LineView::Listen(l, at, answer));
        answer
    }

    fn accept(&mut self, l: u64, c: u64) -> Accepted {
        let answer = self.world.accept(l, c);
        self.book.note(&LineView::Accept(l, c, answer));
        answer
    }

    fn tcp_read(&mut self, c: u64, into: &mut [u8]) -> Io {
        let asked = into.len();
        let answer = self.world.tcp_read(c, into);
        let octets = octets_read(into, answer);
        self.book.note(&LineView::TcpRead(c, asked, answer, octets));
        answer
    }

    fn tcp_write(&mut self, c: u64, from: &[u8]) -> Io {
        let answer = self.world.tcp_write(c, from);
        self.book.note(&LineView::TcpWrite(c, from, answer));
        answer
    }

    fn tcp_end(&mut self, c: u64) -> Made {
        let answer = self.world.tcp_end(c);
        self.book.note(&LineView::TcpEnd(c, answer));
        answer
    }

    fn close(&mut self, s: u64) {
        self.world.close(s);
        self.book.note(&LineView::Close(s));
    }

    fn udp_open(&mut self, s: u64, at: Endpoint) -> Made {
        let answer = self.world.udp_open(s, at);
        self.book.note(&LineView::UdpOpen(s, at, answer));
        answer
    }

    fn udp_send(&mut self, s: u64, to: Endpoint, from: &[u8]) -> Sent {
        let answer = self.world.udp_send(s, to, from);
        self.book.note(&LineView::UdpSend(s, to, from, answer));
        answer
    }

    fn udp_recv(&mut self, s: u64, into: &mut [u8]) -> Got {
        let asked = into.len();
        let answer = self.world.udp_recv(s, into);
        let octets = octets_got(into, answer);
        self.book.note(&LineView::UdpRecv(s, asked, answer, octets));
        answer
    }

    fn file_len(&mut self, name: &str) -> FileSize {
        let answer = self.world.file_len(name);
        self.book.note(&LineView::FileLen(name.as_bytes(), answer));
        answer
    }

    fn file_read(&mut self, name: &str, at: u64, into: &mut [u8]) -> Io {
        let asked = into.len();
        let answer = self.world.file_read(name, at, into);
        let octets = octets_read(into, answer);
        self.book.note(&LineView::FileRead(name.as_bytes(), at, asked, answer, octets));
        answer
    }
}
