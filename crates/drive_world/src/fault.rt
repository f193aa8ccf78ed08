// A World over a World, in which one call fails, falls short or isn't answered yet.
ghost use Rattle.std.specs.Prelude.{◌≡◌, ◌≢◌, ◌<◌, ◌≤◌, ◌-◌, true, false, Some, None, length, is_some};
ghost use Rattle.world_face.specs.Tells.{Answers};
ghost use Rattle.drive_world.specs.Faults.{counted, due, given_to, short_of};
ghost use Rattle.drive_world.specs.declared.fault.Course.TheVariants.{Fails, IsPutOff, IsCut, PassesOn};
ghost use Rattle.drive_world.specs.declared.fault.How.TheVariants.{Fail, Short, NotYet as Later};
ghost use Rattle.drive_world.specs.declared.fault.Kind.TheVariants as kind;

use std::marker::Model;
use world_face::{
    Accepted, Endpoint, FileSize, Got, Io, Joined, LinkAt, Made, ReadyList, Sent, Waited, Wants,
    World,
};

/// How a call is answered in place of its own answer.
#[derive(Clone, Copy, Debug, PartialEq, Eq)]
pub enum How {
    /// It fails.
    Fail,
    /// A read or a write of several octets moves one alone.
    Short,
    /// It is answered NotYet.
    NotYet,
}

/// Which of its four counts a World raises where a call fails.
#[derive(Clone, Copy, Debug, PartialEq, Eq)]
pub enum Kind {
    Link,
    Wait,
    Socket,
    File,
}

/// What becomes of a call that may also be answered NotYet.
#[derive(Clone, Copy)]
enum Course {
    Fails,
    IsPutOff,
    IsCut,
    PassesOn,
}

/// What the fault is, how many calls still come before it, and the kind of the call that got it, once one has.
#[derive(Clone, Copy)]
pub(crate) struct Plan {
    how: How,
    left: u64,
    given: Option<Kind>,
}

impl Plan {
    // Counts a call, and answers which fault it gets, if it can be answered so.
    fn count(&mut self) -> Option<How>
        ensures due { result ≡ due self.old }
        ensures counted { self.new ≡ counted self.old }
    {
        let is_due = self.left == 0 && self.given.is_none();
        self.left = self.left.saturating_sub(1);
        if is_due { Some(self.how) } else { None }
    }

    // The fault was given to a call.
    fn give(&mut self, kind: Kind)
        ensures { self.new ≡ record self.old { given = Some kind } }
    {
        self.given = Some(kind);
    }

    // Counts a call of a kind, and answers whether it fails: the fault is given to it then.
    fn fails(&mut self, kind: Kind) -> bool
        ensures fails { result ≡ true → (due self.old ≡ Some Fail) × (self.new ≡ given_to kind self.old) }
        ensures passes { result ≡ false → (due self.old ≢ Some Fail) × (self.new ≡ counted self.old) }
    {
        if let Some(How::Fail) = self.count() {
            self.give(kind);
            true
        } else {
            false
        }
    }

    // Counts a call of a kind, and answers what becomes of it: where it fails or is put off the fault is given to it.
    fn course(&mut self, kind: Kind) -> Course
        ensures fails { result ≡ Fails → (due self.old ≡ Some Fail) × (self.new ≡ given_to kind self.old) }
        ensures put_off { result ≡ IsPutOff → (due self.old ≡ Some Later) × (self.new ≡ given_to kind self.old) }
        ensures cut { result ≡ IsCut → (due self.old ≡ Some Short) × (self.new ≡ counted self.old) }
        ensures passes { result ≡ PassesOn → (due self.old ≡ None) × (self.new ≡ counted self.old) }
    {
        match self.count() {
            Some(How::Fail) => {
                self.give(kind);
                Course::Fails
            }
            Some(How::NotYet) => {
                self.give(kind);
                Course::IsPutOff
            }
            Some(How::Short) => Course::IsCut,
            None => Course::PassesOn,
        }
    }

    // A call was passed on for one octet in place of several, and the fault was given where it moved that.
    fn cut(&mut self, kind: Kind, whole: usize, answer: Io)
        ensures { self.new ≡ short_of kind whole answer self.old }
    {
        if whole > 1 && answer == Io::Done(1) {
            self.given = Some(kind);
        }
    }
}

/// A World that passes every call on to another but for one. The first call from a number on, counted from 0, that can be answered by the fault gets
/// it in place of its own answer: it fails and the count of its kind rises, or it is answered NotYet, and the other World isn't asked; or, of a read
/// or a write of several octets, the other World is asked for one, and moves it. It tells no call.
#[derive(Drop)]
pub struct FaultWorld<W: World> {
    inner: W,
    plan: Plan,
}

impl<W: World> Model for FaultWorld<W> {
    ghost use Rattle.drive_world.specs.Faults.{Faulted};

    ghost Value = { Faulted W };

    ghost view = { λ w. record { inner = w.inner; plan = w.plan } };
}

impl<W: World> FaultWorld<W> {
    ghost use Rattle.drive_world.specs.Faults.{plan_of};

    /// One over `inner`, which gives the fault to no call before that with the number `at`.
    pub fn new(inner: W, at: u64, how: How) -> FaultWorld<W>
        ensures { result ≡ record { inner = inner; plan = plan_of how at } }
    {
        FaultWorld {
            inner,
            plan: Plan {
                how,
                left: at,
                given: None,
            },
        }
    }

    /// The World below.
    pub fn inner(&self) -> &W
        ensures { result.now ≡ self.now.inner }
    {
        &self.inner
    }

    /// Whether the fault was given.
    pub fn fired(&self) -> bool
        ensures { result ≡ is_some self.now.plan.given }
    {
        self.plan.given.is_some()
    }

    /// The kind of the call that got the fault.
    pub fn given(&self) -> Option<Kind>
        ensures { result ≡ self.now.plan.given }
    {
        self.plan.given
    }
}

impl<W: World> World for FaultWorld<W> {
    ghost use Rattle.std.specs.Prelude.{take};
    ghost use Rattle.poll_list.specs.Listing.{AreWants};
    ghost use Rattle.world_face.specs.Journal.{filled, filled_got, place_of, IsPlace, Now, Wait, LinkOpen, LinkRead, LinkWrite, Connect, Connected, Listen, Accept, TcpRead, TcpWrite};
    ghost use Rattle.world_face.specs.Journal.{TcpEnd, Close, UdpOpen, UdpSend, UdpRecv, FileLen, FileRead};
    ghost use Rattle.world_face.specs.Limits.{most_ready, most_to_link, most_to_flow, most_to_udp, most_wants, most_name};
    ghost use Rattle.world_face.specs.declared.Io.TheVariants.{Failed as IoFailed, NotYet as IoLater};
    ghost use Rattle.world_face.specs.declared.Made.TheVariants.{Failed as MadeFailed};
    ghost use Rattle.world_face.specs.declared.Joined.TheVariants.{Failed as JoinFailed, NotYet as JoinLater};
    ghost use Rattle.world_face.specs.declared.Accepted.TheVariants.{Failed as AcceptFailed, NotYet as AcceptLater};
    ghost use Rattle.world_face.specs.declared.Sent.TheVariants.{Failed as SentFailed, NotYet as SentLater};
    ghost use Rattle.world_face.specs.declared.Got.TheVariants.{Failed as GotFailed, NotYet as GotLater};
    ghost use Rattle.world_face.specs.declared.FileSize.TheVariants.{Failed as SizeFailed};
    ghost use Rattle.world_face.specs.declared.Waited.TheVariants.{Failed as WaitFailed};
    ghost use Rattle.drive_world.specs.Faults.{FallsShort, Passes, tells_over};

    ghost tells = { λ w. tells_over w.plan (W.tells w.inner) };

    fn now(&mut self) -> u64
        ensures answers { Answers (tells_over self.old.plan (W.tells self.old.inner)) (tells_over self.new.plan (W.tells self.new.inner)) (Now result) }
        ensures passes { Passes W.tells self.old self.new (Now result) }
    {
        let _due = self.plan.count();
        self.inner.now()
    }

    fn wait(&mut self, wants: &Wants, timeout: Option<u64>, ready: &mut ReadyList) -> Waited
        requires some { AreWants wants.now.items }
        requires few { length wants.now.items ≤ most_wants }
        requires room { most_ready ≤ ready.old.capacity }
        ensures answers { Answers (tells_over self.old.plan (W.tells self.old.inner)) (tells_over self.new.plan (W.tells self.new.inner))
            (Wait wants.now.items timeout result ready.new.items) }
        ensures capacity { ready.new.capacity ≡ ready.old.capacity }
        ensures fails { due self.old.plan ≡ Some Fail → (result ≡ WaitFailed) × (self.new ≡ record self.old { plan = given_to kind.Wait self.old.plan }) }
        ensures passes { due self.old.plan ≢ Some Fail → Passes W.tells self.old self.new (Wait wants.now.items timeout result ready.new.items) }
    {
        if self.plan.fails(Kind::Wait) {
            ready.clear();
            Waited::Failed
        } else {
            self.inner.wait(wants, timeout, ready)
        }
    }

    fn link_open(&mut self, at: &LinkAt) -> Made
        requires { IsPlace (place_of at.now) }
        ensures answers { Answers (tells_over self.old.plan (W.tells self.old.inner)) (tells_over self.new.plan (W.tells self.new.inner))
            (LinkOpen (place_of at.now) result) }
        ensures fails { due self.old.plan ≡ Some Fail → (result ≡ MadeFailed) × (self.new ≡ record self.old { plan = given_to kind.Link self.old.plan }) }
        ensures passes { due self.old.plan ≢ Some Fail → Passes W.tells self.old self.new (LinkOpen (place_of at.now) result) }
    {
        if self.plan.fails(Kind::Link) {
            Made::Failed
        } else {
            self.inner.link_open(at)
        }
    }

    fn link_read(&mut self, into: &mut [u8]) -> Io
        requires { 0 < length into.old }
        ensures answers { Answers (tells_over self.old.plan (W.tells self.old.inner)) (tells_over self.new.plan (W.tells self.new.inner))
            (LinkRead (length into.old) result (filled result into.new)) }
        ensures fails { due self.old.plan ≡ Some Fail → (result ≡ IoFailed) × (self.new ≡ record self.old { plan = given_to kind.Link self.old.plan }) }
        ensures waits { due self.old.plan ≡ Some Later → (result ≡ IoLater) × (self.new ≡ record self.old { plan = given_to kind.Link self.old.plan }) }
        ensures falls_short { due self.old.plan ≡ Some Short → FallsShort W.tells kind.Link (length into.old) result self.old self.new
            (LinkRead 1 result (filled result into.new)) }
        ensures passes { due self.old.plan ≡ None → Passes W.tells self.old self.new (LinkRead (length into.old) result (filled result into.new)) }
    {
        match self.plan.course(Kind::Link) {
            Course::Fails => Io::Failed,
            Course::IsPutOff => Io::NotYet,
            Course::IsCut => {
                let answer = self.inner.link_read(&mut into[..1]);
                self.plan.cut(Kind::Link, into.len(), answer);
                answer
            }
            Course::PassesOn => self.inner.link_read(into),
        }
    }

    fn link_write(&mut self, from: &[u8]) -> Io
        requires some { 0 < length from.now }
        requires fits { length from.now ≤ most_to_link }
        ensures answers { Answers (tells_over self.old.plan (W.tells self.old.inner)) (tells_over self.new.plan (W.tells self.new.inner))
            (LinkWrite from.now result) }
        ensures fails { due self.old.plan ≡ Some Fail → (result ≡ IoFailed) × (self.new ≡ record self.old { plan = given_to kind.Link self.old.plan }) }
        ensures waits { due self.old.plan ≡ Some Later → (result ≡ IoLater) × (self.new ≡ record self.old { plan = given_to kind.Link self.old.plan }) }
        ensures falls_short { due self.old.plan ≡ Some Short → FallsShort W.tells kind.Link (length from.now) result self.old self.new
            (LinkWrite (take 1 from.now) result) }
        ensures passes { due self.old.plan ≡ None → Passes W.tells self.old self.new (LinkWrite from.now result) }
    {
        match self.plan.course(Kind::Link) {
            Course::Fails => Io::Failed,
            Course::IsPutOff => Io::NotYet,
            Course::IsCut => {
                let answer = self.inner.link_write(&from[..1]);
                self.plan.cut(Kind::Link, from.len(), answer);
                answer
            }
            Course::PassesOn => self.inner.link_write(from),
        }
    }

    fn connect(&mut self, c: u64, to: Endpoint) -> Made
        ensures answers { Answers (tells_over self.old.plan (W.tells self.old.inner)) (tells_over self.new.plan (W.tells self.new.inner))
            (Connect c to result) }
        ensures fails { due self.old.plan ≡ Some Fail → (result ≡ MadeFailed) × (self.new ≡ record self.old { plan = given_to kind.Socket self.old.plan }) }
        ensures passes { due self.old.plan ≢ Some Fail → Passes W.tells self.old self.new (Connect c to result) }
    {
        if self.plan.fails(Kind::Socket) {
            Made::Failed
        } else {
            self.inner.connect(c, to)
        }
    }

    fn connected(&mut self, c: u64) -> Joined
        ensures answers { Answers (tells_over self.old.plan (W.tells self.old.inner)) (tells_over self.new.plan (W.tells self.new.inner)) (Connected c result) }
        ensures fails { due self.old.plan ≡ Some Fail → (result ≡ JoinFailed) × (self.new ≡ record self.old { plan = given_to kind.Socket self.old.plan }) }
        ensures waits { due self.old.plan ≡ Some Later → (result ≡ JoinLater) × (self.new ≡ record self.old { plan = given_to kind.Socket self.old.plan }) }
        ensures passes { due self.old.plan ≢ Some Fail → due self.old.plan ≢ Some Later → Passes W.tells self.old self.new (Connected c result) }
    {
        match self.plan.course(Kind::Socket) {
            Course::Fails => Joined::Failed,
            Course::IsPutOff => Joined::NotYet,
            Course::IsCut | Course::PassesOn => self.inner.connected(c),
        }
    }

    fn listen(&mut self, l: u64, at: Endpoint) -> Made
        ensures answers { Answers (tells_over self.old.plan (W.tells self.old.inner)) (tells_over self.new.plan (W.tells self.new.inner)) (Listen l at result) }
        ensures fails { due self.old.plan ≡ Some Fail → (result ≡ MadeFailed) × (self.new ≡ record self.old { plan = given_to kind.Socket self.old.plan }) }
        ensures passes { due self.old.plan ≢ Some Fail → Passes W.tells self.old self.new (Listen l at result) }
    {
        if self.plan.fails(Kind::Socket) {
            Made::Failed
        } else {
            self.inner.listen(l, at)
        }
    }

    fn accept(&mut self, l: u64, c: u64) -> Accepted
        ensures answers { Answers (tells_over self.old.plan (W.tells self.old.inner)) (tells_over self.new.plan (W.tells self.new.inner)) (Accept l c result) }
        ensures fails { due self.old.plan ≡ Some Fail → (result ≡ AcceptFailed) × (self.new ≡ record self.old { plan = given_to kind.Socket self.old.plan }) }
        ensures waits { due self.old.plan ≡ Some Later → (result ≡ AcceptLater) × (self.new ≡ record self.old { plan = given_to kind.Socket self.old.plan }) }
        ensures passes { due self.old.plan ≢ Some Fail → due self.old.plan ≢ Some Later → Passes W.tells self.old self.new (Accept l c result) }
    {
        match self.plan.course(Kind::Socket) {
            Course::Fails => Accepted::Failed,
            Course::IsPutOff => Accepted::NotYet,
            Course::IsCut | Course::PassesOn => self.inner.accept(l, c),
        }
    }

    fn tcp_read(&mut self, c: u64, into: &mut [u8]) -> Io
        requires { 0 < length into.old }
        ensures answers { Answers (tells_over self.old.plan (W.tells self.old.inner)) (tells_over self.new.plan (W.tells self.new.inner))
            (TcpRead c (length into.old) result (filled result into.new)) }
        ensures fails { due self.old.plan ≡ Some Fail → (result ≡ IoFailed) × (self.new ≡ record self.old { plan = given_to kind.Socket self.old.plan }) }
        ensures waits { due self.old.plan ≡ Some Later → (result ≡ IoLater) × (self.new ≡ record self.old { plan = given_to kind.Socket self.old.plan }) }
        ensures falls_short { due self.old.plan ≡ Some Short → FallsShort W.tells kind.Socket (length into.old) result self.old self.new
            (TcpRead c 1 result (filled result into.new)) }
        ensures passes { due self.old.plan ≡ None → Passes W.tells self.old self.new (TcpRead c (length into.old) result (filled result into.new)) }
    {
        match self.plan.course(Kind::Socket) {
            Course::Fails => Io::Failed,
            Course::IsPutOff => Io::NotYet,
            Course::IsCut => {
                let answer = self.inner.tcp_read(c, &mut into[..1]);
                self.plan.cut(Kind::Socket, into.len(), answer);
                answer
            }
            Course::PassesOn => self.inner.tcp_read(c, into),
        }
    }

    fn tcp_write(&mut self, c: u64, from: &[u8]) -> Io
        requires some { 0 < length from.now }
        requires fits { length from.now ≤ most_to_flow }
        ensures answers { Answers (tells_over self.old.plan (W.tells self.old.inner)) (tells_over self.new.plan (W.tells self.new.inner))
            (TcpWrite c from.now result) }
        ensures fails { due self.old.plan ≡ Some Fail → (result ≡ IoFailed) × (self.new ≡ record self.old { plan = given_to kind.Socket self.old.plan }) }
        ensures waits { due self.old.plan ≡ Some Later → (result ≡ IoLater) × (self.new ≡ record self.old { plan = given_to kind.Socket self.old.plan }) }
        ensures falls_short { due self.old.plan ≡ Some Short → FallsShort W.tells kind.Socket (length from.now) result self.old self.new
            (TcpWrite c (take 1 from.now) result) }
        ensures passes { due self.old.plan ≡ None → Passes W.tells self.old self.new (TcpWrite c from.now result) }
    {
        match self.plan.course(Kind::Socket) {
            Course::Fails => Io::Failed,
            Course::IsPutOff => Io::NotYet,
            Course::IsCut => {
                let answer = self.inner.tcp_write(c, &from[..1]);
                self.plan.cut(Kind::Socket, from.len(), answer);
                answer
            }
            Course::PassesOn => self.inner.tcp_write(c, from),
        }
    }

    fn tcp_end(&mut self, c: u64) -> Made
        ensures answers { Answers (tells_over self.old.plan (W.tells self.old.inner)) (tells_over self.new.plan (W.tells self.new.inner)) (TcpEnd c result) }
        ensures fails { due self.old.plan ≡ Some Fail → (result ≡ MadeFailed) × (self.new ≡ record self.old { plan = given_to kind.Socket self.old.plan }) }
        ensures passes { due self.old.plan ≢ Some Fail → Passes W.tells self.old self.new (TcpEnd c result) }
    {
        if self.plan.fails(Kind::Socket) {
            Made::Failed
        } else {
            self.inner.tcp_end(c)
        }
    }

    fn close(&mut self, s: u64)
        ensures answers { Answers (tells_over self.old.plan (W.tells self.old.inner)) (tells_over self.new.plan (W.tells self.new.inner)) (Close s) }
        ensures passes { Passes W.tells self.old self.new (Close s) }
    {
        let _due = self.plan.count();
        self.inner.close(s);
    }

    fn udp_open(&mut self, s: u64, at: Endpoint) -> Made
        ensures answers { Answers (tells_over self.old.plan (W.tells self.old.inner)) (tells_over self.new.plan (W.tells self.new.inner))
            (UdpOpen s at result) }
        ensures fails { due self.old.plan ≡ Some Fail → (result ≡ MadeFailed) × (self.new ≡ record self.old { plan = given_to kind.Socket self.old.plan }) }
        ensures passes { due self.old.plan ≢ Some Fail → Passes W.tells self.old self.new (UdpOpen s at result) }
    {
        if self.plan.fails(Kind::Socket) {
            Made::Failed
        } else {
            self.inner.udp_open(s, at)
        }
    }

    fn udp_send(&mut self, s: u64, to: Endpoint, from: &[u8]) -> Sent
        requires { length from.now ≤ most_to_udp }
        ensures answers { Answers (tells_over self.old.plan (W.tells self.old.inner)) (tells_over self.new.plan (W.tells self.new.inner))
            (UdpSend s to from.now result) }
        ensures fails { due self.old.plan ≡ Some Fail → (result ≡ SentFailed) × (self.new ≡ record self.old { plan = given_to kind.Socket self.old.plan }) }
        ensures waits { due self.old.plan ≡ Some Later → (result ≡ SentLater) × (self.new ≡ record self.old { plan = given_to kind.Socket self.old.plan }) }
        ensures passes { due self.old.plan ≢ Some Fail → due self.old.plan ≢ Some Later → Passes W.tells self.old self.new (UdpSend s to from.now result) }
    {
        match self.plan.course(Kind::Socket) {
            Course::Fails => Sent::Failed,
            Course::IsPutOff => Sent::NotYet,
            Course::IsCut | Course::PassesOn => self.inner.udp_send(s, to, from),
        }
    }

    fn udp_recv(&mut self, s: u64, into: &mut [u8]) -> Got
        requires { 0 < length into.old }
        ensures answers { Answers (tells_over self.old.plan (W.tells self.old.inner)) (tells_over self.new.plan (W.tells self.new.inner))
            (UdpRecv s (length into.old) result (filled_got result into.new)) }
        ensures fails { due self.old.plan ≡ Some Fail → (result ≡ GotFailed) × (self.new ≡ record self.old { plan = given_to kind.Socket self.old.plan }) }
        ensures waits { due self.old.plan ≡ Some Later → (result ≡ GotLater) × (self.new ≡ record self.old { plan = given_to kind.Socket self.old.plan }) }
        ensures passes { due self.old.plan ≢ Some Fail → due self.old.plan ≢ Some Later
            → Passes W.tells self.old self.new (UdpRecv s (length into.old) result (filled_got result into.new)) }
    {
        match self.plan.course(Kind::Socket) {
            Course::Fails => Got::Failed,
            Course::IsPutOff => Got::NotYet,
            Course::IsCut | Course::PassesOn => self.inner.udp_recv(s, into),
        }
    }

    fn file_len(&mut self, name: &str) -> FileSize
        requires some { 0 < length name.now }
        requires fits { length name.now ≤ most_name }
        ensures answers { Answers (tells_over self.old.plan (W.tells self.old.inner)) (tells_over self.new.plan (W.tells self.new.inner))
            (FileLen name.now result) }
        ensures fails { due self.old.plan ≡ Some Fail → (result ≡ SizeFailed) × (self.new ≡ record self.old { plan = given_to kind.File self.old.plan }) }
        ensures passes { due self.old.plan ≢ Some Fail → Passes W.tells self.old self.new (FileLen name.now result) }
    {
        if self.plan.fails(Kind::File) {
            FileSize::Failed
        } else {
            self.inner.file_len(name)
        }
    }

    fn file_read(&mut self, name: &str, at: u64, into: &mut [u8]) -> Io
        requires some { 0 < length name.now }
        requires fits { length name.now ≤ most_name }
        requires room { 0 < length into.old }
        ensures answers { Answers (tells_over self.old.plan (W.tells self.old.inner)) (tells_over self.new.plan (W.tells self.new.inner))
            (FileRead name.now at (length into.old) result (filled result into.new)) }
        ensures fails { due self.old.plan ≡ Some Fail → (result ≡ IoFailed) × (self.new ≡ record self.old { plan = given_to kind.File self.old.plan }) }
        ensures falls_short { due self.old.plan ≡ Some Short → FallsShort W.tells kind.File (length into.old) result self.old self.new
            (FileRead name.now at 1 result (filled result into.new)) }
        ensures passes { due self.old.plan ≢ Some Fail → due self.old.plan ≢ Some Short
            → Passes W.tells self.old self.new (FileRead name.now at (length into.old) result (filled result into.new)) }
    {
        match self.plan.count() {
            Some(How::Fail) => {
                self.plan.give(Kind::File);
                Io::Failed
            }
            Some(How::Short) => {
                let answer = self.inner.file_read(name, at, &mut into[..1]);
                self.plan.cut(Kind::File, into.len(), answer);
                answer
            }
            Some(How::NotYet) | None => self.inner.file_read(name, at, into),
        }
    }
}
