// Guest, host and clock as one World.
ghost use Rattle.std.specs.Prelude.{◌≡◌, ◌<◌, ◌≤◌, [], false, length};
ghost use Rattle.poll_list.specs.Listing.{AreWants};
ghost use Rattle.world_face.specs.Faults.{io_failed, waited_failed};
ghost use Rattle.world_face.specs.Journal.{MayRead, MayWait};
ghost use Rattle.world_face.specs.Limits.{most_ready, most_wants};
ghost use Rattle.world_face.specs.declared.Waited.TheVariants.{Ready};
ghost use Rattle.drive_world.specs.Runs.{CountsDown};

use crate::frames::Frame;
use crate::guest::Guest;
use crate::host::Host;
use crate::pattern::Pattern;
use crate::reporting::{moved, report};
use crate::road::Road;
use crate::run::Run;
use net_octets::NoMemory;
use std::alloc::Global;
use std::marker::Model;
use world_face::{
    Accepted, Endpoint, Failed, FileSize, Got, Io, Joined, LinkAt, Made, ReadyList, Sent, Sink,
    Waited, Wants, World, sooner,
};

/// At this wait the run is stopped.
const LAST_WAIT: u64 = 20_000_000;

/// A guest with eight connections through the network to a host that gives back what it got, and a clock that moves only while nothing else does. What becomes
/// of each frame between guest and network is drawn from a number. No call on it fails.
#[derive(Drop)]
pub struct DriveWorld {
    run: Run,
    outside: Outside,
}

impl Model for DriveWorld {
    ghost use Rattle.drive_world.specs.Runs.{Run, run_of};

    ghost Value = { Run };

    ghost view = { λ w. run_of w.run };
}

/// Guest, host, road and clock.
#[derive(Drop)]
struct Outside {
    clock: u64,
    pattern: Pattern,
    guest: Guest,
    host: Host,
    road: Road,
    /// How many octets of the first waiting frame were read.
    read: usize,
    /// What came of the frame to the guest that isn't whole yet.
    coming: Frame,
    /// Whose the frame is that was read last.
    speaker: usize,
}

impl DriveWorld {
    ghost use Rattle.std.specs.Prelude.{◌≡◌, ◌≤◌, IfOk};
    ghost use Rattle.world_face.specs.Puts.{Puts};
    ghost use Rattle.drive_world.specs.Runs.{fresh, summary_text};

    /// One whose draws begin with a number, and whose guest sends so many octets. All the memory that it will ever need is taken here.
    pub fn open(alloc: Global, number: u64, octets: u64) -> Result<DriveWorld, NoMemory>
        requires { octets ≤ 10000000 }
        ensures { IfOk result (λ world. world ≡ fresh number) }
    {
        let pattern = Pattern::open(alloc)?;
        let host = Host::open(alloc, octets)?;
        let road = Road::open(alloc, number)?;
        Ok(DriveWorld {
            run: Run {
                number,
                up: 0,
                down: 0,
                wrong: 0,
                waits: 0,
            },
            outside: Outside {
                clock: 0,
                pattern,
                guest: Guest::new(octets),
                host,
                road,
                read: 0,
                coming: Frame::empty(),
                speaker: 0,
            },
        })
    }

    /// Puts what the run came to so far.
    pub fn summary<K: Sink>(&self, out: &mut K) -> Result<(), Failed>
        ensures { Puts (K.holds out.old) (K.holds out.new) (K.faults out.old) (K.faults out.new) (summary_text self.now) result }
    {
        self.run.put(out)
    }
}

impl Outside {
    fn moment(&self) -> u64 {
        self.clock
    }

    // Whether each flow is closed on both sides; a reset closes both.
    fn is_over(&self) -> bool {
        let mut flow = 0;
        for guest in self.guest.flows() {
            if !guest.reset && !(guest.is_over() && self.host.is_over(flow)) {
                return false;
            }
            flow = flow.saturating_add(1);
        }
        true
    }

    // The guest takes a frame.
    fn take_frame(&mut self, carried: &[u8], run: &mut Run)
        ensures { CountsDown run.old run.new }
    {
        let taken = self
            .guest
            .take_frame(self.clock, carried, &self.pattern, &mut self.road);
        run.down = run.down.saturating_add(taken.count);
        run.wrong = run.wrong.saturating_add(taken.wrong);
    }

    // The guest takes those that were held back.
    fn take_late(&mut self, run: &mut Run)
        ensures { CountsDown run.old run.new }
    {
        for _ in 0..self.road.late_count() {
            if let Some(frame) = self.road.late() {
                self.take_frame(frame.carried(), run);
            }
        }
    }

    // Octets go to the guest: a frame as soon as it is whole. No write goes on behind the end of a frame.
    fn carry(&mut self, octets: &[u8], run: &mut Run)
        ensures { CountsDown run.old run.new }
    {
        self.coming.add(octets);
        if self.coming.is_whole() {
            let frame = self.coming;
            self.coming.count = 0;
            self.bring(&frame, run);
        }
    }

    // A frame goes to the guest.
    fn bring(&mut self, frame: &Frame, run: &mut Run)
        ensures { CountsDown run.old run.new }
    {
        let times = self.road.bring(frame);
        for _ in 0..times {
            self.take_frame(frame.carried(), run);
        }
        if times > 0 {
            self.take_late(run);
        }
    }

    // The guest sends what is due.
    fn tick(&mut self) {
        self.guest.tick(self.clock, &self.pattern, &mut self.road);
    }

    // Nothing is ready: the clock moves, to the nearest of the timeout and the guest's own time, and what was held back comes. Answers whether there
    // was anything to wait for.
    fn pass(&mut self, timeout: Option<u64>, run: &mut Run) -> bool
        ensures { CountsDown run.old run.new }
    {
        let over = timeout.map(|timeout| self.clock.saturating_add(timeout));
        match sooner(over, self.guest.next_due()) {
            Some(moment) => self.clock = self.clock.max(moment),
            None if !self.road.holds() => return false,
            None => {}
        }
        self.road.release();
        self.take_late(run);
        self.tick();
        true
    }

    // What of the wants is ready.
    fn report(&self, wants: &Wants, ready: &mut ReadyList)
        requires none { ready.old.items ≡ [] }
        requires some { AreWants wants.now.items }
        requires few { length wants.now.items ≤ most_wants }
        requires room { most_ready ≤ ready.old.capacity }
        ensures may { MayWait wants.now.items Ready ready.new.items }
        ensures capacity { ready.new.capacity ≡ ready.old.capacity }
    {
        report(wants, self.road.waiting.count() > 0, &self.host, ready);
    }

    // Goes on until something that is wanted is ready, or the time is over. The run stops where all flows are closed, or nothing can come any more.
    fn wait(
        &mut self,
        wants: &Wants,
        timeout: Option<u64>,
        ready: &mut ReadyList,
        run: &mut Run,
    ) -> Waited
        requires none { ready.old.items ≡ [] }
        requires some { AreWants wants.now.items }
        requires few { length wants.now.items ≤ most_wants }
        requires room { most_ready ≤ ready.old.capacity }
        ensures answer { MayWait wants.now.items result ready.new.items }
        ensures never { waited_failed result ≡ false }
        ensures capacity { ready.new.capacity ≡ ready.old.capacity }
        ensures counts { CountsDown run.old run.new }
    {
        if self.is_over() {
            return Waited::Stop;
        }
        self.tick();
        self.report(wants, ready);
        if !ready.items().is_empty() {
            return Waited::Ready;
        }
        ready.clear();
        if !self.pass(timeout, run) {
            return Waited::Stop;
        }
        self.report(wants, ready);
        Waited::Ready
    }

    // Reads of the first waiting frame.
    fn link_read(&mut self, into: &mut [u8]) -> Io
        requires { 0 < length into.old }
        ensures may { MayRead (length into.old) result }
        ensures never { io_failed result ≡ false }
    {
        let Some(frame) = self.road.waiting.front() else {
            return Io::NotYet;
        };
        let (flow, size) = (frame.flow, frame.count);
        let count = frame.read_from(self.read, into);
        self.speaker = flow;
        self.read = self.read.saturating_add(count);
        if self.read >= size {
            self.read = 0;
            self.road.waiting.drop_front();
        }
        moved(count)
    }
}

impl World for DriveWorld {
    ghost use Rattle.std.specs.Prelude.{◌≡◌, ◌+◌, ◌<◌, ◌≤◌, length, min};
    ghost use Rattle.poll_list.specs.Listing.{AreWants};
    ghost use Rattle.world_face.specs.Journal.{filled, filled_got, place_of, IsPlace, Now, Wait, LinkOpen, LinkRead, LinkWrite, Connect, Connected, Listen, Accept, TcpRead, TcpWrite};
    ghost use Rattle.world_face.specs.Journal.{TcpEnd, Close, UdpOpen, UdpSend, UdpRecv, FileLen, FileRead};
    ghost use Rattle.world_face.specs.Limits.{most_ready, most_to_link, most_to_flow, most_to_udp, most_wants, most_name, last_count};
    ghost use Rattle.world_face.specs.Tells.{Answers};
    ghost use Rattle.world_face.specs.declared.Waited.TheVariants.{Stop};
    ghost use Rattle.world_face.specs.declared.Io.TheVariants.{Done};
    ghost use Rattle.drive_world.specs.Runs.{last_wait, tells_of};

    ghost tells = { λ w. tells_of w.number };

    /// The moment, which only a wait moves.
    fn now(&mut self) -> u64
        ensures answers { Answers (tells_of self.old.number) (tells_of self.new.number) (Now result) }
        ensures same { self.new ≡ self.old }
    {
        self.outside.moment()
    }

    fn wait(&mut self, wants: &Wants, timeout: Option<u64>, ready: &mut ReadyList) -> Waited
        requires some { AreWants wants.now.items }
        requires few { length wants.now.items ≤ most_wants }
        requires room { most_ready ≤ ready.old.capacity }
        ensures answers { Answers (tells_of self.old.number) (tells_of self.new.number) (Wait wants.now.items timeout result ready.new.items) }
        ensures capacity { ready.new.capacity ≡ ready.old.capacity }
        ensures counted { self.new.waits ≡ min last_count (self.old.waits + 1) }
        ensures last { last_wait ≤ self.new.waits → result ≡ Stop }
        ensures same { (self.new.number ≡ self.old.number) × (self.new.up ≡ self.old.up) }
    {
        ready.clear();
        self.run.waits = self.run.waits.saturating_add(1);
        if self.run.waits >= LAST_WAIT {
            return Waited::Stop;
        }
        self.outside.wait(wants, timeout, ready, &mut self.run)
    }

    fn link_open(&mut self, _at: &LinkAt) -> Made
        requires { IsPlace (place_of _at.now) }
        ensures answers { Answers (tells_of self.old.number) (tells_of self.new.number) (LinkOpen (place_of _at.now) result) }
        ensures same { self.new ≡ self.old }
    {
        Made::Done
    }

    fn link_read(&mut self, into: &mut [u8]) -> Io
        requires { 0 < length into.old }
        ensures answers { Answers (tells_of self.old.number) (tells_of self.new.number) (LinkRead (length into.old) result (filled result into.new)) }
        ensures same { self.new ≡ self.old }
    {
        self.outside.link_read(into)
    }

    /// All of it is taken.
    fn link_write(&mut self, from: &[u8]) -> Io
        requires some { 0 < length from.now }
        requires fits { length from.now ≤ most_to_link }
        ensures answers { Answers (tells_of self.old.number) (tells_of self.new.number) (LinkWrite from.now result) }
        ensures all { result ≡ Done (length from.now) }
        ensures same { (self.new.number ≡ self.old.number) × (self.new.up ≡ self.old.up) × (self.new.waits ≡ self.old.waits) }
    {
        self.outside.carry(from, &mut self.run);
        Io::Done(from.len())
    }

    /// It is connected at once, and belongs to the flow whose frame was read last.
    fn connect(&mut self, c: u64, _to: Endpoint) -> Made
        ensures answers { Answers (tells_of self.old.number) (tells_of self.new.number) (Connect c _to result) }
        ensures same { self.new ≡ self.old }
    {
        self.outside.host.connect(c, self.outside.speaker);
        Made::Done
    }

    fn connected(&mut self, _c: u64) -> Joined
        ensures answers { Answers (tells_of self.old.number) (tells_of self.new.number) (Connected _c result) }
        ensures same { self.new ≡ self.old }
    {
        Joined::Yes
    }

    fn listen(&mut self, _l: u64, _at: Endpoint) -> Made
        ensures answers { Answers (tells_of self.old.number) (tells_of self.new.number) (Listen _l _at result) }
        ensures same { self.new ≡ self.old }
    {
        Made::Done
    }

    /// Nobody comes.
    fn accept(&mut self, _l: u64, _c: u64) -> Accepted
        ensures answers { Answers (tells_of self.old.number) (tells_of self.new.number) (Accept _l _c result) }
        ensures same { self.new ≡ self.old }
    {
        Accepted::NotYet
    }

    /// What was written comes back, and its end after the guest's.
    fn tcp_read(&mut self, c: u64, into: &mut [u8]) -> Io
        requires { 0 < length into.old }
        ensures answers { Answers (tells_of self.old.number) (tells_of self.new.number) (TcpRead c (length into.old) result (filled result into.new)) }
        ensures same { self.new ≡ self.old }
    {
        self.outside.host.read(c, into)
    }

    /// All of it is taken.
    fn tcp_write(&mut self, c: u64, from: &[u8]) -> Io
        requires some { 0 < length from.now }
        requires fits { length from.now ≤ most_to_flow }
        ensures answers { Answers (tells_of self.old.number) (tells_of self.new.number) (TcpWrite c from.now result) }
        ensures all { result ≡ Done (length from.now) }
        ensures up { self.new.up ≡ min last_count (self.old.up + length from.now) }
        ensures same { (self.new.number ≡ self.old.number) × (self.new.down ≡ self.old.down) × (self.new.waits ≡ self.old.waits) }
    {
        let wrong = self.outside.host.write(c, from, &self.outside.pattern);
        self.run.up = self.run.up.saturating_add(from.len() as u64);
        self.run.wrong = self.run.wrong.saturating_add(wrong);
        Io::Done(from.len())
    }

    fn tcp_end(&mut self, c: u64) -> Made
        ensures answers { Answers (tells_of self.old.number) (tells_of self.new.number) (TcpEnd c result) }
        ensures same { self.new ≡ self.old }
    {
        self.outside.host.end(c);
        Made::Done
    }

    fn close(&mut self, s: u64)
        ensures answers { Answers (tells_of self.old.number) (tells_of self.new.number) (Close s) }
        ensures same { self.new ≡ self.old }
    {
        self.outside.host.close(s);
    }

    fn udp_open(&mut self, _s: u64, _at: Endpoint) -> Made
        ensures answers { Answers (tells_of self.old.number) (tells_of self.new.number) (UdpOpen _s _at result) }
        ensures same { self.new ≡ self.old }
    {
        Made::Done
    }

    fn udp_send(&mut self, _s: u64, _to: Endpoint, _from: &[u8]) -> Sent
        requires { length _from.now ≤ most_to_udp }
        ensures answers { Answers (tells_of self.old.number) (tells_of self.new.number) (UdpSend _s _to _from.now result) }
        ensures same { self.new ≡ self.old }
    {
        Sent::Done
    }

    fn udp_recv(&mut self, _s: u64, _into: &mut [u8]) -> Got
        requires { 0 < length _into.old }
        ensures answers { Answers (tells_of self.old.number) (tells_of self.new.number) (UdpRecv _s (length _into.old) result (filled_got result _into.new)) }
        ensures same { self.new ≡ self.old }
    {
        Got::NotYet
    }

    fn file_len(&mut self, _name: &str) -> FileSize
        requires some { 0 < length _name.now }
        requires fits { length _name.now ≤ most_name }
        ensures answers { Answers (tells_of self.old.number) (tells_of self.new.number) (FileLen _name.now result) }
        ensures same { self.new ≡ self.old }
    {
        FileSize::Missing
    }

    fn file_read(&mut self, _name: &str, _at: u64, _into: &mut [u8]) -> Io
        requires some { 0 < length _name.now }
        requires fits { length _name.now ≤ most_name }
        requires room { 0 < length _into.old }
        ensures answers { Answers (tells_of self.old.number) (tells_of self.new.number)
            (FileRead _name.now _at (length _into.old) result (filled result _into.new)) }
        ensures same { self.new ≡ self.old }
    {
        Io::End
    }
}
