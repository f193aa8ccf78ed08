// The loop of turns.
//
// A run begins with the ports of the host that are given to guests and with the moment (`start`), then goes by turns until one ends it (`serve`). A turn tells
// the flows of TCP the time, closes what has been idle too long, sends what is owed, with the packets of files that are due to go again, and waits for what it
// wants; then it asks for the moment and serves what was reported (reports.rt). At the end every socket is closed, by rising number.
ghost use Rattle.std.specs.Prelude.{◌≡◌, ◌&&◌, List, true, false, IfSome, if◌then◌else◌};
ghost use Rattle.slirp_core.specs.Holds.{Standing};
ghost use Rattle.poll_list.specs.Listing.{reads, writes};
ghost use Rattle.serve_loop.specs.Ends.{turn_of};
ghost use Rattle.poll_list.specs.declared.Who.TheVariants.{Link as TheLink};
ghost use Rattle.slirp_core.specs.Pumps.{TcpOnce};
ghost use Rattle.world_face.specs.Limits.{most_ready, most_to_udp};

use crate::reports::still;
use arrayvec::ArrayVec;
use net_octets::NoMemory;
use poll_list::{ReadyList, Want, Way, Who, is_among};
use slirp_core::{LONGEST_ASSEMBLED, Slirp, TurnWants};
use slirp_settings::{Forward, SlirpConfig};
use std::alloc::Global;
use std::marker::Model;
use stream_netdev::{Link, Pumped};
use world_face::{MOST_READY, MOST_TO_UDP, Waited, World};

/// How a run ended.
#[derive(Clone, Copy, Debug, PartialEq, Eq)]
pub enum End {
    /// The link ended between two frames, or a wait was told to stop.
    Done,
    /// A frame of so many octets was announced, over 69,632.
    TooLong(u32),
    /// The link ended inside a length or frame, after so many octets of it, its length included.
    Cut(usize),
    /// A read or a write of the link failed.
    LinkFault,
    /// A wait failed.
    WaitFault,
    /// There were as many waits as the settings allow.
    TurnsSpent(u64),
    /// The host refused the forward with this number, counted from 0.
    ListenRefused(usize),
    /// The host refused the control connection's port.
    ControlRefused,
}

/// What came of a turn.
#[derive(Clone, Copy, Debug, PartialEq, Eq)]
pub enum Turn {
    /// The run goes on with the next turn.
    Again,
    /// It ended, so.
    Ended(End),
}

/// What came of a wait.
#[derive(Clone, Copy)]
pub enum Slept {
    /// Something is ready, or the time is over: a turn follows.
    Ready,
    /// The World said that the run is to stop.
    Stopped,
    /// It failed.
    Failed,
}

/// A network that serves one link.
#[derive(Drop)]
pub struct Service {
    pub(crate) slirp: Slirp,
    pub(crate) link: Link,
    pub(crate) wants: TurnWants,
    ready: ReadyList,
    pub(crate) payload: Vec<u8>,
    pub(crate) joined: Vec<u8>,
    turns: u64,
    // the ports of the host that are to be opened
    forwards: ArrayVec<Forward, 32>,
}

impl Model for Service {
    ghost use Rattle.std.specs.Prelude.{◌≡◌, length};
    ghost use Rattle.serve_loop.specs.Served.{ServiceState};
    ghost use Rattle.slirp_core.specs.Pumps.{TcpOnce};
    ghost use Rattle.world_face.specs.Limits.{most_ready, most_to_udp};

    ghost Value = { ServiceState };

    ghost view = { λ s. record { slirp = s.slirp; link = s.link; wants = s.wants.items; ready = s.ready.items } };

    // no flow's socket is waited for twice
    ghost invariant = { λ s. (s.turns ≡ s.slirp.config.turns) × (s.wants.capacity ≡ most_ready) × (s.ready.capacity ≡ most_ready)
        × (length s.payload.items ≡ most_to_udp) × (length s.joined.items ≡ 65575) × TcpOnce s.wants.items × (s.forwards.items ≡ s.slirp.config.forwards) };
}

impl Service {
    ghost use Rattle.std.specs.Prelude.{ℕ, ◌+◌, ◌<◌, ◌≤◌, ◌^◌, ◌∷◌, Bool, drop, length, map, reverse, if◌then◌else◌, IfOk};
    ghost use Rattle.world_face.specs.Journal.{Close, Entry};
    ghost use Rattle.world_face.specs.Tells.{Makes, Brings, Rose};
    ghost use Rattle.slirp_settings.specs.Addresses.{Config};
    ghost use Rattle.slirp_settings.specs.Ranges.{IsSound};
    ghost use Rattle.slirp_settings.specs.Settings.{settings};
    ghost use Rattle.spec_run.specs.Laws.{Finished, Lawful};
    ghost use Rattle.spec_trace.specs.Shape.{phase};
    ghost use Rattle.spec_run.specs.Served.{Served};
    ghost use Rattle.stream_netdev.specs.Keeps.{ReadsOn};
    ghost use Rattle.stream_netdev.specs.State.{under_way};
    ghost use Rattle.serve_loop.specs.Ends.{end_of, IsCounted};
    ghost use Rattle.slirp_core.specs.Counts.{AreGrown};
    ghost use Rattle.slirp_core.specs.Forwards.{AreCloses};
    ghost use Rattle.rules_forward.specs.Opened.{forward_sockets};
    ghost use Rattle.slirp_core.specs.Holds.{AfterListening, ClosesAll, HoldsNothingElse, Opens, after, as_given, holders_of};
    ghost use Rattle.serve_loop.specs.Turns.{AfterTurn, AllSent, AreYoung, AttendsAfterSleep, AttendsAfterTaking, AttendsAfterTurn, AttendsAfterWholeTurn, AttendsNow};
    ghost use Rattle.serve_loop.specs.Turns.{HoldsNow, IsCalm, IsCalmAfter, IsInTime, IsStep, MayRest, NoneGoesAgain, NoneTold, ServedAfter, ServesNow, all_passed_over, is_frame_due};
    ghost use Rattle.spec_duties.specs.Duties.{Attended, Dutiful};
    ghost use Rattle.slirp_core.specs.Marks.{KeepsMarks};
    ghost use Rattle.slirp_core.specs.Pumps.{is_settled};
    ghost use Rattle.serve_loop.specs.Served.{IsNew, Stays};

    /// A network with these settings that has served nothing. It takes all the memory that it will ever need.
    pub fn open(alloc: Global, c: &SlirpConfig) -> Result<Service, NoMemory>
        requires sound { IsSound (settings c.now) }
        ensures new { IfOk result (λ service. IsNew service) }
        ensures config { IfOk result (λ service. service.slirp.config ≡ settings c.now) }
    {
        let link = Link::open(alloc)?;
        let (Ok(wants), Ok(ready), Ok(payload), Ok(joined)) = (
            TurnWants::open(alloc, MOST_READY),
            ReadyList::open(alloc, MOST_READY),
            vec![in alloc; 0; MOST_TO_UDP],
            vec![in alloc; 0; LONGEST_ASSEMBLED],
        ) else {
            return Err(NoMemory);
        };
        let slirp = Slirp::new(alloc, c)?;
        let mut forwards = ArrayVec::new();
        let _ = forwards.try_extend_from_slice(c.forwards.as_slice());
        Ok(Service {
            slirp,
            link,
            wants,
            ready,
            payload,
            joined,
            turns: c.turns,
            forwards,
        })
    }

    /// Opens the ports of the host that are given to guests, and runs until the link ends, a wait is told to stop, or the turns are spent; then all sockets are
    /// closed. Where the host refuses a port the run ends before its first turn.
    pub fn serve<W: World>(&mut self, world: &mut W) -> End
        requires { IsNew self.old }
        // The calls that it makes are lawful, each wait attends to all that can be taken, nothing more is to be done, and the end is the one that the calls tell.
        ensures makes { let config = self.old.slirp.config in
            Makes (W.tells world.old) (W.tells world.new) (λ made. Lawful config made × Dutiful config made × Finished config made × (result ≡ end_of config (phase config made))) }
        // Where it ended by a fault the count of the link's, of the waits' or of the sockets' rose.
        ensures faults { IsCounted (Turn.Ended result) (W.tells world.old).faults (W.tells world.new).faults }
        // What a World that was live tells of them.
        ensures served { Served self.old.slirp.config (W.tells world.old) (W.tells world.new) }
        ensures attended { Attended self.old.slirp.config (W.tells world.old) (W.tells world.new) }
    {
        if let Turn::Ended(end) = self.start(world) {
            return end;
        }
        let turns = self.turns;
        for _count in 0..turns {
            match self.turn(world) {
                Turn::Again => {}
                Turn::Ended(end) => return end,
            }
        }
        self.slirp.close_all(world);
        End::TurnsSpent(self.turns)
    }

    /// Begins a run of a network that has served nothing: the ports of the host that are given to guests are opened, in the order of the settings, and the
    /// moment is asked for. Where the host refuses a port the run ends, and those that were opened are closed.
    pub fn start<W: World>(&mut self, world: &mut W) -> Turn
        requires { IsNew self.old }
        ensures makes { (config : Config) → self.old.slirp.config ≡ as_given config → Makes (W.tells world.old) (W.tells world.new)
            (AttendsAfterWholeTurn result config (after 0) self.new.slirp self.new.link) }
        ensures step { IsStep result (W.tells world.old).faults (W.tells world.new).faults self.new.link }
        ensures calm { result ≡ Turn.Again → IsCalm self.new.slirp self.new.link }
        ensures config { self.new.slirp.config ≡ self.old.slirp.config }
        ensures number { self.new.slirp.number ≤ 32 }
        ensures turns { self.new.slirp.flows.turn ≡ 0 }
    {
        if let Some(place) = self.listen(world) {
            self.close_all(world);
            return Turn::Ended(End::ListenRefused(place));
        }
        self.begin(world);
        Turn::Again
    }

    /// The first step of `start`: opens the ports of the host that are given to guests, and answers the place of the first that is refused, counted from 0.
    pub fn listen<W: World>(&mut self, world: &mut W) -> Option<usize>
        requires { IsNew self.old }
        ensures makes { (config : Config) → self.old.slirp.config ≡ as_given config
            → Makes (W.tells world.old) (W.tells world.new) (AfterListening result config self.new.slirp self.new.link) }
        ensures counted { IfSome result (λ k. Rose (W.tells world.old).faults.socket (W.tells world.new).faults.socket) }
        ensures number { self.new.slirp.number ≤ 32 }
        ensures slirp { self.new.slirp ≡ record self.old.slirp { number = self.new.slirp.number; forwards = self.new.slirp.forwards } }
        ensures link { self.new.link ≡ self.old.link }
    {
        self.slirp.listen_all(world, self.forwards.as_slice())
    }

    /// The second step of `start`, where none is refused: asks for the moment.
    pub fn begin<W: World>(&mut self, world: &mut W)
        ensures makes { (config : Config) → Brings (W.tells world.old) (W.tells world.new)
            (Opens config (length config.forwards) self.old.slirp self.old.link) (AttendsNow config (after 0) false self.new.slirp self.new.link) }
        ensures counts { AreGrown (W.tells world.old).faults (W.tells world.new).faults }
        ensures slirp { self.new.slirp ≡ record self.old.slirp { moment = self.new.slirp.moment } }
        ensures link { self.new.link ≡ self.old.link }
    {
        let told = world.now();
        self.slirp.tell_moment(told);
    }

    /// Lets go of it, with all its memory. Whoever has one calls this: what a function lets go of is proved in it, and a service is large.
    pub fn let_go(self) {
        self.slirp.let_go();
    }

    /// Closes all sockets of the network, by rising number, and does nothing else.
    pub fn close_all<W: World>(&mut self, world: &mut W)
        ensures makes { Makes (W.tells world.old) (W.tells world.new)
            (λ made. ClosesAll self.old.slirp.forwards (holders_of self.old.slirp) made × AreCloses made) }
        // Where only ports of the host are open they are closed in the order of the list, whether the run has ended or not.
        ensures ports { HoldsNothingElse self.old.slirp → Makes (W.tells world.old) (W.tells world.new)
            (λ made. made ≡ map Close (reverse (forward_sockets self.old.slirp.forwards))) }
        ensures config { self.new.slirp.config ≡ self.old.slirp.config }
        ensures number { self.new.slirp.number ≡ self.old.slirp.number }
        ensures turns { self.new.slirp.flows.turn ≡ self.old.slirp.flows.turn }
        ensures link { self.new.link ≡ self.old.link }
    {
        self.slirp.close_all(world);
    }

    /// One turn, before which unless the link is blocked no flow owes a frame: the flows are told the time, sockets that were idle for long are closed and what
    /// is owed is sent, then it waits, then what the wait reported is served, with what is then owed. Where it ends the run all sockets are closed, by rising
    /// number. A turn opens a socket at most for each item that a wait reports, and needs numbers for them under 2^64. There are at most 2^45 turns.
    pub fn turn<W: World>(&mut self, world: &mut W) -> Turn
        requires on { ReadsOn (under_way self.old.link) }
        requires number { self.old.slirp.number + most_ready < 2 ^ 64 }
        requires turns { self.old.slirp.flows.turn < 2 ^ 45 }
        requires calm { IsCalm self.old.slirp self.old.link }
        ensures makes { (config : Config) (count : ℕ) → count < config.turns → Brings (W.tells world.old) (W.tells world.new)
            (AttendsNow config (after count) false self.old.slirp self.old.link)
            (AttendsAfterWholeTurn result config (after (count + 1)) self.new.slirp self.new.link) }
        // Where it ended by a fault the count of the link's, or of the waits', rose.
        ensures step { IsStep result (W.tells world.old).faults (W.tells world.new).faults self.new.link }
        ensures calm { result ≡ Turn.Again → IsCalm self.new.slirp self.new.link }
        ensures config { self.new.slirp.config ≡ self.old.slirp.config }
        ensures forwards { result ≡ Turn.Again → self.new.slirp.forwards ≡ self.old.slirp.forwards }
        ensures number { self.new.slirp.number ≤ self.old.slirp.number + most_ready }
        ensures turns { self.new.slirp.flows.turn ≤ self.old.slirp.flows.turn + 1 }
    {
        match self.take_turn(world) {
            Turn::Again => Turn::Again,
            Turn::Ended(end) => {
                self.slirp.close_all(world);
                Turn::Ended(end)
            }
        }
    }

    // Makes one turn, and leaves the sockets open where it ended the run.
    fn take_turn<W: World>(&mut self, world: &mut W) -> Turn
        requires on { ReadsOn (under_way self.old.link) }
        requires number { self.old.slirp.number + most_ready < 2 ^ 64 }
        requires turns { self.old.slirp.flows.turn < 2 ^ 45 }
        requires calm { IsCalm self.old.slirp self.old.link }
        ensures makes { (config : Config) (count : ℕ) → count < config.turns → Brings (W.tells world.old) (W.tells world.new)
            (AttendsNow config (after count) false self.old.slirp self.old.link) (AttendsAfterTaking result config count self.new.slirp self.new.link) }
        ensures step { IsStep result (W.tells world.old).faults (W.tells world.new).faults self.new.link }
        ensures calm { result ≡ Turn.Again → IsCalm self.new.slirp self.new.link }
        ensures config { self.new.slirp.config ≡ self.old.slirp.config }
        ensures forwards { self.new.slirp.forwards ≡ self.old.slirp.forwards }
        ensures number { self.new.slirp.number ≤ self.old.slirp.number + most_ready }
        ensures turns { self.new.slirp.flows.turn ≤ self.old.slirp.flows.turn + 1 }
    {
        self.slirp.tick(world);
        match self.send_all(world) {
            Turn::Again => self.wake(world),
            Turn::Ended(end) => Turn::Ended(end),
        }
    }

    // Sends what is owed. The packets of files that are due to go again are among it, one after another: each is owed where nothing else is left to be sent,
    // and a pump follows it. Each time one is due fewer.
    fn send_all<W: World>(&mut self, world: &mut W) -> Turn
        requires { ReadsOn (under_way self.old.link) }
        ensures makes { (config : Config) (at : Standing) → Brings (W.tells world.old) (W.tells world.new)
            (HoldsNow config at true self.old.slirp self.old.link) (AfterTurn result config at true self.new.slirp self.new.link) }
        // Where the turn goes on all that is owed is out, unless the link is blocked, and where nothing is left to be sent no packet is due.
        ensures sent { result ≡ Turn.Again → AllSent self.new.slirp self.new.link }
        ensures calm { result ≡ Turn.Again → IsCalm self.new.slirp self.new.link }
        ensures young { AreYoung self.old.slirp → AreYoung self.new.slirp }
        ensures connects { (config : Config) (at : Standing) (past : List Entry) → HoldsNow config at true self.old.slirp self.old.link past
            → result ≡ Turn.Again → IsInTime self.old.slirp self.old.link → IsInTime self.new.slirp self.new.link }
        ensures none { result ≡ Turn.Again → NoneGoesAgain self.new.slirp }
        ensures untold { NoneTold self.old.slirp → NoneTold self.new.slirp }
        ensures step { IsStep result (W.tells world.old).faults (W.tells world.new).faults self.new.link }
        ensures config { self.new.slirp.config ≡ self.old.slirp.config }
        ensures forwards { self.new.slirp.forwards ≡ self.old.slirp.forwards }
        ensures number { self.new.slirp.number ≡ self.old.slirp.number }
        ensures turns { self.new.slirp.flows.turn ≡ self.old.slirp.flows.turn }
    {
        self.slirp.send_again();
        if let Turn::Ended(end) = self.pump(world) {
            return Turn::Ended(end);
        }
        while self.slirp.send_again() {
            match self.pump(world) {
                Turn::Again => {}
                Turn::Ended(end) => return Turn::Ended(end),
            }
        }
        Turn::Again
    }

    // A wait and what follows it.
    fn wake<W: World>(&mut self, world: &mut W) -> Turn
        requires on { ReadsOn (under_way self.old.link) }
        requires number { self.old.slirp.number + most_ready < 2 ^ 64 }
        requires none { NoneGoesAgain self.old.slirp }
        requires sent { AllSent self.old.slirp self.old.link }
        requires young { AreYoung self.old.slirp }
        requires untold { NoneTold self.old.slirp }
        requires calm { IsCalm self.old.slirp self.old.link }
        ensures makes { (config : Config) (count : ℕ) → count < config.turns → Brings (W.tells world.old) (W.tells world.new)
            (MayRest config (after count) self.old.slirp self.old.link)
            (AttendsAfterTurn result config (after (count + 1)) false self.new.slirp self.new.link) }
        ensures step { IsStep result (W.tells world.old).faults (W.tells world.new).faults self.new.link }
        ensures calm { result ≡ Turn.Again → IsCalm self.new.slirp self.new.link }
        ensures config { self.new.slirp.config ≡ self.old.slirp.config }
        ensures forwards { self.new.slirp.forwards ≡ self.old.slirp.forwards }
        ensures number { self.new.slirp.number ≤ self.old.slirp.number + most_ready }
        ensures turns { self.new.slirp.flows.turn ≡ self.old.slirp.flows.turn }
    {
        match self.sleep(world) {
            Slept::Ready => self.work(world),
            Slept::Stopped => Turn::Ended(End::Done),
            Slept::Failed => Turn::Ended(End::WaitFault),
        }
    }

    // Waits, and asks for the moment where it was woken.
    fn sleep<W: World>(&mut self, world: &mut W) -> Slept
        requires none { NoneGoesAgain self.old.slirp }
        requires sent { AllSent self.old.slirp self.old.link }
        requires young { AreYoung self.old.slirp }
        requires untold { NoneTold self.old.slirp }
        requires calm { IsCalm self.old.slirp self.old.link }
        ensures makes { (config : Config) (count : ℕ) → count < config.turns → Brings (W.tells world.old) (W.tells world.new)
            (MayRest config (after count) self.old.slirp self.old.link)
            (AttendsAfterSleep result config (count + 1) self.new.wants self.new.ready self.new.slirp self.new.link) }
        ensures counts { AreGrown (W.tells world.old).faults (W.tells world.new).faults }
        ensures failed { result ≡ Slept.Failed → Rose (W.tells world.old).faults.wait (W.tells world.new).faults.wait }
        ensures on { under_way self.new.link ≡ under_way self.old.link }
        // Where it was woken no flow owes a frame then either, unless the link is blocked or the report frees it; and what is reported is no more than the list has room for.
        ensures calm { result ≡ Slept.Ready → IsCalmAfter self.new.wants self.new.ready self.new.slirp self.new.link }
        ensures few { result ≡ Slept.Ready → length self.new.ready ≤ most_ready }
        ensures config { self.new.slirp.config ≡ self.old.slirp.config }
        ensures forwards { self.new.slirp.forwards ≡ self.old.slirp.forwards }
        ensures number { self.new.slirp.number ≡ self.old.slirp.number }
        ensures turns { self.new.slirp.flows.turn ≡ self.old.slirp.flows.turn }
    {
        let timeout = self.slirp.pollfds_fill(&self.link, &mut self.wants);
        match world.wait(self.wants.list(), timeout, &mut self.ready) {
            Waited::Ready => {
                let told = world.now();
                self.slirp.tell_moment(told);
                report(&mut self.link, self.ready.items());
                Slept::Ready
            }
            Waited::Stop => Slept::Stopped,
            Waited::Failed => Slept::Failed,
        }
    }

    // What follows a wait that was woken: each item that it reported is served, in their order.
    fn work<W: World>(&mut self, world: &mut W) -> Turn
        requires on { ReadsOn (under_way self.old.link) }
        requires number { self.old.slirp.number + most_ready < 2 ^ 64 }
        requires few { length self.old.ready ≤ most_ready }
        requires calm { IsCalmAfter self.old.wants self.old.ready self.old.slirp self.old.link }
        ensures makes { (config : Config) (count : ℕ) → Brings (W.tells world.old) (W.tells world.new)
            (ServesNow config count self.old.wants self.old.ready (is_frame_due self.old.wants self.old.ready) self.old.slirp self.old.link)
            (λ past. AfterTurn result config (after count) false self.new.slirp self.new.link past × ServedAfter result config past) }
        ensures step { IsStep result (W.tells world.old).faults (W.tells world.new).faults self.new.link }
        ensures calm { result ≡ Turn.Again → IsCalm self.new.slirp self.new.link }
        ensures config { self.new.slirp.config ≡ self.old.slirp.config }
        ensures forwards { self.new.slirp.forwards ≡ self.old.slirp.forwards }
        ensures number { self.new.slirp.number ≤ self.old.slirp.number + most_ready }
        ensures turns { self.new.slirp.flows.turn ≡ self.old.slirp.flows.turn }
        ensures passed { all_passed_over self.old.wants self.old.ready ≡ true → (result ≡ Turn.Again) × (self.new ≡ self.old) × (world.new ≡ world.old) }
    {
        let mut to_read = self.may_read();
        let count = self.ready.items().len();
        for place in 0..count {
            let item = self.item(place);
            match self.attend(world, &item, to_read) {
                Turn::Again => to_read = still(to_read, &item),
                Turn::Ended(end) => return Turn::Ended(end),
            }
        }
        Turn::Again
    }

    // Whether a frame is to be read: the link was waited for, and reported.
    fn may_read(&self) -> bool
        ensures { result ≡ (reads TheLink self.now.wants && reads TheLink self.now.ready) }
    {
        reads_link(self.wants.items()) && reads_link(self.ready.items())
    }

    // The item at a place of what the last wait reported.
    fn item(&self, place: usize) -> Want
        requires { place < length self.now.ready }
        ensures { drop place self.now.ready ≡ result ∷ drop (place + 1) self.now.ready }
    {
        self.ready.items()[place]
    }

    // Whether nothing is left to be sent.
    pub(crate) fn is_settled(&self) -> bool
        ensures { result ≡ is_settled self.now.slirp self.now.link }
    {
        self.slirp.is_settled(&self.link)
    }

    // Sends what is owed.
    pub(crate) fn pump<W: World>(&mut self, world: &mut W) -> Turn
        requires { ReadsOn (under_way self.old.link) }
        ensures makes { (config : Config) (at : Standing) (aged : Bool) → Brings (W.tells world.old) (W.tells world.new)
            (HoldsNow config at aged self.old.slirp self.old.link) (AfterTurn result config at aged self.new.slirp self.new.link) }
        // Where the turn goes on all that is owed is out, unless the link is blocked.
        ensures sent { result ≡ Turn.Again → AllSent self.new.slirp self.new.link }
        ensures calm { result ≡ Turn.Again → IsCalm self.new.slirp self.new.link }
        ensures young { AreYoung self.old.slirp → AreYoung self.new.slirp }
        ensures connects { (config : Config) (at : Standing) (aged : Bool) (past : List Entry) → HoldsNow config at aged self.old.slirp self.old.link past
            → result ≡ Turn.Again → IsInTime self.old.slirp self.old.link → IsInTime self.new.slirp self.new.link }
        ensures step { IsStep result (W.tells world.old).faults (W.tells world.new).faults self.new.link }
        ensures stays { Stays self.old self.new }
        ensures number { self.new.slirp.number ≡ self.old.slirp.number }
        ensures files { (self.new.slirp.moment ≡ self.old.slirp.moment) × (self.new.slirp.transfers ≡ self.old.slirp.transfers) }
        ensures marks { KeepsMarks self.old.slirp.number self.old.slirp.flows self.new.slirp.flows }
    {
        let pumped = self.slirp.pump(world, &mut self.link);
        turn_of(pumped)
    }
}

// Tells the link what a wait reported.
fn report(link: &mut Link, ready: &[Want])
    ensures free { link.new.blocked ≡ (if writes TheLink ready.now then false else link.old.blocked) }
    ensures same { (link.new.octets ≡ link.old.octets) × (link.new.whole ≡ link.old.whole) × (link.new.tail ≡ link.old.tail) }
{
    if writes_link(ready) {
        link.unblock();
    }
}

// Whether the link is among these for writing.
pub(crate) fn writes_link(items: &[Want]) -> bool
    ensures { result ≡ writes TheLink items.now }
{
    is_among(items, Who::Link, Way::Write)
}

// Whether the link is among these for reading.
fn reads_link(items: &[Want]) -> bool
    ensures { result ≡ reads TheLink items.now }
{
    is_among(items, Who::Link, Way::Read)
}

// What a pump comes to in a turn.
fn turn_of(pumped: Pumped) -> Turn
    ensures { result ≡ turn_of pumped }
{
    match pumped {
        Pumped::Clear | Pumped::Blocked => Turn::Again,
        Pumped::Failed => Turn::Ended(End::LinkFault),
    }
}
