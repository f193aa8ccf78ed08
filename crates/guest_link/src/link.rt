// The stream to the guest.
ghost use Rattle.std.specs.Prelude.{◌≡◌, ◌≢◌, ◌↔◌, ◌⊎◌, ℕ, ◌+◌, ◌<◌, ◌≤◌, ◌==◌, ◌/◌, ◌++◌};
ghost use Rattle.std.specs.Prelude.{cond, not, [], true, false, length, take, drop, min, IfOk, OnErr};
ghost use Rattle.host_io.specs.Buffered.{nothing_in};
ghost use Rattle.std.specs.Io.KnownBytes.{Keeps};
ghost use Rattle.host_io.specs.Streams.{Calls};
ghost use Rattle.world_face.specs.Journal.{MayRead, MayWrite, filled};
ghost use Rattle.world_face.specs.Limits.{most_to_link};
ghost use Rattle.guest_link.specs.Paces.{let_out, turned};
ghost use Rattle.guest_link.specs.Places.{IsNoted, listens, has_guest, of_guest};
ghost use Rattle.guest_link.specs.Linking.{bears, is_open, is_told_readable, is_told_writable, after_read, after_write, after_event, at_end};
ghost use Rattle.guest_link.specs.Linking.{read_answer, fault_by, ahead_by, read_by, outlet_by, moved, MayRest, IsWaitWatched};
ghost use Rattle.guest_link.specs.Keeping.{HandsOn, SendsOn, TellsBy, put_of};
ghost use Rattle.guest_link.specs.Passing.{Passes, passing, passing_untold};

use crate::place::{Peer, Place, Watched, bind, first_guest, register};
use crate::{Pace, socket_file};
use arrayvec::ArrayString;
use host_io::Buffer;
use mio::Registry;
use mio::event::Event;
use net_octets::NoMemory;
use std::alloc::Global;
use std::fs::Files;
use std::io::ErrorKind;
use std::marker::Model;
use std::mem;
use std::net::Net;
use world_face::{Io, LinkAt, MOST_TO_LINK};

/// How many octets are read ahead.
const AHEAD: usize = 131_072;

/// How many octets are gathered before they are written.
const ROOM: usize = 262_144;

/// The room that 16,384 octets take, the most that is read from a connection at once, in frames of 536 octets of them and 58 of headers and length. A guest may
/// ask for shorter ones (RFC 9293, 3.7.1): then some of them find no room, and are made once there is.
const FRAMED: usize = 18_432;

/// What becomes of what is written.
#[derive(Clone, Copy, PartialEq, Eq)]
pub enum Outlet {
    /// It goes out.
    Open,
    /// The peer is gone: it is lost, and a read finds the end.
    Gone,
    /// A write failed: no more is taken.
    Broken,
}

/// Why a call on the stream moved nothing.
#[derive(Clone, Copy, PartialEq, Eq)]
enum Fault {
    WouldWait,
    /// The peer closed the stream with octets unread, or before it read these.
    PeerGone,
    Other,
}

/// The link, over the stream of a guest. What came is kept in `inbox` until it is read, and what goes out in `outbox` until it is flushed. A contract sees all of
/// this.
#[derive(Drop)]
pub struct Link<S> {
    place: Place<S>,
    /// Where the file of a Unix listener stands; empty where there is none.
    path: ArrayString<107>,
    inbox: Buffer,
    outbox: Buffer,
    /// More may have come.
    readable: bool,
    /// The system may take octets.
    takes: bool,
    /// No more will come than what has.
    ended: bool,
    /// The system is to tell when it takes octets again.
    watched: bool,
    outlet: Outlet,
    /// Whether short frames wait.
    pace: Pace,
}

impl<S> Model for Link<S> {
    ghost use Rattle.guest_link.specs.Linking.{Linked};

    ghost Value = { Linked S };

    ghost view = { λ l. record {
      place = l.place;
      path = l.path;
      inbox = l.inbox;
      outbox = l.outbox;
      readable = l.readable;
      takes = l.takes;
      ended = l.ended;
      watched = l.watched;
      outlet = l.outlet;
      pace = l.pace;
    } };
}

impl Link<Peer> {
    /// Listens at a place, where it is closed. False where it isn't, or the system refuses.
    pub fn listen<R: Net + Files>(&mut self, rt: &R, registry: &Registry, at: &LinkAt) -> bool
        ensures { result ≡ true → (self.old.place ≡ Place.Closed) × (listens self.new.place ≡ true) }
    {
        if !matches!(self.place, Place::Closed) {
            return false;
        }
        let Some(listener) = bind(rt, at) else {
            return false;
        };
        self.move_to(listener);
        if let LinkAt::Unix(path) = at {
            self.path = *path;
        }
        self.stay_registered(rt, registry)
    }

    /// Takes the first peer, where one came. The listener is closed by that, and its file is removed.
    pub fn take_peer<R: Net + Files>(&mut self, rt: &R, registry: &Registry)
        ensures ahead { self.new.inbox ≡ self.old.inbox }
        ensures watched { IsWaitWatched self.old → IsWaitWatched self.new }
        ensures stays { listens self.old.place ≡ false → self.new ≡ self.old }
        ensures outlet { has_guest self.new.place ≡ true → self.new.outlet ≡ self.old.outlet }
        ensures passes { Passes [] [] (passing_untold self.old) (passing_untold self.new) }
    {
        let Some(peer) = first_guest(&self.place) else {
            return;
        };
        self.move_to(peer);
        self.readable = true;
        self.takes = true;
        self.remove_file(rt);
        self.stay_registered(rt, registry);
    }

    // Stands there from now on, and closes what it stood at.
    fn move_to(&mut self, place: Place<Peer>)
        ensures change { self.new ≡ record self.old { place = place } }
    {
        self.place = place;
    }

    // Has the system tell when something came, and closes where it can't.
    fn stay_registered<R: Net + Files>(&mut self, rt: &R, registry: &Registry) -> bool
        ensures ahead { self.new.inbox ≡ self.old.inbox }
        ensures takes { has_guest self.new.place ≡ true → self.new.takes ≡ self.old.takes }
        ensures outlet { has_guest self.new.place ≡ true → self.new.outlet ≡ self.old.outlet }
        ensures listens { result ≡ true → listens self.new.place ≡ listens self.old.place }
        ensures passes { Passes [] [] (passing_untold self.old) (passing_untold self.new) }
    {
        let registered = register(&mut self.place, registry);
        if !registered {
            self.shut(rt);
        }
        registered
    }

    /// Closes it. What was gathered goes out before, as much as is taken at once.
    pub fn shut<R: Net + Files>(&mut self, rt: &R)
        ensures ahead { self.new.inbox ≡ self.old.inbox }
        ensures closed { self.new.place ≡ Place.Closed }
        ensures passes { Passes [] [] (passing_untold self.old) (passing_untold self.new) }
    {
        drop(self.part());
        self.remove_file(rt);
    }

    // Removes the file of a listener that was closed.
    fn remove_file<R: Net + Files>(&mut self, rt: &R)
        ensures place { self.new.place ≡ self.old.place }
        ensures ahead { self.new.inbox ≡ self.old.inbox }
        ensures takes { self.new.takes ≡ self.old.takes }
        ensures waits { self.new.outbox ≡ self.old.outbox }
        ensures outlet { self.new.outlet ≡ self.old.outlet }
    {
        if !self.path.is_empty() {
            socket_file::remove(rt, self.path.as_str());
            self.path.clear();
        }
    }
}

impl<S> Link<S> {
    /// A closed link, with room for 131,072 octets that are read ahead and 262,144 that are gathered. No other call takes memory.
    ///
    /// # Errors
    /// `NoMemory` where no memory is left.
    pub fn open(alloc: Global) -> Result<Link<S>, NoMemory>
        ensures closed { IfOk result (λ link. link.place ≡ Place.Closed) }
        // Nothing is ahead, and nothing waits to go out.
        ensures empty { IfOk result (λ link. (link.inbox ≡ nothing_in 131072) × (link.outbox ≡ nothing_in 262144)) }
        ensures outlet { IfOk result (λ link. link.outlet ≡ Outlet.Open) }
    {
        let inbox = Buffer::open(alloc, AHEAD)?;
        let outbox = Buffer::open(alloc, ROOM)?;
        Ok(Link {
            place: Place::Closed,
            path: ArrayString::new(),
            inbox,
            outbox,
            readable: false,
            takes: false,
            ended: false,
            watched: false,
            outlet: Outlet::Open,
            pace: Pace::new(),
        })
    }
}

impl<S: Watched> Link<S> {
    /// Notes what the system told of it.
    pub fn note(&mut self, event: &Event)
        ensures change { self.new ≡ after_event event.now self.old }
    {
        let fails = event.is_error();
        self.ended |= fails | event.is_read_closed();
        self.readable |= self.ended | event.is_readable();
        self.takes |= fails | event.is_writable() | event.is_write_closed();
    }

    /// Whether a read may bring something. Once one answered NotYet it may not, until the system tells more.
    pub fn is_readable(&self) -> bool
        ensures { result ≡ is_told_readable self.now }
    {
        self.readable || !self.inbox.is_empty()
    }

    /// Whether octets were read ahead.
    pub fn is_ahead(&self) -> bool
        ensures { result ≡ not (length self.now.inbox.octets == 0) }
    {
        !self.inbox.is_empty()
    }

    /// Whether a write is answered by more than NotYet: a guest has come, or the link is closed, and the longest frame finds room, or is lost, or fails. A
    /// short frame may have to wait all the same; then this is false until it is let out.
    pub fn is_writable(&self) -> bool
        ensures { result ≡ is_told_writable self.now }
    {
        !self.place.listens()
            && (!self.is_open() || (self.outbox.room() >= MOST_TO_LINK && !self.pace.holds()))
    }

    // Whether what is written goes out.
    fn is_open(&self) -> bool
        ensures { result ≡ is_open self.now.outlet }
    {
        self.outlet == Outlet::Open
    }

    /// How many sockets may be read before what was gathered is written, so that the frames of what comes from a connection find room. A link whose peer is
    /// gone, or that is broken, holds none back: what comes then finds that.
    pub fn bears(&self) -> usize
        ensures { result ≡ bears self.now }
    {
        if self.is_open() {
            self.outbox.room() / FRAMED
        } else {
            usize::MAX
        }
    }

    /// A wait begins, in which the link is wanted for reading, or not.
    pub fn turn(&mut self, reads: bool)
        ensures change { self.new ≡ record self.old { pace = turned reads self.old.pace } }
    {
        self.pace.turn(reads);
    }

    /// Whether a short frame waits.
    pub fn holds(&self) -> bool
        ensures { result ≡ self.now.pace.holds }
    {
        self.pace.holds()
    }

    /// Until the next wait no short frame waits.
    pub fn let_out(&mut self)
        ensures change { self.new ≡ record self.old { pace = let_out } }
    {
        self.pace.let_out();
    }

    /// Reads octets that came, one at least. The end comes behind them where the peer closed the stream or reset it, or where a write found it gone. NotYet where
    /// none came, Failed where the link is closed or the stream failed otherwise.
    pub fn read(&mut self, into: &mut [u8]) -> Io
        requires { 0 < length into.old }
        ensures may { MayRead (length into.old) result }
        // Of the octets that pass the link: these are handed out, and none is put.
        ensures passes { Passes [] (filled result into.new) (passing S.remaining S.contents self.old) (passing S.remaining S.contents self.new) }
        // What was read ahead comes first, in its order.
        ensures ahead { 0 < length self.old.inbox.octets → result ≡ Io.Done (min (length into.old) (length self.old.inbox.octets)) }
        ensures order { 0 < length self.old.inbox.octets → (count : ℕ) → result ≡ Io.Done count → self.old.inbox.octets ≡ take count into.new ++ self.new.inbox.octets }
        // What is handed out, and behind it what is ahead, is what was ahead, and behind it what the stream gave: nothing is left out.
        ensures hands { HandsOn (of_guest S.remaining self.old.place) (of_guest S.remaining self.new.place) self.old.inbox.octets self.new.inbox.octets (filled result into.new) }
        // Where nothing is ahead one call on the stream says what is told: the end where it gives none, and only there.
        ensures tells { length self.old.inbox.octets ≡ 0 → TellsBy (of_guest S.answers self.old.place) (of_guest S.answers self.new.place)
            (of_guest S.remaining self.new.place) (read_by self.old.outlet (length into.old)) result }
        // Else none is made.
        ensures still { 0 < length self.old.inbox.octets → self.new.place ≡ self.old.place }
        // What goes out stays.
        ensures written { Keeps (of_guest S.contents self.old.place) (of_guest S.contents self.new.place) }
        ensures waits { self.new.outbox ≡ self.old.outbox }
        // It isn't told any longer where the call would have waited, or brought less than there was room for.
        ensures wakes { self.old.readable ≡ true → self.new.readable ≡ false →
            Calls (of_guest S.answers self.old.place) (of_guest S.answers self.new.place) (MayRest self.old.inbox.size) }
        ensures rests { result ≡ Io.NotYet → is_told_readable self.new ≡ false }
        // What the system told of writing stays, and an end that it told.
        ensures takes { self.new.takes ≡ self.old.takes }
        ensures ended { self.old.ended ≡ true → self.new.ended ≡ true }
        ensures outlet { self.new.outlet ≡ self.old.outlet }
    {
        if self.inbox.is_empty() {
            match self.read_ahead() {
                Io::Done(_) => {}
                Io::End => return Io::End,
                Io::NotYet => return Io::NotYet,
                Io::Failed => return Io::Failed,
            }
        }
        let count = self.inbox.take(into);
        self.pace.read_on(count);
        Io::Done(count)
    }

    // Reads as much as there is room for. Where less came there is no more for now.
    fn read_ahead(&mut self) -> Io
        requires { length self.old.inbox.octets ≡ 0 }
        ensures came { (count : ℕ) → result ≡ Io.Done count → (0 < count) × (length self.new.inbox.octets ≡ count) }
        ensures hands { HandsOn (of_guest S.remaining self.old.place) (of_guest S.remaining self.new.place) self.old.inbox.octets self.new.inbox.octets [] }
        ensures tells { TellsBy (of_guest S.answers self.old.place) (of_guest S.answers self.new.place) (of_guest S.remaining self.new.place) (ahead_by self.old.outlet) result }
        ensures written { Keeps (of_guest S.contents self.old.place) (of_guest S.contents self.new.place) }
        ensures waits { self.new.outbox ≡ self.old.outbox }
        ensures wakes { self.old.readable ≡ true → self.new.readable ≡ false →
            Calls (of_guest S.answers self.old.place) (of_guest S.answers self.new.place) (MayRest self.old.inbox.size) }
        ensures rests { result ≡ Io.NotYet → is_told_readable self.new ≡ false }
        ensures takes { self.new.takes ≡ self.old.takes }
        ensures ended { self.old.ended ≡ true → self.new.ended ≡ true }
        ensures outlet { self.new.outlet ≡ self.old.outlet }
    {
        self.inbox.settle();
        let room = self.inbox.room();
        match self.inbox.fill(&mut self.place) {
            Ok(0) => self.end(),
            Ok(count) => {
                self.readable = self.ended || count == room;
                Io::Done(count)
            }
            Err(fault) => self.read_none(fault_of(fault.kind())),
        }
    }

    // What a read answers that brought nothing.
    fn read_none(&mut self, fault: Fault) -> Io
        requires { length self.old.inbox.octets ≡ 0 }
        ensures answer { result ≡ read_answer self.old.outlet fault }
        ensures change { self.new ≡ after_read result self.old }
    {
        match fault {
            Fault::WouldWait if self.outlet != Outlet::Gone => {
                self.readable = false;
                Io::NotYet
            }
            Fault::WouldWait | Fault::PeerGone => self.end(),
            Fault::Other => Io::Failed,
        }
    }

    // The end, which stays.
    fn end(&mut self) -> Io
        ensures answer { result ≡ Io.End }
        ensures change { self.new ≡ at_end self.old }
    {
        self.ended = true;
        self.readable = true;
        Io::End
    }

    /// Gathers octets that go out, all of them or none. A short frame may wait. Where there is no room the link is flushed before, and none is taken where that
    /// makes no room. What is written once the peer was found gone is taken and lost. NotYet where none is taken, also as long as no guest came, Failed where the
    /// link is closed, or an earlier write failed.
    pub fn write(&mut self, registry: &Registry, from: &[u8]) -> Io
        requires { 0 < length from.now }
        ensures may { MayWrite (length from.now) result }
        ensures whole { (count : ℕ) → result ≡ Io.Done count → count ≡ length from.now }
        // Of the octets that pass the link: what is told as taken is put, where what is written goes out, and none is handed out.
        ensures passes { Passes (filled result from.now) [] (passing S.remaining S.contents self.old) (passing S.remaining S.contents self.new) }
        // It fails where the link is closed, or an earlier write failed.
        ensures failed { result ≡ Io.Failed ↔ (self.old.place ≡ Place.Closed) ⊎ ((has_guest self.old.place ≡ true) × (self.old.outlet ≡ Outlet.Broken)) }
        ensures guest { (count : ℕ) → result ≡ Io.Done count → has_guest self.old.place ≡ true }
        ensures lost { has_guest self.old.place ≡ true → self.old.outlet ≡ Outlet.Gone → result ≡ Io.Done (length from.now) }
        // Where a wait may tell it ready for writing a frame that is no short one is answered.
        ensures served { is_told_writable self.old ≡ true → length from.now ≤ most_to_link → result ≡ Io.NotYet → self.new.pace.holds ≡ true }
        // What the stream took, and behind it what waits, is what waited, and behind it what is told as taken, but for what is lost.
        ensures sends { SendsOn (of_guest S.contents self.old.place) (of_guest S.contents self.new.place) self.old.outbox.octets self.new.outbox.octets (put_of self.old.outlet result from.now) }
        // What is read stays.
        ensures unread { Keeps (of_guest S.remaining self.old.place) (of_guest S.remaining self.new.place) }
        ensures ahead { self.new.inbox ≡ self.old.inbox }
        ensures watched { IsWaitWatched self.old → IsWaitWatched self.new }
        // What the system told of reading stays.
        ensures told { self.old.readable ≡ true → self.new.readable ≡ true }
        ensures ended { self.new.ended ≡ self.old.ended }
        // What doesn't go out goes out no more.
        ensures shut { is_open self.new.outlet ≡ true → is_open self.old.outlet ≡ true }
    {
        match &self.place {
            Place::Guest(_) => {}
            Place::ListensUnix(_) | Place::ListensTcp(_) => return Io::NotYet,
            Place::Closed => return Io::Failed,
        }
        match self.outlet {
            Outlet::Open => self.gather(registry, from),
            Outlet::Gone => Io::Done(from.len()),
            Outlet::Broken => Io::Failed,
        }
    }

    // Gathers octets, all of them, where there is room or a flush makes some, and they needn't wait.
    fn gather(&mut self, registry: &Registry, from: &[u8]) -> Io
        requires { 0 < length from.now }
        ensures may { MayWrite (length from.now) result }
        ensures taken { result ≢ Io.Failed }
        ensures whole { (count : ℕ) → result ≡ Io.Done count → count ≡ length from.now }
        ensures served { length from.now ≤ self.old.outbox.room → result ≡ Io.NotYet → self.new.pace.holds ≡ true }
        ensures sends { SendsOn (of_guest S.contents self.old.place) (of_guest S.contents self.new.place) self.old.outbox.octets self.new.outbox.octets (filled result from.now) }
        ensures unread { Keeps (of_guest S.remaining self.old.place) (of_guest S.remaining self.new.place) }
        ensures ahead { self.new.inbox ≡ self.old.inbox }
        ensures watched { IsWaitWatched self.old → IsWaitWatched self.new }
        ensures told { self.old.readable ≡ true → self.new.readable ≡ true }
        ensures ended { self.new.ended ≡ self.old.ended }
        ensures shut { is_open self.new.outlet ≡ true → is_open self.old.outlet ≡ true }
    {
        let ahead = self.is_ahead();
        if self.pace.keeps(from.len(), ahead) {
            return Io::NotYet;
        }
        if self.outbox.room() < from.len() {
            self.flush(registry);
        }
        if self.outbox.put(from) {
            Io::Done(from.len())
        } else {
            Io::NotYet
        }
    }

    /// Writes what was gathered by one call, where the system may take it. Where it doesn't take all of it, it is to tell when it takes more.
    pub fn flush(&mut self, registry: &Registry)
        // Of the octets that pass the link none is put or handed out.
        ensures passes { Passes [] [] (passing S.remaining S.contents self.old) (passing S.remaining S.contents self.new) }
        // The call is made, and its answer says how much has gone out.
        ensures tries { self.old.takes ≡ true → 0 < length self.old.outbox.octets → is_open self.old.outlet ≡ true →
            Calls (of_guest S.answers self.old.place) (of_guest S.answers self.new.place) (λ answer. self.new.outbox.octets ≡ drop (moved answer) self.old.outbox.octets) }
        ensures sends { SendsOn (of_guest S.contents self.old.place) (of_guest S.contents self.new.place) self.old.outbox.octets self.new.outbox.octets [] }
        ensures unread { Keeps (of_guest S.remaining self.old.place) (of_guest S.remaining self.new.place) }
        ensures ahead { self.new.inbox ≡ self.old.inbox }
        ensures watched { IsWaitWatched self.old → IsWaitWatched self.new }
        ensures told { self.old.readable ≡ true → self.new.readable ≡ true }
        ensures ended { self.new.ended ≡ self.old.ended }
        ensures shut { is_open self.new.outlet ≡ true → is_open self.old.outlet ≡ true }
    {
        if self.takes && !self.outbox.is_empty() && self.is_open() {
            self.write_out();
            self.watch(registry);
        }
    }

    // Writes what was gathered by one call, as much as is taken.
    fn write_out(&mut self)
        ensures sends { SendsOn (of_guest S.contents self.old.place) (of_guest S.contents self.new.place) self.old.outbox.octets self.new.outbox.octets [] }
        // The call is made, and its answer says how much has gone out, and what becomes of the rest.
        ensures tries { 0 < length self.old.outbox.octets → is_open self.old.outlet ≡ true →
            Calls (of_guest S.answers self.old.place) (of_guest S.answers self.new.place) (λ answer.
            (self.new.outbox.octets ≡ drop (moved answer) self.old.outbox.octets) × (self.new.outlet ≡ outlet_by self.old.outlet answer)) }
        ensures unread { Keeps (of_guest S.remaining self.old.place) (of_guest S.remaining self.new.place) }
        ensures ahead { self.new.inbox ≡ self.old.inbox }
        ensures told { self.old.readable ≡ true → self.new.readable ≡ true }
        ensures ended { self.new.ended ≡ self.old.ended }
        ensures takes { 0 < length self.old.outbox.octets → is_open self.old.outlet ≡ true → self.new.takes ≡ (length self.new.outbox.octets == 0) }
        ensures shut { is_open self.new.outlet ≡ true → is_open self.old.outlet ≡ true }
    {
        if self.outbox.is_empty() || !self.is_open() {
            return;
        }
        let written = self.outbox.drain(&mut self.place);
        self.outbox.settle();
        self.takes = self.outbox.is_empty();
        match written {
            Ok(0) => self.outlet = Outlet::Broken,
            Ok(_) => {}
            Err(fault) => self.write_none(fault_of(fault.kind())),
        }
    }

    // Gives up its place, once what was gathered went out, as much as is taken at once. The rest is lost.
    fn part(&mut self) -> Place<S>
        ensures sends { SendsOn (of_guest S.contents self.old.place) (of_guest S.contents result) self.old.outbox.octets self.new.outbox.octets [] }
        ensures tries { 0 < length self.old.outbox.octets → is_open self.old.outlet ≡ true →
            Calls (of_guest S.answers self.old.place) (of_guest S.answers result) (λ answer. self.new.outbox.octets ≡ drop (moved answer) self.old.outbox.octets) }
        ensures ahead { self.new.inbox ≡ self.old.inbox }
        ensures closed { self.new.place ≡ Place.Closed }
        ensures shut { is_open self.new.outlet ≡ true → is_open self.old.outlet ≡ true }
    {
        self.write_out();
        mem::replace(&mut self.place, Place::Closed)
    }

    // What becomes of the link where a write took nothing. Where the peer is gone a read is to find the end.
    fn write_none(&mut self, fault: Fault)
        ensures change { self.new ≡ after_write fault self.old }
        ensures place { self.new.place ≡ self.old.place }
        ensures ahead { self.new.inbox ≡ self.old.inbox }
        ensures waits { self.new.outbox ≡ self.old.outbox }
    {
        match fault {
            Fault::WouldWait => {}
            Fault::PeerGone => {
                self.outlet = Outlet::Gone;
                self.readable = true;
            }
            Fault::Other => self.outlet = Outlet::Broken,
        }
    }

    // Has the system tell when it takes octets again, exactly while some are left.
    fn watch(&mut self, registry: &Registry)
        ensures remaining { of_guest S.remaining self.new.place ≡ of_guest S.remaining self.old.place }
        ensures contents { of_guest S.contents self.new.place ≡ of_guest S.contents self.old.place }
        ensures answers { of_guest S.answers self.new.place ≡ of_guest S.answers self.old.place }
        ensures ahead { self.new.inbox ≡ self.old.inbox }
        ensures waits { self.new.outbox ≡ self.old.outbox }
        ensures guest { has_guest self.new.place ≡ has_guest self.old.place }
        ensures takes { self.new.takes ≡ self.old.takes }
        ensures told { self.new.readable ≡ self.old.readable }
        ensures ended { self.new.ended ≡ self.old.ended }
        ensures watched { has_guest self.old.place ≡ true → is_open self.new.outlet ≡ true → self.new.watched ≡ not (length self.new.outbox.octets == 0) }
        ensures shut { is_open self.new.outlet ≡ true → is_open self.old.outlet ≡ true }
        // What was noted is what the system is to tell.
        ensures noted { is_open self.new.outlet ≡ true → IsNoted (of_guest S.asked self.old.place) self.old.watched → IsNoted (of_guest S.asked self.new.place) self.new.watched }
    {
        let wanted = !self.outbox.is_empty() && self.is_open();
        if wanted == self.watched || !self.place.has_guest() {
            return;
        }
        let done = self.place.watch(registry, wanted);
        self.watched = wanted;
        if !done {
            self.outlet = Outlet::Broken;
        }
    }
}

// Why a call that failed so moved nothing: a reset and a broken pipe say that the peer is gone.
fn fault_of(kind: ErrorKind) -> Fault
    ensures wait { kind ≡ ErrorKind.WouldBlock → result ≡ Fault.WouldWait }
    ensures reset { kind ≡ ErrorKind.ConnectionReset → result ≡ Fault.PeerGone }
    ensures pipe { kind ≡ ErrorKind.BrokenPipe → result ≡ Fault.PeerGone }
    ensures by { result ≡ fault_by kind }
{
    match kind {
        ErrorKind::WouldBlock => Fault::WouldWait,
        ErrorKind::ConnectionReset | ErrorKind::BrokenPipe => Fault::PeerGone,
        _ => Fault::Other,
    }
}
