// The sockets of a World, the clock, and what the system tells of them.
ghost use Rattle.std.specs.Prelude.{◌≡◌, ◌≤◌, ◌<◌, ◌++◌, ℕ, true, false, [], Some, length, take, min, is_some, IfOk};
ghost use Rattle.std.specs.Bool.{OnFalse, OnTrue};
ghost use Rattle.std.specs.Option.{option_map};
ghost use Rattle.std.specs.Duration.{as_nanos};
ghost use Rattle.std.specs.List.{Contains};
ghost use Rattle.poll_list.specs.Listing.{AreWants};
ghost use Rattle.poll_list.specs.declared.Want.{Want};
ghost use Rattle.poll_list.specs.Picks.{BeginsWithLink, IsPickedFrom};
ghost use Rattle.world_face.specs.Journal.{MayRead, MayWrite, MayWait, filled};
ghost use Rattle.world_face.specs.Limits.{most_ready, most_wants, most_to_link};
ghost use Rattle.guest_link.specs.Linking.{is_told_readable, is_told_writable, bears};
ghost use Rattle.guest_link.specs.Places.{listens};
ghost use Rattle.guest_link.specs.Passing.{Passes, passing_untold};
ghost use Rattle.host_io.specs.Moments.{Looks, after_look};
ghost use Rattle.net_world.specs.Tables.{IsTaken, Joins, Opens, Table, number_of, slot_at};
ghost use Rattle.net_world.specs.Lasting.{end_of, is_link_read, is_over, time_left};
ghost use Rattle.net_world.specs.declared.slot.Slot.{Slot};
ghost use Rattle.guest_link.specs.declared.place.Place.{Place};
ghost use Rattle.net_world.specs.Telling.{AreInOrder, AreReady, IsReadable, IsWritable, TellsOneRead, TellsRead, TellsWrite, link_known, read_sockets};

use crate::gathering::{gather, gather_link, is_link};
use crate::sockets::{Known, MOST, Sockets};
use guest_link::link::Link;
use guest_link::place::{LINK, Peer};
use host_io::{Moments, Ticks};
use mio::net::TcpStream;
use mio::{Events, Poll};
use net_octets::NoMemory;
use poll_list::{ReadyList, Want, Wants, Who};
use std::alloc::Global;
use std::fs::Files;
use std::net::Net;
use std::time::{Clock, Duration};
use world_face::{Accepted, Endpoint, Io, LinkAt, Waited};

/// How many waits in a row are answered from what is known, before the system is asked; one more where short frames wait then.
const MOST_KNOWN: u32 = 64;

/// How often the system is asked at most in one wait, where what it tells isn't wanted.
const MOST_ASKED: u32 = 1024;

/// The link, the sockets and the clock of a World, and the poll by which the system tells what is ready.
#[derive(Drop)]
pub(crate) struct Edge {
    pub link: Link<Peer>,
    pub sockets: Sockets<TcpStream>,
    // None where the system gave none.
    poll: Option<Poll>,
    events: Events,
    clock: Moments,
    /// How many waits in a row were answered from what was known.
    answered: u32,
}

impl Edge {
    /// An edge with a closed link and no socket, and all the memory that it will need. Err where there isn't so much.
    pub fn open<R: Net + Clock>(rt: &R, alloc: Global) -> Result<Edge, NoMemory>
        ensures closed { IfOk result (λ edge. edge.link.place ≡ Place.Closed) }
        ensures empty { IfOk result (λ edge. (edge.link.inbox.octets ≡ []) × (edge.link.outbox.octets ≡ []) × (edge.sockets.slots ≡ [])) }
        ensures begins { IfOk result (λ edge. edge.clock.moment ≡ 0) }
    {
        let Ok(events) = Events::with_capacity(alloc, MOST) else {
            return Err(NoMemory);
        };
        let sockets = Sockets::open(alloc)?;
        let link = Link::open(alloc)?;
        let mut clock = rt;
        Ok(Edge {
            link,
            sockets,
            poll: Poll::new(rt).ok(),
            events,
            clock: Moments::begin(&mut clock),
            answered: 0,
        })
    }

    /// The moment of the last wait that asked the system, in milliseconds since it was opened.
    pub fn moment(&self) -> u64
        ensures { result ≡ self.now.clock.moment }
    {
        self.clock.last()
    }

    /// Listens for the link at a place. False where that isn't done, or the system gave no poll.
    pub fn link_open<R: Net + Files>(&mut self, rt: &R, at: &LinkAt) -> bool
        ensures { result ≡ true → (self.old.link.place ≡ Place.Closed) × (listens self.new.link.place ≡ true) }
    {
        match &self.poll {
            Some(poll) => self.link.listen(rt, poll.registry(), at),
            None => false,
        }
    }

    /// Reads octets of the link, whose first peer is taken before where one came.
    pub fn link_read<R: Net + Files>(&mut self, rt: &R, into: &mut [u8]) -> Io
        requires { 0 < length into.old }
        ensures may { MayRead (length into.old) result }
        // What was read ahead comes first, in its order.
        ensures ahead { 0 < length self.old.link.inbox.octets → result ≡ Io.Done (min (length into.old) (length self.old.link.inbox.octets)) }
        ensures order { 0 < length self.old.link.inbox.octets → (count : ℕ) → result ≡ Io.Done count → self.old.link.inbox.octets ≡ take count into.new ++ self.new.link.inbox.octets }
        // Of the octets that pass the link these are handed out, and none is put.
        ensures passes { Passes [] (filled result into.new) (passing_untold self.old.link) (passing_untold self.new.link) }
    {
        if let Some(poll) = &self.poll {
            self.link.take_peer(rt, poll.registry());
        }
        self.link.read(into)
    }

    /// Gathers octets that go out by the link, all or none of them; its first peer is taken before where one came. Failed where the system gave no
    /// poll.
    pub fn link_write<R: Net + Files>(&mut self, rt: &R, from: &[u8]) -> Io
        requires { 0 < length from.now }
        ensures may { MayWrite (length from.now) result }
        ensures whole { (count : ℕ) → result ≡ Io.Done count → count ≡ length from.now }
        // What is told as taken is put, where what is written goes out; where it is told that none was, none is.
        ensures passes { Passes (filled result from.now) [] (passing_untold self.old.link) (passing_untold self.new.link) }
        // Where a wait may tell the link ready for writing, a frame that is no short one is answered.
        ensures served { is_told_writable self.old.link ≡ true → length from.now ≤ most_to_link → result ≡ Io.NotYet → self.new.link.pace.holds ≡ true }
    {
        let Some(poll) = &self.poll else {
            return Io::Failed;
        };
        self.link.take_peer(rt, poll.registry());
        self.link.write(poll.registry(), from)
    }

    /// Opens a socket: a connection to an endpoint, or a listener or a socket for datagrams that is bound there. False where that isn't done, or
    /// the system gave no poll.
    pub fn open_socket<R: Net>(&mut self, rt: &R, of: Who, at: Endpoint) -> bool
        ensures opened { result ≡ true → Opens self.old.sockets self.new.sockets of }
        ensures refused { result ≡ false → self.new.sockets ≡ self.old.sockets }
    {
        match &self.poll {
            Some(poll) => self.sockets.open_socket(rt, poll.registry(), of, at),
            None => false,
        }
    }

    /// Takes a connection from a listener, and puts it under `number`. Failed where that isn't done, or the system gave no poll.
    pub fn accept(&mut self, listener: u64, number: u64) -> Accepted
        // What came stands under its number, and of the listener it is known whether more may have come; nothing else changes.
        ensures { is_some self.old.poll ≡ true → (key : ℕ) (slot : Slot TcpStream) → slot_at self.old.sockets.slots key ≡ Some slot → number_of slot.of ≡ listener → (new : Slot TcpStream)
            × (between : Table TcpStream) × IsTaken self.old.sockets between key slot new × Joins result between self.new.sockets number }
    {
        match &self.poll {
            Some(poll) => self.sockets.accept(poll.registry(), listener, number),
            None => Accepted::Failed,
        }
    }

    /// Answers a wait: from what is known to be ready where that is some, else from what the system tells.
    pub fn wait<R: Net + Files + Clock>(
        &mut self,
        rt: &R,
        wants: &Wants,
        timeout: Option<u64>,
        ready: &mut ReadyList,
    ) -> Waited
        requires some { AreWants wants.now.items }
        requires few { length wants.now.items ≤ most_wants }
        requires room { most_ready ≤ ready.old.capacity }
        ensures answer { MayWait wants.now.items result ready.new.items }
        // The moment never falls.
        ensures moment { self.old.clock.moment ≤ self.new.clock.moment }
        ensures picked { IsPickedFrom wants.now.items ready.new.items }
        ensures capacity { ready.new.capacity ≡ ready.old.capacity }
        // Of the octets that pass the link none is put or handed out.
        ensures passes { Passes [] [] (passing_untold self.old.link) (passing_untold self.new.link) }
        // What is told is ready.
        ensures ready { AreReady (link_known self.new.link) self.new.sockets.slots ready.new.items }
    {
        self.link.turn(is_link_read(wants.items()));
        let is_answered = self.answer(rt, wants, timeout, ready);
        self.sockets.go_on(ready.items());
        if is_answered {
            Waited::Ready
        } else {
            Waited::Failed
        }
    }

    // What a wait is told, once it is settled whether short frames wait. False where the system can't be asked.
    fn answer<R: Net + Files + Clock>(
        &mut self,
        rt: &R,
        wants: &Wants,
        timeout: Option<u64>,
        ready: &mut ReadyList,
    ) -> bool
        requires { length wants.now.items ≤ ready.old.capacity }
        ensures picked { IsPickedFrom wants.now.items ready.new.items }
        ensures none { OnFalse result (ready.new.items ≡ []) }
        ensures moment { self.old.clock.moment ≤ self.new.clock.moment }
        ensures few { length ready.new.items ≤ length wants.now.items }
        ensures capacity { ready.new.capacity ≡ ready.old.capacity }
        ensures passes { Passes [] [] (passing_untold self.old.link) (passing_untold self.new.link) }
        ensures ready { AreReady (link_known self.new.link) self.new.sockets.slots ready.new.items }
    {
        if self.offer_first(wants, ready) {
            return true;
        }
        self.answered = 0;
        self.ask_until_ready(rt, wants, timeout, ready)
    }

    // What is told before the system is asked, and whether something is: what is known to be ready, a fixed number of times. Where nothing is, or it was told
    // that often, no short frame waits any longer: if one does, what is known is told once more, with the link for writing, so that the frame goes out by the
    // write that comes before the system is asked.
    fn offer_first(&mut self, wants: &Wants, ready: &mut ReadyList) -> bool
        requires room { length wants.now.items ≤ ready.old.capacity }
        ensures picked { IsPickedFrom wants.now.items ready.new.items }
        ensures few { length ready.new.items ≤ length wants.now.items }
        ensures out { OnFalse result (self.new.link.pace.holds ≡ false) }
        ensures moment { self.new.clock ≡ self.old.clock }
        ensures capacity { ready.new.capacity ≡ ready.old.capacity }
        ensures still { passing_untold self.new.link ≡ passing_untold self.old.link }
        ensures ready { AreReady (link_known self.new.link) self.new.sockets.slots ready.new.items }
    {
        self.offer_known(wants, ready);
        if !ready.items().is_empty() && self.answered < MOST_KNOWN {
            self.answered += 1;
            return true;
        }
        if !self.link.holds() {
            return false;
        }
        self.link.let_out();
        self.answered = self.answered.saturating_add(1);
        self.offer_known(wants, ready);
        !ready.items().is_empty()
    }

    // What is known to be ready. Where octets of the link were read ahead and it is wanted it is the link alone; where none were, a link that may
    // have some waits until the system is asked.
    fn offer_known(&self, wants: &Wants, ready: &mut ReadyList)
        requires { length wants.now.items ≤ ready.old.capacity }
        ensures picked { IsPickedFrom wants.now.items ready.new.items }
        ensures few { length ready.new.items ≤ length wants.now.items }
        ensures capacity { ready.new.capacity ≡ ready.old.capacity }
        // What is told is ready.
        ensures ready { AreReady (link_known self.now.link) self.now.sockets.slots ready.new.items }
    {
        if self.link.is_ahead() {
            gather_link(wants, self.link.is_writable(), ready);
            if !ready.items().is_empty() {
                return;
            }
        }
        let link = Known {
            read: false,
            write: self.link.is_writable(),
        };
        gather(wants, link, &self.sockets, self.link.bears(), ready);
    }

    // Asks the system until something that is wanted is ready, or the time is over. What was gathered is written before it is told what is ready,
    // since sockets wait for the room that this makes.
    fn ask_until_ready<R: Net + Files + Clock>(
        &mut self,
        rt: &R,
        wants: &Wants,
        timeout: Option<u64>,
        ready: &mut ReadyList,
    ) -> bool
        requires out { self.old.link.pace.holds ≡ false }
        requires room { length wants.now.items ≤ ready.old.capacity }
        ensures picked { IsPickedFrom wants.now.items ready.new.items }
        ensures none { OnFalse result (ready.new.items ≡ []) }
        ensures moment { self.old.clock.moment ≤ self.new.clock.moment }
        ensures few { length ready.new.items ≤ length wants.now.items }
        ensures capacity { ready.new.capacity ≡ ready.old.capacity }
        ensures passes { Passes [] [] (passing_untold self.old.link) (passing_untold self.new.link) }
        ensures ready { AreReady (link_known self.new.link) self.new.sockets.slots ready.new.items }
    {
        let mut clock = rt;
        let until = end_of(self.clock.last(), timeout);
        self.flush();
        self.offer_all(wants, ready);
        for _ in 0..MOST_ASKED {
            let limit = time_left(self.clock.last(), until, !ready.items().is_empty());
            if !self.ask(rt, &mut clock, limit) {
                ready.clear();
                return false;
            }
            self.offer_all(wants, ready);
            if is_over(self.clock.last(), until) || !ready.items().is_empty() {
                return true;
            }
        }
        ready.clear();
        true
    }

    // All that is ready, the link too.
    fn offer_all(&self, wants: &Wants, ready: &mut ReadyList)
        requires { length wants.now.items ≤ ready.old.capacity }
        ensures picked { IsPickedFrom wants.now.items ready.new.items }
        ensures few { length ready.new.items ≤ length wants.now.items }
        ensures capacity { ready.new.capacity ≡ ready.old.capacity }
        // What is told is ready.
        ensures ready { AreReady (link_known self.now.link) self.now.sockets.slots ready.new.items }
        // Each socket that is wanted and ready is told, for writing always, for reading where no more are ready than the link bears.
        ensures writes { (want : Want) → Contains wants.now.items want → (want.of ≡ Who.Link → ⊥) → want.write ≡ true → IsWritable self.now.sockets.slots want.of → TellsWrite ready.new.items want.of }
        ensures reads { AreInOrder wants.now.items → length self.now.sockets.readable ≤ bears self.now.link → (want : Want) → Contains wants.now.items want → (want.of ≡ Who.Link → ⊥) → want.read ≡ true
            → IsReadable self.now.sockets.slots want.of → TellsRead ready.new.items want.of }
        ensures most { read_sockets ready.new.items ≤ bears self.now.link }
        ensures some { AreInOrder wants.now.items → 0 < bears self.now.link → (want : Want) → Contains wants.now.items want → (want.of ≡ Who.Link → ⊥) → want.read ≡ true
            → IsReadable self.now.sockets.slots want.of → TellsOneRead self.now.sockets.slots ready.new.items }
        ensures link { BeginsWithLink (is_told_readable self.now.link) (is_told_writable self.now.link) wants.now.items ready.new.items }
    {
        let link = Known {
            read: self.link.is_readable(),
            write: self.link.is_writable(),
        };
        gather(wants, link, &self.sockets, self.link.bears(), ready);
    }

    // Writes what was gathered, as much as is taken at once.
    fn flush(&mut self)
        ensures moment { self.new.clock ≡ self.old.clock }
        ensures passes { Passes [] [] (passing_untold self.old.link) (passing_untold self.new.link) }
    {
        if let Some(poll) = &self.poll {
            self.link.flush(poll.registry());
        }
    }

    // Asks the system what is ready, for at most so long.
    fn ask<R: Net + Files, C: Ticks>(
        &mut self,
        rt: &R,
        clock: &mut C,
        limit: Option<Duration>,
    ) -> bool
        ensures moment { self.old.clock.moment ≤ self.new.clock.moment }
        // Once it answered, one look at the clock brings its time.
        ensures looks { OnTrue result (Looks (C.told clock.old) (C.told clock.new) (λ now. self.new.clock ≡ after_look now self.old.clock)) }
        ensures passes { Passes [] [] (passing_untold self.old.link) (passing_untold self.new.link) }
    {
        let Some(poll) = &mut self.poll else {
            return false;
        };
        if poll.poll(&mut self.events, limit).is_err() {
            return false;
        }
        note_events(&self.events, &mut self.link, &mut self.sockets);
        self.link.take_peer(rt, poll.registry());
        self.link.flush(poll.registry());
        self.clock.ask(clock);
        true
    }

    /// Ends what stands: what was gathered goes out, as much as is taken at once, and no file of a listener stays.
    pub fn shut<R: Net + Files>(mut self, rt: &R) {
        self.link.shut(rt);
    }
}

// The moment at which a wait is over that begins now, if it ends.
fn end_of(now: u64, timeout: Option<u64>) -> Option<u64>
    ensures { result ≡ end_of now timeout }
{
    Some(now.saturating_add(timeout?))
}

// For how long the system is asked at most: where something is known to be ready, not at all.
fn time_left(now: u64, until: Option<u64>, is_some_ready: bool) -> Option<Duration>
    ensures { option_map as_nanos result ≡ time_left now until is_some_ready }
{
    if is_some_ready {
        return Some(Duration::ZERO);
    }
    Some(Duration::from_millis(until?.saturating_sub(now)))
}

fn is_over(now: u64, until: Option<u64>) -> bool
    ensures { result ≡ is_over now until }
{
    match until {
        Some(until) => until <= now,
        None => false,
    }
}

// Whether the link, which stands first where it is wanted, is wanted for reading.
fn is_link_read(wants: &[Want]) -> bool
    ensures { result ≡ is_link_read wants.now }
{
    match wants {
        [want, ..] => is_link(want.of) && want.read,
        [] => false,
    }
}

// Notes what the system told.
fn note_events(events: &Events, link: &mut Link<Peer>, sockets: &mut Sockets<TcpStream>)
    ensures still { passing_untold link.new ≡ passing_untold link.old }
{
    for event in events {
        if event.token() == LINK {
            link.note(event);
        } else {
            sockets.note(event);
        }
    }
}
