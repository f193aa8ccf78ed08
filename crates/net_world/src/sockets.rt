// The sockets of the host, each under its number.
ghost use Rattle.std.specs.Prelude.{◌≡◌, ◌⊎◌, ℕ, List, ◌<◌, ◌≤◌, true, false, Some, None, [], Err, IfOk, IfSome, length, count_by, is_some, vec_capacity};
ghost use Rattle.std.specs.List.{Contains};
ghost use Rattle.std.specs.List.Sorted.{IsSearchInRange, IsBinarySearchResult, IsPartitionPoint};
ghost use Rattle.std.specs.Bool.{OnFalse};
ghost use Rattle.std.specs.Ordering.{nat_cmp};
ghost use Rattle.std.specs.declared.cmp.Ordering.TheVariants.{Greater};
ghost use Rattle.mio.specs.Event.{event_token};
ghost use Rattle.world_face.specs.Journal.{MayRead, MayWrite, MayGet, filled};
ghost use Rattle.net_world.specs.Slots.{is_connection, are_datagrams};
ghost use Rattle.host_io.specs.Streaming.{after_event};
ghost use Rattle.net_world.specs.Tables.{rank_of, number_of, by_rank, InOrder, listed_at, slot_at, AreListed, ArePlaced, IsKnownStarved, Finds, OthersStay, Becomes, known_of, nothing_known, last_read};
ghost use Rattle.net_world.specs.Telling.{IsKnown};
ghost use Rattle.net_world.specs.Tables.{IsRead, IsWritten, IsReceived, IsTaken, IsAsked, Joins, Opens, Table, fed, fed_at};
ghost use Rattle.net_world.specs.declared.sockets.TheConstants.{MOST};

use crate::ready_list::{Listed, find_listed, last_read, rank, relist};
use crate::slot::{
    Came, Slot, Socket, end, joined, new_socket, read, receive, register, send, take_from, write,
};
use host_io::stream_calls::{self, Ready};
use host_io::{Stream, send_at_once};
use mio::event::Event;
use mio::net::TcpStream;
use mio::{Registry, Token};
use net_octets::NoMemory;
use poll_list::{Want, Who};
use slab::Slab;
use std::alloc::Global;
use std::marker::Model;
use std::net::Net;
use world_face::{Accepted, Endpoint, Got, Io, Joined, Sent};

/// How many sockets are open at once at most, without the link.
pub(crate) const MOST: usize = 5160;

/// Whether a read may bring something, and whether a write may be taken.
#[derive(Clone, Copy)]
pub(crate) struct Known {
    pub read: bool,
    pub write: bool,
}

const NOTHING: Known = Known {
    read: false,
    write: false,
};

/// Where the slab keeps the socket of a number.
#[derive(Clone, Copy)]
struct Place {
    number: u64,
    key: usize,
}

/// The open sockets over the stream that a connection is, the places of their numbers, the least first, and those that are ready for reading, in the order of
/// wants. One that is ready for writing alone, as each connection is while it idles, stands in no list.
#[derive(Drop)]
pub(crate) struct Sockets<S> {
    slots: Slab<Slot<S>>,
    places: Vec<Place>,
    readable: Vec<Listed>,
    /// A listener waits for a descriptor.
    starved: bool,
    /// What was told last for reading.
    last: Who,
}

impl<S> Model for Sockets<S> {
    ghost use Rattle.std.specs.Prelude.{◌≤◌, vec_capacity};
    ghost use Rattle.net_world.specs.Tables.{Table, AreListed, ArePlaced, IsKnownStarved};
    ghost use Rattle.net_world.specs.declared.sockets.TheConstants.{MOST};

    ghost Value = { Table S };

    ghost view = { λ s. record { slots = s.slots.slots; places = s.places.items; readable = s.readable.items; starved = s.starved; last = s.last } };

    ghost invariant = { λ s. AreListed s.slots.slots s.slots.capacity s.readable.items × ArePlaced s.slots.slots s.places.items × IsKnownStarved s.slots.slots s.starved
        × (MOST ≤ s.slots.capacity) × (MOST ≤ vec_capacity s.places) × (s.slots.capacity ≤ vec_capacity s.readable) };
}

impl<S: Drop> Sockets<S> {
    /// No socket, and room for 5,160. Err where there is no memory for them.
    pub fn open(alloc: Global) -> Result<Sockets<S>, NoMemory>
        ensures { IfOk result (λ sockets. sockets.slots ≡ []) }
    {
        let Ok(slots) = Slab::with_capacity(alloc, MOST) else {
            return Err(NoMemory);
        };
        let (Ok(places), Ok(readable)) = (
            Vec::with_capacity(alloc, MOST),
            Vec::with_capacity(alloc, slots.capacity()),
        ) else {
            return Err(NoMemory);
        };
        Ok(none_open(slots, places, readable))
    }

    /// Those that are ready for reading, in the order of wants.
    pub fn readable(&self) -> &[Listed]
        ensures items { result.now ≡ self.now.readable }
        ensures order { InOrder result.now }
        // Each socket that may be read is among them, and no other.
        ensures all { (key : ℕ) (slot : Slot S) → slot_at self.now.slots key ≡ Some slot → slot.ready.read ≡ true → Contains result.now (listed_at slot.of key) }
        ensures only { (listed : Listed) → Contains result.now listed → (slot : Slot S) × (slot_at self.now.slots listed.key ≡ Some slot) × (slot.of ≡ listed.of) × (slot.ready.read ≡ true) }
    {
        self.readable.as_slice()
    }

    /// The place in that list past the socket that was told last for reading.
    pub fn next(&self) -> usize
        ensures { IsPartitionPoint (λ listed. by_rank (rank_of listed.of) (rank_of self.now.last) ≡ Greater → ⊥)
            (λ listed. by_rank (rank_of listed.of) (rank_of self.now.last) ≡ Greater) self.now.readable result }
    {
        match find_listed(&self.readable, self.last) {
            Ok(at) => at.saturating_add(1),
            Err(at) => at,
        }
    }

    /// These were told: the next that are told for reading come past them.
    pub fn go_on(&mut self, told: &[Want])
        ensures change { self.new ≡ record self.old { last = last_read self.old.last told.now } }
    {
        self.last = last_read(self.last, told);
    }

    /// In which directions a socket of that list is ready.
    pub fn known(&self, listed: &Listed) -> Known
        ensures listed { Contains self.now.readable listed.now → (key : ℕ) (slot : Slot S) → slot_at self.now.slots key ≡ Some slot → slot.of ≡ listed.now.of → result ≡ known_of slot }
        ensures reads { Contains self.now.readable listed.now → result.read ≡ true }
        ensures is { IsKnown self.now.slots listed.now.of result }
        ensures found { (slot : Slot S) → slot_at self.now.slots listed.now.key ≡ Some slot → slot.of ≡ listed.now.of → result ≡ known_of slot }
        ensures none { ((slot : Slot S) → slot_at self.now.slots listed.now.key ≡ Some slot → slot.of ≡ listed.now.of → ⊥) → result ≡ nothing_known }
    {
        let _ = &self.slots;
        self.known_at(listed.key, listed.of)
    }

    /// In which directions a socket is ready that is looked up by what it is; in none where there is no such socket.
    pub fn look_up(&self, of: Who) -> Known
        ensures found { (key : ℕ) (slot : Slot S) → slot_at self.now.slots key ≡ Some slot → slot.of ≡ of → result ≡ known_of slot }
        ensures none { ((key : ℕ) (slot : Slot S) → slot_at self.now.slots key ≡ Some slot → slot.of ≡ of → ⊥) → result ≡ nothing_known }
        ensures is { IsKnown self.now.slots of result }
    {
        let (_, number) = rank(of);
        match self.key_of(number) {
            Some(key) => self.known_at(key, of),
            None => NOTHING,
        }
    }

    // In which directions a socket is ready, where it stands at that key.
    fn known_at(&self, key: usize, of: Who) -> Known
        ensures found { (slot : Slot S) → slot_at self.now.slots key ≡ Some slot → slot.of ≡ of → result ≡ known_of slot }
        ensures none { ((slot : Slot S) → slot_at self.now.slots key ≡ Some slot → slot.of ≡ of → ⊥) → result ≡ nothing_known }
        ensures is { IsKnown self.now.slots of result }
    {
        match self.slots.get(key) {
            Some(slot) => known_if(slot, of),
            None => NOTHING,
        }
    }

    // Where the slab keeps the socket of a number; None where there is none.
    fn key_of(&self, number: u64) -> Option<usize>
        ensures { Finds self.now.slots number result }
    {
        match find(&self.places, number) {
            Ok(at) => Some(self.places[at].key),
            Err(_) => None,
        }
    }

    /// Notes what the system told of a socket.
    pub fn note(&mut self, event: &Event)
        ensures noted { (slot : Slot S) → slot_at self.old.slots (event_token event.now).0 ≡ Some slot
            → Becomes self.old self.new (event_token event.now).0 (Some (record slot { ready = after_event event.now slot.ready })) }
        ensures none { slot_at self.old.slots (event_token event.now).0 ≡ None → self.new ≡ self.old }
    {
        let key = event.token().0;
        let Some(slot) = self.slots.get_mut(key) else {
            return;
        };
        let was = slot.ready.read;
        stream_calls::note(&mut slot.ready, event);
        let (of, is) = (slot.of, slot.ready.read);
        relist(&mut self.readable, Listed { of, key }, was, is);
    }
}

impl<S: Stream + Drop> Sockets<S> {
    // Whether no more sockets can be open.
    fn is_full(&self) -> bool
        ensures { OnFalse result (count_by is_some self.now.slots < MOST) }
    {
        self.slots.len() >= MOST
    }

    // Takes what a listener gave. Where the system or this list has no room for it, it waits until another socket was closed, and the listener isn't ready before.
    fn take(&mut self, listener: u64) -> Came
        ensures none { Finds self.old.slots listener None → (result ≡ Came.Failed) × (self.new ≡ self.old) }
        ensures takes { (key : ℕ) (slot : Slot S) → slot_at self.old.slots key ≡ Some slot → number_of slot.of ≡ listener → (new : Slot S) × IsTaken self.old self.new key slot new
            × (new.ready.read ≡ false → slot.ready.read ≡ true → new.starved ≡ false → result ≡ Came.NotYet) }
    {
        let full = self.is_full();
        let Some(key) = self.key_of(listener) else {
            return Came::Failed;
        };
        let Some(slot) = self.slots.get_mut(key) else {
            return Came::Failed;
        };
        let was = slot.ready.read;
        let came = take_from(slot, full);
        let (of, is, starved) = (slot.of, slot.ready.read, slot.starved);
        self.starved |= starved;
        relist(&mut self.readable, Listed { of, key }, was, is);
        came
    }

    /// Reads octets of a connection. End where its peer has ended, NotYet where none came, Failed where there is no connection of this number or it
    /// broke.
    pub fn tcp_read(&mut self, number: u64, into: &mut [u8]) -> Io
        requires { 0 < length into.old }
        ensures may { MayRead (length into.old) result }
        ensures none { Finds self.old.slots number None → (result ≡ Io.Failed) × (self.new ≡ self.old) }
        ensures reads { (key : ℕ) (slot : Slot S) → slot_at self.old.slots key ≡ Some slot → number_of slot.of ≡ number → (new : Slot S) × Becomes self.old self.new key (Some new)
            × IsRead S.remaining S.contents S.answers slot new (length into.old) result (filled result into.new) }
    {
        let Some(key) = self.key_of(number) else {
            return Io::Failed;
        };
        let Some(slot) = self.slots.get_mut(key) else {
            return Io::Failed;
        };
        let was = slot.ready.read;
        let answer = read(slot, into);
        let (of, is) = (slot.of, slot.ready.read);
        relist(&mut self.readable, Listed { of, key }, was, is);
        answer
    }

    /// Writes octets to a connection, as many as the system takes. NotYet where it takes none for now, Failed where there is no connection of this
    /// number or it broke.
    pub fn tcp_write(&mut self, number: u64, from: &[u8]) -> Io
        requires { 0 < length from.now }
        ensures may { MayWrite (length from.now) result }
        ensures none { Finds self.old.slots number None → (result ≡ Io.Failed) × (self.new ≡ self.old) }
        ensures writes { (key : ℕ) (slot : Slot S) → slot_at self.old.slots key ≡ Some slot → number_of slot.of ≡ number → (new : Slot S) × Becomes self.old self.new key (Some new)
            × IsWritten S.remaining S.contents S.answers slot new (length from.now) result (filled result from.now) }
    {
        let Some(key) = self.key_of(number) else {
            return Io::Failed;
        };
        let Some(slot) = self.slots.get_mut(key) else {
            return Io::Failed;
        };
        write(slot, from)
    }

    /// Sends a datagram to an endpoint. NotYet where the system takes none for now, Failed where there is no socket for datagrams of this number or
    /// the system refuses.
    pub fn udp_send(&self, number: u64, to: Endpoint, octets: &[u8]) -> Sent
        ensures none { Finds self.now.slots number None → result ≡ Sent.Failed }
        ensures other { (key : ℕ) (slot : Slot S) → slot_at self.now.slots key ≡ Some slot → number_of slot.of ≡ number → are_datagrams slot.socket ≡ false → result ≡ Sent.Failed }
    {
        let Some(key) = self.key_of(number) else {
            return Sent::Failed;
        };
        match self.slots.get(key) {
            Some(slot) => send(slot, to, octets),
            None => Sent::Failed,
        }
    }

    /// Takes a datagram, and tells its sender and how many octets came. NotYet where none came, Failed where there is no socket for datagrams of
    /// this number or the system fails.
    pub fn udp_recv(&mut self, number: u64, into: &mut [u8]) -> Got
        ensures may { MayGet (length into.old) result }
        ensures none { Finds self.old.slots number None → (result ≡ Got.Failed) × (self.new ≡ self.old) }
        ensures receives { (key : ℕ) (slot : Slot S) → slot_at self.old.slots key ≡ Some slot → number_of slot.of ≡ number → (new : Slot S) × Becomes self.old self.new key (Some new)
            × IsReceived slot new result }
    {
        let Some(key) = self.key_of(number) else {
            return Got::Failed;
        };
        let Some(slot) = self.slots.get_mut(key) else {
            return Got::Failed;
        };
        let was = slot.ready.read;
        let got = receive(slot, into);
        let (of, is) = (slot.of, slot.ready.read);
        relist(&mut self.readable, Listed { of, key }, was, is);
        got
    }

    /// Closes a socket. Listeners that waited for its descriptor are ready again.
    pub fn close(&mut self, number: u64)
        ensures none { Finds self.old.slots number None → self.new ≡ self.old }
        ensures gone { Finds self.new.slots number None }
        // Each other slot stays, and a listener that waited is ready again.
        ensures others { (at : ℕ) → Finds self.old.slots number (Some at) → (key : ℕ) (slot : Slot S) → slot_at self.old.slots key ≡ Some slot → (key ≡ at → ⊥)
            → slot_at self.new.slots key ≡ Some (fed slot) }
    {
        if self.remove(number) {
            self.feed();
        }
    }

    // Listeners that waited for a descriptor are ready again.
    fn feed(&mut self)
        ensures { (key : ℕ) → slot_at self.new.slots key ≡ fed_at (slot_at self.old.slots key) }
    {
        if self.starved {
            feed_all(&mut self.slots, &self.places, &mut self.readable);
            self.starved = false;
        }
    }

    // Takes the socket of a number out of the table, and lets it go. False where there is none.
    fn remove(&mut self, number: u64) -> bool
        ensures none { Finds self.old.slots number None → (result ≡ false) × (self.new ≡ self.old) }
        ensures out { Finds self.new.slots number None }
        ensures gone { (key : ℕ) → Finds self.old.slots number (Some key) → (result ≡ true) × (slot_at self.new.slots key ≡ None) × OthersStay self.old.slots self.new.slots key
            × (self.new.starved ≡ self.old.starved) }
    {
        let Ok(at) = find(&self.places, number) else {
            return false;
        };
        let key = self.places.remove(at).key;
        let Some(slot) = self.slots.try_remove(key) else {
            unreachable!();
        };
        relist(
            &mut self.readable,
            Listed { of: slot.of, key },
            slot.ready.read,
            false,
        );
        true
    }
}

impl Sockets<TcpStream> {
    /// Opens a socket: a connection to an endpoint, or a listener or a socket for datagrams that is bound there.
    pub fn open_socket<R: Net>(
        &mut self,
        rt: &R,
        registry: &Registry,
        of: Who,
        at: Endpoint,
    ) -> bool
        ensures opened { result ≡ true → Opens self.old self.new of }
        ensures refused { result ≡ false → self.new ≡ self.old }
    {
        match new_socket(rt, of, at) {
            Some(socket) => self.add(registry, of, socket),
            None => false,
        }
    }

    // Puts a socket under its number, and has the system tell what it is ready for.
    fn add(&mut self, registry: &Registry, of: Who, mut socket: Socket<TcpStream>) -> bool
        ensures opened { result ≡ true → Opens self.old self.new of }
        ensures refused { result ≡ false → self.new ≡ self.old }
    {
        let (_, number) = rank(of);
        let Some(at) = self.free_place(number) else {
            return false;
        };
        let token = Token(self.slots.vacant_key());
        if !register(&mut socket, registry, token) {
            return false;
        }
        let key = self.slots.insert_reserved(Slot {
            of,
            socket,
            ready: Ready::NONE,
            starved: false,
        });
        self.places.insert(at, Place { number, key }).is_ok()
    }

    // The place of a number that isn't taken, where there is room for one more.
    fn free_place(&self, number: u64) -> Option<usize>
        ensures at { IfSome result (λ at. at ≤ length self.now.places) }
        ensures places { IfSome result (λ _. length self.now.places < MOST) }
        ensures slots { IfSome result (λ _. count_by is_some self.now.slots < MOST) }
        ensures position { IfSome result (λ at. IsBinarySearchResult (λ p. nat_cmp p.number number) self.now.places (Err at)) }
    {
        if self.is_full() || self.places.len() >= MOST {
            return None;
        }
        match find(&self.places, number) {
            Ok(_) => None,
            Err(at) => Some(at),
        }
    }

    /// Whether a connection stands: NotYet while it is being made, Failed where it can't be made or there is no connection of this number.
    pub fn connected(&mut self, number: u64) -> Joined
        ensures none { Finds self.old.slots number None → (result ≡ Joined.Failed) × (self.new ≡ self.old) }
        ensures asks { (key : ℕ) (slot : Slot TcpStream) → slot_at self.old.slots key ≡ Some slot → number_of slot.of ≡ number → (new : Slot TcpStream)
            × Becomes self.old self.new key (Some new) × IsAsked slot new result }
    {
        let Some(key) = self.key_of(number) else {
            return Joined::Failed;
        };
        let Some(slot) = self.slots.get_mut(key) else {
            return Joined::Failed;
        };
        joined(slot)
    }

    /// Takes a connection from a listener, and puts it under its number. Where the system or this list has no room for it, it waits until another socket was
    /// closed, and the listener isn't ready before.
    pub fn accept(&mut self, registry: &Registry, listener: u64, number: u64) -> Accepted
        ensures none { Finds self.old.slots listener None → (result ≡ Accepted.Failed) × (self.new ≡ self.old) }
        // What came stands under its number, and of the listener it is known whether more may have come; nothing else changes.
        ensures accepts { (key : ℕ) (slot : Slot TcpStream) → slot_at self.old.slots key ≡ Some slot → number_of slot.of ≡ listener → (new : Slot TcpStream) × (between : Table TcpStream)
            × IsTaken self.old between key slot new × Joins result between self.new number × (new.ready.read ≡ false → slot.ready.read ≡ true → new.starved ≡ false → result ≡ Accepted.NotYet) }
    {
        match self.take(listener) {
            Came::From(stream, peer) => {
                let mut calls = &stream;
                send_at_once(&mut calls);
                if self.add(registry, Who::Tcp(number), Socket::Stream(stream)) {
                    Accepted::From(peer)
                } else {
                    Accepted::Failed
                }
            }
            Came::NotYet => Accepted::NotYet,
            Came::Failed => Accepted::Failed,
        }
    }

    /// Ends the writing direction of a connection. False where there is no connection of this number, or the system refuses.
    pub fn tcp_end(&self, number: u64) -> bool
        ensures none { Finds self.now.slots number None → result ≡ false }
        ensures other { (key : ℕ) (slot : Slot TcpStream) → slot_at self.now.slots key ≡ Some slot → number_of slot.of ≡ number → is_connection slot.socket ≡ false → result ≡ false }
    {
        let Some(key) = self.key_of(number) else {
            return false;
        };
        match self.slots.get(key) {
            Some(slot) => end(slot),
            None => false,
        }
    }
}

// No socket, with this memory.
fn none_open<S>(slots: Slab<Slot<S>>, places: Vec<Place>, readable: Vec<Listed>) -> Sockets<S>
    requires slots { slots.slots ≡ [] }
    requires places { places.items ≡ [] }
    requires readable { readable.items ≡ [] }
    requires room { MOST ≤ slots.capacity }
    requires most { MOST ≤ vec_capacity places }
    requires all { slots.capacity ≤ vec_capacity readable }
    ensures { result.slots ≡ [] }
{
    Sockets {
        slots,
        places,
        readable,
        starved: false,
        last: Who::Link,
    }
}

// Listeners that waited for a descriptor are ready again.
fn feed_all<S: Stream>(slots: &mut Slab<Slot<S>>, places: &[Place], readable: &mut Vec<Listed>)
    requires listed { AreListed slots.old.slots slots.old.capacity readable.old.items }
    requires placed { ArePlaced slots.old.slots places.now }
    requires room { slots.old.capacity ≤ vec_capacity readable.old }
    ensures fed { (key : ℕ) → slot_at slots.new.slots key ≡ fed_at (slot_at slots.old.slots key) }
    ensures listed { AreListed slots.new.slots slots.new.capacity readable.new.items }
    ensures placed { ArePlaced slots.new.slots places.now }
    ensures known { IsKnownStarved slots.new.slots false }
    ensures capacity { slots.new.capacity ≡ slots.old.capacity }
    ensures room { slots.new.capacity ≤ vec_capacity readable.new }
{
    for place in places {
        feed_one(slots, readable, place.key);
    }
}

// One of them, where it waited.
fn feed_one<S: Stream>(slots: &mut Slab<Slot<S>>, readable: &mut Vec<Listed>, key: usize)
    requires listed { AreListed slots.old.slots slots.old.capacity readable.old.items }
    requires placed { (places : List Place) × ArePlaced slots.old.slots places }
    requires room { slots.old.capacity ≤ vec_capacity readable.old }
    ensures fed { slot_at slots.new.slots key ≡ fed_at (slot_at slots.old.slots key) }
    ensures others { OthersStay slots.old.slots slots.new.slots key }
    ensures listed { AreListed slots.new.slots slots.new.capacity readable.new.items }
    ensures placed { (places : List Place) → ArePlaced slots.old.slots places → ArePlaced slots.new.slots places }
    ensures capacity { slots.new.capacity ≡ slots.old.capacity }
    ensures room { slots.new.capacity ≤ vec_capacity readable.new }
{
    let Some(slot) = slots.get_mut(key) else {
        return;
    };
    let was = slot.ready.read;
    slot.ready.read |= slot.starved;
    slot.starved = false;
    let (of, is) = (slot.of, slot.ready.read);
    relist(readable, Listed { of, key }, was, is);
}

// In which directions a slot is ready, where it is of this.
fn known_if<S>(slot: &Slot<S>, of: Who) -> Known
    ensures found { slot.now.of ≡ of → result ≡ known_of slot.now }
    ensures none { (slot.now.of ≡ of → ⊥) → result ≡ nothing_known }
    ensures is { (result ≡ nothing_known) ⊎ ((slot.now.of ≡ of) × (result ≡ known_of slot.now)) }
{
    if slot.of == of {
        Known {
            read: slot.ready.read,
            write: slot.ready.write,
        }
    } else {
        NOTHING
    }
}

// The place of a number, or where it would stand.
fn find(places: &[Place], number: u64) -> Result<usize, usize>
    ensures range { IsSearchInRange result (length places.now) }
    ensures position { IsBinarySearchResult (λ p. nat_cmp p.number number) places.now result }
{
    places.binary_search_by_key(&number, |place| place.number)
}
