// The host: it connects at once, takes all, gives back what it got, and ends after the guest.
ghost use Rattle.std.specs.Prelude.{◌≡◌, ◌<◌, false, length};
ghost use Rattle.world_face.specs.Faults.{io_failed};
ghost use Rattle.world_face.specs.Journal.{MayRead};

use crate::guest::{FLOWS, share};
use crate::pattern::{PERIOD, Pattern};
use crate::reporting::{fill, moved};
use net_octets::NoMemory;
use std::alloc::Global;
use world_face::Io;

/// The server's side of one flow.
#[derive(Drop)]
struct Socket {
    /// Its number while it is open.
    number: Option<u64>,
    was_opened: bool,
    /// What it got, how many octets that are, and how many it gave back.
    got: Vec<u8>,
    written: usize,
    given: usize,
    /// Whether the guest's end came.
    is_ended: bool,
}

/// The server's sides of the guest's flows, each at the place of its flow's number.
#[derive(Drop)]
pub struct Host {
    sockets: Vec<Socket>,
}

impl Host {
    /// One that has room for what is sent to it, so many octets in all.
    pub fn open(alloc: Global, octets: u64) -> Result<Host, NoMemory> {
        let Ok(mut sockets) = Vec::with_capacity(alloc, FLOWS) else {
            return Err(NoMemory);
        };
        for flow in 0..FLOWS as u16 {
            let socket = Socket::open(alloc, share(octets, flow) as usize)?;
            if sockets.push(socket).is_err() {
                return Err(NoMemory);
            }
        }
        Ok(Host { sockets })
    }

    /// A connection for a flow. One that it had before is forgotten.
    pub fn connect(&mut self, number: u64, flow: usize) {
        if let Some(socket) = self.sockets.get_mut(flow) {
            socket.begin(number);
        }
    }

    /// Gives back octets that it got and didn't give back yet.
    pub fn read(&mut self, number: u64, into: &mut [u8]) -> Io
        requires { 0 < length into.old }
        ensures may { MayRead (length into.old) result }
        ensures never { io_failed result ≡ false }
    {
        match self.find(number) {
            Some(socket) => socket.give(into),
            None => Io::NotYet,
        }
    }

    /// Takes octets, and answers how many aren't those that are to come.
    pub fn write(&mut self, number: u64, from: &[u8], pattern: &Pattern) -> u64 {
        match self.find(number) {
            Some(socket) => socket.take(from, pattern),
            None => from.len() as u64,
        }
    }

    /// Notes that the guest's end came on this connection: behind what is given back the end is read.
    pub fn end(&mut self, number: u64) {
        if let Some(socket) = self.find(number) {
            socket.is_ended = true;
        }
    }

    /// Closes the connection with this number, where there is one: the flow has none then.
    pub fn close(&mut self, number: u64) {
        if let Some(socket) = self.find(number) {
            socket.number = None;
        }
    }

    /// Whether a read of this connection would bring octets or its end.
    pub fn is_readable(&self, number: u64) -> bool {
        self.sockets.iter().any(|socket| socket.number == Some(number) && socket.is_readable())
    }

    /// Whether the connection of a flow was opened and closed.
    pub fn is_over(&self, flow: usize) -> bool {
        match self.sockets.get(flow) {
            Some(socket) => socket.was_opened && socket.number.is_none(),
            None => false,
        }
    }

    fn find(&mut self, number: u64) -> Option<&mut Socket> {
        self.sockets
            .iter_mut()
            .find(|socket| socket.number == Some(number))
    }
}

impl Socket {
    fn open(alloc: Global, room: usize) -> Result<Socket, NoMemory> {
        let Ok(got) = vec![in alloc; 0; room] else {
            return Err(NoMemory);
        };
        Ok(Socket {
            number: None,
            was_opened: false,
            got,
            written: 0,
            given: 0,
            is_ended: false,
        })
    }

    fn begin(&mut self, number: u64) {
        self.number = Some(number);
        self.was_opened = true;
        self.written = 0;
        self.given = 0;
        self.is_ended = false;
    }

    fn is_readable(&self) -> bool {
        self.given < self.written || self.is_ended
    }

    // Octets for which there is no room were never sent: they are wrong, and aren't given back. Answers how many are wrong.
    fn take(&mut self, from: &[u8], pattern: &Pattern) -> u64 {
        let place = self.written;
        let end = place.saturating_add(from.len());
        if end > self.got.len() {
            return from.len() as u64;
        }
        self.got[place..end].copy_from_slice(from);
        self.written = end;
        pattern.differing((place % PERIOD) as u32, from)
    }

    fn give(&mut self, into: &mut [u8]) -> Io
        requires { 0 < length into.old }
        ensures may { MayRead (length into.old) result }
        ensures never { io_failed result ≡ false }
    {
        if self.given >= self.written {
            return if self.is_ended { Io::End } else { Io::NotYet };
        }
        let Some(left) = self.got.get(self.given..self.written) else {
            return Io::NotYet;
        };
        let count = fill(left, into);
        self.given = self.given.saturating_add(count);
        moved(count)
    }
}
