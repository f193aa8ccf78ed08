// Which sockets are open for which ports of guests.
ghost use Rattle.std.specs.Prelude.{◌≡◌, ◌≤◌, ◌<◌, [], ◌∷◌, ◌++◌, find, length, option_map, true, All, IsPermutation, slice_get, slice_set};
ghost use Rattle.std.specs.List.Sorted.{IsNonDecreasing};
ghost use Rattle.idle_sockets.specs.Numbers.{times, IsPlace, IsRoomFor, IsTakenOut, Rise};
ghost use Rattle.idle_sockets.specs.Sockets.{is_over, most_sockets, number_of, numbers};
ghost use Rattle.idle_sockets.specs.Closing.{IsLeast};
ghost use Rattle.idle_sockets.specs.Rows.{key, AreSince};
ghost use Rattle.idle_sockets.specs.declared.IdleSocket.{IdleSocket};
ghost use Rattle.slirp_settings.specs.Addresses.{endpoint};
ghost use Rattle.world_face.specs.Journal.{UdpOpen};
ghost use Rattle.world_face.specs.Tells.{Answers};
ghost use Rattle.world_face.specs.declared.Made.TheVariants.{Done, Failed};

use crate::order::Order;
use crate::{IdleSocket, MOST_SOCKETS};
use arrayvec::ArrayVec;
use net_octets::{Endpoint, Ip4, Mac};
use rules_udp::is_life_over;
use std::marker::Model;
use world_face::{Made, World};

/// At most 512 open sockets, each for one port of a guest and one identifier, the longest unused first.
///
/// Their rows stand by rising number, and their numbers beside them; what each is found by, as a number, by rising number, and beside each the number of its
/// socket. So one is found by its number or by its port without a walk. The order of use is kept by links between numbers: nothing moves where one is used.
/// None was used before `since`.
#[derive(Drop)]
pub struct IdleSockets {
    rows: ArrayVec<IdleSocket, 512>,
    rising: ArrayVec<u64, 512>,
    order: Order,
    keys: ArrayVec<u64, 512>,
    owners: ArrayVec<u64, 512>,
    since: u64,
}

impl Model for IdleSockets {
    ghost use Rattle.std.specs.Prelude.{List};
    ghost use Rattle.idle_sockets.specs.declared.IdleSocket.{IdleSocket};
    ghost use Rattle.idle_sockets.specs.Rows.{in_order, AreKeys, AreRows};

    ghost Value = { List IdleSocket };

    ghost view = { λ s. in_order s.rows.items s.order };

    ghost invariant = { λ s. AreRows s.rows.items s.rising.items s.order s.since × AreKeys s.rows.items s.keys.items s.owners.items };
}

impl IdleSockets {
    ghost use Rattle.std.specs.Prelude.{◌+◌, ◌-◌, ◌^◌, Some, None, min, nat_le};
    ghost use Rattle.idle_sockets.specs.Sockets.{numbered, socket_of, moved_last, sent_from, heard_at};
    ghost use Rattle.idle_sockets.specs.Closing.{without};

    /// No socket. All room is in the value itself, so nothing is taken later.
    pub fn new() -> IdleSockets
        ensures { result ≡ [] }
    {
        IdleSockets {
            rows: ArrayVec::new(),
            rising: ArrayVec::new(),
            order: Order::new(),
            keys: ArrayVec::new(),
            owners: ArrayVec::new(),
            since: u64::MAX,
        }
    }

    /// Whether as many are open as may be.
    pub(crate) fn is_full(&self) -> bool
        ensures full { result ≡ nat_le most_sockets (length self.now) }
        ensures most { length self.now ≤ most_sockets }
    {
        self.order.len() >= MOST_SOCKETS
    }

    /// The longest unused one. None exactly where there is none.
    pub fn oldest(&self) -> Option<IdleSocket>
        ensures { result ≡ slice_get self.now 0 }
    {
        let number = self.order.first()?;
        self.numbered(number)
    }

    /// The moment at which the idle life, so many milliseconds, of the longest unused one is over, at most 2^64 - 1. None exactly where there is none.
    pub fn next_due(&self, life: u64) -> Option<u64>
        ensures { result ≡ option_map (λ s. min (2 ^ 64 - 1) (s.used + life)) (slice_get self.now 0) }
    {
        let oldest = self.oldest()?;
        Some(oldest.used.saturating_add(life))
    }

    /// The socket with this number. None exactly where none has it.
    pub fn numbered(&self, number: u64) -> Option<IdleSocket>
        ensures { result ≡ numbered number self.now }
    {
        let place = place_of(self.rising.as_slice(), number)?;
        Some(self.rows.as_slice()[place])
    }

    /// The number of the socket for this port of a guest with this identifier. None exactly where there is none.
    pub fn socket_of(&self, guest: Endpoint, ident: u16) -> Option<u64>
        ensures { result ≡ socket_of guest ident self.now }
    {
        let place = place_of(self.keys.as_slice(), key(guest, ident))?;
        Some(self.owners.as_slice()[place])
    }

    /// A socket was opened for a port of a guest that has none with its identifier. Its number is greater than that of all.
    pub(crate) fn open(&mut self, socket: IdleSocket)
        requires room { length self.old < most_sockets }
        requires above { All (λ n. n < socket.number) (numbers self.old) }
        requires fresh { socket_of socket.guest socket.ident self.old ≡ None }
        ensures { self.new ≡ self.old ++ (socket ∷ []) }
    {
        let key = key(socket.guest, socket.ident);
        let place = room_for(self.keys.as_slice(), key);
        self.keys.insert(place, key);
        self.owners.insert(place, socket.number);
        self.order.push(socket.number);
        self.rising.push(socket.number);
        self.since = self.since.min(socket.used);
        self.rows.push(socket);
    }

    /// Opens a socket for a port of a guest that has none with its identifier, at port 0 of this address of the host: the system chooses the port. Its number
    /// is greater than that of all. Where the host refuses it nothing changes.
    pub fn open_at<W: World>(&mut self, world: &mut W, bind: Ip4, socket: IdleSocket) -> Made
        requires room { length self.old < most_sockets }
        requires above { All (λ n. n < socket.number) (numbers self.old) }
        requires fresh { socket_of socket.guest socket.ident self.old ≡ None }
        ensures call { Answers (W.tells world.old) (W.tells world.new) (UdpOpen socket.number (endpoint bind.0 0) result) }
        ensures done { result ≡ Done → self.new ≡ self.old ++ (socket ∷ []) }
        ensures failed { result ≡ Failed → self.new ≡ self.old }
    {
        let at = Endpoint {
            addr: bind,
            port: 0,
        };
        let answer = world.udp_open(socket.number, at);
        if let Made::Done = answer {
            self.open(socket);
        }
        answer
    }

    /// The socket with this number was closed.
    pub fn close(&mut self, number: u64)
        ensures { self.new ≡ without number_of number self.old }
    {
        if let Some(place) = place_of(self.rising.as_slice(), number) {
            let row = self.rows.remove(place);
            self.rising.remove(place);
            self.order.forget(number);
            forget_key(&mut self.keys, &mut self.owners, key(row.guest, row.ident));
        }
    }

    /// A datagram of the guest, which came from this hardware address, was sent on the socket.
    pub fn sent(&mut self, number: u64, mac: Mac, now: u64)
        ensures { self.new ≡ moved_last (sent_from mac now) number self.old }
    {
        if let Some(place) = place_of(self.rising.as_slice(), number) {
            let mut row = self.rows.as_slice()[place];
            row.mac = mac;
            row.used = now;
            put(&mut self.rows, place, row);
            self.order.make_last(number);
            self.since = self.since.min(now);
        }
    }

    /// A datagram of a peer was received on the socket.
    pub fn received(&mut self, number: u64, now: u64)
        ensures { self.new ≡ moved_last (heard_at now) number self.old }
    {
        if let Some(place) = place_of(self.rising.as_slice(), number) {
            let mut row = self.rows.as_slice()[place];
            row.used = now;
            put(&mut self.rows, place, row);
            self.order.make_last(number);
            self.since = self.since.min(now);
        }
    }

    /// The least number of a socket whose idle life, so many milliseconds, is over at this moment. None exactly where there is none. It walks over the sockets
    /// only where one may be over.
    pub(crate) fn idle(&mut self, now: u64, life: u64) -> Option<u64>
        ensures least { IsLeast number_of (is_over life now) self.old result }
        ensures same { self.new ≡ self.old }
    {
        if !is_life_over(life, self.since, now) {
            return None;
        }
        self.since = first_use(self.rows.as_slice());
        let socket = first_over(self.rows.as_slice(), life, now)?;
        Some(socket.number)
    }

    /// The least number of a socket. None exactly where no socket is open.
    pub(crate) fn least(&self) -> Option<u64>
        ensures { IsLeast number_of (λ s. true) self.now result }
    {
        self.rising.as_slice().first().copied()
    }

    /// The numbers of all sockets, the least first.
    pub fn rising(&self) -> &[u64]
        ensures all { IsPermutation (numbers self.now) result.now }
        ensures rising { IsNonDecreasing result.now }
        // No number stands twice.
        ensures strict { Rise result.now }
        ensures most { length result.now ≤ most_sockets }
    {
        self.rising.as_slice()
    }
}

// The place of a number among numbers that rise.
pub(crate) fn place_of(rising: &[u64], number: u64) -> Option<usize>
    requires { Rise rising.now }
    ensures { IsPlace number rising.now result }
{
    match rising.binary_search(&number) {
        Ok(place) => Some(place),
        Err(_) => None,
    }
}

// The place at which a number that isn't among numbers that rise goes in.
fn room_for(rising: &[u64], number: u64) -> usize
    requires rise { Rise rising.now }
    requires new { times number rising.now ≡ 0 }
    ensures { IsRoomFor number rising.now result }
{
    match rising.binary_search(&number) {
        Ok(place) => place,
        Err(place) => place,
    }
}

// A port and an identifier as one number, by which sockets are found.
fn key(guest: Endpoint, ident: u16) -> u64
    ensures number { result ≡ key guest ident }
    ensures port { guest.port < 65536 }
    ensures ident { ident < 65536 }
{
    let port = guest.port;
    ((guest.addr.0 as u64) * 65536 + port as u64) * 65536 + ident as u64
}

// Takes a key out, and the number beside it.
fn forget_key(keys: &mut ArrayVec<u64, 512>, owners: &mut ArrayVec<u64, 512>, key: u64)
    requires rise { Rise keys.old.items }
    requires there { 0 < times key keys.old.items }
    requires beside { length owners.old.items ≡ length keys.old.items }
    ensures { IsTakenOut key keys.old.items owners.old.items keys.new.items owners.new.items }
{
    if let Some(place) = place_of(keys.as_slice(), key) {
        keys.remove(place);
        owners.remove(place);
    }
}

// Puts a row in its place.
fn put(rows: &mut ArrayVec<IdleSocket, 512>, place: usize, row: IdleSocket)
    requires { place < length rows.old.items }
    ensures { rows.new.items ≡ slice_set rows.old.items place row }
{
    rows.as_mut_slice()[place] = row;
}

// The first moment at which one of these was used.
fn first_use(rows: &[IdleSocket]) -> u64
    ensures { AreSince result rows.now }
{
    let mut first = u64::MAX;
    for place in 0..rows.len() {
        first = first.min(rows[place].used);
    }
    first
}

// The first whose idle life is over at this moment. Where they stand by rising number its number is the least.
fn first_over(rows: &[IdleSocket], life: u64, now: u64) -> Option<IdleSocket>
    ensures { result ≡ find (is_over life now) rows.now }
{
    rows.iter()
        .copied()
        .find(|socket| is_life_over(life, socket.used, now))
}
