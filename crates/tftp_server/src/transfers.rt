//! Which file each port of a guest gets, how far it is, and what goes again (RFC 1350, 2 and 6).
ghost use Rattle.std.specs.Prelude.{◌≡◌, ◌+◌, ◌^◌, ◌≤◌, ◌<◌, ◌++◌, ◌∷◌, ◌&&◌, ◌||◌, not, nat_le, nat_lt, ℕ, List, [], length, find, position, IfOk, Option, Some, None, true, false};
ghost use Rattle.slirp_settings.specs.Ranges.{IsSound};
ghost use Rattle.slirp_settings.specs.Settings.{settings};
ghost use Rattle.slirp_settings.specs.Classes.{same_endpoint};
ghost use Rattle.net_octets.specs.declared.Endpoint.{Endpoint as AnEndpoint};
ghost use Rattle.rules_tftp.specs.Transfers.{is_for, without, with_room, sending, ticked, begun, most_transfers};
ghost use Rattle.tftp_server.specs.Serving.{earlier, IsNextDue};
ghost use Rattle.rules_tftp.specs.Saying.{most_packet, said_by, IsFromServer};
ghost use Rattle.tftp_server.specs.Rows.{transfer_of, transfers_of, IsSentAgain, TakesAcknowledged};
ghost use Rattle.rules_tftp.specs.Soundness.{AreSound};

use crate::row::Row;
use crate::{MOST_AGAIN, MOST_TRANSFERS};
use arrayvec::ArrayString;
use net_octets::{Endpoint, Ip4, Mac, NoMemory};
use rules_udp::Reply;
use slirp_settings::{FILES_PORT, SlirpConfig};
use std::alloc::Global;
use std::marker::Model;

/// The files that guests get over TFTP. Contracts see the address of the server, the folder, and the list of transfers, the longest unused first, each with its packet.
///
/// Moments are in milliseconds, at most 2^62. The longest unused transfer stands first: one is used where its packet goes out for the first time. No port has two.
#[derive(Drop)]
pub struct Tftp {
    pub(crate) vhost: Ip4,
    pub(crate) folder: Option<ArrayString<1024>>,
    pub(crate) rows: Vec<Row>,
}

impl Model for Tftp {
    ghost use Rattle.std.specs.Prelude.{◌≤◌};
    ghost use Rattle.std.specs.Option.{option_map};
    ghost use Rattle.std.specs.Vec.{vec_len, vec_capacity};
    ghost use Rattle.tftp_server.specs.Serving.{Serving};
    ghost use Rattle.tftp_server.specs.Rows.{transfers_of};
    ghost use Rattle.rules_tftp.specs.Soundness.{AreApart};

    ghost Value = { Serving };

    ghost view = { λ s. record { vhost = s.vhost.0; folder = option_map (λ f. f.bytes) s.folder; transfers = transfers_of (option_map (λ f. f.bytes) s.folder) s.rows.items } };

    ghost invariant = { λ s. (vec_len s.rows ≤ 20) × (20 ≤ vec_capacity s.rows) × AreApart (transfers_of (option_map (λ f. f.bytes) s.folder) s.rows.items) };
}

impl Tftp {
    /// No file is got yet. The settings are some of which `check` answers Ok. No other call takes memory.
    ///
    /// # Errors
    /// `NoMemory` where no memory is left.
    pub fn open(alloc: Global, c: &SlirpConfig) -> Result<Tftp, NoMemory>
        requires { IsSound (settings c.now) }
        ensures vhost { IfOk result (λ t. t.vhost ≡ (settings c.now).vhost) }
        ensures folder { IfOk result (λ t. t.folder ≡ (settings c.now).tftp_path) }
        ensures transfers { IfOk result (λ t. t.transfers ≡ []) }
    {
        match Vec::with_capacity(alloc, MOST_TRANSFERS) {
            Ok(rows) => Ok(Tftp {
                vhost: c.vhost,
                folder: c.tftp_path,
                rows,
            }),
            Err(_) => Err(NoMemory),
        }
    }

    /// Whether a file is got. Where none is, no packet goes again.
    pub fn has_transfers(&self) -> bool
        ensures some { result ≡ nat_lt 0 (length self.now.transfers) }
    {
        !self.rows.is_empty()
    }

    /// The packet of the longest unused transfer that is due to go again goes again: it is counted, and stands at the front of `into`, which has room for 1,472
    /// octets. Nothing exactly where none is due. Ask where nothing else is left to be sent.
    pub fn next_again(&mut self, now: u64, into: &mut [u8]) -> Reply
        requires moment { now ≤ 2 ^ 62 }
        requires room { most_packet ≤ length into.old }
        ensures sound { AreSound self.old.transfers }
        ensures list { self.new ≡ record self.old { transfers = ticked now true self.old.transfers } }
        ensures says { said_by result into.new ≡ begun now true self.old.transfers }
        ensures from { IsFromServer self.old.vhost result }
    {
        self.end_over(now);
        let Some(place) = due_place(self.rows.as_slice(), now) else {
            return Reply::Nothing;
        };
        count_again(&mut self.rows, place, now);
        let row = &self.rows[place];
        tell(self.vhost, row.guest, row.mac, row.packet.as_slice(), into)
    }

    /// Transfers whose packet went again five times and is due once more are gone.
    pub fn end_over(&mut self, now: u64)
        ensures sound { AreSound self.old.transfers }
        ensures list { self.new ≡ record self.old { transfers = ticked now false self.old.transfers } }
    {
        self.rows.retain(|row| is_left(row, now));
    }

    /// The earliest moment after this one at which a packet is due to go again. None exactly where there is none.
    pub fn next_due(&self, now: u64) -> Option<u64>
        ensures sound { AreSound self.now.transfers }
        ensures next { IsNextDue now self.now.transfers result }
    {
        next_due(self.rows.as_slice(), now)
    }

    // The transfer of a guest's port ends.
    pub(crate) fn forget(&mut self, guest: Endpoint)
        ensures list { self.new ≡ record self.old { transfers = without guest self.old.transfers } }
        ensures none { find (is_for guest) self.new.transfers ≡ None }
    {
        self.rows.retain(|row| row.guest != guest);
    }

    // The longest unused transfer gives way where as many are open as may be.
    pub(crate) fn make_room(&mut self)
        ensures list { self.new ≡ record self.old { transfers = with_room self.old.transfers } }
        ensures room { length self.new.transfers < most_transfers }
        ensures none { (guest : AnEndpoint) → find (is_for guest) self.old.transfers ≡ None → find (is_for guest) self.new.transfers ≡ None }
    {
        if self.rows.len() >= MOST_TRANSFERS {
            self.rows.remove(0);
        }
    }

    // Takes out the transfer of a guest's port whose last block has this number. None exactly where there is none.
    pub(crate) fn take_acknowledged(&mut self, guest: Endpoint, block: u16) -> Option<Row>
        ensures { TakesAcknowledged guest block self.old self.new result }
    {
        let place = place_of(self.rows.as_slice(), guest)?;
        if (self.rows[place].block % 65536) as u16 != block {
            return None;
        }
        Some(self.rows.remove(place))
    }

    // A packet goes out for the first time, and its transfer is the last of all.
    pub(crate) fn send(&mut self, now: u64, mut row: Row, into: &mut [u8]) -> Reply
        requires moment { now ≤ 2 ^ 62 }
        requires room { most_packet ≤ length into.old }
        requires few { length self.old.transfers < most_transfers }
        requires fresh { find (is_for row.guest) self.old.transfers ≡ None }
        ensures list { self.new ≡ record self.old {
          transfers = self.old.transfers ++
              (sending now row.is_last row.packet.items (transfer_of self.old.folder row) ∷ []);
        } }
        ensures says { said_by result into.new ≡ Some (record { mac = row.mac.0; guest = row.guest; octets = row.packet.items }) }
        ensures from { IsFromServer self.old.vhost result }
    {
        row.again = 0;
        row.due = now + row.timeout;
        let reply = tell(self.vhost, row.guest, row.mac, row.packet.as_slice(), into);
        let _ = self.rows.push(row);
        reply
    }
}

/// A datagram of the server to a guest, whose octets stand at the front of `into`.
pub(crate) fn tell(vhost: Ip4, guest: Endpoint, mac: Mac, packet: &[u8], into: &mut [u8]) -> Reply
    requires few { length packet.now ≤ most_packet }
    requires room { most_packet ≤ length into.old }
    ensures says { said_by result into.new ≡ Some (record { mac = mac.0; guest = guest; octets = packet.now }) }
    ensures from { IsFromServer vhost.0 result }
{
    let length = packet.len();
    into[..length].copy_from_slice(packet);
    Reply::Datagram {
        length,
        from: Endpoint {
            addr: vhost,
            port: FILES_PORT,
        },
        to: guest,
        mac: Some(mac),
    }
}

// Whether a transfer isn't over: its packet isn't due, or goes again.
fn is_left(row: &Row, now: u64) -> bool
    ensures { result ≡ (not (nat_le row.now.due now) || nat_lt row.now.again 5) }
{
    now < row.due || row.again < MOST_AGAIN
}

fn place_of(rows: &[Row], guest: Endpoint) -> Option<usize>
    ensures { result ≡ position (λ r. same_endpoint r.guest guest) rows.now }
{
    rows.iter().position(|row| row.guest == guest)
}

// The place of the longest unused transfer whose packet is to go again.
fn due_place(rows: &[Row], now: u64) -> Option<usize>
    ensures { result ≡ position (λ r. nat_le r.due now && nat_lt r.again 5) rows.now }
{
    rows.iter()
        .position(|row| row.due <= now && row.again < MOST_AGAIN)
}

// The packet at a place goes again now.
fn count_again(rows: &mut [Row], place: usize, now: u64)
    requires moment { now ≤ 2 ^ 62 }
    requires due { position (λ r. nat_le r.due now && nat_lt r.again 5) rows.old ≡ Some place }
    ensures { IsSentAgain now place rows.old rows.new }
{
    let row = &mut rows[place];
    row.again += 1;
    row.due = now + row.timeout;
}

// The earliest moment after this one at which a packet is due to go again.
fn next_due(rows: &[Row], now: u64) -> Option<u64>
    ensures { (folder : Option (List ℕ)) → IsNextDue now (transfers_of folder rows.now) result }
{
    let mut next = None;
    for row in rows {
        next = earlier(now, row.due, next);
    }
    next
}

// The earlier of two moments after this one.
fn earlier(now: u64, due: u64, next: Option<u64>) -> Option<u64>
    ensures { result ≡ earlier now due next }
{
    if due <= now {
        return next;
    }
    match next {
        Some(at) if at <= due => next,
        _ => Some(due),
    }
}
