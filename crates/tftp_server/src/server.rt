//! What a packet of a guest asks for: the calls on files, and what the guest is told (RFC 1350, 2 to 7).
ghost use Rattle.std.specs.Prelude.{◌≡◌, ◌+◌, ◌-◌, ◌*◌, ◌^◌, ◌≤◌, ◌<◌, ℕ, List, [], length, find, min, take, Option, Some, None, true, false};
ghost use Rattle.world_face.specs.Tells.{Makes};
ghost use Rattle.world_face.specs.Limits.{most_name};
ghost use Rattle.rules_tftp.specs.Packets.{error_octets, file_in, options_octets, request_in, terms_of};
ghost use Rattle.rules_tftp.specs.Transfers.{Transfer, acknowledged, came, is_for, measured, most_transfers, octets_of, place_of, requested, seeks_next, sends, sends_block, settled, transfer};
ghost use Rattle.rules_tftp.specs.Asking.{IsServed};
ghost use Rattle.tftp_server.specs.Reading.{are_pairs};
ghost use Rattle.rules_tftp.specs.Saying.{most_packet, said_by, IsFromServer};
ghost use Rattle.tftp_server.specs.Rows.{folder_octets, next_of, seeking_length, sought, transfer_of};
ghost use Rattle.rules_tftp.specs.Soundness.{AreSound};
ghost use Rattle.rules_tftp.specs.Blocks.{ReadsBlock};

use crate::options::Agreed;
use crate::packets::{PacketView, name_in, read_packet, read_request, says};
use crate::row::Row;
use crate::transfers::{Tftp, tell};
use crate::written::{block_packet, error_packet, options_packet};
use arrayvec::{ArrayString, ArrayVec};
use net_octets::{Endpoint, Ip4, Mac};
use rules_udp::Reply;
use world_face::{FileSize, Io, World};

/// An error that has no number of its own (RFC 1350, 5).
const NOT_DEFINED: u16 = 0;

/// File not found.
const NOT_FOUND: u16 = 1;

/// Access violation.
const ACCESS_VIOLATION: u16 = 2;

/// Illegal TFTP operation.
const ILLEGAL_OPERATION: u16 = 4;

/// Options refused (RFC 2347).
const OPTIONS_REFUSED: u16 = 8;

/// A port of a guest, and the hardware address from which its packet came.
#[derive(Clone, Copy)]
struct Asker {
    guest: Endpoint,
    mac: Mac,
}

impl Tftp {
    /// A packet of a guest's port came from this hardware address. The calls on files that it asks for are made, until it asks for none, and what the guest is
    /// told stands at the front of `into`, which has room for 1,472 octets.
    pub fn packet<W: World>(
        &mut self,
        world: &mut W,
        now: u64,
        from: Endpoint,
        mac: Mac,
        body: &[u8],
        into: &mut [u8],
    ) -> Reply
        requires moment { now ≤ 2 ^ 62 }
        requires room { most_packet ≤ length into.old }
        ensures serves { Makes (W.tells world.old) (W.tells world.new)
            (IsServed now (came self.old.folder now mac.0 from body.now (settled self.old.transfers)) self.new.transfers (said_by result into.new)) }
        ensures from { IsFromServer self.old.vhost result }
        ensures rest { self.new ≡ record self.old { transfers = self.new.transfers } }
        ensures sound { AreSound self.new.transfers }
    {
        let asker = Asker { guest: from, mac };
        let reply = self.take_in(world, now, asker, body, into);
        // for the prover: with the rows lent once more, what they hold is known here.
        let _few = &self.rows;
        reply
    }

    // A packet is taken in, as `packet` says.
    fn take_in<W: World>(
        &mut self,
        world: &mut W,
        now: u64,
        asker: Asker,
        body: &[u8],
        into: &mut [u8],
    ) -> Reply
        requires moment { now ≤ 2 ^ 62 }
        requires room { most_packet ≤ length into.old }
        ensures serves { Makes (W.tells world.old) (W.tells world.new)
            (IsServed now (came self.old.folder now asker.mac.0 asker.guest body.now (settled self.old.transfers))
            self.new.transfers (said_by result into.new)) }
        ensures from { IsFromServer self.old.vhost result }
        ensures rest { self.new ≡ record self.old { transfers = self.new.transfers } }
    {
        match read_packet(body) {
            PacketView::Asks(texts) => {
                self.forget(asker.guest);
                self.request(world, now, asker, texts, into)
            }
            PacketView::AsksToWrite => refuse(self.vhost, ACCESS_VIOLATION, asker, into),
            PacketView::Acknowledges(block) => self.acknowledge(
                world,
                now,
                asker.guest,
                block,
                into,
            ),
            PacketView::GivesUp => {
                self.forget(asker.guest);
                Reply::Nothing
            }
            PacketView::Unheard => Reply::Nothing,
        }
    }

    // A request is looked at, and the length of its file asked for where it is one that is served.
    fn request<W: World>(
        &mut self,
        world: &mut W,
        now: u64,
        asker: Asker,
        texts: &[u8],
        into: &mut [u8],
    ) -> Reply
        requires moment { now ≤ 2 ^ 62 }
        requires room { most_packet ≤ length into.old }
        requires fresh { find (is_for asker.guest) self.old.transfers ≡ None }
        ensures serves { Makes (W.tells world.old) (W.tells world.new)
            (IsServed now (requested self.old.folder asker.mac.0 asker.guest (request_in texts.now) self.old.transfers) self.new.transfers
            (said_by result into.new)) }
        ensures from { IsFromServer self.old.vhost result }
        ensures rest { self.new ≡ record self.old { transfers = self.new.transfers } }
    {
        let Some(request) = read_request(texts) else {
            return refuse(self.vhost, ILLEGAL_OPERATION, asker, into);
        };
        if !says(request.mode, b"octet") {
            return refuse(self.vhost, ILLEGAL_OPERATION, asker, into);
        }
        if self.folder.is_none() {
            return refuse(self.vhost, ACCESS_VIOLATION, asker, into);
        }
        let Some(name) = name_in(request.name) else {
            return refuse(self.vhost, ACCESS_VIOLATION, asker, into);
        };
        self.measure(world, now, asker, name, request.options, into)
    }

    // Asks for the length of a file, and begins to send it.
    fn measure<W: World>(
        &mut self,
        world: &mut W,
        now: u64,
        asker: Asker,
        name: &str,
        options: &[u8],
        into: &mut [u8],
    ) -> Reply
        requires moment { now ≤ 2 ^ 62 }
        requires room { most_packet ≤ length into.old }
        requires few { length name.now ≤ 255 }
        requires pairs { are_pairs options.now ≡ true }
        requires fresh { find (is_for asker.guest) self.old.transfers ≡ None }
        ensures serves { Makes (W.tells world.old) (W.tells world.new)
            (IsServed now (seeking_length (sought self.old.folder asker.guest asker.mac.0 name.now options.now) self.old.transfers) self.new.transfers
            (said_by result into.new)) }
        ensures from { IsFromServer self.old.vhost result }
        ensures rest { self.new ≡ record self.old { transfers = self.new.transfers } }
    {
        let file = self.file(name);
        match world.file_len(file.as_str()) {
            FileSize::Length(length) => {
                self.begin(world, now, asker, name, length, options, into)
            }
            FileSize::Missing => refuse(self.vhost, NOT_FOUND, asker, into),
            FileSize::Failed => refuse(self.vhost, NOT_DEFINED, asker, into),
        }
    }

    // Sends the options that are answered, else the first block.
    fn begin<W: World>(
        &mut self,
        world: &mut W,
        now: u64,
        asker: Asker,
        name: &str,
        size: u64,
        options: &[u8],
        into: &mut [u8],
    ) -> Reply
        requires moment { now ≤ 2 ^ 62 }
        requires room { most_packet ≤ length into.old }
        requires few { length name.now ≤ 255 }
        requires pairs { are_pairs options.now ≡ true }
        requires fresh { find (is_for asker.guest) self.old.transfers ≡ None }
        ensures serves { let s = sought self.old.folder asker.guest asker.mac.0 name.now options.now in Makes (W.tells world.old) (W.tells world.new)
            (IsServed now (measured now size s (terms_of size s.options) self.old.transfers) self.new.transfers (said_by result into.new)) }
        ensures from { IsFromServer self.old.vhost result }
        ensures rest { self.new ≡ record self.old { transfers = self.new.transfers } }
    {
        let Some(agreed) = Agreed::read(size, options) else {
            return refuse(self.vhost, OPTIONS_REFUSED, asker, into);
        };
        self.make_room();
        let row = first_row(asker, name, size, &agreed);
        if agreed.answered().is_empty() {
            self.send_next(world, now, row, into)
        } else {
            self.send_options(now, row, &agreed, into)
        }
    }

    // Sends the options that are answered.
    fn send_options(&mut self, now: u64, mut row: Row, agreed: &Agreed, into: &mut [u8]) -> Reply
        requires moment { now ≤ 2 ^ 62 }
        requires room { most_packet ≤ length into.old }
        requires more { row.is_last ≡ false }
        requires few { length self.old.transfers < most_transfers }
        requires fresh { find (is_for row.guest) self.old.transfers ≡ None }
        ensures serves { IsServed now (sends now false (options_octets agreed.now) (transfer_of self.old.folder row) self.old.transfers) self.new.transfers
            (said_by result into.new) [] }
        ensures from { IsFromServer self.old.vhost result }
        ensures rest { self.new ≡ record self.old { transfers = self.new.transfers } }
    {
        row.packet = options_packet(agreed);
        self.send(now, row, into)
    }

    // An acknowledgement of the block that was sent last brings the next one, or ends the transfer.
    fn acknowledge<W: World>(
        &mut self,
        world: &mut W,
        now: u64,
        guest: Endpoint,
        block: u16,
        into: &mut [u8],
    ) -> Reply
        requires moment { now ≤ 2 ^ 62 }
        requires room { most_packet ≤ length into.old }
        ensures serves { Makes (W.tells world.old) (W.tells world.new)
            (IsServed now (acknowledged now block (find (is_for guest) self.old.transfers) self.old.transfers) self.new.transfers (said_by result into.new)) }
        ensures from { IsFromServer self.old.vhost result }
        ensures rest { self.new ≡ record self.old { transfers = self.new.transfers } }
    {
        let Some(row) = self.take_acknowledged(guest, block) else {
            return Reply::Nothing;
        };
        if row.is_last {
            return Reply::Nothing;
        }
        self.send_next(world, now, row, into)
    }

    // Reads the next block of a file, and sends it.
    fn send_next<W: World>(
        &mut self,
        world: &mut W,
        now: u64,
        mut row: Row,
        into: &mut [u8],
    ) -> Reply
        requires moment { now ≤ 2 ^ 62 }
        requires room { most_packet ≤ length into.old }
        requires more { row.is_last ≡ false }
        requires few { length self.old.transfers < most_transfers }
        requires fresh { find (is_for row.guest) self.old.transfers ≡ None }
        ensures serves { Makes (W.tells world.old) (W.tells world.new)
            (IsServed now (seeks_next now (transfer_of self.old.folder row) self.old.transfers) self.new.transfers (said_by result into.new)) }
        ensures from { IsFromServer self.old.vhost result }
        ensures rest { self.new ≡ record self.old { transfers = self.new.transfers } }
    {
        let place = row.block * row.size as u64;
        let count = (row.length - place).min(row.size as u64) as usize;
        let file = self.file(row.name.as_str());
        if !read_block(world, file.as_str(), place, &mut into[..count]) {
            let asker = Asker {
                guest: row.guest,
                mac: row.mac,
            };
            return refuse(self.vhost, NOT_DEFINED, asker, into);
        }
        self.send_block(now, row, count, into)
    }

    // The next block of a file, so many octets that stand at the front of `into`, goes out.
    fn send_block(&mut self, now: u64, mut row: Row, count: usize, into: &mut [u8]) -> Reply
        requires moment { now ≤ 2 ^ 62 }
        requires room { most_packet ≤ length into.old }
        requires more { row.is_last ≡ false }
        requires whole { count ≡ min (row.length - row.block * row.size) row.size }
        requires few { length self.old.transfers < most_transfers }
        requires fresh { find (is_for row.guest) self.old.transfers ≡ None }
        ensures list { self.new ≡ record self.old {
          transfers =
              (sends_block now (take count into.old) (next_of self.old.folder row) self.old.transfers).files.transfers;
        } }
        ensures says { said_by result into.new ≡ (sends_block now (take count into.old) (next_of self.old.folder row) self.old.transfers).told }
        ensures from { IsFromServer self.old.vhost result }
    {
        row.packet = block_packet(row.block + 1, &into[..count]);
        row.block += 1;
        row.is_last = count < row.size as usize;
        self.send(now, row, into)
    }

    // The file of a name in the folder.
    fn file(&self, name: &str) -> ArrayString<1280>
        requires { length name.now ≤ 255 }
        ensures { result.bytes ≡ file_in (folder_octets self.now.folder) name.now }
    {
        let mut file = ArrayString::new();
        if let Some(folder) = &self.folder {
            file.push_str(folder.as_str());
        }
        file.push_str("/");
        file.push_str(name);
        file
    }
}

// A transfer of which nothing was sent yet.
fn first_row(asker: Asker, name: &str, size: u64, agreed: &Agreed) -> Row
    requires { length name.now ≤ 255 }
    ensures row { (folder : Option (List ℕ)) (options : List (List ℕ × List ℕ))
        → transfer_of folder result ≡ transfer size (record {
          guest = asker.guest;
          mac = asker.mac.0;
          file = file_in (folder_octets folder) name.now;
          options = options;
        }) agreed.now }
    ensures guest { result.guest ≡ asker.guest }
    ensures more { result.is_last ≡ false }
{
    let mut text = ArrayString::new();
    text.push_str(name);
    Row {
        guest: asker.guest,
        mac: asker.mac,
        name: text,
        length: size,
        size: agreed.size(),
        timeout: agreed.timeout(),
        block: 0,
        is_last: false,
        packet: ArrayVec::new(),
        again: 0,
        due: 0,
    }
}

// The guest is told an error.
fn refuse(vhost: Ip4, code: u16, asker: Asker, into: &mut [u8]) -> Reply
    requires { most_packet ≤ length into.old }
    ensures says { said_by result into.new ≡ Some (record { mac = asker.mac.0; guest = asker.guest; octets = error_octets code }) }
    ensures from { IsFromServer vhost.0 result }
{
    tell(
        vhost,
        asker.guest,
        asker.mac,
        error_packet(code).as_slice(),
        into,
    )
}

// Reads octets of a file from a place on until the block is whole. False where they end before, or can't be read.
fn read_block<W: World>(world: &mut W, file: &str, place: u64, block: &mut [u8]) -> bool
    requires some { 0 < length file.now }
    requires fits { length file.now ≤ most_name }
    requires places { place + length block.old < 2 ^ 64 }
    ensures { (now : ℕ) (t : Transfer) (others : List Transfer) → t.file ≡ file.now → place_of t ≡ place → octets_of t ≡ length block.old
        → Makes (W.tells world.old) (W.tells world.new) (ReadsBlock now t others result block.new) }
{
    let mut there = 0;
    while there < block.len() {
        let Io::Done(count) = world.file_read(file, place + there as u64, &mut block[there..])
        else {
            return false;
        };
        there += count;
    }
    true
}
