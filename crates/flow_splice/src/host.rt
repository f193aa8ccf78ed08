// The calls on the host's socket: whether it connected, what it takes, and what it gives.
ghost use Rattle.std.specs.Prelude.{◌≡◌, ℕ, ◌+◌, ◌-◌, ◌^◌, ◌<◌, ◌≤◌, List, ◌∷◌, [], length, take, min, nat_lt, true, false, if◌then◌else◌};
ghost use Rattle.sock_buffers.specs.Upward.{Upward};
ghost use Rattle.tcp_connection.specs.Connection.{HasBuffers};
ghost use Rattle.tcp_connection.specs.Hosts.{connected_by, host_ended, is_open as is_host_open, reset, write_ended};
ghost use Rattle.tcp_connection.specs.Segments.{settled, settling};
ghost use Rattle.tcp_connection.specs.declared.Change.{Change as Changes};
ghost use Rattle.tcp_transmit.specs.Transmission.{octets_read};
ghost use Rattle.world_face.specs.Journal.{TcpRead, TcpWrite, Close, count_of};
ghost use Rattle.world_face.specs.Tells.{Answers, Makes};
ghost use Rattle.sim_connection.specs.Holding.{is_at_connecting, without};
ghost use Rattle.flow_splice.specs.Hosts.{IsRead, gives_octets};

use crate::Spliced;
use crate::guest::later_if;
use crate::scratch::Scratch;
use rules_flow::{HostWork, host_work};
use sock_buffers::Down;
use tcp_connection::{Change, Conn, HostNews};
use world_face::{Io, Joined, MOST_TO_FLOW, Made, World};

impl Spliced {
    ghost use Rattle.flow_splice.specs.Splice.{closed, is_open as is_open_by};
    ghost use Rattle.flow_splice.specs.Serves.{GoesOn};
    ghost use Rattle.flow_splice.specs.Hosts.{PassesEnd, ReadsOn, ServesReport, is_for_reading, serves_write, some_is};
    ghost use Rattle.flow_splice.specs.Stays.{Stays, StaysButRead, StaysButServed, StaysButWritten};
    ghost use Rattle.flow_splice.specs.Shapes.{IsHostWork, is_ending, is_reading, is_writing};
    ghost use Rattle.flow_splice.specs.Wants.{may_end, owes_octets as owes_octets_by, reads, writes};

    /// The host's socket was reported ready, for reading, for writing or for both. It is asked whether it connected, or gets octets, and the guest's end
    /// where no octet is left before it; and then what it has is read, as far as there is room. Where a call fails, or both ends passed, the socket is closed.
    /// A direction that wasn't reported isn't served. Octets are read into the scratch, and written from where they stand in one piece, else from it.
    pub fn host_ready<W: World>(
        &mut self,
        world: &mut W,
        scratch: &mut Scratch,
        now: u64,
        read: bool,
        write: bool,
    )
        requires now { now ≤ 2 ^ 62 }
        requires few { octets_read self.old.down + 16384 < 2 ^ 62 }
        // Each direction that was reported is served; reading, unless a call for writing closed the socket before it.
        ensures makes { Makes (W.tells world.old) (W.tells world.new)
            (λ made. GoesOn self.old self.new false now made × IsHostWork read write made × ServesReport read write self.old made) }
        ensures stays { StaysButServed self.old self.new }
        // After a report for writing the guest's end isn't held back in a flow that had connected.
        ensures passes_end { write ≡ true → is_at_connecting self.old.conn.stage ≡ false → PassesEnd self.new }
        ensures closed { is_open_by self.old ≡ false → self.new ≡ self.old }
    {
        self.serve_writing(world, scratch, now, write);
        self.serve_reading(world, scratch, now, read);
    }

    // The socket was reported ready for writing, or not.
    fn serve_writing<W: World>(
        &mut self,
        world: &mut W,
        scratch: &mut Scratch,
        now: u64,
        ready: bool,
    )
        requires now { now ≤ 2 ^ 62 }
        ensures makes { Makes (W.tells world.old) (W.tells world.new)
            (λ made. GoesOn self.old self.new false now made × (is_writing made ≡ true) × (ready ≡ false → made ≡ [])
            × (ready ≡ true → writes self.old ≡ true → some_is (serves_write (is_at_connecting self.old.conn.stage)) made ≡ true) × ReadsOn self.old self.new made) }
        ensures stays { StaysButWritten self.old self.new }
        ensures idle { ready ≡ false → (self.new ≡ self.old) × (W.tells world.new ≡ W.tells world.old) }
        ensures passes_end { ready ≡ true → is_at_connecting self.old.conn.stage ≡ false → PassesEnd self.new }
        ensures closed { is_open_by self.old ≡ false → self.new ≡ self.old }
    {
        if !ready || !self.is_open() {
            return;
        }
        match host_work(self.connects(), self.owes_octets(), self.owes_end()) {
            HostWork::Join => self.connect(world, now),
            HostWork::Octets => self.write(world, scratch, now),
            HostWork::End => self.end(world, now),
            HostWork::Nothing => {}
        }
    }

    // The socket was reported ready for reading, or not.
    fn serve_reading<W: World>(
        &mut self,
        world: &mut W,
        scratch: &mut Scratch,
        now: u64,
        ready: bool,
    )
        requires now { now ≤ 2 ^ 62 }
        requires few { octets_read self.old.down + 16384 < 2 ^ 62 }
        ensures makes { Makes (W.tells world.old) (W.tells world.new)
            (λ made. GoesOn self.old self.new false now made × (is_reading made ≡ true) × (ready ≡ false → made ≡ [])
            × (ready ≡ true → reads self.old ≡ true → some_is is_for_reading made ≡ true)) }
        ensures stays { StaysButRead self.old self.new }
        ensures passes_end { PassesEnd self.old → PassesEnd self.new }
        ensures closed { is_open_by self.old ≡ false → self.new ≡ self.old }
    {
        if ready && self.is_open() && self.may_read() {
            self.read(world, scratch, now);
        }
    }

    // ---- whether it connected

    // Asks the socket whether it has connected.
    fn connect<W: World>(&mut self, world: &mut W, now: u64)
        requires now { now ≤ 2 ^ 62 }
        requires open_yet { is_open_by self.old ≡ true }
        requires connects { is_at_connecting self.old.conn.stage ≡ true }
        ensures makes { Makes (W.tells world.old) (W.tells world.new)
            (λ made. GoesOn self.old self.new false now made × (is_writing made ≡ true) × (some_is (serves_write true) made ≡ true)) }
        ensures stays { Stays self.old self.new }
    {
        match world.connected(self.number) {
            Joined::Yes => self.join(now),
            Joined::NotYet => {}
            Joined::Failed => self.fail(world, now),
        }
    }

    // It has connected.
    fn join(&mut self, now: u64)
        requires now { now ≤ 2 ^ 62 }
        ensures change { self.new ≡ record self.old { conn = connected_by self.old.conn.stage self.old.conn; last = now } }
        ensures buffers { HasBuffers self.new.conn self.new.up self.new.down }
    {
        self.last = now;
        self.conn.on_host(HostNews::Connected, now);
    }

    // ---- a call failed

    // A call on the socket failed: it is closed, and a reset is owed, unless the guest knows of no connection.
    pub(crate) fn fail<W: World>(&mut self, world: &mut W, now: u64)
        requires now { now ≤ 2 ^ 62 }
        ensures closes { Answers (W.tells world.old) (W.tells world.new) (Close self.old.face.number) }
        ensures change { self.new ≡ closed (record self.old { conn = reset self.old.conn }) now }
    {
        self.give_up(now);
        self.close(world, now);
    }

    // The connection is over.
    fn give_up(&mut self, now: u64)
        requires now { now ≤ 2 ^ 62 }
        ensures { self.new ≡ record self.old { conn = reset self.old.conn } }
    {
        self.conn.on_host(HostNews::Failed, now);
    }

    // ---- what it takes

    // Offers octets that are held. Where the host took the last of them, the guest's end follows.
    fn write<W: World>(&mut self, world: &mut W, scratch: &mut Scratch, now: u64)
        requires now { now ≤ 2 ^ 62 }
        requires open_yet { is_open_by self.old ≡ true }
        requires connected { is_at_connecting self.old.conn.stage ≡ false }
        requires owes { owes_octets_by self.old ≡ true }
        ensures makes { Makes (W.tells world.old) (W.tells world.new)
            (λ made. GoesOn self.old self.new false now made × (is_writing made ≡ true) × (some_is (serves_write false) made ≡ true)
            × ReadsOn self.old self.new made) }
        ensures stays { StaysButWritten self.old self.new }
        ensures passes_end { PassesEnd self.new }
    {
        match self.offer(world, scratch, now) {
            Io::Failed => self.fail(world, now),
            Io::Done(_) | Io::End | Io::NotYet => self.end_after_octets(world, now),
        }
    }

    fn offer<W: World>(&mut self, world: &mut W, scratch: &mut Scratch, now: u64) -> Io
        requires now { now ≤ 2 ^ 62 }
        requires some { 0 < length self.old.up.held }
        ensures offers { Answers (W.tells world.old) (W.tells world.new)
            (TcpWrite self.old.face.number (take (min 16384 (length self.old.up.held)) self.old.up.held) result) }
        ensures change { self.new ≡ record self.old {
          up = without self.old.up (count_of result);
          last = if nat_lt 0 (count_of result) then now else self.old.last;
        } }
        ensures few { count_of result ≤ min 16384 (length self.old.up.held) }
        ensures buffers { HasBuffers self.new.conn self.new.up self.new.down }
    {
        let answer = self.write_front(world, scratch);
        self.up.written(answer.count());
        self.last = later_if(answer.count() > 0, now, self.last);
        answer
    }

    // Offers the oldest octets as they stand, where they stand in one piece.
    fn write_front<W: World>(&self, world: &mut W, scratch: &mut Scratch) -> Io
        requires some { 0 < length self.now.up.held }
        ensures offers { Answers (W.tells world.old) (W.tells world.new)
            (TcpWrite self.now.face.number (take (min 16384 (length self.now.up.held)) self.now.up.held) result) }
        ensures few { count_of result ≤ min 16384 (length self.now.up.held) }
    {
        let most = self.up.held().min(MOST_TO_FLOW);
        if let Some(octets) = self.up.front(most) {
            return world.tcp_write(self.number, octets);
        }
        let count = self.up.front_piece(&mut scratch.octets);
        world.tcp_write(self.number, &scratch.octets[..count])
    }

    // Passes on the guest's end, where it was taken and none of its octets is held any more.
    fn end_after_octets<W: World>(&mut self, world: &mut W, now: u64)
        requires now { now ≤ 2 ^ 62 }
        requires open_yet { is_open_by self.old ≡ true }
        requires connected { is_at_connecting self.old.conn.stage ≡ false }
        ensures makes { Makes (W.tells world.old) (W.tells world.new)
            (λ made. GoesOn self.old self.new false now made × (is_ending made ≡ true) × ReadsOn self.old self.new made) }
        ensures stays { Stays self.old self.new }
        ensures passes_end { PassesEnd self.new }
    {
        if !self.owes_octets() && self.owes_end() {
            self.end(world, now);
        }
    }

    // Passes on the guest's end.
    fn end<W: World>(&mut self, world: &mut W, now: u64)
        requires now { now ≤ 2 ^ 62 }
        requires open_yet { is_open_by self.old ≡ true }
        requires connected { is_at_connecting self.old.conn.stage ≡ false }
        requires all { owes_octets_by self.old ≡ false }
        requires ends { may_end self.old ≡ true }
        ensures makes { Makes (W.tells world.old) (W.tells world.new)
            (λ made. GoesOn self.old self.new false now made × (is_ending made ≡ true) × (some_is (serves_write false) made ≡ true)
            × ReadsOn self.old self.new made) }
        ensures stays { Stays self.old self.new }
        ensures passes_end { PassesEnd self.new }
    {
        match world.tcp_end(self.number) {
            Made::Done => {
                let change = self.mark_ended(now);
                self.see(world, now, change);
            }
            Made::Failed => self.fail(world, now),
        }
    }

    // The host was told the guest's end.
    fn mark_ended(&mut self, now: u64) -> Change
        requires now { now ≤ 2 ^ 62 }
        ensures change { result ≡ settling (write_ended self.old.conn) }
        ensures ended { self.new ≡ record self.old {
          conn = settled (write_ended self.old.conn);
          told_end = true;
          last = now;
        } }
        ensures buffers { HasBuffers self.new.conn self.new.up self.new.down }
    {
        self.told_end = true;
        self.last = now;
        self.conn.on_host(HostNews::WriteEnded, now)
    }
}

// What it gives.
impl Spliced {
    ghost use Rattle.flow_splice.specs.Splice.{is_open as is_open_by};
    ghost use Rattle.flow_splice.specs.Serves.{GoesOn};
    ghost use Rattle.flow_splice.specs.Hosts.{PassesEnd, is_for_reading, read_by, some_is};
    ghost use Rattle.flow_splice.specs.Stays.{StaysButRead};
    ghost use Rattle.flow_splice.specs.Shapes.{is_reading};
    ghost use Rattle.flow_splice.specs.Wants.{may_read as may_read_by};

    // Reads octets, as many as there is room for, 16,384 at most.
    fn read<W: World>(&mut self, world: &mut W, scratch: &mut Scratch, now: u64)
        requires now { now ≤ 2 ^ 62 }
        requires open_yet { is_open_by self.old ≡ true }
        requires may { may_read_by self.old ≡ true }
        requires few { octets_read self.old.down + 16384 < 2 ^ 62 }
        ensures makes { Makes (W.tells world.old) (W.tells world.new)
            (λ made. GoesOn self.old self.new false now made × (is_reading made ≡ true) × (some_is is_for_reading made ≡ true)) }
        ensures stays { StaysButRead self.old self.new }
        ensures passes_end { PassesEnd self.old → PassesEnd self.new }
    {
        match self.ask_octets(world, scratch, now) {
            Io::End => self.end_reading(now),
            Io::Failed => self.fail(world, now),
            Io::Done(_) | Io::NotYet => {}
        }
    }

    // Asks for them, and takes those that came.
    fn ask_octets<W: World>(&mut self, world: &mut W, scratch: &mut Scratch, now: u64) -> Io
        requires now { now ≤ 2 ^ 62 }
        requires may { may_read_by self.old ≡ true }
        requires few { octets_read self.old.down + 16384 < 2 ^ 62 }
        ensures read { (octets : List ℕ) × Answers (W.tells world.old) (W.tells world.new)
            (TcpRead self.old.face.number (min 16384 (self.old.down.size - length self.old.down.octets)) result octets)
            × (length octets ≤ min 16384 (self.old.down.size - length self.old.down.octets))
            × (self.new ≡ read_by (gives_octets result) self.old octets now) }
        ensures buffers { HasBuffers self.new.conn self.new.up self.new.down }
        ensures size { self.old.down.size ≡ self.old.up.size }
    {
        let held = self.down.held();
        let answer = read_into(
            world,
            self.number,
            &mut self.conn,
            &mut self.down,
            &mut scratch.octets,
            now,
        );
        self.last = later_if(held < self.down.held(), now, self.last);
        answer
    }

    // The host ended its stream.
    fn end_reading(&mut self, now: u64)
        requires now { now ≤ 2 ^ 62 }
        ensures change { self.new ≡ record self.old { conn = host_ended self.old.conn now; last = now } }
        ensures buffers { HasBuffers self.new.conn self.new.up self.new.down }
    {
        self.last = now;
        self.conn.on_host(HostNews::Ended, now);
    }
}

// Asks a socket for as many octets as there is room for, and takes those that came.
fn read_into<W: World>(
    world: &mut W,
    number: u64,
    conn: &mut Conn,
    down: &mut Down,
    buffer: &mut [u8],
    now: u64,
) -> Io
    requires now { now ≤ 2 ^ 62 }
    requires feeds { (up : Upward) × HasBuffers conn.old up down.old }
    requires yet { is_host_open conn.old.transmission.end ≡ true }
    requires some { 0 < down.old.size - length down.old.octets }
    requires few { octets_read down.old + 16384 < 2 ^ 62 }
    requires size { length buffer.old ≡ 16384 }
    ensures read { (octets : List ℕ) × Answers (W.tells world.old) (W.tells world.new)
        (TcpRead number (min 16384 (down.old.size - length down.old.octets)) result octets)
        × (length octets ≤ min 16384 (down.old.size - length down.old.octets))
        × IsRead (gives_octets result) conn.old down.old octets now conn.new down.new }
    ensures buffers { (up : Upward) → HasBuffers conn.old up down.old → HasBuffers conn.new up down.new }
    ensures size { length buffer.new ≡ 16384 }
{
    let asked = down.room().min(MOST_TO_FLOW);
    let answer = read_part(world, number, buffer, asked);
    if gives_octets(answer) {
        conn.more(down, &buffer[..answer.count()], now);
    }
    answer
}

// Reads from a socket into a part of a buffer.
fn read_part<W: World>(world: &mut W, number: u64, buffer: &mut [u8], asked: usize) -> Io
    requires some { 0 < asked }
    requires fits { asked ≤ length buffer.old }
    ensures read { Answers (W.tells world.old) (W.tells world.new)
        (TcpRead number asked result (take (count_of result) buffer.new)) }
    ensures count { count_of result ≤ asked }
    ensures length { length buffer.new ≡ length buffer.old }
{
    world.tcp_read(number, &mut buffer[..asked])
}

// Whether octets came, or none yet.
fn gives_octets(answer: Io) -> bool
    ensures { result ≡ gives_octets answer }
{
    match answer {
        Io::Done(_) | Io::NotYet => true,
        Io::End | Io::Failed => false,
    }
}
