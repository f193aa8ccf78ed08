use crate::opening::Opening;
use crate::steps::{Said, Step};
use crate::writing::{put_runs, put_segment, put_timer};
use seq_space::Seq;
use sock_buffers::{Down, Up};
use std::alloc::{AllocError, Global};
use std::marker::Model;
use tcp_connection::{Change, Conn, HostNews, Owed, State};
use tcp_segment::TcpView;

/// The moment at which a connection is opened, and the one up to which its socket may connect.
const START: u64 = 1_000;

const CONNECT_LIMIT: u64 = 76_000;

/// So far the counts of octets may come.
const FAR: u64 = 1 << 59;

/// The owner of a connection and its buffers, with a clock and a link. It sees of the connection what its calls answer. A contract sees its moment.
#[derive(Drop)]
pub struct Owner {
    alloc: Global,
    conn: Conn,
    up: Up,
    down: Down,
    moment: u64,
    congestion: bool,
    is_blocked: bool,
    /// What went out.
    out: String,
    /// What became of the connection.
    change: Change,
    /// How many numbers behind our SYN's went out.
    sent: u64,
    fin_is_sent: bool,
    /// Whether the host was told the guest's end.
    end_is_told: bool,
}

impl Model for Owner {
    ghost use Rattle.std.specs.Prelude.{ℕ, ◌≤◌, ◌^◌};
    ghost use Rattle.tcp_connection.specs.Connection.{HasBuffers};

    ghost Value = { ℕ };

    ghost view = { λ o. o.moment };

    ghost invariant = { λ o. HasBuffers o.conn o.up o.down × (o.moment ≤ 2 ^ 62) };
}

impl Owner {
    /// Opens a connection, and sends what it owes.
    pub fn open(alloc: Global, opening: &Opening) -> Result<Owner, AllocError> {
        let conn = opening.connection();
        let up = Up::open(alloc, opening.ring as usize)?;
        let down = Down::open(alloc, opening.host as usize)?;
        let mut owner = Owner {
            alloc,
            conn,
            up,
            down,
            moment: START,
            congestion: opening.congestion,
            is_blocked: opening.is_blocked,
            out: String::new(alloc),
            change: Change::Nothing,
            sent: 0,
            fin_is_sent: false,
            end_is_told: false,
        };
        owner.pump()?;
        Ok(owner)
    }

    /// A step happens, and then all goes out that is owed.
    pub fn take(&mut self, step: &Step) -> Result<(), AllocError> {
        match step {
            Step::Segment(said) => self.receive(said)?,
            Step::Host(count) => {
                self.give(*count)?;
            }
            Step::Wrote(count) => self.write(*count),
            Step::News(news) => self.learn(*news),
            Step::At(moment) => self.wait(*moment),
            Step::Block => self.is_blocked = true,
            Step::Unblock => self.is_blocked = false,
        }
        self.pump()
    }

    /// Forgets what went out and what became of the connection.
    pub fn forget(&mut self) {
        self.out.clear();
        self.change = Change::Nothing;
    }

    /// How many octets of the guest were taken.
    pub fn taken(&self) -> u64 {
        self.up.count().saturating_add(self.up.held() as u64)
    }

    /// The name of what became of the connection, as a case writes it; `Nothing` where nothing did since it was forgotten last.
    pub fn change(&self) -> &'static str {
        match self.change {
            Change::Nothing => "Nothing",
            Change::GuestReset => "GuestReset",
            Change::Finished => "Finished",
            Change::Unfit => "Unfit",
        }
    }

    /// What went out, or `nothing`.
    pub fn out(&self) -> &str {
        if self.out.is_empty() {
            "nothing"
        } else {
            self.out.as_str()
        }
    }
}

// What happens.
impl Owner {
    fn note(&mut self, change: Change) {
        if change != Change::Nothing {
            self.change = change;
        }
    }

    // A segment of the guest arrives.
    fn receive(&mut self, said: &Said) -> Result<(), AllocError> {
        let body = vec![in self.alloc; said.letter; said.octets as usize]?;
        self.say(&TcpView {
            from_port: 4_000,
            to_port: 80,
            seq: Seq(said.seq),
            ack: Seq(said.ack),
            flags: said.flags,
            window: said.window,
            mss: said.mss,
            scale: said.scale,
            body: &body,
        });
        Ok(())
    }

    fn say(&mut self, segment: &TcpView<'_>) {
        let is_far = self.up.count() > FAR
            || self.up.held() as u64 > FAR
            || self.up.room() as u64 > FAR
            || segment.body.len() as u64 > FAR;
        if is_far {
            return;
        }
        let change = self
            .conn
            .on_segment(&mut self.up, &mut self.down, self.moment, segment);
        self.note(change);
    }

    // The host says octets, unless it ended its stream. Answers how many found room.
    fn give(&mut self, count: u32) -> Result<usize, AllocError> {
        let octets = vec![in self.alloc; b'h'; count as usize]?;
        let is_far = self.down.first() > FAR || self.down.held() as u64 > FAR;
        if is_far || !self.conn.host_is_open() {
            return Ok(0);
        }
        Ok(self.conn.more(&mut self.down, &octets, self.moment))
    }

    // Held octets of the guest are written to the host, which is told the end behind them.
    fn write(&mut self, count: u32) {
        self.write_octets(count as usize);
        if self.conn.guest_ended() && self.up.held() == 0 {
            self.learn(HostNews::WriteEnded);
        }
    }

    fn write_octets(&mut self, count: usize) {
        let count = count.min(self.up.held());
        if self.up.count() <= FAR && count as u64 <= FAR {
            self.up.written(count);
        }
    }

    fn learn(&mut self, news: HostNews) {
        self.end_is_told |= news == HostNews::WriteEnded;
        let change = self.conn.on_host(news, self.moment);
        self.note(change);
    }

    // The moment comes.
    fn wait(&mut self, moment: u32) {
        self.moment = u64::from(moment);
        if self.conn.connecting() && self.moment >= CONNECT_LIMIT {
            self.learn(HostNews::Refused);
        }
        let change = self.conn.tick(self.moment);
        self.note(change);
    }
}

// What goes out.
impl Owner {
    // Sends all that is owed, while the link isn't blocked.
    fn pump(&mut self) -> Result<(), AllocError> {
        for _ in 0..10_000 {
            if !self.send()? {
                break;
            }
        }
        Ok(())
    }

    // Sends what is owed next. Answers whether something was.
    fn send(&mut self) -> Result<bool, AllocError> {
        if self.is_blocked {
            return Ok(false);
        }
        let Some(owed) = self.conn.owed(&self.up, &self.down) else {
            return Ok(false);
        };
        let head = self.conn.head(&self.up, &owed);
        let change = self.conn.sent(&self.up, &owed, self.moment);
        self.note(change);
        self.count(&owed);
        put_segment(&mut self.out, self.alloc, &owed, head)?;
        Ok(true)
    }

    // Counts the numbers that went out.
    fn count(&mut self, owed: &Owed) {
        if let Owed::Data(piece) = owed {
            let end = piece.place.saturating_add(piece.length as u64);
            self.sent = self.sent.max(end.saturating_add(u64::from(piece.fin)));
            self.fin_is_sent |= piece.fin;
        }
    }
}

// The state.
impl Owner {
    /// The state, in the words of a case. The edge is `edge` where it can't be seen: past the host's end, with a blocked link or a congestion window,
    /// and where more was sent before. Sends all that the guest's window lets through.
    pub fn state(&mut self, edge: u64, behind: &str) -> Result<String, AllocError> {
        let state = self.conn.state();
        if state == State::Closed {
            return self.closed();
        }
        let (name, taken, sent, acked) = (name_of(state), self.taken(), self.sent, self.acked());
        let rest = self.rest(behind)?;
        let edge = self.edge(edge)?;
        format!(in self.alloc; "{name} ({taken} {sent} {acked} {edge}{rest}")
    }

    // The edge, which is `edge` where nothing else can be seen.
    fn edge(&mut self, edge: u64) -> Result<u64, AllocError> {
        let sent = self.sent;
        let reached = self.reached()?.unwrap_or(edge);
        Ok(if reached == edge.max(sent) {
            edge
        } else {
            reached
        })
    }

    fn closed(&self) -> Result<String, AllocError> {
        let text = match self.conn.owed(&self.up, &self.down) {
            None => "CLOSED",
            Some(_) => "CLOSED, with something owed",
        };
        text.to_string(self.alloc)
    }

    // How many numbers behind our SYN's are acknowledged. The FIN is where it went out and no timer runs.
    fn acked(&self) -> u64 {
        let fin = self.fin_is_sent && self.conn.due().is_none();
        self.down.first().saturating_add(u64::from(fin))
    }

    // Which of the ends passed.
    fn ends(&self) -> Result<String, AllocError> {
        let mut ends = String::new(self.alloc);
        for (passed, letter) in [
            (self.conn.guest_ended(), 'G'),
            (!self.conn.host_is_open(), 'R'),
            (self.fin_is_sent, 'S'),
            (self.end_is_told, 'W'),
        ] {
            if passed {
                ends.push_str(if ends.is_empty() { " " } else { "" })?;
                ends.push(letter)?;
            }
        }
        Ok(ends)
    }

    // What stands behind the numbers: which ends passed, and what is behind the brackets.
    fn rest(&self, wanted: &str) -> Result<String, AllocError> {
        let mut text = self.ends()?;
        text.push(')')?;
        self.put_behind(&mut text, wanted)?;
        Ok(text)
    }

    // What stands behind the brackets where that stands there in a case.
    fn put_behind(&self, text: &mut String, wanted: &str) -> Result<(), AllocError> {
        if wanted.contains("timer") {
            put_timer(text, self.alloc, self.until())
        } else if wanted.contains("holds") {
            self.put_held(text)
        } else {
            Ok(())
        }
    }

    // The moment until which the connection waits: for its socket, or for its timer.
    fn until(&self) -> Option<u64> {
        if self.conn.connecting() {
            Some(CONNECT_LIMIT)
        } else {
            self.conn.due()
        }
    }

    fn put_held(&self, text: &mut String) -> Result<(), AllocError> {
        let mut octets = [0; 64];
        let count = self.up.front_piece(&mut octets);
        put_runs(text, self.alloc, &octets, count)
    }

    // How many numbers went out once the host's octets fill the guest's window. `None` where that can't be seen.
    fn reached(&mut self) -> Result<Option<u64>, AllocError> {
        if !self.conn.host_is_open() || self.is_blocked || self.congestion {
            return Ok(None);
        }
        for _ in 0..1_000 {
            if self.give(16_384)? == 0 {
                break;
            }
            self.pump()?;
        }
        Ok(Some(self.sent))
    }
}

fn name_of(state: State) -> &'static str {
    match state {
        State::Connecting => "Connecting",
        State::SynSent => "SYN-SENT",
        State::SynReceived => "SYN-RECEIVED",
        State::Established => "ESTABLISHED",
        State::FinWait1 => "FIN-WAIT-1",
        State::FinWait2 => "FIN-WAIT-2",
        State::CloseWait => "CLOSE-WAIT",
        State::Closing => "CLOSING",
        State::LastAck => "LAST-ACK",
        State::TimeWait => "TIME-WAIT",
        State::Closed => "CLOSED",
    }
}
