// One connection of the guest: it sends one piece at a time, and acknowledges what it takes (RFC 9293).
use crate::frames::{MOST_BODY, SERVER};
use crate::pattern::Pattern;
use seq_space::{Seq, ahead};
use tcp_segment::{ACK, FIN, PSH, SYN, TcpView};

/// The port of the first flow.
pub const FIRST_PORT: u16 = 4000;

/// The number of its SYN, from which the numbers soon come round.
const FIRST: u32 = u32::MAX - 999;

/// The most octets of a segment that it takes.
const MOST_TAKEN: u16 = 1460;

/// The octets that it takes at once at any time.
const WINDOW: u16 = 65535;

/// After so many milliseconds what isn't acknowledged is sent again.
const PATIENCE: u64 = 1000;

/// A connection. Its numbers are counted from that of its SYN, which is 0; its octets follow, and its FIN is the last.
#[derive(Clone, Copy)]
pub struct Flow {
    /// The guest's port.
    pub port: u16,
    /// How many octets it sends in all.
    pub octets: u32,
    /// How many numbers are acknowledged, and how many are under way after them.
    pub acknowledged: u32,
    pub under_way: u32,
    /// How many octets the other side takes.
    pub window: u16,
    /// The number that is expected next, once the other side's SYN came.
    pub expected: Seq,
    /// How many octets it took.
    pub taken: u32,
    /// Whether the other side's FIN was taken.
    pub end_taken: bool,
    /// Whether the other side reset it.
    pub reset: bool,
    /// When it sends next, while it has something to send.
    pub due: Option<u64>,
}

/// What is to be sent after a segment came.
#[derive(Clone, Copy)]
pub enum Owed {
    Nothing,
    /// A segment without octets that acknowledges what came.
    Word,
    /// The next piece, which acknowledges too.
    Piece,
}

/// What came of a segment: what is owed for it, and from which place on its octets come next. Past its end none do.
#[derive(Clone, Copy)]
pub struct Came {
    pub owed: Owed,
    pub from: usize,
}

impl Flow {
    /// One that sends so many octets, and is due to begin at once.
    pub fn new(port: u16, octets: u32) -> Flow {
        Flow {
            port,
            octets,
            acknowledged: 0,
            under_way: 0,
            window: 0,
            expected: Seq(0),
            taken: 0,
            end_taken: false,
            reset: false,
            due: Some(0),
        }
    }

    /// Whether the guest is done with it.
    pub fn is_over(&self) -> bool {
        self.reset || self.end_taken && self.is_all_acknowledged()
    }

    fn is_all_acknowledged(&self) -> bool {
        self.acknowledged >= self.octets.saturating_add(2)
    }

    /// Whether it has a piece to send at this moment.
    pub fn is_due(&self, now: u64) -> bool {
        matches!(self.due, Some(due) if due <= now)
    }

    /// The piece that begins at the first number that isn't acknowledged. It is sent again after a second, shorter where the window shrank
    /// meanwhile. None once all is acknowledged or the connection was reset.
    pub fn piece<'a>(&mut self, now: u64, pattern: &'a Pattern) -> Option<TcpView<'a>> {
        if self.reset || self.is_all_acknowledged() {
            self.due = None;
            return None;
        }
        self.due = Some(now.saturating_add(PATIENCE));
        let (flags, count) = self.next();
        self.under_way = self.under_way.max(count.max(1));
        let body = pattern.part(self.acknowledged.saturating_sub(1), count as usize)?;
        Some(self.segment(self.acknowledged, flags, body))
    }

    // The flags of the piece that is sent next, and how many octets it has: a SYN and a FIN have none.
    fn next(&self) -> (u8, u32) {
        if self.acknowledged == 0 {
            return (SYN, 0);
        }
        let left = self.octets.saturating_sub(self.acknowledged - 1);
        if left == 0 {
            return (FIN | ACK, 0);
        }
        let most = u32::from(self.window).clamp(1, MOST_BODY as u32);
        (PSH | ACK, left.min(most))
    }

    /// An acknowledgement alone. Its number is the one after what is under way.
    pub fn word(&self) -> TcpView<'static> {
        self.segment(self.acknowledged.wrapping_add(self.under_way), ACK, &[])
    }

    // A segment whose number comes so many after that of the SYN.
    fn segment<'a>(&self, count: u32, flags: u8, body: &'a [u8]) -> TcpView<'a> {
        TcpView {
            from_port: self.port,
            to_port: SERVER.port,
            seq: number_of(count),
            ack: self.expected,
            flags,
            window: WINDOW,
            mss: (flags == SYN).then_some(MOST_TAKEN),
            scale: None,
            body,
        }
    }

    /// Takes a segment of the other side (RFC 9293, 3.10.7).
    pub fn take_segment(&mut self, segment: &TcpView<'_>) -> Came {
        if self.reset {
            return nothing(Owed::Nothing);
        }
        if self.acknowledged == 0 {
            return nothing(self.take_first(segment));
        }
        self.take_later(segment)
    }

    // While its SYN isn't acknowledged (3.10.7.3).
    fn take_first(&mut self, segment: &TcpView<'_>) -> Owed {
        let acknowledges = self.under_way == 1 && segment.ack == number_of(1);
        if !segment.is_ack() || !acknowledges {
            return Owed::Nothing;
        }
        if segment.is_rst() {
            self.end();
            return Owed::Nothing;
        }
        if !segment.is_syn() {
            return Owed::Nothing;
        }
        self.expected = Seq(segment.seq.0.wrapping_add(1));
        self.window = segment.window;
        self.advance(1);
        Owed::Piece
    }

    // Once both sides have begun (3.10.7.4).
    fn take_later(&mut self, segment: &TcpView<'_>) -> Came {
        if segment.is_rst() {
            nothing(self.take_reset(segment.seq))
        } else if segment.is_syn() {
            nothing(Owed::Word)
        } else if segment.is_ack() {
            self.take_acknowledgement(segment)
        } else {
            nothing(Owed::Nothing)
        }
    }

    // A reset with this number: one that comes next ends it, another in the window is asked about.
    fn take_reset(&mut self, number: Seq) -> Owed {
        let distance = ahead(number, self.expected);
        if distance == 0 {
            self.end();
            Owed::Nothing
        } else if distance > 0 && distance < i32::from(WINDOW) {
            Owed::Word
        } else {
            Owed::Nothing
        }
    }

    // A segment that acknowledges, and may bring octets. An old one acknowledges nothing, and tells no window.
    fn take_acknowledgement(&mut self, segment: &TcpView<'_>) -> Came {
        let moved = segment.ack.0.wrapping_sub(number_of(self.acknowledged).0);
        if moved.cast_signed() < 0 {
            return self.take_octets(segment);
        }
        if moved > self.under_way {
            return nothing(Owed::Word);
        }
        self.window = segment.window;
        if moved == 0 {
            return self.take_octets(segment);
        }
        self.advance(moved);
        let came = self.take_octets(segment);
        if self.is_all_acknowledged() {
            came
        } else {
            Came {
                owed: Owed::Piece,
                ..came
            }
        }
    }

    // Takes the octets that come next, and the end after them.
    fn take_octets(&mut self, segment: &TcpView<'_>) -> Came {
        let size = segment.body.len();
        let past = self.expected.0.wrapping_sub(segment.seq.0) as usize;
        let fits = past <= size && !self.end_taken;
        let from = if fits { past } else { size };
        self.go_on(size - from, fits && segment.is_fin());
        let owed = if size > 0 || segment.is_fin() || past != 0 {
            Owed::Word
        } else {
            Owed::Nothing
        };
        Came { owed, from }
    }

    // So many octets came next, and the end after them or not.
    fn go_on(&mut self, count: usize, ends: bool) {
        let count = u32::try_from(count).unwrap_or(u32::MAX);
        self.taken = self.taken.wrapping_add(count);
        let passed = count.wrapping_add(u32::from(ends));
        self.expected = Seq(self.expected.0.wrapping_add(passed));
        self.end_taken = self.end_taken || ends;
    }

    // So many numbers more are acknowledged.
    fn advance(&mut self, count: u32) {
        self.acknowledged = self.acknowledged.saturating_add(count);
        self.under_way = self.under_way.saturating_sub(count);
        self.due = None;
    }

    // The other side gave it up.
    fn end(&mut self) {
        self.reset = true;
        self.due = None;
    }
}

// The number that comes so many after that of the SYN.
fn number_of(count: u32) -> Seq {
    Seq(FIRST.wrapping_add(count))
}

// A segment that brings no octets.
fn nothing(owed: Owed) -> Came {
    Came {
        owed,
        from: usize::MAX,
    }
}
