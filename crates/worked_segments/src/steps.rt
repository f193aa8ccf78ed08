use tcp_connection::HostNews;
use tcp_segment::{ACK, FIN, PSH, RST, SYN};

const URG: u8 = 0x20;

/// What happens to a connection.
#[derive(Clone, Copy)]
pub enum Step {
    Segment(Said),
    /// The host says so many octets.
    Host(u32),
    /// So many octets are written to the host.
    Wrote(u32),
    News(HostNews),
    /// The moment comes.
    At(u32),
    Block,
    Unblock,
}

/// A segment of the guest: what isn't the same for all.
#[derive(Clone, Copy)]
pub struct Said {
    pub flags: u8,
    pub seq: u32,
    pub ack: u32,
    /// How many octets it has, each of which is the letter.
    pub octets: u32,
    pub letter: u8,
    pub window: u16,
    pub mss: Option<u16>,
    pub scale: Option<u8>,
}

impl Step {
    /// Reads a step. `None` where it has no reading.
    pub fn read(text: &str) -> Option<Step> {
        let (word, rest) = head_of(text);
        match word {
            "Connected" => Some(Step::News(HostNews::Connected)),
            "Refused" => Some(Step::News(HostNews::Refused)),
            "Ended" => Some(Step::News(HostNews::Ended)),
            "WriteEnded" => Some(Step::News(HostNews::WriteEnded)),
            "Failed" => Some(Step::News(HostNews::Failed)),
            "block" => Some(Step::Block),
            "unblock" => Some(Step::Unblock),
            "at" => Some(Step::At(rest.parse::<u32>().ok()?)),
            "host" => Some(Step::Host(rest.parse::<u32>().ok()?)),
            "wrote" => Some(Step::Wrote(rest.parse::<u32>().ok()?)),
            _ => Some(Step::Segment(Said::read(word, rest)?)),
        }
    }
}

impl Said {
    /// Reads a segment: its flags, and what stands behind them. `None` where it has no reading.
    fn read(flags: &str, rest: &str) -> Option<Said> {
        let (numbers, words) = head_of(rest);
        let mut said = Said::usual(flags, numbers)?;
        for word in words.split_whitespace() {
            said.take(word)?;
        }
        Some(said)
    }

    /// A segment with these flags and numbers, in which all else is as usual.
    pub fn usual(flags: &str, numbers: &str) -> Option<Said> {
        let (seq, ack) = numbers.split_once('/').unwrap_or((numbers, "0"));
        Some(Said {
            flags: flags_in(flags)?,
            seq: seq.parse::<u32>().ok()?,
            ack: ack.parse::<u32>().ok()?,
            octets: 0,
            letter: b'a',
            window: 65_535,
            mss: None,
            scale: None,
        })
    }

    /// Takes a word of what isn't as usual. `None` where it has no reading.
    pub fn take(&mut self, word: &str) -> Option<()> {
        if let Some(mss) = word.strip_prefix("mss") {
            self.mss = Some(mss.parse::<u16>().ok()?);
        } else if let Some(scale) = word.strip_prefix("ws") {
            self.scale = Some(scale.parse::<u8>().ok()?);
        } else if let Some(window) = word.strip_prefix('w') {
            self.window = window.parse::<u16>().ok()?;
        } else if let Some(octets) = word.strip_prefix('n') {
            self.octets = octets.parse::<u32>().ok()?;
        } else {
            self.letter = word.strip_prefix('b')?.bytes().next()?;
        }
        Some(())
    }
}

/// The first word of a text, and what stands behind it.
pub fn head_of(text: &str) -> (&str, &str) {
    text.split_once(' ').unwrap_or((text, ""))
}

fn flags_in(text: &str) -> Option<u8> {
    let mut flags = 0;
    if text == "none" {
        return Some(flags);
    }
    for letter in text.bytes() {
        flags |= match letter {
            b'S' => SYN,
            b'A' => ACK,
            b'F' => FIN,
            b'R' => RST,
            b'P' => PSH,
            b'U' => URG,
            _ => return None,
        };
    }
    Some(flags)
}
