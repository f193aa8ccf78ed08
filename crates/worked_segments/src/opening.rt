ghost use Rattle.std.specs.Prelude.{ℕ, ◌≤◌, []};
ghost use Rattle.sock_buffers.specs.Downward.{downward};
ghost use Rattle.sock_buffers.specs.Upward.{empty};
ghost use Rattle.tcp_connection.specs.Connection.{HasBuffers};

use crate::steps::{Said, head_of};
use seq_space::Seq;
use tcp_connection::Conn;
use tcp_segment::mss_of;

/// How a connection is opened.
#[derive(Clone, Copy)]
pub struct Opening {
    /// The guest's SYN, where the guest opens it.
    syn: Option<Said>,
    /// The number of our SYN.
    ours: u32,
    /// The size of the buffer of the guest's octets, and of the host's.
    pub ring: u32,
    pub host: u32,
    /// The most octets of a datagram on the link.
    mtu: u16,
    /// Whether there is a congestion window.
    pub congestion: bool,
    /// Whether the link takes nothing at first.
    pub is_blocked: bool,
}

impl Opening {
    /// Reads how a connection is opened. `None` where it has no reading.
    pub fn read(text: &str) -> Option<Opening> {
        let (first, rest) = head_of(text);
        if first == "accept" {
            return Opening::usual(None).with(rest);
        }
        let (numbers, words) = head_of(rest);
        Opening::usual(Some(Said::usual(first, numbers)?)).with(words)
    }

    // One in which all else is as usual.
    fn usual(syn: Option<Said>) -> Opening {
        Opening {
            syn,
            ours: 250_000,
            ring: 65_535,
            host: 140_000,
            mtu: 1_500,
            congestion: false,
            is_blocked: false,
        }
    }

    // Takes words of what isn't as usual. `None` where one has no reading.
    fn with(mut self, words: &str) -> Option<Opening> {
        for word in words.split_whitespace() {
            self.take(word)?;
        }
        Some(self)
    }

    // Takes a word of what isn't as usual. `None` where it has no reading.
    fn take(&mut self, word: &str) -> Option<()> {
        if word == "blocked" {
            self.is_blocked = true;
        } else if word == "congestion" {
            self.congestion = true;
        } else if let Some(ours) = word.strip_prefix("s=") {
            self.ours = ours.parse::<u32>().ok()?;
        } else if let Some(ring) = word.strip_prefix("ring=") {
            self.ring = ring.parse::<u32>().ok()?;
        } else if let Some(host) = word.strip_prefix("host=") {
            self.host = host.parse::<u32>().ok()?;
        } else if let Some(mtu) = word.strip_prefix("mtu=") {
            self.mtu = mtu.parse::<u16>().ok()?;
        } else {
            self.syn.as_mut()?.take(word)?;
        }
        Some(())
    }

    /// A new connection that is opened so, to the guest or by the guest's SYN.
    pub fn connection(&self) -> Conn
        ensures { (size : ℕ) → HasBuffers result (empty self.now.ring) (downward [] 0 size) }
    {
        let link = most_by(self.mtu);
        match &self.syn {
            None => Conn::to_guest(Seq(self.ours), link, self.ring, self.congestion),
            Some(syn) => {
                let most = link.min(mss_of(syn.mss));
                Conn::from_guest(
                    Seq(syn.seq),
                    Seq(self.ours),
                    most,
                    syn.scale,
                    self.ring,
                    self.congestion,
                )
            }
        }
    }
}

// The most octets of a piece that the link lets through.
fn most_by(mtu: u16) -> u16
    ensures low { 64 ≤ result }
    ensures high { result ≤ 1460 }
{
    mtu.min(1_500).max(104) - 40
}
