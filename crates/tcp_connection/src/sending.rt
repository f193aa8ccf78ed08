// What goes out, and when.
ghost use Rattle.std.specs.Prelude.{◌≡◌, ◌^◌, ◌≤◌, if◌then◌else◌, IsSome, Some};
ghost use Rattle.sock_buffers.specs.Downward.{Downward};
ghost use Rattle.sock_buffers.specs.Upward.{Upward};
ghost use Rattle.tcp_transmit.specs.Transmission.{Feeds};
ghost use Rattle.tcp_connection.specs.Connection.{HasBuffers};
ghost use Rattle.tcp_connection.specs.Owing.{ack_if, after_gone, change_gone, gone as gone_by, head_of, owed_of, syn_gone as syn_gone_by, told as told_by};
ghost use Rattle.tcp_connection.specs.Timing.{again as again_by, change_expiring, due_of, expired as expired_by, is_spent};

use crate::windows::{field, least_shift};
use crate::{Change, Conn, Head, Owed, Stage};
use seq_space::Seq;
use sock_buffers::{Down, Up};

impl Conn {
    /// What is to be sent next, one thing at a time. `None` exactly where nothing is owed.
    pub fn owed(&self, up: &Up, down: &Down) -> Option<Owed>
        requires buffers { HasBuffers self.now up.now down.now }
        ensures owed { result ≡ owed_of self.now up.now down.now }
    {
        match self.stage {
            Stage::Connecting | Stage::Closed => None,
            Stage::SynSent => self.syn_owed.then_some(Owed::Syn),
            Stage::SynReceived => {
                if self.syn_owed {
                    Some(Owed::SynAck)
                } else {
                    ack_if(self.ack_owed)
                }
            }
            Stage::TimeWait => ack_if(self.ack_owed),
            Stage::Synchronized => match self.transmit.next_piece(down) {
                Some(piece) => Some(Owed::Data(piece)),
                None => ack_if(self.ack_owed || self.is_update_owed(up)),
            },
            Stage::Resets { seq, ack } => Some(Owed::Reset { seq, ack }),
        }
    }

    /// The link took what `owed` gives in this state. `Finished` where both ends passed with it.
    pub fn sent(&mut self, up: &Up, what: &Owed, now: u64) -> Change
        requires owed { (down : Downward) × HasBuffers self.old up.now down × (owed_of self.old up.now down ≡ Some what.now) }
        requires now { now ≤ 2 ^ 62 }
        ensures change { result ≡ change_gone what.now self.old up.now now }
        ensures connection { self.new ≡ after_gone what.now self.old up.now now }
        ensures buffers { (down : Downward) → HasBuffers self.old up.now down → owed_of self.old up.now down ≡ Some what.now
            → HasBuffers self.new up.now down }
    {
        self.go(up, what, now);
        self.settle()
    }

    /// The numbers, the window field and the window scale of the segment that `owed` names.
    pub fn head(&self, up: &Up, what: &Owed) -> Head
        ensures { result ≡ head_of self.now up.now what.now }
    {
        match what {
            Owed::Syn => Head {
                seq: self.ours,
                ack: Seq(0),
                window: field(0, up.room()),
                scale: Some(least_shift(self.ring)),
            },
            Owed::SynAck => Head {
                seq: self.ours,
                ack: self.receive.expected(),
                window: field(0, up.room()),
                scale: self.scale.is_some().then_some(least_shift(self.ring)),
            },
            Owed::Data(piece) => Head {
                seq: self.transmit.number(piece),
                ack: self.receive.expected(),
                window: field(self.our_shift(), up.room()),
                scale: None,
            },
            Owed::Ack => Head {
                seq: self.transmit.next_number(),
                ack: self.receive.expected(),
                window: field(self.our_shift(), up.room()),
                scale: None,
            },
            Owed::Reset { seq, ack } => Head {
                seq: *seq,
                ack: *ack,
                window: 0,
                scale: None,
            },
        }
    }

    /// What `owed` named went out.
    pub(crate) fn go(&mut self, up: &Up, what: &Owed, now: u64)
        requires owed { (down : Downward) × HasBuffers self.old up.now down × (owed_of self.old up.now down ≡ Some what.now) }
        requires now { now ≤ 2 ^ 62 }
        ensures connection { self.new ≡ gone_by what.now self.old up.now now }
        ensures feeds { (down : Downward) → HasBuffers self.old up.now down → owed_of self.old up.now down ≡ Some what.now
            → Feeds self.new.transmission down }
    {
        match what {
            Owed::Syn => self.syn_goes(now),
            Owed::SynAck => {
                self.syn_goes(now);
                self.tell(up, 0);
            }
            Owed::Data(piece) => {
                let shift = self.our_shift();
                self.tell(up, shift);
                self.transmit.sent(piece, now);
            }
            Owed::Ack => {
                let shift = self.our_shift();
                self.tell(up, shift);
            }
            Owed::Reset { .. } => self.stage = Stage::Closed,
        }
    }

    /// Our SYN or SYN-ACK went out.
    pub(crate) fn syn_goes(&mut self, now: u64)
        requires { now ≤ 2 ^ 62 }
        ensures { self.new ≡ syn_gone_by self.old now }
    {
        self.syn.sent(self.sendings.has_gone(), now);
        self.sendings = self.sendings.once_more();
        self.syn_owed = false;
    }

    /// A segment with an acknowledgement goes out, and tells the room.
    pub(crate) fn tell(&mut self, up: &Up, shift: u8)
        requires { shift ≤ 14 }
        ensures { self.new ≡ told_by self.old up.now shift }
    {
        let edge = self.told_edge(up, shift);
        self.ours_first = self.closes_first();
        self.acknowledged = self.receive.expected();
        self.told = Some(edge);
        self.end_acknowledged |= self.receive.ended();
        self.ack_owed = false;
    }

    /// The timer expired. Nothing changes where the connection is to be given up and an acknowledgement is owed.
    pub(crate) fn expire(&mut self) -> Change
        requires runs { IsSome (due_of self.old) }
        ensures change { result ≡ change_expiring self.old }
        ensures connection { self.new ≡ expired_by self.old }
        ensures buffers { (up : Upward) (down : Downward) → HasBuffers self.old up down → HasBuffers self.new up down }
    {
        if !self.expire_timer() {
            return Change::Nothing;
        }
        if self.ack_owed {
            return Change::Nothing;
        }
        self.reset();
        Change::Finished
    }

    /// The timer expired. True where what it waits for went again eight times, and nothing changes then.
    pub(crate) fn expire_timer(&mut self) -> bool
        requires runs { IsSome (due_of self.old) }
        ensures spent { result ≡ is_spent self.old }
        ensures connection { self.new ≡ (if is_spent self.old then self.old else again_by self.old) }
        ensures feeds { (down : Downward) → Feeds self.old.transmission down → Feeds self.new.transmission down }
    {
        if !self.stage.is_opening() {
            return self.transmit.expired();
        }
        if self.syn.expired() {
            return true;
        }
        self.syn_owed = true;
        false
    }
}

// A segment that acknowledges and carries nothing else, where one is owed.
fn ack_if(owed: bool) -> Option<Owed>
    ensures { result ≡ ack_if owed }
{
    owed.then_some(Owed::Ack)
}
