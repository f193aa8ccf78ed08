// What news of the host change.
ghost use Rattle.std.specs.Prelude.{◌≡◌, ◌-◌, ◌/◌, ◌^◌, ◌≤◌, true};
ghost use Rattle.sock_buffers.specs.Downward.{Downward};
ghost use Rattle.tcp_receive.specs.Received.{next_number};
ghost use Rattle.tcp_transmit.specs.Transmission.{Feeds};
ghost use Rattle.tcp_connection.specs.Connection.{has_gone};
ghost use Rattle.tcp_connection.specs.Hosts.{connected_by, host_ended as host_ended_by, over_by, reset as reset_of};

use crate::{Conn, Stage};
use seq_space::Seq;

impl Conn {
    /// The socket has connected.
    pub(crate) fn connect(&mut self)
        ensures { self.new ≡ connected_by self.old.stage self.old }
    {
        match self.stage {
            Stage::Connecting => {
                self.stage = Stage::SynReceived;
                self.syn_owed = true;
            }
            Stage::SynSent
            | Stage::SynReceived
            | Stage::Synchronized
            | Stage::TimeWait
            | Stage::Resets { .. }
            | Stage::Closed => {}
        }
    }

    /// The host ended its stream.
    pub(crate) fn end_host(&mut self, now: u64)
        requires { now ≤ 2 ^ 62 }
        ensures connection { self.new ≡ host_ended_by self.old now }
        ensures feeds { (down : Downward) → Feeds self.old.transmission down → Feeds self.new.transmission down }
    {
        if self.host_is_open() {
            self.transmit.ended(now);
        }
    }

    /// The connection is over, and owes its guest a reset.
    pub(crate) fn reset(&mut self)
        ensures { self.new ≡ reset_of self.old }
    {
        self.stage = self.stage_over();
    }

    pub(crate) fn stage_over(&self) -> Stage
        ensures { result ≡ over_by self.now.stage self.now }
    {
        let expected = self.receive.expected();
        let next = self.transmit.next_number();
        let syn_is_out = self.sendings.has_gone();
        match self.stage {
            Stage::Connecting => Stage::Resets {
                seq: Seq(0),
                ack: expected,
            },
            Stage::SynSent => {
                if syn_is_out {
                    Stage::Resets {
                        seq: next,
                        ack: Seq(0),
                    }
                } else {
                    Stage::Closed
                }
            }
            Stage::SynReceived => Stage::Resets {
                seq: if syn_is_out { next } else { Seq(0) },
                ack: expected,
            },
            Stage::Synchronized => Stage::Resets {
                seq: next,
                ack: expected,
            },
            Stage::TimeWait | Stage::Resets { .. } | Stage::Closed => self.stage,
        }
    }
}
