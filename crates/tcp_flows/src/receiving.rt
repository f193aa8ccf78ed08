// A segment comes to its flow; what becomes of one without a flow is decided once, by the policy and by the room that is left (RFC 9293, 3.10.7.1 and 3.10.7.2).
ghost use Rattle.std.specs.Prelude.{◌≡◌, ℕ, ◌+◌, ◌^◌, ◌<◌, ◌≤◌, length, slice_get, Some};
ghost use Rattle.flow_splice.specs.Splice.{Splice};
ghost use Rattle.flow_table.specs.Slots.{NoneHas};
ghost use Rattle.host_policy.specs.Targets.{target};
ghost use Rattle.slirp_settings.specs.declared.Proto.TheVariants.{Tcp as OverTcp};
ghost use Rattle.spec_flows.specs.SegmentVerdicts.{is_opening, verdict_by_policy};
ghost use Rattle.sim_flows.specs.Stands.{verdict_without_flow};
ghost use Rattle.spec_flows.specs.Segments.{segment_of};
ghost use Rattle.tcp_segment.specs.Tcp.{tcp_of};
ghost use Rattle.world_face.specs.Tells.{Makes};
ghost use Rattle.tcp_flows.specs.declared.receiving.Received.TheVariants.{Opened};
ghost use Rattle.tcp_flows.specs.Receiving.{verdict_of_stray, on_of};

use crate::flows::TcpFlows;
use crate::guest::Heard;
use host_policy::{Policy, Verdict};
use net_octets::{Endpoint, Mac};
use slirp_settings::Proto;
use spec_flows::Tuple;
use tcp_segment::TcpView;
use world_face::{Made, World};

/// A segment of a guest: the hardware address from which its frame came, the two ends between which it goes, and the segment.
#[derive(Clone, Copy)]
pub struct SegmentView<'a> {
    pub mac: Mac,
    pub ends: Tuple,
    pub segment: TcpView<'a>,
}

/// What became of a segment.
#[derive(Clone, Copy, Debug, PartialEq, Eq)]
pub enum Received {
    /// Nothing is owed for it: its flow took it, it is ignored, or a flow gives way to it.
    Settled,
    /// It is to be answered by a reset, as one without a flow.
    TurnedAway,
    /// The host connects for it on a new socket, and its flow begins.
    Opened,
    /// The host didn't connect on a new socket, and it is to be answered by a reset.
    Refused,
}

/// What becomes of a segment without a flow.
#[derive(Clone, Copy, Debug, PartialEq, Eq)]
pub enum StrayVerdict {
    /// Nothing.
    Dropped,
    /// It is answered by a reset.
    Reset,
    /// The host is to connect to this endpoint.
    Connects(Endpoint),
    /// The host would connect, but each place for a flow is in use.
    Crowded,
}

impl TcpFlows {
    ghost use Rattle.sim_flows.specs.Core.{number_of};
    ghost use Rattle.tcp_flows.specs.Receiving.{Becomes, HasGrown, Receives, has_room};
    ghost use Rattle.tcp_flows.specs.Reading.{Stays};

    /// A segment of a guest came. Its flow takes it, where it has one. Else one with RST or to many is ignored; a SYN that the policy lets out has the host connect
    /// on a socket with this number, and its flow begins, or, where each place is in use, one that is quiet for long gives way; any other is to be answered by a reset.
    pub fn receive<W: World>(
        &mut self,
        world: &mut W,
        policy: &Policy,
        now: u64,
        came: &SegmentView<'_>,
        number: u64,
    ) -> Received
        requires now { now ≤ 2 ^ 62 }
        requires body { length came.now.segment.body.now ≤ 65535 }
        requires above { (k : ℕ) (p : Splice) → slice_get self.old.flows.slots k ≡ Some (Some p) → number_of p < number }
        requires count { self.old.flows.opened + 1 < 2 ^ 64 }
        ensures makes { Makes (W.tells world.old) (W.tells world.new)
            (Receives result policy.now now number self.old self.new (on_of came.now) came.now.mac (tcp_of came.now.segment)) }
        ensures stays { (result ≡ Opened → ⊥) → Stays self.old self.new }
        ensures grown { result ≡ Opened → HasGrown number self.old self.new }
        ensures turn { self.new.turn ≡ self.old.turn }
        ensures served { self.new.served ≡ self.old.served }
    {
        match self.take_segment(world, now, &came.ends, &came.segment) {
            Heard::Taken => Received::Settled,
            Heard::Strange => Received::TurnedAway,
            Heard::Alone => self.receive_stray(world, policy, now, came, number),
        }
    }

    // A segment without a flow came.
    fn receive_stray<W: World>(
        &mut self,
        world: &mut W,
        policy: &Policy,
        now: u64,
        came: &SegmentView<'_>,
        number: u64,
    ) -> Received
        requires now { now ≤ 2 ^ 62 }
        requires none { NoneHas self.old.flows.table.slots came.now.ends }
        requires above { (k : ℕ) (p : Splice) → slice_get self.old.flows.slots k ≡ Some (Some p) → number_of p < number }
        requires count { self.old.flows.opened + 1 < 2 ^ 64 }
        ensures makes { Makes (W.tells world.old) (W.tells world.new)
            (Becomes result policy.now now number self.old self.new (on_of came.now) came.now.mac (tcp_of came.now.segment)) }
        ensures stays { (result ≡ Opened → ⊥) → Stays self.old self.new }
        ensures grown { result ≡ Opened → HasGrown number self.old self.new }
        ensures turn { self.new.turn ≡ self.old.turn }
        ensures served { self.new.served ≡ self.old.served }
    {
        match self.segment_verdict(policy, came) {
            StrayVerdict::Dropped => Received::Settled,
            StrayVerdict::Reset => Received::TurnedAway,
            StrayVerdict::Crowded => {
                self.give_way(world, now);
                Received::Settled
            }
            StrayVerdict::Connects(to) => match world.connect(number, to) {
                Made::Done => {
                    self.begin(now, &came.ends, number, came.mac, &came.segment);
                    Received::Opened
                }
                Made::Failed => Received::Refused,
            },
        }
    }

    // What becomes of a segment that is no flow's: one with RST or to many is ignored; a SYN connects where the policy allows it and there is room.
    fn segment_verdict(&self, policy: &Policy, came: &SegmentView<'_>) -> StrayVerdict
        ensures { verdict_of_stray result ≡ verdict_without_flow policy.now (has_room self.now) (on_of came.now) }
    {
        if came.segment.is_rst() || policy.is_of_many(came.ends.other.addr) {
            StrayVerdict::Dropped
        } else if is_opening(&came.segment) {
            self.verdict_of_opening(policy, came.ends.other)
        } else {
            StrayVerdict::Reset
        }
    }

    // What becomes of a SYN to this endpoint.
    fn verdict_of_opening(&self, policy: &Policy, to: Endpoint) -> StrayVerdict
        ensures { verdict_of_stray result ≡ verdict_by_policy (target policy.now OverTcp to) (has_room self.now) }
    {
        match policy.target(Proto::Tcp, to) {
            Verdict::Go(to) if self.has_room() => StrayVerdict::Connects(to),
            Verdict::Go(_) => StrayVerdict::Crowded,
            Verdict::Denied(_) => StrayVerdict::Reset,
        }
    }
}

// SYN, and none of ACK, RST and FIN.
fn is_opening(segment: &TcpView<'_>) -> bool
    ensures { result ≡ is_opening (segment_of (tcp_of segment.now)) }
{
    segment.is_syn() && !segment.is_ack() && !segment.is_rst() && !segment.is_fin()
}
