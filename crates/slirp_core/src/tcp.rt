// Segments of TCP go to the flows, and reports of their sockets; what is turned away there is answered by a reset (RFC 9293, 3.10.7).
ghost use Rattle.std.specs.Prelude.{[], ◌≡◌, ◌≤◌, ◌+◌, ◌<◌, ◌%◌, ◌^◌, ◌∷◌, List, ℕ, length, nat_lt, true, false, Some, None, IfSome};
ghost use Rattle.std.specs.Option.{option_map};
ghost use Rattle.ipv4_head.specs.Ip.{Ip, ip_of};
ghost use Rattle.tcp_segment.specs.Tcp.{numbers_of, read_tcp, tcp_of};
ghost use Rattle.spec_flows.specs.SegmentVerdicts.{reset_to};
ghost use Rattle.spec_flows.specs.Segments.{segment_of};
ghost use Rattle.slirp_settings.specs.Addresses.{Config};
ghost use Rattle.slirp_core.specs.Packets.{is_segment};
ghost use Rattle.slirp_core.specs.Segments.{coming, coming_of};
ghost use Rattle.net_octets.specs.Sizes.{most_carried};

use crate::network::Slirp;
use host_policy::Policy;
use ipv4_head::IpView;
use net_octets::{Endpoint, Mac, TCP_PROTO};
use seq_space::Seq;
use spec_flows::Tuple;
use tcp_flows::{Received, SegmentView};
use tcp_segment::{ACK, RST, TcpView};
use world_face::World;

impl Slirp {
    ghost use Rattle.spec_run.specs.Answers.{frames_of, reset_for};
    ghost use Rattle.slirp_core.specs.Counts.{AreGrown};
    ghost use Rattle.slirp_core.specs.Holds.{Standing, Holds, Comes, flowing, standing};
    ghost use Rattle.slirp_core.specs.Marks.{KeepsMarks};
    ghost use Rattle.slirp_core.specs.NextFlow.{IsNextFlow};
    ghost use Rattle.spec_flows.specs.Book.{book};
    ghost use Rattle.stream_netdev.specs.State.{LinkState};
    ghost use Rattle.world_face.specs.Tells.{Brings};
    ghost use Rattle.flow_splice.specs.Splice.{Splice};
    ghost use Rattle.poll_list.specs.declared.Want.{Want as AnItem};
    ghost use Rattle.poll_list.specs.declared.Who.TheVariants.{Tcp};
    ghost use Rattle.spec_run.specs.Agenda.{wanted_of};
    ghost use Rattle.tcp_flows.specs.Fronts.{IsFrontOf};
    ghost use Rattle.world_face.specs.Journal.{Entry};
    ghost use Rattle.sim_flows.specs.Core.{number_of};
    ghost use Rattle.tcp_flows.specs.Reading.{HasSocket, IsOpenAt, NoneOpen, Stays};
    ghost use Rattle.tcp_flows.specs.Told.{ServesOnce};
    ghost use Rattle.std.specs.Prelude.{◌++◌, Bool, IfNone, drop, min, slice_set, take};

    // A guest's segment is handed to its flow. One that is no flow's is answered by a reset or ignored, or the host connects for it, where it begins a
    // connection that the policy allows and there is room for a flow more; where there is none a flow gives way that is quiet for long.
    pub(crate) fn take_segment<W: World>(&mut self, world: &mut W, came: &SegmentView<'_>)
        requires none { self.old.pending ≡ [] }
        requires body { length came.now.segment.body.now ≤ most_carried }
        requires number { self.old.number + 1 < 2 ^ 64 }
        ensures makes { (config : Config) (at : Standing) (link : LinkState) → Brings (W.tells world.old) (W.tells world.new)
            (Comes config at self.old self.old.flows link (coming_of came.now)) (Holds config at self.new (flowing false self.new.flows) link) }
        ensures number { self.new.number ≤ self.old.number + 1 }
        ensures config { self.new.config ≡ self.old.config }
        ensures forwards { self.new.forwards ≡ self.old.forwards }
        ensures turn { self.new.flows.turn ≡ self.old.flows.turn }
        ensures marks { KeepsMarks self.old.number self.old.flows self.new.flows }
    {
        let number = self.number;
        match self
            .flows
            .receive(world, &self.policy, self.moment, came, number)
        {
            Received::Settled => {}
            Received::TurnedAway => self.turn_away(came),
            Received::Opened => self.number += 1,
            Received::Refused => {
                self.number += 1;
                self.turn_away(came);
            }
        }
    }

    /// The socket of a flow was reported ready in these directions, which were wanted: its flow is told, once a turn. Nothing is left of the report then.
    pub fn take_report<W: World>(&mut self, world: &mut W, number: u64, read: bool, write: bool)
        ensures makes { (config : Config) (count : ℕ) (wants : List AnItem) (item : AnItem) (items : List AnItem) (link : LinkState)
            → wanted_of wants item ≡ record { of = Tcp number; read = read; write = write } → Brings (W.tells world.old) (W.tells world.new)
            (Holds config (standing count wants (item ∷ items)) self.old (flowing false self.old.flows) link)
            (λ past. Holds config (standing count wants items) self.new (flowing false self.new.flows) link past
            × ServesOnce config number read write self.old.flows past) }
        ensures counts { AreGrown (W.tells world.old).faults (W.tells world.new).faults }
        ensures others { self.new ≡ record self.old { flows = self.new.flows } }
        ensures turn { self.new.flows.turn ≡ self.old.flows.turn }
        // It is marked as served in this turn; where no open socket has the number nothing changes.
        ensures told { (k : ℕ) (p : Splice) → IsOpenAt self.old.flows.flows.slots k p → number_of p ≡ number
            → self.new.flows.served ≡ slice_set self.old.flows.served k self.old.flows.turn }
        ensures untold { NoneOpen number self.old.flows.flows.slots → self.new ≡ self.old }
        ensures stays { Stays self.old.flows self.new.flows }
    {
        self.flows
            .host_ready(world, self.moment, number, read, write);
    }

    /// Copies the octets of the guest that the host didn't take yet from the flow of a socket to the start of `into`, the oldest first, as many as fit, and
    /// answers how many. `None` exactly where no flow's open socket has the number.
    pub fn held(&self, number: u64, into: &mut [u8]) -> Option<usize>
        ensures none { IfNone result (NoneOpen number self.now.flows.flows.slots) }
        ensures held { IfSome result (λ count. HasSocket number self.now.flows.flows.slots (λ p. (count ≡ min (length into.old) (length p.up.held))
            × (into.new ≡ take count p.up.held ++ drop count into.old))) }
        ensures unchanged { IfNone result (into.new ≡ into.old) }
        // Of a conforming guest they are what came from where the host stopped, and reach to what was acknowledged at least, where they fit.
        ensures front { (config : Config) (at : Standing) (aged : Bool) (link : LinkState) (past : List Entry)
            → Holds config at self.now (flowing aged self.now.flows) link past
            → IfSome result (λ count. IsFrontOf config number (length into.old) count (take count into.new) past) }
    {
        self.flows.held(number, into)
    }

    /// The number of the flow in use that comes next after this number, or of the first one, with its two ends. A flow is in use while its socket is open, and
    /// until the reset that it owes its guest is out. It looks at all flows.
    pub fn flow_after(&self, last: Option<u64>) -> Option<(u64, Tuple)>
        ensures drawn { IfSome result (λ next. next.0 < self.now.number) }
        // By the trace, between the calls of a turn.
        ensures next { (config : Config) (at : Standing) (link : LinkState) (past : List Entry)
            → Holds config at self.now (flowing false self.now.flows) link past → IsNextFlow last result (book config past).flows }
    {
        self.flows.flow_after(last)
    }

    // The reset that answers a segment is owed from now on.
    fn turn_away(&mut self, came: &SegmentView<'_>)
        requires none { self.old.pending ≡ [] }
        requires body { length came.now.segment.body.now ≤ most_carried }
        ensures { self.new ≡ record self.old { pending = frames_of self.old.config self.old.sent (reset_for (coming_of came.now).on ∷ []) } }
    {
        let course = self.course(came.mac, came.ends.other.addr, came.ends.guest.addr);
        let reset = reset_for(&came.ends, &came.segment);
        self.outgoing.put_segment(&course, &reset);
    }
}

// Whether a datagram is a guest's, with a segment.
pub(crate) fn is_segment(policy: &Policy, datagram: &IpView<'_>) -> bool
    ensures { result ≡ is_segment policy.now (ip_of datagram.now) }
{
    datagram.proto == TCP_PROTO && policy.is_guest(datagram.from)
}

// The segment that a guest's datagram holds.
pub(crate) fn segment_in<'a>(mac: Mac, datagram: &IpView<'a>) -> Option<SegmentView<'a>>
    requires size { length datagram.now.body.now ≤ most_carried }
    ensures segment { option_map coming_of result ≡ option_map (coming mac.0 (ip_of datagram.now))
        (read_tcp datagram.now.from.0 datagram.now.to.0 datagram.now.body.now) }
    ensures fits { IfSome result (λ s. length s.segment.body.now ≤ most_carried) }
{
    let Ok(segment) = tcp_segment::decode(datagram.body, datagram.from, datagram.to) else {
        return None;
    };
    let guest = Endpoint {
        addr: datagram.from,
        port: segment.from_port,
    };
    let other = Endpoint {
        addr: datagram.to,
        port: segment.to_port,
    };
    Some(SegmentView {
        mac,
        ends: Tuple { guest, other },
        segment,
    })
}

// The reset that answers a segment between these ends: it has the number that was acknowledged; where none was it acknowledges all that came (RFC 9293, 3.10.7.1).
fn reset_for<'a>(ends: &Tuple, segment: &TcpView<'a>) -> TcpView<'a>
    requires { length segment.now.body.now ≤ most_carried }
    ensures { tcp_of result ≡ reset_to ends.now (segment_of (tcp_of segment.now)) }
{
    let (seq, ack, flags) = if segment.is_ack() {
        (segment.ack, Seq(0), RST)
    } else {
        (Seq(0), after_all(segment), RST | ACK)
    };
    TcpView {
        from_port: ends.other.port,
        to_port: ends.guest.port,
        seq,
        ack,
        flags,
        window: 0,
        mss: None,
        scale: None,
        body: &[],
    }
}

// The number after all that a segment takes.
fn after_all(segment: &TcpView<'_>) -> Seq
    requires { length segment.now.body.now ≤ most_carried }
    ensures { result.0 ≡ (segment.now.seq.0 + numbers_of (tcp_of segment.now)) % 2 ^ 32 }
{
    Seq(segment.seq.0.wrapping_add(segment.numbers() as u32))
}
