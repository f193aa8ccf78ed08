// What is owed and isn't out yet, and the pump that sends it.
ghost use Rattle.net_octets.specs.Octets.{our_mac};
ghost use Rattle.std.specs.Prelude.{[], ◌≡◌, ◌<◌, ◌≤◌, length};
ghost use Rattle.udp_assoc.specs.Relays.{FitsRoom};
ghost use Rattle.world_face.specs.Limits.{most_to_udp};
ghost use Rattle.slirp_core.specs.Replies.{replied_by};

use crate::network::Slirp;
use host_policy::Policy;
use net_octets::{Ip4, Mac};
use owed_frames::{Course, Outgoing, datagrams_in};
use rules_udp::Reply;
use stream_netdev::{Link, Offered, Pumped, outcome};
use udp_datagram::UdpView;
use world_face::World;

impl Slirp {
    ghost use Rattle.world_face.specs.Tells.{Rose};
    ghost use Rattle.std.specs.Prelude.{nat_lt, false};
    ghost use Rattle.slirp_settings.specs.Addresses.{Config};
    ghost use Rattle.world_face.specs.Tells.{Brings};
    ghost use Rattle.stream_netdev.specs.State.{under_way};
    ghost use Rattle.slirp_core.specs.Outgoing.{sent_after};
    ghost use Rattle.slirp_core.specs.Pumps.{keep, is_settled};
    ghost use Rattle.slirp_core.specs.Holds.{Standing, flowing, Holds, AfterPump, Leaves, LeavesBehind, LeavesNone, LeavesRest};
    ghost use Rattle.std.specs.Prelude.{ℕ, Bool, List, None, true};
    ghost use Rattle.world_face.specs.Journal.{Entry};
    ghost use Rattle.sim_flows.specs.Core.{CoreHolds};
    ghost use Rattle.tcp_flows.specs.Reading.{AreTold, HaveSlots};
    ghost use Rattle.tcp_flows.specs.Settled.{AreSettled, HaveTime, IsInTime};
    ghost use Rattle.slirp_core.specs.Calm.{AreClear};
    ghost use Rattle.slirp_core.specs.Marks.{KeepsMarks};

    /// Whether nothing is left to be sent.
    pub fn is_settled(&self, link: &Link) -> bool
        ensures { result ≡ is_settled self.now link.now }
    {
        link.tail() == 0 && !self.pending()
    }

    /// Whether a frame is owed that isn't out yet.
    pub fn pending(&self) -> bool
        ensures { result ≡ nat_lt 0 (length self.now.pending) }
    {
        self.outgoing.is_some()
    }

    /// Sends what is owed, until the link is blocked: the rest of the frame before, then the pending ones, then what the flows owe, by rising number. Before, link or
    /// not, the flows are told the hardware addresses of their guests.
    /// Where all of it is out, each flow of the trace is settled: it may be waited. What is under way goes again within a minute for each
    /// flow whose timer wasn't due before.
    pub fn pump<W: World>(&mut self, world: &mut W, link: &mut Link) -> Pumped
        ensures makes { (config : Config) (at : Standing) (aged : Bool) → Brings (W.tells world.old) (W.tells world.new)
            (Holds config at self.old (flowing aged self.old.flows) link.old) (AfterPump result config at self.new (flowing aged self.new.flows) link.new) }
        ensures failed { result ≡ Pumped.Failed → Rose (W.tells world.old).faults.link (W.tells world.new).faults.link }
        ensures leaves { Leaves result self.new link.new }
        ensures settled { (config : Config) (at : Standing) → result ≡ Pumped.Clear → Brings (W.tells world.old) (W.tells world.new)
            (Holds config at self.old (flowing true self.old.flows) link.old) (λ past. Holds config at self.new (flowing true self.new.flows) link.new past
            × AreSettled config self.old.moment self.old.flows.flows.slots past) }
        // Where time closed no flow, it closes none then.
        ensures in_time { HaveTime self.old.moment self.old.flows.flows.slots → HaveTime self.old.moment self.new.flows.flows.slots }
        // Where all of it is out the link was free before, and no flow owes a frame.
        ensures free { result ≡ Pumped.Clear → link.old.blocked ≡ false }
        ensures clear { result ≡ Pumped.Clear → AreClear self.new.known self.new.flows.flows }
        // A flow whose timer wasn't due before has none that is due.
        ensures ahead { (config : Config) (at : Standing) (aged : Bool) (past : List Entry)
            → Holds config at self.old (flowing aged self.old.flows) link.old past
            → (n : ℕ) → IsInTime self.old.moment self.old.flows.flows.slots n → IsInTime self.old.moment self.new.flows.flows.slots n }
        ensures same { under_way link.new ≡ under_way link.old }
        ensures config { self.new.config ≡ self.old.config }
        ensures number { self.new.number ≡ self.old.number }
        ensures turn { self.new.flows.turn ≡ self.old.flows.turn }
        ensures marks { KeepsMarks self.old.number self.old.flows self.new.flows }
        ensures others { self.new ≡ record self.old { pending = self.new.pending; sent = self.new.sent; flows = self.new.flows } }
    {
        self.tell_addresses();
        match self.pump_answers(world, link) {
            Pumped::Clear => self.pump_flows(world, link),
            Pumped::Blocked => Pumped::Blocked,
            Pumped::Failed => Pumped::Failed,
        }
    }

    // Sends what the flows owe.
    fn pump_flows<W: World>(&mut self, world: &mut W, link: &mut Link) -> Pumped
        requires free { link.old.blocked ≡ false }
        requires none { link.old.tail ≡ [] }
        requires out { self.old.pending ≡ [] }
        requires told { AreTold self.old.known self.old.flows.flows.slots }
        ensures told { AreTold self.new.known self.new.flows.flows.slots }
        ensures slots { HaveSlots self.new.flows.flows }
        ensures makes { (config : Config) (at : Standing) (aged : Bool) → Brings (W.tells world.old) (W.tells world.new)
            (Holds config at self.old (flowing aged self.old.flows) link.old) (AfterPump result config at self.new (flowing aged self.new.flows) link.new) }
        ensures failed { result ≡ Pumped.Failed → Rose (W.tells world.old).faults.link (W.tells world.new).faults.link }
        ensures leaves { Leaves result self.new link.new }
        ensures ahead { (config : Config) (before : ℕ) (aged : Bool) (past : List Entry) → CoreHolds config before aged None self.old.flows.flows past → (n : ℕ)
            → IsInTime self.old.moment self.old.flows.flows.slots n
            → IsInTime self.old.moment self.new.flows.flows.slots n }
        ensures in_time { HaveTime self.old.moment self.old.flows.flows.slots → HaveTime self.old.moment self.new.flows.flows.slots }
        ensures same { under_way link.new ≡ under_way link.old }
        ensures turn { self.new.flows.turn ≡ self.old.flows.turn }
        ensures marks { KeepsMarks self.old.number self.old.flows self.new.flows }
        ensures others { self.new ≡ record self.old { sent = self.new.sent; flows = self.new.flows } }
    {
        self.flows
            .pump(world, link, &mut self.sent, &self.guests, self.moment)
    }

    // Sends the rest of the frame before, then the pending ones.
    fn pump_answers<W: World>(&mut self, world: &mut W, link: &mut Link) -> Pumped
        ensures makes { (config : Config) (at : Standing) (aged : Bool) → Brings (W.tells world.old) (W.tells world.new)
            (Holds config at self.old (flowing aged self.old.flows) link.old) (AfterPump result config at self.new (flowing aged self.new.flows) link.new) }
        ensures failed { result ≡ Pumped.Failed → Rose (W.tells world.old).faults.link (W.tells world.new).faults.link }
        ensures leaves { LeavesNone result self.new link.new }
        ensures free { result ≡ Pumped.Clear → link.old.blocked ≡ false }
        ensures same { under_way link.new ≡ under_way link.old }
        ensures others { self.new ≡ record self.old { pending = self.new.pending; sent = self.new.sent } }
    {
        match self.pump_rest(world, link) {
            Pumped::Clear => self.pump_pending(world, link),
            Pumped::Blocked => Pumped::Blocked,
            Pumped::Failed => Pumped::Failed,
        }
    }

    // Sends the rest of the frame before.
    fn pump_rest<W: World>(&self, world: &mut W, link: &mut Link) -> Pumped
        ensures makes { (config : Config) (at : Standing) (aged : Bool) → Brings (W.tells world.old) (W.tells world.new)
            (Holds config at self.now (flowing aged self.now.flows) link.old) (AfterPump result config at self.now (flowing aged self.now.flows) link.new) }
        ensures failed { result ≡ Pumped.Failed → Rose (W.tells world.old).faults.link (W.tells world.new).faults.link }
        ensures leaves { LeavesRest result link.new }
        ensures free { result ≡ Pumped.Clear → link.old.blocked ≡ false }
        ensures same { under_way link.new ≡ under_way link.old }
    {
        if link.blocked() {
            return Pumped::Blocked;
        }
        if link.tail() == 0 {
            return Pumped::Clear;
        }
        let offered = link.flush(world);
        outcome(offered, link.blocked())
    }

    // Sends the pending frames, one after another.
    fn pump_pending<W: World>(&mut self, world: &mut W, link: &mut Link) -> Pumped
        requires free { link.old.blocked ≡ false }
        requires none { link.old.tail ≡ [] }
        ensures makes { (config : Config) (at : Standing) (aged : Bool) → Brings (W.tells world.old) (W.tells world.new)
            (Holds config at self.old (flowing aged self.old.flows) link.old) (AfterPump result config at self.new (flowing aged self.new.flows) link.new) }
        ensures failed { result ≡ Pumped.Failed → Rose (W.tells world.old).faults.link (W.tells world.new).faults.link }
        ensures leaves { LeavesNone result self.new link.new }
        ensures same { under_way link.new ≡ under_way link.old }
        ensures config { self.new.config ≡ self.old.config }
        ensures number { self.new.number ≡ self.old.number }
        ensures others { self.new ≡ record self.old { pending = self.new.pending; sent = self.new.sent } }
    {
        while self.pending() {
            match self.pump_next(world, link) {
                Pumped::Clear => {}
                Pumped::Blocked => return Pumped::Blocked,
                Pumped::Failed => return Pumped::Failed,
            }
        }
        Pumped::Clear
    }

    // Sends the pending frame that is next.
    fn pump_next<W: World>(&mut self, world: &mut W, link: &mut Link) -> Pumped
        requires free { link.old.blocked ≡ false }
        requires none { link.old.tail ≡ [] }
        requires some { 0 < length self.old.pending }
        ensures makes { (config : Config) (at : Standing) (aged : Bool) → Brings (W.tells world.old) (W.tells world.new)
            (Holds config at self.old (flowing aged self.old.flows) link.old) (AfterPump result config at self.new (flowing aged self.new.flows) link.new) }
        ensures failed { result ≡ Pumped.Failed → Rose (W.tells world.old).faults.link (W.tells world.new).faults.link }
        ensures leaves { LeavesBehind result self.old self.new link.new }
        ensures same { under_way link.new ≡ under_way link.old }
        ensures others { self.new ≡ record self.old { pending = self.new.pending; sent = self.new.sent } }
    {
        let offered = link.offer(world, self.outgoing.encoded());
        self.mark_out(offered);
        outcome(offered, link.blocked())
    }

    // The frame is out where something of it was taken.
    fn mark_out(&mut self, offer: Offered)
        requires { 0 < length self.old.pending }
        ensures { self.new ≡ record self.old { pending = keep offer self.old.pending; sent = sent_after offer self.old.pending self.old.sent } }
    {
        if offer == Offered::Taken {
            self.sent = self.sent.wrapping_add(datagrams_in(self.outgoing.frame()));
            self.outgoing.advance();
        }
    }

    // The course of the next datagram.
    pub(crate) fn course(&self, to_mac: Mac, from: Ip4, to: Ip4) -> Course
        ensures course { result ≡ record {
          to_mac = to_mac;
          from_mac = record { 0 = our_mac self.now.config.vhost };
          ident = self.now.sent;
          from = from;
          to = to;
          mtu = self.now.config.mtu;
        } }
        ensures mtu { (576 ≤ result.mtu) × (result.mtu ≤ 1500) }
    {
        course(&self.policy, self.sent, to_mac, from, to)
    }
}

// The course of a datagram with this identification.
pub(crate) fn course(policy: &Policy, ident: u16, to_mac: Mac, from: Ip4, to: Ip4) -> Course
    ensures course { result ≡ record {
      to_mac = to_mac;
      from_mac = record { 0 = our_mac policy.now.vhost };
      ident = ident;
      from = from;
      to = to;
      mtu = policy.now.mtu;
    } }
    ensures mtu { (576 ≤ result.mtu) × (result.mtu ≤ 1500) }
{
    Course {
        to_mac,
        from_mac: Mac::of_ours(policy.vhost()),
        ident,
        from,
        to,
        mtu: policy.mtu(),
    }
}

// The datagram of a reply, whose octets stand at the front of these, is owed from now on.
pub(crate) fn put_reply(
    policy: &Policy,
    ident: u16,
    reply: Reply,
    octets: &[u8],
    outgoing: &mut Outgoing,
)
    requires fits { FitsRoom reply (length octets.now) }
    requires room { length octets.now ≤ most_to_udp }
    ensures { outgoing.new ≡ replied_by policy.now ident outgoing.old reply octets.now }
{
    if let Reply::Datagram {
        length,
        from,
        to,
        mac: Some(mac),
    } = reply
    {
        let course = course(policy, ident, mac, from.addr, to.addr);
        let datagram = UdpView {
            from_port: from.port,
            to_port: to.port,
            body: &octets[..length],
        };
        outgoing.put_udp(&course, &datagram);
    }
}
