// What a wait reported is served, in the order of the list.
//
// A frame is read and taken in, a peer of a forward is taken, a peer's datagram is received, or a flow's socket is served, writing before reading, and after
// each what is owed for it is sent. A frame or a datagram is read only while nothing is left to be sent.
ghost use Rattle.std.specs.Prelude.{◌≡◌, ◌&&◌, ◌||◌, List, true, false, IfSome, None, if◌then◌else◌};
ghost use Rattle.spec_run.specs.Agenda.{is_to_read, wanted_of};
ghost use Rattle.serve_loop.specs.Turns.{StaysCalm, is_read_now, still};
ghost use Rattle.poll_list.specs.Listing.{reads};
ghost use Rattle.poll_list.specs.declared.Who.TheVariants.{Link as TheLink, Listener, Udp, Tcp};
ghost use Rattle.poll_list.specs.declared.Want.{Want as AnItem};

use crate::service::{End, Service, Turn, writes_link};
use poll_list::{Want, Way, Who, is_among};
use stream_netdev::Arrived;
use world_face::World;

impl Service {
    ghost use Rattle.std.specs.Prelude.{ℕ, ◌+◌, ◌<◌, ◌≤◌, ◌^◌, ◌∷◌, Bool, if◌then◌else◌};
    ghost use Rattle.world_face.specs.Tells.{Makes, Brings};
    ghost use Rattle.slirp_settings.specs.Addresses.{Config};
    ghost use Rattle.stream_netdev.specs.Keeps.{ReadsOn};
    ghost use Rattle.stream_netdev.specs.State.{under_way};
    ghost use Rattle.slirp_core.specs.Counts.{AreGrown};
    ghost use Rattle.slirp_core.specs.Holds.{after, standing};
    ghost use Rattle.serve_loop.specs.Turns.{AfterItem, AfterTurn, CanTake, HoldsNow, IsStep, ServesNow, is_passed_over};
    ghost use Rattle.spec_duties.specs.Serving.{is_left_to_read};
    ghost use Rattle.slirp_core.specs.Marks.{KeepsMarks};
    ghost use Rattle.slirp_core.specs.Pumps.{is_settled};
    ghost use Rattle.serve_loop.specs.Served.{Stays};
    ghost use Rattle.slirp_core.specs.Hearing.{Receives, is_heard};

    // Serves an item of what a wait reported in the directions that were waited for, and sends what is then owed. Of what wasn't waited for no call comes, and no pump after it.
    pub(crate) fn attend<W: World>(&mut self, world: &mut W, item: &Want, to_read: bool) -> Turn
        requires on { ReadsOn (under_way self.old.link) }
        requires number { self.old.slirp.number + 1 < 2 ^ 64 }
        ensures makes { (config : Config) (count : ℕ) (items : List AnItem) → (to_read ≡ true → reads TheLink self.old.wants ≡ true)
            → Brings (W.tells world.old) (W.tells world.new)
            (ServesNow config count self.old.wants (item.now ∷ items) to_read self.old.slirp self.old.link)
            (AfterItem result config count self.old.wants items (still to_read item.now) self.new.slirp self.new.link) }
        ensures step { IsStep result (W.tells world.old).faults (W.tells world.new).faults self.new.link }
        ensures calm { StaysCalm result self.old.wants item.now self.old.slirp self.old.link self.new.slirp self.new.link }
        ensures stays { Stays self.old self.new }
        ensures number { self.new.slirp.number ≤ self.old.slirp.number + 1 }
        ensures passed { (to_read ≡ true → reads TheLink self.old.wants ≡ true) → is_passed_over self.old.wants item.now ≡ true → (result ≡ Turn.Again)
            × (self.new ≡ self.old) × (world.new ≡ world.old) }
    {
        match item.of {
            Who::Link => self.attend_link(world, item, to_read),
            Who::Udp(number) => self.attend_port(world, number, item),
            Who::Tcp(number) => self.attend_flow(world, number, item),
            Who::Listener(number) => self.attend_listener(world, number, item),
        }
    }

    // The link: a frame is read where one is still to be read, or the link takes more.
    fn attend_link<W: World>(&mut self, world: &mut W, report: &Want, to_read: bool) -> Turn
        requires of { report.now.of ≡ TheLink }
        requires on { ReadsOn (under_way self.old.link) }
        requires number { self.old.slirp.number + 1 < 2 ^ 64 }
        ensures makes { (config : Config) (count : ℕ) (items : List AnItem) → (to_read ≡ true → reads TheLink self.old.wants ≡ true)
            → Brings (W.tells world.old) (W.tells world.new)
            (ServesNow config count self.old.wants (report.now ∷ items) to_read self.old.slirp self.old.link)
            (AfterItem result config count self.old.wants items (still to_read report.now) self.new.slirp self.new.link) }
        ensures step { IsStep result (W.tells world.old).faults (W.tells world.new).faults self.new.link }
        ensures calm { StaysCalm result self.old.wants report.now self.old.slirp self.old.link self.new.slirp self.new.link }
        ensures stays { Stays self.old self.new }
        ensures number { self.new.slirp.number ≤ self.old.slirp.number + 1 }
        ensures passed { (to_read ≡ true → reads TheLink self.old.wants ≡ true) → is_passed_over self.old.wants report.now ≡ true → (result ≡ Turn.Again)
            × (self.new ≡ self.old) × (world.new ≡ world.old) }
    {
        if is_read_now(to_read, report) {
            return match self.receive_frame(world) {
                Turn::Again => self.pump(world),
                Turn::Ended(end) => Turn::Ended(end),
            };
        }
        if report.write && writes_link(self.wants.items()) {
            return self.pump(world);
        }
        Turn::Again
    }

    // A port of the host: a peer is taken, where there is room yet for a flow more.
    fn attend_listener<W: World>(&mut self, world: &mut W, number: u64, item: &Want) -> Turn
        requires of { item.now.of ≡ Listener number }
        requires on { ReadsOn (under_way self.old.link) }
        requires number { self.old.slirp.number + 1 < 2 ^ 64 }
        ensures makes { (config : Config) (count : ℕ) (items : List AnItem) (to_read : Bool) → Brings (W.tells world.old) (W.tells world.new)
            (ServesNow config count self.old.wants (item.now ∷ items) to_read self.old.slirp self.old.link)
            (AfterItem result config count self.old.wants items to_read self.new.slirp self.new.link) }
        ensures step { IsStep result (W.tells world.old).faults (W.tells world.new).faults self.new.link }
        ensures calm { StaysCalm result self.old.wants item.now self.old.slirp self.old.link self.new.slirp self.new.link }
        ensures stays { Stays self.old self.new }
        ensures number { self.new.slirp.number ≤ self.old.slirp.number + 1 }
        ensures passed { is_passed_over self.old.wants item.now ≡ true → (result ≡ Turn.Again) × (self.new ≡ self.old) × (world.new ≡ world.old) }
    {
        if !self.waits_for_peers(number, item) {
            return Turn::Again;
        }
        self.slirp.accept(world, number);
        self.pump(world)
    }

    // A guest's port: a datagram is received.
    fn attend_port<W: World>(&mut self, world: &mut W, number: u64, item: &Want) -> Turn
        requires of { item.now.of ≡ Udp number }
        requires on { ReadsOn (under_way self.old.link) }
        ensures makes { (config : Config) (count : ℕ) (items : List AnItem) (to_read : Bool) → Brings (W.tells world.old) (W.tells world.new)
            (ServesNow config count self.old.wants (item.now ∷ items) to_read self.old.slirp self.old.link)
            (AfterItem result config count self.old.wants items to_read self.new.slirp self.new.link) }
        ensures step { IsStep result (W.tells world.old).faults (W.tells world.new).faults self.new.link }
        ensures calm { StaysCalm result self.old.wants item.now self.old.slirp self.old.link self.new.slirp self.new.link }
        ensures stays { Stays self.old self.new }
        ensures number { self.new.slirp.number ≡ self.old.slirp.number }
        ensures passed { is_passed_over self.old.wants item.now ≡ true → (result ≡ Turn.Again) × (self.new ≡ self.old) × (world.new ≡ world.old) }
    {
        if !self.waits_for(number, item) {
            return Turn::Again;
        }
        self.receive_datagram(world, number);
        self.pump(world)
    }

    // A flow's socket.
    fn attend_flow<W: World>(&mut self, world: &mut W, number: u64, item: &Want) -> Turn
        requires of { item.now.of ≡ Tcp number }
        requires on { ReadsOn (under_way self.old.link) }
        ensures makes { (config : Config) (count : ℕ) (items : List AnItem) (to_read : Bool) → Brings (W.tells world.old) (W.tells world.new)
            (ServesNow config count self.old.wants (item.now ∷ items) to_read self.old.slirp self.old.link)
            (AfterItem result config count self.old.wants items to_read self.new.slirp self.new.link) }
        ensures step { IsStep result (W.tells world.old).faults (W.tells world.new).faults self.new.link }
        ensures calm { StaysCalm result self.old.wants item.now self.old.slirp self.old.link self.new.slirp self.new.link }
        ensures stays { Stays self.old self.new }
        ensures number { self.new.slirp.number ≡ self.old.slirp.number }
        ensures passed { is_passed_over self.old.wants item.now ≡ true → (result ≡ Turn.Again) × (self.new ≡ self.old) × (world.new ≡ world.old) }
    {
        let Some(wanted) = self.counted(number, item) else {
            return Turn::Again;
        };
        self.slirp
            .take_report(world, number, wanted.read, wanted.write);
        self.pump(world)
    }

    // What counts of a report on a flow's socket: the directions that were waited for, and nothing exactly where none was.
    // What a wait tells beyond the directions that were wanted is dropped.
    fn counted(&self, number: u64, item: &Want) -> Option<Want>
        requires { item.now.of ≡ Tcp number }
        ensures counts { IfSome result (λ w. w ≡ wanted_of self.now.wants item.now) }
        ensures some { IfSome result (λ w. (w.read || w.write) ≡ true) }
        ensures none { result ≡ None → ((wanted_of self.now.wants item.now).read || (wanted_of self.now.wants item.now).write) ≡ false }
    {
        let wants = self.wants.of_flows();
        let read = item.read && is_among(wants, Who::Tcp(number), Way::Read);
        let write = item.write && is_among(wants, Who::Tcp(number), Way::Write);
        if !(read || write) {
            return None;
        }
        Some(Want {
            of: item.of,
            read,
            write,
        })
    }

    // Whether a report on this listener is for reading, and peers were waited for.
    fn waits_for_peers(&self, number: u64, item: &Want) -> bool
        ensures { result ≡ (item.now.read && reads (Listener number) self.now.wants) }
    {
        item.read && is_among(self.wants.of_listeners(), Who::Listener(number), Way::Read)
    }

    // Whether a report on this socket is for reading, and datagrams on it were waited for.
    fn waits_for(&self, number: u64, item: &Want) -> bool
        ensures { result ≡ (item.now.read && reads (Udp number) self.now.wants) }
    {
        item.read && is_among(self.wants.of_datagrams(), Who::Udp(number), Way::Read)
    }

    // Reads a frame where nothing is left to be sent, and hands it to the network.
    fn receive_frame<W: World>(&mut self, world: &mut W) -> Turn
        requires on { ReadsOn (under_way self.old.link) }
        requires number { self.old.slirp.number + 1 < 2 ^ 64 }
        ensures makes { (config : Config) (count : ℕ) (wants : List AnItem) (item : AnItem) (items : List AnItem)
            → is_to_read TheLink (wanted_of wants item) ≡ true → Brings (W.tells world.old) (W.tells world.new)
            (λ past. HoldsNow config (standing count wants (item ∷ items)) false self.old.slirp self.old.link past
            × CanTake config self.old.slirp self.old.link past)
            (λ past. AfterTurn result config (standing count wants items) false self.new.slirp self.new.link past
            × (result ≡ Turn.Again → is_left_to_read config past TheLink ≡ false)) }
        ensures marks { KeepsMarks self.old.slirp.number self.old.slirp.flows self.new.slirp.flows }
        ensures step { IsStep result (W.tells world.old).faults (W.tells world.new).faults self.new.link }
        ensures stays { Stays self.old self.new }
        ensures number { self.new.slirp.number ≤ self.old.slirp.number + 1 }
    {
        if !self.is_settled() {
            return Turn::Again;
        }
        match self.link.read_frame(world) {
            Arrived::Frame => {
                self.slirp.input(world, self.link.frame(), &mut self.joined);
                Turn::Again
            }
            Arrived::NotYet => Turn::Again,
            Arrived::End => Turn::Ended(End::Done),
            Arrived::Cut(n) => Turn::Ended(End::Cut(n)),
            Arrived::TooLong(n) => Turn::Ended(End::TooLong(n)),
            Arrived::Failed => Turn::Ended(End::LinkFault),
        }
    }

    // Receives a datagram on a socket where nothing is left to be sent.
    fn receive_datagram<W: World>(&mut self, world: &mut W, number: u64)
        // Where nothing is left to be sent and the socket is open a datagram is asked for on it, once.
        ensures receives { is_settled self.old.slirp self.old.link ≡ true → is_heard number self.old.slirp ≡ true
            → Makes (W.tells world.old) (W.tells world.new) (Receives number) }
        ensures makes { (config : Config) (count : ℕ) (wants : List AnItem) (item : AnItem) (items : List AnItem)
            → is_to_read (Udp number) (wanted_of wants item) ≡ true → Brings (W.tells world.old) (W.tells world.new)
            (λ past. HoldsNow config (standing count wants (item ∷ items)) false self.old.slirp self.old.link past
            × CanTake config self.old.slirp self.old.link past)
            (λ past. HoldsNow config (standing count wants items) false self.new.slirp self.new.link past
            × (is_left_to_read config past (Udp number) ≡ false)) }
        ensures counts { AreGrown (W.tells world.old).faults (W.tells world.new).faults }
        ensures link { self.new.link ≡ self.old.link }
        ensures flows { self.new.slirp.flows ≡ self.old.slirp.flows }
        ensures stays { Stays self.old self.new }
        ensures number { self.new.slirp.number ≡ self.old.slirp.number }
    {
        if self.is_settled() {
            self.slirp
                .receive_datagram(world, number, &mut self.payload);
        }
    }
}

// Whether this item is the frame that is to be read.
fn is_read_now(to_read: bool, item: &Want) -> bool
    ensures { result ≡ is_read_now to_read item.now }
{
    to_read && item.of == Who::Link && item.read
}

// Whether a frame is still to be read after this item.
pub(crate) fn still(to_read: bool, item: &Want) -> bool
    ensures { result ≡ still to_read item.now }
{
    to_read && !(item.of == Who::Link && item.read)
}
