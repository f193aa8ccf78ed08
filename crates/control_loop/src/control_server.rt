// A network with a control, from its first call to its last.
ghost use Rattle.std.specs.Prelude.{◌≡◌, ◌≤◌, ◌<◌, ◌+◌, ◌^◌, ◌++◌, ◌∷◌, [], ℕ, List, IfSome, None, false, length, map, reverse};
ghost use Rattle.world_face.specs.Journal.{AreAllowed, Close, Entry as AnEntry, Listen};
ghost use Rattle.world_face.specs.Tells.{Makes, Rose};
ghost use Rattle.world_face.specs.declared.Made.TheVariants.{Failed as IsRefused};
ghost use Rattle.slirp_settings.specs.Addresses.{Config};
ghost use Rattle.control.specs.Stretches.{AreSeen, last_reported};
ghost use Rattle.spec_control.specs.ControlServer.{Reads};
ghost use Rattle.spec_control.specs.Laws.{IsReading};
ghost use Rattle.control_loop.specs.Runs.{RunsWith};
ghost use Rattle.control_loop.specs.Standing.{AfterTurnBy, Closes, IsFit, IsReady, IsSet, Stands};
ghost use Rattle.rules_control.specs.Talk.{after_listen, all_closed, listener, over, silent, want_of};
ghost use Rattle.serve_loop.specs.Ends.{IsCounted};
ghost use Rattle.serve_loop.specs.Served.{IsNew};
ghost use Rattle.serve_loop.specs.Turns.{AttendsAfterWholeTurn, AttendsNow, IsStep};
ghost use Rattle.slirp_core.specs.Counts.{AreGrown};
ghost use Rattle.slirp_core.specs.Forwards.{AreCloses};
ghost use Rattle.rules_forward.specs.Opened.{forward_sockets};
ghost use Rattle.slirp_core.specs.Holds.{AfterListening, ClosesAll, HoldsNothingElse, Opens, after, as_given, holders_of};

use control::{Aside, Session};
use net_octets::{Endpoint, Ip4};
use serve_loop::{End, Service, Turn};
use world_face::{Made, World};

// A network, the connection by which its ports of the host are added and taken back, the place of the host at which that is taken, and the guest of a RULE that names none.
#[derive(Drop)]
pub(crate) struct ControlServer {
    pub(crate) service: Service,
    pub(crate) session: Session,
    pub(crate) at: Endpoint,
    pub(crate) guest: Ip4,
}

impl ControlServer {
    // Opens the ports of the settings and then the control's, runs until the link ends, a wait is told to stop or the turns are spent, and closes all sockets.
    pub(crate) fn run<W: World>(&mut self, world: &mut Aside<W>, turns: u64) -> End
        requires new { IsNew self.old.service }
        requires silent { self.old.session ≡ silent }
        requires set { IsSet self.old.service.slirp.config self.old.at self.old.guest }
        requires turns { turns ≡ self.old.service.slirp.config.turns }
        ensures makes { Makes (W.tells world.old.world) (W.tells world.new.world)
            (λ made. (read : Reads) → IsReading self.old.service.slirp.config read → RunsWith read self.old.service.slirp.config result made) }
        ensures faults { IsCounted (Turn.Ended result) (W.tells world.old.world).faults (W.tells world.new.world).faults }
    {
        if let Some(place) = self.open_ports(world) {
            self.close_ports(world);
            return End::ListenRefused(place);
        }
        if let Made::Failed = self.listen(world) {
            self.close_ports(world);
            return End::ControlRefused;
        }
        self.begin(world);
        self.turn_on(world, turns)
    }

    // Makes turns until one ends the run, or they are spent.
    fn turn_on<W: World>(&mut self, world: &mut Aside<W>, turns: u64) -> End
        requires ready { IsReady self.old.session }
        requires fit { IsFit self.old.service 0 }
        requires had { self.old.session.had ≤ 0 }
        requires set { IsSet self.old.service.slirp.config self.old.at self.old.guest }
        requires turns { turns ≡ self.old.service.slirp.config.turns }
        requires few { turns ≤ 2 ^ 44 }
        requires some { 1 ≤ turns }
        ensures makes { Makes (W.tells world.old.world) (W.tells world.new.world)
            (λ made. (read : Reads) → IsReading self.old.service.slirp.config read → (past : List AnEntry)
            → Stands [] self.old.session self.old.service.slirp self.old.service.link read self.old.service.slirp.config 0 past
            → RunsWith read self.old.service.slirp.config result (made ++ past)) }
        ensures faults { IsCounted (Turn.Ended result) (W.tells world.old.world).faults (W.tells world.new.world).faults }
    {
        for _count in 0..turns {
            match self.turn(world) {
                Turn::Again => {}
                Turn::Ended(end) => {
                    self.leave(world);
                    return end;
                }
            }
        }
        self.close_ports(world);
        self.leave(world);
        End::TurnsSpent(turns)
    }

    // One turn of the network, and what follows it: what was reported of the control is served.
    fn turn<W: World>(&mut self, world: &mut Aside<W>) -> Turn
        requires ready { IsReady self.old.session }
        requires fit { (count : ℕ) × IsFit self.old.service count × (count < 2 ^ 44) × (self.old.session.had ≤ count) }
        requires set { IsSet self.old.service.slirp.config self.old.at self.old.guest }
        ensures makes { Makes (W.tells world.old.world) (W.tells world.new.world)
            (AfterTurnBy self.old.service.slirp.config result self.old.session self.old.service self.new.session self.new.service) }
        ensures counted { IsCounted result (W.tells world.old.world).faults (W.tells world.new.world).faults }
        ensures ready { IsReady self.new.session }
        ensures fit { (count : ℕ) → IsFit self.old.service count → result ≡ Turn.Again → IsFit self.new.service (count + 1) }
        ensures had { self.new.session.had ≤ self.old.session.had + 1 }
        ensures config { self.new.service.slirp.config ≡ self.old.service.slirp.config }
        ensures others { self.new ≡ record self.old { service = self.new.service; session = self.new.session } }
    {
        match self.take_turn(world) {
            Turn::Again => {
                self.attend(world);
                Turn::Again
            }
            Turn::Ended(end) => Turn::Ended(end),
        }
    }

    // One turn of the network.
    fn take_turn<W: World>(&mut self, world: &mut Aside<W>) -> Turn
        requires ready { IsReady self.old.session }
        requires fit { (count : ℕ) × IsFit self.old.service count × (count < 2 ^ 44) }
        ensures makes { Makes (W.tells world.old.world) (W.tells world.new.world) (λ made. (seen : List AnEntry) × AreSeen (want_of self.old.session) made seen × AreAllowed seen
            × (world.new.reported ≡ last_reported (want_of self.old.session) made)
            × ((settings : Config) (count : ℕ) → count < settings.turns → (past : List AnEntry) → AttendsNow settings (after count) false self.old.service.slirp self.old.service.link past
            → AttendsAfterWholeTurn result settings (after (count + 1)) self.new.service.slirp self.new.service.link (seen ++ past))) }
        ensures step { IsStep result (W.tells world.old.world).faults (W.tells world.new.world).faults self.new.service.link }
        ensures fit { (count : ℕ) → IsFit self.old.service count → result ≡ Turn.Again → IsFit self.new.service (count + 1) }
        ensures config { self.new.service.slirp.config ≡ self.old.service.slirp.config }
        ensures forwards { result ≡ Turn.Again → self.new.service.slirp.forwards ≡ self.old.service.slirp.forwards }
        ensures number { self.new.service.slirp.number ≤ self.old.service.slirp.number + 5155 }
        ensures others { self.new ≡ record self.old { service = self.new.service } }
    {
        world.begin(self.session.want());
        let turn = self.service.turn(world);
        // for the prover: what was called is what was made on the World below.
        let _ = world.reported();
        turn
    }

    // Opens the ports of the host that the settings give to guests, and answers the place of the first that is refused.
    fn open_ports<W: World>(&mut self, world: &mut Aside<W>) -> Option<usize>
        requires new { IsNew self.old.service }
        ensures makes { Makes (W.tells world.old.world) (W.tells world.new.world) (λ made. (seen : List AnEntry) × AreSeen None made seen × AreAllowed seen
            × ((settings : Config) → self.old.service.slirp.config ≡ as_given settings → AfterListening result settings self.new.service.slirp self.new.service.link seen)) }
        ensures counted { IfSome result (λ k. Rose (W.tells world.old.world).faults.socket (W.tells world.new.world).faults.socket) }
        ensures number { self.new.service.slirp.number ≤ 32 }
        ensures slirp { self.new.service.slirp ≡ record self.old.service.slirp { number = self.new.service.slirp.number; forwards = self.new.service.slirp.forwards } }
        ensures link { self.new.service.link ≡ self.old.service.link }
        ensures others { self.new ≡ record self.old { service = self.new.service } }
    {
        world.begin(None);
        let refused = self.service.listen(world);
        world.begin(None);
        refused
    }

    // Asks for the moment.
    fn begin<W: World>(&mut self, world: &mut Aside<W>)
        requires ready { IsReady self.old.session }
        ensures makes { Makes (W.tells world.old.world) (W.tells world.new.world) (λ made. (seen : List AnEntry) × AreSeen (want_of self.old.session) made seen × AreAllowed seen
            × ((settings : Config) (past : List AnEntry) → Opens settings (length settings.forwards) self.old.service.slirp self.old.service.link past
            → AttendsNow settings (after 0) false self.new.service.slirp self.new.service.link (seen ++ past))) }
        ensures counts { AreGrown (W.tells world.old.world).faults (W.tells world.new.world).faults }
        ensures slirp { self.new.service.slirp ≡ record self.old.service.slirp { moment = self.new.service.slirp.moment } }
        ensures link { self.new.service.link ≡ self.old.service.link }
        ensures others { self.new ≡ record self.old { service = self.new.service } }
    {
        world.begin(self.session.want());
        self.service.begin(world);
        world.begin(None);
    }

    // Closes all sockets of the network.
    fn close_ports<W: World>(&mut self, world: &mut Aside<W>)
        ensures makes { Makes (W.tells world.old.world) (W.tells world.new.world)
            (λ made. ClosesAll self.old.service.slirp.forwards (holders_of self.old.service.slirp) made × AreCloses made × AreAllowed made) }
        ensures ports { HoldsNothingElse self.old.service.slirp → Makes (W.tells world.old.world) (W.tells world.new.world)
            (λ made. made ≡ map Close (reverse (forward_sockets self.old.service.slirp.forwards))) }
        ensures counts { AreGrown (W.tells world.old.world).faults (W.tells world.new.world).faults }
        ensures others { self.new ≡ record self.old { service = self.new.service } }
    {
        world.begin(None);
        self.service.close_all(world);
        world.begin(None);
    }

    // Opens the control's listener.
    fn listen<W: World>(&mut self, world: &mut Aside<W>) -> Made
        ensures makes { Makes (W.tells world.old.world) (W.tells world.new.world) (λ made. made ≡ Listen listener self.old.at result ∷ []) }
        ensures counted { result ≡ IsRefused → Rose (W.tells world.old.world).faults.socket (W.tells world.new.world).faults.socket }
        ensures others { self.new ≡ record self.old { session = after_listen result self.old.session } }
    {
        world.begin(None);
        let answer = self.session.listen(world, self.at);
        world.begin(None);
        answer
    }

    // Closes the control's own sockets.
    fn leave<W: World>(&mut self, world: &mut Aside<W>)
        ensures makes { Makes (W.tells world.old.world) (W.tells world.new.world) (λ made. made ≡ all_closed self.old.session) }
        ensures others { self.new ≡ record self.old { session = over self.old.session } }
    {
        world.begin(None);
        self.session.close_all(world);
        world.begin(None);
    }
}
