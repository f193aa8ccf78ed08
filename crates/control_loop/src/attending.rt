// Between two turns: what was reported of the control gets its call, and a line that is whole is answered.
ghost use Rattle.std.specs.Prelude.{◌≡◌, ◌≢◌, ◌≤◌, ◌<◌, ◌+◌, ◌^◌, ◌++◌, ◌∷◌, [], ℕ, List, Option, Some, None, IfNone, IfSome, true, false, is_some, length, take};
ghost use Rattle.std.specs.Result.{is_ok, result_err};
ghost use Rattle.world_face.specs.Journal.{Accept, Allowed, Entry as AnEntry, TcpRead, TcpWrite};
ghost use Rattle.world_face.specs.Tells.{Makes};
ghost use Rattle.world_face.specs.declared.Accepted.{Accepted as AnAccepted};
ghost use Rattle.world_face.specs.declared.Io.{Io as AnIo};
ghost use Rattle.rules_control.specs.Talk.{after_accept, after_line, after_read, after_write, closed_if, fails, first_line, free, has_line, is_last, is_out, is_to_answer, listener, most_at_once, next_peer, want_of, with_left};
ghost use Rattle.rules_control.specs.Commands.{Means};
ghost use Rattle.spec_control.specs.Replies.{flow_lines, forward_lines, list_reply, reply_line};
ghost use Rattle.slirp_settings.specs.Addresses.{Config};
ghost use Rattle.rules_forward.specs.Adding.{Adds};
ghost use Rattle.rules_forward.specs.Opened.{socket_at, without};
ghost use Rattle.slirp_core.specs.Added.{MayAdd, MayRemove, closed_at, number_after};
ghost use Rattle.control_loop.specs.Standing.{Asks, AttendsOn, HasPorts, IsHeld, IsReady, IsSet, KeepsOn, Leads, Owes, Says, Stands, cause_against};
ghost use Rattle.rules_control.specs.Reports.{tells_lines, tells_room};
ghost use Rattle.spec_control.specs.ControlServer.{flows_in_use};
ghost use Rattle.rules_control.specs.Apart.{reported_of};
ghost use Rattle.poll_list.specs.Picks.{as_list};
ghost use Rattle.poll_list.specs.declared.Want.{Want as AnItem};
ghost use Rattle.spec_flows.specs.Book.{book};
ghost use Rattle.serve_loop.specs.Turns.{AttendsNow};
ghost use Rattle.slirp_core.specs.Holds.{after};

use crate::control_server::ControlServer;
use control::{Aside, added_text, flow_line, forward_line, read_command, removed_text};
use net_octets::Endpoint;
use rules_control::{Command, Reported, is_its_own};
use serve_loop::{FwdFault, NotThere};
use slirp_settings::{Forward, Proto};
use world_face::World;

// So many ports of the host are given to guests at most, and so many connections are in use.
const MOST_PORTS: usize = 32;

const MOST_FLOWS: usize = 4096;

impl ControlServer {
    // Takes a peer, where one waits.
    fn accept<W: World>(&mut self, world: &mut Aside<W>)
        requires listens { self.old.session.listening ≡ true }
        requires alone { self.old.session.peer ≡ None }
        requires few { self.old.session.had < 2 ^ 62 }
        ensures { (answer : AnAccepted) × Makes (W.tells world.old.world) (W.tells world.new.world) (λ made. made ≡ Accept listener (next_peer self.old.session) answer ∷ [])
            × (self.new ≡ record self.old { session = after_accept answer self.old.session }) }
    {
        world.begin(None);
        self.session.accept(world);
        world.begin(None);
    }

    // Reads octets of lines; where that was the connection's last call it is closed.
    fn read<W: World>(&mut self, world: &mut Aside<W>, connection: u64)
        requires open { self.old.session.peer ≡ Some connection }
        requires out { is_out self.old.session ≡ true }
        requires unread { has_line self.old.session.kept ≡ false }
        requires room { 0 < free self.old.session.kept }
        ensures { (answer : AnIo) × (octets : List ℕ)
            × Allowed (TcpRead connection (free self.old.session.kept) answer octets)
            × Makes (W.tells world.old.world) (W.tells world.new.world)
            (λ made. made ≡ closed_if (is_last answer (self.old.session.kept ++ octets)) connection ++ (TcpRead connection (free self.old.session.kept) answer octets ∷ []))
            × (self.new ≡ record self.old { session = after_read answer octets self.old.session }) }
    {
        world.begin(None);
        self.session.read(world, connection);
        world.begin(None);
    }

    // Offers what is left of the reply.
    fn write<W: World>(&mut self, world: &mut Aside<W>, connection: u64)
        requires open { self.old.session.peer ≡ Some connection }
        requires some { 0 < length self.old.session.left }
        ensures { (answer : AnIo)
            × Makes (W.tells world.old.world) (W.tells world.new.world)
            (λ made. made ≡ closed_if (fails answer) connection ++ (TcpWrite connection (take most_at_once self.old.session.left) answer ∷ []))
            × (self.new ≡ record self.old { session = after_write answer self.old.session }) }
    {
        world.begin(None);
        self.session.write(world, connection);
        world.begin(None);
    }

    // Takes the line out that is to be answered now, where one is, and reads it.
    fn next_command(&mut self) -> Option<Command>
        ensures none { IfNone result ((self.new ≡ self.old) × (is_to_answer self.old.session ≡ false)) }
        ensures some { IfSome result (λ command. (split : List ℕ × List ℕ) × (is_out self.old.session ≡ true) × (is_some self.old.session.peer ≡ true)
            × (first_line self.old.session.kept ≡ Some split) × Means self.old.guest.0 split.0 command × (self.new ≡ record self.old { session = after_line self.old.session })) }
    {
        let line = self.session.line()?;
        let command = read_command(line, self.guest);
        self.session.drop_line();
        Some(command)
    }

    // Says a text and a line feed, where no reply is left.
    fn say(&mut self, text: &str)
        requires open { is_some self.old.session.peer ≡ true }
        requires short { length text.now ≤ 9 }
        requires out { self.old.session.left ≡ [] }
        ensures said { self.new ≡ record self.old { session = with_left (reply_line text.now) self.old.session } }
        ensures says { Says self.old.session self.new.session }
    {
        self.session.reply(text.as_bytes());
        self.session.reply(b"\n");
    }

    // Gives a port of the host to a guest, unless something speaks against it.
    fn open_port<W: World>(
        &mut self,
        world: &mut Aside<W>,
        forward: Forward,
    ) -> Result<(), FwdFault>
        requires number { self.old.service.slirp.number + 1 < 2 ^ 64 }
        requires host_port { forward.host.port ≢ 0 }
        requires guest_port { forward.guest.port ≢ 0 }
        ensures adds { Makes (W.tells world.old.world) (W.tells world.new.world) (λ made.
            Adds (cause_against self.old.service.slirp.config self.old.at forward self.old.service.slirp.forwards) forward self.old.service.slirp.number
            self.old.service.slirp.forwards self.new.service.slirp.forwards (result_err result) made
            × AttendsOn (λ settings. MayAdd settings self.old.service.slirp forward) self.old.service self.new.service made) }
        ensures slirp { self.new.service.slirp ≡ record self.old.service.slirp { number = number_after (result_err result) self.old.service.slirp.number; forwards = self.new.service.slirp.forwards } }
        ensures link { self.new.service.link ≡ self.old.service.link }
        ensures others { self.new ≡ record self.old { service = self.new.service } }
    {
        if is_its_own(&forward, self.at) {
            return Err(FwdFault::Taken);
        }
        world.begin(None);
        let added = self.service.add_hostfwd(world, forward);
        world.begin(None);
        added
    }

    // Takes one back.
    fn close_port<W: World>(
        &mut self,
        world: &mut Aside<W>,
        proto: Proto,
        host: Endpoint,
    ) -> Result<(), NotThere>
        ensures closes { Makes (W.tells world.old.world) (W.tells world.new.world) (λ made.
            (made ≡ closed_at (socket_at proto host self.old.service.slirp.forwards))
            × AttendsOn (λ settings. MayRemove settings self.old.service.slirp proto host) self.old.service self.new.service made) }
        ensures found { is_ok result ≡ is_some (socket_at proto host self.old.service.slirp.forwards) }
        ensures slirp { self.new.service.slirp ≡ record self.old.service.slirp { forwards = without proto host self.old.service.slirp.forwards } }
        ensures link { self.new.service.link ≡ self.old.service.link }
        ensures others { self.new ≡ record self.old { service = self.new.service } }
    {
        world.begin(None);
        let removed = self.service.remove_hostfwd(world, proto, host);
        world.begin(None);
        removed
    }

    // Gives a port of the host to a guest, where nothing speaks against it, and says what came of it.
    fn add<W: World>(&mut self, world: &mut Aside<W>, forward: Forward)
        requires open { is_some self.old.session.peer ≡ true }
        requires out { self.old.session.left ≡ [] }
        requires number { self.old.service.slirp.number + 1 < 2 ^ 63 }
        requires host_port { forward.host.port ≢ 0 }
        requires guest_port { forward.guest.port ≢ 0 }
        requires set { IsSet self.old.service.slirp.config self.old.at self.old.guest }
        ensures makes { Makes (W.tells world.old.world) (W.tells world.new.world)
            (Leads self.old.service.slirp.config (Asks (Command.Add forward) self.old.session self.old.service.slirp self.old.service.link)
            (Stands [] self.new.session self.new.service.slirp self.new.service.link)) }
        ensures says { Says self.old.session self.new.session }
        ensures keeps { KeepsOn self.old.service self.new.service }
        ensures others { self.new ≡ record self.old { service = self.new.service; session = self.new.session } }
    {
        let added = self.open_port(world, forward);
        self.say(added_text(added));
    }

    // Takes a port of the host back, where a forward has it, and says whether one had.
    fn remove<W: World>(&mut self, world: &mut Aside<W>, proto: Proto, host: Endpoint)
        requires open { is_some self.old.session.peer ≡ true }
        requires out { self.old.session.left ≡ [] }
        requires number { self.old.service.slirp.number < 2 ^ 63 }
        requires set { IsSet self.old.service.slirp.config self.old.at self.old.guest }
        ensures makes { Makes (W.tells world.old.world) (W.tells world.new.world)
            (Leads self.old.service.slirp.config (Asks (Command.Remove proto host) self.old.session self.old.service.slirp self.old.service.link)
            (Stands [] self.new.session self.new.service.slirp self.new.service.link)) }
        ensures says { Says self.old.session self.new.session }
        ensures keeps { KeepsOn self.old.service self.new.service }
        ensures others { self.new ≡ record self.old { service = self.new.service; session = self.new.session } }
    {
        let removed = self.close_port(world, proto, host);
        self.say(removed_text(removed.is_ok()));
    }

    // Follows a command, and says what came of it.
    fn follow<W: World>(&mut self, world: &mut Aside<W>, command: Command)
        requires open { is_some self.old.session.peer ≡ true }
        requires out { self.old.session.left ≡ [] }
        requires number { self.old.service.slirp.number < 10 ^ 17 }
        requires ports { HasPorts command }
        requires set { IsSet self.old.service.slirp.config self.old.at self.old.guest }
        ensures makes { Makes (W.tells world.old.world) (W.tells world.new.world)
            (Leads self.old.service.slirp.config (Asks command self.old.session self.old.service.slirp self.old.service.link)
            (Stands [] self.new.session self.new.service.slirp self.new.service.link)) }
        ensures says { Says self.old.session self.new.session }
        ensures keeps { KeepsOn self.old.service self.new.service }
        ensures others { self.new ≡ record self.old { service = self.new.service; session = self.new.session } }
    {
        match command {
            Command::Add(forward) => self.add(world, forward),
            Command::Remove(proto, host) => self.remove(world, proto, host),
            Command::List => self.list(),
            Command::What => self.say("what"),
        }
    }

    // Answers the first line, where it is whole, a connection is open and no reply is left.
    pub(crate) fn answer<W: World>(&mut self, world: &mut Aside<W>)
        requires held { IsHeld self.old.session }
        requires number { self.old.service.slirp.number < 10 ^ 17 }
        requires set { IsSet self.old.service.slirp.config self.old.at self.old.guest }
        ensures makes { Makes (W.tells world.old.world) (W.tells world.new.world)
            (Leads self.old.service.slirp.config (Owes self.old.session self.old.service.slirp self.old.service.link)
            (Stands [] self.new.session self.new.service.slirp self.new.service.link)) }
        ensures ready { IsReady self.new.session }
        ensures had { self.new.session.had ≡ self.old.session.had }
        ensures keeps { KeepsOn self.old.service self.new.service }
        ensures others { self.new ≡ record self.old { service = self.new.service; session = self.new.session } }
    {
        if let Some(command) = self.next_command() {
            self.follow(world, command);
        }
    }

    // After a turn: what its wait reported of the control gets its one call, and a line that is whole then is answered.
    pub(crate) fn attend<W: World>(&mut self, world: &mut Aside<W>)
        requires ready { IsReady self.old.session }
        requires few { self.old.session.had < 2 ^ 62 }
        requires number { self.old.service.slirp.number < 10 ^ 17 }
        requires set { IsSet self.old.service.slirp.config self.old.at self.old.guest }
        requires reported { (ready : List AnItem) × (world.old.reported ≡ reported_of (as_list (want_of self.old.session)) ready) }
        ensures makes { Makes (W.tells world.old.world) (W.tells world.new.world)
            (Leads self.old.service.slirp.config (Stands world.old.reported self.old.session self.old.service.slirp self.old.service.link)
            (Stands [] self.new.session self.new.service.slirp self.new.service.link)) }
        ensures ready { IsReady self.new.session }
        ensures had { self.new.session.had ≤ self.old.session.had + 1 }
        ensures keeps { KeepsOn self.old.service self.new.service }
        ensures others { self.new ≡ record self.old { service = self.new.service; session = self.new.session } }
    {
        let reported = world.reported();
        match self.session.connection() {
            None => {
                if reported.peer {
                    self.accept(world);
                }
            }
            Some(connection) => self.attend_connection(world, connection, reported),
        }
    }

    // Reads on the connection or writes to it, as was reported, and answers a line that is whole then.
    fn attend_connection<W: World>(
        &mut self,
        world: &mut Aside<W>,
        connection: u64,
        reported: Reported,
    )
        requires open { self.old.session.peer ≡ Some connection }
        requires ready { IsReady self.old.session }
        requires number { self.old.service.slirp.number < 10 ^ 17 }
        requires set { IsSet self.old.service.slirp.config self.old.at self.old.guest }
        requires lines { reported.lines ≡ tells_lines world.old.reported }
        requires room { reported.room ≡ tells_room world.old.reported }
        requires reported { (ready : List AnItem) × (world.old.reported ≡ reported_of (as_list (want_of self.old.session)) ready) }
        ensures makes { Makes (W.tells world.old.world) (W.tells world.new.world)
            (Leads self.old.service.slirp.config (Stands world.old.reported self.old.session self.old.service.slirp self.old.service.link)
            (Stands [] self.new.session self.new.service.slirp self.new.service.link)) }
        ensures ready { IsReady self.new.session }
        ensures had { self.new.session.had ≡ self.old.session.had }
        ensures keeps { KeepsOn self.old.service self.new.service }
        ensures others { self.new ≡ record self.old { service = self.new.service; session = self.new.session } }
    {
        if reported.lines {
            self.read(world, connection);
            self.answer(world);
        } else if reported.room {
            self.write(world, connection);
            self.answer(world);
        }
    }

    // Tells the ports of the host that are given to guests, in the order in which they were added, and the connections in use, by rising number.
    fn list(&mut self)
        requires open { is_some self.old.session.peer ≡ true }
        requires out { self.old.session.left ≡ [] }
        requires number { self.old.service.slirp.number < 10 ^ 17 }
        requires few { self.old.service.slirp.config.flows ≤ 4096 }
        ensures listed { (settings : Config) (count : ℕ) (past : List AnEntry) → AttendsNow settings (after count) false self.old.service.slirp self.old.service.link past
            → self.new.session ≡ with_left (list_reply self.old.service.slirp.forwards (flows_in_use (book settings past).flows)) self.old.session }
        ensures says { Says self.old.session self.new.session }
        ensures others { self.new ≡ record self.old { session = self.new.session } }
    {
        self.list_ports();
        self.list_flows();
        self.session.reply(b"ok\n");
    }

    // A line for each port of the host.
    fn list_ports(&mut self)
        requires open { is_some self.old.session.peer ≡ true }
        requires out { self.old.session.left ≡ [] }
        ensures told { self.new ≡ record self.old { session = with_left (forward_lines self.old.service.slirp.forwards) self.old.session } }
        ensures few { length self.new.session.left ≤ 1792 }
    {
        for place in 0..MOST_PORTS {
            let Some((forward, _)) = self.service.forward(place) else {
                return;
            };
            self.session
                .reply(forward_line(&forward).as_str().as_bytes());
        }
    }

    // A line for each connection in use.
    fn list_flows(&mut self)
        requires open { is_some self.old.session.peer ≡ true }
        requires room { length self.old.session.left ≤ 1792 }
        requires number { self.old.service.slirp.number < 10 ^ 17 }
        requires few { self.old.service.slirp.config.flows ≤ 4096 }
        ensures told { (settings : Config) (count : ℕ) (past : List AnEntry) → AttendsNow settings (after count) false self.old.service.slirp self.old.service.link past
            → self.new.session ≡ with_left (self.old.session.left ++ flow_lines (flows_in_use (book settings past).flows)) self.old.session }
        ensures few { length self.new.session.left ≤ 276224 }
        ensures talk { self.new.session ≡ with_left self.new.session.left self.old.session }
        ensures others { self.new ≡ record self.old { session = self.new.session } }
    {
        let mut last = None;
        for _count in 0..MOST_FLOWS {
            let Some((number, ends)) = self.service.flow_after(last) else {
                return;
            };
            self.session
                .reply(flow_line(number, &ends).as_str().as_bytes());
            last = Some(number);
        }
    }
}
