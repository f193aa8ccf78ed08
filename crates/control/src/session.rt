// The control's connection: a listener of the host's with one connection at a time, on which lines come and replies go.
//
// What lines mean isn't known here. A line ends with a line feed and has at most 128 octets before it; a connection that brings 129 octets without one is closed, and so is one
// that ended or failed, whose reply is dropped. Nothing is read while a reply is left, nor while a whole line is kept: so lines are answered one after another. All memory is taken
// when the session opens.
ghost use Rattle.std.specs.Prelude.{◌≡◌, ℕ, ◌+◌, ◌≤◌, ◌<◌, ◌^◌, ◌++◌, ◌∷◌, List, [], length, take, true, false, is_some, Some, None, IfNone, IfOk, IfSome};
ghost use Rattle.world_face.specs.Journal.{Listen, Accept, Close, TcpRead, TcpWrite};
ghost use Rattle.world_face.specs.declared.Accepted.{Accepted as AnAccepted};
ghost use Rattle.world_face.specs.declared.Io.{Io as AnIo};
ghost use Rattle.world_face.specs.Tells.{Answers, Makes};
ghost use Rattle.rules_control.specs.Talk.{after_accept, after_line, after_listen, after_read, after_write, all_closed, closed_if, deaf, fails, first_line, free, has_line};
ghost use Rattle.rules_control.specs.Talk.{hung_up, is_last, is_out, is_to_answer, listener, listener_want, longest_reply, most_at_once, next_peer, over, peer_closed, peer_want, silent, want_of};

use crate::line::Line;
use crate::reply::Reply;
use net_octets::{Endpoint, NoMemory};
use poll_list::{Want, Who};
use rules_control::LISTENER;
use std::alloc::Global;
use std::marker::Model;
use world_face::{Accepted, Io, Made, World};

/// The octets of one reply at most.
pub const LONGEST_REPLY: usize = 280_000;

/// The listener, the connection where one is open, and what came on it and is to go out on it.
///
/// A contract sees whether the listener is open, the number of the connection, how many there have been, the octets of lines that aren't answered, and what is left of the reply.
#[derive(Drop)]
pub struct Session {
    listening: bool,
    peer: Option<u64>,
    had: u64,
    line: Line,
    reply: Reply,
}

impl Model for Session {
    ghost use Rattle.rules_control.specs.Talk.{Talk};

    ghost Value = { Talk };

    ghost view = { λ s. record { listening = s.listening; peer = s.peer; had = s.had; kept = s.line; left = s.reply.left } };
}

impl Session {
    /// Nobody listens, and nothing came. It takes all the memory that it will ever need.
    ///
    /// # Errors
    /// `NoMemory` where no memory is left.
    pub fn open(alloc: Global) -> Result<Session, NoMemory>
        ensures { IfOk result (λ session. session ≡ silent) }
    {
        Ok(Session {
            listening: false,
            peer: None,
            had: 0,
            line: Line::open(alloc)?,
            reply: Reply::open(alloc)?,
        })
    }

    /// Opens the listener at this place of the host. Where that fails nobody listens.
    pub fn listen<W: World>(&mut self, world: &mut W, at: Endpoint) -> Made
        ensures call { Answers (W.tells world.old) (W.tells world.new) (Listen listener at result) }
        ensures talk { self.new ≡ after_listen result self.old }
    {
        let answer = world.listen(LISTENER, at);
        if let Made::Done = answer {
            self.listening = true;
        }
        answer
    }

    /// The number of the connection. None exactly where none is open.
    pub fn connection(&self) -> Option<u64>
        ensures { result ≡ self.now.peer }
    {
        self.peer
    }

    /// Whether the listener is open.
    pub fn listens(&self) -> bool
        ensures { result ≡ self.now.listening }
    {
        self.listening
    }

    // Whether nothing is left of the reply.
    fn is_out(&self) -> bool
        ensures { result ≡ is_out self.now }
    {
        self.reply.left().is_empty()
    }

    /// What is waited for now: a peer where no connection is open, lines where no reply is left, and else that the connection takes some of it. None where the listener isn't open either.
    pub fn want(&self) -> Option<Want>
        ensures { result ≡ want_of self.now }
    {
        match self.peer {
            Some(connection) => Some(self.want_of_peer(connection)),
            None => self.want_of_listener(),
        }
    }

    fn want_of_listener(&self) -> Option<Want>
        ensures { result ≡ listener_want self.now.listening }
    {
        if self.listening {
            Some(Want {
                of: Who::Listener(LISTENER),
                read: true,
                write: false,
            })
        } else {
            None
        }
    }

    fn want_of_peer(&self, connection: u64) -> Want
        ensures { result ≡ peer_want connection (is_out self.now) }
    {
        let is_out = self.is_out();
        Want {
            of: Who::Tcp(connection),
            read: is_out,
            write: !is_out,
        }
    }

    /// The line that is to be answered now, without its line feed: the first one. None exactly where no line is whole, a reply is left or no connection is open.
    pub fn line(&self) -> Option<&[u8]>
        ensures none { IfNone result (is_to_answer self.now ≡ false) }
        ensures some { IfSome result (λ line. (split : List ℕ × List ℕ) × (is_out self.now ≡ true) × (is_some self.now.peer ≡ true)
            × (first_line self.now.kept ≡ Some split) × (line.now ≡ split.0)) }
    {
        if !self.is_out() || self.peer.is_none() {
            return None;
        }
        self.line.first()
    }

    /// Takes the first whole line out, with its line feed; nothing where none is whole. What is left of a reply stays.
    pub fn drop_line(&mut self)
        ensures { self.new ≡ after_line self.old }
    {
        self.line.advance();
    }

    /// Puts octets at the end of the reply.
    pub fn reply(&mut self, octets: &[u8])
        requires open { is_some self.old.peer ≡ true }
        requires fits { length self.old.left + length octets.now ≤ longest_reply }
        ensures { self.new ≡ record self.old { left = self.old.left ++ octets.now } }
    {
        self.reply.put(octets);
    }

    /// Takes a peer, where one waits: its connection has the next number, and no line came on it.
    pub fn accept<W: World>(&mut self, world: &mut W)
        requires listens { self.old.listening ≡ true }
        requires alone { self.old.peer ≡ None }
        requires few { self.old.had < 2 ^ 62 }
        ensures { (answer : AnAccepted) × Answers (W.tells world.old) (W.tells world.new) (Accept listener (next_peer self.old) answer) × (self.new ≡ after_accept answer self.old) }
    {
        let next = LISTENER + 1 + self.had;
        let answer = world.accept(LISTENER, next);
        self.meet(answer, next);
    }

    // A peer came, or none did.
    fn meet(&mut self, answer: Accepted, next: u64)
        requires few { self.old.had < 2 ^ 62 }
        requires next { next ≡ next_peer self.old }
        ensures { self.new ≡ after_accept answer self.old }
    {
        if let Accepted::From(_) = answer {
            self.peer = Some(next);
            self.had += 1;
            self.line.clear();
            self.reply.clear();
        }
    }

    /// Reads octets of lines, as many as a line has room for: 129 without those that are kept. A connection that ended, failed, or brought 129 octets without a line feed is closed.
    pub fn read<W: World>(&mut self, world: &mut W, connection: u64)
        requires open { self.old.peer ≡ Some connection }
        requires out { is_out self.old ≡ true }
        requires unread { has_line self.old.kept ≡ false }
        requires room { 0 < free self.old.kept }
        ensures { (answer : AnIo) × (octets : List ℕ)
            × Makes (W.tells world.old) (W.tells world.new) (λ made. made ≡ closed_if (is_last answer (self.old.kept ++ octets)) connection
            ++ (TcpRead connection (free self.old.kept) answer octets ∷ []))
            × (self.new ≡ after_read answer octets self.old) }
    {
        let answer = self.line.read(world, connection);
        if self.line.ends(answer) {
            self.hang_up(world, connection);
        }
    }

    /// Offers what is left of the reply, 16,384 octets at most; where that fails the connection is closed.
    pub fn write<W: World>(&mut self, world: &mut W, connection: u64)
        requires open { self.old.peer ≡ Some connection }
        requires some { 0 < length self.old.left }
        ensures { (answer : AnIo)
            × Makes (W.tells world.old) (W.tells world.new) (λ made. made ≡ closed_if (fails answer) connection ++ (TcpWrite connection (take most_at_once self.old.left) answer ∷ []))
            × (self.new ≡ after_write answer self.old) }
    {
        let answer = self.reply.write(world, connection);
        if is_failed(answer) {
            self.hang_up(world, connection);
        }
    }

    // Closes the connection; no line is kept, and no reply is left.
    fn hang_up<W: World>(&mut self, world: &mut W, connection: u64)
        ensures call { Answers (W.tells world.old) (W.tells world.new) (Close connection) }
        ensures talk { self.new ≡ hung_up self.old }
    {
        world.close(connection);
        self.peer = None;
        self.line.clear();
        self.reply.clear();
    }

    /// Closes the listener and then the connection, each where it is open.
    pub fn close_all<W: World>(&mut self, world: &mut W)
        ensures calls { Makes (W.tells world.old) (W.tells world.new) (λ made. made ≡ all_closed self.old) }
        ensures talk { self.new ≡ over self.old }
    {
        self.stop_listening(world);
        self.leave(world);
    }

    // Closes the listener, where it is open.
    fn stop_listening<W: World>(&mut self, world: &mut W)
        ensures calls { Makes (W.tells world.old) (W.tells world.new) (λ made. made ≡ closed_if self.old.listening listener) }
        ensures talk { self.new ≡ deaf self.old }
    {
        if self.listening {
            world.close(LISTENER);
            self.listening = false;
        }
    }

    // Closes the connection, where one is open.
    fn leave<W: World>(&mut self, world: &mut W)
        ensures calls { Makes (W.tells world.old) (W.tells world.new) (λ made. made ≡ peer_closed self.old.peer) }
        ensures talk { self.new ≡ hung_up self.old }
    {
        match self.peer {
            Some(connection) => self.hang_up(world, connection),
            None => {
                self.line.clear();
                self.reply.clear();
            }
        }
    }
}

// Whether a call failed.
fn is_failed(answer: Io) -> bool
    ensures { result ≡ fails answer }
{
    matches!(answer, Io::Failed)
}
