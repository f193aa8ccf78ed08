//! The link to the guest: frames after their lengths on a stream, in whatever pieces its octets come and go (QEMU's stream netdev).
//!
//! A frame stands behind its length, four octets with the most significant first. `read_frame` asks for what is missing of the length, then for what is missing of the
//! frame, and keeps what came until it is whole; it is called only where a wait reported the link. `offer` writes a length and a frame, which `encode` put behind one
//! another, by one call. What isn't taken of them is the tail, which `flush` offers first the next time; the link is blocked from a write that took less than it was
//! offered until a wait reports it ready for writing, and nothing is offered meanwhile.
//!
//! Proved: framing over any World: `Link::read_frame` answers exactly as the last answer in that call, or the length, says (`makes`), and where it, `flush` or `offer`
//! fails the count of the link's faults rose (`failed`). `Link::open`, `frame`, `blocked`, `tail`, `unblock`, and `outcome`, what an offer comes to. `offer` writes
//! these octets, which are a frame behind its length (`encoded`), as `encode` leaves them.
//!
//! Let through (rt plant): nothing.
#![tactic(auto)]

ghost use Rattle.std.specs.Prelude.{◌≡◌, ℕ, ◌+◌, ◌-◌, ◌^◌, ◌<◌, ◌≤◌, List, [], ◌++◌, length, take, drop, nat_lt, true, false, IfOk, if◌then◌else◌};
ghost use Rattle.world_face.specs.Journal.{LinkRead, count_of};
ghost use Rattle.world_face.specs.Tells.{Answers, Rose};
ghost use Rattle.world_face.specs.Frames.{encoding};
ghost use Rattle.stream_netdev.specs.Offers.{offered, pumped_of};
ghost use Rattle.world_face.specs.Limits.{most_to_link};

use net_octets::NoMemory;
use std::alloc::Global;
use std::marker::Model;
use world_face::{Io, MOST_FROM_LINK, MOST_TO_LINK, World};

/// The octets in which the length of a frame stands before it.
pub const LENGTH: usize = 4;

/// Room for the greatest frame that may come and its length.
const ROOM: usize = LENGTH + MOST_FROM_LINK;

/// What a read of the link came to.
#[derive(Clone, Copy, Debug, PartialEq, Eq)]
pub enum Arrived {
    /// A frame stands in the buffer, whole.
    Frame,
    /// No whole frame is there yet.
    NotYet,
    /// The guest's side ended between two frames.
    End,
    /// It ended inside a frame or a length, of which so many octets had come.
    Cut(usize),
    /// A length of over 69,632 octets came, this one.
    TooLong(u32),
    /// The link failed.
    Failed,
}

/// What offering a frame to the link came to.
#[derive(Clone, Copy, Debug, PartialEq, Eq)]
pub enum Offered {
    /// All of it is out, or what is left of it stands in the buffer and goes before the next one.
    Taken,
    /// Nothing of it was taken: the link takes no more for now.
    Blocked,
    /// The link failed.
    Failed,
}

/// What sending what is owed came to.
#[derive(Clone, Copy, Debug, PartialEq, Eq)]
pub enum Pumped {
    /// All of it is out.
    Clear,
    /// The link takes no more for now.
    Blocked,
    /// The link failed.
    Failed,
}

enum Look {
    More,
    Whole,
    TooLong(u32),
}

/// A link that carries frames over a stream of octets, each behind its length in four octets, the most significant first: the
/// frame that is coming, and what is left of the one that goes out.
#[derive(Drop)]
pub struct Link {
    buffer: Vec<u8>,
    have: usize,
    whole: bool,
    out: Vec<u8>,
    from: usize,
    to: usize,
    blocked: bool,
}

impl Model for Link {
    ghost use Rattle.std.specs.Prelude.{◌≡◌, ◌+◌, ◌-◌, ◌≤◌, length, take, drop};
    ghost use Rattle.stream_netdev.specs.State.{LinkState};
    ghost use Rattle.world_face.specs.Limits.{most_from_link, most_to_link};

    ghost Value = { LinkState };

    ghost view = { λ l. record { octets = take l.have l.buffer.items; whole = l.whole; tail = take (l.to - l.from) (drop l.from l.out.items); blocked = l.blocked } };

    ghost invariant = { λ l. (l.from ≤ l.to) × (l.to ≤ most_to_link) × (length l.out.items ≡ most_to_link) × (length l.buffer.items ≡ 4 + most_from_link)
        × (l.have ≤ 4 + most_from_link) };
}

impl Link {
    ghost use Rattle.world_face.specs.Journal.{Entry, LinkWrite};
    ghost use Rattle.world_face.specs.Tells.{Makes};
    ghost use Rattle.world_face.specs.Frames.{missing};
    ghost use Rattle.world_face.specs.Frames.{encoded_length};
    ghost use Rattle.stream_netdev.specs.State.{under_way, frame_of};
    ghost use Rattle.stream_netdev.specs.Keeps.{ReadsOn, Keeps, ReadsFrame, EndsBy, GoesOn, Looks, Writes, Settles, ended_after};
    ghost use Rattle.stream_netdev.specs.Offers.{left};

    /// A link of which nothing was read or written, with room for the greatest frames.
    pub fn open(alloc: Global) -> Result<Link, NoMemory>
        ensures { IfOk result (λ link. (under_way link ≡ []) × (link.tail ≡ []) × (link.blocked ≡ false)) }
    {
        let Ok(buffer) = vec![in alloc; 0; ROOM] else {
            return Err(NoMemory);
        };
        let Ok(out) = vec![in alloc; 0; MOST_TO_LINK] else {
            return Err(NoMemory);
        };
        Ok(Link {
            buffer,
            have: 0,
            whole: false,
            out,
            from: 0,
            to: 0,
            blocked: false,
        })
    }

    // The number that the first four octets encode.
    #[tactic(auto, unfolding(world_face::specs::Frames::encoded_length))]
    fn length(&self) -> u32
        requires { 4 ≤ length self.now.octets }
        ensures { result ≡ encoded_length self.now.octets }
    {
        let (front, _) = self.buffer[..self.have].split_at(4);
        u32::from_be_bytes([front[0], front[1], front[2], front[3]])
    }

    // How many octets are missing of the length, or of the frame with its length.
    #[tactic(auto, unfolding(world_face::specs::Frames::missing))]
    fn missing(&self) -> usize
        ensures { result ≡ missing self.now.octets }
    {
        if self.have < 4 {
            4 - self.have
        } else {
            (4 + self.length() as usize).saturating_sub(self.have)
        }
    }

    // Reads some of what is missing.
    fn read_some<W: World>(&mut self, world: &mut W) -> Io
        requires { ReadsOn self.old.octets }
        ensures read { (octets : List ℕ) × Answers (W.tells world.old) (W.tells world.new) (LinkRead (missing self.old.octets) result octets)
            × (self.new.octets ≡ self.old.octets ++ octets) }
        ensures whole { self.new.whole ≡ self.old.whole }
        ensures same { (self.new.tail ≡ self.old.tail) × (self.new.blocked ≡ self.old.blocked) }
    {
        let missing = self.missing();
        let answer = read_part(world, &mut self.buffer, self.have, missing);
        self.have += answer.count();
        answer
    }

    // Makes way for the next frame.
    fn begin(&mut self)
        ensures octets { self.new.octets ≡ under_way self.old }
        ensures whole { self.new.whole ≡ false }
        ensures same { (self.new.tail ≡ self.old.tail) × (self.new.blocked ≡ self.old.blocked) }
    {
        if self.whole {
            self.whole = false;
            self.have = 0;
        }
    }

    // The frame is whole.
    fn finish(&mut self)
        ensures whole { self.new.whole ≡ true }
        ensures same { (self.new.octets ≡ self.old.octets) × (self.new.tail ≡ self.old.tail) × (self.new.blocked ≡ self.old.blocked) }
    {
        self.whole = true;
    }

    // The link ended after these octets of a length or frame.
    fn ended(&self) -> Arrived
        ensures { result ≡ ended_after self.now.octets }
    {
        if self.have == 0 {
            Arrived::End
        } else {
            Arrived::Cut(self.have)
        }
    }

    // What the octets so far come to.
    #[tactic(auto, unfolding(world_face::specs::Frames::missing, world_face::specs::Frames::is_too_long))]
    fn look(&self) -> Look
        ensures { Looks result self.now.octets }
    {
        if self.have < 4 {
            return Look::More;
        }
        let length = self.length();
        if length as usize > MOST_FROM_LINK {
            Look::TooLong(length)
        } else if self.have < 4 + length as usize {
            Look::More
        } else {
            Look::Whole
        }
    }

    /// Reads until a frame is whole, or the World answers otherwise.
    pub fn read_frame<W: World>(&mut self, world: &mut W) -> Arrived
        requires { ReadsOn (under_way self.old) }
        ensures makes { Makes (W.tells world.old) (W.tells world.new) (λ made. EndsBy result made × ((past : List Entry) → Keeps self.old past
            → Keeps self.new (made ++ past) × ReadsFrame result self.new made past)) }
        ensures failed { result ≡ Arrived.Failed → Rose (W.tells world.old).faults.link (W.tells world.new).faults.link }
        ensures same { (self.new.tail ≡ self.old.tail) × (self.new.blocked ≡ self.old.blocked) }
        ensures on { GoesOn result self.new }
    {
        self.begin();
        loop {
            match self.read_some(world) {
                Io::Done(_) => match self.look() {
                    Look::More => {}
                    Look::Whole => {
                        self.finish();
                        return Arrived::Frame;
                    }
                    Look::TooLong(length) => return Arrived::TooLong(length),
                },
                Io::End => return self.ended(),
                Io::NotYet => return Arrived::NotYet,
                Io::Failed => return Arrived::Failed,
            }
        }
    }

    pub fn blocked(&self) -> bool
        ensures { result ≡ self.now.blocked }
    {
        self.blocked
    }

    /// How many octets are left of the frame that went out last.
    pub fn tail(&self) -> usize
        ensures { result ≡ length self.now.tail }
    {
        self.to - self.from
    }

    /// After a wait that reported the link ready for writing.
    pub fn unblock(&mut self)
        ensures free { self.new.blocked ≡ false }
        ensures same { (self.new.tail ≡ self.old.tail) × (self.new.octets ≡ self.old.octets) × (self.new.whole ≡ self.old.whole) }
    {
        self.blocked = false;
    }

    /// The frame that was read last.
    pub fn frame(&self) -> &[u8]
        ensures { result.now ≡ frame_of self.now }
    {
        &self.buffer[..self.have][self.have.min(4)..]
    }

    // Offers the rest.
    fn send<W: World>(&mut self, world: &mut W) -> Offered
        requires { 0 < length self.old.tail }
        ensures sent { (answer : Io) × Answers (W.tells world.old) (W.tells world.new) (LinkWrite self.old.tail answer)
            × (result ≡ offered answer) × (self.new.tail ≡ drop (count_of answer) self.old.tail)
            × (self.new.blocked ≡ nat_lt (count_of answer) (length self.old.tail)) }
        ensures same { under_way self.new ≡ under_way self.old }
    {
        let answer = world.link_write(&self.out[self.from..self.to]);
        let count = answer.count();
        self.blocked = count < self.tail();
        self.from += count;
        offered_of(answer)
    }

    // Keeps what is left of a frame of which the link took something.
    fn keep(&mut self, rest: &[u8])
        requires { length rest.now ≤ most_to_link }
        ensures rest { self.new.tail ≡ rest.now }
        ensures same { (under_way self.new ≡ under_way self.old) × (self.new.blocked ≡ self.old.blocked) }
    {
        put_front(&mut self.out, rest);
        self.from = 0;
        self.to = rest.len();
    }

    /// Offers the rest of the frame that went out last.
    pub fn flush<W: World>(&mut self, world: &mut W) -> Offered
        requires some { 0 < length self.old.tail }
        requires free { self.old.blocked ≡ false }
        ensures makes { Makes (W.tells world.old) (W.tells world.new) (λ made. Writes result self.old.tail made
            × ((past : List Entry) → Keeps self.old past → Keeps self.new (made ++ past))) }
        ensures failed { result ≡ Offered.Failed → Rose (W.tells world.old).faults.link (W.tells world.new).faults.link }
        ensures settles { Settles result self.new }
        ensures same { under_way self.new ≡ under_way self.old }
    {
        self.send(world)
    }

    /// Offers a frame behind its length, as `encode` leaves them. Of what is taken in part the rest is kept, and of the rest alone there is a copy.
    pub fn offer<W: World>(&mut self, world: &mut W, octets: &[u8]) -> Offered
        requires none { self.old.tail ≡ [] }
        requires free { self.old.blocked ≡ false }
        requires encoded { (frame : List ℕ) × (octets.now ≡ encoding frame) }
        requires fits { length octets.now ≤ most_to_link }
        ensures makes { Makes (W.tells world.old) (W.tells world.new) (λ made. Writes result octets.now made
            × ((past : List Entry) → Keeps self.old past → Keeps self.new (made ++ past))) }
        ensures failed { result ≡ Offered.Failed → Rose (W.tells world.old).faults.link (W.tells world.new).faults.link }
        ensures settles { Settles result self.new }
        ensures same { under_way self.new ≡ under_way self.old }
    {
        let answer = world.link_write(octets);
        self.settle(octets, answer);
        offered_of(answer)
    }

    // What is left after an answer of a frame that was offered goes out next: nothing where none of it was taken.
    fn settle(&mut self, octets: &[u8], answer: Io)
        requires fits { length octets.now ≤ most_to_link }
        requires few { count_of answer ≤ length octets.now }
        requires none { self.old.tail ≡ [] }
        ensures rest { self.new.tail ≡ left (offered answer) (drop (count_of answer) octets.now) }
        ensures blocked { self.new.blocked ≡ nat_lt (count_of answer) (length octets.now) }
        ensures same { under_way self.new ≡ under_way self.old }
    {
        let count = answer.count();
        self.blocked = count < octets.len();
        match answer {
            Io::Done(_) => self.keep(&octets[count..]),
            Io::End | Io::NotYet | Io::Failed => {}
        }
    }
}

// Reads into a part of a buffer.
fn read_part<W: World>(world: &mut W, buffer: &mut [u8], from: usize, asked: usize) -> Io
    requires some { 0 < asked }
    requires fits { from + asked ≤ length buffer.old }
    ensures read { (octets : List ℕ) × Answers (W.tells world.old) (W.tells world.new) (LinkRead asked result octets)
        × (take (from + count_of result) buffer.new ≡ take from buffer.old ++ octets) }
    ensures count { count_of result ≤ asked }
{
    world.link_read(&mut buffer[from..from + asked])
}

// The answer of a write, seen by who offered.
fn offered_of(answer: Io) -> Offered
    ensures { result ≡ offered answer }
{
    match answer {
        Io::Done(_) => Offered::Taken,
        Io::End | Io::NotYet => Offered::Blocked,
        Io::Failed => Offered::Failed,
    }
}

// Writes octets at the front of a buffer.
fn put_front(into: &mut [u8], octets: &[u8])
    requires { length octets.now ≤ length into.old }
    ensures { take (length octets.now) into.new ≡ octets.now }
{
    into[..octets.len()].copy_from_slice(octets);
}

/// Writes the length of a frame, which stands in a buffer behind the first `LENGTH` octets, into these, and answers how many octets both have.
#[tactic(auto, unfolding(world_face::specs::Frames::encoding))]
pub fn encode(buffer: &mut [u8], frame: usize) -> usize
    requires small { frame < 2 ^ 32 }
    requires fits { 4 + frame ≤ length buffer.old }
    ensures encoded { take result buffer.new ≡ encoding (take frame (drop 4 buffer.old)) }
    ensures count { result ≡ 4 + frame }
    ensures room { length buffer.new ≡ length buffer.old }
{
    let length = (frame as u32).to_be_bytes();
    buffer[..LENGTH].copy_from_slice(&length);
    LENGTH + frame
}

/// What an offer comes to, where the link is then blocked or not.
pub fn outcome(offered: Offered, blocked: bool) -> Pumped
    ensures { result ≡ pumped_of offered blocked }
{
    match offered {
        Offered::Taken | Offered::Blocked if blocked => Pumped::Blocked,
        Offered::Taken | Offered::Blocked => Pumped::Clear,
        Offered::Failed => Pumped::Failed,
    }
}
