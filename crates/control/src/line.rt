// The octets of lines that came and aren't answered: those of one line at most, or of several short ones.
ghost use Rattle.std.specs.Prelude.{◌≡◌, ℕ, ◌+◌, ◌-◌, ◌≤◌, ◌<◌, ◌++◌, List, [], length, take, drop, IfOk, IfSome};
ghost use Rattle.std.specs.Option.{option_map};
ghost use Rattle.world_face.specs.Journal.{TcpRead, count_of};
ghost use Rattle.world_face.specs.Tells.{Answers};
ghost use Rattle.rules_control.specs.Talk.{first_line, free, is_endless, is_last, line_end, rest_of};

use net_octets::NoMemory;
use std::alloc::Global;
use std::marker::Model;
use world_face::{Io, World};

// A line, and the octet that makes it too long or ends it.
const ROOM: usize = 129;

const LINE_FEED: u8 = 10;

#[derive(Drop)]
pub(crate) struct Line {
    octets: Vec<u8>,
    have: usize,
}

impl Model for Line {
    ghost use Rattle.std.specs.Prelude.{◌≡◌, ◌≤◌, ℕ, List, length, take};

    ghost Value = { List ℕ };

    ghost view = { λ l. take l.have l.octets.items };

    ghost invariant = { λ l. (l.have ≤ 129) × (length l.octets.items ≡ 129) };
}

impl Line {
    pub(crate) fn open(alloc: Global) -> Result<Line, NoMemory>
        ensures { IfOk result (λ line. line ≡ []) }
    {
        let Ok(octets) = vec![in alloc; 0; ROOM] else {
            return Err(NoMemory);
        };
        Ok(Line { octets, have: 0 })
    }

    pub(crate) fn clear(&mut self)
        ensures { self.new ≡ [] }
    {
        self.have = 0;
    }

    // The place of the first line feed, which is how many octets the first line has.
    fn end(&self) -> Option<usize>
        ensures place { result ≡ line_end self.now }
        ensures within { IfSome result (λ n. n < length self.now) }
    {
        self.octets[..self.have]
            .iter()
            .position(|octet| *octet == LINE_FEED)
    }

    // The first line, where it is whole.
    pub(crate) fn first(&self) -> Option<&[u8]>
        ensures { option_map (λ line. line.now) result ≡ option_map (λ split. split.0) (first_line self.now) }
    {
        let end = self.end()?;
        Some(&self.octets[..self.have][..end])
    }

    // Takes the first line and its line feed out.
    pub(crate) fn advance(&mut self)
        ensures { self.new ≡ rest_of self.old (first_line self.old) }
    {
        if let Some(end) = self.end() {
            self.drop_front(end);
        }
    }

    // Takes out what is in front of this place, and the octet at it.
    fn drop_front(&mut self, end: usize)
        requires { end < length self.old }
        ensures { self.new ≡ drop (end + 1) self.old }
    {
        self.octets.copy_within(end + 1..self.have, 0);
        self.have -= end + 1;
    }

    // Whether what came is more than a line has, without a line feed.
    fn is_endless(&self) -> bool
        ensures { result ≡ is_endless self.now }
    {
        self.have == ROOM && self.end().is_none()
    }

    pub(crate) fn ends(&self, answer: Io) -> bool
        ensures { result ≡ is_last answer self.now }
    {
        match answer {
            Io::Done(_) => self.is_endless(),
            Io::End | Io::Failed => true,
            Io::NotYet => false,
        }
    }

    // Reads what is free.
    pub(crate) fn read<W: World>(&mut self, world: &mut W, connection: u64) -> Io
        requires { 0 < free self.old }
        ensures { (octets : List ℕ) × Answers (W.tells world.old) (W.tells world.new) (TcpRead connection (free self.old) result octets) × (self.new ≡ self.old ++ octets) }
    {
        let answer = read_part(world, connection, &mut self.octets, self.have);
        self.have += answer.count();
        answer
    }
}

// Reads into the rest of a buffer.
fn read_part<W: World>(world: &mut W, connection: u64, buffer: &mut [u8], from: usize) -> Io
    requires { from < length buffer.old }
    ensures read { (octets : List ℕ) × Answers (W.tells world.old) (W.tells world.new) (TcpRead connection (length buffer.old - from) result octets)
        × (take (from + count_of result) buffer.new ≡ take from buffer.old ++ octets) }
    ensures count { from + count_of result ≤ length buffer.old }
    ensures size { length buffer.new ≡ length buffer.old }
{
    world.tcp_read(connection, &mut buffer[from..])
}
