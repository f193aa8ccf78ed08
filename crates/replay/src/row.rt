// The lines of a schedule, with their stars.
#![tactic(auto)]

ghost use Rattle.std.specs.Prelude.{◌≡◌, ℕ, List, IsTrue, false};
ghost use Rattle.poll_list.specs.declared.Want.{Want as AWant};
ghost use Rattle.replay.specs.Fitting.{Refuses, Serves, wrote};
ghost use Rattle.replay.specs.Lines.{call_at, entry_of, row_of};
ghost use Rattle.replay.specs.Range.{AnswersInRange, InRange};
ghost use Rattle.replay.specs.Room.{kind_of, OnLink, Opening, OnStream, OfDatagram, OnFile};

use crate::allowing::{
    is_endpoint, is_path, may_get, may_read, may_read_file, may_wait, may_write, same, same_wants,
};
use crate::line::{Line, Stop};
use world_face::{Io, Want};

/// A line, whether a star stands for its call's arguments, and whether `all` stands for the count of its write.
#[derive(Drop)]
pub struct Row {
    pub line: Line,
    pub starred: bool,
    pub all: bool,
}

/// What a write of these octets is answered: that all of them were taken where `all` stands for the count, else `answer`.
pub fn wrote(all: bool, octets: &[u8], answer: Io) -> Io
    ensures { result ≡ wrote all octets.now answer }
{
    if all {
        return Io::Done(octets.len());
    }
    answer
}

impl Row {
    /// Whether the line serves this call: it is of that call, it has the same arguments or a star for them, and its answer is one that a World may
    /// give to it.
    pub fn fits(&self, given: Stop, octets: &[u8], wants: &[Want]) -> bool
        requires asked { InRange (call_at given octets.now wants.now) }
        requires answer { AnswersInRange (entry_of self.now.line) }
        ensures found { IsTrue result → Serves (row_of self.now) (call_at given octets.now wants.now) }
        ensures none { result ≡ false → Refuses (row_of self.now) (call_at given octets.now wants.now) }
    {
        match given {
            Stop::Now => matches!(&self.line, Line::Now(_)),
            Stop::Wait(_)
            | Stop::LinkOpenPath
            | Stop::LinkOpenAt(_)
            | Stop::LinkRead(_)
            | Stop::LinkWrite => self.fits_link(given, octets, wants),
            Stop::Connect(_, _) | Stop::Connected(_) | Stop::Listen(_, _) | Stop::Accept(_, _) => {
                self.fits_opening(given)
            }
            Stop::TcpRead(_, _) | Stop::TcpWrite(_) | Stop::TcpEnd(_) | Stop::Close(_) => {
                self.fits_stream(given, octets)
            }
            Stop::UdpOpen(_, _) | Stop::UdpSend(_, _) | Stop::UdpRecv(_, _) => {
                self.fits_datagram(given, octets)
            }
            Stop::FileLen | Stop::FileRead(_, _) => self.fits_file(given, octets),
        }
    }

    // Whether it is of this wait or this call of the link.
    fn fits_link(&self, given: Stop, octets: &[u8], wants: &[Want]) -> bool
        requires asked { InRange (call_at given octets.now wants.now) }
        requires answer { AnswersInRange (entry_of self.now.line) }
        ensures found { IsTrue result → kind_of given ≡ OnLink → Serves (row_of self.now) (call_at given octets.now wants.now) }
        ensures none { result ≡ false → kind_of given ≡ OnLink → Refuses (row_of self.now) (call_at given octets.now wants.now) }
    {
        match given {
            Stop::Wait(timeout) => match &self.line {
                Line::Wait(w, t, answer, ready) => {
                    (self.starred || (same_wants(w, wants) && *t == timeout))
                        && may_wait(wants, *answer, ready)
                }
                _ => false,
            },
            Stop::LinkOpenPath => match &self.line {
                Line::LinkOpen(seat, _) => self.starred || is_path(seat, octets),
                _ => false,
            },
            Stop::LinkOpenAt(at) => match &self.line {
                Line::LinkOpen(seat, _) => self.starred || is_endpoint(seat, at),
                _ => false,
            },
            Stop::LinkRead(asked) => match &self.line {
                Line::LinkRead(n, answer, _) => {
                    (self.starred || *n == asked) && may_read(asked, *answer)
                }
                _ => false,
            },
            Stop::LinkWrite => match &self.line {
                Line::LinkWrite(offered, said) => {
                    let answer = wrote(self.all, octets, *said);
                    (self.starred || same(offered, octets)) && may_write(octets.len(), answer)
                }
                _ => false,
            },
            _ => false,
        }
    }

    // Whether it is of this call that opens a stream.
    fn fits_opening(&self, given: Stop) -> bool
        requires { AnswersInRange (entry_of self.now.line) }
        ensures found { IsTrue result → kind_of given ≡ Opening → (octets : List ℕ) (wants : List AWant) → Serves (row_of self.now) (call_at given octets wants) }
        ensures none { result ≡ false → kind_of given ≡ Opening → (octets : List ℕ) (wants : List AWant) → Refuses (row_of self.now) (call_at given octets wants) }
    {
        match given {
            Stop::Connect(c, to) => match &self.line {
                Line::Connect(socket, at, _) => self.starred || (*socket == c && *at == to),
                _ => false,
            },
            Stop::Connected(c) => match &self.line {
                Line::Connected(socket, _) => self.starred || *socket == c,
                _ => false,
            },
            Stop::Listen(l, at) => match &self.line {
                Line::Listen(socket, here, _) => self.starred || (*socket == l && *here == at),
                _ => false,
            },
            Stop::Accept(l, c) => match &self.line {
                Line::Accept(listener, socket, _) => {
                    self.starred || (*listener == l && *socket == c)
                }
                _ => false,
            },
            _ => false,
        }
    }

    // Whether it is of this call on a stream.
    fn fits_stream(&self, given: Stop, octets: &[u8]) -> bool
        requires { AnswersInRange (entry_of self.now.line) }
        ensures found { IsTrue result → kind_of given ≡ OnStream → (wants : List AWant) → Serves (row_of self.now) (call_at given octets.now wants) }
        ensures none { result ≡ false → kind_of given ≡ OnStream → (wants : List AWant) → Refuses (row_of self.now) (call_at given octets.now wants) }
    {
        match given {
            Stop::TcpRead(c, asked) => match &self.line {
                Line::TcpRead(socket, n, answer, _) => {
                    (self.starred || (*socket == c && *n == asked)) && may_read(asked, *answer)
                }
                _ => false,
            },
            Stop::TcpWrite(c) => match &self.line {
                Line::TcpWrite(socket, offered, said) => {
                    let answer = wrote(self.all, octets, *said);
                    (self.starred || (*socket == c && same(offered, octets)))
                        && may_write(octets.len(), answer)
                }
                _ => false,
            },
            Stop::TcpEnd(c) => match &self.line {
                Line::TcpEnd(socket, _) => self.starred || *socket == c,
                _ => false,
            },
            Stop::Close(s) => match &self.line {
                Line::Close(socket) => self.starred || *socket == s,
                _ => false,
            },
            _ => false,
        }
    }

    // Whether it is of this call of datagrams.
    fn fits_datagram(&self, given: Stop, octets: &[u8]) -> bool
        requires { AnswersInRange (entry_of self.now.line) }
        ensures found { IsTrue result → kind_of given ≡ OfDatagram → (wants : List AWant) → Serves (row_of self.now) (call_at given octets.now wants) }
        ensures none { result ≡ false → kind_of given ≡ OfDatagram → (wants : List AWant) → Refuses (row_of self.now) (call_at given octets.now wants) }
    {
        match given {
            Stop::UdpOpen(s, at) => match &self.line {
                Line::UdpOpen(socket, here, _) => self.starred || (*socket == s && *here == at),
                _ => false,
            },
            Stop::UdpSend(s, to) => match &self.line {
                Line::UdpSend(socket, at, offered, _) => {
                    self.starred || (*socket == s && *at == to && same(offered, octets))
                }
                _ => false,
            },
            Stop::UdpRecv(s, asked) => match &self.line {
                Line::UdpRecv(socket, n, answer, _) => {
                    (self.starred || (*socket == s && *n == asked)) && may_get(asked, *answer)
                }
                _ => false,
            },
            _ => false,
        }
    }

    // Whether it is of this call of a file.
    fn fits_file(&self, given: Stop, octets: &[u8]) -> bool
        requires { AnswersInRange (entry_of self.now.line) }
        ensures found { IsTrue result → kind_of given ≡ OnFile → (wants : List AWant) → Serves (row_of self.now) (call_at given octets.now wants) }
        ensures none { result ≡ false → kind_of given ≡ OnFile → (wants : List AWant) → Refuses (row_of self.now) (call_at given octets.now wants) }
    {
        match given {
            Stop::FileLen => match &self.line {
                Line::FileLen(name, _) => self.starred || same(name, octets),
                _ => false,
            },
            Stop::FileRead(at, asked) => match &self.line {
                Line::FileRead(name, place, n, answer, _) => {
                    (self.starred || (same(name, octets) && *place == at && *n == asked))
                        && may_read_file(asked, *answer)
                }
                _ => false,
            },
            _ => false,
        }
    }
}
