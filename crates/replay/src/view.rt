// A line as it lies with whoever made the call.
ghost use Rattle.std.specs.Prelude.{◌≡◌};
ghost use Rattle.replay.specs.Lines.{entry_of};
ghost use Rattle.replay.specs.Views.{viewed};

use crate::line::Line;
use world_face::{Accepted, Endpoint, FileSize, Got, Io, Joined, Made, Sent, Waited, Want};

/// A call with its arguments and its answer, in the order in which a World takes them, which lie elsewhere. Octets stand beside an answer that brought some,
/// and items beside a wait that reported some. A place of the link is an endpoint, or where there is none the octets of a path.
#[derive(Clone, Copy)]
pub enum LineView<'a> {
    Now(u64),
    Wait(&'a [Want], Option<u64>, Waited, &'a [Want]),
    LinkOpen(&'a [u8], Option<Endpoint>, Made),
    LinkRead(usize, Io, &'a [u8]),
    LinkWrite(&'a [u8], Io),
    Connect(u64, Endpoint, Made),
    Connected(u64, Joined),
    Listen(u64, Endpoint, Made),
    Accept(u64, u64, Accepted),
    TcpRead(u64, usize, Io, &'a [u8]),
    TcpWrite(u64, &'a [u8], Io),
    TcpEnd(u64, Made),
    Close(u64),
    UdpOpen(u64, Endpoint, Made),
    UdpSend(u64, Endpoint, &'a [u8], Sent),
    UdpRecv(u64, usize, Got, &'a [u8]),
    FileLen(&'a [u8], FileSize),
    FileRead(&'a [u8], u64, usize, Io, &'a [u8]),
}

impl Line {
    /// The line with its octets and wants where they lie, none of them copied.
    pub fn view(&self) -> LineView<'_>
        ensures { viewed result ≡ entry_of self.now }
    {
        match self {
            Line::Now(moment) => LineView::Now(*moment),
            Line::Wait(wants, timeout, answer, ready) => {
                LineView::Wait(wants.as_slice(), *timeout, *answer, ready.items())
            }
            Line::LinkOpen(seat, answer) => {
                LineView::LinkOpen(seat.path.as_slice(), seat.at, *answer)
            }
            Line::LinkRead(asked, answer, octets) => {
                LineView::LinkRead(*asked, *answer, octets.as_slice())
            }
            Line::LinkWrite(octets, answer) => LineView::LinkWrite(octets.as_slice(), *answer),
            Line::Connect(socket, to, answer) => LineView::Connect(*socket, *to, *answer),
            Line::Connected(socket, answer) => LineView::Connected(*socket, *answer),
            Line::Listen(socket, at, answer) => LineView::Listen(*socket, *at, *answer),
            Line::Accept(listener, socket, answer) => {
                LineView::Accept(*listener, *socket, *answer)
            }
            Line::TcpRead(socket, asked, answer, octets) => {
                LineView::TcpRead(*socket, *asked, *answer, octets.as_slice())
            }
            Line::TcpWrite(socket, octets, answer) => {
                LineView::TcpWrite(*socket, octets.as_slice(), *answer)
            }
            Line::TcpEnd(socket, answer) => LineView::TcpEnd(*socket, *answer),
            Line::Close(socket) => LineView::Close(*socket),
            Line::UdpOpen(socket, at, answer) => LineView::UdpOpen(*socket, *at, *answer),
            Line::UdpSend(socket, to, octets, answer) => {
                LineView::UdpSend(*socket, *to, octets.as_slice(), *answer)
            }
            Line::UdpRecv(socket, asked, answer, octets) => {
                LineView::UdpRecv(*socket, *asked, *answer, octets.as_slice())
            }
            Line::FileLen(name, answer) => LineView::FileLen(name.as_slice(), *answer),
            Line::FileRead(name, place, asked, answer, octets) => {
                LineView::FileRead(name.as_slice(), *place, *asked, *answer, octets.as_slice())
            }
        }
    }
}
