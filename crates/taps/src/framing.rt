// The frames of the link, as a run reads and writes their octets.
ghost use Rattle.std.specs.Prelude.{◌≡◌, ◌+◌, ◌<◌, ◌≤◌, ◌++◌, ◌∷◌, [], true, false, length, drop, Some, IsOk, IsErr, IfOk};
ghost use Rattle.taps.specs.Capturing.{number_text, moment_text, counts_text, frame_text, seen_text, entry_text, FitsBy, Tracks, whole_frame, under_way, begins, left_by};
ghost use Rattle.replay.specs.Views.{viewed};
ghost use Rattle.world_face.specs.Frames.{encoded_length, missing, is_whole};
ghost use Rattle.world_face.specs.Limits.{most_from_link};
ghost use Rattle.world_face.specs.Puts.{Puts, added};
ghost use Rattle.world_face.specs.Tells.{Rose};

use crate::page::Page;
use replay::LineView;
use std::alloc::Global;
use std::marker::Model;
use world_face::{Failed, Io, LAST_MOMENT, MOST_FROM_LINK, NoMemory, Sink};

// Room for the greatest frame that may come, and the four octets of its length.
const ROOM: usize = 4 + MOST_FROM_LINK;

/// What is under way on the link: the octets of a length or frame that isn't whole, how many are left of the frame that went out last, and the moment
/// in force. Its memory is taken at opening.
#[derive(Drop)]
pub struct Framing {
    octets: Vec<u8>,
    left: usize,
    moment: u64,
    page: Page,
}

impl Model for Framing {
    ghost use Rattle.std.specs.Prelude.{◌+◌, ◌≤◌};
    ghost use Rattle.std.specs.Vec.{vec_capacity};
    ghost use Rattle.taps.specs.Capturing.{Sight};
    ghost use Rattle.world_face.specs.Limits.{most_from_link};

    ghost Value = { Sight };

    ghost view = { λ f. record { octets = f.octets.items; left = f.left; moment = f.moment } };

    ghost invariant = { λ f. 4 + most_from_link ≤ vec_capacity f.octets };
}

// Puts a number in four octets.
#[tactic(auto, unfolding(crate::specs::Capturing::number_text))]
fn put_number<K: Sink>(number: u32, out: &mut K) -> Result<(), Failed>
    ensures { Puts (K.holds out.old) (K.holds out.new) (K.faults out.old) (K.faults out.new) (number_text number) result }
{
    out.put(&number.to_be_bytes())
}

// Puts a moment: its seconds, and the rest in microseconds.
#[tactic(auto, unfolding(crate::specs::Capturing::moment_text))]
fn put_moment<K: Sink>(moment: u64, out: &mut K) -> Result<(), Failed>
    ensures { Puts (K.holds out.old) (K.holds out.new) (K.faults out.old) (K.faults out.new) (moment_text moment) result }
{
    put_number((moment / 1000 % 4_294_967_296) as u32, out)?;
    put_number((moment % 1000 * 1000) as u32, out)
}

// Puts how many octets of a frame stand here, and how many it had.
#[tactic(auto, unfolding(crate::specs::Capturing::counts_text))]
fn put_counts<K: Sink>(octets: u32, out: &mut K) -> Result<(), Failed>
    ensures { Puts (K.holds out.old) (K.holds out.new) (K.faults out.old) (K.faults out.new) (counts_text octets) result }
{
    put_number(octets, out)?;
    put_number(octets, out)
}

// Puts a frame behind its moment and its length.
#[tactic(auto, unfolding(crate::specs::Capturing::frame_text))]
fn put_frame<K: Sink>(moment: u64, frame: &[u8], out: &mut K) -> Result<(), Failed>
    requires { length frame.now ≤ most_from_link }
    ensures { Puts (K.holds out.old) (K.holds out.new) (K.faults out.old) (K.faults out.new) (frame_text moment frame.now) result }
{
    put_moment(moment, out)?;
    put_counts(frame.len() as u32, out)?;
    out.put(frame)
}

// The same by one put, where there is room on the page.
fn put_whole<K: Sink>(moment: u64, frame: &[u8], page: &mut Page, out: &mut K) -> Result<(), Failed>
    requires { length frame.now ≤ most_from_link }
    ensures { Puts (K.holds out.old) (K.holds out.new) (K.faults out.old) (K.faults out.new) (frame_text moment frame.now) result }
{
    page.empty();
    if put_frame(moment, frame, page).is_err() {
        return put_frame(moment, frame, out);
    }
    out.put(page.octets())
}

// A frame behind its length.
fn frame_of(octets: &[u8]) -> &[u8]
    ensures { result.now ≡ drop 4 octets.now }
{
    &octets[octets.len().min(4)..]
}

impl Framing {
    ghost use Rattle.std.specs.Prelude.{List};
    ghost use Rattle.world_face.specs.Journal.{Entry};

    /// Nothing is under way.
    pub fn open(alloc: Global) -> Result<Framing, NoMemory>
        ensures { IfOk result (λ framing. Tracks framing []) }
    {
        let Ok(octets) = Vec::with_capacity(alloc, ROOM) else {
            return Err(NoMemory);
        };
        Ok(Framing {
            octets,
            left: 0,
            moment: 0,
            page: Page::open(alloc)?,
        })
    }

    // The number that the first four octets encode.
    #[tactic(auto, unfolding(world_face::specs::Frames::encoded_length))]
    fn length(&self) -> u32
        requires { 4 ≤ length self.now.octets }
        ensures { result ≡ encoded_length self.now.octets }
    {
        let (front, _) = self.octets.as_slice().split_at(4);
        u32::from_be_bytes([front[0], front[1], front[2], front[3]])
    }

    // How many octets are missing of the length, or of the frame with its length.
    #[tactic(auto, unfolding(world_face::specs::Frames::missing))]
    fn missing(&self) -> usize
        ensures { result ≡ missing self.now.octets }
    {
        let have = self.octets.len();
        if have < 4 {
            4 - have
        } else {
            (4 + self.length() as usize).saturating_sub(have)
        }
    }

    // Takes octets that were read, where they may belong to a frame. Answers whether they may.
    fn take(&mut self, octets: &[u8]) -> bool
        ensures taken { result ≡ true → self.new.octets ≡ self.old.octets ++ octets.now }
        ensures fits { result ≡ true → length self.old.octets + length octets.now ≤ 4 + most_from_link }
        ensures long { result ≡ false → 4 + most_from_link < length self.old.octets + length octets.now }
        ensures same { (self.new.left ≡ self.old.left) × (self.new.moment ≡ self.old.moment) }
    {
        let have = self.octets.len();
        have <= ROOM && octets.len() <= ROOM - have && self.octets.extend_from_slice(octets).is_ok()
    }

    // Puts the frame that is whole, where one is, and makes way for the next.
    fn show<K: Sink>(&mut self, out: &mut K) -> Result<(), Failed>
        requires { length self.old.octets ≤ 4 + most_from_link }
        ensures octets { IsOk result → self.new.octets ≡ under_way self.old.octets }
        ensures puts { Puts (K.holds out.old) (K.holds out.new) (K.faults out.old) (K.faults out.new)
            (seen_text self.old.moment (whole_frame self.old.octets)) result }
        ensures same { (self.new.left ≡ self.old.left) × (self.new.moment ≡ self.old.moment) }
    {
        if self.missing() == 0 {
            put_whole(
                self.moment,
                frame_of(self.octets.as_slice()),
                &mut self.page,
                out,
            )?;
            self.octets.clear();
        }
        Ok(())
    }

    // Octets were read.
    fn read<K: Sink>(&mut self, octets: &[u8], out: &mut K) -> Result<(), Failed>
        ensures octets { IsOk result → self.new.octets ≡ under_way (self.old.octets ++ octets.now) }
        ensures put { IsOk result → K.holds out.new ≡ added (seen_text self.old.moment (whole_frame (self.old.octets ++ octets.now))) (K.holds out.old) }
        ensures fault { IsErr result → length self.old.octets + length octets.now ≤ 4 + most_from_link → Rose (K.faults out.old) (K.faults out.new) }
        ensures later { K.faults out.old ≤ K.faults out.new }
        ensures same { (self.new.left ≡ self.old.left) × (self.new.moment ≡ self.old.moment) }
    {
        if !self.take(octets) {
            return Err(Failed);
        }
        self.show(out)
    }

    // Some of these octets were taken: where nothing is left of the frame before, a frame goes out.
    fn wrote<K: Sink>(&mut self, octets: &[u8], answer: Io, out: &mut K) -> Result<(), Failed>
        ensures left { IsOk result → self.new.left ≡ left_by self.old.left answer octets.now }
        ensures put { IsOk result → K.holds out.new ≡ added (seen_text self.old.moment (begins self.old.left answer octets.now)) (K.holds out.old) }
        ensures fault { IsErr result → length octets.now ≤ 4 + most_from_link → Rose (K.faults out.old) (K.faults out.new) }
        ensures later { K.faults out.old ≤ K.faults out.new }
        ensures same { (self.new.octets ≡ self.old.octets) × (self.new.moment ≡ self.old.moment) }
    {
        let Io::Done(count) = answer else {
            return Ok(());
        };
        if self.left == 0 {
            let frame = frame_of(octets);
            if frame.len() > MOST_FROM_LINK {
                return Err(Failed);
            }
            put_whole(self.moment, frame, &mut self.page, out)?;
        }
        self.left = octets.len().saturating_sub(count);
        Ok(())
    }

    /// Takes one call more, with its answer, and puts the frame that arrives or goes out by it. Err where a frame is too long, or the sink refuses
    /// it.
    pub(crate) fn note<K: Sink>(&mut self, line: &LineView<'_>, out: &mut K) -> Result<(), Failed>
        ensures tracks { (past : List Entry) → Tracks self.old past → IsOk result → Tracks self.new (viewed line.now ∷ past) }
        ensures put { (past : List Entry) → Tracks self.old past → IsOk result → K.holds out.new ≡ added (entry_text (viewed line.now) past) (K.holds out.old) }
        ensures fault { (past : List Entry) → Tracks self.old past → IsErr result → FitsBy (viewed line.now) past → Rose (K.faults out.old) (K.faults out.new) }
        ensures later { K.faults out.old ≤ K.faults out.new }
    {
        match line {
            LineView::Now(moment) => self.moment = (*moment).min(LAST_MOMENT).max(self.moment),
            LineView::LinkRead(_, _, octets) => return self.read(octets, out),
            LineView::LinkWrite(octets, answer) => return self.wrote(octets, *answer, out),
            LineView::Wait(..)
            | LineView::LinkOpen(..)
            | LineView::Connect(..)
            | LineView::Connected(..)
            | LineView::Listen(..)
            | LineView::Accept(..)
            | LineView::TcpRead(..)
            | LineView::TcpWrite(..)
            | LineView::TcpEnd(..)
            | LineView::Close(..)
            | LineView::UdpOpen(..)
            | LineView::UdpSend(..)
            | LineView::UdpRecv(..)
            | LineView::FileLen(..)
            | LineView::FileRead(..) => {}
        }
        Ok(())
    }
}
