// Flows in use, one after another by rising number.
ghost use Rattle.std.specs.Prelude.{◌≡◌, map};
ghost use Rattle.flow_splice.specs.Splice.{is_in_use};
ghost use Rattle.sim_flows.specs.Core.{ends_of};
ghost use Rattle.tcp_flows.specs.InUse.{IsNextUse, counts as counts_by, is_above as is_above_by, lesser as lesser_by, use_above as use_above_by};
ghost use Rattle.tcp_flows.specs.Kept.{part_of};

use crate::flows::TcpFlows;
use flow_splice::{Place, Spliced};
use spec_flows::Tuple;

impl TcpFlows {
    ghost use Rattle.tcp_flows.specs.Reading.{HaveSlots};

    /// The number of the flow in use that comes next after this number, or of the first one, with its two ends. A flow is in use while its socket is open, and
    /// until the reset that it owes its guest is out. `None` exactly where there is none. It looks at all flows.
    pub fn flow_after(&self, last: Option<u64>) -> Option<(u64, Tuple)>
        ensures next { IsNextUse last result self.now.flows.slots }
        ensures slots { HaveSlots self.now.flows }
    {
        flow_after(&self.slots, last)
    }
}

// Of these flows the one in use with the least number above the last one, and its two ends.
fn flow_after(slots: &[Spliced], last: Option<u64>) -> Option<(u64, Tuple)>
    ensures { IsNextUse last result (map part_of slots.now) }
{
    let mut first = None;
    for part in slots {
        first = lesser(first, use_above(part, last));
    }
    first
}

// The number of a flow and its two ends, where it is in use and above the last one.
fn use_above(part: &Spliced, last: Option<u64>) -> Option<(u64, Tuple)>
    ensures { result ≡ use_above_by last part.now }
{
    if counts(part, last) {
        Some((part.number(), ends_of(part)))
    } else {
        None
    }
}

fn counts(part: &Spliced, last: Option<u64>) -> bool
    ensures { result ≡ counts_by last part.now }
{
    is_used(part) && is_above(last, part.number())
}

fn is_used(part: &Spliced) -> bool
    ensures { result ≡ is_in_use part.now.place }
{
    part.place() == Place::InUse
}

fn is_above(last: Option<u64>, number: u64) -> bool
    ensures { result ≡ is_above_by last number }
{
    match last {
        Some(last) => last < number,
        None => true,
    }
}

// The two ends of a flow.
fn ends_of(part: &Spliced) -> Tuple
    ensures { result ≡ ends_of part.now.face }
{
    Tuple {
        guest: part.guest(),
        other: part.other(),
    }
}

// Of two the one with the lesser number.
fn lesser(one: Option<(u64, Tuple)>, other: Option<(u64, Tuple)>) -> Option<(u64, Tuple)>
    ensures { result ≡ lesser_by one other }
{
    match (one, other) {
        (Some(one), Some(other)) => {
            if other.0 < one.0 {
                Some(other)
            } else {
                Some(one)
            }
        }
        (Some(one), None) => Some(one),
        (None, other) => other,
    }
}
