// How often calls failed.
ghost use Rattle.std.specs.Prelude.{◌≡◌};
ghost use Rattle.world_face.specs.Faults.{io_failed, made_failed};
ghost use Rattle.net_world.specs.Faults.{raised, Rises};

use world_face::{Io, Made};

/// A count after a call: one more where that failed, up to the last.
pub(crate) fn after(count: u64, failed: bool) -> u64
    ensures counts { result ≡ raised failed count }
    ensures rises { Rises failed count result }
{
    if failed {
        count.saturating_add(1)
    } else {
        count
    }
}

/// The same after a read or a write.
pub(crate) fn after_io(count: u64, answer: Io) -> u64
    ensures counts { result ≡ raised (io_failed answer) count }
    ensures rises { Rises (io_failed answer) count result }
{
    match answer {
        Io::Failed => count.saturating_add(1),
        _ => count,
    }
}

/// Answers whether something was done, and counts that it wasn't.
pub(crate) fn counted(count: &mut u64, done: bool) -> Made
    ensures counts { count.new ≡ raised (made_failed result) count.old }
    ensures rises { Rises (made_failed result) count.old count.new }
{
    if done {
        return Made::Done;
    }
    *count = count.saturating_add(1);
    Made::Failed
}
