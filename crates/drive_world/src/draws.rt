// What becomes of frames on their way, drawn from a number.
ghost use Rattle.std.specs.Prelude.{◌≡◌};
ghost use Rattle.drive_world.specs.Draws.{drawn, next_seed, fate_of};

/// So many frames in a row may be lost.
const MOST_LOST: u8 = 3;

/// What becomes of a frame.
#[derive(Clone, Copy)]
pub enum Fate {
    Lost,
    /// It comes twice.
    Twice,
    /// It comes after the next one, or when the time of a wait is over.
    Late,
    Once,
}

/// Draws from 0 to 7, each from a number that goes on by multiplication and addition.
#[derive(Clone, Copy)]
pub struct Draws {
    pub seed: u64,
}

impl Draws {
    /// Draws the next number, from 0 to 7, and moves the seed on.
    pub fn draw(&mut self) -> u64
        ensures seed { self.new.seed ≡ next_seed self.old.seed }
        ensures drawn { result ≡ drawn self.new.seed }
    {
        self.seed = self
            .seed
            .wrapping_mul(6364136223846793005)
            .wrapping_add(1442695040888963407);
        (self.seed >> 33) % 8
    }
}

/// What a draw does to a frame before which `lost` frames in a row were lost.
/// A frame that is held back comes after the next one that comes, of several the last one held first.
pub fn fate_by(drawn: u64, lost: u8) -> Fate
    ensures { result ≡ fate_of drawn lost }
{
    match drawn {
        0 if lost < MOST_LOST => Fate::Lost,
        1 => Fate::Twice,
        2 => Fate::Late,
        _ => Fate::Once,
    }
}
