// A size out of a word of the caller's.
ghost use Rattle.grid_size.specs.Taken.{Taken};

use crate::Size;
use refusals::Refusal;

// Every other word is refused.
impl TryFrom<u32> for Size {
    type Error = Refusal;

    ghost try_from_gives = { Taken };

    fn try_from(word: u32) -> Result<Size, Refusal> {
        match word {
            2..=128 => Ok(Size { n: word as usize }),
            _ => Err(Refusal::Size),
        }
    }
}
