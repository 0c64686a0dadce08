// The two numberings of a mesh's vertices: the crate's own, with its repeated vertices, and the joined one, with a
// vertex for each grid edge that is crossed.

#![tactic(auto)]

ghost use Rattle.std.specs.Prelude.{◌≡◌};
ghost use Rattle.numbering.specs.Word.{word_of, numbering_in};

use refusals::Refusal;

#[derive(Clone, Copy, Debug, PartialEq, Eq)]
pub enum Numbering {
    Crate,
    Joined,
}

impl Numbering {
    // The numbering word of document 01.
    pub fn word(self) -> u32
        ensures { result ≡ word_of self }
    {
        match self {
            Numbering::Crate => 0,
            Numbering::Joined => 1,
        }
    }
}

// A word that is neither 0 nor 1 is refused.
impl TryFrom<u32> for Numbering {
    type Error = Refusal;

    ghost try_from_gives = { λ word r. r ≡ numbering_in word };

    fn try_from(word: u32) -> Result<Self, Refusal> {
        match word {
            0 => Ok(Numbering::Crate),
            1 => Ok(Numbering::Joined),
            _ => Err(Refusal::Numbering),
        }
    }
}
