// The mesh record of document 02, CR 1: the checks that the reader and the writer share.

#![tactic(auto)]

ghost use Rattle.std.specs.Prelude.{◌≡◌};
ghost use Rattle.mesh_record.specs.Refusals.{opening};
ghost use Rattle.mesh_record.specs.Mesh.{finite};

use grid_size::Size;
use numbering::Numbering;
use refusals::Refusal;

// The first words of a header, as the library takes a size and a numbering. All three are words as they stand there, and
// any may come: what is promised speaks of every word.
#[tactic(auto, unfolding(crate::specs::Refusals::opening))]
pub fn check_opening(version: u32, size: u32, numbering: u32) -> Result<(), Refusal>
    ensures { result ≡ opening version size numbering }
{
    if version != 1 {
        return Err(Refusal::Malformed(0));
    }
    Size::try_from(size)?;
    Numbering::try_from(numbering)?;
    Ok(())
}

// Whether these are the bits of a finite float.
pub fn is_finite(bits: u32) -> bool
    ensures { result ≡ finite bits }
{
    bits % 0x8000_0000 < 0x7F80_0000
}
