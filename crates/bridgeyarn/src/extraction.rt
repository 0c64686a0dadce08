// The extraction.
ghost use Rattle.std.specs.Prelude.{◌≡◌};
ghost use Rattle.outcome.specs.Outcome.{left, outcome};

use outcome::Answer;

// The mesh of the lent samples, in the crate numbering (0) or the joined (1); see `extract`.
#[unsafe(no_mangle)]
pub extern "C" fn bridgeyarn_extract(
    size: u32,
    numbering: u32,
    samples: &[f32],
    work: &mut [u32],
    vertices: &mut [f32],
    indices: &mut [u32],
) -> Answer
    ensures { left result work.new vertices.new indices.new
        ≡ outcome size numbering samples.now work.old vertices.old indices.old }
{
    marching_cubes::extract(size, numbering, samples, work, vertices, indices)
}
