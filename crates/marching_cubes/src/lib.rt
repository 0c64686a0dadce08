// The extraction (`extract` of marching_cubes.rs) over lent memory: the causes in order, then the two
// passes. Outputs are counted first, so that a refusal leaves them as they were.

#![tactic(auto)]

ghost use Rattle.std.specs.Prelude.{◌≡◌, List, ℕ, IfOk, IfErr, ◌≤◌, length, Float};
ghost use Rattle.std.specs.Bool.{then_some};
ghost use Rattle.numbering.specs.Word.{word_of};
ghost use Rattle.refusals.specs.Causes.{cause_of, place_of};
ghost use Rattle.sample_check.specs.Samples.{any_bad, lowest_bad};
ghost use Rattle.outcome.specs.Outcome.{Outcome, surface_of, left, refused, filled, outcome};
ghost use Rattle.passes.specs.Accepted.{Accepted};

use grid_size::Size;
use lent_mesh::Counts;
use numbering::Numbering;
use outcome::Answer;
use refusals::Refusal;

// The answer of a grid that was counted. The cause, 0, 6 or 7, stays a number: an enum of the three would be no plainer,
// for it would be made here alone and turned into the number at once.
fn counted(cause: u32, counts: Counts) -> Answer
    ensures { result ≡ record { cause = cause; place = 0; vertices = counts.made; indices = counts.written } }
{
    Answer {
        cause,
        place: 0,
        vertices: counts.made as u64,
        indices: counts.written as u64,
    }
}

// An accepted grid: count, ask for the room, fill. A grid without a surface needs no filling.
fn meshed(
    numbering: Numbering,
    samples: &[f32],
    size: Size,
    work: &mut [u32],
    vertices: &mut [f32],
    indices: &mut [u32],
) -> Answer
    requires { Accepted size.n samples.now work.old }
    ensures { left result work.new vertices.new indices.new
        ≡ filled size.n (word_of numbering) samples.now work.old vertices.old indices.old (surface_of size.n (word_of numbering) samples.now) }
{
    let word = numbering.word();
    let reach = passes::count(word, samples, size, work);
    let counts = reach.counts;
    let floats = 3 * (counts.made as usize);
    if vertices.len() < floats {
        return counted(6, counts);
    }
    if indices.len() < counts.written as usize {
        return counted(7, counts);
    }
    if counts.written == 0 {
        return counted(0, counts);
    }
    passes::fill(word, samples, size, reach.span, work, vertices, indices);
    counted(0, counts)
}

// The place of the first sample that is refused, if there is one. Where there is none, the flag pass alone says so, which
// takes several samples at a time.
fn first_refused(samples: &[f32]) -> Option<usize>
    ensures { result ≡ then_some (any_bad samples.now) (lowest_bad samples.now) }
{
    if sample_check::any_bad(samples) {
        sample_check::lowest_bad(samples)
    } else {
        None
    }
}

// Causes 1 to 5, tried in order. The size and the numbering are words here and in `extract`: the C interface hands them
// over, good or bad.
fn checked(
    size: u32,
    numbering: u32,
    samples: &[f32],
    work: &[u32],
) -> Result<(Size, Numbering), Refusal>
    ensures accepted { IfOk result (λ known. (known.0.n ≡ size) × Accepted size samples.now work.now × (word_of known.1 ≡ numbering) × (length samples.now ≤ lowest_bad samples.now)) }
    ensures refused { IfErr result (λ refusal. (vertices : List Float) (indices : List ℕ) → outcome size numbering samples.now work.now vertices indices
        ≡ refused size numbering samples.now work.now vertices indices (cause_of refusal) (place_of refusal)) }
{
    let grid = Size::try_from(size)?;
    let known = Numbering::try_from(numbering)?;
    let count = grid.samples();
    if samples.len() != count {
        return Err(Refusal::SampleCount);
    }
    if work.len() < grid.work_room() {
        return Err(Refusal::WorkingMemory);
    }
    if let Some(at) = first_refused(samples) {
        return Err(Refusal::Sample(at as u64));
    }
    Ok((grid, known))
}

// The mesh of the lent samples, in the crate numbering (0) or the joined (1). Causes 1 to 7 are tried in
// order. After 1 to 5 nothing lent has changed. After 6 and 7 the outputs are unchanged; after 0 the
// mesh stands at their start and the rest is unchanged. After these three the working memory that the
// size asks for is zero.
pub fn extract(
    size: u32,
    numbering: u32,
    samples: &[f32],
    work: &mut [u32],
    vertices: &mut [f32],
    indices: &mut [u32],
) -> Answer
    ensures whole { left result work.new vertices.new indices.new
        ≡ outcome size numbering samples.now work.old vertices.old indices.old }
{
    match checked(size, numbering, samples, work) {
        Ok((grid, known)) => meshed(known, samples, grid, work, vertices, indices),
        Err(refusal) => refusal.into(),
    }
}
