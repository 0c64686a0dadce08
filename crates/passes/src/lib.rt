// The two passes over a grid that was accepted: count and fill. Both leave the working memory that the
// size asks for zero.

#![tactic(auto)]

ghost use Rattle.std.specs.Prelude.{◌≡◌, cond, map, ℕ, ◌+◌, ◌*◌, ◌≤◌, ◌<◌, eqb, length, get_or, replicate};
ghost use Rattle.walk.specs.Walk.{visits};
ghost use Rattle.lent_mesh.specs.Grid.{inside_of, position_at, floats_of};
ghost use Rattle.grid_walk.specs.Growth.{GrowsWithin};
ghost use Rattle.held_bits.specs.HeldCell.{held_room};
ghost use Rattle.outcome.specs.Outcome.{work_room, surface_of, over};
ghost use Rattle.passes.specs.Accepted.{Accepted};

use grid_size::Size;
use grid_walk::{Reach, Span};

// The first `count` words become 0: what `fill` does to the front part, told of the whole of the lent words.
fn clear(work: &mut [u32], count: usize)
    requires { count ≤ length work.old }
    ensures { work.new ≡ over (replicate count 0) work.old }
{
    work[..count].fill(0);
}

// The words of working memory that a size asks for.
pub fn work_room(n: usize) -> usize
    requires { n ≤ 128 }
    ensures { result ≡ work_room n }
{
    grid_size::work_room(n)
}

// The words in which the crate numbering's count keeps the edges that are held.
fn held_room(size: Size) -> usize
    ensures { result ≡ held_room size.n }
{
    2 * (size.n * size.n) + 2 * size.n
}

// The crate numbering is counted from nothing held; the joined uses no working memory for its count.
fn hold_nothing(numbering: u32, work: &mut [u32], size: Size)
    requires { held_room size.n ≤ length work.old }
    ensures { work.new ≡ cond (eqb numbering 0) (over (replicate (held_room size.n) 0) work.old) work.old }
{
    if numbering == 0 {
        clear(work, held_room(size));
    }
}

// How many vertices and indices the grid has, and the layers in which they are. The working memory that
// the size asks for is zero afterwards, whatever it held.
pub fn count(numbering: u32, samples: &[f32], size: Size, work: &mut [u32]) -> Reach
    requires { Accepted size.n samples.now work.old }
    ensures work_after { work.new ≡ over (replicate (work_room size.n) 0) work.old }
    ensures made_value { (result.counts.made ≡ length (surface_of size.n numbering samples.now).made) × (result.counts.written ≡ length (surface_of size.n numbering samples.now).indices) }
    ensures grows_within { GrowsWithin (λ k. length (visits (inside_of size.n samples.now) size.n k)) size.n result.span }
    ensures written_bound { result.counts.written ≤ 31211520 }
{
    hold_nothing(numbering, work, size);
    let reach = grid_count::count_grid(numbering, samples, size, work);
    clear(work, work_room(size.n));
    reach
}

// The mesh is written, where there is room for it and the working memory is zero. Only the layers of the
// span are walked.
pub fn fill(
    numbering: u32,
    samples: &[f32],
    size: Size,
    span: Span,
    work: &mut [u32],
    vertices: &mut [f32],
    indices: &mut [u32],
)
    requires accepted { Accepted size.n samples.now work.old × ((i : ℕ) → i < work_room size.n → get_or work.old i 0 ≡ 0) }
    requires grows_within { GrowsWithin (λ k. length (visits (inside_of size.n samples.now) size.n k)) size.n span }
    requires samples_in_bounds { (3 * length (surface_of size.n numbering samples.now).made ≤ length vertices.old) × (length (surface_of size.n numbering samples.now).indices ≤ length indices.old) }
    ensures work_after { work.new ≡ over (replicate (work_room size.n) 0) work.old }
    ensures vertices_after { vertices.new ≡ over (floats_of (map (position_at size.n samples.now) (surface_of size.n numbering samples.now).made)) vertices.old }
    ensures indices_after { indices.new ≡ over (surface_of size.n numbering samples.now).indices indices.old }
{
    grid_walk::walk(numbering, samples, size, span, work, vertices, indices);
    clear(work, work_room(size.n));
}
