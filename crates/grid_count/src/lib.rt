// The count of either numbering over a grid: the walk of `grid_walk` with the counting steps of `row_count`, over no
// outputs.

#![tactic(auto)]

ghost use Rattle.std.specs.Prelude.{◌≡◌, ◌+◌, ◌*◌, ◌≤◌, length};
ghost use Rattle.lent_mesh.specs.Grid.{inside_of};
ghost use Rattle.grid_walk.specs.Growth.{GrowsWithin};
ghost use Rattle.held_bits.specs.HeldCell.{held, held_room};
ghost use Rattle.grid_count.specs.Steps.{count_steps};

use grid_size::Size;
use grid_walk::{Reach, Span};
use row_count::{CrateCount, JoinedCount};

// The whole grid. The tables are made here and lent; the joined numbering leaves working memory alone. The numbering is a
// word, as in `walk`: all but 0 are the joined numbering.
pub fn count_grid(numbering: u32, samples: &[f32], size: Size, work: &mut [u32]) -> Reach
    requires { (size.n * size.n * (size.n + 1) ≤ length samples.now) × (held_room size.n ≤ length work.old) }
    ensures counts_value { held work.new result.counts ≡ count_steps numbering size.n (inside_of size.n samples.now) size.n (record { work = work.old; made = 0; written = 0 }) }
    ensures grows_within { GrowsWithin (λ k. (count_steps numbering size.n (inside_of size.n samples.now) k (record { work = work.old; made = 0; written = 0 })).written) size.n result.span }
    ensures written_bound { result.counts.written ≤ 31211520 }
{
    let whole = Span {
        first: 0,
        last: size.n,
    };
    let mut vertices: [f32; 0] = [];
    let mut indices: [u32; 0] = [];
    if numbering == 0 {
        let names = held_bits::name_words();
        let step = CrateCount { names: &names };
        grid_walk::walk_layers(
            &step,
            samples,
            size,
            whole,
            work,
            &mut vertices,
            &mut indices,
        )
    } else {
        let news = packed_tables::new_words();
        let masks = layer_tally::cell_masks(size);
        let step = JoinedCount {
            news: &news,
            masks: &masks,
        };
        grid_walk::walk_layers(
            &step,
            samples,
            size,
            whole,
            work,
            &mut vertices,
            &mut indices,
        )
    }
}
