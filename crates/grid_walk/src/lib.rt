// The walk over lent memory, layer after layer of a grid, for any step of `row_walk`; and the walk that fills, in
// either numbering. The two layers of sign words are held in local arrays.

#![tactic(auto)]

ghost use Rattle.std.specs.Prelude.{◌≡◌, ℕ, ◌+◌, ◌-◌, ◌*◌, ◌^◌, ◌≤◌, ◌<◌, length, get_or};
ghost use Rattle.walk.specs.Walk.{visits};
ghost use Rattle.walk_models.specs.Owned.{cells_of_layer};
ghost use Rattle.walk_models.specs.Lent.{untouched};
ghost use Rattle.lent_mesh.specs.Grid.{inside_of};
ghost use Rattle.lent_mesh.specs.Stored.{in_hand};
ghost use Rattle.row_walk.specs.Steps.{row_parity};
ghost use Rattle.grid_walk.specs.Steps.{walk_steps, layers_done};
ghost use Rattle.grid_walk.specs.Growth.{GrowsWithin};

use grid_size::Size;
use index_cache::Parity;
use lent_mesh::Counts;
use row_walk::CellStep;
use row_walk::fill::{CrateFill, JoinedFill};
use row_walk::layer::{Layer, Row};
use sign_words::Layers;

// The layers of cells from the first that the surface crosses up to the last: numbers `first` to `last - 1`.
#[derive(Clone, Copy)]
pub struct Span {
    pub first: usize,
    pub last: usize,
}

// How far a walk has come, and the layers in which it has written.
#[derive(Clone, Copy)]
pub struct Reach {
    pub counts: Counts,
    pub span: Span,
}

impl Span {
    // The span after layer z, from the indices written before the layer and after it.
    fn after(self, z: usize, before: u32, after: u32) -> Span
        requires { z < 128 }
        ensures { (counted : ℕ → ℕ) → GrowsWithin counted z self → counted z ≡ before → counted (z + 1) ≡ after → GrowsWithin counted (z + 1) result }
    {
        if after == before {
            return self;
        }
        let last = z + 1;
        if before == 0 {
            return Span { first: z, last };
        }
        Span { last, ..self }
    }
}

// The cells of a layer; `first` says which of the two cache rows is read in its first row.
fn layer_cells<S: CellStep>(
    step: &S,
    layer: Layer,
    first: usize,
    work: &mut [u32],
    vertices: &mut [f32],
    indices: &mut [u32],
    counts: Counts,
) -> Counts
    requires made_for { S.made_for step.now layer.size.n × (first ≡ row_parity layer.size.n layer.z 0) }
    requires room { (S.room layer.size.n ≤ length work.old) × (counts.written + 243840 < 2 ^ 32) }
    ensures result_after { in_hand work.new vertices.new indices.new result
        ≡ cells_of_layer (S.step layer.entry.size.n layer.entry.samples.now) layer.entry.size.n layer.entry.z (layer.entry.size.n - 1) (in_hand work.old vertices.old indices.old counts) }
    ensures written_bound { result.written ≤ counts.written + 243840 }
{
    if let Some(counted) = step.whole_layer(layer, counts) {
        return counted;
    }
    let here = step.at_layer(layer.size, layer.z);
    let mut reached = counts;
    let mut row = first;
    for y in 0..layer.size.n - 1 {
        let parity = Parity {
            layer: layer.z % 2,
            row,
        };
        let cells = Row { layer, y, parity };
        reached = row_walk::row_cells(&here, cells, work, vertices, indices, reached);
        row = 1 - row;
    }
    reached
}

// A function of its own, for with the literal in its place the proof of the loop did not close.
fn none_made() -> Counts
    ensures { (result.made ≡ 0) × (result.written ≡ 0) }
{
    Counts {
        made: 0,
        written: 0,
    }
}

// The layers of the span, from nothing made; those before it have nothing to make.
pub fn walk_layers<S: CellStep>(
    step: &S,
    samples: &[f32],
    size: Size,
    span: Span,
    work: &mut [u32],
    vertices: &mut [f32],
    indices: &mut [u32],
) -> Reach
    requires samples { size.n * size.n * (size.n + 1) ≤ length samples.now }
    requires made_for { S.made_for step.now size.n × (S.room size.n ≤ length work.old) }
    requires begun { (span.first ≤ span.last) × (span.last ≤ size.n)
        × (layers_done S.step S.ended size.n samples.now span.first (untouched work.old vertices.old indices.old) ≡ untouched work.old vertices.old indices.old) }
    ensures result_after { in_hand work.new vertices.new indices.new result.counts
        ≡ layers_done S.step S.ended size.n samples.now span.last (untouched work.old vertices.old indices.old) }
    ensures grows_within { GrowsWithin (λ k. (layers_done S.step S.ended size.n samples.now k (untouched work.old vertices.old indices.old)).written) span.last result.span }
    ensures written_bound { result.counts.written ≤ 31211520 }
{
    let mut low = [0u32; 513];
    let mut high = [0u32; 513];
    sign_words::fill_layer(samples, size, span.first, &mut low);
    let mut reached = none_made();
    let mut grown = Span {
        first: span.first,
        last: span.first,
    };
    let mut row = span.first * (size.n - 1) % 2;
    for z in span.first..span.last {
        sign_words::fill_layer(samples, size, z + 1, &mut high);
        let words = Layers {
            low: &low,
            high: &high,
        };
        let layer = Layer {
            samples,
            size,
            z,
            words,
        };
        let next = layer_cells(step, layer, row, work, vertices, indices, reached);
        grown = grown.after(z, reached.written, next.written);
        reached = next;
        row = (row + (size.n - 1)) % 2;
        step.end_layer(size, row, work);
        low = high;
    }
    Reach {
        counts: reached,
        span: grown,
    }
}

// The mesh of the layers up to the last of the span. The tables are made here and lent. The numbering stays a word, for
// docs/DECISIONS.md names `walk`, and `result_after` speaks of every word: all but 0 are the joined numbering.
pub fn walk(
    numbering: u32,
    samples: &[f32],
    size: Size,
    span: Span,
    work: &mut [u32],
    vertices: &mut [f32],
    indices: &mut [u32],
) -> Counts
    requires rooms { (size.n * size.n * (size.n + 1) ≤ length samples.now) × (8 * (size.n * size.n) + 6 * size.n ≤ length work.old) }
    requires grows_within { GrowsWithin (λ k. length (visits (inside_of size.n samples.now) size.n k)) size.n span × ((i : ℕ) → i < 8 * (size.n * size.n) + 6 * size.n → get_or work.old i 0 ≡ 0) }
    ensures result_after { in_hand work.new vertices.new indices.new result
        ≡ walk_steps numbering size.n samples.now span.last (untouched work.old vertices.old indices.old) }
    ensures written_bound { result.written ≤ 31211520 }
{
    let rows = packed_tables::row_words();
    let coordinates = lent_mesh::coordinates(size);
    if numbering == 0 {
        let regulars = packed_tables::regular_words();
        let step = CrateFill {
            rows: &rows,
            regulars: &regulars,
            coordinates: &coordinates,
        };
        walk_layers(&step, samples, size, span, work, vertices, indices).counts
    } else {
        let news = packed_tables::new_words();
        let step = JoinedFill {
            rows: &rows,
            news: &news,
            coordinates: &coordinates,
            slots: [0; 12],
        };
        walk_layers(&step, samples, size, span, work, vertices, indices).counts
    }
}
