// The walk along one row of cells: words of 32 cells, and the cells of a word that the surface crosses. A cell with
// all corners alike does nothing and is passed over. What another cell does is a type's, a `CellStep`: there is one for
// each numbering, to fill and to count.

#![tactic(auto)]

pub mod fill;
pub mod layer;

ghost use Rattle.std.specs.Prelude.{◌≡◌, List, ℕ, ◌+◌, ◌-◌, ◌*◌, ◌/◌, ◌^◌, ◌≤◌, ◌<◌, length, IfSome, Float};
ghost use Rattle.walk.specs.Walk.{times};
ghost use Rattle.walk_models.specs.Owned.{cells_of_row};
ghost use Rattle.lent_mesh.specs.Stored.{in_hand};
ghost use Rattle.sign_cells.specs.Cells.{cells_in};
ghost use Rattle.row_walk.specs.Steps.{Hand, row_parity, PassesOver, WholeLayer};

use grid_size::Size;
use layer::{Crossed, Layer, Row, Word};
use lent_mesh::Counts;

pub trait CellStep: Copy {
    // What the cell (x, y, z) of a grid of n samples to a side does to what is lent: `step n samples z y x`.
    ghost step: { ℕ → List Float → ℕ → ℕ → ℕ → Hand → Hand };

    // What becomes of the working memory after the last row of layer z: `ended n z`.
    ghost ended: { ℕ → ℕ → List ℕ → List ℕ };

    // The words of working memory that a size asks for.
    ghost room: { ℕ → ℕ };

    // What is lent was made for a size, and what it keeps for a layer.
    ghost made_for: { Self → ℕ → Type 0 };

    ghost ready: { Self → ℕ → ℕ → Type 0 };

    // Ready for the cells of layer z. This and `end_layer` have no bodies here: what two or three of the four steps do
    // there is wrong for the others, so that no law proves it of every step.
    fn at_layer(&self, size: Size, z: usize) -> Self
        requires { made_for self.now size.n }
        ensures { ready result size.n z };

    fn cell(
        &self,
        here: Crossed,
        work: &mut [u32],
        vertices: &mut [f32],
        indices: &mut [u32],
        counts: Counts,
    ) -> Counts
        requires ready { ready self.now here.row.layer.size.n here.row.layer.z }
        requires room { (room here.row.layer.size.n ≤ length work.old) × (counts.written + 15 < 2 ^ 32) }
        ensures result_after { in_hand work.new vertices.new indices.new result
            ≡ step here.entry.row.layer.size.n here.entry.row.layer.samples.now here.entry.row.layer.z here.entry.row.y here.entry.x (in_hand work.old vertices.old indices.old counts) }
        ensures written_bound { result.written ≤ counts.written + 15 };

    // What all cells of a layer come to, where that is known without a look at them. Most steps do not know it.
    fn whole_layer(&self, layer: Layer, counts: Counts) -> Option<Counts>
        requires { made_for self.now layer.size.n × (counts.written + 243840 < 2 ^ 32) }
        ensures { IfSome result (WholeLayer step layer.entry.size.n layer.entry.samples.now layer.entry.z counts) }
    {
        None
    }

    // After the last row of a layer; `row` is the cache row that is read next.
    fn end_layer(&self, size: Size, row: usize, work: &mut [u32])
        requires { (row ≤ 1) × (room size.n ≤ length work.old) }
        ensures { (z : ℕ) → row ≡ row_parity size.n (z + 1) 0 → work.new ≡ ended size.n z work.old };

    ghost idle: { PassesOver step };
}

// The cells of a word that the surface crosses, from the lowest. The two counts are variables of their own, so that
// one need not wait for the other. The bits are taken by hand, for an iterator over them would be this same loop.
fn word_cells<S: CellStep>(
    step: &S,
    word: Word,
    work: &mut [u32],
    vertices: &mut [f32],
    indices: &mut [u32],
    counts: Counts,
) -> Counts
    requires ready { S.ready step.now word.row.layer.size.n word.row.layer.z }
    requires room { (S.room word.row.layer.size.n ≤ length work.old) × (counts.written + 480 < 2 ^ 32) }
    ensures result_after { in_hand work.new vertices.new indices.new result
        ≡ times (cells_in word.entry.row.layer.size.n word.entry.k) (λ i t. S.step word.entry.row.layer.size.n word.entry.row.layer.samples.now word.entry.row.layer.z word.entry.row.y (32 * word.entry.k + i) t) (in_hand work.old vertices.old indices.old counts) }
    ensures written_bound { result.written ≤ counts.written + 480 }
{
    let mask = word.quad.active(word.row.layer.size.n, word.k);
    let dense = u32::count_ones(mask) > 27;
    let mut made = counts.made;
    let mut written = counts.written;
    let mut rest = mask;
    while rest != 0 {
        let here = word.cell(u32::trailing_zeros(rest), dense);
        let next = step.cell(here, work, vertices, indices, Counts { made, written });
        made = next.made;
        written = next.written;
        rest = rest & (rest - 1);
    }
    Counts { made, written }
}

// The words that hold the cells of a row.
fn words_of(size: Size) -> usize
    ensures { (size.n - 1 ≤ 32 * result) × (32 * result < size.n + 31) }
{
    (size.n + 30) / 32
}

// A row of cells.
pub fn row_cells<S: CellStep>(
    step: &S,
    row: Row,
    work: &mut [u32],
    vertices: &mut [f32],
    indices: &mut [u32],
    counts: Counts,
) -> Counts
    requires ready { S.ready step.now row.layer.size.n row.layer.z }
    requires room { (S.room row.layer.size.n ≤ length work.old) × (counts.written + 1920 < 2 ^ 32) }
    ensures result_after { in_hand work.new vertices.new indices.new result
        ≡ cells_of_row (S.step row.entry.layer.size.n row.entry.layer.samples.now) row.entry.layer.size.n row.entry.layer.z row.entry.y (row.entry.layer.size.n - 1) (in_hand work.old vertices.old indices.old counts) }
    ensures written_bound { result.written ≤ counts.written + 1920 }
{
    if sign_cells::outside(row.layer.words, row.y) {
        return counts;
    }
    let class = joined_slots::class_of_row(row.y, row.layer.z);
    let mut reached = counts;
    for k in 0..words_of(row.layer.size) {
        reached = word_cells(step, row.word(k, class), work, vertices, indices, reached);
    }
    reached
}
