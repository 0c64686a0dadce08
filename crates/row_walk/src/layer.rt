// Where the walk stands: a layer of cells between the signs of two layers of samples, a row of it, a word of 32 cells
// of the row, and a cell of the word that the surface crosses.

ghost use Rattle.std.specs.Prelude.{◌≡◌, ◌+◌, ◌-◌, ◌*◌, ◌≤◌, ◌<◌};
ghost use Rattle.walk.specs.Walk.{signs};
ghost use Rattle.lent_mesh.specs.Grid.{inside_of};
ghost use Rattle.sign_words.specs.Words.{LayerWords};
ghost use Rattle.sign_cells.specs.Cells.{QuadOf, cells_in};
ghost use Rattle.joined_slots.specs.OneCell.{class_of};
ghost use Rattle.row_walk.specs.Steps.{layer_parity, row_parity};
ghost use Rattle.row_walk.specs.Ready.{LayerOf};

use grid_size::Size;
use index_cache::Parity;
use sign_cells::Quad;
use sign_words::Layers;

// Layer z of a grid, with the sign words of the samples below it and above it.
#[derive(Clone, Copy)]
pub struct Layer<'a, 'b> {
    pub samples: &'a [f32],
    pub size: Size,
    pub z: usize,
    pub words: Layers<'b>,
    pub ghost of_grid: { LayerOf samples.now size.n z },
    pub ghost low_are: { LayerWords size.n samples.now z words.low.now },
    pub ghost high_are: { LayerWords size.n samples.now (z + 1) words.high.now },
}

// Row y of a layer, and which parts of the index cache its cells read.
#[derive(Clone, Copy)]
pub struct Row<'a, 'b> {
    pub layer: Layer<'a, 'b>,
    pub y: usize,
    pub parity: Parity,
    pub ghost in_y: { y + 1 < layer.size.n },
    pub ghost parity_is: { (parity.layer ≡ layer_parity layer.z) × (parity.row ≡ row_parity layer.size.n layer.z y) },
}

// Word k of a row: the signs of its cells' corners, and the class of the row's cells but the first.
#[derive(Clone, Copy)]
pub struct Word<'a, 'b> {
    pub row: Row<'a, 'b>,
    pub k: usize,
    pub quad: Quad,
    pub class: usize,
    pub ghost in_row: { 32 * k < row.layer.size.n - 1 },
    pub ghost quad_of: { QuadOf row.layer.size.n row.layer.samples.now row.y row.layer.z k quad },
    pub ghost class_is: { (class ≡ class_of 1 row.y row.layer.z) × (class ≤ 6) },
}

// The cell x of a row: its sign byte and its class. Where nearly all cells around it are crossed too it is dense.
#[derive(Clone, Copy)]
pub struct Crossed<'a, 'b> {
    pub row: Row<'a, 'b>,
    pub x: usize,
    pub case: u8,
    pub class: usize,
    pub dense: bool,
    pub ghost in_x: { x + 1 < row.layer.size.n },
    pub ghost case_is: { case ≡ signs (inside_of row.layer.size.n row.layer.samples.now) x row.y row.layer.z },
    pub ghost class_is: { class ≡ class_of x row.y row.layer.z },
}

impl<'a, 'b> Row<'a, 'b> {
    // Word k, where the row has one.
    pub fn word(self, k: usize, class: usize) -> Word<'a, 'b>
        requires { (32 * k < self.layer.size.n - 1) × (class ≡ class_of 1 self.y self.layer.z) × (class ≤ 6) }
        ensures { (result.row ≡ self.entry) × (result.k ≡ k) }
    {
        let quad = Quad::at(self.layer.words, self.y, k);
        Word {
            row: self,
            k,
            quad,
            class,
        }
    }
}

impl<'a, 'b> Word<'a, 'b> {
    // Cell i of the word.
    pub fn cell(self, i: u32, dense: bool) -> Crossed<'a, 'b>
        requires { i < cells_in self.row.layer.size.n self.k }
        ensures { (result.row ≡ self.entry.row) × (result.x ≡ 32 * self.entry.k + i) }
    {
        let x = 32 * self.k + (i as usize);
        Crossed {
            row: self.row,
            x,
            case: self.quad.case_of(i),
            class: joined_slots::class_at(self.class, x),
            dense,
        }
    }
}
