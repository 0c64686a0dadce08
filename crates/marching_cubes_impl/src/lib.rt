// One cell (`march_cube` of marching_cubes_impl.rs): the sign byte of its eight corner values, and
// the edges that the table's row names. Any f32 is taken here; a NaN is outside.

#![tactic(auto)]

pub mod edge;
pub mod vertex;

ghost use Rattle.std.specs.Prelude.{◌≡◌};
ghost use Rattle.marching_cubes_tables.specs.Tables.{triangle_table};
ghost use Rattle.marching_cubes_tables.specs.Rule.{row_edges};
ghost use Rattle.marching_cubes_impl.specs.Signs.{sign_byte};
ghost use Rattle.marching_cubes_impl.specs.Cell.{padded, cell_of};

// The sign byte of a cell and its edges: those that the row names, in order, then -1.
#[repr(C)]
#[derive(Clone, Copy)]
pub struct Cell {
    pub signs: u8,
    pub edges: [i8; 16],
}

// Bit i is set where value i is <= 0.0.
pub fn sign_byte(values: [f32; 8]) -> u8
    ensures { result ≡ sign_byte values }
{
    let mut signs: u8 = 0;
    for (i, value) in values.iter().enumerate() {
        if *value <= 0.0 {
            signs |= 1 << i;
        }
    }
    signs
}

// The row of a sign byte in the lent table, read in threes and left at the first negative entry. Document 01 names this
// form, a nested loop left by its label, so it is no iterator chain.
pub fn row_edges(table: &[i8; 4096], signs: u8) -> [i8; 16]
    requires { table.now ≡ triangle_table }
    ensures { result ≡ padded 16 (row_edges signs) }
{
    let row = signs as usize;
    let mut edges = [-1i8; 16];
    'row: for i in 0..5usize {
        for j in 0..3usize {
            let place = 3 * i + j;
            let edge = marching_cubes_tables::triangle(table, row, place);
            if edge < 0 {
                break 'row;
            }
            edges[place] = edge;
        }
    }
    edges
}

// One cell from its eight corner values.
pub fn march_cube(values: [f32; 8]) -> Cell
    ensures { result ≡ cell_of values }
{
    let table = marching_cubes_tables::triangle_table();
    let signs = sign_byte(values);
    let edges = row_edges(&table, signs);
    Cell { signs, edges }
}
