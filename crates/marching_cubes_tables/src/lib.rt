// The three tables of marching_cubes_tables.rs. `TRIANGLE_CONNECTION` is flat: the row of the sign
// byte s starts at 16 * s. It is made once by the outermost function and lent to those below, since
// a function that names a constant array lays it out anew at every call.

#![tactic(auto)]

mod triangle_connection;

ghost use Rattle.std.specs.Prelude.{◌≡◌, ◌<◌, get_or, pos};
ghost use Rattle.marching_cubes_tables.specs.Tables.{triangle_table, corner_offset, edge_end, row};

const CORNERS: [[usize; 3]; 8] = [
    [0, 0, 0],
    [1, 0, 0],
    [1, 1, 0],
    [0, 1, 0],
    [0, 0, 1],
    [1, 0, 1],
    [1, 1, 1],
    [0, 1, 1],
];

const EDGE_CONNECTION: [[usize; 2]; 12] = [
    [0, 1],
    [1, 2],
    [2, 3],
    [3, 0],
    [4, 5],
    [5, 6],
    [6, 7],
    [7, 4],
    [0, 4],
    [1, 5],
    [2, 6],
    [3, 7],
];

// The offset, 0 or 1, of a corner along an axis.
#[tactic(auto, unfolding(crate::specs::Tables::corners))]
pub fn corner(c: usize, axis: usize) -> usize
    requires { (c < 8) × (axis < 3) }
    ensures { result ≡ corner_offset c axis }
{
    CORNERS[c][axis]
}

// The corner at an end of an edge.
#[tactic(auto, unfolding(crate::specs::Tables::edge_connection))]
pub fn edge_end(e: usize, end: usize) -> usize
    requires { (e < 12) × (end < 2) }
    ensures { result ≡ edge_end e end }
{
    EDGE_CONNECTION[e][end]
}

// The triangle table as a value, to be made once and lent.
#[tactic(auto, unfolding(crate::specs::Tables::triangle_table))]
pub fn triangle_table() -> [i8; 4096]
    ensures { result ≡ triangle_table }
{
    triangle_connection::TRIANGLE_CONNECTION
}

// Entry k of the row of the sign byte s, in the lent table. The table stays a bare array, and no struct that keeps what
// it holds: the public `row_edges` of marching_cubes_impl takes one, and its argument may not become narrower.
pub fn triangle(table: &[i8; 4096], s: usize, k: usize) -> i8
    requires { (table.now ≡ triangle_table) × ((s < 256) × (k < 16)) }
    ensures { result ≡ get_or (row s) k (pos 0) }
{
    table[16 * s + k]
}
