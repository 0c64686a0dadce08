// What every numbering writes with: the vertex on an edge of a cell, worked out from the lent samples,
// and the stores into the lent buffers. A store past the end of a buffer changes nothing, so that the
// same walk counts where there is no room.

#![tactic(auto)]

pub mod cell;

ghost use Rattle.std.specs.Prelude.{◌≡◌, ◌+◌, ◌^◌, ◌≤◌, ◌<◌, length, set};
ghost use Rattle.lent_mesh.specs.Cell.{Coordinates};

use grid_size::Size;

// How many vertices and indices a run has come to after a cell: each vertex was made for an index.
#[derive(Clone, Copy)]
pub struct Counts {
    pub made: u32,
    pub written: u32,
    pub ghost ordered: { made ≤ written },
}

// The coordinates 0 to n of a grid, to be made once and lent.
pub fn coordinates(size: Size) -> [f32; 129]
    ensures { Coordinates size.n result }
{
    let step = positions::step(size.n as u32);
    let mut all = [0.0f32; 129];
    for i in 0..size.n + 1 {
        all[i] = positions::corner_coordinate(i as u32, step);
    }
    all
}

// An index is put at its place, where there is room for it.
pub fn put_index(indices: &mut [u32], place: u32, number: u32)
    ensures { indices.new ≡ set indices.old place number }
{
    let at = place as usize;
    if at < indices.len() {
        indices[at] = number;
    }
}

// The place stays beside the slice, here and in `store`: a numbering gives it, and a sub-slice made for three stores would
// be no plainer.
fn store_three(indices: &mut [u32], at: usize, a: u32, b: u32, c: u32)
    requires { at + 2 < length indices.old }
    ensures { indices.new ≡ set (set (set indices.old at a) (at + 1) b) (at + 2) c }
{
    indices[at] = a;
    indices[at + 1] = b;
    indices[at + 2] = c;
}

// The indices of a triangle are put, each where there is room for it. Where there is room for all of
// them one test suffices.
pub fn put_three(indices: &mut [u32], place: u32, a: u32, b: u32, c: u32)
    requires { place + 2 < 2 ^ 32 }
    ensures { indices.new ≡ set (set (set indices.old place a) (place + 1) b) (place + 2) c }
{
    let at = place as usize;
    if at + 2 < indices.len() {
        store_three(indices, at, a, b, c);
    } else {
        put_index(indices, place, a);
        put_index(indices, place + 1, b);
        put_index(indices, place + 2, c);
    }
}
