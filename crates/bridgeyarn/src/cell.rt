// The cell call.
ghost use Rattle.std.specs.Prelude.{◌≡◌};
ghost use Rattle.marching_cubes_impl.specs.Cell.{cell_of};

use marching_cubes_impl::Cell;

// The sign byte of eight corner values, and the edges that its row names, then -1. Any f32 is taken;
// a NaN is outside.
#[unsafe(no_mangle)]
pub extern "C" fn bridgeyarn_cell(values: &[f32; 8]) -> Cell
    ensures { result ≡ cell_of values.now }
{
    let corners = *values;
    marching_cubes_impl::march_cube(corners)
}
