// The one-edge answer.
ghost use Rattle.std.specs.Prelude.{◌≡◌};
ghost use Rattle.marching_cubes_impl.specs.Edge.{crossing_of};
ghost use Rattle.edge_answer.specs.Edge.{edge_answer};

use edge_answer::EdgeAnswer;

// Whether and where the surface crosses the edge whose ends have the samples a and b, in order.
#[unsafe(no_mangle)]
pub extern "C" fn bridgeyarn_edge(a: f32, b: f32) -> EdgeAnswer
    ensures { result ≡ edge_answer (crossing_of a b) }
{
    edge_answer::edge_answer(a, b)
}
