// The one-edge answer as it crosses the C boundary: its kind beside the cause, the place and the offset.

#![tactic(auto)]

ghost use Rattle.std.specs.Prelude.{◌≡◌};
ghost use Rattle.marching_cubes_impl.specs.Edge.{crossing_of};
ghost use Rattle.edge_answer.specs.Edge.{edge_answer};

use marching_cubes_impl::edge::{Crossing, crossing_on};

// kind: 0 no crossing, 1 a crossing, 2 refused. A field that the kind does not use is 0. The kind and the cause are
// numbers, and the offset stands beside them, since C reads these fields.
#[repr(C)]
#[derive(Clone, Copy)]
pub struct EdgeAnswer {
    pub kind: u32,
    pub cause: u32,
    pub place: u32,
    pub offset: f32,
}

impl From<Crossing> for EdgeAnswer {
    ghost from_gives = { λ crossing answer. answer ≡ edge_answer crossing };

    fn from(crossing: Crossing) -> EdgeAnswer {
        match crossing {
            Crossing::Absent => EdgeAnswer {
                kind: 0,
                cause: 0,
                place: 0,
                offset: 0.0,
            },
            Crossing::At(t) => EdgeAnswer {
                kind: 1,
                cause: 0,
                place: 0,
                offset: t,
            },
            Crossing::Refused(end) => EdgeAnswer {
                kind: 2,
                cause: 5,
                place: end,
                offset: 0.0,
            },
        }
    }
}

// Whether and where the surface crosses the edge whose ends have the samples a and b, in order.
pub fn edge_answer(a: f32, b: f32) -> EdgeAnswer
    ensures { result ≡ edge_answer (crossing_of a b) }
{
    EdgeAnswer::from(crossing_on(a, b))
}
