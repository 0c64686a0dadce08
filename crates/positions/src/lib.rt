// Where a vertex is put (the float part of `extract` in marching_cubes.rs), for sizes to 512. Whole
// numbers are u32 here: a usize as f32 would cost a branch. `proofs/Edges.antt` has demand 3.

#![tactic(auto)]

ghost use Rattle.std.specs.Prelude.{◌≡◌, ◌≤◌};
ghost use Rattle.positions.specs.Position.{step_of, corner_of, point_of, vertex_between};

use marching_cubes_impl::vertex::Vertex;

// The step of a grid of size n.
#[tactic(auto, using(marching_cubes_impl::proofs::Constants::one_bits), unfolding(crate::specs::Position::step_of))]
pub fn step(n: u32) -> f32
    requires { (2 ≤ n) × (n ≤ 512) }
    ensures { result ≡ step_of n }
{
    1.0 / ((n - 1) as f32)
}

// The coordinate of the whole number k, for the step h.
#[tactic(auto, unfolding(crate::specs::Position::corner_of))]
pub fn corner_coordinate(k: u32, h: f32) -> f32
    requires { k ≤ 512 }
    ensures { result ≡ corner_of k h }
{
    k as f32 * h
}

// The sample point x, y, z, for the step h.
pub fn grid_point(x: u32, y: u32, z: u32, h: f32) -> Vertex
    requires { (x ≤ 512) × (y ≤ 512) × (z ≤ 512) }
    ensures { result ≡ point_of (record { x = x; y = y; z = z }) h }
{
    Vertex {
        x: corner_coordinate(x, h),
        y: corner_coordinate(y, h),
        z: corner_coordinate(z, h),
    }
}

// The vertex on the edge from the point u with the sample a to the point v with the sample b. Any
// f32 are taken; a walk passes points whose coordinates it has worked out once.
pub fn position(u: Vertex, v: Vertex, a: f32, b: f32) -> Vertex
    ensures { result ≡ vertex_between u v a b }
{
    marching_cubes_impl::vertex::interpolate(u, v, marching_cubes_impl::edge::get_offset(a, b))
}
