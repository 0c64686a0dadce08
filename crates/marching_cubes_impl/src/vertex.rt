// A vertex, and the point between two others (`interpolate` of marching_cubes_impl.rs).
ghost use Rattle.std.specs.Prelude.{◌≡◌};
ghost use Rattle.marching_cubes_impl.specs.Vertex.{between, point_between};

// x, y and z together.
#[derive(Clone, Copy)]
pub struct Vertex {
    pub x: f32,
    pub y: f32,
    pub z: f32,
}

#[tactic(auto, using(crate::proofs::Constants::one_bits), unfolding(crate::specs::Vertex::between))]
pub fn interpolate_axis(u: f32, v: f32, t: f32) -> f32
    ensures { result ≡ between u v t }
{
    u * (1.0 - t) + v * t
}

pub fn interpolate(u: Vertex, v: Vertex, t: f32) -> Vertex
    ensures { result ≡ point_between u v t }
{
    Vertex {
        x: interpolate_axis(u.x, v.x, t),
        y: interpolate_axis(u.y, v.y, t),
        z: interpolate_axis(u.z, v.z, t),
    }
}
