// One grid edge, asked about by its two end samples in order: does the surface cross it, and where.
// Every pair of f32 has an answer, so no function here has a `requires`. Float operations are the
// crate's, in its order (`get_offset` of marching_cubes_impl.rs).
ghost use Rattle.std.specs.Prelude.{◌≡◌};
ghost use Rattle.marching_cubes_impl.specs.Sample.{good};
ghost use Rattle.marching_cubes_impl.specs.Edge.{offset_of, crosses, crossing_of};

// No crossing; a crossing with its offset from the first end; or refusal 5, with the place of the
// first bad end, 0 or 1. An enum of its own, and no Option or Result: document 01 names this form, and two of its
// three cases are no failure. The place stays a number, since document 01 answers it as one.
#[derive(Clone, Copy)]
pub enum Crossing {
    Absent,
    At(f32),
    Refused(u32),
}

// 2 to the 126, the largest magnitude of a good sample.
const LIMIT: f32 = 85070591730234615865843651857942052864.0;

// Whether a sample is finite and of magnitude at most 2^126. Both sides are always compared, so that a loop over
// samples can take several at a time.
#[tactic(auto, using(crate::proofs::Limit::good_in_range))]
pub fn is_good(sample: f32) -> bool
    ensures { result ≡ good sample }
{
    (sample <= LIMIT) & (-LIMIT <= sample)
}

// Whether exactly one end is <= 0.0.
#[tactic(auto, using(crate::proofs::Constants::nought_bits), unfolding(crate::specs::Edge::crosses, crate::specs::Sample::inside))]
pub fn is_crossing(a: f32, b: f32) -> bool
    ensures { result ≡ crosses a b }
{
    (a <= 0.0) != (b <= 0.0)
}

// Where the surface crosses an edge with the end values a and b. On its own it says nothing about
// whether there is a crossing, so no export passes it on.
#[tactic(auto, using(crate::proofs::Constants::nought_bits, crate::proofs::Constants::half_bits), unfolding(crate::specs::Edge::offset_of))]
pub fn get_offset(a: f32, b: f32) -> f32
    ensures { result ≡ offset_of a b }
{
    let delta = b - a;
    if delta == 0.0 { 0.5 } else { -a / delta }
}

// The answer about the edge whose ends have the values a and b. A bad sample is refused before a
// crossing is looked for, the first end before the second.
pub fn crossing_on(a: f32, b: f32) -> Crossing
    ensures { result ≡ crossing_of a b }
{
    if !is_good(a) {
        return Crossing::Refused(0);
    }
    if !is_good(b) {
        return Crossing::Refused(1);
    }
    if is_crossing(a, b) {
        Crossing::At(get_offset(a, b))
    } else {
        Crossing::Absent
    }
}
