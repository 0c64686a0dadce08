// The samples that are refused, cause 5 of document 01's table: whether there is one, and where the
// first stands.

#![tactic(auto)]

ghost use Rattle.std.specs.Prelude.{◌≡◌, not, position};
ghost use Rattle.std.specs.Bool.{then_some};
ghost use Rattle.marching_cubes_impl.specs.Sample.{good};
ghost use Rattle.sample_check.specs.Samples.{any_bad, lowest_bad};

use marching_cubes_impl::edge::is_good;

// Whether a sample is refused. Every sample is looked at and the loop has one way out, so that it
// can take several at a time.
pub fn any_bad(samples: &[f32]) -> bool
    ensures { result ≡ any_bad samples.now }
{
    let mut bad = false;
    for sample in samples {
        bad |= !is_good(*sample);
    }
    bad
}

// The place of the first sample that is not good.
fn first_bad(samples: &[f32]) -> Option<usize>
    ensures { result ≡ position (λ v. not (good v)) samples.now }
{
    samples.iter().position(|sample| !is_good(*sample))
}

// The place of the first sample that is refused, if there is one: the search alone, which ends there.
#[tactic(auto, using(crate::proofs::Samples::position_bad))]
pub fn lowest_bad(samples: &[f32]) -> Option<usize>
    ensures { result ≡ then_some (any_bad samples.now) (lowest_bad samples.now) }
{
    first_bad(samples)
}
