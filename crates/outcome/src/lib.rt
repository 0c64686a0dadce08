// The answer of an extraction and, in specs/Outcome.antt, what the call answers and leaves. The crate `marching_cubes`
// promises it; what is proved of the definition alone rests on no code.

#![tactic(auto)]

ghost use Rattle.std.specs.Prelude.{◌≡◌};
ghost use Rattle.refusals.specs.Causes.{cause_of, place_of};

use refusals::Refusal;

// The common answer. A field that the cause does not use is 0. No Result and no enum: the C interface takes these
// fields and numbers.
#[repr(C)]
#[derive(Clone, Copy)]
pub struct Answer {
    pub cause: u32,
    pub place: u64,
    pub vertices: u64,
    pub indices: u64,
}

impl From<Refusal> for Answer {
    ghost from_gives = { λ refusal answer. answer ≡ record { cause = cause_of refusal; place = place_of refusal; vertices = 0; indices = 0 } };

    fn from(refusal: Refusal) -> Answer {
        Answer {
            cause: refusal.cause(),
            place: refusal.place(),
            vertices: 0,
            indices: 0,
        }
    }
}
