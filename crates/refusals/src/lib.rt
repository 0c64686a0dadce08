// Why a call refuses: the causes of document 01's table that a check before any work finds, each with the place
// that is answered beside it.

#![tactic(auto)]

ghost use Rattle.std.specs.Prelude.{◌≡◌};
ghost use Rattle.refusals.specs.Causes.{cause_of, place_of};

// A refusal. `Sample` has the lowest place of a bad sample, `Malformed` the byte place in a record.
#[derive(Clone, Copy, Debug, PartialEq, Eq)]
pub enum Refusal {
    Size,
    Numbering,
    SampleCount,
    WorkingMemory,
    Sample(u64),
    Malformed(u64),
}

impl Refusal {
    // The number that document 01 gives it.
    pub fn cause(self) -> u32
        ensures { result ≡ cause_of self }
    {
        match self {
            Refusal::Size => 1,
            Refusal::Numbering => 2,
            Refusal::SampleCount => 3,
            Refusal::WorkingMemory => 4,
            Refusal::Sample(_) => 5,
            Refusal::Malformed(_) => 8,
        }
    }

    // The place that is answered with it; 0 where the cause has none.
    pub fn place(self) -> u64
        ensures { result ≡ place_of self }
    {
        match self {
            Refusal::Sample(at) => at,
            Refusal::Malformed(at) => at,
            _ => 0,
        }
    }
}
