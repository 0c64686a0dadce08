// The sizes that the library takes, as a value that has been tested once.

#![tactic(auto)]

pub mod word;

ghost use Rattle.std.specs.Prelude.{◌≡◌, ◌+◌, ◌*◌, ◌≤◌};

// The samples to a side of a grid: n * n in a layer of samples, and n + 1 such layers.
#[derive(Clone, Copy)]
pub struct Size {
    pub n: usize,
    pub ghost least: { 2 ≤ n },
    pub ghost most: { n ≤ 128 },
}

// The words of working memory that n samples to a side ask for, whether or not the library takes so few.
pub fn work_room(n: usize) -> usize
    requires { n ≤ 128 }
    ensures { result ≡ 8 * (n * n) + 6 * n }
{
    8 * (n * n) + 6 * n
}

impl Size {
    // How many samples a grid of this size has.
    pub fn samples(self) -> usize
        ensures { result ≡ self.n * self.n * (self.n + 1) }
    {
        self.n * self.n * (self.n + 1)
    }

    // How many words of working memory it asks for.
    pub fn work_room(self) -> usize
        ensures { result ≡ 8 * (self.n * self.n) + 6 * self.n }
    {
        work_room(self.n)
    }
}
