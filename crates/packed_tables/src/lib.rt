// The rows of the triangle table and the new edges of a cell, packed into words, so that a walk reads
// one word for a cell. Made once and lent, as every constant table.

#![tactic(auto)]

pub mod edges;
mod news;
mod regulars;
mod rows;

ghost use Rattle.std.specs.Prelude.{◌≡◌, ◌+◌, ◌*◌, ◌<◌, get_or};
ghost use Rattle.packed_tables.specs.Packed.{row_words, new_words};
ghost use Rattle.packed_tables.specs.Regular.{regular_words};

pub fn row_words() -> [u64; 256]
    ensures { result ≡ row_words }
{
    rows::ROW_WORDS
}

// The new edges of a cell in a word, by its class and its sign byte.
#[derive(Clone, Copy)]
pub struct NewWords {
    pub words: [u64; 2048],
    pub ghost words_are: { words ≡ new_words },
}

impl NewWords {
    // A table of 256 cases for each class.
    // `class < 8` stays a clause: a class is worked out for one cell and serves as an index alone.
    #[inline(always)]
    pub fn word(&self, case: u8, class: usize) -> u64
        requires { class < 8 }
        ensures { result ≡ get_or new_words (256 * class + case) 0 }
    {
        self.words[256 * class + usize::from(case)]
    }
}

pub fn new_words() -> NewWords {
    NewWords {
        words: news::NEW_WORDS,
    }
}

pub fn regular_words() -> [u64; 256]
    ensures { result ≡ regular_words }
{
    regulars::REGULAR_WORDS
}
