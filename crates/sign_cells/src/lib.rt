// What the sign words of four rows say of the 32 cells between them: which the surface crosses, and the
// sign byte of each. So a walk looks only at the cells that the surface crosses.

#![tactic(auto)]

ghost use Rattle.std.specs.Prelude.{◌≡◌, ◌^◌, ◌%◌, ◌<◌};
ghost use Rattle.sign_cells.specs.Cells.{LongWordFrom, QuadFrom, cells_in, ActiveFrom, CaseFrom, OutsideFrom};

use sign_words::Layers;

// The signs of four rows from sample 32 * k on: rows y and y + 1 of the lower layer, then of the upper.
#[derive(Clone, Copy)]
pub struct Quad {
    pub a: u64,
    pub b: u64,
    pub c: u64,
    pub d: u64,
}

// Word k of row y, and the next word above it. Above a row's fourth word that is the next row's first,
// which no cell looks at; a test for it would cost more than the word.
fn long_word(words: &[u32; 513], y: usize, k: usize) -> u64
    requires { (y < 128) × (k < 4) }
    ensures { LongWordFrom words.now y k result }
{
    let at = 4 * y + k;
    u64::from(words[at]) | (u64::from(words[at + 1]) << 32)
}

// The bits of the cells of word k; those past the row's last cell are cut off.
pub fn cut(word: u32, n: usize, k: usize) -> u32
    requires { k < 4 }
    ensures { result ≡ word % 2 ^ cells_in n k }
{
    let first = 32 * k;
    if first + 32 < n {
        word
    } else if first + 1 < n {
        word % (1u32 << (n - 1 - first))
    } else {
        0
    }
}

impl Quad {
    // Word k of the rows y and y + 1 of both layers.
    pub fn at(layers: Layers, y: usize, k: usize) -> Quad
        requires { (y < 127) × (k < 4) }
        ensures { QuadFrom layers.entry.low.now layers.entry.high.now y k result }
    {
        Quad {
            a: long_word(layers.low, y, k),
            b: long_word(layers.low, y + 1, k),
            c: long_word(layers.high, y, k),
            d: long_word(layers.high, y + 1, k),
        }
    }

    // The cells of word k whose corners are not all alike: bit i is set for cell 32 * k + i.
    pub fn active(self, n: usize, k: usize) -> u32
        requires { k < 4 }
        ensures { ActiveFrom self n k result }
    {
        let some = self.a | self.b | self.c | self.d;
        let every = self.a & self.b & self.c & self.d;
        let mixed = (some | (some >> 1)) ^ (every & (every >> 1));
        cut((mixed % 0x1_0000_0000) as u32, n, k)
    }

    // The sign byte of cell i of the word.
    pub fn case_of(self, i: u32) -> u8
        requires { i < 32 }
        ensures { CaseFrom self i result }
    {
        let a = (self.a >> i) % 4;
        let b = (self.b >> i) % 4;
        let c = (self.c >> i) % 4;
        let d = (self.d >> i) % 4;
        (a + 4 * (b / 2) + 8 * (b % 2) + 16 * c + 64 * (d / 2) + 128 * (d % 2)) as u8
    }
}

// Whether the rows y and y + 1 of both layers are outside throughout: no cell between them visits
// anything. The count is written out, so that the loop can take several words at a time.
pub fn outside(layers: Layers, y: usize) -> bool
    requires { y < 127 }
    ensures { OutsideFrom layers.entry.low.now layers.entry.high.now y result }
{
    let mut some = 0;
    for i in 0..8 {
        let at = 4 * y + i;
        some |= layers.low[at] | layers.high[at];
    }
    some == 0
}
