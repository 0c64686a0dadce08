// Signs by words: a bit for each sample of a layer, 32 to a word and four words to a row. Samples are
// read here once for each layer.

#![tactic(auto)]

ghost use Rattle.std.specs.Prelude.{◌≡◌, ◌+◌, ◌*◌, ◌/◌, ◌≤◌, ◌<◌, length};
ghost use Rattle.marching_cubes_impl.specs.Sample.{inside};
ghost use Rattle.sign_words.specs.Words.{word_of, kept_bit, sign_word, word_from, LayerWords, WordsFilled, RowFilled};

use grid_size::Size;

// The sign words of a layer of cells: of the samples below it and above it.
#[derive(Clone, Copy)]
pub struct Layers<'a> {
    pub low: &'a [u32; 513],
    pub high: &'a [u32; 513],
}

// The sign of a sample. A NaN is outside.
fn is_inside(sample: f32) -> bool
    ensures { result ≡ inside sample }
{
    sample <= 0.0
}

// Every bit, but for bit i where the sample is outside.
fn kept(inside: bool, i: usize) -> u32
    requires { i < 32 }
    ensures { result ≡ word_of (kept_bit inside i) 32 }
{
    if inside {
        0xFFFF_FFFF
    } else {
        0xFFFF_FFFF - (1u32 << i)
    }
}

// The signs of 32 samples: of all bits those of the samples outside go. The count is written out, and each
// turn is an `&` with a word that is not one bit, so that the compiler takes four samples at a time.
fn whole_word(samples: &[f32]) -> u32
    requires { 32 ≤ length samples.now }
    ensures { result ≡ sign_word samples.now 32 }
{
    let mut word = 0xFFFF_FFFF;
    for i in 0..32 {
        word &= kept(is_inside(samples[i]), i);
    }
    word
}

// The signs of fewer.
fn part_word(samples: &[f32]) -> u32
    requires { length samples.now ≤ 32 }
    ensures { result ≡ sign_word samples.now (length samples.now) }
{
    let mut word = 0;
    for (i, sample) in samples.iter().enumerate() {
        word |= u32::from(is_inside(*sample)) << i;
    }
    word
}

// Word k of a row, where it is not whole; past the row's end the bits are 0.
// `k < 4` stays a clause, here and above: k is the count of a loop, and a type would be made at each of its turns.
fn end_word(row: &[f32], k: usize) -> u32
    requires { (k < 4) × (length row.now < 32 * k + 32) }
    ensures { result ≡ word_from row.now k }
{
    let first = 32 * k;
    if first < row.len() {
        part_word(&row[first..])
    } else {
        0
    }
}

// The whole words of row y. They have a loop of their own, since most words are whole: with one loop the call was slower
// (docs/BENCH.md). That y is below 128 stays a clause, here, in `fill_end` and in sign_cells: y is a loop's count, and a
// type for it would be no plainer.
fn fill_whole(row: &[f32], y: usize, words: &mut [u32; 513])
    requires { (length row.now ≤ 128) × (y < 128) }
    ensures { WordsFilled row.now y 0 (length row.now / 32) words.old words.new }
{
    for k in 0..row.len() / 32 {
        words[4 * y + k] = whole_word(&row[32 * k..]);
    }
}

// The others.
fn fill_end(row: &[f32], y: usize, words: &mut [u32; 513])
    requires { (length row.now ≤ 128) × (y < 128) }
    ensures { WordsFilled row.now y (length row.now / 32) 4 words.old words.new }
{
    for k in row.len() / 32..4 {
        words[4 * y + k] = end_word(row, k);
    }
}

// The four words of row y of the sample layer z.
fn fill_row(samples: &[f32], size: Size, y: usize, z: usize, words: &mut [u32; 513])
    requires { (y < size.n) × (size.n * size.n * (z + 1) ≤ length samples.now) }
    ensures { RowFilled size.n samples.now y z words.old words.new }
{
    let start = (z * size.n + y) * size.n;
    let row = &samples[start..start + size.n];
    fill_whole(row, y, words);
    fill_end(row, y, words);
}

// The words of the sample layer z.
pub fn fill_layer(samples: &[f32], size: Size, z: usize, words: &mut [u32; 513])
    requires { size.n * size.n * (z + 1) ≤ length samples.now }
    ensures { LayerWords size.n samples.now z words.new }
{
    for y in 0..size.n {
        fill_row(samples, size, y, z, words);
    }
}
