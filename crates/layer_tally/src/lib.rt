// The count of a layer in the joined numbering, above the lowest, word after word and without a look at any single
// cell. The loop runs over all words of the rows, so that the compiler takes four of them at a time.

#![tactic(auto)]

ghost use Rattle.std.specs.Prelude.{◌≡◌, ℕ, ◌+◌, ◌-◌, ◌*◌, ◌^◌, ◌≤◌, ◌<◌, ltb, get_or};
ghost use Rattle.cell_tally.specs.Tally.{is_set};
ghost use Rattle.joined_slots.specs.OneCell.{count_of};
ghost use Rattle.layer_tally.specs.Layer.{Masks, Firsts, NextFrom, CornersFrom, WordsCounted, RowsOutside, LayerCounted};

use cell_tally::Corners;
use grid_size::Size;
use lent_mesh::Counts;
use sign_words::Layers;

// The bits of a layer's words that stand for cells, and those for the first cell of each row, in a grid of a
// size. It has 4 KB: lend it.
#[derive(Clone, Copy)]
pub struct CellMasks {
    pub masks: [u32; 513],
    pub firsts: [u32; 513],
    pub size: Size,
    pub ghost masks_are: { Masks size.n masks },
    pub ghost firsts_are: { Firsts firsts },
}

// The bits of word k of a row that stand for cells.
fn mask_of(n: usize, k: usize) -> u32
    requires { k < 4 }
    ensures { (j : ℕ) → j < 32 → is_set result j ≡ ltb (32 * k + j + 1) n }
{
    sign_cells::cut(0xFFFF_FFFF, n, k)
}

// These bits for each word of a layer.
fn masks(n: usize) -> [u32; 513]
    ensures { Masks n result }
{
    let mut all = [0; 513];
    for i in 0..512 {
        all[i] = mask_of(n, i % 4);
    }
    all
}

// The first cell of each row.
fn firsts() -> [u32; 513]
    ensures { Firsts result }
{
    let mut all = [0; 513];
    for y in 0..128 {
        all[4 * y] = 1;
    }
    all
}

// The masks of a size, to be made once and lent.
pub fn cell_masks(size: Size) -> CellMasks
    ensures { result.size.n ≡ size.n }
{
    CellMasks {
        masks: masks(size.n),
        firsts: firsts(),
        size,
    }
}

// The bits of a word from the second on, and then the first of the next word.
fn next_of(word: u32, next: u32) -> u32
    ensures { NextFrom word next result }
{
    (word >> 1) | ((next % 2) << 31)
}

// The signs of the right neighbours. The place stays beside the words, for the next word is read too: no plainer otherwise.
fn next_word(words: &[u32; 513], at: usize) -> u32
    requires { at < 512 }
    ensures { NextFrom (get_or words.now at 0) (get_or words.now (at + 1) 0) result }
{
    next_of(words[at], words[at + 1])
}

// The eight corners of the cells of a word.
fn corners_at(layers: Layers, at: usize) -> Corners
    requires { at < 508 }
    ensures { CornersFrom layers.entry.low.now layers.entry.high.now at result }
{
    let Layers { low, high } = layers;
    Corners {
        signs: [
            low[at],
            next_word(low, at),
            next_word(low, at + 4),
            low[at + 4],
            high[at],
            next_word(high, at),
            next_word(high, at + 4),
            high[at + 4],
        ],
    }
}

// The words from one place up to another; `top` is every bit where they are those of row 0, and none elsewhere.
fn tally_words(
    masks: &CellMasks,
    layers: Layers,
    from: usize,
    to: usize,
    top: u32,
    counts: Counts,
) -> Counts
    requires from_le_to { (from ≤ to) × (to ≤ 4 * (masks.now.size.n - 1)) }
    requires written_fits { counts.written + 480 * (to - from) < 2 ^ 32 }
    ensures words_counted { WordsCounted layers.entry.low.now layers.entry.high.now masks.now.size.n from to top (count_of counts) (count_of result) }
    ensures written_bound { result.written ≤ counts.written + 480 * (to - from) }
{
    let mut made = counts.made;
    let mut written = counts.written;
    for i in from..to {
        let corners = corners_at(layers, i);
        let mask = masks.masks[i];
        made += corners.new_in(mask, masks.firsts[i], top);
        written += 3 * corners.triangles_in(mask);
    }
    Counts { made, written }
}

// How many rows at the start are outside throughout.
fn rows_outside(layers: Layers, size: Size) -> usize
    ensures { RowsOutside layers.entry.low.now layers.entry.high.now size.n result × (result ≤ size.n - 1) }
{
    for y in 0..size.n - 1 {
        if !sign_cells::outside(layers, y) {
            return y;
        }
    }
    size.n - 1
}

// The layer between the sign words of two sample layers.
pub fn tally_layer(masks: &CellMasks, layers: Layers, counts: Counts) -> Counts
    requires { counts.written + 243840 < 2 ^ 32 }
    ensures layer_counted { LayerCounted layers.entry.low.now layers.entry.high.now masks.now.size.n (count_of counts) (count_of result) }
    ensures written_bound { result.written ≤ counts.written + 243840 }
{
    let first = rows_outside(layers, masks.size);
    let end = 4 * (masks.size.n - 1);
    if first == 0 {
        let begun = tally_words(masks, layers, 0, 4, 0xFFFF_FFFF, counts);
        tally_words(masks, layers, 4, end, 0, begun)
    } else {
        tally_words(masks, layers, 4 * first, end, 0, counts)
    }
}
