// The crate numbering's count, one cell. For a count it matters only whether an entry of the index cache
// is 0: for each place of its layers and rows one word keeps a bit for each edge whose entry is not. What
// a cell makes is what its row names and no word holds, so no visit is made one by one.

#![tactic(auto)]

mod names;

ghost use Rattle.std.specs.Prelude.{◌≡◌, ◌+◌, ◌-◌, ◌*◌, ◌^◌, ◌≤◌, ◌<◌, length, get_or};
ghost use Rattle.held_bits.specs.Names.{name_words};
ghost use Rattle.held_bits.specs.HeldCell.{held, held_room, layer_word, row_word, named_set, first_made, held_set, new_set, put_set, held_cell, clear_held, HeldRoom};

use index_cache::Parity;
use lent_mesh::Counts;

// A table to be made once and lent.
#[tactic(auto, unfolding(crate::specs::Names::name_words))]
pub fn name_words() -> [u32; 256]
    ensures { result ≡ name_words }
{
    names::NAME_WORDS
}

// The word of the place (x, y) in a layer. `index_cache` lays out its own places, by other constants: one function for
// both would take each constant as a parameter and be no plainer.
// The size is a number to 128 here and below: a `Size` begins at 2, and nothing here asks for that.
fn layer_word(n: usize, x: usize, y: usize, layer: usize) -> usize
    requires { (n ≤ 128) × (x < n) × (y < n) × (layer ≤ 1) }
    ensures { (result ≡ layer_word n layer x y) × (result < 2 * (n * n)) }
{
    2 * (y * n + x) + layer
}

// The word of the place x in a row.
fn row_word(n: usize, x: usize, row: usize) -> usize
    requires { (n ≤ 128) × (x < n) × (row ≤ 1) }
    ensures { (result ≡ row_word n row x) × (result < held_room n) }
{
    2 * (n * n) + 2 * x + row
}

// The edges that a cell can make. Whether it is the cell that makes vertex 0 is told by the indices and
// not by the vertices, which a processor knows later.
fn named_set(word: u32, written: u32) -> u32
    ensures { result ≡ named_set word written }
{
    if written == 0 {
        (word >> 16) % 0x1000
    } else {
        word % 0x1000
    }
}

// What the first visit of all makes.
fn first_made(word: u32, written: u32) -> u32
    ensures { result ≡ first_made word written }
{
    if written == 0 { word >> 28 } else { 0 }
}

// What a cell finds, from the word of its place in the layer and in the row that it reads: edges 0 to 3
// of the layer, 4, 8 and 9 of the row.
#[tactic(auto, unfolding(crate::specs::HeldCell::held_set))]
fn held_set(layer: u32, row: u32) -> u32
    ensures { result ≡ held_set layer row }
{
    ((layer >> 4) % 16) | ((row >> 2) & 0x310)
}

#[tactic(auto, unfolding(crate::specs::HeldCell::new_set))]
fn new_set(named: u32, held: u32) -> u32
    ensures { result ≡ new_set named held }
{
    (named | held) ^ held
}

// The place stays beside the words: `layer_word` and `row_word` give it, and a sub-slice of one word would be no plainer.
#[tactic(auto, unfolding(crate::specs::HeldCell::put_set))]
fn put_set(work: &mut [u32], at: usize, new: u32)
    requires { at < length work.old }
    ensures { work.new ≡ put_set work.old at new }
{
    work[at] |= new;
}

// One cell; the layer and the row that it doesn't read it writes.
// `written_fits` stays a clause, here and above: what room is left changes with each cell, and so no type holds it.
pub fn held_cell(
    names: &[u32; 256],
    n: usize,
    x: usize,
    y: usize,
    case: u8,
    parity: Parity,
    work: &mut [u32],
    counts: Counts,
) -> Counts
    requires names_value { names.now ≡ name_words }
    requires most { n ≤ 128 }
    requires held_room { HeldRoom n work.old }
    requires x_lt_n { (x < n) × (y < n) }
    requires written_fits { counts.written + 15 < 2 ^ 32 }
    ensures result_after { held work.new result ≡ held_cell n parity.layer parity.row x y (get_or name_words case 0) (held work.old counts) }
    ensures written_bound { result.written ≤ counts.written + 15 }
{
    let word = names[case as usize];
    let layer_set = work[layer_word(n, x, y, parity.layer)];
    let row_set = work[row_word(n, x, parity.row)];
    let new = new_set(
        named_set(word, counts.written),
        held_set(layer_set, row_set),
    );
    put_set(work, layer_word(n, x, y, 1 - parity.layer), new);
    put_set(work, row_word(n, x, 1 - parity.row), new);
    let first = first_made(word, counts.written);
    Counts {
        made: counts.made + first + u32::count_ones(new),
        written: counts.written + (word >> 12) % 16,
    }
}

// At the end of a layer: the words of the row that is read next.
pub fn clear_held(work: &mut [u32], n: usize, row: usize)
    requires most { n ≤ 128 }
    requires held_room { HeldRoom n work.old }
    requires row_le { row ≤ 1 }
    ensures { work.new ≡ clear_held n row n work.old }
{
    for x in 0..n {
        work[row_word(n, x, row)] = 0;
    }
}
