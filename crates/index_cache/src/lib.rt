// The index cache of index_cache.rs in lent working memory. What is strange in the Rust is kept: number
// 0 reads as absent. `cells` is left out, for what it holds is never found.

#![tactic(auto)]

ghost use Rattle.std.specs.Prelude.{◌≡◌, Some, None, cond, ◌+◌, ◌-◌, ◌*◌, ◌≤◌, ◌<◌, ltb, length, set};
ghost use Rattle.walk.specs.Cache.{in_layer, put_column};
ghost use Rattle.walk_models.specs.CacheMemory.{put_layer, put_row, clear_row};
ghost use Rattle.index_cache.specs.Found.{CacheRoom, found_all};

// The layer and the row of the cache that a cell reads, 0 or 1 each; it writes the others.
#[derive(Clone, Copy)]
pub struct Parity {
    pub layer: usize,
    pub row: usize,
    pub ghost layer_le: { layer ≤ 1 },
    pub ghost row_le: { row ≤ 1 },
}

// Where the four words of the place (x, y) in a layer begin.
// The size is a number to 128 here and below: a `Size` begins at 2, and nothing here asks for that.
// These bounds stay clauses: a cell and its `Parity` give them, and a type would be made anew for each of these calls.
fn layer_place(n: usize, x: usize, y: usize, layer: usize) -> usize
    requires { (n ≤ 128) × (x < n) × (y < n) × (layer ≤ 1) }
    ensures { (result ≡ 8 * (y * n + x) + 4 * layer) × (result + 4 ≤ 8 * (n * n)) }
{
    8 * (y * n + x) + 4 * layer
}

// Where the three words of the place x in a row begin.
fn row_place(n: usize, x: usize, row: usize) -> usize
    requires { (n ≤ 128) × (x < n) × (row ≤ 1) }
    ensures { (result ≡ 8 * (n * n) + 6 * x + 3 * row) × (result + 3 ≤ 8 * (n * n) + 6 * n) }
{
    8 * (n * n) + 6 * x + 3 * row
}

// The column of `rows` that `put` writes for an edge, if any.
#[tactic(auto, unfolding(walk::specs::Cache::put_column))]
fn put_column(edge: usize) -> Option<usize>
    ensures { result ≡ cond (ltb (put_column edge) 3) (Some (put_column edge)) None }
{
    match edge {
        6 => Some(0),
        11 => Some(1),
        10 => Some(2),
        _ => None,
    }
}

// The four words of a place in a layer begin at `at`. The place stays beside the words, here and below: it is worked out
// as a number, and a sub-slice made for one store would be no plainer.
#[tactic(auto, unfolding(walk::specs::Cache::in_layer))]
fn put_layer(work: &mut [u32], at: usize, edge: usize, index: u32)
    requires { at + 4 ≤ length work.old }
    ensures { work.new ≡ cond (in_layer edge) (set work.old (at + (edge - 4)) index) work.old }
{
    if let 4..=7 = edge {
        work[at + (edge - 4)] = index;
    }
}

// The three words of a place in a row begin at `at`.
fn put_row(work: &mut [u32], at: usize, edge: usize, index: u32)
    requires { at + 3 ≤ length work.old }
    ensures { work.new ≡ cond (ltb (put_column edge) 3) (set work.old (at + put_column edge) index) work.old }
{
    if let Some(column) = put_column(edge) {
        work[at + column] = index;
    }
}

// `put`, but for `current_cell`: into the layer and the row that are not read.
pub fn put(work: &mut [u32], n: usize, x: usize, y: usize, parity: Parity, edge: usize, index: u32)
    requires most { n ≤ 128 }
    requires cache_room { CacheRoom n work.old }
    requires x_lt_n { (x < n) × (y < n) }
    ensures { work.new ≡ put_row n (1 - parity.row) x edge index (put_layer n (1 - parity.layer) x y edge index work.old) }
{
    put_layer(work, layer_place(n, x, y, 1 - parity.layer), edge, index);
    put_row(work, row_place(n, x, 1 - parity.row), edge, index);
}

// What `get` finds for each edge before it turns to `current_cell`.
pub fn found(work: &[u32], n: usize, x: usize, y: usize, parity: Parity) -> [u32; 12]
    requires most { n ≤ 128 }
    requires cache_room { CacheRoom n work.now }
    requires x_lt_n { (x < n) × (y < n) }
    ensures { result ≡ found_all n x y parity.layer parity.row work.now }
{
    let a = layer_place(n, x, y, parity.layer);
    let b = row_place(n, x, parity.row);
    [
        work[a],
        work[a + 1],
        work[a + 2],
        work[a + 3],
        work[b],
        0,
        0,
        0,
        work[b + 1],
        work[b + 2],
        0,
        0,
    ]
}

fn clear_three(work: &mut [u32], at: usize)
    requires { at + 3 ≤ length work.old }
    ensures { work.new ≡ set (set (set work.old at 0) (at + 1) 0) (at + 2) 0 }
{
    work[at] = 0;
    work[at + 1] = 0;
    work[at + 2] = 0;
}

// The part of `advance_layer` that clears `rows[0]`.
pub fn clear_row(work: &mut [u32], n: usize, row: usize)
    requires most { n ≤ 128 }
    requires cache_room { CacheRoom n work.old }
    requires row_le { row ≤ 1 }
    ensures { work.new ≡ clear_row n row n work.old }
{
    for x in 0..n {
        clear_three(work, row_place(n, x, row));
    }
}
