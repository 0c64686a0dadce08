// One cell of the joined walk, in lent memory: its new edges are numbered and their vertices put, then
// the numbers of its row's edges are written as indices. Both lists come packed, a word for a cell.

#![tactic(auto)]

ghost use Rattle.std.specs.Prelude.{◌≡◌, List, ℕ, ◌+◌, ◌*◌, ◌^◌, ◌≤◌, ◌<◌, length, get_or};
ghost use Rattle.marching_cubes_tables.specs.Rule.{row_edges};
ghost use Rattle.walk.specs.Edges.{edge_of};
ghost use Rattle.walk.specs.Walk.{Inside, signs};
ghost use Rattle.walk.specs.Ownership.{new_edges};
ghost use Rattle.walk_models.specs.Owned.{edge_visit, slot, make_edge, owned_cell, count_cell};
ghost use Rattle.packed_tables.specs.Unpacked.{unpacked};
ghost use Rattle.packed_tables.specs.Packed.{owned_in, row_words};
ghost use Rattle.lent_mesh.specs.Grid.{inside_of};
ghost use Rattle.lent_mesh.specs.Stored.{store_at, in_hand};
ghost use Rattle.joined_slots.specs.OneCell.{Slots, each, class_of, count_of};
ghost use Rattle.inner_cells.specs.Ranked.{hand};

use joined_slots::slot_cell::SlotCell;
use lent_mesh::Counts;
use lent_mesh::cell::Cell;
use packed_tables::NewWords;
use packed_tables::edges::{PackedEdges, PackedTriangles};

// The next numbers go to the edges of the list, each with its vertex.
fn make_all(
    here: SlotCell,
    list: PackedEdges,
    work: &mut [u32],
    vertices: &mut [f32],
    mut made: u32,
) -> u32
    requires list_bound { list.count ≤ 15 }
    requires n_in_bounds { (8 * (here.cell.size.n * here.cell.size.n) ≤ length work.old) × (made + 15 < 2 ^ 32) }
    ensures by_index { let cell = here.entry.cell in (l : List ℕ) (written : ℕ) → hand work.new vertices.new l result written
        ≡ each (make_edge (store_at cell.size.n cell.samples.now) cell.size.n cell.z cell.y cell.x) (unpacked list.count list.word) (hand work.old vertices.old l made written) }
    ensures made_value { result ≡ made + list.count }
{
    for edge in list {
        work[here.place(edge)] = made;
        here.cell.put_vertex(edge, vertices, made);
        made += 1;
    }
    made
}

// The number that an edge has.
fn number_of(here: SlotCell, edge: usize, work: &[u32]) -> u32
    requires edge_bound { edge < 12 }
    requires n_in_bounds { 8 * (here.cell.size.n * here.cell.size.n) ≤ length work.now }
    ensures { let cell = here.entry.cell in result ≡ get_or work.now (slot cell.size.n (edge_of (edge_visit cell.x cell.y cell.z edge))) 0 }
{
    work[here.place(edge)]
}

// The new edges of a cell are made, by its word in `news`. An inner cell has marks in it; where the cells
// around are active too, the compiler cannot know which edges are crossed, and the list is faster.
fn make_new(
    news: &NewWords,
    here: SlotCell,
    case: u8,
    class: usize,
    dense: bool,
    work: &mut [u32],
    vertices: &mut [f32],
    made: u32,
) -> u32
    requires class_bound { class < 8 }
    requires n_in_bounds { (8 * (here.cell.size.n * here.cell.size.n) ≤ length work.old) × (made + 15 < 2 ^ 32) }
    ensures by_index { let cell = here.entry.cell in (l : List ℕ) (written : ℕ) → hand work.new vertices.new l result written
        ≡ each (make_edge (store_at cell.size.n cell.samples.now) cell.size.n cell.z cell.y cell.x) (new_edges (owned_in class) (row_edges case)) (hand work.old vertices.old l made written) }
    ensures made_value { result ≡ made + length (new_edges (owned_in class) (row_edges case)) }
{
    let word = news.word(case, class);
    if (class == 0) & !dense {
        inner_cells::make_inner(here, word, work, vertices, made)
    } else {
        let list = PackedEdges {
            count: word >> 60,
            word: word % 0x1000_0000_0000_0000,
        };
        make_all(here, list, work, vertices, made)
    }
}

// One cell. Its case is its sign byte, its class says which of its edges it owns; there is a word for
// each case in `rows` and for each class and case in `news`. `dense` may be either: it says only how the edges
// are made.
pub fn joined_cell(
    rows: &[u64; 256],
    news: &NewWords,
    cell: Cell,
    slots: &[usize; 12],
    case: u8,
    class: usize,
    dense: bool,
    work: &mut [u32],
    vertices: &mut [f32],
    indices: &mut [u32],
    counts: Counts,
) -> Counts
    requires rows_value { (rows.now ≡ row_words) × Slots cell.size.n cell.z slots.now }
    requires case_value { (case ≡ signs (inside_of cell.size.n cell.samples.now) cell.x cell.y cell.z) × (class ≡ class_of cell.x cell.y cell.z) }
    requires n_in_bounds { (8 * (cell.size.n * cell.size.n) ≤ length work.old) × (counts.written + 15 < 2 ^ 32) }
    ensures result_after { let at = cell.entry in let inside = inside_of at.size.n at.samples.now in in_hand work.new vertices.new indices.new result
        ≡ owned_cell (store_at at.size.n at.samples.now) at.size.n inside at.z at.y at.x (in_hand work.old vertices.old indices.old counts) }
    ensures written_bound { result.written ≤ counts.written + 15 }
{
    let row = rows[usize::from(case)];
    let here = SlotCell {
        cell,
        slots,
        at: 8 * (cell.y * cell.size.n + cell.x),
    };
    let made = make_new(news, here, case, class, dense, work, vertices, counts.made);
    let list = PackedTriangles {
        count: row >> 60,
        word: row % 0x1000_0000_0000_0000,
    };
    let written = list.put_numbers(|edge| number_of(here, edge, work), indices, counts.written);
    Counts { made, written }
}

// What one cell adds to the counts, from its word in `news` alone: the number of its row's triangles
// stands there too, in the four bits below the highest.
pub fn joined_counts(news: &NewWords, case: u8, class: usize, counts: Counts) -> Counts
    requires class_bound { class < 8 }
    requires written_fits { counts.written + 15 < 2 ^ 32 }
    ensures result_value { (g : Inside) (x y z : ℕ) → case ≡ signs g x y z → class ≡ class_of x y z → count_of result ≡ count_cell g z y x (count_of counts) }
    ensures written_bound { result.written ≤ counts.written + 15 }
{
    let fresh = news.word(case, class);
    Counts {
        made: counts.made + ((fresh >> 60) as u32),
        written: counts.written + 3 * (((fresh >> 56) % 16) as u32),
    }
}
