// One cell of the crate numbering, over the index cache in lent working memory: a regular cell at once, any
// other visit by visit.

#![tactic(auto)]

ghost use Rattle.std.specs.Prelude.{◌≡◌, ◌+◌, ◌^◌, ◌≤◌, ◌<◌};
ghost use Rattle.walk.specs.Walk.{cell as walked_cell, signs};
ghost use Rattle.walk_models.specs.Lent.{lent_hooks};
ghost use Rattle.walk_models.specs.CacheMemory.{crate_memory};
ghost use Rattle.packed_tables.specs.Packed.{row_words};
ghost use Rattle.packed_tables.specs.Regular.{regular_words};
ghost use Rattle.lent_mesh.specs.Grid.{inside_of};
ghost use Rattle.lent_mesh.specs.Stored.{store_at, in_hand};
ghost use Rattle.index_cache.specs.Found.{CacheRoom};
ghost use Rattle.held_visits.specs.CellMemory.{at_border};

use index_cache::Parity;
use lent_mesh::Counts;
use lent_mesh::cell::Cell;
use packed_tables::edges::PackedEdges;

// One cell of the crate numbering: `case` is its sign byte, `rows` the packed rows of the triangle table,
// `regulars` what a regular cell makes. A cell is taken as regular only once a vertex has been made, for
// number 0 reads as absent.
// The tables stay two: the joined numbering reads `rows` alone, and the step that calls has both in its type already.
// Before and after it no number is held in `current_cell`, as `advance_cell` has it.
pub fn crate_cell(
    rows: &[u64; 256],
    regulars: &[u64; 256],
    cell: Cell,
    case: u8,
    parity: Parity,
    work: &mut [u32],
    vertices: &mut [f32],
    indices: &mut [u32],
    counts: Counts,
) -> Counts
    requires cache_room { CacheRoom cell.size.n work.old }
    requires rows_value { (rows.now ≡ row_words) × (regulars.now ≡ regular_words) × (case ≡ signs (inside_of cell.size.n cell.samples.now) cell.x cell.y cell.z) }
    requires written_fits { counts.written + 15 < 2 ^ 32 }
    ensures result_after { let at = cell.entry in in_hand (at_border work.new parity.layer parity.row) vertices.new indices.new result
        ≡ walked_cell (lent_hooks (crate_memory at.size.n) (store_at at.size.n at.samples.now)) (inside_of at.size.n at.samples.now) at.size.n at.z at.y at.x
        (in_hand (at_border work.old parity.layer parity.row) vertices.old indices.old counts) }
    ensures written_bound { result.written ≤ counts.written + 15 }
{
    let index = usize::from(case);
    let word = rows[index];
    let regular = regulars[index];
    let mut current = index_cache::found(work, cell.size.n, cell.x, cell.y, parity);
    if (counts.made > 0) & regular_cells::is_regular(regular, &current) {
        return regular_cells::regular_visits(
            cell,
            parity,
            regular,
            word,
            &mut current,
            work,
            vertices,
            indices,
            counts,
        );
    }
    let edges = PackedEdges {
        count: 3 * (word / 0x1000_0000_0000_0000),
        word: word % 0x1000_0000_0000_0000,
    };
    held_visits::visit_all(
        cell,
        parity,
        edges,
        &mut current,
        work,
        vertices,
        indices,
        counts,
    )
}
