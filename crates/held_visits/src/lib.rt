// The visits of a cell of the crate numbering, one after the other. `current` holds what `get` finds for the
// cell's edges beside the numbers that the cell gives.

#![tactic(auto)]

ghost use Rattle.std.specs.Prelude.{◌≡◌, List, ℕ, ◌+◌, ◌^◌, ◌≤◌, ◌<◌};
ghost use Rattle.packed_tables.specs.Listed.{edges_left};
ghost use Rattle.lent_mesh.specs.Stored.{in_hand};
ghost use Rattle.index_cache.specs.Found.{CacheRoom};
ghost use Rattle.held_visits.specs.CellMemory.{in_cell, hand, number_edge, held_visit, held_edges};

use index_cache::Parity;
use lent_mesh::Counts;
use lent_mesh::cell::Cell;
use packed_tables::edges::PackedEdges;

// The edge gets the number, and its vertex is put there.
// `CacheRoom` stays a clause: each contract speaks of the words before and after, which a struct of them would hide.
pub fn make_edge(
    cell: Cell,
    parity: Parity,
    edge: usize,
    number: u32,
    current: &mut [u32; 12],
    work: &mut [u32],
    vertices: &mut [f32],
)
    requires cache_room { CacheRoom cell.size.n work.old }
    requires edge_bound { edge < 12 }
    ensures { let at = cell.entry in (is : List ℕ) (m w : ℕ) → hand (in_cell work.new parity.layer parity.row current.new) vertices.new is m w
        ≡ number_edge at.size.n at.samples.now at.x at.y at.z edge number (hand (in_cell work.old parity.layer parity.row current.old) vertices.old is m w) }
{
    index_cache::put(work, cell.size.n, cell.x, cell.y, parity, edge, number);
    current[edge] = number;
    cell.put_vertex(edge, vertices, number);
}

// One visit: the number that `current` has is written as an index, or the next vertex is made. `current`
// begins as `found`, for a cell puts nothing into the layer and the row that it reads.
// An absent number is 0 and no `Option`: it is a word of the lent memory, which `held_visit` reads in that way.
fn visit(
    cell: Cell,
    parity: Parity,
    edge: usize,
    current: &mut [u32; 12],
    work: &mut [u32],
    vertices: &mut [f32],
    indices: &mut [u32],
    counts: Counts,
) -> Counts
    requires cache_room { CacheRoom cell.size.n work.old }
    requires edge_bound { edge < 12 }
    requires written_fits { counts.written + 1 < 2 ^ 32 }
    ensures result_after { let at = cell.entry in in_hand (in_cell work.new parity.layer parity.row current.new) vertices.new indices.new result
        ≡ held_visit at.size.n at.samples.now at.x at.y at.z edge (in_hand (in_cell work.old parity.layer parity.row current.old) vertices.old indices.old counts) }
    ensures written_value { result.written ≡ counts.written + 1 }
{
    let number = current[edge];
    if number > 0 {
        lent_mesh::put_index(indices, counts.written, number);
        return Counts {
            made: counts.made,
            written: counts.written + 1,
        };
    }
    make_edge(cell, parity, edge, counts.made, current, work, vertices);
    lent_mesh::put_index(indices, counts.written, counts.made);
    Counts {
        made: counts.made + 1,
        written: counts.written + 1,
    }
}

// The visits of some edges of a cell, in their order.
pub fn visit_all(
    cell: Cell,
    parity: Parity,
    edges: PackedEdges,
    current: &mut [u32; 12],
    work: &mut [u32],
    vertices: &mut [f32],
    indices: &mut [u32],
    mut counts: Counts,
) -> Counts
    requires cache_room { CacheRoom cell.size.n work.old }
    requires written_fits { counts.written + edges.count < 2 ^ 32 }
    ensures result_after { let at = cell.entry in in_hand (in_cell work.new parity.layer parity.row current.new) vertices.new indices.new result
        ≡ held_edges at.size.n at.samples.now at.x at.y at.z (edges_left edges) (in_hand (in_cell work.old parity.layer parity.row current.old) vertices.old indices.old counts) }
    ensures written_value { result.written ≡ counts.written + edges.count }
{
    for edge in edges {
        counts = visit(cell, parity, edge, current, work, vertices, indices, counts);
    }
    counts
}
