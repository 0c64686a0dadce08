// The new edges of a regular cell of the crate numbering. A word of a table says which of them the cell's row
// names and gives each its rank, so that they are made in the order of the edges, each by constants.

#![tactic(auto)]

ghost use Rattle.std.specs.Prelude.{◌≡◌, List, ℕ, ◌+◌, ◌^◌, ◌<◌};
ghost use Rattle.index_cache.specs.Found.{CacheRoom};
ghost use Rattle.held_visits.specs.CellMemory.{in_cell, hand};
ghost use Rattle.regular_edges.specs.RegularEdges.{named_edge, regular_edges};

use index_cache::Parity;
use lent_mesh::cell::Cell;

// The edge is made if the word names it, with the number that its rank gives it.
// `made + 15` stays a clause: a cell makes up to 15, so a type with that room would hold before a cell and not after.
fn make_named(
    cell: Cell,
    parity: Parity,
    regular: u64,
    edge: usize,
    made: u32,
    current: &mut [u32; 12],
    work: &mut [u32],
    vertices: &mut [f32],
)
    requires cache_room { CacheRoom cell.size.n work.old }
    requires edge_bound { (edge < 12) × (made + 15 < 2 ^ 32) }
    ensures { let at = cell.entry in (is : List ℕ) (m w : ℕ) → hand (in_cell work.new parity.layer parity.row current.new) vertices.new is m w
        ≡ named_edge at.size.n at.samples.now at.x at.y at.z regular made edge (hand (in_cell work.old parity.layer parity.row current.old) vertices.old is m w) }
{
    if (regular >> edge) % 2 == 1 {
        let rank = ((regular >> (16 + 4 * edge)) % 16) as u32;
        held_visits::make_edge(cell, parity, edge, made + rank, current, work, vertices);
    }
}

// The new edges of a regular cell, each by its own constants.
pub fn make_regular(
    cell: Cell,
    parity: Parity,
    regular: u64,
    made: u32,
    current: &mut [u32; 12],
    work: &mut [u32],
    vertices: &mut [f32],
)
    requires cache_room { CacheRoom cell.size.n work.old }
    requires made_fits { made + 15 < 2 ^ 32 }
    ensures { let at = cell.entry in (is : List ℕ) (m w : ℕ) → hand (in_cell work.new parity.layer parity.row current.new) vertices.new is m w
        ≡ regular_edges at.size.n at.samples.now at.x at.y at.z regular made (hand (in_cell work.old parity.layer parity.row current.old) vertices.old is m w) }
{
    make_named(cell, parity, regular, 0, made, current, work, vertices);
    make_named(cell, parity, regular, 5, made, current, work, vertices);
    make_named(cell, parity, regular, 6, made, current, work, vertices);
    make_named(cell, parity, regular, 7, made, current, work, vertices);
    make_named(cell, parity, regular, 10, made, current, work, vertices);
    make_named(cell, parity, regular, 11, made, current, work, vertices);
}
