// A regular cell of the crate numbering: one that finds every edge of its row but those that such a cell makes.
// It makes them at once, by constants and a word of a table, and then names its row; any other cell goes
// visit by visit.

#![tactic(auto)]

ghost use Rattle.std.specs.Prelude.{◌≡◌, ◌+◌, ◌*◌, ◌/◌, ◌%◌, ◌^◌, ◌<◌};
ghost use Rattle.packed_tables.specs.Unpacked.{unpacked};
ghost use Rattle.lent_mesh.specs.Stored.{in_hand};
ghost use Rattle.index_cache.specs.Found.{CacheRoom};
ghost use Rattle.held_visits.specs.CellMemory.{in_cell, held_edges};
ghost use Rattle.regular_cells.specs.RegularCell.{is_regular, RegularOf};

use index_cache::Parity;
use lent_mesh::Counts;
use lent_mesh::cell::Cell;
use packed_tables::edges::PackedTriangles;

// Whether a cell is regular: each term is the bit of an edge that is not as a regular cell has it.
pub fn is_regular(regular: u64, current: &[u32; 12]) -> bool
    ensures { result ≡ is_regular regular current.now }
{
    let amiss = u64::from(current[0] != 0)
        + 2 * u64::from(current[1] == 0)
        + 4 * u64::from(current[2] == 0)
        + 8 * u64::from(current[3] == 0)
        + 16 * u64::from(current[4] == 0)
        + 256 * u64::from(current[8] == 0)
        + 512 * u64::from(current[9] == 0);
    amiss & regular == 0
}

// The visits of a regular cell's row: the new edges first, then the indices.
// `counts.written + 15` stays a clause: a type with that room would hold before a cell and not after it.
pub fn regular_visits(
    cell: Cell,
    parity: Parity,
    regular: u64,
    word: u64,
    current: &mut [u32; 12],
    work: &mut [u32],
    vertices: &mut [f32],
    indices: &mut [u32],
    counts: Counts,
) -> Counts
    requires cache_room { CacheRoom cell.size.n work.old }
    requires regular_of { RegularOf regular word current.old }
    requires made_nonzero { (0 < counts.made) × (counts.written + 15 < 2 ^ 32) }
    ensures result_after { let at = cell.entry in in_hand (in_cell work.new parity.layer parity.row current.new) vertices.new indices.new result
        ≡ held_edges at.size.n at.samples.now at.x at.y at.z (unpacked (3 * (word / 2 ^ 60)) (word % 2 ^ 60)) (in_hand (in_cell work.old parity.layer parity.row current.old) vertices.old indices.old counts) }
    ensures written_value { result.written ≡ counts.written + 3 * (word / 2 ^ 60) }
{
    regular_edges::make_regular(cell, parity, regular, counts.made, current, work, vertices);
    let triangles = PackedTriangles {
        count: word >> 60,
        word: word % 0x1000_0000_0000_0000,
    };
    let written = triangles.put_numbers(|edge| current[edge], indices, counts.written);
    Counts {
        made: counts.made + (((regular >> 12) % 16) as u32),
        written,
    }
}
