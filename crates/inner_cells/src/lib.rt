// The new edges of an inner cell, one with x, y and z all above 0: it can own the edges 5, 6 and 10 alone, so each is
// taken by itself and the compiler knows its ends and its slot. The numbers are those of the list.

#![tactic(auto)]

ghost use Rattle.std.specs.Prelude.{◌≡◌, List, ℕ, ◌+◌, ◌*◌, ◌/◌, ◌^◌, ◌≤◌, ◌<◌, length};
ghost use Rattle.packed_tables.specs.Unpacked.{marked, inner_marked};
ghost use Rattle.lent_mesh.specs.Stored.{store_at};
ghost use Rattle.joined_slots.specs.OneCell.{each};
ghost use Rattle.inner_cells.specs.Ranked.{make_ranked, hand};

use joined_slots::slot_cell::SlotCell;

// An edge with a mark takes the number that its mark says, counted from `made`, and its vertex is put; one
// without has none.
// The room in `work` stays a clause: each contract speaks of the words before and after, which a struct would hide.
fn make_marked(
    here: SlotCell,
    edge: usize,
    mark: u32,
    work: &mut [u32],
    vertices: &mut [f32],
    made: u32,
)
    requires edge_bound { (edge < 12) × (mark ≤ 15) }
    requires n_in_bounds { (8 * (here.cell.size.n * here.cell.size.n) ≤ length work.old) × (made + 15 < 2 ^ 32) }
    ensures { let cell = here.entry.cell in (l : List ℕ) (written : ℕ) → hand work.new vertices.new l made written
        ≡ each (make_ranked (store_at cell.size.n cell.samples.now) cell.size.n cell.z cell.y cell.x) (marked edge mark) (hand work.old vertices.old l made written) }
{
    if 0 < mark {
        let number = made + (mark - 1);
        work[here.place(edge)] = number;
        here.cell.put_vertex(edge, vertices, number);
    }
}

// All three, in this order whatever that of the list is: the two of the upper plane, and the one along z. The marks
// stand in the word from bit 16 on, and how many there are in its highest four bits. What is answered is how many
// vertices there are after them.
// The word stays a word: a struct of its marks and its count would be unpacked for this one reader alone.
pub fn make_inner(
    here: SlotCell,
    word: u64,
    work: &mut [u32],
    vertices: &mut [f32],
    made: u32,
) -> u32
    requires n_in_bounds { (8 * (here.cell.size.n * here.cell.size.n) ≤ length work.old) × (made + 15 < 2 ^ 32) × (word / 2 ^ 60 ≤ 15) }
    ensures by_index { let cell = here.entry.cell in (l : List ℕ) (written : ℕ) → hand work.new vertices.new l made written
        ≡ each (make_ranked (store_at cell.size.n cell.samples.now) cell.size.n cell.z cell.y cell.x) (inner_marked word) (hand work.old vertices.old l made written) }
    ensures made_value { result ≡ made + word / 2 ^ 60 }
{
    make_marked(here, 5, ((word >> 16) % 16) as u32, work, vertices, made);
    make_marked(here, 6, ((word >> 20) % 16) as u32, work, vertices, made);
    make_marked(here, 10, ((word >> 24) % 16) as u32, work, vertices, made);
    made + ((word >> 60) as u32)
}
