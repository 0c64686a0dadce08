// A cell of the joined walk together with the places where its edges have their numbers.

ghost use Rattle.std.specs.Prelude.{◌≡◌, ◌*◌, ◌<◌};
ghost use Rattle.walk.specs.Edges.{edge_of};
ghost use Rattle.walk_models.specs.Owned.{edge_visit, slot};
ghost use Rattle.joined_slots.specs.OneCell.{SlotsFrom};

use lent_mesh::cell::Cell;

// The numbers of the cell's edges stand in the working memory from the place `at` on, each at its slot.
#[derive(Clone, Copy)]
pub struct SlotCell<'a> {
    pub cell: Cell<'a>,
    pub slots: &'a [usize; 12],
    pub at: usize,
    pub ghost slots_are: { SlotsFrom at slots.now cell.size.n cell.x cell.y cell.z },
}

impl SlotCell<'_> {
    // Where the number of an edge stands.
    pub fn place(self, edge: usize) -> usize
        requires { edge < 12 }
        ensures slot_of { result ≡ slot self.entry.cell.size.n (edge_of (edge_visit self.entry.cell.x self.entry.cell.y self.entry.cell.z edge)) }
        ensures in_work { result < 8 * (self.entry.cell.size.n * self.entry.cell.size.n) }
    {
        self.at + self.slots[edge]
    }
}
