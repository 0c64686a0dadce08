// Where the joined numbering keeps the numbers of a cell's edges, and the class of a cell, which says which of its edges
// it owns.

#![tactic(auto)]

pub mod slot_cell;

ghost use Rattle.std.specs.Prelude.{◌≡◌, ℕ, ◌≤◌, eqb};
ghost use Rattle.walk.specs.Walk.{bit};
ghost use Rattle.joined_slots.specs.OneCell.{Slots, class_of};

// Where the twelve edges of a cell of layer z have their numbers, from the cell's own place on.
// A number to 128 and no `Size`, which begins at 2: nothing here asks for that.
#[tactic(auto, using(crate::proofs::TwelveSlots::slots_hold))]
pub fn slots(n: usize, z: usize) -> [usize; 12]
    requires most { n ≤ 128 }
    ensures { Slots n z result }
{
    let here = z % 2;
    let above = 1 - here;
    let row = 8 * n;
    [
        here,
        10 + here,
        row + here,
        2 + here,
        above,
        10 + above,
        row + above,
        2 + above,
        4,
        12,
        row + 12,
        row + 4,
    ]
}

// The class of the cells of a row but the first.
pub fn class_of_row(y: usize, z: usize) -> usize
    ensures { (result ≡ class_of 1 y z) × (result ≤ 6) }
{
    2 * usize::from(y == 0) + 4 * usize::from(z == 0)
}

// The class of the cell x, from that of the row's cells but the first.
#[tactic(auto, using(crate::proofs::Classes::class_first, crate::proofs::Classes::class_later))]
pub fn class_at(class: usize, x: usize) -> usize
    requires { class ≤ 6 }
    ensures { (y z : ℕ) → class ≡ class_of 1 y z → result ≡ class_of x y z }
{
    if x == 0 { class + 1 } else { class }
}
