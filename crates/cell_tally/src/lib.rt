// How many triangles and new edges 32 cells have together, by the numbers of set bits and without a look at any
// single cell. A cell has as many triangles as corners inside, less two for each face that is inside and four
// where only two opposite corners are outside, and four more where all are inside.

#![tactic(auto)]

ghost use Rattle.std.specs.Prelude.{◌≡◌, ◌+◌, ◌*◌, ◌≤◌};
ghost use Rattle.corner_signs.specs.Signs.{inside_at, faces_at, whole_at, opposite_at};
ghost use Rattle.cell_tally.specs.Tally.{in_mask, is_set, of_signs, triangles_in, new_in, set_in};

// A word of signs for each corner of a cell, in the order of CORNERS: bit i is that of cell i.
#[derive(Clone, Copy)]
pub struct Corners {
    pub signs: [u32; 8],
}

// The bits of a word that the mask has too.
fn set_in(word: u32, mask: u32) -> u32
    ensures { (result ≡ set_in word mask) × (result ≤ 32) }
{
    u32::count_ones(word & mask)
}

impl Corners {
    // The corners that are inside.
    fn corners_inside(self, mask: u32) -> u32
        ensures { (result ≡ in_mask mask (of_signs inside_at self)) × (result ≤ 256) }
    {
        let [c0, c1, c2, c3, c4, c5, c6, c7] = self.signs;
        let low = set_in(c0, mask) + set_in(c1, mask) + set_in(c2, mask) + set_in(c3, mask);
        let high = set_in(c4, mask) + set_in(c5, mask) + set_in(c6, mask) + set_in(c7, mask);
        low + high
    }

    // The faces that are inside.
    fn faces_inside(self, mask: u32) -> u32
        ensures { (result ≡ in_mask mask (of_signs faces_at self)) × (result ≤ 192) }
    {
        let [c0, c1, c2, c3, c4, c5, c6, c7] = self.signs;
        let z = set_in(c0 & c1 & c2 & c3, mask) + set_in(c4 & c5 & c6 & c7, mask);
        let y = set_in(c0 & c1 & c4 & c5, mask) + set_in(c2 & c3 & c6 & c7, mask);
        let x = set_in(c0 & c3 & c4 & c7, mask) + set_in(c1 & c2 & c5 & c6, mask);
        z + y + x
    }

    // The cells that are inside.
    fn cells_inside(self, mask: u32) -> u32
        ensures { (result ≡ in_mask mask (of_signs whole_at self)) × (result ≤ 32) }
    {
        let [c0, c1, c2, c3, c4, c5, c6, c7] = self.signs;
        set_in(c0 & c1 & c2 & c3 & c4 & c5 & c6 & c7, mask)
    }

    // The cells with two corners outside that lie across them.
    fn opposite_outside(self, mask: u32) -> u32
        ensures { (result ≡ in_mask mask (of_signs opposite_at self)) × (result ≤ 64) }
    {
        let [c0, c1, c2, c3, c4, c5, c6, c7] = self.signs;
        let one = c2 & c3 & c4 & c5 & (c0 ^ c1) & (c6 ^ c7) & (c0 ^ c7);
        let other = c0 & c1 & c6 & c7 & (c2 ^ c3) & (c4 ^ c5) & (c3 ^ c4);
        set_in(one, mask) + set_in(other, mask)
    }

    // The triangles of the cells that the mask has a bit for.
    pub fn triangles_in(self, mask: u32) -> u32
        ensures { (result ≡ triangles_in self mask) × (result ≤ 160) }
    {
        let more = self.corners_inside(mask) + 4 * self.cells_inside(mask);
        let fewer = 2 * self.faces_inside(mask) + 4 * self.opposite_outside(mask);
        more - fewer
    }

    // Their edges that are new in the joined numbering, above the lowest layer. `first` has a bit for a cell with
    // x = 0, `top` for one with y = 0.
    pub fn new_in(self, mask: u32, first: u32, top: u32) -> u32
        ensures { (result ≡ new_in self mask first top) × (result ≤ 256) }
    {
        let [c0, c1, c2, c3, c4, c5, c6, c7] = self.signs;
        let inner = set_in(c5 ^ c6, mask) + set_in(c6 ^ c7, mask) + set_in(c2 ^ c6, mask);
        let left = set_in((c4 ^ c7) & first, mask) + set_in((c3 ^ c7) & first, mask);
        let upper = set_in((c4 ^ c5) & top, mask) + set_in((c1 ^ c5) & top, mask);
        inner + left + upper + set_in((c0 ^ c4) & first & top, mask)
    }
}
