// The edges that a word of a table holds, one after the other or three at a time, so that a walk goes over them with
// `for`; and how the numbers of a row's edges become indices, the same in both numberings.

ghost use Rattle.std.specs.Prelude.{◌≡◌, ◌*◌};
ghost use Rattle.packed_tables.specs.Unpacked.{unpacked, Edges, edges-prop};

// The first `count` edges of a word, four bits each, the first in the lowest.
#[derive(Clone, Copy)]
pub struct PackedEdges {
    pub count: u64,
    pub word: u64,
    pub ghost known: { Edges (unpacked count word) } by { edges-prop (unpacked count word) },
}

impl Iterator for PackedEdges {
    ghost use Rattle.std.specs.Iterator.{YieldsFirst, item_count};
    ghost use Rattle.packed_tables.specs.Listed.{edges_left};

    type Item = usize;

    ghost next_gives = { YieldsFirst edges_left };

    ghost remaining = { item_count edges_left };

    #[inline(always)]
    fn next(&mut self) -> Option<usize> {
        if self.count == 0 {
            return None;
        }
        let edge = (self.word % 16) as usize;
        self.count -= 1;
        self.word /= 16;
        Some(edge)
    }
}

// The edges of the first `count` triangles of a word, three edges each.
#[derive(Clone, Copy)]
pub struct PackedTriangles {
    pub count: u64,
    pub word: u64,
    pub ghost known: { Edges (unpacked (3 * count) word) } by { edges-prop (unpacked (3 * count) word) },
}

impl Iterator for PackedTriangles {
    ghost use Rattle.std.specs.Iterator.{YieldsFirst, item_count};
    ghost use Rattle.packed_tables.specs.Listed.{triangles_left};

    type Item = (usize, usize, usize);

    ghost next_gives = { YieldsFirst triangles_left };

    ghost remaining = { item_count triangles_left };

    #[inline(always)]
    fn next(&mut self) -> Option<(usize, usize, usize)> {
        if self.count == 0 {
            return None;
        }
        let second = self.word / 16;
        let third = second / 16;
        let edges = (
            (self.word % 16) as usize,
            (second % 16) as usize,
            (third % 16) as usize,
        );
        self.count -= 1;
        self.word = third / 16;
        Some(edges)
    }
}

impl PackedTriangles {
    ghost use Rattle.std.specs.Prelude.{ℕ, ◌+◌, ◌^◌, ◌<◌};
    ghost use Rattle.packed_tables.specs.Listed.{triangles_left, numbers_put};

    // The numbers of the edges are the next indices from a place on, three at a time. Gives the place after them.
    pub fn put_numbers<F: Fn(usize) -> u32>(
        self,
        number: F,
        indices: &mut [u32],
        mut place: u32,
    ) -> u32
        requires callable { (edge : ℕ) → edge < 12 → F.pre number edge }
        requires place_fits { place + 3 * self.count < 2 ^ 32 }
        ensures by_number { (f : ℕ → ℕ) → ((edge k : ℕ) → edge < 12 → F.post number edge k → k ≡ f edge)
            → indices.new ≡ numbers_put f (triangles_left self) place indices.old }
        ensures place_value { result ≡ place + 3 * self.count }
    {
        for (a, b, c) in self {
            let first = number(a);
            let second = number(b);
            let third = number(c);
            lent_mesh::put_three(indices, place, first, second, third);
            place += 3;
        }
        place
    }
}
