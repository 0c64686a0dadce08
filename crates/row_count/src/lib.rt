// The steps of the two numberings that count and leave the outputs as they are. A cell of the crate numbering is
// counted by the edges that are held in working memory, one of the joined numbering by its packed word, and a layer of
// the joined numbering above the lowest word by word.

#![tactic(auto)]

ghost use Rattle.std.specs.Prelude.{◌≡◌, suc, ⊤};
ghost use Rattle.row_walk.specs.Steps.{row_parity};
ghost use Rattle.held_bits.specs.Names.{name_words};
ghost use Rattle.held_bits.specs.HeldCell.{held_room, clear_held};
ghost use Rattle.row_count.specs.Steps.{counting};
ghost use Rattle.row_count.specs.IdleCells.{counting-idle};

use grid_size::Size;
use layer_tally::CellMasks;
use lent_mesh::Counts;
use packed_tables::NewWords;
use row_walk::CellStep;
use row_walk::layer::{Crossed, Layer};

// The crate numbering, by a table that is made once and lent.
#[derive(Clone, Copy)]
pub struct CrateCount<'a> {
    pub names: &'a [u32; 256],
    pub ghost names_are: { names.now ≡ name_words },
}

// The joined numbering, by another and by the masks of a size.
#[derive(Clone, Copy)]
pub struct JoinedCount<'a> {
    pub news: &'a NewWords,
    pub masks: &'a CellMasks,
}

impl CellStep for CrateCount<'_> {
    ghost step = { counting 0 };

    ghost ended = { λ n z w. clear_held n (row_parity n (suc z) 0) n w };

    ghost room = { held_room };

    ghost made_for = { λ s n. ⊤ };

    ghost ready = { λ s n z. ⊤ };

    fn at_layer(&self, size: Size, z: usize) -> Self {
        *self
    }

    fn cell(
        &self,
        here: Crossed,
        work: &mut [u32],
        vertices: &mut [f32],
        indices: &mut [u32],
        counts: Counts,
    ) -> Counts {
        let row = here.row;
        held_bits::held_cell(
            self.names,
            row.layer.size.n,
            here.x,
            row.y,
            here.case,
            row.parity,
            work,
            counts,
        )
    }

    fn end_layer(&self, size: Size, row: usize, work: &mut [u32]) {
        held_bits::clear_held(work, size.n, row);
    }

    ghost idle = { counting-idle 0 };
}

impl CellStep for JoinedCount<'_> {
    ghost step = { counting 1 };

    ghost ended = { λ n z w. w };

    ghost room = { λ n. 0 };

    ghost made_for = { λ s n. s.masks.now.size.n ≡ n };

    ghost ready = { λ s n z. ⊤ };

    fn at_layer(&self, size: Size, z: usize) -> Self {
        *self
    }

    fn cell(
        &self,
        here: Crossed,
        work: &mut [u32],
        vertices: &mut [f32],
        indices: &mut [u32],
        counts: Counts,
    ) -> Counts {
        joined_edges::joined_counts(self.news, here.case, here.class, counts)
    }

    fn whole_layer(&self, layer: Layer, counts: Counts) -> Option<Counts> {
        if layer.z > 0 {
            return Some(layer_tally::tally_layer(self.masks, layer.words, counts));
        }
        None
    }

    fn end_layer(&self, size: Size, row: usize, work: &mut [u32]) {}

    ghost idle = { counting-idle 1 };
}
