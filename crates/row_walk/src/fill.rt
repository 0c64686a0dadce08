// The steps of the two numberings that fill the lent outputs. Both make the `Cell` by its fields: a function for it would
// say each of the six again in what it ensures, and be no plainer.

ghost use Rattle.std.specs.Prelude.{◌≡◌, suc, ◌+◌, ◌*◌};
ghost use Rattle.walk_models.specs.CacheMemory.{clear_row};
ghost use Rattle.packed_tables.specs.Packed.{row_words};
ghost use Rattle.packed_tables.specs.Regular.{regular_words};
ghost use Rattle.lent_mesh.specs.Cell.{Coordinates};
ghost use Rattle.joined_slots.specs.OneCell.{Slots};
ghost use Rattle.row_walk.specs.Steps.{row_parity, cell_step};
ghost use Rattle.row_walk.specs.IdleCells.{cell_step-idle};

use crate::CellStep;
use crate::layer::Crossed;
use grid_size::Size;
use lent_mesh::Counts;
use lent_mesh::cell::Cell;
use packed_tables::NewWords;

// The crate numbering, by the tables that are made once and lent.
#[derive(Clone, Copy)]
pub struct CrateFill<'a> {
    pub rows: &'a [u64; 256],
    pub regulars: &'a [u64; 256],
    pub coordinates: &'a [f32; 129],
    pub ghost rows_are: { rows.now ≡ row_words },
    pub ghost regulars_are: { regulars.now ≡ regular_words },
}

// The joined numbering, and where the edges of a layer's cells have their numbers.
#[derive(Clone, Copy)]
pub struct JoinedFill<'a> {
    pub rows: &'a [u64; 256],
    pub news: &'a NewWords,
    pub coordinates: &'a [f32; 129],
    pub slots: [usize; 12],
    pub ghost rows_are: { rows.now ≡ row_words },
}

impl CellStep for CrateFill<'_> {
    ghost step = { cell_step 0 };

    ghost ended = { λ n z w. clear_row n (row_parity n (suc z) 0) n w };

    ghost room = { λ n. 8 * (n * n) + 6 * n };

    ghost made_for = { λ s n. Coordinates n s.coordinates.now };

    ghost ready = { λ s n z. Coordinates n s.coordinates.now };

    fn at_layer(&self, size: Size, z: usize) -> Self {
        *self
    }

    fn cell(
        &self,
        here: Crossed,
        work: &mut [u32],
        vertices: &mut [f32],
        indices: &mut [u32],
        counts: Counts,
    ) -> Counts {
        let cell = Cell {
            samples: here.row.layer.samples,
            coordinates: self.coordinates,
            size: here.row.layer.size,
            x: here.x,
            y: here.row.y,
            z: here.row.layer.z,
        };
        crate_cells::crate_cell(
            self.rows,
            self.regulars,
            cell,
            here.case,
            here.row.parity,
            work,
            vertices,
            indices,
            counts,
        )
    }

    fn end_layer(&self, size: Size, row: usize, work: &mut [u32]) {
        index_cache::clear_row(work, size.n, row);
    }

    ghost idle = { cell_step-idle 0 };
}

impl CellStep for JoinedFill<'_> {
    ghost step = { cell_step 1 };

    ghost ended = { λ n z w. w };

    ghost room = { λ n. 8 * (n * n) + 6 * n };

    ghost made_for = { λ s n. Coordinates n s.coordinates.now };

    ghost ready = { λ s n z. Coordinates n s.coordinates.now × Slots n z s.slots };

    fn at_layer(&self, size: Size, z: usize) -> Self {
        JoinedFill {
            rows: self.rows,
            news: self.news,
            coordinates: self.coordinates,
            slots: joined_slots::slots(size.n, z),
        }
    }

    fn cell(
        &self,
        here: Crossed,
        work: &mut [u32],
        vertices: &mut [f32],
        indices: &mut [u32],
        counts: Counts,
    ) -> Counts {
        let cell = Cell {
            samples: here.row.layer.samples,
            coordinates: self.coordinates,
            size: here.row.layer.size,
            x: here.x,
            y: here.row.y,
            z: here.row.layer.z,
        };
        joined_edges::joined_cell(
            self.rows,
            self.news,
            cell,
            &self.slots,
            here.case,
            here.class,
            here.dense,
            work,
            vertices,
            indices,
            counts,
        )
    }

    fn end_layer(&self, size: Size, row: usize, work: &mut [u32]) {}

    ghost idle = { cell_step-idle 1 };
}
