// The half-size and the center of the octree cell of a key with interleaved coordinates: `size` and
// `center` of morton.rs. A bad key is refused with cause 9.

#![tactic(auto)]

ghost use Rattle.std.specs.Prelude.{◌≡◌, ◌≤◌};
ghost use Rattle.morton_sums.specs.Interleaved.{thirds};
ghost use Rattle.morton_cells.specs.Cell.{half_size_of, center_of, half_size_at, center_at};

use morton::{BadKey, level};

const SHIFT_2A: u64 = 18;

const SHIFT_2B: u64 = 36;

const SHIFT_1A: u64 = 6;

const SHIFT_1B: u64 = 12;

const SHIFT_0A: u64 = 2;

const SHIFT_0B: u64 = 4;

const DILATE_MASK_2: u64 = 0x7FC0_000F_F800_01FF; // 9 bits at 0, 27, 54

const DILATE_MASK_1: u64 = 0x01C0_E070_381C_0E07; // 3 bits at 0, 9, .., 54

const DILATE_MASK_0: u64 = 0x9249_2492_4924_9249; // bits 0, 3, .., 63

// The Rust's own record of a center. A mesh's vertex has one of its own, which document 01 names: one for both would stand
// below crates that have nothing else in common, and be no plainer.
#[derive(Clone, Copy)]
pub struct Vec3 {
    pub x: f32,
    pub y: f32,
    pub z: f32,
}

// A level of the octree.
#[derive(Clone, Copy)]
struct Level {
    number: u32,
    ghost within: { number ≤ 21 },
}

impl Level {
    // `size` of morton.rs.
    fn half_size(self) -> f32
        ensures { result ≡ half_size_at self.number }
    {
        1.0 / ((2u64 << self.number) as f32)
    }

    // Every third bit, moved together by threes, nines and twenty-sevens; then as many as there are levels.
    fn coordinate(self, bits: u64) -> u64
        ensures { result ≡ thirds self.number bits }
    {
        let ones = bits & DILATE_MASK_0;
        let threes = (ones | (ones >> SHIFT_0A) | (ones >> SHIFT_0B)) & DILATE_MASK_1;
        let nines = (threes | (threes >> SHIFT_1A) | (threes >> SHIFT_1B)) & DILATE_MASK_2;
        let length_mask = (1u64 << self.number) - 1;
        (nines | (nines >> SHIFT_2A) | (nines >> SHIFT_2B)) & length_mask
    }

    // The center of a cell on the axis whose bits are every third one of `bits`.
    fn center_on(self, bits: u64) -> f32
        ensures { result ≡ center_at (thirds self.number bits) self.number }
    {
        let size = self.half_size();
        let size2 = size * 2.0;
        (self.coordinate(bits) as f32) * size2 + size
    }
}

// The distance from the center of the key's cell to its faces.
#[tactic(auto, using(morton::proofs::TopBit::level_in_le))]
pub fn half_size(key: u64) -> Result<f32, BadKey>
    ensures { result ≡ half_size_of key }
{
    let level = Level {
        number: level(key)?,
    };
    Ok(level.half_size())
}

// The center of the key's cell, in the cube of side 1 that is the root's.
#[tactic(auto, using(morton::proofs::TopBit::level_in_le))]
pub fn center(key: u64) -> Result<Vec3, BadKey>
    ensures { result ≡ center_of key }
{
    let level = Level {
        number: level(key)?,
    };
    let x = level.center_on(key);
    let y = level.center_on(key >> 1);
    let z = level.center_on(key >> 2);
    Ok(Vec3 { x, y, z })
}
