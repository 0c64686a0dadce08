// The sum and the difference of words with interleaved coordinates: `Add` and `Sub` of morton.rs. Any
// word is taken, and each axis wraps in its own bits.

#![tactic(auto)]

ghost use Rattle.std.specs.Prelude.{◌≡◌};
ghost use Rattle.morton_sums.specs.Interleaved.{sum_of, difference_of};

const DILATE_TZ: u64 = 0x4924_9249_2492_4924; // bits 2, 5, .., 62

const DILATE_TY: u64 = 0x2492_4924_9249_2492; // bits 1, 4, .., 61

const DILATE_TX: u64 = 0x9249_2492_4924_9249; // bits 0, 3, .., 63

const DILATE_T1: u64 = 0xB6DB_6DB6_DB6D_B6DB; // all but DILATE_TZ

const DILATE_T2: u64 = 0xDB6D_B6DB_6DB6_DB6D; // all but DILATE_TY

const DILATE_T3: u64 = 0x6DB6_DB6D_B6DB_6DB6; // all but DILATE_TX

// The sum on each axis. Where the bits of other axes are all set, a carry passes over them.
pub fn sum(a: u64, b: u64) -> u64
    ensures { result ≡ sum_of a b }
{
    let z = (a | DILATE_T1).wrapping_add(b & DILATE_TZ) & DILATE_TZ;
    let y = (a | DILATE_T2).wrapping_add(b & DILATE_TY) & DILATE_TY;
    let x = (a | DILATE_T3).wrapping_add(b & DILATE_TX) & DILATE_TX;
    z | y | x
}

// The difference on each axis. Where the bits of other axes are all clear, a borrow passes over them.
pub fn difference(a: u64, b: u64) -> u64
    ensures { result ≡ difference_of a b }
{
    let z = (a & DILATE_TZ).wrapping_sub(b & DILATE_TZ) & DILATE_TZ;
    let y = (a & DILATE_TY).wrapping_sub(b & DILATE_TY) & DILATE_TY;
    let x = (a & DILATE_TX).wrapping_sub(b & DILATE_TX) & DILATE_TX;
    z | y | x
}
