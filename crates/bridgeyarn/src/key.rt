// The calls about Morton keys. Level, parent, child, half-size and center refuse a bad key with
// cause 9; the sum and the difference take any two words.
ghost use Rattle.std.specs.Prelude.{◌≡◌};
ghost use Rattle.morton.specs.Answer.{level_of, parent_of, child_of, key_cause};
ghost use Rattle.morton_cells.specs.Cell.{half_size_of, center_of};
ghost use Rattle.morton_sums.specs.Interleaved.{sum_of, difference_of};
ghost use Rattle.key_answer.specs.Key.{key_answer, half_size_answer, center_left};

use key_answer::{HalfSizeAnswer, KeyAnswer};

// The level of a key.
#[unsafe(no_mangle)]
pub extern "C" fn bridgeyarn_morton_level(key: u64) -> KeyAnswer
    ensures { result ≡ key_answer (level_of key) }
{
    key_answer::level(key)
}

// The key of the cell around this one, never below 1.
#[unsafe(no_mangle)]
pub extern "C" fn bridgeyarn_morton_parent(key: u64) -> KeyAnswer
    ensures { result ≡ key_answer (parent_of key) }
{
    key_answer::parent(key)
}

// The key of a cell within this one; refused at level 21, and for a child above 7.
#[unsafe(no_mangle)]
pub extern "C" fn bridgeyarn_morton_child(key: u64, which: u32) -> KeyAnswer
    ensures { result ≡ key_answer (child_of key which) }
{
    key_answer::child(key, which)
}

// Half the side of the key's cell.
#[unsafe(no_mangle)]
pub extern "C" fn bridgeyarn_morton_half_size(key: u64) -> HalfSizeAnswer
    ensures { result ≡ half_size_answer (half_size_of key) }
{
    key_answer::half_size(key)
}

// The center of the key's cell; what is lent stays as it was where refused.
#[unsafe(no_mangle)]
pub extern "C" fn bridgeyarn_morton_center(key: u64, center: &mut [f32; 3]) -> u32
    ensures { (result ≡ key_cause (center_of key)) × (center.new ≡ center_left (center_of key) center.old) }
{
    key_answer::center(key, center)
}

// The sum on each axis, modulo 2^22 for x and 2^21 for y and z.
#[unsafe(no_mangle)]
pub extern "C" fn bridgeyarn_morton_sum(a: u64, b: u64) -> u64
    ensures { result ≡ sum_of a b }
{
    morton_sums::sum(a, b)
}

// The difference on each axis, modulo 2^22 for x and 2^21 for y and z.
#[unsafe(no_mangle)]
pub extern "C" fn bridgeyarn_morton_difference(a: u64, b: u64) -> u64
    ensures { result ≡ difference_of a b }
{
    morton_sums::difference(a, b)
}
