// The answers about Morton keys as they cross the C boundary: the cause beside the value. A bad key is
// cause 9.

#![tactic(auto)]

ghost use Rattle.std.specs.Prelude.{◌≡◌};
ghost use Rattle.morton.specs.Answer.{level_of, parent_of, child_of, key_cause};
ghost use Rattle.morton_cells.specs.Cell.{half_size_of, center_of};
ghost use Rattle.key_answer.specs.Key.{key_answer, half_size_answer, center_left};

use morton::BadKey;
use morton_cells::Vec3;

// A level or a key; 0 where refused. Two structs with their cause beside the value, and no generic one,
// since include/bridgeyarn.h declares these two.
#[repr(C)]
#[derive(Clone, Copy)]
pub struct KeyAnswer {
    pub cause: u32,
    pub value: u64,
}

// A half-size; 0.0 where refused.
#[repr(C)]
#[derive(Clone, Copy)]
pub struct HalfSizeAnswer {
    pub cause: u32,
    pub value: f32,
}

// Document 01's number of a bad key or a bad child, and 0 where there is none.
fn cause<T>(answer: &Result<T, BadKey>) -> u32
    ensures { result ≡ key_cause answer.now }
{
    match answer {
        Ok(_) => 0,
        Err(BadKey) => 9,
    }
}

impl From<Result<u64, BadKey>> for KeyAnswer {
    ghost from_gives = { λ number answer. answer ≡ key_answer number };

    fn from(number: Result<u64, BadKey>) -> KeyAnswer {
        KeyAnswer {
            cause: cause(&number),
            value: number.unwrap_or(0),
        }
    }
}

impl From<Result<f32, BadKey>> for HalfSizeAnswer {
    ghost from_gives = { λ length answer. answer ≡ half_size_answer length };

    fn from(length: Result<f32, BadKey>) -> HalfSizeAnswer {
        HalfSizeAnswer {
            cause: cause(&length),
            value: length.unwrap_or(0.0),
        }
    }
}

// The level of a key.
pub fn level(key: u64) -> KeyAnswer
    ensures { result ≡ key_answer (level_of key) }
{
    KeyAnswer::from(morton::level(key).map(u64::from))
}

// The key of the cell around this one, never below 1.
pub fn parent(key: u64) -> KeyAnswer
    ensures { result ≡ key_answer (parent_of key) }
{
    KeyAnswer::from(morton::parent(key))
}

// The key of a cell within this one; refused at level 21, and for a child above 7.
pub fn child(key: u64, which: u32) -> KeyAnswer
    ensures { result ≡ key_answer (child_of key which) }
{
    KeyAnswer::from(morton::child(key, which))
}

// Half the side of the key's cell.
pub fn half_size(key: u64) -> HalfSizeAnswer
    ensures { result ≡ half_size_answer (half_size_of key) }
{
    HalfSizeAnswer::from(morton_cells::half_size(key))
}

// The center of the key's cell; what is lent stays as it was where refused.
pub fn center(key: u64, center: &mut [f32; 3]) -> u32
    ensures { (result ≡ key_cause (center_of key)) × (center.new ≡ center_left (center_of key) center.old) }
{
    let point = morton_cells::center(key);
    if let Ok(Vec3 { x, y, z }) = point {
        *center = [x, y, z];
    }
    cause(&point)
}
