// The refusals of a mesh record, in document 02's order (CR 1). The bytes are only read.

#![tactic(auto)]

ghost use Rattle.std.specs.Prelude.{◌≡◌, ◌+◌, ◌*◌, ◌≤◌, length};
ghost use Rattle.little_endian.specs.Words.{word_at};
ghost use Rattle.mesh_record.specs.Refusals.{contents};
ghost use Rattle.mesh_checks.specs.Reading.{mesh_in, fields_in, refusal_in};

use little_endian::word_at;
use mesh_record::{check_opening, is_finite};
use refusals::Refusal;

// The fields after the numbering, and the length. No product passes 2^36.
#[tactic(auto, unfolding(crate::specs::Reading::fields_in))]
fn check_fields(bytes: &[u8]) -> Result<(), Refusal>
    requires { 28 ≤ length bytes.now }
    ensures { result ≡ fields_in bytes.now }
{
    let vertices = word_at(bytes, 12) as u64;
    let indices = word_at(bytes, 20) as u64;
    let indices_at = 28 + 12 * vertices;
    if word_at(bytes, 16) != 28 {
        return Err(Refusal::Malformed(16));
    }
    if indices % 3 != 0 {
        return Err(Refusal::Malformed(20));
    }
    if word_at(bytes, 24) as u64 != indices_at || bytes.len() as u64 != indices_at + 4 * indices {
        return Err(Refusal::Malformed(24));
    }
    Ok(())
}

// The lowest bad vertex or index of a record whose header and length are right.
fn check_contents(bytes: &[u8]) -> Result<(), Refusal>
    requires { length bytes.now ≡ 28 + 12 * word_at bytes.now 12 + 4 * word_at bytes.now 20 }
    ensures { result ≡ contents 28 (mesh_in bytes.now) }
{
    let vertices = word_at(bytes, 12);
    let (coordinates, indices) = bytes[28..].split_at(12 * (vertices as usize));
    let words = coordinates.as_chunks::<4>().0;
    let bad_coordinate = words
        .iter()
        .position(|word| !is_finite(u32::from_le_bytes(*word)));
    if let Some(i) = bad_coordinate {
        return Err(Refusal::Malformed(28 + 4 * (i as u64)));
    }
    let words = indices.as_chunks::<4>().0;
    let bad_index = words
        .iter()
        .position(|word| vertices <= u32::from_le_bytes(*word));
    if let Some(i) = bad_index {
        return Err(Refusal::Malformed(28 + 12 * (vertices as u64) + 4 * (i as u64)));
    }
    Ok(())
}

// The first refusal of a record, or none.
#[tactic(auto, unfolding(crate::specs::Reading::refusal_in))]
pub fn check_record(bytes: &[u8]) -> Result<(), Refusal>
    ensures { result ≡ refusal_in bytes.now }
{
    if bytes.len() < 28 {
        return Err(Refusal::Malformed(bytes.len() as u64));
    }
    check_opening(word_at(bytes, 0), word_at(bytes, 4), word_at(bytes, 8))?;
    check_fields(bytes)?;
    check_contents(bytes)
}
