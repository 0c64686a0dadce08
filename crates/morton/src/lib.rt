// Keys of octree cells with interleaved coordinates: `level`, `parent` and `child` of morton.rs, which
// is ported without primal_vertex and dual_vertex. A bad key, or a bad child, is refused with cause 9.

#![tactic(auto)]

ghost use Rattle.std.specs.Prelude.{◌≡◌, T};
ghost use Rattle.morton.specs.Key.{good, level_in};
ghost use Rattle.morton.specs.Answer.{level_of, parent_of, child_of};

const MAX_LEVEL: u32 = 21;

// Why a key is refused: it is not good, or it has no such child.
#[derive(Clone, Copy, Debug, PartialEq, Eq)]
pub struct BadKey;

// Whether the key is not 0 and has its highest set bit at a multiple of 3.
#[tactic(auto, unfolding(crate::specs::Key::good, crate::specs::Key::top_bit))]
pub fn is_good(key: u64) -> bool
    ensures { result ≡ good key }
{
    key != 0 && (63 - key.leading_zeros()) % 3 == 0
}

// The level of a good key.
#[tactic(auto, using(crate::proofs::TopBit::zeros_le, crate::proofs::TopBit::good_pos), unfolding(crate::specs::Key::level_in, crate::specs::Key::top_bit))]
pub fn level_in(key: u64) -> u32
    requires { T (good key) }
    ensures { result ≡ level_in key }
{
    (63 - key.leading_zeros()) / 3
}

// The depth of the key's cell in the octree. Every other question asks this first.
pub fn level(key: u64) -> Result<u32, BadKey>
    ensures { result ≡ level_of key }
{
    if is_good(key) {
        Ok(level_in(key))
    } else {
        Err(BadKey)
    }
}

// The key of the cell that this one is an eighth of; the root is its own parent.
pub fn parent(key: u64) -> Result<u64, BadKey>
    ensures { result ≡ parent_of key }
{
    level(key)?;
    Ok(std::cmp::max(key >> 3, 1))
}

// The key of one of the eight cells in this one, of which there are none at the last level.
#[tactic(auto, using(crate::proofs::TopBit::child_word))]
pub fn child(key: u64, which: u32) -> Result<u64, BadKey>
    ensures { result ≡ child_of key which }
{
    let level = level(key)?;
    if MAX_LEVEL <= level || 7 < which {
        return Err(BadKey);
    }
    Ok((key << 3) | u64::from(which))
}
