// Little-endian words in lent bytes, and the bits of floats: what the readers and writers of records
// share. No function here is public: callers have tested that the bytes are there.

#![tactic(auto)]

ghost use Rattle.std.specs.Prelude.{◌≡◌, ℕ, ◌+◌, ◌≤◌, length};
ghost use Rattle.std.proofs.lemmas.List.Edits.{sets};
ghost use Rattle.std.specs.Float.{binary32};
ghost use Rattle.std.specs.Float.Ieee.{of_bits, to_bits};
ghost use Rattle.little_endian.specs.Words.{word_at, word_bytes};

use std::num::{f32_from_bits_with_nan, f32_to_bits_with_nan};

// The u32 that begins at a byte place. The place stays a parameter, here and in `put_word`: what they promise speaks of it.
pub fn word_at(bytes: &[u8], at: usize) -> u32
    requires { at + 4 ≤ length bytes.now }
    ensures { result ≡ word_at bytes.now at }
{
    u32::from_le_bytes([bytes[at], bytes[at + 1], bytes[at + 2], bytes[at + 3]])
}

// The four bytes of a u32 from a byte place on.
pub fn put_word(bytes: &mut [u8], at: usize, value: u32)
    requires { at + 4 ≤ length bytes.old }
    ensures { bytes.new ≡ sets bytes.old at (word_bytes value) }
{
    bytes[at..at + 4].copy_from_slice(&value.to_le_bytes());
}

// The float with these bits. A NaN's bits give a NaN, and not always the same bits.
pub fn float_of(bits: u32) -> f32
    ensures { result ≡ of_bits binary32 bits }
{
    f32_from_bits_with_nan(bits)
}

// The bits of a float. A NaN has the model's pattern.
pub fn bits_of(x: f32) -> u32
    ensures { result ≡ to_bits binary32 x }
{
    f32_to_bits_with_nan(x)
}

// A value that stands in a record as the four bytes of a word: a u32 as it is, an f32 by its bits.
pub trait Word: Copy {
    ghost from_word: { ℕ → Self };

    ghost to_word: { Self → ℕ };

    fn from_word(word: u32) -> Self
        ensures { result ≡ from_word word };

    fn to_word(self) -> u32
        ensures { result ≡ to_word self };
}

impl Word for u32 {
    ghost from_word = { λ word. word };

    ghost to_word = { λ word. word };

    fn from_word(word: u32) -> u32 {
        word
    }

    fn to_word(self) -> u32 {
        self
    }
}

impl Word for f32 {
    ghost from_word = { of_bits binary32 };

    ghost to_word = { to_bits binary32 };

    fn from_word(word: u32) -> f32 {
        float_of(word)
    }

    fn to_word(self) -> u32 {
        bits_of(self)
    }
}
