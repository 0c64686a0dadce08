// Runs of little-endian words out of lent bytes, as u32 or as floats. Callers have tested that the
// bytes are there.

#![tactic(auto)]

ghost use Rattle.std.specs.Prelude.{◌≡◌, map, ◌*◌, ◌≤◌, length};
ghost use Rattle.little_endian.specs.Words.{words_from};

use little_endian::{Word, word_at};

// The words at the front of the bytes, as many as the buffer has places.
pub fn copy_words<W: Word>(bytes: &[u8], buffer: &mut [W])
    requires { 4 * length buffer.old ≤ length bytes.now }
    ensures { buffer.new ≡ map W.from_word (words_from bytes.now 0 (length buffer.old)) }
{
    for (i, place) in buffer.iter_mut().enumerate() {
        *place = W::from_word(word_at(bytes, 4 * i));
    }
}
