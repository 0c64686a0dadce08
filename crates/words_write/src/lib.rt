// Runs of little-endian words into lent bytes, from u32 or from floats. Callers have tested that the
// bytes are there.

#![tactic(auto)]

ghost use Rattle.std.specs.Prelude.{◌≡◌, map, ◌*◌, ◌≤◌, length};
ghost use Rattle.little_endian.specs.Words.{bytes_of, over};

use little_endian::{Word, put_word};

// The bytes of words, at the front of those that are lent. The bytes after them stay as they were.
pub fn put_words<W: Word>(bytes: &mut [u8], list: &[W])
    requires { 4 * length list.now ≤ length bytes.old }
    ensures { bytes.new ≡ over (bytes_of (map W.to_word list.now)) bytes.old }
{
    for (i, word) in list.iter().enumerate() {
        put_word(bytes, 4 * i, word.to_word());
    }
}
