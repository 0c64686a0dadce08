// The two runs of lines that a mesh has in document 01's listing, put into lent bytes: a line for each vertex and
// a line for each triangle. Both are lines of three words.

#![tactic(auto)]

ghost use Rattle.std.specs.Prelude.{ℕ, List, ◌≡◌, ◌+◌, ◌*◌, ◌/◌, ◌≤◌, length};
ghost use Rattle.listing_words.specs.Put.{HasRoom, Puts};
ghost use Rattle.listing_words.specs.Digits.{number_word, float_word};
ghost use Rattle.listing_runs.specs.Runs.{line, lines_of, line_at};
ghost use Rattle.std.specs.Float.{nan};

use listing_words::Text;

// A word of a line: a float of a vertex's line, or a number of a triangle's.
pub trait Word: Copy {
    // How the line begins.
    const LETTER: u8;

    ghost LETTER: { ℕ };

    // What stands for it in the text, and how many bytes that has at most.
    ghost word: { Self → List ℕ };

    ghost most: { ℕ };

    // What a line has in the place of a word that isn't there.
    ghost missing: { Self };

    fn put(self, text: &mut Text<'_>)
        requires { HasRoom text.old most }
        ensures puts { Puts text.old (word self) text.new }
        ensures upper_bound { text.new.end ≤ text.old.end + most };
}

impl Word for f32 {
    const LETTER: u8 = b'v';

    ghost LETTER = { 118 };

    ghost word = { float_word };

    ghost most = { 9 };

    ghost missing = { nan };

    fn put(self, text: &mut Text<'_>) {
        text.put_float(self);
    }
}

impl Word for u32 {
    const LETTER: u8 = b'f';

    ghost LETTER = { 102 };

    ghost word = { number_word };

    ghost most = { 21 };

    ghost missing = { 0 };

    fn put(self, text: &mut Text<'_>) {
        text.put_number(self as u64);
    }
}

// A line of three words.
fn put_line<W: Word>(text: &mut Text<'_>, a: W, b: W, c: W)
    requires { HasRoom text.old (2 + 3 * W.most) }
    ensures puts { Puts text.old (line W.LETTER W.word a b c) text.new }
    ensures upper_bound { text.new.end ≤ text.old.end + (2 + 3 * W.most) }
{
    text.put_bytes(&[W::LETTER]);
    a.put(text);
    b.put(text);
    c.put(text);
    text.put_bytes(b"\n");
}

// A line for each three words, of which the first stand in the first line.
pub fn put_lines<W: Word>(text: &mut Text<'_>, words: &[W])
    requires { HasRoom text.old ((2 + 3 * W.most) * (length words.now / 3)) }
    ensures puts { Puts text.old (lines_of (length words.now / 3) (line_at W.LETTER W.word W.missing words.now)) text.new }
    ensures upper_bound { text.new.end ≤ text.old.end + (2 + 3 * W.most) * (length words.now / 3) }
{
    for three in words.chunks_exact(3) {
        put_line(text, three[0], three[1], three[2]);
    }
}
