// The lines of document 01's listing that stand alone, put into lent bytes one word after another: a
// refusal's only line, and the line before a mesh's two runs of lines.

#![tactic(auto)]

ghost use Rattle.std.specs.Prelude.{◌+◌, ◌++◌, ◌≤◌, length};
ghost use Rattle.listing_words.specs.Put.{HasRoom, Puts};
ghost use Rattle.listing_words.specs.Digits.{number_word};
ghost use Rattle.listing_runs.specs.Runs.{newline};
ghost use Rattle.listing_text.specs.Lines.{numbering_words, size_words, count_words, first_line, refused_line};

use listing_words::Text;

// Two numbers, each after its name, and the end of the line.
fn put_pair(text: &mut Text<'_>, first: &[u8], m: u64, second: &[u8], n: u64)
    requires { HasRoom text.old (length first.now + length second.now + 43) }
    ensures puts { Puts text.old (first.now ++ number_word m ++ second.now ++ number_word n ++ newline) text.new }
    ensures upper_bound { text.new.end ≤ text.old.end + (length first.now + length second.now + 43) }
{
    text.put_bytes(first);
    text.put_number(m);
    text.put_bytes(second);
    text.put_number(n);
    text.put_bytes(b"\n");
}

// A refusal's only line. Two numbers and no `Refusal`: what it takes may not narrow, and `extract` answers numbers.
pub fn put_refused(text: &mut Text<'_>, cause: u32, place: u64)
    requires { HasRoom text.old 53 }
    ensures puts { Puts text.old (refused_line cause place) text.new }
    ensures upper_bound { text.new.end ≤ text.old.end + 53 }
{
    put_pair(text, b"refused", cause as u64, b" at", place);
}

// A word and no `Numbering`: what `put_first` takes may not narrow, and each word but 0 is listed as joined.
fn put_numbering(text: &mut Text<'_>, numbering: u32)
    requires { HasRoom text.old 17 }
    ensures puts { Puts text.old (numbering_words numbering) text.new }
    ensures upper_bound { text.new.end ≤ text.old.end + 17 }
{
    if numbering == 0 {
        text.put_bytes(b" numbering crate");
    } else {
        text.put_bytes(b" numbering joined");
    }
}

fn put_size(text: &mut Text<'_>, size: u32, numbering: u32)
    requires { HasRoom text.old 42 }
    ensures puts { Puts text.old (size_words size numbering) text.new }
    ensures upper_bound { text.new.end ≤ text.old.end + 42 }
{
    text.put_bytes(b"size");
    text.put_number(size as u64);
    put_numbering(text, numbering);
}

fn put_counts(text: &mut Text<'_>, vertices: u64, indices: u64)
    requires { HasRoom text.old 60 }
    ensures puts { Puts text.old (count_words vertices indices) text.new }
    ensures upper_bound { text.new.end ≤ text.old.end + 60 }
{
    put_pair(text, b" vertices", vertices, b" indices", indices);
}

// The line before a mesh's lines.
pub fn put_first(text: &mut Text<'_>, size: u32, numbering: u32, vertices: u64, indices: u64)
    requires { HasRoom text.old 102 }
    ensures puts { Puts text.old (first_line size numbering vertices indices) text.new }
    ensures upper_bound { text.new.end ≤ text.old.end + 102 }
{
    put_size(text, size, numbering);
    put_counts(text, vertices, indices);
}
