// The words of document 01's listing, put into lent bytes: pieces of text, numbers and the bits of floats. Each
// piece follows the text so far; `Puts` says that nothing but the piece was written.

#![tactic(auto)]

ghost use Rattle.std.specs.Prelude.{◌≡◌, ◌+◌, ◌<◌, ◌≤◌, [], ◌∷◌, length};
ghost use Rattle.listing_words.specs.Put.{HasRoom, Puts};
ghost use Rattle.listing_words.specs.Digits.{digits, number_word, float_word};
ghost use Rattle.listing_words.specs.Digits.{glyph as digits_glyph};

use little_endian::bits_of;

// A text in lent bytes. It stands before `end`, where the next piece begins.
#[derive(Drop)]
pub struct Text<'a> {
    pub bytes: &'a mut [u8],
    pub end: usize,
}

fn glyph(digit: u64) -> u8
    requires { digit < 16 }
    ensures { result ≡ digits_glyph digit }
{
    if digit < 10 {
        b'0' + digit as u8
    } else {
        b'A' - 10 + digit as u8
    }
}

impl Text<'_> {
    // A piece as it is.
    pub fn put_bytes(&mut self, piece: &[u8])
        requires { HasRoom self.old (length piece.now) }
        ensures { Puts self.old piece.now self.new }
    {
        let next = self.end + piece.len();
        self.bytes[self.end..next].copy_from_slice(piece);
        self.end = next;
    }

    fn put_byte(&mut self, byte: u8)
        requires { HasRoom self.old 1 }
        ensures { Puts self.old (byte ∷ []) self.new }
    {
        self.bytes[self.end] = byte;
        self.end += 1;
    }

    // The last so many digits of a number, the highest first. By hand: std's `write!` answers a `Result` whose `Err` no
    // contract rules out, and these functions can't fail.
    fn put_digits(&mut self, base: u64, places: usize, n: u64)
        requires room { HasRoom self.old places }
        requires base_nonzero { (0 < base) × (base ≤ 16) }
        ensures puts { Puts self.old (digits base places n) self.new }
        ensures value { self.new.end ≡ self.old.end + places }
    {
        if places > 0 {
            self.put_digits(base, places - 1, n / base);
            self.put_byte(glyph(n % base));
        }
    }

    // A space and a number in decimal.
    pub fn put_number(&mut self, n: u64)
        requires { HasRoom self.old 21 }
        ensures puts { Puts self.old (number_word n) self.new }
        ensures upper_bound { self.new.end ≤ self.old.end + 21 }
    {
        let places = n.max(1).ilog10() as usize + 1;
        self.put_byte(b' ');
        self.put_digits(10, places, n);
    }

    // A space and the eight hex digits of a float's bits.
    pub fn put_float(&mut self, x: f32)
        requires { HasRoom self.old 9 }
        ensures puts { Puts self.old (float_word x) self.new }
        ensures value { self.new.end ≡ self.old.end + 9 }
    {
        self.put_byte(b' ');
        self.put_digits(16, 8, bits_of(x) as u64);
    }
}
