// The listing program of document 01: one sample record from standard input, sizes 2 to 7, and its
// mesh or its refusal as text on standard output. What the text is stands in the contract of `list`;
// `main` reads and writes.
#![tactic(auto)]

ghost use Rattle.std.specs.Prelude.{◌≡◌, ◌+◌, ◌*◌, ◌/◌, ◌≤◌, length, take, IfOk, OnOk, IfSome};
ghost use Rattle.std.specs.Io.KnownBytes.{Appends};
ghost use Rattle.numbering.specs.Word.{word_of};
ghost use Rattle.listing_words.specs.Put.{HasRoom, Puts};
ghost use Rattle.listing_text.specs.Lines.{mesh_text};
ghost use Rattle.listing.specs.Listing.{grid_text, listing_of};

use listing_runs::put_lines;
use listing_text::{put_first, put_refused};
use listing_words::Text;
use sample_record::Header;
use std::io;
use std::io::{Read, Write};

// The listing of a mesh.
fn put_mesh(text: &mut Text<'_>, header: Header, vertices: &[f32], indices: &[u32])
    requires { HasRoom text.old (102 + 29 * (length vertices.now / 3) + 65 * (length indices.now / 3)) }
    ensures puts { Puts text.old (mesh_text header.size (word_of header.numbering) vertices.now indices.now) text.new }
    ensures upper_bound { text.new.end
        ≤ text.old.end + (102 + 29 * (length vertices.now / 3) + 65 * (length indices.now / 3)) }
{
    let made = (vertices.len() / 3) as u64;
    let written = indices.len() as u64;
    put_first(text, header.size, header.numbering.word(), made, written);
    put_lines(text, vertices);
    put_lines(text, indices);
}

// The listing of a grid. A cell has at most 15 indices and there are 6 * 6 * 7 cells at most, so that
// 3,780 indices suffice, and as many vertices, since each was made for an index. Their lines take
// 29 bytes for each vertex and 65 for each three indices.
fn list_grid(text: &mut Text<'_>, header: Header, samples: &[f32])
    requires sizes { (2 ≤ header.size) × (header.size ≤ 7) }
    requires samples { length samples.now ≡ header.size * header.size * (header.size + 1) }
    requires room { HasRoom text.old 191622 }
    ensures puts { Puts text.old (grid_text header.size (word_of header.numbering) samples.now) text.new }
    ensures upper_bound { text.new.end ≤ text.old.end + 191622 }
{
    let mut work = [0u32; 434];
    let mut vertices = [0.0f32; 11340];
    let mut indices = [0u32; 3780];
    let answer = marching_cubes::extract(
        header.size,
        header.numbering.word(),
        samples,
        &mut work,
        &mut vertices,
        &mut indices,
    );
    // The answer has a cause of 0 for none: it is the one that C reads.
    if answer.cause != 0 {
        put_refused(text, answer.cause, answer.place);
        return;
    }
    let made = answer.vertices as usize;
    let written = answer.indices as usize;
    put_mesh(text, header, &vertices[..3 * made], &indices[..written]);
}

// The listing of a record's bytes.
fn put_listing(text: &mut Text<'_>, bytes: &[u8])
    requires { HasRoom text.old 191622 }
    ensures puts { Puts text.old (listing_of bytes.now) text.new }
    ensures upper_bound { text.new.end ≤ text.old.end + 191622 }
{
    match sample_record::record_in(bytes, 7) {
        Ok(header) => {
            let mut samples = [0.0f32; 392];
            record_samples::copy_samples(bytes, &mut samples);
            let n = header.size as usize;
            let count = n * n * (n + 1);
            list_grid(text, header, &samples[..count]);
        }
        Err(refusal) => put_refused(text, refusal.cause(), refusal.place()),
    }
}

// The listing of a record's bytes, in the memory lent for it.
fn list<'a>(bytes: &[u8], room: &'a mut [u8]) -> &'a [u8]
    requires { 191622 ≤ length room.old }
    ensures listing { result.now ≡ listing_of bytes.now }
    ensures upper_bound { length result.now ≤ 191622 }
{
    let mut text = Text {
        bytes: room,
        end: 0,
    };
    put_listing(&mut text, bytes);
    let Text { bytes, end } = text;
    &bytes[..end]
}

// Reads until the bytes are full or the input ends, and says how many were read. A loop by count: std's `read_exact`
// refuses a shorter input, and its `read_to_end` allocates.
fn read_full<R: Read>(reader: &mut R, bytes: &mut [u8]) -> io::Result<usize>
    ensures within { IfOk result (λ count. count ≤ length bytes.new) }
    ensures taken { IfOk result (λ count. IfSome (R.remaining reader.old)
        (λ there. take count bytes.new ≡ take (length bytes.old) there)) }
{
    let mut count = 0;
    while count < bytes.len() {
        let more = reader.read(&mut bytes[count..])?;
        if more == 0 {
            return Ok(count);
        }
        count += more;
    }
    Ok(count)
}

// The program over any reader and writer: where the bytes to come are known and the writer tells what
// it holds, it then holds their listing too. A record of size 7 has 1,588 bytes; one more shows that a
// record is longer.
fn write_listing<R: Read, W: Write>(reader: &mut R, writer: &mut W) -> io::Result<()>
    ensures { OnOk result (IfSome (R.remaining reader.old) (λ there.
        Appends (W.contents writer.old) (W.contents writer.new) (listing_of (take 1589 there)))) }
{
    let mut bytes = [0u8; 1589];
    let length = read_full(reader, &mut bytes)?;
    let mut room = [0u8; 191622];
    let text = list(&bytes[..length], &mut room);
    writer.write_all(text)
}

fn main(rt: HostRuntime) -> io::Result<()> {
    write_listing(&mut rt.reader(), &mut io::writer(&rt))
}
