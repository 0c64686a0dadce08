// The writer of the mesh record of document 02, CR 1: the refusals in its order, then the room, then
// the bytes. Nothing is written before all of these have passed.

#![tactic(auto)]

ghost use Rattle.std.specs.Prelude.{◌≡◌, ◌≤◌, length};
ghost use Rattle.mesh_record.specs.Refusals.{contents};
ghost use Rattle.mesh_write.specs.Writing.{mesh_of, mesh_lent, fields_of, Fits, refusal_of, refused, short, done, left, put, writing};

use little_endian::bits_of;
use mesh_record::{check_opening, is_finite};
use refusals::Refusal;
use words_write::put_words;

// What the writer answers. A field that the cause does not use is 0. No Result and no enum: the C
// interface takes these fields and numbers.
#[repr(C)]
#[derive(Clone, Copy)]
pub struct WriteAnswer {
    pub cause: u32,
    pub place: u64,
    pub bytes: u64,
}

// Two answers whose names say the cause: one function with its number as a parameter would be no plainer.
impl WriteAnswer {
    // Cause 0: so many bytes are written.
    fn done(bytes: usize) -> WriteAnswer
        ensures { result ≡ done bytes }
    {
        WriteAnswer {
            cause: 0,
            place: 0,
            bytes: bytes as u64,
        }
    }

    // Cause 10: there is no room for so many bytes.
    fn short(bytes: usize) -> WriteAnswer
        ensures { result ≡ short bytes }
    {
        WriteAnswer {
            cause: 10,
            place: 0,
            bytes: bytes as u64,
        }
    }
}

impl From<Refusal> for WriteAnswer {
    ghost from_gives = { λ refusal answer. answer ≡ refused refusal };

    fn from(refusal: Refusal) -> WriteAnswer {
        WriteAnswer {
            cause: refusal.cause(),
            place: refusal.place(),
            bytes: 0,
        }
    }
}

// The fields after the numbering, from how many coordinates and indices are lent. The offset of the
// indices is worked out once the vertices are known to fit a word.
#[tactic(auto, unfolding(crate::specs::Writing::fields_of))]
fn check_fields(coordinates: usize, indices: usize) -> Result<(), Refusal>
    ensures { result ≡ fields_of coordinates indices }
{
    let vertices = coordinates / 3;
    if coordinates % 3 != 0 || 0xFFFF_FFFF < vertices {
        return Err(Refusal::Malformed(12));
    }
    if indices % 3 != 0 || 0xFFFF_FFFF < indices {
        return Err(Refusal::Malformed(20));
    }
    if 0xFFFF_FFFF < 28 + 12 * vertices {
        return Err(Refusal::Malformed(24));
    }
    Ok(())
}

// The lowest bad vertex or index, where both counts fit their words. The reader finds its own in bytes: one function over
// either would take the places and both tests as parameters, and be no plainer.
fn check_contents(coordinates: &[f32], indices: &[u32]) -> Result<(), Refusal>
    requires { (length coordinates.now ≤ 12884901885) × (length indices.now ≤ 4294967295) }
    ensures { result ≡ contents 28 (mesh_of 0 0 coordinates.now indices.now) }
{
    let bad_coordinate = coordinates.iter().position(|x| !is_finite(bits_of(*x)));
    if let Some(i) = bad_coordinate {
        return Err(Refusal::Malformed(28 + 4 * (i as u64)));
    }
    let vertices = (coordinates.len() / 3) as u32;
    let bad_index = indices.iter().position(|index| vertices <= *index);
    if let Some(i) = bad_index {
        return Err(Refusal::Malformed(28 + 4 * (coordinates.len() as u64) + 4 * (i as u64)));
    }
    Ok(())
}

// A mesh as it is lent: three coordinates to a vertex, three indices to a triangle. The numbering is the word that the C
// interface hands over, good or bad.
#[derive(Clone, Copy)]
pub struct LentMesh<'a> {
    pub size: u32,
    pub numbering: u32,
    pub coordinates: &'a [f32],
    pub indices: &'a [u32],
}

impl<'a> LentMesh<'a> {
    // The first refusal of a mesh, or none.
    #[tactic(auto, using(crate::proofs::Meshes::refusal_of_parts))]
    fn check(&self, version: u32) -> Result<(), Refusal>
        ensures { result ≡ refusal_of version (mesh_lent self.now) }
    {
        check_opening(version, self.size, self.numbering)?;
        check_fields(self.coordinates.len(), self.indices.len())?;
        check_contents(self.coordinates, self.indices)
    }

    // The record of a mesh in which nothing is refused, where there is room for it.
    fn put(&self, out: &mut [u8]) -> WriteAnswer
        requires { Fits (length self.now.coordinates.now) (length self.now.indices.now) }
        ensures { left result out.new ≡ put (mesh_lent self.now) out.old }
    {
        let vertices = (self.coordinates.len() / 3) as u32;
        let count = self.indices.len() as u32;
        let indices_at = 28 + 4 * self.coordinates.len();
        let end = indices_at + 4 * self.indices.len();
        if out.len() < end {
            return WriteAnswer::short(end);
        }
        let offset = 28 + 12 * vertices;
        let header = [1, self.size, self.numbering, vertices, 28, count, offset];
        put_words(out, &header);
        put_words(&mut out[28..], self.coordinates);
        put_words(&mut out[indices_at..], self.indices);
        WriteAnswer::done(end)
    }
}

// The record of a mesh, or the first refusal in document 02's order. After 0 the record stands at the
// start of the output and the rest is unchanged; after anything else nothing lent has changed, and
// after 10 the answer has the bytes to make room for.
#[tactic(auto, unfolding(crate::specs::Writing::writing))]
pub fn write_mesh(version: u32, mesh: &LentMesh, out: &mut [u8]) -> WriteAnswer
    ensures whole { left result out.new ≡ writing version (mesh_lent mesh.now) out.old }
{
    match mesh.check(version) {
        Ok(()) => mesh.put(out),
        Err(refusal) => refusal.into(),
    }
}
