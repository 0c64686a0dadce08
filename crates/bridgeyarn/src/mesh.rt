// The writer and the reader of mesh records.
ghost use Rattle.std.specs.Prelude.{◌≡◌};
ghost use Rattle.mesh_read.specs.Reading.{reading};
ghost use Rattle.mesh_read.specs.Reading.{left as reading_left};
ghost use Rattle.mesh_write.specs.Writing.{mesh_of, left, writing};

use mesh_read::ReadAnswer;
use mesh_write::{LentMesh, WriteAnswer};

// The record of the lent coordinates and indices into the lent bytes; see `write_mesh`.
#[unsafe(no_mangle)]
pub extern "C" fn bridgeyarn_mesh_write(
    version: u32,
    size: u32,
    numbering: u32,
    coordinates: &[f32],
    indices: &[u32],
    out: &mut [u8],
) -> WriteAnswer
    ensures { left result out.new
        ≡ writing version (mesh_of size numbering coordinates.now indices.now) out.old }
{
    let mesh = LentMesh {
        size,
        numbering,
        coordinates,
        indices,
    };
    mesh_write::write_mesh(version, &mesh, out)
}

// The mesh of a record into the lent coordinates and indices; see `read_mesh`.
#[unsafe(no_mangle)]
pub extern "C" fn bridgeyarn_mesh_read(
    bytes: &[u8],
    coordinates: &mut [f32],
    indices: &mut [u32],
) -> ReadAnswer
    ensures { reading_left result coordinates.new indices.new
        ≡ reading bytes.now coordinates.old indices.old }
{
    mesh_read::read_mesh(bytes, coordinates, indices)
}
