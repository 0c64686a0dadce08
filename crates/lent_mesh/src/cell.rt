// A cell of a lent grid, and the vertices on its edges: what every numbering knows of the cell that it stands in.
ghost use Rattle.std.specs.Prelude.{◌≡◌, ◌+◌, ◌*◌, ◌/◌, ◌%◌, ◌^◌, ◌≤◌, ◌<◌, length, set};
ghost use Rattle.positions.specs.Position.{sample_at};
ghost use Rattle.lent_mesh.specs.Grid.{position_at};
ghost use Rattle.lent_mesh.specs.Stored.{put_point, CellOf, Coordinates};

use grid_size::Size;
use marching_cubes_impl::vertex::Vertex;

// The cell whose corner 0 is the sample point (x, y, z) of a grid. The coordinates 0 to n are worked out once for the
// grid.
#[derive(Clone, Copy)]
pub struct Cell<'a> {
    pub samples: &'a [f32],
    pub coordinates: &'a [f32; 129],
    pub size: Size,
    pub x: usize,
    pub y: usize,
    pub z: usize,
    pub ghost of_grid: { CellOf samples.now size.n x y z },
    pub ghost coordinates_are: { Coordinates size.n coordinates.now },
}

// How far the end of an edge lies from its cell's corner 0 along one axis: `offsets` has a bit for
// each edge.
// `edge < 12` stays a clause, here and above: it indexes five tables and is mostly a literal, which a type would wrap.
fn offset(offsets: usize, edge: usize) -> usize
    requires { (edge < 12) × (offsets < 4096) }
    ensures { (result ≡ offsets / 2 ^ edge % 2) × (result ≤ 1) }
{
    (offsets >> edge) % 2
}

// Three floats of vertex number `number`.
fn store(vertices: &mut [f32], at: usize, p: Vertex)
    requires { at + 2 < length vertices.old }
    ensures { vertices.new ≡ set (set (set vertices.old at p.x) (at + 1) p.y) (at + 2) p.z }
{
    vertices[at] = p.x;
    vertices[at + 1] = p.y;
    vertices[at + 2] = p.z;
}

impl Cell<'_> {
    fn sample(self, x: usize, y: usize, z: usize) -> f32
        requires { (x < self.size.n) × (y < self.size.n) × (z ≤ self.size.n) × (self.size.n * self.size.n * (z + 1) ≤ length self.samples.now) }
        ensures { result ≡ sample_at self.entry.size.n self.entry.samples.now (record { x = x; y = y; z = z }) }
    {
        self.samples[(z * self.size.n + y) * self.size.n + x]
    }

    // The vertex on an edge. Bit e of the six constants is CORNERS at the first or second corner that
    // EDGE_CONNECTION has for edge e, along x, y or z.
    pub fn vertex_on(self, edge: usize) -> Vertex
        requires { edge < 12 }
        ensures { result ≡ position_at self.entry.size.n self.entry.samples.now (record { x = self.entry.x; y = self.entry.y; z = self.entry.z; edge = edge }) }
    {
        let x0 = self.x + offset(0x666, edge);
        let y0 = self.y + offset(0xCCC, edge);
        let z0 = self.z + offset(0x0F0, edge);
        let x1 = self.x + offset(0x633, edge);
        let y1 = self.y + offset(0xC66, edge);
        let z1 = self.z + offset(0xFF0, edge);
        let from = Vertex {
            x: self.coordinates[x0],
            y: self.coordinates[y0],
            z: self.coordinates[z0],
        };
        let to = Vertex {
            x: self.coordinates[x1],
            y: self.coordinates[y1],
            z: self.coordinates[z1],
        };
        let a = self.sample(x0, y0, z0);
        let b = self.sample(x1, y1, z1);
        positions::position(from, to, a, b)
    }

    // The vertex on an edge is put at its number, where there is room for it; where there is none it is not worked
    // out.
    pub fn put_vertex(self, edge: usize, vertices: &mut [f32], number: u32)
        requires { edge < 12 }
        ensures { vertices.new ≡ put_point vertices.old number (position_at self.entry.size.n self.entry.samples.now (record { x = self.entry.x; y = self.entry.y; z = self.entry.z; edge = edge })) }
    {
        let at = 3 * (number as usize);
        if at + 2 < vertices.len() {
            store(vertices, at, self.vertex_on(edge));
        }
    }
}
