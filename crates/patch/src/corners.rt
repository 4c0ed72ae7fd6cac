// What the corner points are written from.
ghost use Rattle.patch.specs.PatchTables.{corner_lists, CornerSource};

use crate::counts::Ends;
use limits::model::Mesh;

// The number of vertices, the positions and the faces of a mesh, the tables of values and of ends by corner, and that of the rules by vertex. They serve
// every vertex.
#[derive(Clone, Copy)]
pub(crate) struct VertexSource<'a> {
    pub(crate) vertices: usize,
    pub(crate) positions: &'a [i32],
    pub(crate) faces: &'a [u16],
    pub(crate) values: &'a [i32; 16 * Mesh::MAX_FACES],
    pub(crate) ends: &'a [Ends],
    pub(crate) rules: &'a [u8],
    ghost serves: { CornerSource (corner_lists positions.now faces.now values.now ends.now rules.now) vertices },
}
