// The mesh of a file, in three lists.
ghost use Rattle.std.specs.Prelude.{◌≡◌, length};
ghost use Rattle.decoding.specs.Decoding.{header_of, Readable, MeshRead};

use crate::bytes::{fill, i32_at, u16_at};
use crate::model::Header;

// Writes the mesh of a file to the front of three lists.
pub(crate) fn read_mesh(
    bytes: &[u8],
    header: Header,
    positions: &mut [i32],
    tags: &mut [u8],
    faces: &mut [u16],
)
    requires { (header ≡ header_of bytes.now)
        × Readable bytes.now (length positions.old) (length tags.old) (length faces.old) }
    ensures { MeshRead bytes.now
        positions.old tags.old faces.old
        positions.new tags.new faces.new }
{
    let v = header.vertices;
    let tags_at = Header::BYTES + 12 * v;
    let faces_at = Header::BYTES + 13 * v;
    fill(
        &mut positions[..3 * v],
        |i| i32_at(bytes, Header::BYTES + 4 * i),
    );
    tags[..v].copy_from_slice(&bytes[tags_at..tags_at + v]);
    fill(
        &mut faces[..4 * header.faces],
        |i| u16_at(bytes, faces_at + 2 * i),
    );
}
