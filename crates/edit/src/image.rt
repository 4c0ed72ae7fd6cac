// The lists of a mirror image.
ghost use Rattle.std.specs.Prelude.{◌≡◌, ℕ, ◌%◌, ◌≤◌, ◌<◌, pos, nat_abs, length, get_or};
ghost use Rattle.finite.specs.Filled.{filled};
ghost use Rattle.limits.specs.Limits.{max_coordinate};
ghost use Rattle.mesh.specs.IndexedMesh.{mesh_in};
ghost use Rattle.edit.specs.Mirror.{reflected_corner, reflected, outputs, outputs_off};

use mesh::model::MeshLists;

// Whether one of three lists has another length than the list of the mesh that is written into it: cause 16.
pub(crate) fn outputs_off(
    mesh: MeshLists,
    out_positions: &[i32],
    out_tags: &[u8],
    out_faces: &[u16],
) -> bool
    ensures { result ≡ outputs_off (mesh_in mesh.entry) (outputs out_positions.now out_tags.now out_faces.now) }
{
    out_positions.len() != mesh.positions.len()
        || out_tags.len() != mesh.tags.len()
        || out_faces.len() != mesh.indices.len()
}

// Coordinate k of the image of a vertex that has z there.
fn reflected_coordinate(k: usize, z: i32) -> i32
    requires { nat_abs z ≤ max_coordinate }
    ensures { result ≡ reflected k z }
{
    if k == 0 {
        return -z;
    }
    z
}

// Writes the positions of the image, into a list of their length.
pub(crate) fn reflect_positions(positions: &[i32], out: &mut [i32])
    requires same_length { length out.old ≡ length positions.now }
    requires by_index { (i : ℕ) → i < length positions.now → nat_abs (get_or positions.now i (pos 0)) ≤ max_coordinate }
    ensures { out.new
        ≡ filled (λ i. reflected (i % 3) (get_or positions.now i (pos 0))) (length positions.now) out.old }
{
    for (i, place) in out.iter_mut().enumerate() {
        *place = reflected_coordinate(i % 3, positions[i]);
    }
}

// Writes the tags as they are, into a list of their length. Place by place: with `copy_from_slice` the archive for C would need memmove, and
// include/rusketja.h says that it needs memcpy and memset alone.
pub(crate) fn copy_tags(tags: &[u8], out: &mut [u8])
    requires { length out.old ≡ length tags.now }
    ensures { out.new ≡ tags.now }
{
    for (p, place) in out.iter_mut().enumerate() {
        *place = tags[p];
    }
}

// The corner of the same face whose vertex corner c of the image has.
fn reflected_corner(c: usize) -> usize
    ensures { result ≡ reflected_corner c }
{
    c / 4 * 4 + (4 - c % 4) % 4
}

// Writes the faces of the image, of a list of whole faces, into a list of its length.
pub(crate) fn reflect_faces(faces: &[u16], out: &mut [u16])
    requires { (length out.old ≡ length faces.now) × (length faces.now % 4 ≡ 0) }
    ensures { out.new ≡ filled (λ c. get_or faces.now (reflected_corner c) 0) (length faces.now) out.old }
{
    for (c, place) in out.iter_mut().enumerate() {
        *place = faces[reflected_corner(c)];
    }
}
