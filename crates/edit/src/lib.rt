//! Calls that make one mesh of another: its mirror image.
#![tactic(auto)]

mod image;

ghost use Rattle.mesh.specs.IndexedMesh.{mesh_in};
ghost use Rattle.edit.specs.Mirror.{outputs, MeshMirrored};

use crate::image::{copy_tags, outputs_off, reflect_faces, reflect_positions};
use answer::refusal::Refusal;
use answer::refuse;
use mesh::model::MeshLists;

// The mirror image of a mesh, which is checked first.
// Returns: nothing, or the refusal.
// Writes: the positions, x with its sign changed, y and z as they are; the tags; each face from its first corner the other way round.
// Leaves alone: all three lent lists after a refusal.
// Refuses: as `mesh::check_alone`, in the same order, 1 and 3 to 11; then 16 where a lent list has another length than the list that is
// written into it.
// Units: positions in micrometres.
pub fn mirror(
    mesh: MeshLists,
    out_positions: &mut [i32],
    out_tags: &mut [u8],
    out_faces: &mut [u16],
) -> Result<(), Refusal>
    ensures { MeshMirrored (mesh_in mesh.entry)
        (outputs out_positions.old out_tags.old out_faces.old) result
        (outputs out_positions.new out_tags.new out_faces.new) }
{
    // No `?`: the edit every-refusal-16 changes the refusal that is handed on, and with a `?` it would be refused for its form alone.
    if let Err(refusal) = mesh::check_alone(Ok(()), mesh) {
        return Err(refusal);
    }
    refuse(
        outputs_off(mesh, out_positions, out_tags, out_faces),
        Refusal::Lengths,
    )?;
    reflect_positions(mesh.positions, out_positions);
    copy_tags(mesh.tags, out_tags);
    reflect_faces(mesh.indices, out_faces);
    Ok(())
}
