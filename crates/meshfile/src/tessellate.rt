// The mesh of a file, checked and turned into patches.
ghost use Rattle.mesh.specs.IndexedMesh.{mesh_in};
ghost use Rattle.mesh.specs.WellFormed.{MeshSized};
ghost use Rattle.meshfile.specs.Tessellated.{Tessellated};

use crate::model::Tessellation;
use answer::refusal::Refusal;
use answer::refuse;
use limits::model::Mesh;
use limits::off_range;
use mesh::model::MeshLists;
use sample::model::{MAX_STEPS, MIN_STEPS};

// Checks the mesh of a file, whose sizes are in order, and N = n, and writes the patches where both pass.
pub(crate) fn tessellate(
    mesh: MeshLists,
    n: usize,
    patches: &mut [i32],
) -> Result<Tessellation, Refusal>
    requires { MeshSized (mesh_in mesh) }
    ensures { Tessellated (mesh_in mesh.entry) n patches.old result patches.new }
{
    refuse(patches.len() < 48 * mesh.faces, Refusal::ListShort)?;
    if off_range(MIN_STEPS, MAX_STEPS, n) {
        mesh::check_alone(Ok(()), mesh)?;
        return Err(Refusal::Steps);
    }
    let mut twins = [0u16; 4 * Mesh::MAX_FACES];
    let mut marks = [0u8; 16 * Mesh::MAX_FACES];
    let counts = patch::patches(mesh, &mut twins, patches, &mut marks)?;
    Ok(Tessellation {
        mesh: counts,
        steps: n,
    })
}
