//! The tangent vectors of a face, for shading.
#![tactic(auto)]

mod corners;
mod fill;
mod parts;
mod refusal;
mod ring;
mod side;
mod writer;

ghost use Rattle.mesh.specs.IndexedMesh.{mesh_in};
ghost use Rattle.tangent.specs.Answer.{TangentsGiven};

use crate::corners::Accepted;
use crate::fill::face_tangents;
use crate::ring::CORNERS;
use answer::refusal::Refusal;
use limits::model::Mesh;
use mesh::model::MeshLists;

// How many numbers the call gives: three for each of 24 vectors.
pub(crate) const NUMBERS: usize = 72;

// The tangent vectors of face g of a mesh, which is checked first.
// Returns: that they are written, or the refusal.
// Writes: u(i, j) as vector i + 3j and v(i, j) as vector 12 + i + 4j, each as three numbers x, y, z: 72 numbers.
// Leaves alone: the list after a refusal.
// Refuses: as `mesh::check_alone`, in the same order, 1 and 3 to 11; then 12 where g is F or above; then 18 where a corner of the face is at
// a boundary vertex, or the list has not 72 places.
// Units: positions in micrometres, vectors in 1/256 micrometre.
pub fn tangents(mesh: MeshLists, g: usize, tangents: &mut [i64]) -> Result<(), Refusal>
    ensures { TangentsGiven (mesh_in mesh.entry) g tangents.old result tangents.new }
{
    let mut twins = [0u16; CORNERS];
    mesh::check(mesh, &mut twins)?;
    let accepted = Accepted {
        mesh,
        twins: &twins,
    };
    let valences = accepted.asked_face(g, tangents.len())?;
    tangents.copy_from_slice(&face_tangents(accepted, &valences, g));
    Ok(())
}
