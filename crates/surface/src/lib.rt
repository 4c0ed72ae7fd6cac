//! The claim about the numbers that the calls give: distance from the exact surface, marks, seams, and independence from the numbering.
#![tactic(auto)]

pub mod model;

ghost use Rattle.mesh.specs.IndexedMesh.{mesh_in};
ghost use Rattle.patch.specs.Answer.{lent};
ghost use Rattle.surface.specs.Witness.{asked, Evaluated, Witnessed};

use crate::model::{Evaluation, Witness};
use mesh::model::MeshLists;
use sample::model::Place;

// The patches of a mesh with their marks, and one sample of them, also marked.
// Returns: the answer of the patch call, and those of the sample call and of the marked one on the lists that it left.
// Writes, leaves alone, refuses: as `patch::patches`, `sample::sample` and `sample::marked_sample`.
pub fn evaluate(
    mesh: MeshLists,
    twins: &mut [u16],
    patches: &mut [i32],
    marks: &mut [u8],
    n: usize,
    place: Place,
) -> Evaluation
    ensures { Evaluated n
        (asked (mesh_in mesh.entry) (lent twins.old patches.old marks.old) place) result
        (lent twins.new patches.new marks.new) }
{
    let mesh = patch::patches(mesh, twins, patches, marks);
    let sample = sample::sample(patches, n, place);
    let marked = sample::marked_sample(patches, marks, n, place);
    Evaluation {
        mesh,
        sample,
        marked,
    }
}

// The calls for two meshes, each with its lent lists, and what they show of each other: the claim is about the numbers handed back.
// Returns: for each mesh the answer of the patch call, and those of the sample call on the patch list that it left: for the first mesh at
// `place` and at `other`, for the second at `place2`; at `place` and `place2` also those of the marked sample call.
// Writes, leaves alone, refuses: as `patch::patches`, `sample::sample` and `sample::marked_sample`.
// The lent lists stay parameters of their own: what stands in a list behind a field of a struct has no name of its own in a clause after the call.
pub fn witness(
    mesh: MeshLists,
    twins: &mut [u16],
    patches: &mut [i32],
    marks: &mut [u8],
    mesh2: MeshLists,
    twins2: &mut [u16],
    patches2: &mut [i32],
    marks2: &mut [u8],
    n: usize,
    place: Place,
    other: Place,
    place2: Place,
) -> Witness
    ensures { Witnessed n
        (asked (mesh_in mesh.entry) (lent twins.old patches.old marks.old) place) other
        (asked (mesh_in mesh2.entry) (lent twins2.old patches2.old marks2.old) place2) result
        (lent twins.new patches.new marks.new)
        (lent twins2.new patches2.new marks2.new) }
{
    let first = evaluate(mesh, twins, patches, marks, n, place);
    let other = sample::sample(patches, n, other);
    let second = evaluate(mesh2, twins2, patches2, marks2, n, place2);
    Witness {
        first,
        other,
        second,
    }
}
