//! The mesh: its half-edges, twins and fans, and the check of a whole mesh.
#![tactic(auto)]

mod chain;
mod count;
mod fan;
pub mod model;
mod phases;
mod vertex;
mod walk;

ghost use Rattle.std.specs.Prelude.{◌≡◌, [], ◌∷◌};
ghost use Rattle.answer.specs.Table.{answered};
ghost use Rattle.mesh.specs.IndexedMesh.{mesh_in};
ghost use Rattle.mesh.specs.Answer.{mesh_answer, lent_rows, given, MeshChecked};

use crate::chain::{Chains, Tables, clear_twins};
use crate::model::MeshLists;
use crate::phases::{accepted, early_refusal, late_refusal};
use answer::first_met;
use answer::refusal::Refusal;
use limits::model::Mesh;
use limits::twins_short;

// The check of a whole mesh, of V vertices and F faces.
// Returns: V, F, E and B of an accepted mesh, or the refusal.
// Writes: the twins into the first 4F places of twins, 65535 for a boundary half-edge (rule T9); 65535 into all of
// them after a refusal from 8 on (rule R4).
// Leaves alone: the twins from 4F on; all of them after a refusal from 1 to 7.
// Refuses, in this order: 1 sizes, 2 twins shorter than 4F, 3 coordinate, 4 tag, 5 vertex number, 6 vertex twice in a face,
// 7 half-edge twice, 8 vertex in no face, 9 corners at a vertex no single fan, 10 valence, 11 tag at an inner vertex.
// Units: 3V positions in micrometres, V tags, 4F vertex numbers.
pub fn check(mesh: MeshLists, twins: &mut [u16]) -> Result<Mesh, Refusal>
    ensures { let M = mesh_in mesh.entry in
        MeshChecked M (lent_rows M twins.old) twins.old result twins.new }
{
    check_after(Ok(()), mesh, twins)
}

// The check of a whole mesh with a list of twins of its own, for calls that lend none: `own` is the first of the call's own causes after 1 that is
// met, if one is.
// Returns: V, F, E and B of an accepted mesh, or the refusal. Writes: nothing.
// Refuses: as `check_after`, but for 2, which has no list to speak of.
pub fn check_alone(own: Result<(), Refusal>, mesh: MeshLists) -> Result<Mesh, Refusal>
    ensures { answered result ≡ mesh_answer (mesh_in mesh.entry) (given own ∷ []) [] }
{
    let mut twins = [0u16; 4 * Mesh::MAX_FACES];
    check_after(own, mesh, &mut twins)
}

// The check of a whole mesh for a call that has causes of its own after 1: `own` is the first of them that is met, if one is.
// Returns, writes, leaves alone, refuses: as `check`, with `own` before 2.
pub fn check_after(
    own: Result<(), Refusal>,
    mesh: MeshLists,
    twins: &mut [u16],
) -> Result<Mesh, Refusal>
    ensures { let M = mesh_in mesh.entry in
        MeshChecked M (given own ∷ lent_rows M twins.old) twins.old result twins.new }
{
    let mut tables = Tables {
        head: [0; Mesh::MAX_VERTICES],
        link: [0; 4 * Mesh::MAX_FACES],
    };
    let first = first_met(
        own,
        twins_short(mesh.faces, twins.len()),
        Refusal::ListShort,
    );
    early_refusal(first, mesh, &mut tables)?;
    let n = 4 * mesh.faces;
    let chains = Chains {
        faces: mesh.indices,
        tables: &tables,
        n,
    };
    chains.fill_twins(twins);
    match late_refusal(mesh, twins, &tables.head) {
        Ok(()) => Ok(accepted(mesh, twins)),
        Err(late) => {
            clear_twins(n, twins);
            Err(late)
        }
    }
}
