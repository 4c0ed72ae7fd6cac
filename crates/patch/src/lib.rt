//! The bicubic patches of a checked mesh: sixteen control points a face, as whole numbers of 1/256 micrometre, each with a mark where it is exact.
#![tactic(auto)]

mod corners;
mod counts;
mod fill;
mod source;
mod sums;
mod tables;
mod writer;

ghost use Rattle.std.specs.Prelude.{◌≡◌, ◌||◌, ◌*◌, ltb};
ghost use Rattle.answer.specs.Table.{refuse_by};
ghost use Rattle.mesh.specs.IndexedMesh.{mesh_in};
ghost use Rattle.patch.specs.Answer.{lent, Patched};

use crate::fill::fill_patches;
use answer::refusal::Refusal;
use answer::refuse;
use limits::model::Mesh;
use limits::{marks_short, patches_short};
use mesh::model::MeshLists;

// The call's own row: 2 where there are too few places for the patches of f faces, or for their marks.
fn own_refusal(f: usize, places: usize, marks: usize) -> Result<(), Refusal>
    ensures { result ≡ refuse_by (ltb places (48 * f) || ltb marks (16 * f)) Refusal.ListShort }
{
    refuse(
        patches_short(f, places) || marks_short(f, marks),
        Refusal::ListShort,
    )
}

// The patches of a mesh, which is checked first. Below, f is the number of its faces, `mesh.faces`.
// Returns: V, F, E and B of an accepted mesh, or the refusal.
// Writes: patch g into places 48g to 48g + 47 of patches, point i + 4j as three numbers x, y, z; its marks into places 16g to 16g + 15 of marks,
// for point i + 4j the byte 1 where rounding left nothing in any coordinate, else 0; the twins as `mesh::check` does.
// Leaves alone: the patches from 48f on, and the marks from 16f on; all of both after a refusal; the twins as `mesh::check` does.
// Refuses: as `mesh::check`, in the same order; 2 also where patches is shorter than 48f, or marks shorter than 16f.
// Units: positions in micrometres, control values in 1/256 micrometre.
pub fn patches(
    mesh: MeshLists,
    twins: &mut [u16],
    patches: &mut [i32],
    marks: &mut [u8],
) -> Result<Mesh, Refusal>
    ensures { Patched (mesh_in mesh.entry)
        (lent twins.old patches.old marks.old) result (lent twins.new patches.new marks.new) }
{
    let own = own_refusal(mesh.faces, patches.len(), marks.len());
    // `let .. else`, and no `?`: the user names this form (rule A6).
    let answer = mesh::check_after(own, mesh, twins);
    let Ok(counts) = answer else {
        return answer;
    };
    fill_patches(mesh, twins, patches, marks);
    Ok(counts)
}
