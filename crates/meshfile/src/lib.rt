//! The file: its mesh, checked, and its patches (rule F4).
#![tactic(auto)]

pub mod model;
mod tessellate;

ghost use Rattle.meshfile.specs.Answer.{FileOpened};

use crate::model::Tessellation;
use crate::tessellate::tessellate;
use answer::refusal::Refusal;
use decoding::decode;
use limits::model::Mesh;
use mesh::model::MeshLists;

// The patches of the mesh of a file, which is checked first.
// Returns: V, F, E, B and N of an accepted file, or the refusal.
// Writes: the patches, as `patch::patches` does.
// Leaves alone: the patches from 48F on; all of them after a refusal.
// Refuses, in this order: 15, 1 and 15 as `decode` does, 2 patches shorter than 48F, 3 to 11 as `mesh::check` does, 14 N off its range.
// Units: control values in 1/256 micrometre.
pub fn open(bytes: &[u8], patches: &mut [i32]) -> Result<Tessellation, Refusal>
    ensures { FileOpened bytes.now patches.old result patches.new }
{
    let mut positions = [0i32; 3 * Mesh::MAX_VERTICES];
    let mut tags = [0u8; Mesh::MAX_VERTICES];
    let mut faces = [0u16; 4 * Mesh::MAX_FACES];
    let header = decode(bytes, &mut positions, &mut tags, &mut faces)?;
    let v = header.vertices;
    let f = header.faces;
    let mesh = MeshLists {
        vertices: v,
        faces: f,
        positions: &positions[..3 * v],
        tags: &tags[..v],
        indices: &faces[..4 * f],
    };
    tessellate(mesh, header.steps, patches)
}
