// The patches of an accepted mesh: the tables, then each patch and its marks into their own stretches of the lists.
ghost use Rattle.std.specs.Prelude.{◌≡◌};
ghost use Rattle.mesh.specs.IndexedMesh.{mesh_in};
ghost use Rattle.patch.specs.Patch.{patches_after, marks_after};
ghost use Rattle.patch.specs.Answer.{lent};
ghost use Rattle.patch.specs.PatchTables.{Ready};
ghost use Rattle.patch.specs.Written.{ForPatches, PatchesWritten};
ghost use Rattle.patch.specs.Sources.{lists_in};

use crate::corners::VertexSource;
use crate::counts::{Ends, fill_links, render};
use crate::source::PatchSource;
use control::CornerTables;
use control::values::fill_values;
use limits::model::Mesh;
use mesh::model::MeshLists;

impl<'a, 'b> PatchSource<'a, 'b> {
    // Writes the patches of f faces, and their marks.
    fn write_patches(self, f: usize, patches: &mut [i32], marks: &mut [u8])
        requires { ForPatches self.faces.now f patches.old marks.old }
        ensures { PatchesWritten (lists_in self.entry) f patches.old marks.old patches.new marks.new }
    {
        // By face: the number g is passed on, and both lists are cut at places that are made from it.
        for g in 0..f {
            let at = 48 * g;
            let marked = 16 * g;
            self.write_patch(g, &mut patches[at..], &mut marks[marked..]);
        }
    }
}

// Writes the patches of an accepted mesh with its twins, and their marks.
pub(crate) fn fill_patches(mesh: MeshLists, twins: &[u16], patches: &mut [i32], marks: &mut [u8])
    requires { Ready (mesh_in mesh) (lent twins.now patches.old marks.old) }
    ensures patches_after { patches.new
        ≡ patches_after (mesh_in mesh.entry) patches.old }
    ensures marks_after { marks.new
        ≡ marks_after (mesh_in mesh.entry) marks.old }
{
    // Tables by corner and by vertex, each a list of its own: `CornerTables` takes arrays of fixed length, since its look-ups are total.
    let faces = mesh.indices;
    let mut rules = [0u8; Mesh::MAX_VERTICES];
    let mut weights = [0u16; 4 * Mesh::MAX_FACES];
    let mut ends = [Ends::Neither; 4 * Mesh::MAX_FACES];
    render(mesh.tags, faces, twins, &mut rules, &mut weights, &mut ends);
    let mut values = [0i32; 16 * Mesh::MAX_FACES];
    fill_values(mesh.positions, faces, &mut values);
    let mut links = [0u16; 4 * Mesh::MAX_FACES];
    fill_links(twins, faces.len(), &mut links);
    let mut points = [0i32; 3 * Mesh::MAX_VERTICES];
    let mut flags = [true; Mesh::MAX_VERTICES];
    let corners = VertexSource {
        vertices: mesh.vertices,
        positions: mesh.positions,
        faces,
        values: &values,
        ends: &ends,
        rules: &rules,
    };
    corners.fill_corners(&mut points, &mut flags);
    let tables = CornerTables {
        values: &values,
        links: &links,
        weights: &weights,
    };
    let source = PatchSource {
        faces,
        tables,
        points: &points,
        flags: &flags,
    };
    source.write_patches(mesh.faces, patches, marks);
}
