// The groups of causes, in the order of the table, and the counts of a mesh that meets none.
ghost use Rattle.std.specs.Prelude.{◌≡◌, length};
ghost use Rattle.answer.specs.Table.{first_met, refused};
ghost use Rattle.mesh.specs.IndexedMesh.{mesh_in};
ghost use Rattle.mesh.specs.Answer.{counts_of};
ghost use Rattle.mesh.specs.WellFormed.{MeshSized};
ghost use Rattle.mesh.specs.Refusal.{list_rows, late_rows};
ghost use Rattle.mesh.specs.Tables.{Unchained, Connected, Counted};
ghost use Rattle.mesh.specs.Phases.{EntriesMet, EarlyMet};

use crate::chain::{Tables, link_corners};
use crate::count::count_edges;
use crate::fan::Fans;
use crate::model::MeshLists;
use crate::vertex::count_corners;
use crate::walk::Twins;
use answer::refusal::Refusal;
use answer::refuse;
use entries::{any_coordinate_off, any_tag_off, any_vertex_off, any_vertex_twice};
use limits::model::Mesh;
use limits::sizes_off;

// Causes 3 to 6, of lists that have the lengths of the sizes, a row each. Three phases ask for these lengths, and no ghost field says it: a caller's lists may
// have any.
fn list_refusal(mesh: MeshLists) -> Result<(), Refusal>
    requires { MeshSized (mesh_in mesh) }
    ensures { first_met (list_rows (mesh_in mesh.entry)) ≡ refused result }
{
    refuse(any_coordinate_off(mesh.positions), Refusal::Coordinate)?;
    refuse(any_tag_off(mesh.tags), Refusal::Tag)?;
    refuse(any_vertex_off(mesh.indices, mesh.vertices), Refusal::Vertex)?;
    refuse(any_vertex_twice(mesh.indices), Refusal::VertexTwice)
}

// Causes 3 to 7, of lists that have the lengths of the sizes. Where none is met, the tables have the chains of all corners afterwards; they come in
// empty.
fn entry_refusal(mesh: MeshLists, tables: &mut Tables) -> Result<(), Refusal>
    requires { MeshSized (mesh_in mesh) × Unchained tables.old.head }
    ensures { EntriesMet (mesh_in mesh.entry) tables.new.head tables.new.link result }
{
    list_refusal(mesh)?;
    refuse(link_corners(mesh.indices, tables), Refusal::HalfEdgeTwice)
}

// Causes 1 to 7, with the call's own after 1: `own` is the first of them that is met, if one is. The tables as above.
pub(crate) fn early_refusal(
    own: Result<(), Refusal>,
    mesh: MeshLists,
    tables: &mut Tables,
) -> Result<(), Refusal>
    requires { Unchained tables.old.head }
    ensures { EarlyMet (mesh_in mesh.entry) own tables.new.head tables.new.link result }
{
    let off = sizes_off(
        mesh.vertices,
        mesh.faces,
        mesh.positions.len(),
        mesh.tags.len(),
        mesh.indices.len(),
    );
    refuse(off, Refusal::Sizes)?;
    own?;
    entry_refusal(mesh, tables)
}

// Causes 8 to 11, of a mesh that meets none of the earlier ones and whose twins are written; head has the last corner at each vertex.
pub(crate) fn late_refusal<'a>(
    mesh: MeshLists<'a>,
    twins: &'a [u16],
    head: &'a [u16],
) -> Result<(), Refusal>
    requires { MeshSized (mesh_in mesh) × Connected mesh.indices.now twins.now head.now (length mesh.indices.now) }
    ensures { first_met (late_rows (mesh_in mesh.entry)) ≡ refused result }
{
    let v = mesh.vertices;
    let faces = mesh.indices;
    let mut valences = [0u16; Mesh::MAX_VERTICES];
    count_corners(faces, &mut valences);
    refuse(valences[..v].contains(&0), Refusal::Unused)?;
    let twins = Twins { faces, twins };
    let fans = Fans {
        twins,
        head,
        valences: &valences,
    };
    refuse(fans.any_broken(v), Refusal::Fan)?;
    refuse(fans.any_valence_off(v), Refusal::Valence)?;
    refuse(fans.any_inner_tagged(v, mesh.tags), Refusal::InnerTag)
}

// The record of an accepted mesh: its counts. Each edge has two half-edges, or one on the boundary: 4F + B = 2E.
pub(crate) fn accepted(mesh: MeshLists, twins: &[u16]) -> Mesh
    requires { Counted mesh.indices.now twins.now mesh.vertices mesh.faces }
    ensures { result ≡ counts_of (mesh_in mesh.entry) }
{
    let n = 4 * mesh.faces;
    let edges = count_edges(&twins[..n]);
    let boundary = 2 * edges - n;
    Mesh {
        vertices: mesh.vertices,
        faces: mesh.faces,
        edges,
        boundary,
    }
}
