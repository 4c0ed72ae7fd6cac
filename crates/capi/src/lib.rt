//! The calls of the library for C: each returns a number, and the results go into numbers that the caller lends.
#![tactic(auto)]

pub mod samples;

ghost use Rattle.std.specs.Prelude.{◌≡◌, ◌∷◌, []};
ghost use Rattle.answer.specs.Table.{answered};
ghost use Rattle.mesh.specs.IndexedMesh.{indexed};
ghost use Rattle.cosine.specs.Cosine.{Entry};
ghost use Rattle.cosine.specs.Weight.{edge_weight, face_weight};
ghost use Rattle.capi.specs.Answer.{code, counted, CornersTold, CheckStored, PatchesStored, MirrorStored, TangentsStored};

use answer::refusal::Refusal;
use limits::model::Mesh;
use mesh::model::MeshLists;

// The corners of face f: `corner::face_corners`, whose part of the face list C is told by its first place and its length.
// Returns: the number of corners, 4, or 0 where 4f + 4 is above the length of indices.
// Writes: 4f, the place of the first corner in indices, into first. Leaves alone: first where it returns 0.
// Refuses: nothing.
#[unsafe(no_mangle)]
pub extern "C" fn rusketja_face_corners(indices: &[u16], f: usize, first: &mut usize) -> usize
    ensures { CornersTold indices.now f first.old result first.new }
{
    let corners = corner::face_corners(indices, f);
    let n = corners.len();
    if n != 0 {
        *first = 4 * f;
    }
    n
}

// The number that a call returns: 0, or that of the refusal.
pub(crate) fn code<T: Drop>(answer: Result<T, Refusal>) -> u8
    ensures { result ≡ code (answered answer) }
{
    match answer {
        Ok(_) => 0,
        Err(refusal) => u8::from(refusal),
    }
}

// Stores the counts of an accepted mesh into the four lent numbers.
fn store_counts(
    answer: Result<Mesh, Refusal>,
    vertices: &mut usize,
    faces: &mut usize,
    edges: &mut usize,
    boundary: &mut usize,
)
    ensures { vertices.new ∷ (faces.new ∷ (edges.new ∷ (boundary.new ∷ [])))
        ≡ counted (answered answer) (vertices.old ∷ (faces.old ∷ (edges.old ∷ (boundary.old ∷ [])))) }
{
    if let Ok(mesh) = answer {
        *vertices = mesh.vertices;
        *faces = mesh.faces;
        *edges = mesh.edges;
        *boundary = mesh.boundary;
    }
}

// The check of a whole mesh of v vertices and f faces: `mesh::check`.
// Returns: 0 for an accepted mesh, or the number of the refusal.
// Writes: V, F, E and B of an accepted mesh into vertices, faces, edges and boundary; the twins as `mesh::check` does.
// Leaves alone: the four lent numbers after a refusal; the twins as `mesh::check` does.
// Refuses, and units: as `mesh::check`.
#[unsafe(no_mangle)]
pub extern "C" fn rusketja_check(
    v: usize,
    f: usize,
    positions: &[i32],
    tags: &[u8],
    indices: &[u16],
    twins: &mut [u16],
    vertices: &mut usize,
    faces: &mut usize,
    edges: &mut usize,
    boundary: &mut usize,
) -> u8
    ensures { CheckStored (indexed v f positions.now tags.now indices.now) twins.old
        (vertices.old ∷ (faces.old ∷ (edges.old ∷ (boundary.old ∷ [])))) result twins.new
        (vertices.new ∷ (faces.new ∷ (edges.new ∷ (boundary.new ∷ [])))) }
{
    // Here and in the three calls below the five parameters become one: they are C's interface, and a function that only names them would be no plainer.
    let mesh = MeshLists {
        vertices: v,
        faces: f,
        positions,
        tags,
        indices,
    };
    let checked = mesh::check(mesh, twins);
    store_counts(checked, vertices, faces, edges, boundary);
    code(checked)
}

// The patches of a mesh of v vertices and f faces, which is checked first: `patch::patches`.
// Returns: 0 for an accepted mesh, or the number of the refusal.
// Writes: V, F, E and B of an accepted mesh into vertices, faces, edges and boundary; the twins, the patches and their marks as
// `patch::patches` does.
// Leaves alone: the four lent numbers after a refusal; the twins, the patches and their marks as `patch::patches` does.
// Refuses, and units: as `patch::patches`.
#[unsafe(no_mangle)]
pub extern "C" fn rusketja_patches(
    v: usize,
    f: usize,
    positions: &[i32],
    tags: &[u8],
    indices: &[u16],
    twins: &mut [u16],
    patches: &mut [i32],
    exact: &mut [u8],
    vertices: &mut usize,
    faces: &mut usize,
    edges: &mut usize,
    boundary: &mut usize,
) -> u8
    ensures { PatchesStored (indexed v f positions.now tags.now indices.now)
        twins.old patches.old exact.old
        (vertices.old ∷ (faces.old ∷ (edges.old ∷ (boundary.old ∷ [])))) result
        twins.new patches.new exact.new
        (vertices.new ∷ (faces.new ∷ (edges.new ∷ (boundary.new ∷ [])))) }
{
    let mesh = MeshLists {
        vertices: v,
        faces: f,
        positions,
        tags,
        indices,
    };
    let patched = patch::patches(mesh, twins, patches, exact);
    store_counts(patched, vertices, faces, edges, boundary);
    code(patched)
}

// The mirror image of a mesh of v vertices and f faces, which is checked first: `edit::mirror`.
// Returns: 0 where it is done, or the number of the refusal.
// Writes, leaves alone, refuses, and units: as `edit::mirror`.
#[unsafe(no_mangle)]
pub extern "C" fn rusketja_mirror(
    v: usize,
    f: usize,
    positions: &[i32],
    tags: &[u8],
    indices: &[u16],
    out_positions: &mut [i32],
    out_tags: &mut [u8],
    out_indices: &mut [u16],
) -> u8
    ensures { MirrorStored (indexed v f positions.now tags.now indices.now)
        out_positions.old out_tags.old out_indices.old result
        out_positions.new out_tags.new out_indices.new }
{
    let mesh = MeshLists {
        vertices: v,
        faces: f,
        positions,
        tags,
        indices,
    };
    let answer = edit::mirror(mesh, out_positions, out_tags, out_indices);
    code(answer)
}

// The tangent vectors of face g of a mesh of v vertices and f faces, which is checked first: `tangent::tangents`.
// Returns: 0 where it is done, or the number of the refusal.
// Writes, leaves alone, refuses, and units: as `tangent::tangents`.
#[unsafe(no_mangle)]
pub extern "C" fn rusketja_tangents(
    v: usize,
    f: usize,
    positions: &[i32],
    tags: &[u8],
    indices: &[u16],
    g: usize,
    tangents: &mut [i64],
) -> u8
    ensures { TangentsStored (indexed v f positions.now tags.now indices.now) g
        tangents.old result tangents.new }
{
    let mesh = MeshLists {
        vertices: v,
        faces: f,
        positions,
        tags,
        indices,
    };
    let answer = tangent::tangents(mesh, g, tangents);
    code(answer)
}

// The cosine of 2 pi / m (rules D1 and D5): `cosine::cosine`.
// Returns: as `cosine::cosine`, 0 for an m without a cosine there.
// Writes: nothing. Refuses: nothing. Units: 1/2^20.
#[unsafe(no_mangle)]
pub extern "C" fn rusketja_cosine(m: usize) -> i32
    ensures { Entry m result }
{
    cosine::cosine(m)
}

// The weight of the far end of edge i in the tangent along edge 0 of a vertex of n faces (rules D4 and D5): `cosine::edge_weight`.
// Returns: as `cosine::edge_weight`, 0 for n and i without a weight.
// Writes: nothing. Refuses: nothing. Units: 1/2^20.
#[unsafe(no_mangle)]
pub extern "C" fn rusketja_edge_weight(n: usize, i: usize) -> i32
    ensures { result ≡ edge_weight n i }
{
    cosine::edge_weight(n, i)
}

// The weight, in the same tangent, of the vertex across the face between edges i and i + 1 (rules D4 and D5): `cosine::face_weight`.
// Returns: as `cosine::face_weight`, 0 for n and i without a weight.
// Writes: nothing. Refuses: nothing. Units: 1/2^20.
#[unsafe(no_mangle)]
pub extern "C" fn rusketja_face_weight(n: usize, i: usize) -> i32
    ensures { result ≡ face_weight n i }
{
    cosine::face_weight(n, i)
}
