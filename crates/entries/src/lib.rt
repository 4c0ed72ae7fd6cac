//! The causes that look at one list entry or one face at a time, each over its whole list: 3, 4, 5 and 6.
#![tactic(auto)]

ghost use Rattle.std.specs.Prelude.{◌≡◌, ◌*◌, ◌/◌, ◌<◌, length};
ghost use Rattle.finite.specs.Fold.{any_below};
ghost use Rattle.entries.specs.Entries.{any_coordinate_off, any_tag_off, any_vertex_off, vertex_again, any_vertex_twice};

use corner::{across_corner, next_corner, prev_corner, wide};
use limits::coordinate_off;
use limits::model::Mesh;

// Whether one of the positions is beyond the limit: cause 3. Writes: nothing. Refuses: nothing.
pub fn any_coordinate_off(positions: &[i32]) -> bool
    ensures { result ≡ any_coordinate_off positions.now }
{
    positions.iter().any(|x| coordinate_off(*x))
}

// Whether one of the tags is above the largest: cause 4. Writes: nothing. Refuses: nothing.
pub fn any_tag_off(tags: &[u8]) -> bool
    ensures { result ≡ any_tag_off tags.now }
{
    tags.iter().any(|tag| Mesh::CORNER_TAG < *tag)
}

// Whether one of the faces' numbers is v or above: cause 5. Writes: nothing. Refuses: nothing.
pub fn any_vertex_off(faces: &[u16], v: usize) -> bool
    ensures { result ≡ any_vertex_off v faces.now }
{
    faces.iter().any(|p| v <= wide(*p))
}

// Whether another corner of the face of c has the vertex of c.
#[tactic(auto, unfolding(finite::specs::Fold::fold_below))]
fn vertex_twice(faces: &[u16], c: usize) -> bool
    requires { c < 4 * (length faces.now / 4) }
    ensures { result ≡ any_below (vertex_again faces.now c) 3 }
{
    let p = faces[c];
    faces[next_corner(c)] == p || faces[across_corner(c)] == p || faces[prev_corner(c)] == p
}

// Whether a face has one vertex twice, of the whole faces of the list: cause 6. Writes: nothing. Refuses: nothing.
pub fn any_vertex_twice(faces: &[u16]) -> bool
    ensures { result ≡ any_vertex_twice faces.now }
{
    let n = 4 * (faces.len() / 4);
    (0..n).any(|c| vertex_twice(faces, c))
}
