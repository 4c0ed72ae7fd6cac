//! The record of a mesh with its limits, and what they say of two sizes, of one entry of a list, of one vertex and of the room that a list has.
#![tactic(auto)]

pub mod model;

ghost use Rattle.std.specs.Prelude.{◌≡◌, not, ◌&&◌, ◌*◌, eqb, ltb, nat_abs};
ghost use Rattle.limits.specs.Limits.{max_coordinate, corner_tag};
ghost use Rattle.limits.specs.Range.{off, sizes_off, valence_bad};

use crate::model::Mesh;

// Whether x is off the range from low to high. Writes: nothing. Refuses: nothing.
pub fn off_range(low: usize, high: usize, x: usize) -> bool
    ensures { result ≡ off low high x }
{
    x < low || high < x
}

// Whether the two sizes and the lengths of the three lists are no mesh's: cause 1. Writes: nothing. Refuses: nothing.
#[tactic(auto, unfolding(crate::specs::Range::sizes_off))]
pub fn sizes_off(v: usize, f: usize, positions: usize, tags: usize, faces: usize) -> bool
    ensures { result ≡ sizes_off v f positions tags faces }
{
    off_range(Mesh::MIN_VERTICES, Mesh::MAX_VERTICES, v)
        || off_range(Mesh::MIN_FACES, Mesh::MAX_FACES, f)
        || positions != 3 * v
        || tags != v
        || faces != 4 * f
}

// Whether a coordinate is beyond the limit: cause 3, of one position. Writes: nothing. Refuses: nothing.
pub fn coordinate_off(x: i32) -> bool
    ensures { result ≡ ltb max_coordinate (nat_abs x) }
{
    integer::beyond(x, Mesh::MAX_COORDINATE)
}

// Whether a vertex with `valence` corners has too few or too many: cause 10, of one vertex. Writes: nothing. Refuses: nothing.
pub fn valence_bad(boundary: bool, valence: usize) -> bool
    ensures { result ≡ valence_bad boundary valence }
{
    if boundary {
        off_range(Mesh::MIN_BOUNDARY_FACES, Mesh::MAX_BOUNDARY_FACES, valence)
    } else {
        off_range(Mesh::MIN_VALENCE, Mesh::MAX_VALENCE, valence)
    }
}

// Whether a vertex is tagged a corner and is not on the boundary: cause 11, of one vertex. Writes: nothing. Refuses: nothing.
// A tag is a byte as C lends it (rule M3).
pub fn inner_tagged(tag: u8, boundary: bool) -> bool
    ensures { result ≡ (eqb tag corner_tag && not boundary) }
{
    tag == Mesh::CORNER_TAG && !boundary
}

// Whether a list has too few places for f faces that take up so many each.
fn places_short<const PER_FACE: usize>(f: usize, places: usize) -> bool
    ensures { result ≡ ltb places (PER_FACE * f) }
{
    match PER_FACE.checked_mul(f) {
        Some(wanted) => places < wanted,
        None => true,
    }
}

// The three instances for the lists that are lent: docs/SPECIFICATION.md and edits name each.
// Whether a list has too few places for the twins of f faces: cause 2. Writes: nothing. Refuses: nothing.
pub fn twins_short(f: usize, places: usize) -> bool
    ensures { result ≡ ltb places (4 * f) }
{
    places_short::<4>(f, places)
}

// Whether a list has too few places for the patches of f faces: cause 2. Writes: nothing. Refuses: nothing.
pub fn patches_short(f: usize, places: usize) -> bool
    ensures { result ≡ ltb places (48 * f) }
{
    places_short::<48>(f, places)
}

// Whether a list has too few places for the marks of the patches of f faces: cause 2. Writes: nothing. Refuses: nothing.
pub fn marks_short(f: usize, places: usize) -> bool
    ensures { result ≡ ltb places (16 * f) }
{
    places_short::<16>(f, places)
}
