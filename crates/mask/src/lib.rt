//! The masks, of one coordinate: exact fractions of the values that a mask names, for all values; and what the corner masks are chosen by.
#![tactic(auto)]

pub mod model;

ghost use Rattle.std.specs.Prelude.{◌≡◌, ◌≤◌, pos, ◌+ℤ◌, ◌*ℤ◌};
ghost use Rattle.mask.specs.Mask.{corner_weight, inner_mask, edge_mask, boundary_edge_mask, smooth_corner_mask, sharp_corner_mask};
ghost use Rattle.mask.specs.Mask.{max_sharpness, corner_rule, corner_mask};
ghost use Rattle.mask.specs.FractionOf.{fraction_of};

// Numbers are widened with `as`, which the edits of this crate name and which keeps a sum on one line; each of them goes to a type that holds it.

use crate::model::{FaceValues, Fraction};
use limits::model::Mesh;

// The sharpness at which the corner point of a boundary vertex is the vertex itself; a rule above it is that of an inner vertex. A rule is a number, and no
// enum: `corner_rule` takes every count of 16 bits, and `corner_mask` answers every rule that it is given, whose divisor fits 32 bits only for one of 8 bits.
const MAX_SHARPNESS: u8 = 16;

// The inner point at a corner of weight w. Writes: nothing. Refuses: nothing.
pub fn inner_mask(w: u16, a: FaceValues) -> Fraction
    ensures { fraction_of result ≡ inner_mask w a.here a.next a.prev a.across }
{
    Fraction {
        num: w as i64 * a.here as i64 + 2 * a.next as i64 + 2 * a.prev as i64 + a.across as i64,
        den: w as u32 + 5,
    }
}

// The edge point on an inner edge near its start, of weight w: a is seen from the start, b from the end in the other face.
// Writes: nothing. Refuses: nothing.
pub fn edge_mask(w: u16, a: FaceValues, b: FaceValues) -> Fraction
    ensures { fraction_of result ≡ edge_mask w a.here a.next a.prev b.across a.across b.prev }
{
    let w2 = 2 * w as u32;
    Fraction {
        num: w2 as i64 * a.here as i64
            + 4 * a.next as i64
            + 2 * a.prev as i64
            + 2 * b.across as i64
            + a.across as i64
            + b.prev as i64,
        den: w2 + 10,
    }
}

// The edge point near p on the boundary half-edge between p and q. Writes: nothing. Refuses: nothing.
pub fn boundary_edge_mask(p: i32, q: i32) -> Fraction
    ensures { fraction_of result ≡ boundary_edge_mask p q }
{
    Fraction {
        num: 2 * p as i64 + q as i64,
        den: 3,
    }
}

// The corner point of an inner vertex with n faces, from its ring sum s.
fn smooth_corner(n: u8, p: i32, s: i32) -> Fraction
    ensures { fraction_of result ≡ smooth_corner_mask n p s }
{
    let m = u32::from(n);
    Fraction {
        num: (m * m) as i64 * p as i64 + s as i64,
        den: m * (m + 5),
    }
}

// The corner point of a boundary vertex of sharpness g, from the sum s of its two boundary neighbours.
fn boundary_corner(g: u8, p: i32, s: i32) -> Fraction
    requires { g ≤ max_sharpness }
    ensures { fraction_of result ≡ sharp_corner_mask g p s }
{
    Fraction {
        num: (64 + 2 * g) as i64 * p as i64 + (MAX_SHARPNESS - g) as i64 * s as i64,
        den: 96,
    }
}

// The corner point of a vertex of coordinate p by its rule, from its ring sum and the sum of its boundary neighbours.
// Writes: nothing. Refuses: nothing.
pub fn corner_mask(rule: u8, p: i32, ring: i32, sharp: i32) -> Fraction
    ensures { fraction_of result ≡ corner_mask rule p ring sharp }
{
    if MAX_SHARPNESS < rule {
        return smooth_corner(rule - MAX_SHARPNESS, p, ring);
    }
    boundary_corner(rule, p, sharp)
}

// How the corner point of a vertex, inside or not, with so many faces is made. Writes: nothing. Refuses: nothing.
pub fn corner_rule(inside: bool, tag: u8, faces: u16) -> u32
    ensures { result ≡ corner_rule inside tag faces }
{
    if inside {
        return u32::from(MAX_SHARPNESS) + u32::from(faces);
    }
    if tag == Mesh::CORNER_TAG || faces == 1 {
        return u32::from(MAX_SHARPNESS);
    }
    0
}

// The weight of a corner of a vertex, inside or not, with so many faces. Writes: nothing. Refuses: nothing.
pub fn corner_weight(inside: bool, valence: u16) -> u32
    ensures { result ≡ corner_weight inside valence }
{
    let n = u32::from(valence);
    if inside {
        return n;
    }
    if n == 1 {
        return 4;
    }
    n + n
}

// Twice the two neighbours of a corner, and the vertex across. Writes: nothing. Refuses: nothing.
pub fn ring_of(a: FaceValues) -> i64
    ensures { result ≡ pos 2 *ℤ a.next +ℤ pos 2 *ℤ a.prev +ℤ a.across }
{
    2 * a.next as i64 + 2 * a.prev as i64 + a.across as i64
}
