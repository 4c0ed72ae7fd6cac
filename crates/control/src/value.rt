// One coordinate of the points that a corner owns, by the masks, in units.
ghost use Rattle.std.specs.Prelude.{◌≡◌, ◌≤◌, ◌^◌, nat_abs};
ghost use Rattle.mask.specs.Mask.{boundary_edge_mask, corner_mask};
ghost use Rattle.mask.specs.FractionOf.{fraction_of};
ghost use Rattle.control.specs.Control.{value_at, face_at, inner_at, edge_at, linked_along, linked_before, value_of};

use crate::model::Value;
use corner::{across_corner, next_corner, prev_corner, wide};
use limits::model::Mesh;
use mask::model::{FaceValues, Fraction};

// A fraction in units, rounded once.
fn in_units(q: Fraction) -> Value
    requires { nat_abs q.num ≤ 2 ^ 54 }
    ensures { result ≡ value_of (fraction_of q) }
{
    let rounded = integer::round(256 * q.num, q.den);
    Value {
        units: rounded.value,
        exact: rounded.exact,
    }
}

// The corner point of a vertex of coordinate p by its rule, from its two sums. Writes: nothing. Refuses: nothing.
pub fn corner_value(rule: u8, p: i32, ring: i32, sharp: i32) -> Value
    ensures { result ≡ value_of (corner_mask rule p ring sharp) }
{
    in_units(mask::corner_mask(rule, p, ring, sharp))
}

// The edge point near p on the sharp edge between p and q.
fn sharp_value(p: i32, q: i32) -> Value
    ensures { result ≡ value_of (boundary_edge_mask p q) }
{
    in_units(mask::boundary_edge_mask(p, q))
}

// One coordinate of the vertices by corner: number k of the table of values.
#[derive(Clone, Copy)]
pub struct Coordinate<'a> {
    // Four places a corner, as `CornerTables` has them.
    pub values: &'a [i32; 16 * Mesh::MAX_FACES],
    pub k: usize,
}

impl<'a> Coordinate<'a> {
    // That of the vertex of corner c. Writes: nothing. Refuses: nothing.
    pub fn vertex(self, c: usize) -> i32
        ensures { result ≡ value_at self.entry.values.now self.entry.k c }
    {
        self.values[4 * (c % 1024) + self.k % 4]
    }

    // Those of the four vertices of the face of corner c, seen from there. Writes: nothing. Refuses: nothing.
    pub fn face(self, c: usize) -> FaceValues
        ensures { result ≡ face_at self.entry.values.now self.entry.k c }
    {
        FaceValues {
            here: self.vertex(c),
            next: self.vertex(next_corner(c)),
            across: self.vertex(across_corner(c)),
            prev: self.vertex(prev_corner(c)),
        }
    }

    // That of the inner point at corner c of weight w. Writes: nothing. Refuses: nothing.
    pub fn inner(self, w: u16, c: usize) -> Value
        ensures { result ≡ value_of (inner_at self.entry.values.now w self.entry.k c) }
    {
        in_units(mask::inner_mask(w, self.face(c)))
    }

    // That of the edge point on half-edge c, with twin d, near its start of weight w. Writes: nothing. Refuses: nothing.
    pub fn edge(self, w: u16, c: usize, d: usize) -> Value
        ensures { result ≡ value_of (edge_at self.entry.values.now w self.entry.k c d) }
    {
        in_units(mask::edge_mask(w, self.face(c), self.face(d)))
    }

    // That of the edge point on half-edge c, with the twin d or none, near its start of weight w.
    pub(crate) fn along(self, d: u16, w: u16, c: usize) -> Value
        ensures { result ≡ value_of (linked_along self.entry.values.now d w self.entry.k c) }
    {
        if d == Mesh::NO_TWIN {
            return sharp_value(self.vertex(c), self.vertex(next_corner(c)));
        }
        self.edge(w, c, wide(d))
    }

    // That of the edge point on the half-edge before c, with the twin d or none, near its end of weight w.
    pub(crate) fn before(self, d: u16, w: u16, c: usize) -> Value
        ensures { result ≡ value_of (linked_before self.entry.values.now d w self.entry.k c) }
    {
        let h = prev_corner(c);
        if d == Mesh::NO_TWIN {
            return sharp_value(self.vertex(c), self.vertex(h));
        }
        self.edge(w, wide(d), h)
    }
}
