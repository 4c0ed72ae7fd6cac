// The sixteen control points of a patch and their marks, from the tables of values, links and weights by corner, and those of the corner points and
// of their flags by vertex: whether the point is exact.
ghost use Rattle.std.specs.Prelude.{◌≡◌, ◌+◌, ◌*◌, ◌≤◌, ◌<◌, false, pos, length, get_or};
ghost use Rattle.patch.specs.Written.{Narrow, point_with};
ghost use Rattle.patch.specs.Written.{ForNumbered, ForPatch, kind_of, marked_point, PointWritten, NumberedWritten, PatchWritten};
ghost use Rattle.patch.specs.Sources.{lists_in};
ghost use Rattle.mesh.specs.Tables.{vertex_of};

use crate::source::PatchSource;
use control::model::ControlPoint;
use corner::{turned, wide};

// The four points of its face that each corner owns.
#[derive(Clone, Copy, Debug, PartialEq, Eq)]
pub(crate) enum Kind {
    Corner,
    Along,
    Before,
    Inner,
}

// The corner of the face that owns each of the sixteen points.
const OWNERS: [u8; 16] = [0, 0, 1, 1, 0, 0, 1, 1, 3, 3, 2, 2, 3, 3, 2, 2];
// Which of the corner's points each is.
const KINDS: [Kind; 16] = [
    Kind::Corner,
    Kind::Along,
    Kind::Before,
    Kind::Corner,
    Kind::Before,
    Kind::Inner,
    Kind::Inner,
    Kind::Along,
    Kind::Along,
    Kind::Inner,
    Kind::Inner,
    Kind::Before,
    Kind::Corner,
    Kind::Before,
    Kind::Along,
    Kind::Corner,
];

// A control point within the range of the coordinates, in the numbers that are written.
fn narrowed(p: ControlPoint<i64>) -> ControlPoint<i32>
    requires { Narrow p }
    ensures { result ≡ p }
{
    ControlPoint {
        x: p.x as i32,
        y: p.y as i32,
        z: p.z as i32,
        exact: p.exact,
    }
}

// That c is a corner is asked where it is passed: it is no fact of the tables.
impl<'a, 'b> PatchSource<'a, 'b> {
    // Coordinate k of the corner point of the vertex of corner c.
    fn vertex_coordinate(self, k: usize, c: usize) -> i32
        requires { (c < length self.faces.now) × (k < 3) }
        ensures { result ≡ get_or self.entry.points.now (3 * vertex_of self.entry.faces.now c + k) (pos 0) }
    {
        self.points[3 * wide(self.faces[c]) + k]
    }

    // The corner point of the vertex of corner c.
    fn vertex_point(self, c: usize) -> ControlPoint<i32>
        requires { c < length self.faces.now }
        ensures { result ≡ point_with (λ k. get_or self.entry.points.now (3 * vertex_of self.entry.faces.now c + k) (pos 0))
            (get_or self.entry.flags.now (vertex_of self.entry.faces.now c) false) }
    {
        ControlPoint {
            x: self.vertex_coordinate(0, c),
            y: self.vertex_coordinate(1, c),
            z: self.vertex_coordinate(2, c),
            exact: self.flags[wide(self.faces[c])],
        }
    }

    // A point of corner c.
    fn point(self, c: usize, kind: Kind) -> ControlPoint<i32>
        requires { c < length self.faces.now }
        ensures { result ≡ marked_point (lists_in self.entry) c (kind_of kind) }
    {
        match kind {
            Kind::Corner => self.vertex_point(c),
            Kind::Along => narrowed(self.tables.along_point(c)),
            Kind::Before => narrowed(self.tables.before_point(c)),
            Kind::Inner => narrowed(self.tables.inner_point(c)),
        }
    }

    // Writes a point of corner c over the first three numbers of the list, and returns its mark: 1 for an exact point, else 0.
    fn write_point(self, c: usize, kind: Kind, point: &mut [i32]) -> u8
        requires { (c < length self.faces.now) × (3 ≤ length point.old) }
        ensures { PointWritten (lists_in self.entry) c (kind_of kind) point.old result point.new }
    {
        let p = self.point(c, kind);
        point[..3].copy_from_slice(&[p.x, p.y, p.z]);
        u8::from(p.exact)
    }

    // Writes point m of the patch of face g over the first three numbers of the list, and returns its mark.
    fn write_numbered(self, g: usize, m: usize, point: &mut [i32]) -> u8
        requires { ForNumbered self.faces.now g m point.old }
        ensures { NumberedWritten (lists_in self.entry) g m point.old result point.new }
    {
        let kind = KINDS[m];
        let c = turned(usize::from(OWNERS[m]), 4 * g);
        self.write_point(c, kind, point)
    }

    // Writes the patch of face g over the first 48 numbers of its list, and its marks over the first 16 bytes of theirs.
    pub(crate) fn write_patch(self, g: usize, patch: &mut [i32], marks: &mut [u8])
        requires { ForPatch self.faces.now g patch.old marks.old }
        ensures { PatchWritten (lists_in self.entry) g patch.old marks.old patch.new marks.new }
    {
        // By point: the number m is passed on, and the two tables of 16 are read by it.
        for m in 0..16 {
            let at = 3 * m;
            marks[m] = self.write_numbered(g, m, &mut patch[at..]);
        }
    }
}
