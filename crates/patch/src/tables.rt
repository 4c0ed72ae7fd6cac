// The corner point of each vertex, and whether it is exact, by the table of rules.
ghost use Rattle.std.specs.Prelude.{◌≡◌};
ghost use Rattle.mask.specs.Mask.{corner_mask};
ghost use Rattle.control.specs.Control.{value_of};
ghost use Rattle.patch.specs.PatchTables.{Allowed, ForCoordinate, ForCorners, Coordinate, CornerPoints, ruled_point};
ghost use Rattle.patch.specs.Sources.{corners_in};

use crate::corners::VertexSource;
use crate::sums::VertexSums;
use control::model::Value;
use control::value::corner_value;
use control::values::position;
use limits::model::Mesh;

// The corner point of a vertex of coordinate p by its rule, from its two sums.
fn corner_point(rule: u8, p: i32, ring: i64, sharp: i64) -> Value
    requires { Allowed rule p ring sharp }
    ensures { result ≡ value_of (corner_mask rule p ring sharp) }
{
    corner_value(rule, p, ring as i32, sharp as i32)
}

impl<'a> VertexSource<'a> {
    // Writes coordinate k of the corner points, and takes the flags of those away in which it leaves something.
    fn fill_coordinate(self, k: usize, points: &mut [i32], flags: &mut [bool])
        requires { ForCoordinate self.vertices k points.old flags.old }
        ensures { Coordinate (ruled_point (corners_in self.entry) k) self.entry.vertices k
            points.old points.new flags.old flags.new }
    {
        let mut sums = VertexSums {
            ring: [0; Mesh::MAX_VERTICES],
            sharp: [0; Mesh::MAX_VERTICES],
        };
        self.sums(k, &mut sums);
        // By place: four tables are read and two are written at vertex p, two of these six at 3p + k.
        for p in 0..self.vertices {
            let i = 3 * p + k;
            let x = position(self.positions, i);
            let value = corner_point(self.rules[p], x, sums.ring[p], sums.sharp[p]);
            points[i] = value.units as i32;
            flags[p] &= value.exact;
        }
    }

    // Writes the corner point of each vertex, and its flag over a true one.
    pub(crate) fn fill_corners(self, points: &mut [i32], flags: &mut [bool])
        requires { ForCorners self.vertices points.old flags.old }
        ensures { CornerPoints (ruled_point (corners_in self.entry)) self.entry.vertices 3
            points.new flags.new }
    {
        // By coordinate: the number k is passed on, and no list is gone through.
        for k in 0..3 {
            self.fill_coordinate(k, points, flags);
        }
    }
}
