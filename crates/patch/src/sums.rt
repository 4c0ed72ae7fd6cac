// The two sums over the corners at each vertex, of one coordinate: over its ring, and over its sharp edges.
ghost use Rattle.std.specs.Prelude.{◌≡◌, cond, pos, ◌+ℤ◌, ◌<◌};
ghost use Rattle.patch.specs.Lists.{next_counts, prev_counts};
ghost use Rattle.patch.specs.PatchTables.{Sums, Unsummed};
ghost use Rattle.patch.specs.Sources.{corners_in};

use crate::corners::VertexSource;
use crate::counts::Ends;
use control::value::Coordinate;
use limits::model::Mesh;
use mask::model::FaceValues;

// The two sums of each vertex: two lists of numbers, since `Sums` says of each alone what it adds up.
#[derive(Drop)]
pub(crate) struct VertexSums {
    // Over the corners at it.
    pub ring: [i64; Mesh::MAX_VERTICES],
    // Over the sharp edges at it.
    pub sharp: [i64; Mesh::MAX_VERTICES],
}

// A number where b holds, else 0.
fn value_if(b: bool, x: i32) -> i64
    ensures { result ≡ cond b x (pos 0) }
{
    if b { i64::from(x) } else { 0 }
}

// The term of a corner in the sharp sum, from the values of its face, seen from there.
fn sharp_term(a: FaceValues, ends: Ends) -> i64
    ensures { result ≡ cond (next_counts ends) a.next (pos 0) +ℤ cond (prev_counts ends) a.prev (pos 0) }
{
    value_if(ends.next(), a.next) + value_if(ends.prev(), a.prev)
}

impl<'a> VertexSource<'a> {
    // The two sums at each vertex, of coordinate k, over sums of 0: the two terms of each corner are added at its vertex. The sums are lent: handed back, the 8 KiB
    // of them would stand on the stack twice.
    pub(crate) fn sums(self, k: usize, sums: &mut VertexSums)
        requires { Unsummed sums.old.ring sums.old.sharp }
        ensures { let D = corners_in self.entry in Sums D.faces D.values D.ends k sums.new.ring sums.new.sharp }
    {
        let coordinate = Coordinate {
            values: self.values,
            k,
        };
        for (c, p) in self.faces.iter().enumerate() {
            let a = coordinate.face(c);
            let p = usize::from(*p);
            sums.ring[p] += mask::ring_of(a);
            sums.sharp[p] += sharp_term(a, self.ends[c]);
        }
    }
}
