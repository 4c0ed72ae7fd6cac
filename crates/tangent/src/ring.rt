// The tables by corner that the tangents are made from, and the corner vector of a half-edge: a weighted sum over the vertices about its start.
ghost use Rattle.std.specs.Prelude.{◌≡◌, ◌≤◌, ◌^◌, nat_abs, ◌+ℤ◌, ◌*ℤ◌};
ghost use Rattle.finite.specs.Fold.{sum_below_ℤ};
ghost use Rattle.corner.specs.Corner.{next, across, prev};
ghost use Rattle.cosine.specs.Weight.{edge_weight, face_weight};
ghost use Rattle.control.specs.Control.{value_at, link_at};
ghost use Rattle.tangent.specs.Told.{ValuesSmall, term_at, vector_at};

use control::value::Coordinate;
use corner::{across_corner, next_corner, prev_corner};
use cosine::ONE;
use limits::model::Mesh;

// How many corners the tables have room for.
pub(crate) const CORNERS: usize = 4 * Mesh::MAX_FACES;

// The tables by corner: of the coordinates, four places each and all of them within their range, and of the twins.
#[derive(Clone, Copy)]
pub(crate) struct Tables<'a> {
    pub(crate) values: &'a [i32; 16 * Mesh::MAX_FACES],
    pub(crate) twins: &'a [u16; CORNERS],
    ghost small: { ValuesSmall values.now },
}

// How many faces a vertex has is passed beside the corner, and asked to be at most 16 where it is: it is no fact of the tables.
impl<'a> Tables<'a> {
    // The corner after e about its vertex, which is inside.
    fn around(self, e: usize) -> usize
        ensures { result ≡ link_at self.entry.twins.now (prev e) }
    {
        usize::from(self.twins[prev_corner(e) % CORNERS])
    }

    // What edge i and face i of a vertex of n faces add, of coordinate k: corner e is that of the edge and of the face.
    fn term(self, n: usize, k: usize, e: usize, i: usize) -> i64
        ensures { (result ≡ edge_weight n i *ℤ value_at self.entry.values.now k (next e)
            +ℤ face_weight n i *ℤ value_at self.entry.values.now k (across e)) × (nat_abs result ≤ 2 ^ 43) }
    {
        let values = self.values;
        let at = Coordinate { values, k };
        let far = at.vertex(next_corner(e));
        let across = at.vertex(across_corner(e));
        i64::from(cosine::edge_weight(n, i)) * i64::from(far)
            + i64::from(cosine::face_weight(n, i)) * i64::from(across)
    }

    // The sum over the n edges and faces of the vertex of corner c, from half-edge c on, of coordinate k.
    fn ring_sum(self, n: usize, k: usize, c: usize) -> i64
        requires { n ≤ 16 }
        ensures { (result ≡ sum_below_ℤ (term_at self.entry.values.now self.entry.twins.now n k c) n) × (nat_abs result ≤ 2 ^ 47) }
    {
        let mut e = c;
        let mut sum = 0i64;
        for i in 0..n {
            sum += self.term(n, k, e, i);
            e = self.around(e);
        }
        sum
    }

    // The corner vector along half-edge c, of coordinate k, at a vertex of n faces.
    pub(crate) fn corner_vector(self, n: usize, k: usize, c: usize) -> i64
        requires { n ≤ 16 }
        ensures { result ≡ vector_at self.entry.values.now self.entry.twins.now n k c }
    {
        integer::round(256 * self.ring_sum(n, k, c), ONE).value
    }
}
