// How many faces the vertices of the four corners of a face have, and their cosines.
ghost use Rattle.std.specs.Prelude.{◌≡◌, ◌+◌, ◌*◌, ◌<◌, ◌≤◌, length};
ghost use Rattle.corner.specs.Corner.{prev};
ghost use Rattle.mesh.specs.Walk.{corner_of};
ghost use Rattle.control.specs.Control.{link_at};
ghost use Rattle.tangent.specs.Lists.{Fanned, ring_in, valences_asked, cosines_from};

use crate::ring::CORNERS;
use corner::prev_corner;
use limits::model::Mesh;
use mesh::model::MeshLists;

// An accepted mesh with the twin of each of its half-edges: the corners at each vertex form a fan.
#[derive(Clone, Copy)]
pub(crate) struct Accepted<'a> {
    pub(crate) mesh: MeshLists<'a>,
    pub(crate) twins: &'a [u16; CORNERS],
    ghost fanned: { Fanned mesh.indices.now twins.now },
    ghost listed: { length mesh.indices.now ≡ 4 * mesh.faces },
}

// (a) mesh's `Twins`, which walks so too, is private to its crate: made public, its `walk_on` would have a `requires`, and no public call has one.
impl<'a> Accepted<'a> {
    // The corner after c about its vertex, if one is there. (a) The lent list of twins has 65535 for none (rule T9).
    fn next_about(self, c: usize) -> Option<usize>
        ensures { result ≡ corner_of (link_at self.entry.twins.now (prev c)) }
    {
        let d = self.twins[prev_corner(c) % CORNERS];
        if d == Mesh::NO_TWIN {
            return None;
        }
        Some(usize::from(d))
    }

    // How many faces the vertex of corner c has, found by circulating from there; none where that ends at the boundary.
    fn ring_size(self, c: usize) -> Option<usize>
        requires { c < length self.mesh.indices.now }
        ensures { result ≡ ring_in self.entry.mesh.indices.now c }
    {
        let mut met = 1;
        let mut on = self.next_about(c);
        while let Some(e) = on {
            if e == c {
                return Some(met);
            }
            met += 1;
            on = self.next_about(e);
        }
        None
    }

    // How many faces the vertices of the four corners of face g have; none where one of them is on the boundary.
    pub(crate) fn face_valences(self, g: usize) -> Option<[usize; 4]>
        requires { 4 * g + 4 ≤ length self.mesh.indices.now }
        ensures { result ≡ valences_asked self.entry.mesh.indices.now g }
    {
        let c = 4 * g;
        Some([
            self.ring_size(c)?,
            self.ring_size(c + 1)?,
            self.ring_size(c + 2)?,
            self.ring_size(c + 3)?,
        ])
    }
}

// The cosines at four vertices with so many faces.
pub(crate) fn cosines_of(valences: &[usize; 4]) -> [i32; 4]
    ensures { result ≡ cosines_from valences.now }
{
    std::array::from_fn(|s| cosine::cosine(valences[s]))
}
