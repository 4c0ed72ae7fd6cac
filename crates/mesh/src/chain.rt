// The corners at each vertex, chained from the last to the first, and what the chains answer: half-edges that occur twice, and twins.
ghost use Rattle.std.specs.Prelude.{◌≡◌, false, ◌≤◌, ◌<◌, length};
ghost use Rattle.finite.specs.Filled.{filled};
ghost use Rattle.limits.specs.Limits.{max_vertices, no_twin};
ghost use Rattle.mesh.specs.HalfEdge.{runs, twin, doubled, Simple};
ghost use Rattle.mesh.specs.Tables.{vertex_of, corner_in, latest, Chained, Unchained, Indices, Findable};

use corner::next_corner;
use limits::model::Mesh;

// The tables of the chains of a mesh. That they are empty is asked where they are passed in, as they are filled there.
// An entry is a number: 0 for no corner, c + 1 for corner c. An Option<u16> is twice as wide: with it the check of a mesh missed its bar of speed, and took more
// of the stack than include/rusketja.h says.
#[derive(Drop)]
pub(crate) struct Tables {
    // The last corner at each vertex.
    pub(crate) head: [u16; Mesh::MAX_VERTICES],
    // The corner at the same vertex before each corner.
    pub(crate) link: [u16; 4 * Mesh::MAX_FACES],
}

// The corner that an entry of the tables stands for, if it stands for one.
pub(crate) fn corner_in(entry: u16) -> Option<u16>
    ensures { result ≡ corner_in entry }
{
    entry.checked_sub(1)
}

// The first n corners of a face list, chained by vertex: all of them, or those before the one that is linked next.
#[derive(Clone, Copy)]
pub(crate) struct Chains<'a> {
    pub(crate) faces: &'a [u16],
    pub(crate) tables: &'a Tables,
    pub(crate) n: usize,
    ghost linked: { Findable faces.now tables.now.head tables.now.link n },
}

impl<'a> Chains<'a> {
    // The last half-edge that runs from p to q, along the chain of p's corners.
    fn find(self, p: u16, q: u16) -> Option<u16>
        requires { p < max_vertices }
        ensures { result ≡ latest (runs (vertex_of self.entry.faces.now) p q) self.entry.n }
    {
        let mut at = corner_in(self.tables.head[usize::from(p)]);
        while let Some(c) = at {
            let c = usize::from(c);
            if self.faces[next_corner(c)] == q {
                return at;
            }
            at = corner_in(self.tables.link[c]);
        }
        None
    }

    // The twin of half-edge c. 65535 for none: the lent list of twins has it so (rule T9).
    fn twin(self, c: usize) -> u16
        requires { Indices self.faces.now self.n × Simple (vertex_of self.faces.now) self.n × (c < self.n) }
        ensures { result ≡ twin (vertex_of self.entry.faces.now) self.entry.n c }
    {
        let p = self.faces[next_corner(c)];
        let q = self.faces[c];
        self.find(p, q).unwrap_or(Mesh::NO_TWIN)
    }

    // Writes the twins into the first n places.
    pub(crate) fn fill_twins(self, twins: &mut [u16])
        requires { Indices self.faces.now self.n × Simple (vertex_of self.faces.now) self.n × (self.n ≤ length twins.old) }
        ensures { twins.new ≡ filled (twin (vertex_of self.entry.faces.now) self.entry.n) self.entry.n twins.old }
    {
        for (c, place) in twins[..self.n].iter_mut().enumerate() {
            *place = self.twin(c);
        }
    }
}

// Cause 7. Where it does not hold, the tables are the chains of all corners afterwards; those of the heads come in empty.
pub(crate) fn link_corners(faces: &[u16], tables: &mut Tables) -> bool
    requires { Indices faces.now (length faces.now) × Unchained tables.old.head }
    ensures value { result ≡ doubled (vertex_of faces.now) (length faces.now) }
    ensures chained { result ≡ false → Chained (vertex_of faces.now) (length faces.now) tables.new.head tables.new.link }
{
    for (c, p) in faces.iter().enumerate() {
        let chains = Chains {
            faces,
            tables,
            n: c,
        };
        if chains.find(*p, faces[next_corner(c)]).is_some() {
            return true;
        }
        let at = usize::from(*p);
        tables.link[c] = tables.head[at];
        // No u16::try_from: it would give an error to hand on that no corner of a mesh meets.
        tables.head[at] = (c + 1) as u16;
    }
    false
}

// Writes "no twin" into the first n places.
pub(crate) fn clear_twins(n: usize, twins: &mut [u16])
    requires { n ≤ length twins.old }
    ensures { twins.new ≡ filled (λ c. no_twin) n twins.old }
{
    twins[..n].fill(Mesh::NO_TWIN);
}
