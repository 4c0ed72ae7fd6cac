// The causes that circulating about each vertex decides: whether its corners form a fan, 9, and, as that tells whether it is on the boundary,
// its valence, 10, and its tag, 11.
ghost use Rattle.std.specs.Prelude.{◌≡◌, true, not, ◌&&◌, ℕ, ◌≤◌, ◌<◌, eqb, length, get_or};
ghost use Rattle.finite.specs.Fold.{any_below};
ghost use Rattle.limits.specs.Limits.{max_vertices, corner_tag};
ghost use Rattle.limits.specs.Range.{valence_bad};
ghost use Rattle.mesh.specs.Fan.{valence, on_boundary, fan};
ghost use Rattle.mesh.specs.Refusal.{fan_broken, valence_off};
ghost use Rattle.mesh.specs.Tables.{vertex_of, Valences, Headed};

use crate::chain::corner_in;
use crate::walk::{Twins, Walk};
use limits::{inner_tagged, valence_bad};

// The corners at each vertex.
#[derive(Clone, Copy)]
pub(crate) struct Fans<'a, 'b> {
    pub(crate) twins: Twins<'a>,
    // The last corner at each vertex, as the table of the chains has it.
    pub(crate) head: &'a [u16],
    // How many corners there are at each vertex.
    pub(crate) valences: &'b [u16],
    ghost headed: { Headed twins.faces.now head.now (length twins.faces.now) },
    ghost counted: { Valences twins.faces.now valences.now (length twins.faces.now) },
}

impl<'a, 'b> Fans<'a, 'b> {
    // Whether the corners at vertex p form no single fan, closed or open. Circulating begins at the last of them.
    fn broken(self, p: usize) -> bool
        requires { p < max_vertices }
        ensures { result ≡ not (fan (vertex_of self.entry.twins.faces.now) (length self.entry.twins.faces.now) p) }
    {
        match corner_in(self.head[p]) {
            Some(start) => {
                let met = self.twins.circulate(usize::from(start));
                met != usize::from(self.valences[p])
            }
            None => true,
        }
    }

    // Whether vertex p, whose corners form a fan, is on the boundary: the walk on from one of them does not come back to it.
    fn on_boundary(self, p: usize) -> bool
        requires { (p < max_vertices) × (fan (vertex_of self.twins.faces.now) (length self.twins.faces.now) p ≡ true) }
        ensures { result ≡ on_boundary (vertex_of self.entry.twins.faces.now) (length self.entry.twins.faces.now) p }
    {
        match corner_in(self.head[p]) {
            Some(start) => matches!(self.twins.walk_on(usize::from(start)), Walk::Open(_)),
            None => false,
        }
    }

    // Whether vertex p, whose corners form a fan, has too few or too many. Whether p is on the boundary is asked only where the two ranges
    // differ.
    fn valence_off(self, p: usize) -> bool
        requires { (p < max_vertices) × (fan (vertex_of self.twins.faces.now) (length self.twins.faces.now) p ≡ true) }
        ensures { let t = self.entry.twins in
            result ≡ valence_bad (on_boundary (vertex_of t.faces.now) (length t.faces.now) p) (valence (vertex_of t.faces.now) (length t.faces.now) p) }
    {
        let valence = usize::from(self.valences[p]);
        let inner = valence_bad(false, valence);
        if inner == valence_bad(true, valence) {
            return inner;
        }
        valence_bad(self.on_boundary(p), valence)
    }

    // Whether vertex p, whose corners form a fan, is tagged a corner and is not on the boundary. That is asked only of a tagged one.
    fn tag_off(self, p: usize, tag: u8) -> bool
        requires { (p < max_vertices) × (fan (vertex_of self.twins.faces.now) (length self.twins.faces.now) p ≡ true) }
        ensures { result ≡ (eqb tag corner_tag && not (on_boundary (vertex_of self.entry.twins.faces.now) (length self.entry.twins.faces.now) p)) }
    {
        inner_tagged(tag, false) && inner_tagged(tag, self.on_boundary(p))
    }

    // That p or v is in range, and that the corners at p form a fan, is asked where the vertex is passed: it is no fact of the lists.
    // Cause 9.
    pub(crate) fn any_broken(self, v: usize) -> bool
        requires { v ≤ max_vertices }
        ensures { result ≡ fan_broken (vertex_of self.entry.twins.faces.now) (length self.entry.twins.faces.now) v }
    {
        (0..v).any(|p| self.broken(p))
    }

    // Cause 10, where the corners at every vertex form a fan.
    pub(crate) fn any_valence_off(self, v: usize) -> bool
        requires named { v ≤ max_vertices }
        requires by_index { (p : ℕ) → p < v → fan (vertex_of self.twins.faces.now) (length self.twins.faces.now) p ≡ true }
        ensures { result ≡ valence_off (vertex_of self.entry.twins.faces.now) (length self.entry.twins.faces.now) v }
    {
        (0..v).any(|p| self.valence_off(p))
    }

    // Cause 11, where the corners at every vertex form a fan.
    pub(crate) fn any_inner_tagged(self, v: usize, tags: &[u8]) -> bool
        requires named { (v ≤ max_vertices) × (v ≤ length tags.now) }
        requires by_index { (p : ℕ) → p < v → fan (vertex_of self.twins.faces.now) (length self.twins.faces.now) p ≡ true }
        ensures { let t = self.entry.twins in
            result ≡ any_below (λ p. eqb (get_or tags.now p 0) corner_tag && not (on_boundary (vertex_of t.faces.now) (length t.faces.now) p)) v }
    {
        (0..v).any(|p| self.tag_off(p, tags[p]))
    }
}
