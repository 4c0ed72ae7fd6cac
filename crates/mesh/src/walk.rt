// Circulating about a vertex from one of its corners: on from it, and back from it where the boundary ends the walk on.
ghost use Rattle.std.specs.Prelude.{◌≡◌, ◌<◌, length};
ghost use Rattle.limits.specs.Limits.{no_twin};
ghost use Rattle.mesh.specs.Fan.{around};
ghost use Rattle.mesh.specs.Tables.{twin_of, Twinned};
ghost use Rattle.mesh.specs.Walk.{corner_of, WalkedOn};
ghost use Rattle.mesh.specs.Circulation.{back_around, Run, Circulated};

use corner::{next_corner, prev_corner};
use limits::model::Mesh;

// A face list with the twins of its half-edges, by which circulating goes.
#[derive(Clone, Copy)]
pub(crate) struct Twins<'a> {
    pub(crate) faces: &'a [u16],
    pub(crate) twins: &'a [u16],
    ghost twinned: { Twinned faces.now twins.now (length faces.now) },
}

// Where a walk on from a corner has stopped, with how many corners it has met, the first among them.
#[derive(Clone, Copy)]
pub(crate) enum Walk {
    // Back at the first.
    Closed(usize),
    // At the boundary.
    Open(usize),
}

impl<'a> Twins<'a> {
    // The corner where the twin of half-edge h starts, if it has one. The lent list of twins has 65535 for none (rule T9).
    fn twin(self, h: usize) -> Option<usize>
        requires { h < length self.faces.now }
        ensures { result ≡ corner_of (twin_of self.entry.twins.now h) }
    {
        let d = self.twins[h];
        if d == Mesh::NO_TWIN {
            return None;
        }
        Some(usize::from(d))
    }

    // The corner after c about its vertex.
    fn around(self, c: usize) -> Option<usize>
        requires { c < length self.faces.now }
        ensures { result ≡ corner_of (around (twin_of self.entry.twins.now) (length self.entry.faces.now) c) }
    {
        self.twin(prev_corner(c))
    }

    // The corner before c about its vertex.
    fn back_around(self, c: usize) -> Option<usize>
        requires { c < length self.faces.now }
        ensures { result ≡ corner_of (back_around (twin_of self.entry.twins.now) (length self.entry.faces.now) c) }
    {
        self.twin(c).map(next_corner)
    }

    // The walk on from start about its vertex, until it is back at start or ends at the boundary.
    pub(crate) fn walk_on(self, start: usize) -> Walk
        requires { start < length self.faces.now }
        ensures { WalkedOn (around (twin_of self.entry.twins.now) (length self.entry.faces.now)) (length self.entry.faces.now) start result }
    {
        let mut met = 1;
        let mut on = self.around(start);
        while let Some(c) = on {
            if c == start {
                return Walk::Closed(met);
            }
            met += 1;
            on = self.around(c);
        }
        Walk::Open(met)
    }

    // How many corners the walk on from start, which met so many and ended at the boundary, and the walk back from start meet together.
    fn walk_back(self, start: usize, onward: usize) -> usize
        requires inside { start < length self.faces.now }
        requires run { Run (around (twin_of self.twins.now) (length self.faces.now)) (length self.faces.now) start onward no_twin }
        ensures { Circulated (twin_of self.entry.twins.now) (length self.entry.faces.now) start result }
    {
        let mut met = onward;
        let mut back = self.back_around(start);
        while let Some(c) = back {
            met += 1;
            back = self.back_around(c);
        }
        met
    }

    // How many corners circulating about the vertex of start meets.
    pub(crate) fn circulate(self, start: usize) -> usize
        requires { start < length self.faces.now }
        ensures { Circulated (twin_of self.entry.twins.now) (length self.entry.faces.now) start result }
    {
        match self.walk_on(start) {
            Walk::Closed(met) => met,
            Walk::Open(onward) => self.walk_back(start, onward),
        }
    }
}
