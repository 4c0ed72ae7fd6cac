// The 72 numbers of a face, from the parts of its sides and the cosines at its corners.
ghost use Rattle.std.specs.Prelude.{◌≡◌, ◌<◌};
ghost use Rattle.tangent.specs.Told.{place_for};
ghost use Rattle.tangent.specs.Lists.{Known, listed_part, side_from, number_from_parts, numbers_by};

use crate::NUMBERS;
use crate::parts::Part;
use crate::side::{Side, VectorKind, vector};

// A row of the table of the 24 vectors: the vector of a side, as it is or reversed.
#[derive(Clone, Copy, Debug, PartialEq, Eq)]
pub(crate) enum Row {
    Along(usize, VectorKind),
    Against(usize, VectorKind),
}

// u(0, j), u(1, j) and u(2, j), j from 0 to 3; then v(0, j) to v(3, j), j from 0 to 2.
static ROWS: [Row; 24] = [
    Row::Along(0, VectorKind::Start),
    Row::Along(0, VectorKind::Middle),
    Row::Along(0, VectorKind::End),
    Row::Along(3, VectorKind::EndIn),
    Row::Along(0, VectorKind::Inner),
    Row::Against(1, VectorKind::StartIn),
    Row::Along(3, VectorKind::StartIn),
    Row::Against(2, VectorKind::Inner),
    Row::Against(1, VectorKind::EndIn),
    Row::Against(2, VectorKind::End),
    Row::Against(2, VectorKind::Middle),
    Row::Against(2, VectorKind::Start),
    Row::Against(3, VectorKind::End),
    Row::Along(0, VectorKind::StartIn),
    Row::Along(0, VectorKind::EndIn),
    Row::Along(1, VectorKind::Start),
    Row::Against(3, VectorKind::Middle),
    Row::Against(3, VectorKind::Inner),
    Row::Along(1, VectorKind::Inner),
    Row::Along(1, VectorKind::Middle),
    Row::Against(3, VectorKind::Start),
    Row::Against(2, VectorKind::EndIn),
    Row::Against(2, VectorKind::StartIn),
    Row::Along(1, VectorKind::End),
];

// What the numbers of a face are made of: the parts of its sides and the cosines at its corners, which are small.
#[derive(Clone, Copy)]
pub(crate) struct FaceSource<'a> {
    pub(crate) parts: &'a [i64; NUMBERS],
    pub(crate) cosines: &'a [i32; 4],
    ghost known: { Known parts.now cosines.now },
}

impl<'a> FaceSource<'a> {
    // A part of side s, coordinate k.
    fn listed(self, part: Part, s: usize, k: usize) -> i64
        requires { (s < 4) × (k < 3) }
        ensures { result ≡ listed_part self.entry.parts.now (place_for part) s k }
    {
        self.parts[12 * part as usize + (3 * s + k)]
    }

    // What the lists say of coordinate k of side s.
    fn side(self, s: usize, k: usize) -> Side
        requires { (s < 4) × (k < 3) }
        ensures { result ≡ side_from self.entry.parts.now self.entry.cosines.now s k }
    {
        Side {
            start: self.listed(Part::AtStart, s, k),
            end: self.listed(Part::AtEnd, s, k),
            near: self.listed(Part::Near, s, k),
            far: self.listed(Part::Far, s, k),
            inner_near: self.listed(Part::InnerNear, s, k),
            inner_far: self.listed(Part::InnerFar, s, k),
            start_cosine: self.cosines[s],
            end_cosine: self.cosines[(s + 1) % 4],
        }
    }

    // Number i of the 72.
    fn number(self, i: usize) -> i64
        requires { i < 72 }
        ensures { result ≡ number_from_parts self.entry.parts.now self.entry.cosines.now i }
    {
        let k = i % 3;
        match ROWS[i / 3] {
            Row::Along(s, kind) => vector(self.side(s, k), kind),
            Row::Against(s, kind) => -vector(self.side(s, k), kind),
        }
    }

    // All 72.
    pub(crate) fn numbers(self) -> [i64; NUMBERS]
        ensures { result ≡ numbers_by self.entry.parts.now self.entry.cosines.now }
    {
        std::array::from_fn(|i| self.number(i))
    }
}
