// What the six vectors of each side of a face are made of: the corner vectors at its ends, and the control values near it.
ghost use Rattle.std.specs.Prelude.{◌≡◌, ◌≤◌, ◌<◌};
ghost use Rattle.tangent.specs.Told.{SideSource, part_for, part_told, parts_told};
ghost use Rattle.tangent.specs.Lists.{parts_from};

use crate::NUMBERS;
use crate::ring::{CORNERS, Tables};
use control::value::Coordinate;
use corner::next_corner;

// The parts of a side: two corner vectors, two edge points, and the inner points behind them.
#[derive(Clone, Copy, Debug, PartialEq, Eq)]
pub(crate) enum Part {
    AtStart,
    AtEnd,
    Near,
    Far,
    InnerNear,
    InnerFar,
}

// The order of the parts in their list.
static PARTS: [Part; 6] = [
    Part::AtStart,
    Part::AtEnd,
    Part::Near,
    Part::Far,
    Part::InnerNear,
    Part::InnerFar,
];

// A part of the side of half-edge c, coordinate k: n and m faces are at its start and at its end.
fn part_of(tables: Tables, n: usize, m: usize, k: usize, c: usize, p: Part) -> i64
    requires { (n ≤ 16) × (m ≤ 16) }
    ensures { result ≡ part_told tables.entry.values.now tables.entry.twins.now n m k c (part_for p) }
{
    let d = usize::from(tables.twins[c % CORNERS]);
    let values = tables.values;
    let at = Coordinate { values, k };
    match p {
        Part::AtStart => tables.corner_vector(n, k, c),
        Part::AtEnd => -tables.corner_vector(m, k, d),
        Part::Near => at.edge(n as u16, c, d).units,
        Part::Far => at.edge(m as u16, d, c).units,
        Part::InnerNear => at.inner(n as u16, c).units,
        Part::InnerFar => at.inner(m as u16, next_corner(c)).units,
    }
}

// Number j of the list of parts of face g: part j / 12 of side j % 12 / 3, coordinate j % 3.
fn listed_part(tables: Tables, valences: &[usize; 4], g: usize, j: usize) -> i64
    requires { SideSource valences.now g × (j < 72) }
    ensures { result ≡ parts_told tables.entry.values.now tables.entry.twins.now valences.now g j }
{
    let s = j % 12 / 3;
    let n = valences[s];
    let m = valences[(s + 1) % 4];
    part_of(tables, n, m, j % 3, 4 * g + s, PARTS[j / 12])
}

// The parts of all four sides of face g.
pub(crate) fn side_parts(tables: Tables, valences: &[usize; 4], g: usize) -> [i64; NUMBERS]
    requires { SideSource valences.now g }
    ensures { result ≡ parts_from tables.entry.values.now tables.entry.twins.now valences.now g }
{
    std::array::from_fn(|j| listed_part(tables, valences, g, j))
}
