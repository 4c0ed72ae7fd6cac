//! The cosines c(m), and the weights of the tangents at an inner vertex.
//!
//! (a) `cosine`, `edge_weight` and `face_weight` have 0 for none: docs/SPECIFICATION.md names them with that answer, and `Entry` and `edge_weight` say it.
#![tactic(auto)]

mod cosine_table;
mod edge_table;
mod face_table;
mod generator;
pub mod model;
mod root;

ghost use Rattle.std.specs.Prelude.{◌≡◌};
ghost use Rattle.cosine.specs.Cosine.{Entry};
ghost use Rattle.cosine.specs.Weight.{place_of, listed, edge_weight, face_weight, all_weights};

use crate::cosine_table::COSINES;
use crate::edge_table::EDGE_WEIGHTS;
use crate::face_table::FACE_WEIGHTS;
use crate::generator::{EdgeRule, FaceRule, weights_by};
use crate::model::Weights;

// The cosine 1 as it is stored, 2^20.
pub const ONE: u32 = 1_048_576;

// The fewest faces of a vertex with weights.
pub(crate) const LEAST_FACES: usize = 3;

// The most, and so many places there are for each number of faces.
pub(crate) const PLACES: usize = 16;

// How many places a table of weights has.
pub(crate) const TABLE_LENGTH: usize = PLACES * (PLACES - LEAST_FACES + 1);

// The whole number that is nearest to 2^20 times the cosine of 2 pi / m, m from 3 to 32.
// Returns: that number, or 0 for another m. Refuses: nothing.
pub fn cosine(m: usize) -> i32
    ensures { Entry m result }
{
    COSINES.get(m).copied().unwrap_or(0)
}

// Where the weight of n and i stands in its table; none where there is no such weight.
pub(crate) fn place(n: usize, i: usize) -> Option<usize>
    ensures { result ≡ place_of n i }
{
    if LEAST_FACES <= n && n <= PLACES && i < n {
        return Some(PLACES * (n - LEAST_FACES) + i);
    }
    None
}

// The weight of n and i in a table of all weights, 0 where there is none.
fn entry(table: &[i32; TABLE_LENGTH], n: usize, i: usize) -> i32
    ensures { result ≡ listed table.now n i }
{
    place(n, i).map_or(0, |k| table[k])
}

// The weight, in the tangent along an edge of a vertex of n faces, of the far end of the edge that is i edges on.
// Returns: 2^20 times the weight, for n from 3 to 16 and i below n, or 0 for other numbers. Refuses: nothing.
pub fn edge_weight(n: usize, i: usize) -> i32
    ensures { result ≡ edge_weight n i }
{
    entry(&EDGE_WEIGHTS, n, i)
}

// The weight of the vertex across the face between the edges that are i and i + 1 edges on.
// Returns: as `edge_weight`. Refuses: nothing.
pub fn face_weight(n: usize, i: usize) -> i32
    ensures { result ≡ face_weight n i }
{
    entry(&FACE_WEIGHTS, n, i)
}

// All weights, from the constant tables.
// Returns: the two lists. Refuses: nothing.
pub fn weights() -> Weights
    ensures { result ≡ all_weights }
{
    Weights {
        edge: EDGE_WEIGHTS,
        face: FACE_WEIGHTS,
    }
}

// All weights, each worked out by its rule from the cosines.
// Returns: what `weights` returns. Refuses: nothing.
pub fn generated_weights() -> Weights
    ensures { result ≡ all_weights }
{
    Weights {
        edge: weights_by::<EdgeRule>(),
        face: weights_by::<FaceRule>(),
    }
}
