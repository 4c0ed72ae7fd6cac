// The weights of the tangents as two lists.
use crate::TABLE_LENGTH;

// (a) Two lists side by side: `all_weights`, the contract of `weights`, is the record of these two fields.
// The weights of n faces, n from 3 to 16: that of n and i at place 16 (n - 3) + i, and 0 there for i from n on.
#[derive(Clone, Copy, Debug, PartialEq, Eq)]
pub struct Weights {
    // Those of the far ends of the edges.
    pub edge: [i32; TABLE_LENGTH],
    // Those of the vertices across the faces.
    pub face: [i32; TABLE_LENGTH],
}
