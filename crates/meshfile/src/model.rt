// What a file gives.
use limits::model::Mesh;

// An accepted mesh and its N.
#[derive(Clone, Copy, Debug, PartialEq, Eq)]
pub struct Tessellation {
    pub mesh: Mesh,
    // N.
    pub steps: usize,
}
