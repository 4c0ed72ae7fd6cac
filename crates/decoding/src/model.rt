// What the bytes of a file give.
use limits::model::Mesh;

// The sizes of a file: V, F and N (rule F1). The lengths of the file's parts are its constants, named here once.
#[derive(Clone, Copy, Debug, PartialEq, Eq)]
pub struct Header {
    pub vertices: usize,
    pub faces: usize,
    // N.
    pub steps: usize,
}

impl Header {
    // The sizes.
    pub const BYTES: usize = 6;
    // The longest file.
    pub const MAX_BYTES: usize = 6 + 13 * Mesh::MAX_VERTICES + 8 * Mesh::MAX_FACES;
}
