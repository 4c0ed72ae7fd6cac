// The mesh's record.

// A checked mesh: its counts V, F, E and B (rule T8). The limits are its constants, named here once (rule M5).
#[derive(Clone, Copy, Debug, PartialEq, Eq)]
pub struct Mesh {
    pub vertices: usize,
    pub faces: usize,
    // E: unordered pairs of vertices joined by a half-edge.
    pub edges: usize,
    // B: boundary half-edges.
    pub boundary: usize,
}

impl Mesh {
    pub const MIN_VERTICES: usize = 4;

    pub const MAX_VERTICES: usize = 512;

    pub const MIN_FACES: usize = 1;

    pub const MAX_FACES: usize = 256;

    pub const MAX_COORDINATE: u32 = 1_048_576;

    pub const MIN_VALENCE: usize = 3;

    pub const MAX_VALENCE: usize = 16;

    pub const MIN_BOUNDARY_FACES: usize = 1;

    pub const MAX_BOUNDARY_FACES: usize = 8;
    // The tag of a corner vertex, the largest tag.
    pub const CORNER_TAG: u8 = 1;
    // The twin of a boundary half-edge.
    pub const NO_TWIN: u16 = 65535;
}
