// What a mask reads and what it gives.

// One coordinate of the four vertices of a face, seen from a corner: of its own vertex, of the next, the one across and the previous.
#[derive(Clone, Copy, Debug, PartialEq, Eq)]
pub struct FaceValues {
    pub here: i32,
    pub next: i32,
    pub across: i32,
    pub prev: i32,
}

// A fraction of a micrometre.
#[derive(Clone, Copy, Debug, PartialEq, Eq)]
pub struct Fraction {
    pub num: i64,
    pub den: u32,
}
