// The limits of what the calls of a sample and the reading are given, and what they hand back.

// The largest magnitude of a control value.
pub const MAX_CONTROL: u32 = 268_435_456;

// The range of N, the number of steps along an edge of a patch (rule S1).
pub const MIN_STEPS: usize = 1;

pub const MAX_STEPS: usize = 32;

// A coordinate of a sample, and whether its division left nothing. A control value (`control`) is of the same shape, but of another size and in a crate that
// does not stand below this one.
#[derive(Clone, Copy)]
pub(crate) struct Coordinate {
    pub value: i32,
    pub exact: bool,
}

// A place of a face, as a sample is asked for there: a of N steps along u, and b along v.
#[derive(Clone, Copy, Debug, PartialEq, Eq)]
pub struct Place {
    pub face: usize,
    pub a: usize,
    pub b: usize,
}

// A sample, in units of 1/256 micrometre.
#[derive(Clone, Copy, Debug, PartialEq, Eq)]
pub struct Point {
    pub x: i32,
    pub y: i32,
    pub z: i32,
}

// A sample, and whether it is exact: all sixteen marks of its patch are set, and its own division left nothing (rule S7).
#[derive(Clone, Copy, Debug, PartialEq, Eq)]
pub struct MarkedPoint {
    pub point: Point,
    pub exact: bool,
}

// A sample in micrometres.
#[derive(Clone, Copy)]
pub struct Micrometres {
    pub x: f64,
    pub y: f64,
    pub z: f64,
}

// The curves along u that all samples of a face with one b share: the values of x, of y and of z, and the divisor of their sums.
#[derive(Clone, Copy)]
pub struct Curves {
    pub divisor: u32,
    pub x: [i64; 4],
    pub y: [i64; 4],
    pub z: [i64; 4],
}
