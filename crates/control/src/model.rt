// What a control point is made of.

// A control value in units, 1/256 micrometre, and whether nothing was left when it was rounded.
#[derive(Clone, Copy, Debug, PartialEq, Eq)]
pub struct Value {
    pub units: i64,
    pub exact: bool,
}

// A control point in units, as numbers of type T, and whether nothing was left in any coordinate.
#[derive(Clone, Copy, Debug, PartialEq, Eq)]
pub struct ControlPoint<T> {
    pub x: T,
    pub y: T,
    pub z: T,
    pub exact: bool,
}
