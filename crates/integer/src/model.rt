// What rounding gives.

// A rounded quotient, what the rounding leaves, which is the number divided less the value times the divisor, and whether that is nothing (rule I5).
#[derive(Clone, Copy, Debug, PartialEq, Eq)]
pub struct Rounded {
    pub value: i64,
    pub rest: i64,
    pub exact: bool,
}
