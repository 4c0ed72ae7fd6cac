// The size of a line, and what is carried along it.
use sample::model::MAX_STEPS;

// The numbers of the longest line: a list of so many is never too short.
pub const MAX_LINE: usize = 3 * (MAX_STEPS + 1);

// A number that goes on from place to place, and its three differences there.
#[derive(Clone, Copy)]
pub(crate) struct Differences {
    pub value: i64,
    pub first: i64,
    pub second: i64,
    pub third: i64,
}
