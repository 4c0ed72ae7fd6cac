// Two sums over signed numbers: of the numbers, and of the first sums on the way, which the order of the numbers changes. They are kept
// modulo 2^64 and printed modulo 2^32.
use crate::printing::print_lines;
use std::{fmt, io};

// The numbers to a line, those of a patch, and how many of a list are printed: 17 lines.
const LINE: usize = 48;

const CLEAR: usize = 816;

// The two sums.
#[derive(Clone, Copy, Debug, Default, PartialEq, Eq)]
pub(crate) struct Sums {
    first: u64,
    second: u64,
}

impl Sums {
    // One more number.
    pub(crate) fn add<T: Into<i64>>(&mut self, number: T) {
        self.first = self.first.wrapping_add_signed(number.into());
        self.second = self.second.wrapping_add(self.first);
    }

    // The two sums of a list.
    pub(crate) fn of<T: Into<i64> + Copy>(list: &[T]) -> Sums {
        let mut sums = Sums::default();
        for number in list {
            sums.add(*number);
        }
        sums
    }
}

// Both sums, modulo 2^32.
impl fmt::Display for Sums {
    fn fmt<W: fmt::Write>(&self, f: &mut fmt::Formatter<W>) -> fmt::Result {
        let first = self.first % 4294967296;
        let second = self.second % 4294967296;
        write!(f, "{first} {second}")
    }
}

// The two sums of a list of control values or positions, and its first numbers in clear.
pub(crate) fn print_list(rt: HostRuntime, list: &[i32]) -> io::Result<()> {
    let sums = Sums::of(list);
    print!(rt; " {sums}")?;
    print_lines(rt, &list[..list.len().min(CLEAR)], LINE)
}
