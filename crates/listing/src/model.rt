// What the listing of a file is handed out by.

// A stretch of lines in a buffer.
#[derive(Clone, Copy, Debug, PartialEq, Eq)]
pub struct Stretch {
    // The number of the line that comes next, counted from 0.
    pub line: usize,
    // How many bytes of the buffer the stretch fills.
    pub length: usize,
}

// Lines at the front of a buffer. Their count and no `Stretch`: a row does not know the number of its first line.
#[derive(Clone, Copy)]
pub(crate) struct Lines {
    // How many.
    pub(crate) count: usize,
    // How many bytes of the buffer they fill.
    pub(crate) length: usize,
}
