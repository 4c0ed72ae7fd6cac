// A trial's file. Each number in it has its low byte first.
//
// Of the mesh check: six sizes, V, F and the lengths of the lists of positions, tags, faces and twins, as 16-bit numbers; then the
// positions as 32-bit two's complement numbers, the tags as bytes and the faces as 16-bit numbers.
//
// Of the patch call: 65533, the lengths of the lists of patches and of marks, and N, as 16-bit numbers, which are the file's head; then a
// file of the mesh check.
//
// Of the mirror call: 65531 and the lengths of the lent lists of positions, tags and faces, as 16-bit numbers; then a file of the patch
// call, whose mesh is mirrored. The eight bytes and the head of that file are this file's head; the twins, the patches, the marks and N
// are those of the image.
//
// Of the tangent call: 65525 as a 16-bit number, g as a 64-bit number and the length of the lent list as a 16-bit number, which are the
// file's head; then a file of the mesh check, whose twins are not used.
//
// Of the sample call: 65535 as a 16-bit number, which is V in no trial of the mesh check; then f, N, a and b as 64-bit numbers; then
// the control values as 32-bit two's complement numbers, to the end of the file.
//
// Of the marked sample: 65523 as a 16-bit number; f, N, a and b as 64-bit numbers; how many marks there are as a 16-bit number; the marks as
// bytes; then the control values as in a file of the sample call.
//
// Of the line call: 65529 as a 16-bit number; f, N and b as 64-bit numbers; the length of the lent list as a 16-bit number; then the
// control values as in a file of the sample call.
//
// Of the cosines and weights: 65527 as a 16-bit number; n as a 64-bit number; then further places i as 64-bit numbers, to the end of the
// file.
use std::alloc::{AllocError, AllocFailed, Global};
use std::io;

// The places of each list that is read or lent, but for the tags of the mesh and the marks of a marked sample, which stay in the file, and
// the lent patches and marks.
pub(crate) const PLACES: usize = 2048;

// The kind of a trial, by the first number of its file.
#[derive(Clone, Copy, Debug, PartialEq, Eq)]
pub(crate) enum Kind {
    Mesh,
    Patch,
    Mirror,
    Tangent,
    Sample,
    Marked,
    Line,
    Weight,
}

impl From<u16> for Kind {
    // The first number of a mesh trial is V, which none of the others is.
    fn from(first: u16) -> Kind {
        match first {
            65535 => Kind::Sample,
            65533 => Kind::Patch,
            65531 => Kind::Mirror,
            65529 => Kind::Line,
            65527 => Kind::Weight,
            65525 => Kind::Tangent,
            65523 => Kind::Marked,
            _ => Kind::Mesh,
        }
    }
}

// Why a trial does not run to its end: the file is longer or shorter than its sizes and lists, a list has more places than there are for
// it, or memory or the output fails.
#[derive(Debug, Drop)]
pub(crate) enum Failure {
    NotWhole,
    TooLong,
    Io(io::Error),
}

impl From<io::Error> for Failure {
    // Output that fails.
    fn from(error: io::Error) -> Failure {
        Failure::Io(error)
    }
}

impl From<AllocError> for Failure {
    // Memory that runs out.
    fn from(error: AllocError) -> Failure {
        Failure::Io(io::Error::from(error))
    }
}

impl<T: Drop> From<AllocFailed<T>> for Failure {
    // The same, where a number was to be stored.
    fn from(error: AllocFailed<T>) -> Failure {
        Failure::from(AllocError::from(error))
    }
}

// That a list of so many places is no longer than a limit.
pub(crate) fn fits(places: usize, limit: usize) -> Result<(), Failure> {
    if limit < places {
        return Err(Failure::TooLong);
    }
    Ok(())
}

// The bytes of a file that are still to be read.
#[derive(Drop)]
pub(crate) struct Reader<'a> {
    rest: &'a [u8],
}

// A number as a file has it.
pub(crate) trait Number: Sized {
    // The next number.
    fn read(file: &mut Reader<'_>) -> Result<Self, Failure>;
}

impl Number for u16 {
    // Two bytes.
    fn read(file: &mut Reader<'_>) -> Result<u16, Failure> {
        Ok(u16::from_le_bytes(*file.array()?))
    }
}

impl Number for i32 {
    // Four bytes, two's complement.
    fn read(file: &mut Reader<'_>) -> Result<i32, Failure> {
        Ok(i32::from_le_bytes(*file.array()?))
    }
}

impl Number for usize {
    // Eight bytes.
    fn read(file: &mut Reader<'_>) -> Result<usize, Failure> {
        Ok(usize::from_le_bytes(*file.array()?))
    }
}

impl<'a> Reader<'a> {
    // All bytes of a file.
    pub(crate) fn new(bytes: &'a [u8]) -> Reader<'a> {
        Reader { rest: bytes }
    }

    // The next n bytes.
    pub(crate) fn bytes(&mut self, n: usize) -> Result<&'a [u8], Failure> {
        let (bytes, rest) = self.rest.split_at_checked(n).ok_or(Failure::NotWhole)?;
        self.rest = rest;
        Ok(bytes)
    }

    // The next N bytes.
    fn array<const N: usize>(&mut self) -> Result<&'a [u8; N], Failure> {
        self.bytes(N)?.as_array().ok_or(Failure::NotWhole)
    }

    // The next number.
    pub(crate) fn number<T: Number>(&mut self) -> Result<T, Failure> {
        T::read(self)
    }

    // The next number of 16 bits, a size or a length.
    pub(crate) fn size(&mut self) -> Result<usize, Failure> {
        Ok(usize::from(self.number::<u16>()?))
    }

    // The next n numbers.
    pub(crate) fn list<T: Number + Drop>(
        &mut self,
        alloc: Global,
        n: usize,
    ) -> Result<Vec<T>, Failure> {
        let mut list = Vec::new(alloc);
        for _ in 0..n {
            list.push(self.number()?)?;
        }
        Ok(list)
    }

    // How many bytes are left.
    pub(crate) fn left(&self) -> usize {
        self.rest.len()
    }

    // That no byte is left.
    pub(crate) fn end(&self) -> Result<(), Failure> {
        if self.rest.is_empty() {
            return Ok(());
        }
        Err(Failure::NotWhole)
    }
}
