// A trial of the sample call and of the reading. Its line goes on
//
//     X Y Z reading A B C             of a sample, and the bits of the three doubles of its reading, sixteen hexadecimal digits each
//     refused N reading refused N     of a refused one
use crate::printing::{print_answer, print_micrometres, print_point};
use crate::reading::{Failure, PLACES, Reader, fits};
use sample::model::Place;
use std::io;

// Both calls at one place, with their answers printed.
pub(crate) fn print_answers(
    rt: HostRuntime,
    patches: &[i32],
    n: usize,
    place: Place,
) -> io::Result<()> {
    print_answer(rt, sample::sample(patches, n, place), print_point)?;
    print!(rt; " reading")?;
    print_answer(rt, sample::reading(patches, n, place), print_micrometres)
}

// The face, N, and the place on the face.
pub(crate) fn read_place(file: &mut Reader<'_>) -> Result<(usize, Place), Failure> {
    let face = file.number()?;
    let n = file.number()?;
    let a = file.number()?;
    let b = file.number()?;
    Ok((n, Place { face, a, b }))
}

// The control values to the end of the file.
pub(crate) fn read_patches(rt: HostRuntime, file: &mut Reader<'_>) -> Result<Vec<i32>, Failure> {
    let patches = file.list(rt.alloc(), file.left() / 4)?;
    file.end()?;
    fits(patches.len(), PLACES)?;
    Ok(patches)
}

// The trial in a file.
pub(crate) fn run(rt: HostRuntime, file: &mut Reader<'_>) -> Result<(), Failure> {
    let (n, place) = read_place(file)?;
    let patches = read_patches(rt, file)?;
    Ok(print_answers(rt, &patches, n, place)?)
}
