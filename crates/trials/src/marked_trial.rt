// A trial of the marked sample, and of the sample call at the same place. Its line goes on
//
//     X Y Z mark M     of a marked sample: M is 1 where it is exact, and 0 where it is not
//     refused N        of a refused one
//
// Then come the word `sample` and the answer of the sample call, which is given no marks: X Y Z, or refused N.
use crate::printing::{print_answer, print_marked, print_point};
use crate::reading::{Failure, Reader};
use crate::sample_trial::{read_patches, read_place};

// The trial in a file.
pub(crate) fn run(rt: HostRuntime, file: &mut Reader<'_>) -> Result<(), Failure> {
    let (n, place) = read_place(file)?;
    let length = file.size()?;
    let marks = file.bytes(length)?;
    let patches = read_patches(rt, file)?;
    let answer = sample::marked_sample(&patches, marks, n, place);
    print_answer(rt, answer, print_marked)?;
    print!(rt; " sample")?;
    print_answer(rt, sample::sample(&patches, n, place), print_point)?;
    Ok(())
}
