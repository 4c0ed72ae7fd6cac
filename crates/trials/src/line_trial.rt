// A trial of the line call, and of the sample call at each of its places. Its first printed line goes on
//
//     done          where the samples are written
//     refused N     where they are refused
//
// Then comes the lent list as it is afterwards: a printed line `line` with the two sums of the list, and its first 816 places in clear,
// 48 to a printed line. Where the call is done, a printed line `samples` follows with a word for each a from 0 to N: `same` where the
// sample call gives at (a, b) what the list has at 3a, 3a + 1 and 3a + 2, and `other` where it does not. Every place of the list holds 7
// before the call.
use crate::printing::{print_answer, print_done};
use crate::reading::{Failure, PLACES, Reader, fits};
use crate::sample_trial::read_patches;
use crate::sums::print_list;
use answer::refusal::Refusal;
use sample::model::{Place, Point};
use std::io;

// Whether an answer of the sample call is the point with these coordinates.
fn is_at(answer: Result<Point, Refusal>, coordinates: &[i32]) -> bool {
    answer.is_ok_and(|p| coordinates == [p.x, p.y, p.z].as_slice())
}

// The sample call at each place of a written line, with a word for each.
fn print_samples(
    rt: HostRuntime,
    patches: &[i32],
    n: usize,
    first: Place,
    line: &[i32],
) -> io::Result<()> {
    print!(rt; "\n samples")?;
    for (a, coordinates) in (0..=n).zip(line.chunks_exact(3)) {
        if is_at(
            sample::sample(patches, n, Place { a, ..first }),
            coordinates,
        ) {
            print!(rt; " same")?;
        } else {
            print!(rt; " other")?;
        }
    }
    Ok(())
}

// The trial in a file.
pub(crate) fn run(rt: HostRuntime, file: &mut Reader<'_>) -> Result<(), Failure> {
    let face = file.number()?;
    let n = file.number()?;
    let b = file.number()?;
    let places = file.size()?;
    let patches = read_patches(rt, file)?;
    fits(places, PLACES)?;
    let mut line = vec![in rt.alloc(); 7i32; places]?;
    let outcome = line::sample_line(&patches, face, n, b, &mut line);
    print_answer(rt, outcome, print_done)?;
    print!(rt; "\n line")?;
    print_list(rt, &line)?;
    if outcome.is_ok() {
        print_samples(rt, &patches, n, Place { face, a: 0, b }, &line)?;
    }
    Ok(())
}
