//! A line of samples: all samples of a face with one b, at one go (rule S6).
#![tactic(auto)]

mod differences;
pub mod model;
mod points;

ghost use Rattle.line.specs.Line.{LineSampled};

use crate::points::write_points;
use answer::refusal::Refusal;
use answer::refuse;

// All samples of face f with one b, for N = n, a from 0 to n (rules S1 to S4 and S6).
// Returns: nothing, or the refusal.
// Writes: x, y and z of the sample at (a, b), each rounded once, into places 3a, 3a + 1 and 3a + 2 of the line.
// Leaves alone: the places of the line from 3(n + 1) on, and all of them after a refusal; the patch list, as `sample`.
// Refuses, in this order: 12 and 13 as `sample`, 14 n off the range from 1 to 32, or b above n, 17 the line shorter than 3(n + 1).
// Units: control values and samples in 1/256 micrometre.
pub fn sample_line(
    patches: &[i32],
    f: usize,
    n: usize,
    b: usize,
    line: &mut [i32],
) -> Result<(), Refusal>
    ensures { LineSampled patches.now f n b line.old result line.new }
{
    let curves = sample::curves(patches, f, n, b)?;
    refuse(line.len() < 3 * (n + 1), Refusal::LineShort)?;
    write_points(curves, n, line);
    Ok(())
}
