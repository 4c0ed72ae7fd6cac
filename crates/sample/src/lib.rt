//! Samples of bicubic patches, as whole numbers of 1/256 micrometre and as doubles in micrometres (rules S1 to S7).
#![tactic(auto)]

mod bernstein;
mod marked;
mod micrometres;
pub mod model;
mod patch;
mod refusal;

ghost use Rattle.std.specs.Prelude.{◌≡◌};
ghost use Rattle.answer.specs.Table.{answered};
ghost use Rattle.sample.specs.Answer.{sample_answer, Reads};
ghost use Rattle.sample.specs.Curve.{curves_answer};
ghost use Rattle.sample.specs.Marked.{marked_answer};

use crate::marked::{all_exact, own_sample};
use crate::micrometres::in_micrometres;
use crate::model::{Curves, MarkedPoint, Micrometres, Place, Point};
use crate::patch::Patch;
use crate::refusal::check_place;
use answer::refusal::Refusal;
use answer::refuse;

// The sample at a place, for N = n (rules S1 to S4).
// Returns: x, y and z of the sample, each rounded once, or the refusal.
// Writes: nothing. Leaves alone: the patch list; of it, places 48f to 48f + 47 are read and no others, f the face of `place`.
// Refuses, in this order: 12 patch list shorter than 48f + 48, 13 a control value of that patch beyond 268,435,456,
// 14 n off the range from 1 to 32, or a or b of `place` above n.
// Units: control values and sample in 1/256 micrometre.
pub fn sample(patches: &[i32], n: usize, place: Place) -> Result<Point, Refusal>
    ensures { answered result ≡ sample_answer patches.now place.face n place.a place.b }
{
    let own = own_sample(patches, n, place)?;
    Ok(own.point)
}

// The sample at a place, for N = n, and whether it is exact (rule S7).
// Returns: the sample as `sample` gives it, and its mark: whether the sixteen bytes of the face f of `place` in the list `marks` are all 1 and
// the sample's own division left nothing in any coordinate; or the refusal.
// Writes: nothing. Leaves alone: both lists; of them, places 48f to 48f + 47 and 16f to 16f + 15 are read and no others.
// Refuses, in this order: 12 patch list shorter than 48f + 48, or the list `marks` shorter than 16f + 16, 13 and 14 as `sample`.
// Units: control values and sample in 1/256 micrometre.
pub fn marked_sample(
    patches: &[i32],
    marks: &[u8],
    n: usize,
    place: Place,
) -> Result<MarkedPoint, Refusal>
    ensures { answered result ≡ marked_answer patches.now marks.now place.face n place.a place.b }
{
    let f = place.face;
    refuse(marks.len() / 16 <= f, Refusal::NoFace)?;
    let own = own_sample(patches, n, place)?;
    let at = 16 * f;
    let end = at + 16;
    Ok(MarkedPoint {
        point: own.point,
        exact: all_exact(&marks[at..end]) & own.exact,
    })
}

// The sample at a place, for N = n, in micrometres (rule S5).
// Returns: three doubles, each exactly the coordinate of the sample over 256, or the refusal.
// Writes: nothing. Leaves alone: the patch list; of it, places 48f to 48f + 47 are read and no others, f the face of `place`.
// Refuses: as `sample`, in the same order.
// Units: control values in 1/256 micrometre, reading in micrometres.
pub fn reading(patches: &[i32], n: usize, place: Place) -> Result<Micrometres, Refusal>
    ensures { Reads result (sample_answer patches.now place.face n place.a place.b) }
{
    let point = sample(patches, n, place)?;
    Ok(in_micrometres(point))
}

// The curves along u that all samples of face f with one b share, for N = n (rules S1 to S3).
// Returns: for each coordinate the four values of its curve, blended along v, and N^6; or the refusal.
// Writes: nothing. Leaves alone: the patch list; of it, places 48f to 48f + 47 are read and no others.
// Refuses: as `sample` at (0, b), in the same order.
pub fn curves(patches: &[i32], f: usize, n: usize, b: usize) -> Result<Curves, Refusal>
    ensures { answered result ≡ curves_answer patches.now f n b }
{
    check_place(patches, n, Place { face: f, a: 0, b })?;
    let at = 48 * f;
    let end = at + 48;
    let patch = Patch {
        numbers: &patches[at..end],
    };
    Ok(patch.curves(n, b))
}
