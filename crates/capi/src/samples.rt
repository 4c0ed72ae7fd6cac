// The samples of a patch list for C: one by one, with a mark, in micrometres, and by lines.
ghost use Rattle.std.specs.Prelude.{◌≡◌, ◌∷◌, []};
ghost use Rattle.answer.specs.Table.{Answer, answered};
ghost use Rattle.sample.specs.Answer.{sample_answer, Reads};
ghost use Rattle.sample.specs.declared.model.Point.{Point};
ghost use Rattle.sample.specs.Marked.{marked_answer};
ghost use Rattle.capi.specs.Answer.{placed, mark_stored, Read, SampleStored, MarkedStored, ReadingStored, LineStored};

use crate::code;
use answer::refusal::Refusal;
use sample::model::{MarkedPoint, Micrometres, Place, Point};

// Stores a sample into the three lent numbers, where there is one.
fn store_sample(answer: Result<Point, Refusal>, x: &mut i32, y: &mut i32, z: &mut i32)
    ensures { x.new ∷ (y.new ∷ (z.new ∷ []))
        ≡ placed (answered answer) (x.old ∷ (y.old ∷ (z.old ∷ []))) }
{
    if let Ok(point) = answer {
        *x = point.x;
        *y = point.y;
        *z = point.z;
    }
}

// Stores the mark of a marked sample into the lent byte, where there is one: 1 for an exact sample, else 0.
fn store_mark(answer: Result<MarkedPoint, Refusal>, mark: &mut u8)
    ensures { mark.new ≡ mark_stored (answered answer) mark.old }
{
    if let Ok(sample) = answer {
        *mark = u8::from(sample.exact);
    }
}

// Stores a reading into the three lent doubles, where there is one. A sample is stored as it is and told by its numbers, a reading by what its doubles mean:
// one generic function would promise neither.
fn store_reading(answer: Result<Micrometres, Refusal>, x: &mut f64, y: &mut f64, z: &mut f64)
    ensures { (held : Answer Point) → Reads answer held → Read held x.old y.old z.old x.new y.new z.new }
{
    if let Ok(reading) = answer {
        *x = reading.x;
        *y = reading.y;
        *z = reading.z;
    }
}

// The sample of face f at (a, b), for N = n (rules S1 to S4): `sample::sample`.
// Returns: 0, or the number of the refusal.
// Writes: the sample into x, y and z. Leaves alone: x, y and z after a refusal; the patch list.
// Refuses, and units: as `sample::sample`.
#[unsafe(no_mangle)]
pub extern "C" fn rusketja_sample(
    patches: &[i32],
    f: usize,
    n: usize,
    a: usize,
    b: usize,
    x: &mut i32,
    y: &mut i32,
    z: &mut i32,
) -> u8
    ensures { SampleStored (sample_answer patches.now f n a b)
        (x.old ∷ (y.old ∷ (z.old ∷ []))) result
        (x.new ∷ (y.new ∷ (z.new ∷ []))) }
{
    let sampled = sample::sample(patches, n, Place { face: f, a, b });
    store_sample(sampled, x, y, z);
    code(sampled)
}

// The sample of face f at (a, b), for N = n, and whether it is exact (rule S7): `sample::marked_sample`.
// Returns: 0, or the number of the refusal.
// Writes: the sample into x, y and z, and its mark into mark: 1 where it is exact, else 0.
// Leaves alone: x, y, z and mark after a refusal; the patch list and the list of its marks.
// Refuses, and units: as `sample::marked_sample`.
#[unsafe(no_mangle)]
pub extern "C" fn rusketja_marked_sample(
    patches: &[i32],
    exact: &[u8],
    f: usize,
    n: usize,
    a: usize,
    b: usize,
    x: &mut i32,
    y: &mut i32,
    z: &mut i32,
    mark: &mut u8,
) -> u8
    ensures { MarkedStored (marked_answer patches.now exact.now f n a b)
        (x.old ∷ (y.old ∷ (z.old ∷ []))) mark.old result
        (x.new ∷ (y.new ∷ (z.new ∷ []))) mark.new }
{
    let marked = sample::marked_sample(patches, exact, n, Place { face: f, a, b });
    store_sample(marked.map(|sample| sample.point), x, y, z);
    store_mark(marked, mark);
    code(marked)
}

// The sample of face f at (a, b), for N = n, in micrometres (rule S5): `sample::reading`.
// Returns: 0, or the number of the refusal.
// Writes: the reading into x, y and z. Leaves alone: x, y and z after a refusal; the patch list.
// Refuses, and units: as `sample::reading`.
#[unsafe(no_mangle)]
pub extern "C" fn rusketja_reading(
    patches: &[i32],
    f: usize,
    n: usize,
    a: usize,
    b: usize,
    x: &mut f64,
    y: &mut f64,
    z: &mut f64,
) -> u8
    ensures { ReadingStored (sample_answer patches.now f n a b)
        x.old y.old z.old result
        x.new y.new z.new }
{
    let reading = sample::reading(patches, n, Place { face: f, a, b });
    store_reading(reading, x, y, z);
    code(reading)
}

// All samples of face f with one b, for N = n, a from 0 to n (rule S6): `line::sample_line`.
// Returns: 0 where it is done, or the number of the refusal.
// Writes, leaves alone, refuses, and units: as `line::sample_line`.
#[unsafe(no_mangle)]
pub extern "C" fn rusketja_sample_line(
    patches: &[i32],
    f: usize,
    n: usize,
    b: usize,
    line: &mut [i32],
) -> u8
    ensures { LineStored patches.now f n b line.old result line.new }
{
    let answer = line::sample_line(patches, f, n, b, line);
    code(answer)
}
