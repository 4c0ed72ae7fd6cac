// A trial of the patch call, and of the samples and the marked samples of what it wrote. Its line goes on
//
//     V F E B twins T..       of an accepted mesh
//     refused N twins T..     of a refused one
//
// with every place of the lent twins afterwards. Then come a line `patches` with the two sums of the lent patch list afterwards, its
// first 816 places in clear, 48 to a line, a line `marks` with every place of the lent list of marks, and for each face of an accepted mesh a
// line `samples` with the two sums of its samples at all (a, b), row by row in b and along each row in a, the sample and the reading at half
// N, and after `marked` the two sums of the marks of its samples, 1 for exact and 0, where 2 stands for a marked sample that is refused or
// has another point than the sample. Of numbers x0, x1 .. the two sums are that of the numbers and that of the sums x0, x0 + x1 .. on the
// way, both modulo 2^32. Every place of the three lists holds 7 before the call.
use crate::mesh_trial::MeshFile;
use crate::printing::{print_all, print_answer, print_counts};
use crate::reading::{Failure, Reader, fits};
use crate::sample_trial::print_answers;
use crate::sums::{Sums, print_list};
use answer::refusal::Refusal;
use mesh::model::MeshLists;
use sample::model::{MarkedPoint, Place, Point};
use std::io;

// The places of the list of patches: three more than the largest mesh takes up.
const PATCH_PLACES: usize = 12291;

// Those of the list of marks: three more too.
const MARK_PLACES: usize = 4099;

// The head of a patch trial: the lengths of the lent lists, and N.
#[derive(Clone, Copy)]
pub(crate) struct PatchHead {
    patches: usize,
    marks: usize,
    steps: usize,
}

impl PatchHead {
    // The head behind its first number.
    pub(crate) fn read(file: &mut Reader<'_>) -> Result<PatchHead, Failure> {
        Ok(PatchHead {
            patches: file.size()?,
            marks: file.size()?,
            steps: file.size()?,
        })
    }

    // That both lists have room.
    pub(crate) fn fits(&self) -> Result<(), Failure> {
        fits(self.patches, PATCH_PLACES)?;
        fits(self.marks, MARK_PLACES)
    }

    // The patch call on a mesh and the lent lists, with what it gave printed.
    pub(crate) fn show(
        &self,
        rt: HostRuntime,
        mesh: MeshLists<'_>,
        twins: &mut [u16],
    ) -> io::Result<()> {
        let mut patches = vec![in rt.alloc(); 7i32; self.patches]?;
        let mut marks = vec![in rt.alloc(); 7u8; self.marks]?;
        let answer = patch::patches(mesh, twins, &mut patches, &mut marks);
        print_answer(rt, answer, print_counts)?;
        print_lists(rt, twins, &patches, &marks)?;
        let Ok(accepted) = answer else {
            return Ok(());
        };
        for face in 0..accepted.faces {
            print_samples(rt, &patches, &marks, face, self.steps)?;
        }
        Ok(())
    }
}

// The two sums of samples, where a refused one counts as its number, and those of their marks.
#[derive(Clone, Copy, Default)]
struct SampleSums {
    samples: Sums,
    marks: Sums,
}

impl SampleSums {
    // The answers of both calls at one more place.
    fn add(&mut self, sampled: Result<Point, Refusal>, marked: Result<MarkedPoint, Refusal>) {
        match sampled {
            Ok(point) => {
                self.samples.add(point.x);
                self.samples.add(point.y);
                self.samples.add(point.z);
            }
            Err(refusal) => self.samples.add(u8::from(refusal)),
        }
        self.marks.add(mark(sampled, marked));
    }

    // The samples of a face at one b.
    fn add_row(&mut self, patches: &[i32], marks: &[u8], face: usize, n: usize, b: usize) {
        for a in 0..=n {
            let place = Place { face, a, b };
            self.add(
                sample::sample(patches, n, place),
                sample::marked_sample(patches, marks, n, place),
            );
        }
    }
}

// The mark of a marked sample, 1 or 0; 2 where it is refused or has another point than the sample.
fn mark(sampled: Result<Point, Refusal>, marked: Result<MarkedPoint, Refusal>) -> u8 {
    match marked {
        Ok(marked) if sampled == Ok(marked.point) => u8::from(marked.exact),
        _ => 2,
    }
}

// The sums of the samples of a face.
fn face_sums(patches: &[i32], marks: &[u8], face: usize, n: usize) -> SampleSums {
    let mut sums = SampleSums::default();
    for b in 0..=n {
        sums.add_row(patches, marks, face, n, b);
    }
    sums
}

// The line of the samples of a face.
fn print_samples(
    rt: HostRuntime,
    patches: &[i32],
    marks: &[u8],
    face: usize,
    n: usize,
) -> io::Result<()> {
    let SampleSums { samples, marks } = face_sums(patches, marks, face, n);
    print!(rt; "\n samples {samples}")?;
    let half = Place {
        face,
        a: n / 2,
        b: n / 2,
    };
    print_answers(rt, patches, n, half)?;
    print!(rt; " marked {marks}")
}

// The lists after the call.
fn print_lists(rt: HostRuntime, twins: &[u16], patches: &[i32], marks: &[u8]) -> io::Result<()> {
    print!(rt; " twins")?;
    print_all(rt, twins)?;
    print!(rt; "\n patches")?;
    print_list(rt, patches)?;
    print!(rt; "\n marks")?;
    print_all(rt, marks)
}

// The trial in a file.
pub(crate) fn run(rt: HostRuntime, file: &mut Reader<'_>) -> Result<(), Failure> {
    let head = PatchHead::read(file)?;
    let mesh = MeshFile::read(rt.alloc(), file)?;
    mesh.fits()?;
    head.fits()?;
    let mut twins = mesh.lent_twins(rt.alloc())?;
    Ok(head.show(rt, mesh.lists(), &mut twins)?)
}
