// A sample with what its own division leaves, and the marks of its patch.
ghost use Rattle.std.specs.Prelude.{◌≡◌, eqb};
ghost use Rattle.std.specs.List.{list_all};
ghost use Rattle.answer.specs.Table.{first_met, answer_by, answered};
ghost use Rattle.sample.specs.Refusal.{sample_rows};
ghost use Rattle.sample.specs.Answer.{point_at};
ghost use Rattle.sample.specs.Marked.{division_whole};

use crate::model::{MarkedPoint, Place};
use crate::patch::Patch;
use crate::refusal::check_place;
use answer::refusal::Refusal;

// The sample at a place, for N = n, exact where its own division left nothing, or the first refusal that is met.
pub(crate) fn own_sample(patches: &[i32], n: usize, place: Place) -> Result<MarkedPoint, Refusal>
    ensures { let f = place.face in let a = place.a in let b = place.b in
        answered result ≡ answer_by (first_met (sample_rows patches.now f n a b))
        (record { point = point_at patches.now f n a b; exact = division_whole patches.now f n a b }) }
{
    check_place(patches, n, place)?;
    let at = 48 * place.face;
    let end = at + 48;
    let patch = Patch {
        numbers: &patches[at..end],
    };
    Ok(patch.point(n, place.a, place.b))
}

// Whether all the marks are 1. No early way out, so that the compiler tests several marks at a time.
pub(crate) fn all_exact(marks: &[u8]) -> bool
    ensures { result ≡ list_all (λ mark. eqb mark 1) marks.now }
{
    let mut exact = true;
    for mark in marks {
        exact &= *mark == 1;
    }
    exact
}
