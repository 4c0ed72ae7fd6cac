// The causes to refuse a sample: 12, 13 and 14.
ghost use Rattle.std.specs.Prelude.{◌≡◌, ltb, nat_abs};
ghost use Rattle.std.specs.List.{list_any};
ghost use Rattle.answer.specs.Table.{first_met, refused};
ghost use Rattle.sample.specs.Refusal.{max_control, place_off, sample_rows};

use crate::model::{MAX_CONTROL, MAX_STEPS, MIN_STEPS, Place};
use answer::refusal::Refusal;
use answer::refuse;

// Cause 13, for the numbers of one patch. No early way out, so that the compiler tests several numbers at a time.
fn any_control_off(patch: &[i32]) -> bool
    ensures { result ≡ list_any (λ x. ltb max_control (nat_abs x)) patch.now }
{
    let mut off = false;
    for x in patch {
        off |= integer::beyond(*x, MAX_CONTROL);
    }
    off
}

// Cause 14. No early way out: the definition, test by test.
fn place_off(n: usize, a: usize, b: usize) -> bool
    ensures { result ≡ place_off n a b }
{
    (n < MIN_STEPS) | ((MAX_STEPS < n) | ((n < a) | (n < b)))
}

// The causes of a sample at a place, for N = n, a row each.
pub(crate) fn check_place(patches: &[i32], n: usize, place: Place) -> Result<(), Refusal>
    ensures { refused result ≡ first_met (sample_rows patches.now place.face n place.a place.b) }
{
    let f = place.face;
    refuse(patches.len() / 48 <= f, Refusal::NoFace)?;
    let at = 48 * f;
    let end = at + 48;
    refuse(any_control_off(&patches[at..end]), Refusal::Control)?;
    refuse(place_off(n, place.a, place.b), Refusal::Steps)
}
