// The generator of the weights: each by its rule, from the cosines.
ghost use Rattle.std.specs.Prelude.{◌≡◌, true, ◌+◌, ◌*◌, ◌≤◌, ◌^◌, pos, nat_abs, ℕ, ℤ, ◌+ℤ◌, ◌-ℤ◌, ◌*ℤ◌};
ghost use Rattle.integer.specs.Nearest.{nearest};
ghost use Rattle.cosine.specs.Generator.{FactorsOf};
ghost use Rattle.cosine.specs.Cosine.{scale, cosine as cosine_of};
ghost use Rattle.cosine.specs.Weight.{chain, multiple_cosine, hypotenuse as hypotenuse_of, weighed, edge_numerator, face_numerator, weight_by, weights_by};

use crate::root::root;
use crate::{LEAST_FACES, ONE, PLACES, TABLE_LENGTH, cosine, place};

// The square of twice that, 2^42.
const TWICE_SQUARED: u64 = 4_398_046_511_104;

// A numerator of the weights, as two factors.
#[derive(Clone, Copy)]
pub(crate) struct Numerator {
    pub(crate) factor: i64,
    pub(crate) value: i64,
}

// A rule of the weights: the numerator of each.
pub(crate) trait Rule {
    ghost numerator: { ℕ → ℕ → ℤ };

    // The numerator of the weight of n and i.
    fn factors(n: usize, i: usize) -> Numerator
        requires { weighed n i ≡ true }
        ensures { FactorsOf (numerator n i) result };
}

// The rule of the far ends of the edges.
pub(crate) struct EdgeRule;

// The rule of the vertices across the faces.
pub(crate) struct FaceRule;

impl Rule for EdgeRule {
    ghost numerator = { edge_numerator };

    // (R + H) C(n, i).
    fn factors(n: usize, i: usize) -> Numerator {
        Numerator {
            factor: hypotenuse(n) as i64 + wide_cosine(2 * n),
            value: multiple_cosine(n, i),
        }
    }
}

impl Rule for FaceRule {
    ghost numerator = { face_numerator };

    // 2^20 C(2n, 2i + 1).
    fn factors(n: usize, i: usize) -> Numerator {
        Numerator {
            factor: i64::from(ONE),
            value: multiple_cosine(2 * n, 2 * i + 1),
        }
    }
}

// c(m) with 64 bits.
fn wide_cosine(m: usize) -> i64
    ensures { result ≡ cosine_of m }
{
    i64::from(cosine(m))
}

// The next number of the recurrence, from the two before it.
fn following(c: i64, last: i64, before: i64) -> i64
    requires { (nat_abs c ≤ 2 ^ 20) × (nat_abs last ≤ 2 ^ 21) × (nat_abs before ≤ 2 ^ 21) }
    ensures { result ≡ nearest (pos 2 *ℤ c *ℤ last) scale -ℤ before }
{
    integer::round(2 * c * last, ONE).value - before
}

// Number j of the recurrence for m.
fn chained(m: usize, j: usize) -> i64
    requires { (m ≤ 32) × (j ≤ 16) }
    ensures { result ≡ chain (cosine_of m) j }
{
    let c = wide_cosine(m);
    let mut a = i64::from(ONE);
    let mut b = c;
    for _ in 0..j {
        (a, b) = (b, following(c, b, a));
    }
    a
}

// C(m, i).
fn multiple_cosine(m: usize, i: usize) -> i64
    requires { (m ≤ 32) × (i ≤ m) }
    ensures { result ≡ multiple_cosine m i }
{
    chained(m, i.min(m - i))
}

// R for n faces: the hypotenuse over twice the cosine 1 and H.
fn hypotenuse(n: usize) -> u64
    requires { n ≤ 16 }
    ensures { result ≡ hypotenuse_of n }
{
    let h = integer::magnitude(wide_cosine(2 * n));
    root(TWICE_SQUARED + h * h)
}

// The weight of n and i by a rule, rounded once; 0 where there is none.
fn weight_by<R: Rule>(n: usize, i: usize) -> i32
    ensures { result ≡ weight_by R.numerator n i }
{
    if place(n, i).is_none() {
        return 0;
    }
    let numerator = R::factors(n, i);
    let divisor = n as u64 * hypotenuse(n);
    integer::round(numerator.factor * numerator.value, divisor as u32).value as i32
}

// All weights by a rule, each at its place.
pub(crate) fn weights_by<R: Rule>() -> [i32; TABLE_LENGTH]
    ensures { result ≡ weights_by R.numerator }
{
    std::array::from_fn(|k| weight_by::<R>(LEAST_FACES + k / PLACES, k % PLACES))
}
