// The six tangent vectors of a side, of one coordinate, from the numbers that they are made of.
ghost use Rattle.std.specs.Prelude.{◌≡◌, ◌≤◌, ◌^◌, nat_abs};
ghost use Rattle.tangent.specs.Vector.{triple_difference, first_term, corrected as corrected_by};
ghost use Rattle.tangent.specs.Lists.{vector_kind_of, vector_of, SideSized, TermSized, IntoSized};

// The six vectors of a side.
#[derive(Clone, Copy, Debug, PartialEq, Eq)]
pub(crate) enum VectorKind {
    Start,
    Middle,
    End,
    Inner,
    StartIn,
    EndIn,
}

// One coordinate of a side: the corner vectors along it, its edge points and the inner points behind them, and the cosines at its ends.
#[derive(Clone, Copy)]
pub(crate) struct Side {
    pub(crate) start: i64,
    pub(crate) end: i64,
    pub(crate) near: i64,
    pub(crate) far: i64,
    pub(crate) inner_near: i64,
    pub(crate) inner_far: i64,
    pub(crate) start_cosine: i32,
    pub(crate) end_cosine: i32,
}

// The divisor of a corrected vector: three times the cosine 1 as it is stored, 3 * 2^20.
const DIVISOR: u32 = 3_145_728;

// Three times the difference of two control values.
fn triple_difference(y: i64, z: i64) -> i64
    requires { (nat_abs y ≤ 2 ^ 35) × (nat_abs z ≤ 2 ^ 35) }
    ensures { (result ≡ triple_difference y z) × (nat_abs result ≤ 2 ^ 38) }
{
    3 * (y - z)
}

// The cosine term near an end of a side, times 3 * 2^20.
fn cosine_term(k0: i32, k1: i32, u0: i64, u1: i64) -> i64
    requires { TermSized k0 k1 u0 u1 }
    ensures { (result ≡ first_term k0 k1 u0 u1) × (nat_abs result ≤ 2 ^ 60) }
{
    2 * i64::from(k0) * u1 - i64::from(k1) * u0
}

// The vector with this cosine term and this difference, rounded once.
fn corrected(term: i64, x: i64) -> i64
    requires { (nat_abs term ≤ 2 ^ 60) × (nat_abs x ≤ 2 ^ 38) }
    ensures { (result ≡ corrected_by term x) × (nat_abs result ≤ 2 ^ 61) }
{
    integer::round(term + i64::from(DIVISOR) * x, DIVISOR).value
}

// The vector into the face near an end of a side: the cosines there and at the other end, the corner vector there, the edge points near that end
// and near the other, and the inner point near it.
fn into(k0: i32, k1: i32, u0: i64, near: i64, far: i64, inner: i64) -> i64
    requires { IntoSized k0 k1 u0 near far inner }
    ensures { (result ≡ corrected_by (first_term k0 k1 u0 (triple_difference far near)) (triple_difference inner near)) × (nat_abs result ≤ 2 ^ 61) }
{
    let term = cosine_term(k0, k1, u0, triple_difference(far, near));
    corrected(term, triple_difference(inner, near))
}

// A vector of the side. Seen from its other end, the side has its two ends exchanged, and what runs along it reversed.
pub(crate) fn vector(a: Side, kind: VectorKind) -> i64
    requires { SideSized a }
    ensures { (result ≡ vector_of a (vector_kind_of kind)) × (nat_abs result ≤ 2 ^ 61) }
{
    match kind {
        VectorKind::Start => a.start,
        VectorKind::Middle => triple_difference(a.far, a.near),
        VectorKind::End => a.end,
        VectorKind::Inner => triple_difference(a.inner_far, a.inner_near),
        VectorKind::StartIn => into(
            a.start_cosine,
            a.end_cosine,
            a.start,
            a.near,
            a.far,
            a.inner_near,
        ),
        VectorKind::EndIn => into(
            a.end_cosine,
            a.start_cosine,
            -a.end,
            a.far,
            a.near,
            a.inner_far,
        ),
    }
}
