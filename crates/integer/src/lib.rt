//! Rounding of a quotient to a whole number, ties to even, with what it leaves. The laws of whole numbers stand in `proofs/`.
#![tactic(auto)]

pub mod model;

ghost use Rattle.std.specs.Prelude.{◌≡◌, cond, ◌≤◌, ◌<◌, ◌^◌, ltb, pos, neg_ℤ, nat_abs, ◌-ℤ◌, ◌*ℤ◌};
ghost use Rattle.integer.specs.Nearest.{nearest_ℕ, nearest, remainder, whole};

use crate::model::Rounded;

// Returns the magnitude of `num`, for every `num`: the smallest one has a magnitude, though no negation. It stays beside the library's `unsigned_abs`, since the
// table of calls of docs/SPECIFICATION.md names it; rounding goes through it, so that the edits smallest and magnitude-one-less are wrong of rounding too.
pub fn magnitude(num: i64) -> u64
    ensures { result ≡ nat_abs num }
{
    num.unsigned_abs()
}

// `size / den` rounded. An even quotient goes up where twice the rest is above `den`, an odd one also where it is equal.
fn round_magnitude(size: u64, den: u32) -> u64
    ensures { result ≡ nearest_ℕ size den }
{
    if den == 0 {
        return 0;
    }
    let d = u64::from(den);
    let quotient = size / d;
    if d < 2 * (size % d) + quotient % 2 {
        quotient + 1
    } else {
        quotient
    }
}

// The negation of `size`, which may be the magnitude of the smallest number: 2^63, which no `i64` holds, so `with_sign` can't serve here.
fn negated(size: u64) -> i64
    requires { size ≤ 2 ^ 63 }
    ensures { result ≡ neg_ℤ (pos size) }
{
    if size == 0 {
        0
    } else {
        -1 - ((size - 1) as i64)
    }
}

// `num / den` rounded.
fn quotient(num: i64, den: u32) -> i64
    ensures { result ≡ nearest num den }
{
    let size = round_magnitude(magnitude(num), den);
    if num < 0 { negated(size) } else { size as i64 }
}

// What rounding `size / den` leaves: the rest of the division, less `den` where the quotient went up.
fn rest_of_magnitude(size: u64, den: u32) -> i64
    requires { 0 < den }
    ensures { result ≡ pos size -ℤ pos (nearest_ℕ size den) *ℤ pos den }
{
    let d = u64::from(den);
    let rest = size % d;
    if d < 2 * rest + size / d % 2 {
        rest as i64 - d as i64
    } else {
        rest as i64
    }
}

// A number, or its negation.
fn with_sign(negative: bool, x: i64) -> i64
    requires { nat_abs x ≤ 2 ^ 32 }
    ensures { result ≡ cond negative (neg_ℤ x) x }
{
    if negative { -x } else { x }
}

// What rounding `num / den` leaves: `num` itself for a divisor 0.
fn rest(num: i64, den: u32) -> i64
    ensures { result ≡ remainder num den }
{
    if 0 < den {
        return with_sign(num < 0, rest_of_magnitude(magnitude(num), den));
    }
    num
}

// Whether rounding `num / den` leaves nothing: `den` divides `num`; for a divisor 0, `num` is 0. Told from the division itself, so that a caller who asks
// no more is spared the work on the rest.
fn is_whole(num: i64, den: u32) -> bool
    ensures { result ≡ whole num den }
{
    let size = magnitude(num);
    if 0 < den {
        return size % u64::from(den) == 0;
    }
    size == 0
}

// Returns `num / den` as a whole number, rounded once with ties to even, and `num` less that number times `den`, for every `num`, with whether this is 0;
// 0 and `num` for a divisor 0.
pub fn round(num: i64, den: u32) -> Rounded
    ensures { (result.value ≡ nearest num den) × (result.rest ≡ remainder num den) × (result.exact ≡ whole num den) }
{
    Rounded {
        value: quotient(num, den),
        rest: rest(num, den),
        exact: is_whole(num, den),
    }
}

// Returns whether the magnitude of `x` is above `limit`.
pub fn beyond(x: i32, limit: u32) -> bool
    ensures { result ≡ ltb limit (nat_abs x) }
{
    limit < x.unsigned_abs()
}
