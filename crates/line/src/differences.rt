// Sums along a curve, from one place to the next by their differences: a cubic has a third difference that never changes.
ghost use Rattle.std.specs.Prelude.{◌≡◌, pos, ◌+ℤ◌, ◌*ℤ◌, get_or};
ghost use Rattle.sample.specs.Blend.{Addable, Fine};
ghost use Rattle.line.specs.Differences.{Summable, Tame, differences_at, next_of, cubic};

use crate::model::Differences;

// One term more of a sum. `sample` has the same: it asks that nothing overflows, as no public function may.
fn add_product(sum: i64, weight: u32, value: i64) -> i64
    requires { Addable sum weight value }
    ensures { result ≡ sum +ℤ pos weight *ℤ value }
{
    sum + i64::from(weight) * value
}

// The first of four values, and its three differences.
fn differences(values: [i64; 4]) -> Differences
    requires { Fine values }
    ensures { result ≡ differences_at (λ i. get_or values i (pos 0)) 0 }
{
    let value = values[0];
    let next = values[1];
    let first = next - value;
    let later = values[2] - next;
    Differences {
        value,
        first,
        second: later - first,
        third: values[3] - value - 3 * later,
    }
}

// The sum along a curve at a = 0, and its three differences. The second is doubled as a whole: where the third is the last to be added to it, the
// compiler takes that sum into the loop over a line, and works out the curve a second time for its start.
pub(crate) fn first_sums(n: usize, curve: [i64; 4]) -> Differences
    requires { Summable n curve }
    ensures { result ≡ differences_at (cubic n (λ i. get_or curve i (pos 0))) 0 }
{
    let m = n as u32;
    let d = differences(curve);
    let half = add_product(0, 3 * m, d.second);
    let first = add_product(half + d.third, 3 * m * m, d.first);
    Differences {
        value: add_product(0, m * m * m, d.value),
        first,
        second: add_product(0, 2, half + 3 * d.third),
        third: add_product(0, 6, d.third),
    }
}

// A value and its three differences, one place further.
pub(crate) fn stepped(d: Differences) -> Differences
    requires { Tame d }
    ensures { result ≡ next_of d }
{
    Differences {
        value: d.value + d.first,
        first: d.first + d.second,
        second: d.second + d.third,
        third: d.third,
    }
}
