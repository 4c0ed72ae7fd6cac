// The sample of one patch at one place: blended along v, then along u, exactly, and rounded once.
ghost use Rattle.std.specs.Prelude.{◌≡◌, ◌+◌, ◌*◌, ◌^◌, ◌≤◌, ◌<◌, pos, ◌+ℤ◌, ◌*ℤ◌, get_or};
ghost use Rattle.integer.specs.Nearest.{nearest, whole};
ghost use Rattle.finite.specs.Fold.{all_below};
ghost use Rattle.finite.specs.Filled.{list_below};
ghost use Rattle.sample.specs.Bernstein.{bernstein, numerator, rounded};
ghost use Rattle.sample.specs.Refusal.{max_steps};
ghost use Rattle.sample.specs.Blend.{control_of, AtStep, Addable, LightWeights, Blendable, ForCurve, Mean, blended, blended_twice, curve_of};

use crate::model::{Coordinate, Curves, MarkedPoint, Point};
use crate::patch::Patch;

// The weights of place a.
fn weights(n: usize, a: usize) -> [u32; 4]
    requires { AtStep n a }
    ensures { result ≡ list_below (bernstein n a) 4 }
{
    let s = a as u32;
    let t = (n - a) as u32;
    [t * t * t, 3 * s * t * t, 3 * s * s * t, s * s * s]
}

// N^6.
fn divisor(n: usize) -> u32
    requires { n ≤ max_steps }
    ensures { result ≡ n ^ 6 }
{
    let m = n as u32;
    let cube = m * m * m;
    cube * cube
}

// One term more of a sum. `line` has the same: it asks that nothing overflows, as no public function may.
fn add_product(sum: i64, weight: u32, value: i64) -> i64
    requires { Addable sum weight value }
    ensures { result ≡ sum +ℤ pos weight *ℤ value }
{
    sum + i64::from(weight) * value
}

// Four values, each times its weight, added. Two lists of four are read side by side: a zip says no more, and hides that there are four.
fn blend(weights: [u32; 4], values: [i64; 4]) -> i64
    requires { Blendable weights values }
    ensures { result ≡ blended weights (λ i. get_or values i (pos 0)) }
{
    let mut sum: i64 = 0;
    for i in 0..4 {
        sum = add_product(sum, weights[i], values[i]);
    }
    sum
}

// A sum of control values over the sum of their weights, rounded once: no further from 0 than a control value, so it fits.
fn rounded_quotient(sum: i64, divisor: u32) -> Coordinate
    requires { Mean sum divisor }
    ensures { result ≡ record { value = nearest sum divisor; exact = whole sum divisor } }
{
    let quotient = integer::round(sum, divisor);
    Coordinate {
        value: quotient.value as i32,
        exact: quotient.exact,
    }
}

impl Patch<'_> {
    // Coordinate k of control point m.
    fn control(self, k: usize, m: usize) -> i64
        requires { (k < 3) × (m < 16) }
        ensures { result ≡ control_of self.entry.numbers.now k m }
    {
        i64::from(self.numbers[3 * m + k])
    }

    // The control values of coordinate k at one i, along v.
    fn column(self, k: usize, i: usize) -> [i64; 4]
        requires { (k < 3) × (i < 4) }
        ensures { result ≡ list_below (λ j. control_of self.entry.numbers.now k (i + 4 * j)) 4 }
    {
        [
            self.control(k, i),
            self.control(k, i + 4),
            self.control(k, i + 8),
            self.control(k, i + 12),
        ]
    }

    // The control values of coordinate k, blended along v: a curve along u that all samples with one b share.
    fn curve(self, k: usize, v: [u32; 4]) -> [i64; 4]
        requires { ForCurve k v }
        ensures { result ≡ list_below (λ i. blended v (λ j. control_of self.entry.numbers.now k (i + 4 * j))) 4 }
    {
        [
            blend(v, self.column(k, 0)),
            blend(v, self.column(k, 1)),
            blend(v, self.column(k, 2)),
            blend(v, self.column(k, 3)),
        ]
    }

    // The curves of all three coordinates at b.
    pub(crate) fn curves(self, n: usize, b: usize) -> Curves
        requires { AtStep n b }
        ensures { result ≡ record {
          divisor = n ^ 6;
          x = curve_of self.entry.numbers.now n b 0;
          y = curve_of self.entry.numbers.now n b 1;
          z = curve_of self.entry.numbers.now n b 2;
        } }
    {
        let v = weights(n, b);
        let x = self.curve(0, v);
        let y = self.curve(1, v);
        let z = self.curve(2, v);
        Curves {
            divisor: divisor(n),
            x,
            y,
            z,
        }
    }

    // What coordinate k of the sample is divided from: blended along v, then along u.
    fn coordinate_sum(self, k: usize, u: [u32; 4], v: [u32; 4]) -> i64
        requires { LightWeights u × ForCurve k v }
        ensures { result ≡ blended_twice u v (control_of self.entry.numbers.now k) }
    {
        blend(u, self.curve(k, v))
    }

    // The point of the patch at (a, b), exact where the division left nothing in any coordinate.
    pub(crate) fn point(self, n: usize, a: usize, b: usize) -> MarkedPoint
        requires { AtStep n a × AtStep n b }
        ensures { result ≡ record {
          point = record {
            x = rounded n a b (control_of self.entry.numbers.now 0);
            y = rounded n a b (control_of self.entry.numbers.now 1);
            z = rounded n a b (control_of self.entry.numbers.now 2);
          };
          exact = all_below (λ k. whole (numerator n a b (control_of self.entry.numbers.now k)) (n ^ 6)) 3;
        } }
    {
        let u = weights(n, a);
        let v = weights(n, b);
        let over = divisor(n);
        let x = rounded_quotient(self.coordinate_sum(0, u, v), over);
        let y = rounded_quotient(self.coordinate_sum(1, u, v), over);
        let z = rounded_quotient(self.coordinate_sum(2, u, v), over);
        MarkedPoint {
            point: Point {
                x: x.value,
                y: y.value,
                z: z.value,
            },
            exact: x.exact & y.exact & z.exact,
        }
    }
}
