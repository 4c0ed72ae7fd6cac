// The points of a line: along the three curves that they share, from one place to the next by differences.
ghost use Rattle.std.specs.Prelude.{◌≡◌, ◌+◌, ◌*◌, ◌/◌, ◌%◌, ◌≤◌, length, set};
ghost use Rattle.integer.specs.Nearest.{nearest};
ghost use Rattle.sample.specs.Refusal.{max_steps};
ghost use Rattle.sample.specs.Blend.{Mean};
ghost use Rattle.finite.specs.Filled.{filled};
ghost use Rattle.line.specs.Line.{line_length};
ghost use Rattle.line.specs.Points.{curve_coordinate, curve_in, Drawable};

use crate::differences::{first_sums, stepped};
use sample::model::Curves;

// A sum along a curve over its divisor, rounded once: no further from 0 than a control value, so it fits.
fn quotient(sum: i64, divisor: u32) -> i32
    requires { Mean sum divisor }
    ensures { result ≡ nearest sum divisor }
{
    let rounded = integer::round(sum, divisor);
    rounded.value as i32
}

// Stores point a of a line: its three coordinates.
fn store_point(line: &mut [i32], a: usize, x: i32, y: i32, z: i32)
    requires { (a ≤ max_steps) × (line_length a ≤ length line.old) }
    ensures { line.new ≡ set (set (set line.old (3 * a) x) (3 * a + 1) y) (3 * a + 2) z }
{
    let at = 3 * a;
    let end = at + 3;
    line[at..end].copy_from_slice(&[x, y, z]);
}

// Writes the points along the three curves, a from 0 to n, three coordinates each. a counts: the list is filled up to place 3a, and the sums are those of a.
// `line.chunks_exact_mut(3).take(n + 1)` is no plainer: its loop has no list but the parts passed, to be joined to the list that the contract speaks of.
pub(crate) fn write_points(curves: Curves, n: usize, line: &mut [i32])
    requires { Drawable curves n line.old }
    ensures { line.new ≡ filled (λ i. curve_coordinate n (curve_in curves (i % 3)) (i / 3)) (line_length n) line.old }
{
    let along_x = curves.x;
    let along_y = curves.y;
    let along_z = curves.z;
    let mut x = first_sums(n, along_x);
    let mut y = first_sums(n, along_y);
    let mut z = first_sums(n, along_z);
    for a in 0..n + 1 {
        let p = quotient(x.value, curves.divisor);
        let q = quotient(y.value, curves.divisor);
        let r = quotient(z.value, curves.divisor);
        store_point(line, a, p, q, r);
        x = stepped(x);
        y = stepped(y);
        z = stepped(z);
    }
}
