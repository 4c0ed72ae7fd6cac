// The lines of a mesh, in their order: the counts, then row by row the samples, a row being those of one face and one b. Each function is lent a plain
// list with room for a line: a struct around it would have to keep the name of its borrow in each contract.
ghost use Rattle.std.specs.Prelude.{◌≡◌, ◌+◌, ◌-◌, ◌≤◌, ◌<◌, length};
ghost use Rattle.answer.specs.Number.{number};
ghost use Rattle.answer.specs.Table.{result as given};
ghost use Rattle.sample.specs.Refusal.{max_steps};
ghost use Rattle.line.specs.Line.{line_length, point_in};
ghost use Rattle.text.specs.Text.{refusal_line, line_places, Printed};
ghost use Rattle.listing.specs.Listing.{line_of, sample_text, handed_count, lines_from};
ghost use Rattle.listing.specs.Place.{index, Placed, LinesPut};

use crate::model::Lines;
use answer::refusal::Refusal;
use line::model::MAX_LINE;
use meshfile::model::Tessellation;
use sample::model::Place;
use text::LINE_PLACES;

// The place of sample i.
fn place_of(n: usize, i: usize) -> Place
    requires { n ≤ max_steps }
    ensures { Placed n result × (index n result ≡ i) }
{
    let m = n + 1;
    let row = i / m;
    Place {
        face: row / m,
        b: row % m,
        a: i % m,
    }
}

// The line of the point at place a of a row, that of p.
fn point_line(points: &[i32], p: Place, a: usize, out: &mut [u8]) -> usize
    requires { (a ≤ max_steps) × (line_length a ≤ length points.now) }
    ensures { Printed (line_of (given (point_in points.now a)) p.face a p.b) out.old out.new result }
{
    let x = points[3 * a];
    let y = points[3 * a + 1];
    let z = points[3 * a + 2];
    text::sample_line(p.face, a, p.b, x, y, z, out)
}

// The lines of the points of a row from p on, as many as have room. Over a range the loop would need the same test, and to break where it fails.
fn point_lines(points: &[i32], n: usize, p: Place, out: &mut [u8]) -> Lines
    requires { Placed n p × (line_length n ≤ length points.now) × (line_places ≤ length out.old) }
    ensures { LinesPut (λ j. line_of (given (point_in points.now (p.a + j))) p.face (p.a + j) p.b) (n + 1 - p.a)
        out.old result out.new }
{
    let mut a = p.a;
    let mut at: usize = 0;
    while a <= n && LINE_PLACES <= out.len() - at {
        at += point_line(points, p, a, &mut out[at..]);
        a += 1;
    }
    Lines {
        count: a - p.a,
        length: at,
    }
}

// The line of a refusal.
pub(crate) fn refused_line(refusal: Refusal, out: &mut [u8]) -> Lines
    requires { line_places ≤ length out.old }
    ensures { LinesPut (λ j. refusal_line (number refusal)) 1 out.old result out.new }
{
    Lines {
        count: 1,
        length: text::refusal_line(u8::from(refusal), out),
    }
}

// The lines of the samples of a row from p on, as many as have room; of a refused row the line of one sample.
fn row_lines(patches: &[i32], n: usize, p: Place, out: &mut [u8]) -> Lines
    requires { Placed n p × (line_places ≤ length out.old) }
    ensures { LinesPut (λ j. sample_text patches.now n p.face p.b (p.a + j)) (n + 1 - p.a)
        out.old result out.new }
{
    let mut points = [0i32; MAX_LINE];
    match line::sample_line(patches, p.face, n, p.b, &mut points) {
        Ok(()) => point_lines(&points, n, p, out),
        Err(refusal) => refused_line(refusal, out),
    }
}

// Lines of an accepted file from `line` on, at least one: that of the counts, or those of a row of samples.
pub(crate) fn mesh_lines(t: Tessellation, patches: &[i32], line: usize, out: &mut [u8]) -> Lines
    requires { (line < handed_count (given t)) × (line_places ≤ length out.old) }
    ensures { LinesPut (lines_from (given t) patches.now line) (handed_count (given t) - line)
        out.old result out.new }
{
    if line == 0 {
        let m = t.mesh;
        return Lines {
            count: 1,
            length: text::counts_line(m.vertices, m.faces, m.edges, m.boundary, out),
        };
    }
    row_lines(patches, t.steps, place_of(t.steps, line - 1), out)
}
