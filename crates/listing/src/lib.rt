//! The whole text of a file, handed out in stretches of lines: pure, so that what is printed is proved up to the write call.
#![tactic(auto)]

pub mod model;
mod samples;

ghost use Rattle.std.specs.Prelude.{◌≡◌, ◌-◌, ◌≤◌, ◌<◌, length};
ghost use Rattle.answer.specs.Table.{result as given, answered};
ghost use Rattle.text.specs.Text.{line_places};
ghost use Rattle.listing.specs.Listing.{handed_count, lines_from, Stretched};
ghost use Rattle.listing.specs.Place.{LinesPut};

use crate::model::{Lines, Stretch};
use crate::samples::{mesh_lines, refused_line};
use answer::refusal::Refusal;
use limits::model::Mesh;
use meshfile::model::Tessellation;
use sample::model::MAX_STEPS;
use text::LINE_PLACES;

// How many lines of an accepted file are handed out: all; where F or N is above its limit, the line of counts alone.
fn mesh_count(t: Tessellation) -> usize
    ensures { result ≡ handed_count (given t) }
{
    let m = t.mesh;
    let n = t.steps;
    if m.faces <= Mesh::MAX_FACES && n <= MAX_STEPS {
        1 + m.faces * (n + 1) * (n + 1)
    } else {
        1
    }
}

// How many lines of the text of a file are handed out, from the answer of opening it.
// Returns: 1 + F (N + 1)^2, or 1 of a refused file; also 1, for the counts, where F or N is above its limit, as in no answer of opening a file.
// Writes, refuses: nothing.
pub fn line_count(answer: Result<Tessellation, Refusal>) -> usize
    ensures { result ≡ handed_count (answered answer) }
{
    match answer {
        Ok(t) => mesh_count(t),
        Err(_) => 1,
    }
}

// Lines of the text from `line` on, at least one: that of a refusal, or lines of a mesh.
fn next_lines(
    answer: Result<Tessellation, Refusal>,
    patches: &[i32],
    line: usize,
    out: &mut [u8],
) -> Lines
    requires { (line < handed_count (answered answer)) × (line_places ≤ length out.old) }
    ensures { LinesPut (lines_from (answered answer) patches.now line) (handed_count (answered answer) - line)
        out.old result out.new }
{
    match answer {
        Ok(t) => mesh_lines(t, patches, line, out),
        Err(refusal) => refused_line(refusal, out),
    }
}

// The next stretch of the text of a file, from the answer of opening it and the patch list that this left.
// Returns: the number of the line that comes next, and how many bytes were written. At its end no line is left and no byte is written.
// Writes: whole lines from `line` on to the front of out, each as long as a line is left and 128 places are left behind the lines before it.
// Leaves alone: the other places of out. Refuses: nothing; out with fewer than 128 places gets no line.
// A `while`, since two counts move by different steps and the loop ends where a line has no room.
pub fn stretch(
    answer: Result<Tessellation, Refusal>,
    patches: &[i32],
    line: usize,
    out: &mut [u8],
) -> Stretch
    ensures { Stretched (answered answer) patches.now line out.old result out.new }
{
    let lines = line_count(answer);
    let mut to = line;
    let mut at: usize = 0;
    while to < lines && LINE_PLACES <= out.len() - at {
        let more = next_lines(answer, patches, to, &mut out[at..]);
        at += more.length;
        to += more.count;
    }
    Stretch {
        line: to,
        length: at,
    }
}
