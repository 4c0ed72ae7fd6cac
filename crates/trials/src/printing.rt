// The parts of a trial's line, on standard output.
ghost use Rattle.std.specs.Prelude.{◌<◌};

use answer::refusal::Refusal;
use limits::model::Mesh;
use sample::model::{MarkedPoint, Micrometres, Point};
use std::fmt::Display;
use std::io;

// What `show` prints of a call's answer, or the number of the refusal.
pub(crate) fn print_answer<T, F: FnOnce(HostRuntime, T) -> io::Result<()>>(
    rt: HostRuntime,
    answer: Result<T, Refusal>,
    show: F,
) -> io::Result<()>
    requires { F.IsAlwaysCallable show }
{
    match answer {
        Ok(value) => show(rt, value),
        Err(refusal) => {
            let number = u8::from(refusal);
            print!(rt; " refused {number}")
        }
    }
}

// That a call that has no result is done.
pub(crate) fn print_done(rt: HostRuntime, _done: ()) -> io::Result<()> {
    print!(rt; " done")
}

// The four counts of an accepted mesh.
pub(crate) fn print_counts(rt: HostRuntime, mesh: Mesh) -> io::Result<()> {
    let Mesh {
        vertices,
        faces,
        edges,
        boundary,
    } = mesh;
    print!(rt; " {vertices} {faces} {edges} {boundary}")
}

// The three coordinates of a point.
pub(crate) fn print_point(rt: HostRuntime, point: Point) -> io::Result<()> {
    let Point { x, y, z } = point;
    print!(rt; " {x} {y} {z}")
}

// The three coordinates of a point and its mark, 1 for exact.
pub(crate) fn print_marked(rt: HostRuntime, marked: MarkedPoint) -> io::Result<()> {
    print_point(rt, marked.point)?;
    let mark = u8::from(marked.exact);
    print!(rt; " mark {mark}")
}

// A blank and a double, as the sixteen hexadecimal digits of its bits; `nan` for what is no number.
fn print_double(rt: HostRuntime, x: f64) -> io::Result<()> {
    if x.is_nan() {
        return print!(rt; " nan");
    }
    let bits = x.to_bits();
    print!(rt; " {bits:016x}")
}

// The three doubles of a reading.
pub(crate) fn print_micrometres(rt: HostRuntime, reading: Micrometres) -> io::Result<()> {
    print_double(rt, reading.x)?;
    print_double(rt, reading.y)?;
    print_double(rt, reading.z)
}

// The numbers of a list.
pub(crate) fn print_all<T: Display>(rt: HostRuntime, list: &[T]) -> io::Result<()> {
    for number in list {
        print!(rt; " {number}")?;
    }
    Ok(())
}

// The numbers of a list, so many to a line.
pub(crate) fn print_lines<T: Display>(
    rt: HostRuntime,
    list: &[T],
    per_line: usize,
) -> io::Result<()>
    requires { 0 < per_line }
{
    for line in list.chunks(per_line) {
        print!(rt; "\n")?;
        print_all(rt, line)?;
    }
    Ok(())
}
