// A trial of the cosines and of the weights of the tangents. Its first printed line goes on with c(n). Then come the printed lines
//
//     edge A..               A(n, i) for each i from 0 to 16, and for each further i that the file names
//     face B..               B(n, i) for the same
//     table edge A..         the sixteen places of n in the list of edges of the constant table, or `-` where n has none
//     table face B..         those in its list of faces
//     generated edge A..     those in the generator's list of edges
//     generated face B..     those in its list of faces
use crate::printing::print_all;
use crate::reading::{Failure, Reader};
use cosine::model::Weights;
use std::io;

// The places that are tried of every n.
const NEAR: usize = 17;

// The places of each n in a list of weights.
const ROW: usize = 16;

// The weights at the first places, and at those that the file names.
fn print_weights<F: Fn(usize) -> i32>(rt: HostRuntime, far: &[usize], weight: F) -> io::Result<()>
    requires { F.IsAlwaysCallable weight }
{
    for i in (0..NEAR).chain(far.iter().copied()) {
        let number = weight(i);
        print!(rt; " {number}")?;
    }
    Ok(())
}

// The numbers of a list for n, or `-` where it has none.
fn print_row(rt: HostRuntime, list: &[i32], n: usize) -> io::Result<()> {
    match n.checked_sub(3).and_then(|at| list.chunks(ROW).nth(at)) {
        Some(row) => print_all(rt, row),
        None => print!(rt; " -"),
    }
}

// The numbers of both lists for n, each after the word for where they come from and the one for its kind.
fn print_lists(rt: HostRuntime, word: &str, weights: Weights, n: usize) -> io::Result<()> {
    print!(rt; "\n {word} edge")?;
    print_row(rt, &weights.edge, n)?;
    print!(rt; "\n {word} face")?;
    print_row(rt, &weights.face, n)
}

// The calls with n and the places, and what they gave printed.
fn show(rt: HostRuntime, n: usize, far: &[usize]) -> io::Result<()> {
    let cosine = cosine::cosine(n);
    print!(rt; " {cosine}\n edge")?;
    print_weights(rt, far, |i| cosine::edge_weight(n, i))?;
    print!(rt; "\n face")?;
    print_weights(rt, far, |i| cosine::face_weight(n, i))?;
    print_lists(rt, "table", cosine::weights(), n)?;
    print_lists(rt, "generated", cosine::generated_weights(), n)
}

// The trial in a file.
pub(crate) fn run(rt: HostRuntime, file: &mut Reader<'_>) -> Result<(), Failure> {
    let n = file.number()?;
    let far = file.list(rt.alloc(), file.left() / 8)?;
    file.end()?;
    Ok(show(rt, n, &far)?)
}
