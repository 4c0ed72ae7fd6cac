// A trial of the tangent call. Its line goes on
//
//     done          of a face that has tangents
//     refused N     where the mesh, the face or the list is refused
//
// Then comes the lent list as it is afterwards: a line `tangents` with its two sums, and every place in clear, 36 to a line: the vectors of
// u, and those of v. Where the call is done, a line `face` follows for every face of the mesh, with the answer of the call for that face
// and a list of 72 places, and the two sums of this list. Every place of a lent list holds 7 before the call.
use crate::mesh_trial::MeshFile;
use crate::printing::{print_answer, print_done, print_lines};
use crate::reading::{Failure, PLACES, Reader, fits};
use crate::sums::Sums;
use mesh::model::MeshLists;
use std::io;

// The numbers to a line.
const LINE: usize = 36;

// The call for one face of a mesh, with its answer and the sums of what it wrote.
fn print_face(rt: HostRuntime, mesh: MeshLists<'_>, face: usize) -> io::Result<()> {
    let mut tangents = [7i64; 72];
    print!(rt; "\n face")?;
    print_answer(rt, tangent::tangents(mesh, face, &mut tangents), print_done)?;
    let sums = Sums::of(&tangents);
    print!(rt; " {sums}")
}

// The call for a face and a lent list, and then for every face, with what they gave printed.
fn show(rt: HostRuntime, mesh: MeshLists<'_>, face: usize, tangents: &mut [i64]) -> io::Result<()> {
    let outcome = tangent::tangents(mesh, face, tangents);
    print_answer(rt, outcome, print_done)?;
    let sums = Sums::of(tangents);
    print!(rt; "\n tangents {sums}")?;
    print_lines(rt, tangents, LINE)?;
    if outcome.is_ok() {
        for other in 0..mesh.faces {
            print_face(rt, mesh, other)?;
        }
    }
    Ok(())
}

// The trial in a file.
pub(crate) fn run(rt: HostRuntime, file: &mut Reader<'_>) -> Result<(), Failure> {
    let face = file.number()?;
    let places = file.size()?;
    let mesh = MeshFile::read(rt.alloc(), file)?;
    mesh.fits()?;
    fits(places, PLACES)?;
    let mut tangents = vec![in rt.alloc(); 7i64; places]?;
    Ok(show(rt, mesh.lists(), face, &mut tangents)?)
}
