// A trial of the mesh check, and the mesh of a trial of the patch call, the mirror call or the tangent call. The line of the mesh check
// goes on
//
//     V F E B twins P Q R S       of an accepted mesh
//     refused N twins P Q R S     of a refused one
//
// P to S are the lent twins as they are afterwards, at the places 0, 4F - 1, 4F and the last; `-` is a place that the list does not
// have. Every place of the list holds 7 before the call.
use crate::printing::{print_answer, print_counts};
use crate::reading::{Failure, PLACES, Reader, fits};
use mesh::model::MeshLists;
use std::alloc::{AllocError, Global};
use std::io;

// A mesh as a file has it, and the length of the list that is lent for its twins.
#[derive(Drop)]
pub(crate) struct MeshFile<'a> {
    vertices: u16,
    faces: u16,
    positions: Vec<i32>,
    tags: &'a [u8],
    indices: Vec<u16>,
    twins: usize,
}

impl<'a> MeshFile<'a> {
    // The mesh of a file, which ends with it.
    pub(crate) fn read(alloc: Global, file: &mut Reader<'a>) -> Result<MeshFile<'a>, Failure> {
        let vertices = file.number()?;
        let faces = file.number()?;
        let positions = file.size()?;
        let tags = file.size()?;
        let indices = file.size()?;
        let twins = file.size()?;
        let mesh = MeshFile {
            vertices,
            faces,
            positions: file.list(alloc, positions)?,
            tags: file.bytes(tags)?,
            indices: file.list(alloc, indices)?,
            twins,
        };
        file.end()?;
        Ok(mesh)
    }

    // That each list has room.
    pub(crate) fn fits(&self) -> Result<(), Failure> {
        fits(self.positions.len(), PLACES)?;
        fits(self.indices.len(), PLACES)?;
        fits(self.twins, PLACES)
    }

    // The mesh as the calls take it.
    pub(crate) fn lists(&self) -> MeshLists<'_> {
        MeshLists {
            vertices: usize::from(self.vertices),
            faces: usize::from(self.faces),
            positions: self.positions.as_slice(),
            tags: self.tags,
            indices: self.indices.as_slice(),
        }
    }

    // The list for the twins.
    pub(crate) fn lent_twins(&self, alloc: Global) -> Result<Vec<u16>, AllocError> {
        Ok(vec![in alloc; 7u16; self.twins]?)
    }
}

// The twins at the places 0, n - 1, n and the last; what is before place 0 is no place.
fn print_twins(rt: HostRuntime, twins: &[u16], n: usize) -> io::Result<()> {
    print!(rt; " twins")?;
    for at in [
        Some(0),
        n.checked_sub(1),
        Some(n),
        twins.len().checked_sub(1),
    ] {
        match at.and_then(|at| twins.get(at)) {
            Some(twin) => print!(rt; " {twin}")?,
            None => print!(rt; " -")?,
        }
    }
    Ok(())
}

// The trial in a file.
pub(crate) fn run(rt: HostRuntime, file: &mut Reader<'_>) -> Result<(), Failure> {
    let mesh = MeshFile::read(rt.alloc(), file)?;
    mesh.fits()?;
    let mut twins = mesh.lent_twins(rt.alloc())?;
    print_answer(rt, mesh::check(mesh.lists(), &mut twins), print_counts)?;
    Ok(print_twins(rt, &twins, 4 * usize::from(mesh.faces))?)
}
