// A trial of the mirror call, and of the image that it wrote. Its line goes on
//
//     done          of a mesh that has an image
//     refused N     of a refused one
//
// Then come the three lent lists as they are afterwards: a line `positions` with the two sums of the list and its first 816 places in
// clear, 48 to a line, and a line `tags` and a line `faces` with every place. Where the call is done, a line `check` follows with the
// answer of the mesh check on the image, and a line `image` that goes on as that of a patch trial of it (patch_trial.rt). Every place of
// the lent lists holds 7 before the call.
use crate::mesh_trial::MeshFile;
use crate::patch_trial::PatchHead;
use crate::printing::{print_all, print_answer, print_counts, print_done};
use crate::reading::{Failure, PLACES, Reader, fits};
use crate::sums::print_list;
use mesh::model::MeshLists;
use std::io;

// The head of a mirror trial: the lengths of the lent lists, and the head of the image's patch trial.
#[derive(Clone, Copy)]
struct MirrorHead {
    positions: usize,
    tags: usize,
    indices: usize,
    patch: PatchHead,
}

impl MirrorHead {
    // The head behind its first number; the first number of a patch trial is passed over.
    fn read(file: &mut Reader<'_>) -> Result<MirrorHead, Failure> {
        let positions = file.size()?;
        let tags = file.size()?;
        let indices = file.size()?;
        file.size()?;
        let patch = PatchHead::read(file)?;
        Ok(MirrorHead {
            positions,
            tags,
            indices,
            patch,
        })
    }

    // That each list has room.
    fn fits(&self) -> Result<(), Failure> {
        fits(self.positions, PLACES)?;
        fits(self.tags, PLACES)?;
        fits(self.indices, PLACES)?;
        self.patch.fits()
    }

    // The mesh check and the patch call on an image, with what they gave printed.
    fn show_image(
        &self,
        rt: HostRuntime,
        image: MeshLists<'_>,
        twins: &mut [u16],
    ) -> io::Result<()> {
        print!(rt; "\n check")?;
        print_answer(rt, mesh::check(image, twins), print_counts)?;
        print!(rt; "\n image")?;
        self.patch.show(rt, image, twins)
    }

    // The mirror call on a mesh and the lent lists, with what it gave printed.
    fn show(&self, rt: HostRuntime, mesh: MeshLists<'_>, twins: &mut [u16]) -> io::Result<()> {
        let mut positions = vec![in rt.alloc(); 7i32; self.positions]?;
        let mut tags = vec![in rt.alloc(); 7u8; self.tags]?;
        let mut indices = vec![in rt.alloc(); 7u16; self.indices]?;
        let outcome = edit::mirror(mesh, &mut positions, &mut tags, &mut indices);
        print_answer(rt, outcome, print_done)?;
        let image = MeshLists {
            vertices: mesh.vertices,
            faces: mesh.faces,
            positions: &positions,
            tags: &tags,
            indices: &indices,
        };
        print_lists(rt, image)?;
        if outcome.is_ok() {
            self.show_image(rt, image, twins)?;
        }
        Ok(())
    }
}

// The three lent lists after the call.
fn print_lists(rt: HostRuntime, image: MeshLists<'_>) -> io::Result<()> {
    print!(rt; "\n positions")?;
    print_list(rt, image.positions)?;
    print!(rt; "\n tags")?;
    print_all(rt, image.tags)?;
    print!(rt; "\n faces")?;
    print_all(rt, image.indices)
}

// The trial in a file.
pub(crate) fn run(rt: HostRuntime, file: &mut Reader<'_>) -> Result<(), Failure> {
    let head = MirrorHead::read(file)?;
    let mesh = MeshFile::read(rt.alloc(), file)?;
    mesh.fits()?;
    head.fits()?;
    let mut twins = mesh.lent_twins(rt.alloc())?;
    Ok(head.show(rt, mesh.lists(), &mut twins)?)
}
