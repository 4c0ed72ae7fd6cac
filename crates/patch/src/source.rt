// What the patches are written from.
ghost use Rattle.patch.specs.Written.{patch_lists, Source};

use control::CornerTables;

// The faces, the tables by corner, and by vertex the corner points and whether they are exact. They serve every corner of the faces.
#[derive(Clone, Copy)]
pub(crate) struct PatchSource<'a, 'b> {
    pub(crate) faces: &'a [u16],
    pub(crate) tables: CornerTables<'b>,
    pub(crate) points: &'a [i32],
    pub(crate) flags: &'a [bool],
    ghost serves: { Source (patch_lists faces.now tables.values.now tables.links.now tables.weights.now points.now flags.now) },
}
