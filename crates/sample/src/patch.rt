// The numbers of one patch.
ghost use Rattle.sample.specs.Blend.{SmallPatch};

// The 48 numbers of a patch, x, y and z of each control point, none beyond the limit of a control value.
#[derive(Clone, Copy)]
pub(crate) struct Patch<'a> {
    pub(crate) numbers: &'a [i32],
    ghost small: { SmallPatch numbers.now },
}
