// The numbers that the table of refusals does not have.
ghost use Rattle.std.specs.Prelude.{◌≡◌, false};
ghost use Rattle.answer.specs.Listed.{listed};

// A number that the table of refusals (rule R2) does not have, of a caller's own cause. As it can't be one of the table's, no number tells two refusals.
#[derive(Clone, Copy, Debug, PartialEq, Eq, Hash)]
pub struct Unlisted {
    pub number: u8,
    ghost unlisted: { listed number ≡ false },
}
