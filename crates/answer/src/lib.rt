//! Tables of causes to refuse and the answers of calls: definitions (specs/) with their laws (proofs/), the refusals by name, and the row by row checking
//! of a table.
#![tactic(auto)]

pub mod refusal;
pub mod unlisted;

ghost use Rattle.std.specs.Prelude.{◌≡◌};
ghost use Rattle.answer.specs.Table.{met_or, refuse_by};

use crate::refusal::Refusal;

// One row of a table: the refusal where its cause is met. Rows stand one below the other, each with a `?`.
// Writes: nothing. Refuses: nothing.
pub fn refuse(cause: bool, refusal: Refusal) -> Result<(), Refusal>
    ensures { result ≡ refuse_by cause refusal }
{
    if cause { Err(refusal) } else { Ok(()) }
}

// The first refusal that is met, after one more row: that of the rows before it, where there is one, else this row's where its cause is met.
// Writes: nothing. Refuses: nothing.
pub fn first_met(met: Result<(), Refusal>, cause: bool, refusal: Refusal) -> Result<(), Refusal>
    ensures { result ≡ met_or met cause refusal }
{
    met?;
    refuse(cause, refusal)
}
