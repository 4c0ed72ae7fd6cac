//! The bytes of a file: its sizes, its mesh, and the refusals that look at the file by itself (rules F1 to F3).
#![tactic(auto)]

mod bytes;
mod header;
mod lists;
pub mod model;

ghost use Rattle.decoding.specs.Decoding.{FileDecoded};

use crate::header::{places_short, read_header};
use crate::lists::read_mesh;
use crate::model::Header;
use answer::refusal::Refusal;
use answer::refuse;

// The sizes and the mesh of a file.
// Returns: V, F and N, or the refusal.
// Writes: 3V positions, V tags and 4F vertex numbers, each to the front of its list.
// Leaves alone: the other places of the lists; all lists after a refusal.
// Refuses, in this order: 15 fewer than 6 bytes, 1 V or F off its range, 15 a length other than 6 + 13V + 8F, 2 a list that is too short.
// Units: positions in micrometres.
pub fn decode(
    bytes: &[u8],
    positions: &mut [i32],
    tags: &mut [u8],
    faces: &mut [u16],
) -> Result<Header, Refusal>
    ensures { FileDecoded bytes.now
        positions.old tags.old faces.old result
        positions.new tags.new faces.new }
{
    let header = read_header(bytes)?;
    refuse(
        places_short(header, positions.len(), tags.len(), faces.len()),
        Refusal::ListShort,
    )?;
    read_mesh(bytes, header, positions, tags, faces);
    Ok(header)
}
