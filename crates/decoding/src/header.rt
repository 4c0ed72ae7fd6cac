// The sizes of a file, and the refusals that look at the file by itself.
ghost use Rattle.std.specs.Prelude.{◌≡◌, ◌||◌, ◌*◌, ◌≤◌, ltb, length};
ghost use Rattle.answer.specs.Table.{first_met, answer_by, answered};
ghost use Rattle.limits.specs.Limits.{max_vertices, max_faces};
ghost use Rattle.decoding.specs.File.{file_rows};
ghost use Rattle.decoding.specs.Decoding.{header_of};

use crate::bytes::u16_at;
use crate::model::Header;
use answer::refusal::Refusal;
use answer::refuse;
use limits::model::Mesh;
use limits::off_range;

// The sizes that the first bytes hold.
fn sizes_of(bytes: &[u8]) -> Header
    requires { 6 ≤ length bytes.now }
    ensures { result ≡ header_of bytes.now }
{
    Header {
        vertices: usize::from(u16_at(bytes, 0)),
        faces: usize::from(u16_at(bytes, 2)),
        steps: usize::from(u16_at(bytes, 4)),
    }
}

// The sizes of a file, or its own refusal: 15 for fewer bytes than the sizes have, 1 for the sizes, 15 for the length.
#[tactic(auto, unfolding(crate::specs::File::header_short, crate::specs::File::header_off, crate::specs::File::length_off))]
pub(crate) fn read_header(bytes: &[u8]) -> Result<Header, Refusal>
    ensures { answered result ≡ answer_by (first_met (file_rows bytes.now)) (header_of bytes.now) }
{
    refuse(bytes.len() < Header::BYTES, Refusal::File)?;
    let header = sizes_of(bytes);
    let v = header.vertices;
    let f = header.faces;
    refuse(
        off_range(Mesh::MIN_VERTICES, Mesh::MAX_VERTICES, v)
            || off_range(Mesh::MIN_FACES, Mesh::MAX_FACES, f),
        Refusal::Sizes,
    )?;
    refuse(bytes.len() != Header::BYTES + 13 * v + 8 * f, Refusal::File)?;
    Ok(header)
}

// Whether one of three lists has too few places for the positions, the tags or the faces.
pub(crate) fn places_short(header: Header, positions: usize, tags: usize, faces: usize) -> bool
    requires { (header.vertices ≤ max_vertices) × (header.faces ≤ max_faces) }
    ensures { result ≡ (ltb positions (3 * header.vertices)
        || (ltb tags header.vertices || ltb faces (4 * header.faces))) }
{
    positions < 3 * header.vertices || tags < header.vertices || faces < 4 * header.faces
}
