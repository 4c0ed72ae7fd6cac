//! The text of a file, on a writer, as standard output. The answer that is handed back is proved, and so is the text that is written, at each writer whose
//! bytes a contract can name; of standard output none can.
#![tactic(auto)]

ghost use Rattle.std.specs.Prelude.{◌≤◌, length, OnOk};
ghost use Rattle.std.specs.Io.KnownBytes.{Appends};
ghost use Rattle.answer.specs.Table.{answered};
ghost use Rattle.listing.specs.Listing.{joined, line_at, handed_count};
ghost use Rattle.meshfile.specs.Answer.{FileOpened};
ghost use Rattle.text.specs.Text.{line_places};

use answer::refusal::Refusal;
use decoding::model::Header;
use limits::model::Mesh;
use meshfile::model::Tessellation;
use std::io;
use std::io::Write;

// The places that the patches of the largest mesh take up: a list of so many is never too short.
pub const PATCH_PLACES: usize = 48 * Mesh::MAX_FACES;

// One place more than the longest file has bytes: a file that fills a list of so many is too long.
pub const FILE_PLACES: usize = Header::MAX_BYTES + 1;

// The places of the buffer that the stretches of the text go through.
const STRETCH_PLACES: usize = 65536;

// Writes the stretches of the text one after the other, up to its end. At the first write that is not taken whole it stops.
// Writes: to `to`, where no write fails, the lines that are handed out, all of them and in their order; to out, as `listing::stretch`.
fn write_stretches<W: Write>(
    file: Result<Tessellation, Refusal>,
    patches: &[i32],
    out: &mut [u8],
    to: &mut W,
) -> io::Result<()>
    requires { line_places ≤ length out.old }
    ensures { let text = joined (line_at (answered file) patches.now) (handed_count (answered file)) in
        OnOk result (Appends (W.contents to.old) (W.contents to.new) text) }
{
    let lines = listing::line_count(file);
    let mut line: usize = 0;
    while line < lines {
        let next = listing::stretch(file, patches, line, out);
        let end = next.length;
        to.write_all(&out[..end])?;
        line = next.line;
    }
    Ok(())
}

// Writes the text of a file to `to`: of an accepted mesh the counts and then the samples, face by face, in each by rows of one b and along a row by a; of any
// other the refusal alone. After a write that fails nothing more of it is written, so that what came out is the beginning of the text, and the complaint is
// written to `errors`.
// Returns: the answer of `meshfile::open`. Writes, leaves alone, refuses: as `meshfile::open`.
pub fn print<W: Write, E: Write>(
    bytes: &[u8],
    patches: &mut [i32],
    complaint: &[u8],
    to: &mut W,
    errors: &mut E,
) -> Result<Tessellation, Refusal>
    ensures { FileOpened bytes.now patches.old result patches.new }
{
    let mut out = [0u8; STRETCH_PLACES];
    let answer = meshfile::open(bytes, patches);
    if write_stretches(answer, patches, &mut out, to).is_err() {
        let _ = errors.write_all(complaint);
    }
    answer
}
