//! Corners of faces by their numbers: the next, the one across and the previous in a face, and the four of a face.
#![tactic(auto)]

ghost use Rattle.std.specs.Prelude.{◌≡◌};
ghost use Rattle.corner.specs.Corner.{turn, next, across, prev, face_corners};

// The number of a vertex, a corner or a twin, as an index. Writes: nothing. Refuses: nothing. It stays beside the library's `From`, since the table of calls
// of docs/SPECIFICATION.md and the edits high-byte-cut-off and no-twin-is-corner-0 name it.
pub fn wide(x: u16) -> usize
    ensures { result ≡ x }
{
    usize::from(x)
}

// The corner that is i corners further than c in its face. Writes: nothing. Refuses: nothing.
pub fn turned(i: usize, c: usize) -> usize
    ensures { result ≡ turn i c }
{
    c / 4 * 4 + (c % 4 + i % 4) % 4
}

// The corner after c in its face, one of three instances of `turned` that the table of calls names. Writes: nothing. Refuses: nothing.
pub fn next_corner(c: usize) -> usize
    ensures { result ≡ next c }
{
    turned(1, c)
}

// The corner across from c in its face. Writes: nothing. Refuses: nothing.
pub fn across_corner(c: usize) -> usize
    ensures { result ≡ across c }
{
    turned(2, c)
}

// The corner before c in its face. Writes: nothing. Refuses: nothing.
pub fn prev_corner(c: usize) -> usize
    ensures { result ≡ prev c }
{
    turned(3, c)
}

// The corners of face f.
// Returns: the four vertex numbers of the face, as that part of the face list; an empty part where 4f + 4 is above its length.
// Writes: nothing. Refuses: nothing.
pub fn face_corners(faces: &[u16], f: usize) -> &[u16]
    ensures { result.now ≡ face_corners faces.now f }
{
    if f < faces.len() / 4 {
        let a = 4 * f;
        let e = a + 4;
        return &faces[a..e];
    }
    &faces[0..0]
}
