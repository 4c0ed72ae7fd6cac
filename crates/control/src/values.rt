// The table of values by corner, from the positions and the faces of a mesh.
ghost use Rattle.std.specs.Prelude.{◌≡◌, ◌+◌, ◌*◌, ◌≤◌, pos, length, get_or, set};
ghost use Rattle.control.specs.Control.{values_after};

// Number i of the positions, 0 beyond their end. Writes: nothing. Refuses: nothing.
pub fn position(positions: &[i32], i: usize) -> i32
    ensures { result ≡ get_or positions.now i (pos 0) }
{
    positions.get(i).copied().unwrap_or(0)
}

// Writes the coordinates of the vertex of corner c, and a 0 in the spare place.
fn put(values: &mut [i32], c: usize, x: i32, y: i32, z: i32)
    requires { 4 * c + 4 ≤ length values.old }
    ensures { values.new
        ≡ set (set (set (set values.old (4 * c) x) (4 * c + 1) y) (4 * c + 2) z) (4 * c + 3) (pos 0) }
{
    let at = 4 * c;
    let end = at + 4;
    values[at..end].copy_from_slice(&[x, y, z, 0]);
}

// The values of all corners, from the lists of a mesh.
// Writes: four places of the table a corner: x, y and z of its vertex, or 0 where the positions have no such number, and a 0.
// Leaves alone: the places past the last corner. Where the table has no room for a corner, it ends with the one before.
// Refuses: nothing.
pub fn fill_values(positions: &[i32], faces: &[u16], values: &mut [i32])
    ensures { values.new ≡ values_after positions.now faces.now values.old }
{
    let n = faces.len().min(values.len() / 4);
    // By corner: `n` is the bound that the edit more-corners-than-room names, and the four places of a corner are written in one call.
    for c in 0..n {
        let p = 3 * usize::from(faces[c]);
        put(
            values,
            c,
            position(positions, p),
            position(positions, p + 1),
            position(positions, p + 2),
        );
    }
}
