// How many corners each vertex has.
ghost use Rattle.std.specs.Prelude.{◌≤◌, length};
ghost use Rattle.limits.specs.Limits.{max_vertices};
ghost use Rattle.mesh.specs.Fan.{valence};
ghost use Rattle.mesh.specs.Tables.{Holds, vertex_of, Indices};

// Counts the corners at each vertex, over a table of zeros.
pub(crate) fn count_corners(faces: &[u16], valences: &mut [u16])
    requires { Indices faces.now (length faces.now) × (max_vertices ≤ length valences.old) × Holds 0 valences.old max_vertices (λ p. 0) }
    ensures { Holds 0 valences.new max_vertices (valence (vertex_of faces.now) (length faces.now)) }
{
    for p in faces {
        valences[usize::from(*p)] += 1;
    }
}
