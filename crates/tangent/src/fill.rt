// The tangents of a face of an accepted mesh, from its lists and its twins.
ghost use Rattle.std.specs.Prelude.{◌≡◌};
ghost use Rattle.tangent.specs.Lists.{Drawn, numbers_from};

use crate::NUMBERS;
use crate::corners::{Accepted, cosines_of};
use crate::parts::side_parts;
use crate::ring::Tables;
use crate::writer::FaceSource;
use control::values::fill_values;
use limits::model::Mesh;

// The 72 numbers of face g, at whose vertices so many faces are.
pub(crate) fn face_tangents(accepted: Accepted, valences: &[usize; 4], g: usize) -> [i64; NUMBERS]
    requires { Drawn accepted.mesh.positions.now accepted.mesh.indices.now accepted.twins.now valences.now g }
    ensures { result ≡ numbers_from accepted.entry.mesh.positions.now accepted.entry.mesh.indices.now accepted.entry.twins.now g }
{
    let mesh = accepted.mesh;
    let mut values = [0i32; 16 * Mesh::MAX_FACES];
    fill_values(mesh.positions, mesh.indices, &mut values);
    let tables = Tables {
        values: &values,
        twins: accepted.twins,
    };
    let parts = side_parts(tables, valences, g);
    let cosines = cosines_of(valences);
    let source = FaceSource {
        parts: &parts,
        cosines: &cosines,
    };
    source.numbers()
}
