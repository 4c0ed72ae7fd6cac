// What the call refuses of an accepted mesh: a face that is not there, a face on the boundary, a list of another length.
ghost use Rattle.std.specs.Prelude.{◌≡◌, not, ◌||◌, [], ◌∷◌, ◌+◌, ◌*◌, ◌≤◌, eqb, leb, length, IfOk};
ghost use Rattle.answer.specs.Table.{row, first_met, refused};
ghost use Rattle.tangent.specs.Lists.{open_in, face_valences as valences_of};

use crate::NUMBERS;
use crate::corners::Accepted;
use answer::refusal::Refusal;
use answer::refuse;

impl<'a> Accepted<'a> {
    // How many faces the vertices of face g have; 12 where there is no such face, 18 where it has no tangents here, or there are not 72 places for them.
    pub(crate) fn asked_face(self, g: usize, places: usize) -> Result<[usize; 4], Refusal>
        ensures own { first_met (row (leb self.entry.mesh.faces g) 12 ∷ (row (open_in self.entry.mesh.indices.now g || not (eqb places 72)) 18 ∷ []))
            ≡ refused result }
        ensures counts { IfOk result (λ v. v ≡ valences_of self.entry.mesh.indices.now g) }
    {
        refuse(self.mesh.faces <= g, Refusal::NoFace)?;
        refuse(places != NUMBERS, Refusal::NoTangents)?;
        self.face_valences(g).ok_or(Refusal::NoTangents)
    }
}
