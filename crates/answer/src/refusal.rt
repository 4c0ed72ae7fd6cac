// The refusals by name (rule R2).
ghost use Rattle.std.specs.Prelude.{◌≡◌};
ghost use Rattle.answer.specs.Number.{number};

use crate::unlisted::Unlisted;

// Why a call says no: the row of the table that is the first met. What the contracts say of it is its number.
#[derive(Clone, Copy, Debug, PartialEq, Eq, Hash)]
pub enum Refusal {
    // 1: the numbers of vertices or faces, or the lengths of the lists.
    Sizes,
    // 2: a lent list is too short.
    ListShort,
    // 3: a coordinate beyond the limit.
    Coordinate,
    // 4: a tag above the largest.
    Tag,
    // 5: a vertex number that no vertex has.
    Vertex,
    // 6: a vertex twice in a face.
    VertexTwice,
    // 7: a half-edge twice.
    HalfEdgeTwice,
    // 8: a vertex in no face.
    Unused,
    // 9: the corners at a vertex are no single fan.
    Fan,
    // 10: a vertex with too few or too many faces.
    Valence,
    // 11: a corner tag at an inner vertex.
    InnerTag,
    // 12: a face that is not there.
    NoFace,
    // 13: a control value beyond the limit.
    Control,
    // 14: N off its range, or a place off the patch.
    Steps,
    // 15: the length of a file.
    File,
    // 16: a lent list of another length.
    Lengths,
    // 17: a line that is too short.
    LineShort,
    // 18: no tangents of the face, or a list of another length than theirs.
    NoTangents,
    // Of a caller's own cause, with a number that the table does not have.
    Other(Unlisted),
}

impl Refusal {
    // The refusal of a number. Writes: nothing. Refuses: nothing.
    pub fn told(k: u8) -> Refusal
        ensures { number result ≡ k }
    {
        match k {
            1 => Refusal::Sizes,
            2 => Refusal::ListShort,
            3 => Refusal::Coordinate,
            4 => Refusal::Tag,
            5 => Refusal::Vertex,
            6 => Refusal::VertexTwice,
            7 => Refusal::HalfEdgeTwice,
            8 => Refusal::Unused,
            9 => Refusal::Fan,
            10 => Refusal::Valence,
            11 => Refusal::InnerTag,
            12 => Refusal::NoFace,
            13 => Refusal::Control,
            14 => Refusal::Steps,
            15 => Refusal::File,
            16 => Refusal::Lengths,
            17 => Refusal::LineShort,
            18 => Refusal::NoTangents,
            _ => Refusal::Other(Unlisted { number: k }),
        }
    }

    // The number of the row. Writes: nothing. Refuses: nothing.
    pub fn number(self) -> u8
        ensures { result ≡ number self }
    {
        match self {
            Refusal::Sizes => 1,
            Refusal::ListShort => 2,
            Refusal::Coordinate => 3,
            Refusal::Tag => 4,
            Refusal::Vertex => 5,
            Refusal::VertexTwice => 6,
            Refusal::HalfEdgeTwice => 7,
            Refusal::Unused => 8,
            Refusal::Fan => 9,
            Refusal::Valence => 10,
            Refusal::InnerTag => 11,
            Refusal::NoFace => 12,
            Refusal::Control => 13,
            Refusal::Steps => 14,
            Refusal::File => 15,
            Refusal::Lengths => 16,
            Refusal::LineShort => 17,
            Refusal::NoTangents => 18,
            Refusal::Other(own) => own.number,
        }
    }
}

// The number, as C is given it.
impl From<Refusal> for u8 {
    ghost from_gives = { λ r k. k ≡ number r };

    fn from(refusal: Refusal) -> u8 {
        refusal.number()
    }
}
