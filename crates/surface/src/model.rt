// What the witness hands back.
use answer::refusal::Refusal;
use limits::model::Mesh;
use sample::model::{MarkedPoint, Point};

// What the calls gave for one mesh: the answer of the patch call, and of the sample call and the marked one on the lists that it left.
#[derive(Clone, Copy, Debug, PartialEq, Eq)]
pub struct Evaluation {
    pub mesh: Result<Mesh, Refusal>,
    pub sample: Result<Point, Refusal>,
    pub marked: Result<MarkedPoint, Refusal>,
}

// What the calls gave for two meshes, with one more sample on the first one's patch list.
#[derive(Clone, Copy, Debug, PartialEq, Eq)]
pub struct Witness {
    pub first: Evaluation,
    pub other: Result<Point, Refusal>,
    pub second: Evaluation,
}
