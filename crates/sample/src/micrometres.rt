// Samples in micrometres.
ghost use Rattle.sample.specs.Answer.{Over256};

use crate::model::{Micrometres, Point};

// A number of 1/256 micrometres, in micrometres: a double has every i32, and the division by a power of two is exact.
fn over_256(n: i32) -> f64
    ensures { Over256 result n }
{
    f64::from(n) / 256.0
}

// A sample in micrometres.
pub(crate) fn in_micrometres(p: Point) -> Micrometres
    ensures { Over256 result.x p.x × Over256 result.y p.y × Over256 result.z p.z }
{
    Micrometres {
        x: over_256(p.x),
        y: over_256(p.y),
        z: over_256(p.z),
    }
}
