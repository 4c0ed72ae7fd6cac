//! The control points that a corner of a face owns, from tables by corner. Every call takes any tables and any corner: a place beyond a table is read at
//! its rest by the length, so that no list has to be trusted.
#![tactic(auto)]

pub mod model;
pub mod value;
pub mod values;

ghost use Rattle.std.specs.Prelude.{◌≡◌, ◌&&◌};
ghost use Rattle.control.specs.Control.{inner_at, along_at, before_at, weight_at, point_of};
ghost use Rattle.control.specs.declared.model.Value.{Value};

use crate::model::{ControlPoint, Value};
use crate::value::Coordinate;
use limits::model::Mesh;

// The tables by corner that the control points are made from.
#[derive(Clone, Copy)]
pub struct CornerTables<'a> {
    // Four places a corner: the coordinates of its vertex, and a spare one.
    pub values: &'a [i32; 16 * Mesh::MAX_FACES],
    // The twin of each half-edge, `Mesh::NO_TWIN` where it has none: as the lists of twins have it that C is given.
    pub links: &'a [u16; 4 * Mesh::MAX_FACES],
    // The weight of each corner.
    pub weights: &'a [u16; 4 * Mesh::MAX_FACES],
}

// The point whose coordinate k is what a function says of k.
fn point<F: Fn(usize) -> Value>(value: F) -> ControlPoint<i64>
    requires { F.IsAlwaysCallable value }
    ensures { (x : Value) × (y : Value) × (z : Value) × F.post value 0 x × F.post value 1 y × F.post value 2 z
        × (result ≡ record { x = x.units; y = y.units; z = z.units; exact = (x.exact && y.exact) && z.exact }) }
{
    let x = value(0);
    let y = value(1);
    let z = value(2);
    ControlPoint {
        x: x.units,
        y: y.units,
        z: z.units,
        exact: x.exact & y.exact & z.exact,
    }
}

// The inner point at corner c, from the two tables that it needs. Writes: nothing. Refuses: nothing.
pub fn inner_point(
    values: &[i32; 16 * Mesh::MAX_FACES],
    weights: &[u16; 4 * Mesh::MAX_FACES],
    c: usize,
) -> ControlPoint<i64>
    ensures { result ≡ point_of (λ k. inner_at values.now (weight_at weights.now c) k c) }
{
    let w = weights[c % 1024];
    point(|k| Coordinate { values, k }.inner(w, c))
}

impl<'a> CornerTables<'a> {
    // The inner point at corner c. Writes: nothing. Refuses: nothing.
    pub fn inner_point(self, c: usize) -> ControlPoint<i64>
        ensures { result ≡ point_of (λ k. inner_at self.entry.values.now (weight_at self.entry.weights.now c) k c) }
    {
        inner_point(self.values, self.weights, c)
    }

    // The edge point on half-edge c near its start. Writes: nothing. Refuses: nothing.
    pub fn along_point(self, c: usize) -> ControlPoint<i64>
        ensures { result ≡ point_of (λ k. along_at self.entry.values.now self.entry.links.now self.entry.weights.now k c) }
    {
        let values = self.values;
        let w = self.weights[c % 1024];
        let d = self.links[c % 1024];
        point(|k| Coordinate { values, k }.along(d, w, c))
    }

    // The edge point on the half-edge before c near its end, which is the vertex of c. Writes: nothing. Refuses: nothing.
    pub fn before_point(self, c: usize) -> ControlPoint<i64>
        ensures { result ≡ point_of (λ k. before_at self.entry.values.now self.entry.links.now self.entry.weights.now k c) }
    {
        let values = self.values;
        let d = self.links[corner::prev_corner(c) % 1024];
        let w = self.weights[corner::wide(d) % 1024];
        point(|k| Coordinate { values, k }.before(d, w, c))
    }
}
