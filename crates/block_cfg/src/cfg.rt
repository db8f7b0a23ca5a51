//! Points with those that they lead to and those that lead to them.

ghost use Rattle.std.specs.Prelude.{◌≡◌, ◌+◌, ◌*◌, ◌^◌, ◌<◌, All, Contains, Some, length, slice_get};
ghost use Rattle.wasm_types.specs.Nodes.{At};
ghost use Rattle.block_cfg.specs.Graph.{IsNumbered, number, row_of};

use sqlite_items::Items;
use std::marker::Model;
use wasm_types::{Point, Pos};

/// The number of a point: 0 for the end of the body, and for position p its own, 2p + 1, and that of its join, 2p + 2.
pub fn point_number(point: Point) -> usize
    ensures { result ≡ number point }
{
    match point {
        Point::Exit => 0,
        Point::At(pos) => 2 * pos.0 as usize + 1,
        Point::Join(pos) => 2 * pos.0 as usize + 2,
    }
}

/// The point of a number.
pub fn point_of_number(index: usize) -> Point
    requires { index < 2 ^ 33 }
    ensures { number result ≡ index }
{
    if index == 0 {
        return Point::Exit;
    }
    let pos = Pos(((index - 1) / 2) as u32);
    if index % 2 == 1 {
        Point::At(pos)
    } else {
        Point::Join(pos)
    }
}

/// The points of a body with those that each leads to and those that lead to each, and where contents end (docs/ANALYSES.md, "Points").
#[derive(Drop)]
pub struct Cfg {
    points: Vec<Point>,
    next: Vec<Items<Point>>,
    before: Vec<Items<Point>>,
    stops: Vec<usize>,
}

impl Model for Cfg {
    ghost use Rattle.block_cfg.specs.Graph.{Graph, IsNumbered};

    ghost Value = { Graph };

    ghost view = { λ c. record { points = c.points.items; next = c.next.items; before = c.before.items; stops = c.stops.items } };

    ghost invariant = { λ c. IsNumbered (record { points = c.points.items; next = c.next.items; before = c.before.items; stops = c.stops.items }) };
}

impl Cfg {
    /// The points, their lists in the order of their numbers, and where the contents of positions end.
    pub(crate) fn of(
        points: Vec<Point>,
        next: Vec<Items<Point>>,
        before: Vec<Items<Point>>,
        stops: Vec<usize>,
    ) -> Cfg
        requires { IsNumbered (record { points = points.items; next = next.items; before = before.items; stops = stops.items }) }
        ensures { result ≡ record { points = points.items; next = next.items; before = before.items; stops = stops.items } }
    {
        Cfg {
            points,
            next,
            before,
            stops,
        }
    }

    /// All points, each once, the body's first point first.
    pub fn points(&self) -> &[Point]
        ensures { result.now ≡ self.now.points }
    {
        self.points.as_slice()
    }

    /// The points that a point leads to, each once, in any order.
    pub fn next(&self, point: Point) -> &[Point]
        requires { Contains self.now.points point }
        ensures { result.now ≡ row_of self.now.next point }
    {
        self.next[point_number(point)].as_slice()
    }

    /// The points that lead to a point, each once, in any order.
    pub fn before(&self, point: Point) -> &[Point]
        requires { Contains self.now.points point }
        ensures { result.now ≡ row_of self.now.before point }
    {
        self.before[point_number(point)].as_slice()
    }

    /// The position after the contents of a live position: the next one where it has none.
    pub fn stop(&self, pos: Pos) -> usize
        requires { Contains self.now.points (At pos.0) }
        ensures { slice_get self.now.stops pos.0 ≡ Some result }
    {
        self.stops[pos.0 as usize]
    }

    /// A number above those of all points.
    pub fn numbers(&self) -> usize
        ensures next { result ≡ length self.now.next }
        ensures before { result ≡ length self.now.before }
        ensures below { All (λ point. number point < result) self.now.points }
    {
        self.next.len()
    }
}
