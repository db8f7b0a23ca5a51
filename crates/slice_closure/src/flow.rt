//! What a walk over a body found, by position and by point.
//!
//! `block_cfg` and `flow_domain` tell the same in lists of points and of uses, a vector each. A search for one kept set reads few of them, and most instructions lead
//! on to the next alone: so only what does not is listed here.

ghost use Rattle.std.specs.Prelude.{◌≡◌, ◌+◌, ◌≤◌, ◌<◌, ◌^◌, ◌++◌, ◌∷◌, [], ◌≢◌, ℕ, IfOk, length, max, slice_get};
ghost use Rattle.wasm_types.specs.declared.place.Node.{Node};
ghost use Rattle.wasm_types.specs.Code.{code_of};
ghost use Rattle.block_cfg.specs.Graph.{number};
ghost use Rattle.block_cfg.specs.Points.{HasPoints};
ghost use Rattle.slice_closure.specs.Flow as spec;
ghost use Rattle.slice_closure.specs.Runs.{is_quiet, straight_at};
ghost use Rattle.slice_closure.specs.declared.spot.Came.TheVariants as Came;

use crate::items::loc_number;
use crate::packed::Packed;
use crate::spot::{Came, Taken, Touch};
use crate::walk::{Trail, walk_code};
use block_cfg::point_number;
use std::alloc::Global;
use wasm_types::{Body, Loc, NoMemory, Point, Pos};

/// The positions of a body, and by the number of each point those that lead to it by branches and ends.
#[derive(Drop)]
pub(crate) struct Flow {
    pub(crate) spots: Vec<Packed>,
    pub(crate) before: Vec<Vec<Point>>,
}

/// What the walk over a body finds.
fn walk_body(alloc: Global, body: &Body) -> Result<Trail, NoMemory>
    requires { HasPoints body.now }
    ensures spots { IfOk result (λ trail. trail.spots.items ≡ spec.spots_in Came.First (code_of body.now.code) 0) }
    ensures ways { IfOk result (λ trail. trail.ways.items ≡ spec.ways_of (code_of body.now.code)) }
{
    let mut labels = Vec::new(alloc);
    labels.push(Point::Exit).map_err(|_| NoMemory)?;
    let code = body.code.as_slice();
    let mut trail = Trail::with_capacity(alloc, code.len())?;
    let end = walk_code(&mut trail, &mut labels, code, Came::First)?;
    trail.lead(end, Point::Exit)?;
    Ok(trail)
}

/// At least so many rows.
fn extend(alloc: Global, rows: &mut Vec<Vec<Point>>, count: usize) -> Result<(), NoMemory>
    ensures same { IfOk result (λ _. (n : Node) → spec.ways_to rows.new.items n ≡ spec.ways_to rows.old.items n) }
    ensures enough { IfOk result (λ _. count ≤ length rows.new.items) }
{
    for _row in rows.len()..count {
        rows.push(Vec::new(alloc)).map_err(|_| NoMemory)?;
    }
    Ok(())
}

/// A way more.
fn add(alloc: Global, rows: &mut Vec<Vec<Point>>, to: Point, from: Point) -> Result<(), NoMemory>
    ensures here { IfOk result (λ _. spec.ways_to rows.new.items to ≡ spec.ways_to rows.old.items to ++ from ∷ []) }
    ensures others { IfOk result (λ _. (n : Node) → number n ≢ number to → spec.ways_to rows.new.items n ≡ spec.ways_to rows.old.items n) }
{
    let number = point_number(to);
    extend(alloc, rows, number + 1)?;
    rows[number].push(from).map_err(|_| NoMemory)?;
    Ok(())
}

/// Ways by the points that they lead to.
fn rows_of(alloc: Global, ways: &[(Point, Point)]) -> Result<Vec<Vec<Point>>, NoMemory>
    ensures { IfOk result (λ rows. spec.AreRows ways.now rows.items) }
{
    let mut rows = Vec::new(alloc);
    for way in ways {
        add(alloc, &mut rows, way.0, way.1)?;
    }
    Ok(rows)
}

impl Flow {
    /// What is found of a body. It fails only where memory is refused.
    pub(crate) fn of(alloc: Global, body: &Body) -> Result<Flow, NoMemory>
        requires { HasPoints body.now }
        ensures spots { IfOk result (λ flow. flow.spots.items ≡ spec.spots_in Came.First (code_of body.now.code) 0) }
        ensures before { IfOk result (λ flow. spec.AreRows (spec.ways_of (code_of body.now.code)) flow.before.items) }
    {
        let Trail { spots, ways } = walk_body(alloc, body)?;
        let before = rows_of(alloc, &ways)?;
        Ok(Flow { spots, before })
    }

    /// How the walk comes to a point.
    pub(crate) fn came(&self, point: Point) -> Came
        ensures { result ≡ spec.came_to self.now.spots.items point }
    {
        let Point::At(pos) = point else {
            return Came::Never;
        };
        match self.spots.get(pos.0 as usize) {
            Some(spot) => spot.came(),
            None => Came::Never,
        }
    }

    /// The points that lead to a point by branches and ends.
    pub(crate) fn before(&self, point: Point) -> &[Point]
        ensures { result.now ≡ spec.ways_to self.now.before.items point }
    {
        match self.before.get(point_number(point)) {
            Some(row) => row.as_slice(),
            None => &[],
        }
    }

    /// What a position touches.
    pub(crate) fn touch(&self, pos: Pos) -> Touch
        ensures { result ≡ spec.touch_at (slice_get self.now.spots.items pos.0) }
    {
        match self.spots.get(pos.0 as usize) {
            Some(spot) => spot.touch(),
            None => Touch::Nothing,
        }
    }

    /// Which of its operands a position takes: none where there is no such position.
    pub(crate) fn taken(&self, pos: Pos) -> Option<Taken>
        ensures { result ≡ spec.taken_is (slice_get self.now.spots.items pos.0) }
    {
        match self.spots.get(pos.0 as usize) {
            Some(spot) => Some(spot.taken()),
            None => None,
        }
    }

    /// Whether a position leaves a location alone.
    pub(crate) fn is_quiet(&self, pos: Pos, loc: Loc) -> bool
        ensures { result ≡ is_quiet (spec.touch_at (slice_get self.now.spots.items pos.0)) loc }
    {
        self.touch(pos).is_quiet(loc)
    }

    /// Whether one point alone comes after a position.
    pub(crate) fn goes_straight(&self, pos: Pos) -> bool
        ensures { result ≡ straight_at (slice_get self.now.spots.items pos.0) }
    {
        match self.spots.get(pos.0 as usize) {
            Some(spot) => spot.taken().goes_straight(),
            None => false,
        }
    }

    /// A number above those of all locations that positions read or check.
    pub(crate) fn locs_bound(&self) -> usize
        ensures below { (p : ℕ) → spec.AsksBelow result (spec.touch_at (slice_get self.now.spots.items p)) }
        ensures small { result ≤ 2 ^ 33 + 3 }
    {
        let mut bound = 0;
        for spot in &self.spots {
            bound = greater(bound, touch_bound(spot.touch()));
        }
        bound
    }
}

/// The greater number.
pub(crate) fn greater(first: usize, second: usize) -> usize
    ensures { result ≡ max first second }
{
    if first < second { second } else { first }
}

/// A number above those of the locations that are read or checked.
fn touch_bound(touch: Touch) -> usize
    ensures below { spec.AsksBelow result touch }
    ensures small { result ≤ 2 ^ 33 + 3 }
{
    match touch {
        Touch::Nothing => 0,
        Touch::Writes(_) => 0,
        Touch::Reads(loc) => loc_number(loc) + 1,
        Touch::Changes(loc) => loc_number(loc) + 1,
        Touch::Loads => 2,
        Touch::Stores => 2,
        Touch::Calls(_) => 0,
    }
}
