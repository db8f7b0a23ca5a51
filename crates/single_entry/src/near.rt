//! The entry of a point: that of the smallest region around it that is found.

ghost use Rattle.std.specs.Prelude.{◌≡◌, ◌+◌, ◌*◌, ◌≤◌, ◌<◌, ◌↔◌, ℕ, IfSome, IsTrue, false, length, Contains};
ghost use Rattle.wasm_types.specs.Nodes.{At, Join};
ghost use Rattle.wasm_types.specs.declared.place.Node.{Node};
ghost use Rattle.block_cfg.specs.Graph.{number};
ghost use Rattle.single_entry.specs.Entries.{IsEntry, IsGraph, IsIn};
ghost use Rattle.single_entry.specs.Paths.{AreReached, Comes};
ghost use Rattle.single_entry.specs.Regions.{AllInBut, EndsAt, LeadsThrough, NoneIn};

use crate::entry::Entry;
use block_cfg::{Cfg, point_number, point_of_number};
use wasm_types::{Point, Pos};

/// Whether a point stands in a region.
fn is_in(point: Point, first: usize, last: usize) -> bool
    ensures { IsTrue result ↔ IsIn first last point }
{
    let number = point_number(point);
    first <= number && number <= last
}

/// The one of some points that stands outside a region.
fn lone_outside(points: &[Point], first: usize, last: usize) -> Option<Point>
    ensures { IfSome result (λ from. AllInBut first last points.now from) }
{
    let mut lone = None;
    for point in points {
        if !is_in(*point, first, last) {
            if lone.is_some() {
                return None;
            }
            lone = Some(*point);
        }
    }
    lone
}

/// Whether one of some points stands in a region.
fn some_inside(points: &[Point], first: usize, last: usize) -> bool
    ensures { result ≡ false → NoneIn first last points.now }
{
    for point in points {
        if is_in(*point, first, last) {
            return true;
        }
    }
    false
}

/// The number of the last point in what stands at a position.
fn end_of(cfg: &Cfg, pos: Pos) -> Option<usize>
    requires { Contains cfg.now.points (At pos.0) }
    ensures { IfSome result (λ last. EndsAt cfg.now pos.0 last) }
{
    let stop = cfg.stop(pos);
    if stop > u32::MAX as usize {
        return None;
    }
    Some(2 * stop)
}

/// No position that is below stands in a region from a number on, nor is the point before it.
fn low_of(through: Point, first: usize) -> usize
    requires { number through < first }
    ensures region { 2 * result ≤ first }
    ensures through { (p : ℕ) → through ≡ At p → result ≤ p }
{
    match through {
        Point::At(pos) => pos.0 as usize,
        Point::Join(_) | Point::Exit => first / 2,
    }
}

/// The entry of a point in a region that is entered through another, where that is a smaller one, and the body doesn't begin there.
fn entry_in(cfg: &Cfg, point: Point, through: Point, first: usize, last: usize) -> Option<Entry>
    requires graph { IsGraph cfg.now }
    requires through { LeadsThrough cfg.now first last through }
    ensures { IfSome result (λ e. Comes cfg.now point → IsEntry cfg.now point e) }
{
    if point_number(through) >= first || last > u32::MAX as usize {
        return None;
    }
    if !is_in(point, first, last) {
        return None;
    }
    if is_in(cfg.points()[0], first, last) {
        return None;
    }
    Some(Entry {
        through: point_number(through) as u32,
        low: low_of(through, first) as u32,
        high: ((last - 1) / 2) as u32,
    })
}

/// What stands inside a block, a loop or an if is entered through its beginning.
fn entry_of_join(cfg: &Cfg, block: Pos) -> Option<Entry>
    requires graph { IsGraph cfg.now }
    requires point { Contains cfg.now.points (Join block.0) }
    ensures { IfSome result (λ e. Comes cfg.now (Join block.0) → IsEntry cfg.now (Join block.0) e) }
{
    let last = end_of(cfg, block)?;
    let join = Point::Join(block);
    entry_in(cfg, join, Point::At(block), point_number(join), last)
}

/// A position is entered through the point before it, if it is just one; so is a loop, of those that don't stand inside.
fn entry_of_position(cfg: &Cfg, pos: Pos) -> Option<Entry>
    requires graph { IsGraph cfg.now }
    requires point { Contains cfg.now.points (At pos.0) }
    ensures { IfSome result (λ e. Comes cfg.now (At pos.0) → IsEntry cfg.now (At pos.0) e) }
{
    let point = Point::At(pos);
    let first = point_number(point);
    let last = end_of(cfg, pos)?;
    let before = cfg.before(point);
    let through = lone_outside(before, first, last)?;
    if some_inside(before, first, last) {
        entry_in(cfg, point, through, first, last)
    } else {
        entry_in(cfg, point, through, first, first)
    }
}

/// The entry of a point. The end of the body has none.
fn entry_of(cfg: &Cfg, point: Point) -> Option<Entry>
    requires graph { IsGraph cfg.now }
    requires point { Contains cfg.now.points point }
    ensures { IfSome result (λ e. Comes cfg.now point → IsEntry cfg.now point e) }
{
    match point {
        Point::Exit => None,
        Point::Join(block) => entry_of_join(cfg, block),
        Point::At(pos) => entry_of_position(cfg, pos),
    }
}

/// The entry of the point of a number, where a path leads to it.
pub(crate) fn near_of(cfg: &Cfg, marks: &[bool], index: usize) -> Option<Entry>
    requires graph { IsGraph cfg.now }
    requires marks { AreReached cfg.now marks.now }
    requires within { index < length marks.now }
    ensures entry { IfSome result (λ e. (n : Node) → number n ≡ index → IsEntry cfg.now n e) }
    ensures falls { IfSome result (λ e. e.through < index) }
{
    if index > u32::MAX as usize || !marks[index] {
        return None;
    }
    entry_of(cfg, point_of_number(index))
}
