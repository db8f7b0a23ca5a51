//! The lists of points turned round.

ghost use Rattle.std.specs.Prelude.{◌≡◌, ◌↔◌, ◌^◌, ◌<◌, ◌≤◌, ◌⊎◌, Contains, IfOk, length, replicate, []};
ghost use Rattle.wasm_types.specs.declared.place.Node.{Node};
ghost use Rattle.block_cfg.specs.Graph.{EachOnce, number, row_of};

use crate::cfg::{point_number, point_of_number};
use sqlite_items::Items;
use std::alloc::Global;
use wasm_types::{NoMemory, Point};

/// So many empty lists.
fn empty_lists(alloc: Global, count: usize) -> Result<Vec<Items<Point>>, NoMemory>
    ensures { IfOk result (λ lists. lists.items ≡ replicate count []) }
{
    let mut lists = Vec::new(alloc);
    for _ in 0..count {
        lists.push(Items::new(alloc)).map_err(|_| NoMemory)?;
    }
    Ok(lists)
}

/// Puts a point on the list of each point of a row.
fn add_before(before: &mut Vec<Items<Point>>, from: Point, row: &[Point]) -> Result<(), NoMemory>
    requires within { (b : Node) → Contains row.now b → number b < length before.old.items }
    requires row { EachOnce row.now }
    requires once { (b : Node) → EachOnce (row_of before.old.items b) }
    requires new { (b : Node) → Contains (row_of before.old.items b) from → ⊥ }
    ensures same { IfOk result (λ _. length before.new.items ≡ length before.old.items) }
    ensures once { IfOk result (λ _. (b : Node) → EachOnce (row_of before.new.items b)) }
    ensures exact { IfOk result (λ _. (a b : Node) → Contains (row_of before.new.items b) a ↔ (Contains (row_of before.old.items b) a ⊎ ((a ≡ from) × Contains row.now b))) }
{
    for to in row {
        before[point_number(*to)].push(from)?;
    }
    Ok(())
}

/// For each point those in whose lists it is.
pub(crate) fn turned(alloc: Global, next: &[Items<Point>]) -> Result<Vec<Items<Point>>, NoMemory>
    requires few { length next.now < 2 ^ 33 }
    requires within { (a b : Node) → Contains (row_of next.now a) b → number b < length next.now }
    requires once { (a : Node) → EachOnce (row_of next.now a) }
    ensures same { IfOk result (λ before. length before.items ≡ length next.now) }
    ensures once { IfOk result (λ before. (b : Node) → EachOnce (row_of before.items b)) }
    ensures exact { IfOk result (λ before. (a b : Node) → Contains (row_of before.items b) a ↔ Contains (row_of next.now a) b) }
{
    let mut before = empty_lists(alloc, next.len())?;
    for number in 0..next.len() {
        add_before(
            &mut before,
            point_of_number(number),
            next[number].as_slice(),
        )?;
    }
    Ok(before)
}
