//! The points that paths lead to from where a body begins.

ghost use Rattle.std.specs.Prelude.{◌≡◌, ◌<◌, IfOk, false, length, replicate};
ghost use Rattle.block_cfg.specs.Graph.{number};
ghost use Rattle.single_entry.specs.Entries.{IsGraph};
ghost use Rattle.single_entry.specs.Paths.{AreMet, AreReached, Comes, MeetsOne};

use block_cfg::{Cfg, point_number};
use std::alloc::Global;
use wasm_types::{NoMemory, Point};

/// No point is marked, of so many.
fn none_marked(alloc: Global, count: usize) -> Result<Vec<bool>, NoMemory>
    ensures { IfOk result (λ marks. marks.items ≡ replicate count false) }
{
    vec![in alloc; false; count].map_err(|_| NoMemory)
}

/// Marks a point, which waits if it is new.
fn meet(marks: &mut Vec<bool>, waiting: &mut Vec<Point>, point: Point) -> Result<(), NoMemory>
    requires { number point < length marks.old.items }
    ensures { IfOk result (λ _. MeetsOne point marks.old.items marks.new.items waiting.old.items waiting.new.items) }
{
    let number = point_number(point);
    if marks[number] {
        return Ok(());
    }
    marks[number] = true;
    waiting.push(point).map_err(|_| NoMemory)?;
    Ok(())
}

/// Meets what a point leads to.
fn meet_next(
    cfg: &Cfg,
    marks: &mut Vec<bool>,
    waiting: &mut Vec<Point>,
    point: Point,
) -> Result<(), NoMemory>
    requires graph { IsGraph cfg.now }
    requires point { Comes cfg.now point }
    requires met { AreMet cfg.now marks.old.items waiting.old.items }
    ensures { IfOk result (λ _. AreMet cfg.now marks.new.items waiting.new.items) }
{
    for next in cfg.next(point) {
        meet(marks, waiting, *next)?;
    }
    Ok(())
}

/// Meets what those that wait lead to, and so on. Each point waits once.
fn meet_all(cfg: &Cfg, marks: &mut Vec<bool>, waiting: &mut Vec<Point>) -> Result<(), NoMemory>
    requires graph { IsGraph cfg.now }
    requires met { AreMet cfg.now marks.old.items waiting.old.items }
    ensures { IfOk result (λ _. AreMet cfg.now marks.new.items waiting.new.items) }
{
    for _ in 0..cfg.numbers() {
        let Some(point) = waiting.pop() else {
            return Ok(());
        };
        meet_next(cfg, marks, waiting, point)?;
    }
    Ok(())
}

/// By number which points paths from the first point lead to. It fails only where memory is refused.
pub(crate) fn reached(alloc: Global, cfg: &Cfg) -> Result<Vec<bool>, NoMemory>
    requires { IsGraph cfg.now }
    ensures { IfOk result (λ marks. AreReached cfg.now marks.items) }
{
    let mut marks = none_marked(alloc, cfg.numbers())?;
    let mut waiting = Vec::new(alloc);
    meet(&mut marks, &mut waiting, cfg.points()[0])?;
    meet_all(cfg, &mut marks, &mut waiting)?;
    Ok(marks)
}
