//! The points of a body.

ghost use Rattle.std.specs.Prelude.{◌≡◌, [], ◌∷◌, IfOk};
ghost use Rattle.block_cfg.specs.Points.{HasPoints, IsCfgOf};

use crate::before::turned;
use crate::cfg::Cfg;
use crate::stops::stops;
use crate::walk::{Found, walk_code};
use sqlite_items::Items;
use std::alloc::Global;
use wasm_types::{Body, NoMemory, Point};

/// Nothing found, with an empty list for the end of the body.
fn nothing(alloc: Global) -> Result<Found, NoMemory>
    ensures points { IfOk result (λ found. found.points.items ≡ []) }
    ensures next { IfOk result (λ found. found.next.items ≡ [] ∷ []) }
{
    let mut next = Vec::new(alloc);
    next.push(Items::new(alloc)).map_err(|_| NoMemory)?;
    Ok(Found {
        points: Vec::new(alloc),
        next,
    })
}

/// The points of a body, for each those that it leads to and those that lead to it, and where contents end (docs/ANALYSES.md, "Points"). Which functions
/// are called and what they leave makes no difference. An error comes only where memory is refused.
pub fn edges(alloc: Global, body: &Body) -> Result<Cfg, NoMemory>
    requires { HasPoints body.now }
    ensures { IfOk result (λ cfg. IsCfgOf body.now cfg) }
{
    let mut labels = Vec::new(alloc);
    labels.push(Point::Exit).map_err(|_| NoMemory)?;
    let mut found = nothing(alloc)?;
    let code = body.code.as_slice();
    walk_code(alloc, &mut labels, &mut found, code, 0, Point::Exit, true)?;
    let Found { mut points, next } = found;
    points.push(Point::Exit).map_err(|_| NoMemory)?;
    let before = turned(alloc, next.as_slice())?;
    let stops = stops(alloc, body, next.len() / 2)?;
    Ok(Cfg::of(points, next, before, stops))
}
