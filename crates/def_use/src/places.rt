//! The points of a body by their places in the list of its graph.

ghost use Rattle.std.specs.Prelude.{◌≡◌, ◌<◌, IfOk, length};
ghost use Rattle.block_cfg.specs.Graph.{EachOnce, number};
ghost use Rattle.def_use.specs.Places.{IsPlaces};
ghost use Rattle.def_use.specs.Places as spec;

use block_cfg::{Cfg, point_number};
use std::alloc::Global;
use wasm_types::{NoMemory, Point};

/// By the number of each point its place in the list.
pub(crate) fn places_of(alloc: Global, cfg: &Cfg) -> Result<Vec<usize>, NoMemory>
    requires { EachOnce cfg.now.points }
    ensures { IfOk result (λ places. IsPlaces cfg.now places.items) }
{
    let mut places = vec![in alloc; 0usize; cfg.numbers()].map_err(|_| NoMemory)?;
    for (place, point) in cfg.points().iter().enumerate() {
        places[point_number(*point)] = place;
    }
    Ok(places)
}

/// The place of a point.
pub(crate) fn place_of(places: &[usize], point: Point) -> usize
    requires { number point < length places.now }
    ensures { result ≡ spec.place_of places.now point }
{
    places[point_number(point)]
}
