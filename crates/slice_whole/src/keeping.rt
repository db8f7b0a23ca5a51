//! Kept sets, by the rows of the functions that calls lead to.

ghost use Rattle.std.specs.Prelude.{◌≤◌, ◌<◌, ℕ, Bool, IfOk, length};
ghost use Rattle.wasm_types.specs.Spaces.{func_types, import_count};
ghost use Rattle.wasm_types.specs.Subset.{IsSealed};
ghost use Rattle.stack_names.specs.Ends.{HasValues};
ghost use Rattle.flow_domain.specs.KeptSets.{holds};
ghost use Rattle.slice_whole.specs.Slices.{IsKeptOf};

use call_graph::graph;
use flow_domain::Kept;
use slice_closure::close_named;
use stack_names::Names;
use std::alloc::Global;
use summary_fix::summarise_from;
use wasm_types::{NoMemory, Pos, ValidModule};

/// The kept set of a position of an own function, by the names of its body; no node where the position isn't live. Only functions that calls lead to from this
/// one are summarised. It fails only where memory is refused.
pub fn kept_named(
    alloc: Global,
    m: &ValidModule,
    func: u32,
    names: &Names,
    at: Pos,
) -> Result<Kept, NoMemory>
    requires sealed { IsSealed m.now }
    requires imported { import_count m.now ≤ func }
    requires own { func < length (func_types m.now) }
    requires names { (w : ℕ → Bool) → HasValues m.now func w names.now }
    ensures { IfOk result (λ kept. IsKeptOf m.now func at.0 (holds kept)) }
{
    let graph = graph(alloc, m)?;
    let table = summarise_from(alloc, m, &graph, func)?;
    let kept = close_named(alloc, m, func, names, at, &graph, &table)?;
    Ok(kept)
}
