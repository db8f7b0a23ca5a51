//! How many locals the items of a body need.

ghost use Rattle.std.specs.Prelude.{◌≡◌, ◌^◌, ◌<◌, ◌≤◌, ℕ, slice_get};
ghost use Rattle.std.specs.List.{All};
ghost use Rattle.flow_domain.specs.LocTables.{row_in};
ghost use Rattle.func_flow.specs.Items as spec;

use flow_domain::{LocTable, LocUse};
use wasm_types::Loc;

/// Which of its kind a location is.
fn index_of(loc: Loc) -> usize
    ensures index { result ≡ spec.index_of loc }
    ensures small { result < 2 ^ 32 }
{
    match loc {
        Loc::Local(local) => local as usize,
        Loc::Global(global) => global as usize,
        Loc::Mem | Loc::Size | Loc::Host => 0,
    }
}

/// A number above those of the locations that a position uses.
fn row_bound(uses: &[LocUse]) -> usize
    ensures below { All (λ one. spec.index_of one.loc < result) uses.now }
    ensures small { result ≤ 2 ^ 32 }
{
    let mut bound = 0;
    for one in uses {
        bound = bound.max(index_of(one.loc) + 1);
    }
    bound
}

/// A number above those of all locations that positions use, each by its kind.
pub(crate) fn locs_bound(locs: &LocTable) -> usize
    ensures below { (p : ℕ) → All (λ one. spec.index_of one.loc < result) (row_in (slice_get locs.now p)) }
    ensures small { result ≤ 2 ^ 32 }
{
    let mut bound = 0;
    for place in 0..locs.count() {
        bound = bound.max(row_bound(locs.uses(place)));
    }
    bound
}
