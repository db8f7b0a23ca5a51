//! The positions that write each location.

ghost use Rattle.std.specs.Prelude.{◌≡◌, ◌≢◌, ◌++◌, ◌∷◌, [], ◌+◌, ◌^◌, ◌<◌, ◌≤◌, ℕ, IfOk, MatchOption, length};
ghost use Rattle.std.specs.List.{AllPairs};
ghost use Rattle.wasm_types.specs.declared.place.Loc.{Loc};
ghost use Rattle.flow_domain.specs.LocTables.{HasUse};
ghost use Rattle.single_entry.specs.Last.{HasNoneOf, IsLastOf};
ghost use Rattle.def_use.specs.Places.{AreWriters};
ghost use Rattle.def_use.specs.Writers as spec;

use flow_domain::{LocTable, LocUse};
use single_entry::last_of;
use std::alloc::Global;
use wasm_types::{Loc, NoMemory};

/// By the number of each location the positions that write it, in order.
#[derive(Drop)]
pub struct Writers {
    rows: Vec<Vec<usize>>,
}

/// The number of a location.
pub(crate) fn loc_number(loc: Loc) -> usize
    ensures number { result ≡ spec.loc_number loc }
    ensures small { result < 2 ^ 34 }
{
    match loc {
        Loc::Mem => 0,
        Loc::Size => 1,
        Loc::Host => 2,
        Loc::Local(local) => 2 * local as usize + 3,
        Loc::Global(global) => 2 * global as usize + 4,
    }
}

/// At least so many rows.
fn extend(alloc: Global, rows: &mut Vec<Vec<usize>>, count: usize) -> Result<(), NoMemory>
    ensures same { IfOk result (λ _. (n : ℕ) → spec.row_at rows.new.items n ≡ spec.row_at rows.old.items n) }
    ensures enough { IfOk result (λ _. count ≤ length rows.new.items) }
{
    for _row in rows.len()..count {
        rows.push(Vec::new(alloc)).map_err(|_| NoMemory)?;
    }
    Ok(())
}

/// One position more in a row.
fn add(alloc: Global, rows: &mut Vec<Vec<usize>>, number: usize, at: usize) -> Result<(), NoMemory>
    requires { number < 2 ^ 34 }
    ensures here { IfOk result (λ _. spec.row_at rows.new.items number ≡ spec.row_at rows.old.items number ++ at ∷ []) }
    ensures others { IfOk result (λ _. (n : ℕ) → n ≢ number → spec.row_at rows.new.items n ≡ spec.row_at rows.old.items n) }
{
    extend(alloc, rows, number + 1)?;
    rows[number].push(at).map_err(|_| NoMemory)?;
    Ok(())
}

/// A position more in the row of each location that it writes.
fn add_uses(
    alloc: Global,
    rows: &mut Vec<Vec<usize>>,
    uses: &[LocUse],
    at: usize,
) -> Result<(), NoMemory>
    ensures { IfOk result (λ _. (x : Loc) → spec.RowAdds at (HasUse (λ u. u.writes) uses.now x) (spec.row_at rows.old.items (spec.loc_number x)) (spec.row_at rows.new.items (spec.loc_number x))) }
{
    for one in uses {
        if one.writes {
            add(alloc, rows, loc_number(one.loc), at)?;
        }
    }
    Ok(())
}

impl Writers {
    /// Those of a table. It fails only where memory is refused.
    pub fn new(alloc: Global, locs: &LocTable) -> Result<Writers, NoMemory>
        ensures { IfOk result (λ writers. (x : Loc) → AreWriters locs.now x (spec.writers_of writers.rows.items x)) }
    {
        let mut rows = Vec::new(alloc);
        for at in 0..locs.count() {
            add_uses(alloc, &mut rows, locs.uses(at), at)?;
        }
        Ok(Writers { rows })
    }

    /// The positions that write a location, in order.
    pub fn of(&self, loc: Loc) -> &[usize]
        ensures { result.now ≡ spec.writers_of self.now.rows.items loc }
    {
        match self.rows.get(loc_number(loc)) {
            Some(row) => row.as_slice(),
            None => &[],
        }
    }

    /// The last position that writes a location, of those from `begin` on that stand before `end`.
    pub fn last(&self, loc: Loc, begin: usize, end: usize) -> Option<usize>
        requires { AllPairs (λ a b. a ≤ b) (spec.writers_of self.now.rows.items loc) }
        ensures { MatchOption result (HasNoneOf (spec.writers_of self.now.rows.items loc) begin end)
            (λ w. IsLastOf (spec.writers_of self.now.rows.items loc) begin end w) }
    {
        last_of(self.of(loc), begin, end)
    }
}
