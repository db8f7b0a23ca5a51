//! What the outputs of each function of a module may depend on.

ghost use Rattle.std.specs.Prelude.{◌≡◌, ◌+◌, ◌++◌, ◌∷◌, [], ◌<◌, ◌≤◌, ◌↔◌, IfOk, IsTrue, Some, vec_len, false, slice_get, if◌then◌else◌};
ghost use Rattle.std.specs.Option.{option_copied};
ghost use Rattle.wasm_types.specs.declared.place.Loc.{Loc};
ghost use Rattle.flow_domain.specs.declared.summary.Summary.{Summary};
ghost use Rattle.flow_domain.specs.Rows.{Output as Asked};
ghost use Rattle.flow_domain.specs.Summaries as spec;

use crate::summary::{Input, Output, Summary};
use std::alloc::Global;
use wasm_types::NoMemory;

/// A summary for each function, by its number.
#[derive(Drop)]
pub struct SummaryTable {
    rows: Vec<Summary>,
}

impl SummaryTable {
    /// Of no function.
    pub fn new(alloc: Global) -> SummaryTable
        ensures { result.rows.items ≡ [] }
    {
        SummaryTable {
            rows: Vec::new(alloc),
        }
    }

    /// Puts the summary of the function with the next number at the end. It fails only where memory is refused.
    pub fn push(&mut self, rows: Summary) -> Result<(), NoMemory>
        ensures { IfOk result (λ _. self.new.rows.items ≡ self.old.rows.items ++ rows ∷ []) }
    {
        self.rows.push(rows).map_err(|_| NoMemory)?;
        Ok(())
    }

    /// How many functions there are.
    pub fn count(&self) -> usize
        ensures { result ≡ vec_len self.now.rows }
    {
        self.rows.len()
    }

    /// The summary of a function: none of a function that isn't there.
    pub fn get(&self, func: u32) -> Option<&Summary>
        ensures { option_copied result ≡ slice_get self.now.rows.items func }
    {
        self.rows.get(func as usize)
    }

    /// Whether an output of a function depends on an input: false also where there is no such function, output or input.
    pub fn has(&self, func: u32, out: Output, inp: Input) -> bool
        ensures { IsTrue result ↔ spec.TableRows self.now func (spec.asked out) (spec.place_of inp) }
    {
        match self.get(func) {
            Some(rows) => rows.has(out, inp),
            None => false,
        }
    }

    /// Whether the rows leave an input out of an output.
    pub fn omits(&self, func: u32, out: Output, inp: Input) -> bool
        ensures { IsTrue result ↔ (spec.TableRows self.now func (spec.asked out) (spec.place_of inp) → ⊥) }
    {
        !self.has(func, out, inp)
    }

    /// Adds rows to those of a function: true where something was new.
    pub fn merge(&mut self, func: u32, rows: &Summary) -> bool
        requires within { func < vec_len self.old.rows }
        requires shape { (s : Summary) → slice_get self.old.rows.items func ≡ Some s → spec.IsShape s.globals s.params rows.now }
        ensures merged { spec.IsMerged func rows.now self.old self.new }
        ensures same { result ≡ false → (o : Asked) (x : Loc) → spec.HasInput rows.now o x → spec.TableRows self.old func o x }
        ensures room { spec.table_room self.new + (if result then 1 else 0) ≤ spec.table_room self.old }
    {
        self.rows[func as usize].merge(rows)
    }
}
