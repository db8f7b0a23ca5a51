//! The rows of a function, by what a search met.

ghost use Rattle.std.specs.Prelude.{◌≡◌, ◌+◌, ◌*◌, ◌^◌, ◌<◌, ◌≤◌, ◌↔◌, ◌⊎◌, ℕ, IfOk, IsTrue, Some, length};
ghost use Rattle.wasm_types.specs.declared.place.Loc.{Loc};
ghost use Rattle.block_cfg.specs.Graph.{number};
ghost use Rattle.flow_domain.specs.Rows.{Output as Asked};
ghost use Rattle.flow_domain.specs.Summaries.{HasInput, IsShape, asked, column_number, row_number};
ghost use Rattle.func_flow.specs.Met as spec;

use crate::items::Item;
use crate::numbering::Numbering;
use called_rows::input_of;
use flow_domain::{Output, Summary};
use sparse_reach::SparseRows;
use std::alloc::Global;
use wasm_types::{Loc, NoMemory, Point};

/// The output that has a row.
#[tactic(auto, using(flow_domain::proofs::Summing::among_is))]
fn output_at(globals: u32, row: usize) -> Output
    requires { row < 5 + globals }
    ensures { row_number globals (asked result) ≡ Some row }
{
    match row {
        0 => Output::Done,
        1 => Output::Ret,
        2 => Output::Mem,
        3 => Output::Size,
        4 => Output::Host,
        _ => Output::Global((row - 5) as u32),
    }
}

/// The location at the entry that has a column.
#[tactic(auto, using(flow_domain::proofs::Summing::among_is))]
fn entry_at(globals: u32, params: u32, column: usize) -> Loc
    requires { column < 3 + globals + params }
    ensures { column_number globals params result ≡ Some column }
{
    if column == 0 {
        return Loc::Mem;
    }
    if column == 1 {
        return Loc::Size;
    }
    if column == 2 {
        return Loc::Host;
    }
    let place = column - 3;
    if place < globals as usize {
        return Loc::Global(place as u32);
    }
    Loc::Local((place - globals as usize) as u32)
}

/// Has the output of a row depend on the input of a column, where the search gave an item the row's label.
fn add_bit(summary: &mut Summary, met: &SparseRows, item: usize, row: usize, column: usize)
    requires row { row < 5 + summary.old.globals }
    requires column { column < 3 + summary.old.globals + summary.old.params }
    requires item { item < met.now.rows }
    requires label { row < met.now.words * 64 }
    ensures shape { IsShape summary.old.globals summary.old.params summary.new }
    ensures added { (o : Asked) (x : Loc) → HasInput summary.new o x ↔
        (HasInput summary.old o x ⊎ spec.IsMetAt met.now item summary.old.globals summary.old.params row column o x) }
{
    if !met.has(item, row) {
        return;
    }
    let entry = entry_at(summary.globals(), summary.params(), column);
    summary.add(output_at(summary.globals(), row), input_of(entry));
}

/// The same for each row.
fn add_column(summary: &mut Summary, met: &SparseRows, item: usize, column: usize)
    requires column { column < 3 + summary.old.globals + summary.old.params }
    requires item { item < met.now.rows }
    requires labels { 5 + summary.old.globals ≤ met.now.words * 64 }
    ensures shape { IsShape summary.old.globals summary.old.params summary.new }
    ensures added { (o : Asked) (x : Loc) → HasInput summary.new o x ↔
        (HasInput summary.old o x ⊎ spec.AnyRow met.now item summary.old.globals summary.old.params (5 + summary.old.globals) column o x) }
{
    let rows = 5 + summary.globals() as usize;
    for row in 0..rows {
        add_bit(summary, met, item, row, column);
    }
}

/// What the search met at a point: for each output the locations that it needs there, of those that may be inputs.
pub(crate) fn rows_at(
    alloc: Global,
    numbering: Numbering,
    met: &SparseRows,
    first: Point,
    globals: u32,
    params: u32,
) -> Result<Summary, NoMemory>
    requires globals { numbering.globals ≡ globals }
    requires params { params ≤ numbering.locals }
    requires first { number first < numbering.nodes }
    requires rows { met.now.rows ≡ (2 * (numbering.globals + numbering.locals) + 10) * numbering.nodes }
    requires labels { 5 + globals ≤ met.now.words * 64 }
    ensures shape { IfOk result (λ s. IsShape globals params s) }
    ensures exact { IfOk result (λ s. (o : Asked) (x : Loc) → HasInput s o x ↔ spec.IsMet met.now numbering first globals params (3 + globals + params) o x) }
{
    let mut summary = Summary::none(alloc, globals, params)?;
    for column in 0..3 + globals as usize + params as usize {
        let entry = entry_at(globals, params, column);
        let item = numbering.number(Item::Needed(entry, first));
        add_column(&mut summary, met, item, column);
    }
    Ok(summary)
}
