//! The least table of a module.

ghost use Rattle.std.specs.Prelude.{◌≡◌, ◌++◌, ◌∷◌, [], ◌^◌, ◌≤◌, ◌<◌, ◌↔◌, ℕ, IfOk, IsTrue, length, vec_len};
ghost use Rattle.std.specs.List.{All};
ghost use Rattle.wasm_types.specs.Hosts.{IsFunction};
ghost use Rattle.wasm_types.specs.Spaces.{func_types};
ghost use Rattle.worklist.specs.Search.{IsMarked};
ghost use Rattle.flow_domain.specs.Reach.{Reached as Reaches};
ghost use Rattle.flow_domain.specs.Summaries.{IsTableOf};
ghost use Rattle.call_graph.specs.Graph.{IsCallGraph, IsReachedFrom};
ghost use Rattle.called_rows.specs.Funcs.{AnyOf};
ghost use Rattle.summary_fix.specs.TwoRuns.{CallsLead, HasExactCover, HasLedRows, IsLeastFrom, IsLeastTable, TableAgrees, TableReturns};

use crate::rounds::{callers_of, settle};
use crate::start::{push_mark, start_table};
use call_graph::{CallGraph, Reached, graph};
use flow_domain::SummaryTable;
use std::alloc::Global;
use wasm_types::{NoMemory, ValidModule};

/// Whether one of some functions is among those that a function reaches.
fn any_reached(m: &ValidModule, reached: &Reached, root: u32, funcs: &[usize]) -> bool
    requires reached { IsReachedFrom m.now root reached.now }
    requires within { All (λ f. IsFunction m.now f) funcs.now }
    requires few { length (func_types m.now) ≤ 2 ^ 32 }
    ensures { IsTrue result ↔ AnyOf funcs.now (λ f. Reaches m.now root f) }
{
    for func in funcs {
        if reached.has(*func as u32) {
            return true;
        }
    }
    false
}

/// Whether calls lead from a function back to it: one that it reaches calls it.
fn leads_back(
    alloc: Global,
    m: &ValidModule,
    graph: &CallGraph,
    reached: &Reached,
    root: u32,
) -> Result<bool, NoMemory>
    requires graph { IsCallGraph m.now graph.now }
    requires reached { IsReachedFrom m.now root reached.now }
    requires root { IsFunction m.now root }
    requires few { length (func_types m.now) ≤ 2 ^ 32 }
    ensures { IfOk result (λ back. IsTrue back ↔ CallsLead m.now root root) }
{
    let callers = callers_of(alloc, m, graph, root as usize, true)?;
    Ok(any_reached(m, reached, root, &callers))
}

/// Whether calls lead from a function to another, or to itself, where `back` tells that.
fn leads_to(m: &ValidModule, reached: &Reached, root: u32, func: u32, back: bool) -> bool
    requires reached { IsReachedFrom m.now root reached.now }
    requires there { IsFunction m.now func }
    requires back { IsTrue back ↔ CallsLead m.now root root }
    ensures { IsTrue result ↔ CallsLead m.now root func }
{
    if func == root {
        return back;
    }
    reached.has(func)
}

/// By function whether calls lead to it from one of them.
fn reached_from(
    alloc: Global,
    m: &ValidModule,
    graph: &CallGraph,
    root: u32,
    count: usize,
) -> Result<Vec<bool>, NoMemory>
    requires graph { IsCallGraph m.now graph.now }
    requires root { IsFunction m.now root }
    requires count { count ≡ length (func_types m.now) }
    requires few { count ≤ 2 ^ 32 }
    ensures long { IfOk result (λ marks. length marks.items ≡ count) }
    ensures exact { IfOk result (λ marks. (f : ℕ) → IsFunction m.now f → (IsMarked marks.items f ↔ CallsLead m.now root f)) }
{
    let reached = graph.reached(alloc, root)?;
    let back = leads_back(alloc, m, graph, &reached, root)?;
    let mut marks = Vec::new(alloc);
    for func in 0..count {
        push_mark(&mut marks, leads_to(m, &reached, root, func as u32, back))?;
    }
    Ok(marks)
}

/// For each function of a module its summary: which inputs each of its outputs may depend on, by as many rounds of rows as add any. It fails only where
/// memory is refused.
pub fn summarise(alloc: Global, m: &ValidModule) -> Result<SummaryTable, NoMemory>
    ensures table { IfOk result (λ t. IsTableOf m.now t) }
    // There are sets of locations that functions write and touch just as they are defined; the rows are those of any round with such sets.
    ensures cover { IfOk result (λ _. HasExactCover m.now) }
    ensures exact { IfOk result (λ t. IsLeastTable m.now t) }
    // Two invocations of a function, an own or an imported one, that both return, from starts that differ only in what the table omits from an output, agree on
    // it.
    ensures agree { IfOk result (λ t. TableAgrees m.now t) }
    // Where one returns, another whose start differs only in what the table omits from completion returns too, after as many turns.
    ensures returns { IfOk result (λ t. TableReturns m.now t) }
{
    let graph = graph(alloc, m)?;
    let mut table = start_table(alloc, m, &graph)?;
    let wanted = vec![in alloc; true; table.count()].map_err(|_| NoMemory)?;
    settle(alloc, m, &graph, &mut table, &wanted)?;
    Ok(table)
}

/// The summaries of the functions that calls lead to from one of them: other own functions have none, nor has this one where calls don't lead back to it. It
/// takes time and memory by the rounds over those functions alone, and by the module once. It fails only where memory is refused.
pub fn summarise_from(
    alloc: Global,
    m: &ValidModule,
    graph: &CallGraph,
    root: u32,
) -> Result<SummaryTable, NoMemory>
    requires graph { IsCallGraph m.now graph.now }
    requires root { IsFunction m.now root }
    ensures table { IfOk result (λ t. IsTableOf m.now t) }
    ensures cover { IfOk result (λ _. HasExactCover m.now) }
    ensures exact { IfOk result (λ t. IsLeastFrom m.now root t) }
    ensures led { IfOk result (λ t. HasLedRows m.now root t) }
{
    let mut table = start_table(alloc, m, graph)?;
    let wanted = reached_from(alloc, m, graph, root, table.count())?;
    settle(alloc, m, graph, &mut table, &wanted)?;
    Ok(table)
}
