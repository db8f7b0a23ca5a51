//! What some functions do, taken together.

ghost use Rattle.std.specs.Prelude.{◌≡◌, ◌+◌, ◌++◌, ◌∷◌, [], ◌^◌, ◌<◌, ◌≤◌, ◌↔◌, ◌⊎◌, ℕ, IfOk, IsTrue, Some, length, slice_get};
ghost use Rattle.std.specs.List.{All};
ghost use Rattle.wasm_types.specs.declared.module.Module.{Module};
ghost use Rattle.wasm_types.specs.declared.place.Loc.{Loc};
ghost use Rattle.flow_domain.specs.declared.summary.Summary.{Summary as Rows};
ghost use Rattle.flow_domain.specs.Rows.{Output as Asked};
ghost use Rattle.flow_domain.specs.Summaries.{HasInput, IsShape, TableRows};
ghost use Rattle.call_graph.specs.Graph.{IsCallGraph};
ghost use Rattle.called_rows.specs.Funcs as spec;

use crate::locs::loc_at;
use call_graph::CallGraph;
use flow_domain::{Summary, SummaryTable};
use std::alloc::Global;
use wasm_types::{Loc, NoMemory};

/// What a function may do to a location.
#[derive(Clone, Copy, Debug, PartialEq, Eq)]
pub(crate) enum Effect {
    Writes,
    Touches,
}

impl Effect {
    /// Whether a function may do it.
    fn holds(self, graph: &CallGraph, func: usize, loc: Loc) -> bool
        requires { func < 2 ^ 32 }
        ensures { (m : Module) → IsCallGraph m graph.now → (IsTrue result ↔ spec.HasEffect m self func loc) }
    {
        match self {
            Effect::Writes => graph.writes(func as u32, loc),
            Effect::Touches => graph.touches(func as u32, loc),
        }
    }
}

/// Whether one of the functions may do it.
fn any_holds(funcs: &[usize], effect: Effect, graph: &CallGraph, loc: Loc) -> bool
    requires { All (λ f. f < 2 ^ 32) funcs.now }
    ensures { (m : Module) → IsCallGraph m graph.now →
        (IsTrue result ↔ spec.AnyOf funcs.now (λ f. spec.HasEffect m effect f loc)) }
{
    for func in funcs {
        if effect.holds(graph, *func, loc) {
            return true;
        }
    }
    false
}

fn push_mark(marks: &mut Vec<bool>, mark: bool) -> Result<(), NoMemory>
    ensures { IfOk result (λ _. marks.new.items ≡ marks.old.items ++ mark ∷ []) }
{
    marks.push(mark).map_err(|_| NoMemory)?;
    Ok(())
}

/// By the number of a location, locals left out, whether one of the functions may do it.
pub(crate) fn marks_of(
    alloc: Global,
    funcs: &[usize],
    effect: Effect,
    graph: &CallGraph,
    globals: u32,
) -> Result<Vec<bool>, NoMemory>
    requires { All (λ f. f < 2 ^ 32) funcs.now }
    ensures long { IfOk result (λ marks. length marks.items ≡ globals + 3) }
    ensures exact { IfOk result (λ marks. (m : Module) → IsCallGraph m graph.now →
        spec.MarksOf globals marks.items (λ x. spec.AnyOf funcs.now (λ f. spec.HasEffect m effect f x))) }
{
    let mut marks = Vec::new(alloc);
    for index in 0..globals as usize + 3 {
        let loc = loc_at(globals, index);
        let holds = any_holds(funcs, effect, graph, loc);
        push_mark(&mut marks, holds)?;
    }
    Ok(marks)
}

/// How many parameters a function has, by its rows.
fn params_in(table: &SummaryTable, func: usize) -> u32
    requires { func < 2 ^ 32 }
    ensures { (s : Rows) → slice_get table.now.rows.items func ≡ Some s → result ≡ s.params }
{
    match table.get(func as u32) {
        Some(rows) => rows.params(),
        None => 0,
    }
}

/// How many parameters functions of one shape have.
pub(crate) fn params_of(table: &SummaryTable, funcs: &[usize]) -> u32
    requires { All (λ f. f < 2 ^ 32) funcs.now }
    ensures { (globals : ℕ) → spec.ShareShape table.now globals funcs.now → All (spec.AreShaped table.now globals result) funcs.now }
{
    match funcs.get(0) {
        Some(first) => params_in(table, *first),
        None => 0,
    }
}

/// Adds the rows of a function, if it has some.
fn add_func(rows: &mut Summary, table: &SummaryTable, func: usize)
    requires few { func < 2 ^ 32 }
    requires shape { spec.AreShaped table.now rows.old.globals rows.old.params func }
    ensures shape { IsShape rows.old.globals rows.old.params rows.new }
    ensures added { (o : Asked) (x : Loc) → HasInput rows.new o x ↔ (HasInput rows.old o x ⊎ TableRows table.now func o x) }
{
    let Some(more) = table.get(func as u32) else {
        return;
    };
    rows.merge(more);
}

/// The rows of all the functions.
pub(crate) fn rows_of(
    alloc: Global,
    table: &SummaryTable,
    funcs: &[usize],
    globals: u32,
    params: u32,
) -> Result<Summary, NoMemory>
    requires few { All (λ f. f < 2 ^ 32) funcs.now }
    requires shapes { All (spec.AreShaped table.now globals params) funcs.now }
    ensures shape { IfOk result (λ s. IsShape globals params s) }
    ensures exact { IfOk result (λ s. (o : Asked) (x : Loc) → HasInput s o x ↔ spec.AnyOf funcs.now (λ f. TableRows table.now f o x)) }
{
    let mut rows = Summary::none(alloc, globals, params)?;
    for func in funcs {
        add_func(&mut rows, table, *func);
    }
    Ok(rows)
}
