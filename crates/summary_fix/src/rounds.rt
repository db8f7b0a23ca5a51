//! Rounds of rows: the rows of functions are made anew until none is added.

ghost use Rattle.std.specs.Prelude.{◌≡◌, ◌≢◌, ℕ, ◌+◌, ◌^◌, ◌<◌, ◌≤◌, ◌↔◌, ◌⊎◌, IfOk, IsSome, IsTrue, false, if◌then◌else◌, length, true, vec_len};
ghost use Rattle.std.specs.List.{All, Contains};
ghost use Rattle.wasm_types.specs.Hosts.{IsFunction};
ghost use Rattle.wasm_types.specs.Spaces.{body_of};
ghost use Rattle.worklist.specs.Search.{IsMarked};
ghost use Rattle.flow_domain.specs.Reach.{CallsFunc};
ghost use Rattle.flow_domain.specs.Summaries.{table_room};
ghost use Rattle.call_graph.specs.Graph.{CallsNumber, IsCallGraph};
ghost use Rattle.called_rows.specs.Classes.{IsTargetTable};
ghost use Rattle.summary_fix.specs.Settled.{GrowsOnly, IsApart, IsFull, IsSettled, IsSound};

use call_graph::CallGraph;
use called_rows::TargetTable;
use flow_domain::SummaryTable;
use func_flow::flow_rows;
use std::alloc::Global;
use wasm_types::{NoMemory, ValidModule};

/// Whether a function got new rows, and whether some of them are new to its class.
#[derive(Clone, Copy)]
struct Growth {
    rows: bool,
    class: bool,
}

/// That of a function with new rows or none, some of which its class did not have.
fn growth_of(rows: bool, wide: bool) -> Growth
    ensures rows { result.rows ≡ rows }
    ensures within { IsTrue result.class → IsTrue result.rows }
    ensures wide { result.rows ≡ true → result.class ≡ false → wide ≡ false }
{
    Growth {
        rows,
        class: rows && wide,
    }
}

fn any(one: bool, other: bool) -> bool
    ensures { IsTrue result ↔ (IsTrue one ⊎ IsTrue other) }
{
    one || other
}

/// Adds the rows that those of a function lead to, by one round.
fn add_rows(
    alloc: Global,
    m: &ValidModule,
    graph: &CallGraph,
    table: &mut SummaryTable,
    targets: &mut TargetTable,
    func: u32,
) -> Result<Growth, NoMemory>
    requires graph { IsCallGraph m.now graph.now }
    requires body { IsSome (body_of m.now func) }
    requires sound { IsSound m.now table.old }
    requires targets { IsTargetTable m.now graph.now table.old targets.old }
    ensures sound { IfOk result (λ _. IsSound m.now table.new) }
    ensures targets { IfOk result (λ _. IsTargetTable m.now graph.now table.new targets.new) }
    ensures full { IfOk result (λ grew. IsApart m.now grew func func → IsFull m.now table.new func) }
    ensures others { IfOk result (λ grew. (f : ℕ) → IsFull m.now table.old f → IsApart m.now grew f func → IsFull m.now table.new f) }
    ensures room { IfOk result (λ grew. table_room table.new + (if grew.rows then 1 else 0) ≤ table_room table.old) }
    ensures within { IfOk result (λ grew. IsTrue grew.class → IsTrue grew.rows) }
    ensures only { IfOk result (λ _. GrowsOnly (λ f. f ≡ func) table.old table.new) }
{
    let rows = flow_rows(alloc, m, func, graph, table, targets)?;
    let wide = targets.add(graph, func, &rows);
    let grew = table.merge(func, &rows);
    Ok(growth_of(grew, wide))
}

/// Adds rows of a function by one round after another, until none is new; true where some are new to its class.
fn add_all(
    alloc: Global,
    m: &ValidModule,
    graph: &CallGraph,
    table: &mut SummaryTable,
    targets: &mut TargetTable,
    func: u32,
) -> Result<bool, NoMemory>
    requires graph { IsCallGraph m.now graph.now }
    requires body { IsSome (body_of m.now func) }
    requires sound { IsSound m.now table.old }
    requires targets { IsTargetTable m.now graph.now table.old targets.old }
    ensures sound { IfOk result (λ _. IsSound m.now table.new) }
    ensures targets { IfOk result (λ _. IsTargetTable m.now graph.now table.new targets.new) }
    ensures full { IfOk result (λ _. IsFull m.now table.new func) }
    ensures others { IfOk result (λ wide. (f : ℕ) → IsFull m.now table.old f → (CallsNumber m.now f func → ⊥) → (IsTrue wide → CallsFunc m.now f func → ⊥)
        → IsFull m.now table.new f) }
    ensures room { IfOk result (λ _. table_room table.new ≤ table_room table.old) }
    ensures only { IfOk result (λ _. GrowsOnly (λ f. f ≡ func) table.old table.new) }
{
    let mut wide = false;
    loop {
        let grew = add_rows(alloc, m, graph, table, targets, func)?;
        if !grew.rows {
            return Ok(wide);
        }
        wide = any(wide, grew.class);
    }
}

/// Adds rows of an own function until one more round adds none.
fn fill_own(
    alloc: Global,
    m: &ValidModule,
    graph: &CallGraph,
    table: &mut SummaryTable,
    targets: &mut TargetTable,
    func: u32,
) -> Result<Growth, NoMemory>
    requires graph { IsCallGraph m.now graph.now }
    requires func { IsFunction m.now func }
    requires body { IsSome (body_of m.now func) }
    requires sound { IsSound m.now table.old }
    requires targets { IsTargetTable m.now graph.now table.old targets.old }
    ensures sound { IfOk result (λ _. IsSound m.now table.new) }
    ensures targets { IfOk result (λ _. IsTargetTable m.now graph.now table.new targets.new) }
    ensures full { IfOk result (λ _. IsFull m.now table.new func) }
    ensures others { IfOk result (λ grew. (f : ℕ) → IsFull m.now table.old f → IsApart m.now grew f func → IsFull m.now table.new f) }
    ensures room { IfOk result (λ grew. table_room table.new + (if grew.rows then 1 else 0) ≤ table_room table.old) }
    ensures within { IfOk result (λ grew. IsTrue grew.class → IsTrue grew.rows) }
    ensures only { IfOk result (λ _. GrowsOnly (λ f. f ≡ func) table.old table.new) }
{
    let grew = add_rows(alloc, m, graph, table, targets, func)?;
    if !grew.rows {
        return Ok(grew);
    }
    if !graph.calls(func, func) {
        return Ok(grew);
    }
    let wide = add_all(alloc, m, graph, table, targets, func)?;
    Ok(Growth {
        rows: true,
        class: any(grew.class, wide),
    })
}

/// Adds rows of a function until one more round adds none.
fn fill(
    alloc: Global,
    m: &ValidModule,
    graph: &CallGraph,
    table: &mut SummaryTable,
    targets: &mut TargetTable,
    func: u32,
) -> Result<Growth, NoMemory>
    requires graph { IsCallGraph m.now graph.now }
    requires func { IsFunction m.now func }
    requires sound { IsSound m.now table.old }
    requires targets { IsTargetTable m.now graph.now table.old targets.old }
    ensures sound { IfOk result (λ _. IsSound m.now table.new) }
    ensures targets { IfOk result (λ _. IsTargetTable m.now graph.now table.new targets.new) }
    ensures full { IfOk result (λ _. IsFull m.now table.new func) }
    ensures others { IfOk result (λ grew. (f : ℕ) → IsFull m.now table.old f → IsApart m.now grew f func → IsFull m.now table.new f) }
    ensures room { IfOk result (λ grew. table_room table.new + (if grew.rows then 1 else 0) ≤ table_room table.old) }
    ensures within { IfOk result (λ grew. IsTrue grew.class → IsTrue grew.rows) }
    ensures only { IfOk result (λ _. GrowsOnly (λ f. f ≡ func) table.old table.new) }
{
    match m.module().body(func) {
        Some(_) => {
            let grew = fill_own(alloc, m, graph, table, targets, func)?;
            Ok(grew)
        }
        None => Ok(Growth {
            rows: false,
            class: false,
        }),
    }
}

/// Marks a function, if it is wanted.
fn mark(marks: &mut [bool], wanted: &[bool], func: usize)
    requires within { func < length marks.old }
    requires wanted { length wanted.now ≡ length marks.old }
    ensures kept { (f : ℕ) → IsMarked marks.old f → IsMarked marks.new f }
    ensures marked { IsMarked wanted.now func → IsMarked marks.new func }
    ensures only { (f : ℕ) → IsMarked marks.new f → IsMarked marks.old f ⊎ IsMarked wanted.now f }
{
    if wanted[func] {
        marks[func] = true;
    }
}

/// Marks each of some functions that is wanted.
fn mark_each(marks: &mut [bool], wanted: &[bool], funcs: &[usize])
    requires within { All (λ f. f < length marks.old) funcs.now }
    requires wanted { length wanted.now ≡ length marks.old }
    ensures kept { (f : ℕ) → IsMarked marks.old f → IsMarked marks.new f }
    ensures all { (f : ℕ) → Contains funcs.now f → IsMarked wanted.now f → IsMarked marks.new f }
    ensures only { (f : ℕ) → IsMarked marks.new f → IsMarked marks.old f ⊎ IsMarked wanted.now f }
{
    for func in funcs {
        mark(marks, wanted, *func);
    }
}

/// The functions that call another: those by its number, or all.
pub(crate) fn callers_of(
    alloc: Global,
    m: &ValidModule,
    graph: &CallGraph,
    func: usize,
    all: bool,
) -> Result<Vec<usize>, NoMemory>
    requires graph { IsCallGraph m.now graph.now }
    requires func { IsFunction m.now func }
    ensures within { IfOk result (λ callers. All (λ f. IsFunction m.now f) callers.items) }
    ensures numbers { IfOk result (λ callers. (f : ℕ) → CallsNumber m.now f func → Contains callers.items f) }
    ensures every { IfOk result (λ callers. IsTrue all → (f : ℕ) → CallsFunc m.now f func → Contains callers.items f) }
    ensures only { IfOk result (λ callers. (f : ℕ) → Contains callers.items f → CallsFunc m.now f func) }
{
    let mut callers = Vec::new(alloc);
    if all {
        graph.push_callers(func, &mut callers)?;
        return Ok(callers);
    }
    graph.push_number_callers(func, &mut callers)?;
    Ok(callers)
}

/// Marks the wanted functions that call another: those by its number, or all.
fn mark_callers(
    alloc: Global,
    m: &ValidModule,
    graph: &CallGraph,
    wanted: &[bool],
    marks: &mut [bool],
    func: usize,
    all: bool,
) -> Result<(), NoMemory>
    requires graph { IsCallGraph m.now graph.now }
    requires func { IsFunction m.now func }
    requires length { (f : ℕ) → IsFunction m.now f → f < length marks.old }
    requires wanted { length wanted.now ≡ length marks.old }
    ensures kept { (f : ℕ) → IsMarked marks.old f → IsMarked marks.new f }
    ensures numbers { IfOk result (λ _. (f : ℕ) → CallsNumber m.now f func → IsMarked wanted.now f → IsMarked marks.new f) }
    ensures every { IfOk result (λ _. IsTrue all → (f : ℕ) → CallsFunc m.now f func → IsMarked wanted.now f → IsMarked marks.new f) }
    ensures only { IfOk result (λ _. (f : ℕ) → IsMarked marks.new f → IsMarked marks.old f ⊎ IsMarked wanted.now f) }
{
    let callers = callers_of(alloc, m, graph, func, all)?;
    mark_each(marks, wanted, &callers);
    Ok(())
}

/// Adds rows of a function until one more round adds none, and marks its wanted callers where some are new: those through the table only where they are new to
/// its class, since such calls have the rows of the class. True where some are new.
fn refresh(
    alloc: Global,
    m: &ValidModule,
    graph: &CallGraph,
    table: &mut SummaryTable,
    targets: &mut TargetTable,
    wanted: &[bool],
    marks: &mut [bool],
    func: usize,
) -> Result<bool, NoMemory>
    requires graph { IsCallGraph m.now graph.now }
    requires func { IsFunction m.now func }
    requires sound { IsSound m.now table.old }
    requires targets { IsTargetTable m.now graph.now table.old targets.old }
    requires settled { IsSettled m.now table.old wanted.now marks.old }
    ensures sound { IfOk result (λ _. IsSound m.now table.new) }
    ensures targets { IfOk result (λ _. IsTargetTable m.now graph.now table.new targets.new) }
    ensures settled { IfOk result (λ _. IsSettled m.now table.new wanted.now marks.new) }
    ensures room { IfOk result (λ grew. table_room table.new + (if grew then 1 else 0) ≤ table_room table.old) }
    ensures full { IfOk result (λ grew. grew ≡ false → (f : ℕ) → IsMarked marks.new f → IsMarked marks.old f × (f ≢ func)) }
    ensures only { IfOk result (λ _. GrowsOnly (λ f. f ≡ func) table.old table.new) }
{
    marks[func] = false;
    let grew = fill(alloc, m, graph, table, targets, func as u32)?;
    if grew.rows {
        mark_callers(alloc, m, graph, wanted, marks, func, grew.class)?;
    }
    Ok(grew.rows)
}

/// Refreshes each marked function, in order; true where rows were added.
fn pass(
    alloc: Global,
    m: &ValidModule,
    graph: &CallGraph,
    table: &mut SummaryTable,
    targets: &mut TargetTable,
    wanted: &[bool],
    marks: &mut [bool],
    order: &[usize],
) -> Result<bool, NoMemory>
    requires graph { IsCallGraph m.now graph.now }
    requires order { All (λ f. IsFunction m.now f) order.now }
    requires sound { IsSound m.now table.old }
    requires targets { IsTargetTable m.now graph.now table.old targets.old }
    requires settled { IsSettled m.now table.old wanted.now marks.old }
    ensures sound { IfOk result (λ _. IsSound m.now table.new) }
    ensures targets { IfOk result (λ _. IsTargetTable m.now graph.now table.new targets.new) }
    ensures settled { IfOk result (λ _. IsSettled m.now table.new wanted.now marks.new) }
    ensures room { IfOk result (λ grew. table_room table.new + (if grew then 1 else 0) ≤ table_room table.old) }
    ensures full { IfOk result (λ grew. grew ≡ false → (f : ℕ) → Contains order.now f → IsMarked marks.new f → ⊥) }
    ensures only { IfOk result (λ _. GrowsOnly (IsMarked wanted.now) table.old table.new) }
{
    let mut grew = false;
    for func in order {
        if marks[*func] {
            if refresh(alloc, m, graph, table, targets, wanted, marks, *func)? {
                grew = true;
            }
        }
    }
    Ok(grew)
}

/// Adds rows to those of wanted functions, and of no others, until no round adds any, callees first where no cycle leads back. Only functions that call one
/// whose rows grew are taken up again. It fails only where memory is refused.
pub(crate) fn settle(
    alloc: Global,
    m: &ValidModule,
    graph: &CallGraph,
    table: &mut SummaryTable,
    wanted: &[bool],
) -> Result<(), NoMemory>
    requires graph { IsCallGraph m.now graph.now }
    requires sound { IsSound m.now table.old }
    requires wanted { length wanted.now ≡ vec_len table.old.rows }
    ensures sound { IfOk result (λ _. IsSound m.now table.new) }
    ensures full { IfOk result (λ _. (f : ℕ) → IsFunction m.now f → IsMarked wanted.now f → IsFull m.now table.new f) }
    ensures only { IfOk result (λ _. GrowsOnly (IsMarked wanted.now) table.old table.new) }
{
    let mut targets = TargetTable::of(alloc, m, graph, table)?;
    let mut marks = Vec::new(alloc);
    marks.extend_from_slice(wanted).map_err(|_| NoMemory)?;
    loop {
        let grew = pass(
            alloc,
            m,
            graph,
            table,
            &mut targets,
            wanted,
            &mut marks,
            graph.order(),
        )?;
        if !grew {
            return Ok(());
        }
    }
}
