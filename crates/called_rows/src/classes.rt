//! What the functions do, taken together, that a call through the table may find.

ghost use Rattle.std.specs.Prelude.{◌≡◌, ◌++◌, ◌∷◌, [], ℕ, IfOk, false, length, slice_get};
ghost use Rattle.std.specs.Option.{option_copied};
ghost use Rattle.wasm_types.specs.declared.module.Module.{Module};
ghost use Rattle.wasm_types.specs.Spaces.{globals_of};
ghost use Rattle.flow_domain.specs.declared.summary_table.SummaryTable.{SummaryTable};
ghost use Rattle.flow_domain.specs.Summaries.{IsMerged, IsTableOf};
ghost use Rattle.call_graph.specs.Graph.{IsCallGraph};
ghost use Rattle.call_graph.specs.Tells.{HasClass};
ghost use Rattle.called_rows.specs.Classes as spec;

use crate::funcs::{Effect, marks_of, params_of, rows_of};
use body_check::Spaces;
use call_graph::CallGraph;
use flow_domain::{Summary, SummaryTable};
use std::alloc::Global;
use wasm_types::{NoMemory, ValidModule};

/// The rows of all functions of a class, and by the number of a location whether one of them writes it, and whether one touches it.
#[derive(Drop)]
pub(crate) struct Targets {
    pub(crate) rows: Summary,
    pub(crate) writes: Vec<bool>,
    pub(crate) touches: Vec<bool>,
}

/// What the functions of each class do, taken together: each class is gone through once, and not for each call. And what the module names by number.
#[derive(Drop)]
pub struct TargetTable {
    globals: u32,
    spaces: Spaces,
    by_class: Vec<Targets>,
}

/// What the functions of a class do.
fn targets_of(
    alloc: Global,
    m: &ValidModule,
    graph: &CallGraph,
    table: &SummaryTable,
    globals: u32,
    class: usize,
) -> Result<Targets, NoMemory>
    requires graph { IsCallGraph m.now graph.now }
    requires table { IsTableOf m.now table.now }
    requires globals { globals ≡ length (globals_of m.now) }
    ensures { IfOk result (λ u. spec.AreTogether m.now graph.now table.now class u) }
{
    let funcs = graph.members_of(class);
    let params = params_of(table, funcs);
    let rows = rows_of(alloc, table, funcs, globals, params)?;
    let writes = marks_of(alloc, funcs, Effect::Writes, graph, globals)?;
    let touches = marks_of(alloc, funcs, Effect::Touches, graph, globals)?;
    Ok(Targets {
        rows,
        writes,
        touches,
    })
}

fn push(by_class: &mut Vec<Targets>, targets: Targets) -> Result<(), NoMemory>
    ensures { IfOk result (λ _. by_class.new.items ≡ by_class.old.items ++ targets ∷ []) }
{
    by_class.push(targets).map_err(|_| NoMemory)?;
    Ok(())
}

/// By class what its functions do.
fn all_targets(
    alloc: Global,
    m: &ValidModule,
    graph: &CallGraph,
    table: &SummaryTable,
    globals: u32,
) -> Result<Vec<Targets>, NoMemory>
    requires graph { IsCallGraph m.now graph.now }
    requires table { IsTableOf m.now table.now }
    requires globals { globals ≡ length (globals_of m.now) }
    ensures { IfOk result (λ all. spec.AreClasses m.now graph.now table.now all.items) }
{
    let mut all = Vec::new(alloc);
    for class in 0..graph.class_count() {
        let targets = targets_of(alloc, m, graph, table, globals, class)?;
        push(&mut all, targets)?;
    }
    Ok(all)
}

/// Adds rows to those of a class: true where something was new.
fn merge(by_class: &mut Vec<Targets>, class: usize, rows: &Summary) -> bool
    requires { spec.FitsAt by_class.old.items class rows.now }
    ensures merged { spec.IsMergedAt class rows.now by_class.old.items by_class.new.items }
    ensures same { result ≡ false → spec.HasAll by_class.old.items class rows.now }
{
    by_class[class].rows.merge(rows)
}

impl TargetTable {
    /// That of a table of rows. It fails only where memory is refused.
    pub fn of(
        alloc: Global,
        m: &ValidModule,
        graph: &CallGraph,
        table: &SummaryTable,
    ) -> Result<TargetTable, NoMemory>
        requires graph { IsCallGraph m.now graph.now }
        requires table { IsTableOf m.now table.now }
        ensures { IfOk result (λ t. spec.IsTargetTable m.now graph.now table.now t) }
    {
        let spaces = Spaces::new(alloc, m.module())?;
        let globals = spaces.globals.len() as u32;
        let by_class = all_targets(alloc, m, graph, table, globals)?;
        Ok(TargetTable {
            globals,
            spaces,
            by_class,
        })
    }

    /// Adds the rows that are added to those of a function: true where something was new to its class.
    pub fn add(&mut self, graph: &CallGraph, func: u32, rows: &Summary) -> bool
        requires { spec.TakesRows graph.now self.old func rows.now }
        ensures added { (m : Module) (old new : SummaryTable) → IsCallGraph m graph.now → IsMerged func rows.now old new →
            spec.IsTargetTable m graph.now old self.old → spec.IsTargetTable m graph.now new self.new }
        ensures same { result ≡ false → (c : ℕ) → HasClass graph.now.classes func c → spec.HasAll self.old.by_class.items c rows.now }
    {
        let Some(class) = graph.class_of(func as usize) else {
            return false;
        };
        merge(&mut self.by_class, class, rows)
    }

    /// What the module names by number.
    pub fn spaces(&self) -> &Spaces
        ensures { result.now ≡ self.now.spaces }
    {
        &self.spaces
    }

    /// How many globals the module has.
    pub(crate) fn globals(&self) -> u32
        ensures { result ≡ self.now.globals }
    {
        self.globals
    }

    pub(crate) fn at(&self, class: usize) -> Option<&Targets>
        ensures { option_copied result ≡ slice_get self.now.by_class.items class }
    {
        self.by_class.get(class)
    }
}
