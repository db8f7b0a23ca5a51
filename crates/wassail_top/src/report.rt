//! The report of a large module.

ghost use Rattle.std.specs.Prelude.{◌≡◌, ◌≤◌, ◌<◌, ◌-◌, ◌^◌, ℕ, IfOk, length};
ghost use Rattle.wasm_types.specs.declared.module.Module.{Module};
ghost use Rattle.wasm_types.specs.Canon.{canon};
ghost use Rattle.wasm_types.specs.Subset.{WithinLimits, most_read};
ghost use Rattle.wasm_types.specs.WellFormed.{IsWellFormed};
ghost use Rattle.flow_domain.specs.KeptSets.{KeptSet, holds, size};
ghost use Rattle.flow_domain.specs.Sliced.{func_count};
ghost use Rattle.flow_domain.specs.Sliced.{IsSliced};
ghost use Rattle.flow_domain.specs.Summaries.{IsTableOf};
ghost use Rattle.call_graph.specs.Graph.{IsCallGraph};
ghost use Rattle.summary_fix.specs.TwoRuns.{HasExactCover, IsLeastTable};
ghost use Rattle.slice_whole.specs.Slices.{IsKeptOf};
ghost use Rattle.module_mill.specs.Mill.{mill};
ghost use Rattle.mill_report.specs.Counts.{inputs_below};
ghost use Rattle.wassail_top.specs.Reports as spec;
ghost use Rattle.wassail_top.specs.Reports.{IsReport, KeepsBelow, last_function, measured};
ghost use Rattle.wassail_top.specs.Summaries.{AreRows, RowTest};

use crate::refusals::slice_refusal;
use call_graph::{CallGraph, graph};
use flow_domain::SummaryTable;
use mill_report::{Figures, count_inputs, count_positions, figures_text};
use module_mill::{MOST_MILLED, mill};
use slice_closure::close;
use slice_whole::slice;
use std::alloc::Global;
use summary_fix::summarise;
use wasm_encode::encode;
use wasm_types::{NoMemory, Pos, ValidModule};

/// The last position of a function of the large module of so many.
fn last_position(valid: &ValidModule, count: u32, func: u32) -> Pos
    requires milled { valid.now ≡ mill count }
    requires own { func < count }
    ensures { result.0 ≡ spec.last_position valid.now func }
{
    let Some(body) = valid.module().body(func) else {
        unreachable!()
    };
    Pos(body.count() - 1)
}

/// How many nodes are kept for the last position of a function.
fn kept_size(
    alloc: Global,
    valid: &ValidModule,
    count: u32,
    func: u32,
    graph: &CallGraph,
    table: &SummaryTable,
) -> Result<u32, NoMemory>
    requires milled { valid.now ≡ mill count }
    requires own { func < count }
    requires few { count ≤ MOST_MILLED }
    requires graph { IsCallGraph valid.now graph.now }
    requires table { IsTableOf valid.now table.now }
    requires cover { HasExactCover valid.now }
    requires least { IsLeastTable valid.now table.now }
    ensures { IfOk result (λ n. (K : KeptSet) × IsKeptOf valid.now func (spec.last_position valid.now func) (holds K) × (n ≡ size K)) }
{
    let at = last_position(valid, count, func);
    let kept = close(alloc, valid, func, at, graph, table)?;
    Ok(kept.len())
}

/// The same of all functions together.
fn kept_sizes(
    alloc: Global,
    valid: &ValidModule,
    count: u32,
    graph: &CallGraph,
    table: &SummaryTable,
) -> Result<usize, NoMemory>
    requires milled { valid.now ≡ mill count }
    requires few { count ≤ MOST_MILLED }
    requires graph { IsCallGraph valid.now graph.now }
    requires table { IsTableOf valid.now table.now }
    requires cover { HasExactCover valid.now }
    requires least { IsLeastTable valid.now table.now }
    ensures { IfOk result (λ total. KeepsBelow valid.now count total) }
{
    let mut total = 0;
    for func in 0..count {
        total += kept_size(alloc, valid, count, func, graph, table)? as usize;
    }
    Ok(total)
}

/// What a module's rows have, and what its functions keep.
#[derive(Clone, Copy, Debug, PartialEq, Eq)]
struct Told {
    inputs: usize,
    kept: usize,
}

/// How many inputs the rows of the module have, and how many nodes are kept for the last positions of its functions.
fn tell(alloc: Global, valid: &ValidModule, count: u32) -> Result<Told, NoMemory>
    requires milled { valid.now ≡ mill count }
    requires few { count ≤ MOST_MILLED }
    ensures inputs { IfOk result (λ told. (rows : RowTest) × AreRows valid.now rows × (told.inputs ≡ inputs_below valid.now rows count)) }
    ensures kept { IfOk result (λ told. KeepsBelow valid.now count told.kept) }
{
    let table = summarise(alloc, valid)?;
    let graph = graph(alloc, valid)?;
    let kept = kept_sizes(alloc, valid, count, &graph, &table)?;
    Ok(Told {
        inputs: count_inputs(&table, count),
        kept,
    })
}

/// How many bytes the canonical spelling of a module has.
fn spelled_length(alloc: Global, valid: &ValidModule) -> Result<usize, NoMemory>
    requires well_formed { IsWellFormed valid.now }
    requires short { length (canon valid.now) < 2 ^ 32 }
    ensures { IfOk result (λ n. n ≡ length (canon valid.now)) }
{
    let bytes = encode(alloc, valid.module())?;
    Ok(bytes.len())
}

/// How many bytes the module has once its last function is sliced at its last position.
fn sliced_length(alloc: Global, valid: ValidModule, count: u32) -> Result<usize, NoMemory>
    requires milled { valid ≡ mill count }
    requires some { 0 < count }
    requires few { count ≤ MOST_MILLED }
    requires limits { WithinLimits most_read valid }
    requires short { length (canon valid) < 2 ^ 28 }
    ensures { IfOk result (λ n. (new : Module) × (at : ℕ)
        × IsSliced valid (last_function valid) (spec.last_position valid (last_function valid)) measured new at × (n ≡ length (canon new))) }
{
    let func = count - 1;
    let at = last_position(&valid, count, func);
    match slice(alloc, valid, func, at, "s") {
        Ok(sliced) => spelled_length(alloc, &sliced.module),
        Err(end) => {
            // Nothing else is against this slice.
            let None = slice_refusal(end, func, at.0) else {
                unreachable!()
            };
            Err(NoMemory)
        }
    }
}

/// The number of functions of the large module of so many.
fn functions(valid: &ValidModule) -> u32
    ensures { result ≡ func_count valid.now }
{
    valid.module().func_count()
}

/// The report of the large module of so many functions. It fails only where an allocation is refused.
pub fn report(alloc: Global, count: u32) -> Result<Vec<u8>, NoMemory>
    requires some { 0 < count }
    requires few { count ≤ MOST_MILLED }
    ensures { IfOk result (λ text. IsReport (mill count) text.items) }
{
    let valid = mill(alloc, count)?;
    let bytes = spelled_length(alloc, &valid)?;
    let functions = functions(&valid);
    let positions = count_positions(&valid);
    let Told { inputs, kept } = tell(alloc, &valid, count)?;
    let slice_bytes = sliced_length(alloc, valid, count)?;
    figures_text(
        alloc,
        Figures {
            bytes,
            functions: functions as usize,
            positions,
            inputs,
            kept,
            slice_bytes,
        },
    )
}
