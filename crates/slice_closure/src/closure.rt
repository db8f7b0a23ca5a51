//! The kept set of a watched position.

ghost use Rattle.std.specs.Prelude.{◌≡◌, ◌↔◌, ◌⊎◌, ◌+◌, ◌*◌, ◌^◌, ◌<◌, ◌≤◌, ◌∷◌, [], ℕ, Bool, Some, IfOk, IsTrue, length, map, true};
ghost use Rattle.std.specs.List.{All, Contains};
ghost use Rattle.wasm_types.specs.declared.place.Node.{Node};
ghost use Rattle.wasm_types.specs.Subset.{IsSealed};
ghost use Rattle.block_cfg.specs.Points.{HasPoints};
ghost use Rattle.slice_closure.specs.Made.{AreMade};
ghost use Rattle.wasm_types.specs.Spaces.{body_of, func_types, import_count};
ghost use Rattle.worklist.specs.Search.{IsMarked};
ghost use Rattle.sparse_reach.specs.Flags.{flags};
ghost use Rattle.worklist.specs.Gains.{Gains};
ghost use Rattle.worklist.specs.Reached.{Reached};
ghost use Rattle.block_cfg.specs.Graph.{number};
ghost use Rattle.stack_names.specs.Named.{is_live_in};
ghost use Rattle.stack_names.specs.Ends.{HasValues};
ghost use Rattle.call_graph.specs.Graph.{IsCallGraph};
ghost use Rattle.called_rows.specs.Right.{IsCalled};
ghost use Rattle.flow_domain.specs.KeptSets.{holds};
ghost use Rattle.flow_domain.specs.Summaries.{IsTableOf};
ghost use Rattle.slice_closure.specs.Answer.{TellsKept, TellsMade};
ghost use Rattle.slice_closure.specs.Items.{Numbered};
ghost use Rattle.slice_closure.specs.Next as spec;

use crate::flow::{Flow, greater};
use crate::items::{Item, Numbering};
use crate::search::Closing;
use crate::tables::Tables;
use block_cfg::{law_bodies_have_points, point_of_number};
use call_graph::CallGraph;
use called_rows::{Called, TargetTable};
use control_deps::{Deciders, Nest};
use flow_domain::{Kept, SummaryTable};
use sparse_reach::{Marks, reach_few};
use stack_names::{Names, value_names};
use stack_repair::law_valid_has_heights;
use std::alloc::Global;
use wasm_types::{Body, NoMemory, Node, Pos, ValidModule};

/// Keeps the node of a number, if the search met it.
fn keep(kept: &mut Kept, index: usize, met: &Marks) -> Result<(), NoMemory>
    requires few { index < 2 ^ 20 }
    requires short { length kept.old ≤ 2 ^ 20 }
    requires marked { index < length (flags met.now.words) }
    ensures held { IfOk result (λ _. (n : Node) → holds kept.new n ≡ true ↔ ((holds kept.old n ≡ true) ⊎ ((number n ≡ index) × IsMarked (flags met.now.words) index))) }
    ensures short { (end : ℕ) → index < end → length kept.old ≤ end → length kept.new ≤ end }
{
    if met.has(index) {
        kept.add(point_of_number(index))?;
    }
    Ok(())
}

/// The nodes among the items that a search met.
fn kept_of(alloc: Global, nodes: usize, met: &Marks) -> Result<Kept, NoMemory>
    requires few { nodes ≤ 2 ^ 20 }
    requires marked { nodes ≤ length (flags met.now.words) }
    ensures { IfOk result (λ kept. (n : Node) → holds kept n ≡ true ↔ ((number n < nodes) × IsMarked (flags met.now.words) (number n))) }
{
    let mut kept = Kept::new(alloc);
    for index in 0..nodes {
        keep(&mut kept, index, met)?;
    }
    Ok(kept)
}

/// Where the search begins.
fn first(alloc: Global, closing: &Closing, at: Pos) -> Result<Vec<usize>, NoMemory>
    requires { number (Node.At at) < closing.now.numbering.nodes }
    ensures { IfOk result (λ list. Gains (Numbered closing.now.numbering.nodes (spec.First closing.now.tables at)) [] list.items) }
{
    let mut list = Vec::new(alloc);
    closing.push_value(Node::At(at), &mut list)?;
    closing.push_makers(closing.tables.names.operands(at), &mut list)?;
    Ok(list)
}

/// The nodes that the search for the kept set of a position meets.
fn search(alloc: Global, closing: &Closing, at: Pos) -> Result<Kept, NoMemory>
    requires { number (Node.At at) < closing.now.numbering.nodes }
    ensures kept { IfOk result (λ kept. (n : Node) → holds kept n ≡ true ↔ Reached (spec.First closing.now.tables at) (spec.Next closing.now.tables) (Item.Keeps n)) }
    ensures made { IfOk result (λ _. (makers : Node → Bool) × ((n : Node) → makers n ≡ true ↔ Reached (spec.First closing.now.tables at) (spec.Next closing.now.tables)
        (spec.value_item closing.now.tables n))) }
{
    let list = first(alloc, closing, at)?;
    let met = reach_few(alloc, closing, &list)?;
    let kept = kept_of(alloc, closing.numbering.nodes, &met)?;
    Ok(kept)
}

/// The kept set of a live position, by the tables of its body.
fn close_tables(
    alloc: Global,
    m: &ValidModule,
    func: u32,
    tables: Tables,
    at: Pos,
) -> Result<Kept, NoMemory>
    requires made { AreMade m.now func at tables }
    requires points { HasPoints tables.body.now }
    ensures kept { IfOk result (λ kept. TellsKept m.now tables.entry.called.rows.now func at.0 kept) }
    ensures made { IfOk result (λ _. TellsMade m.now tables.entry.called.rows.now func at.0) }
{
    let nodes = 2 * tables.body.count() as usize + 1;
    let locs = greater(
        tables.flow.locs_bound(),
        2 * tables.called.globals() as usize + 3,
    );
    let closing = Closing {
        tables,
        numbering: Numbering { nodes, locs },
    };
    let kept = search(alloc, &closing, at)?;
    Ok(kept)
}

/// The body of an own function.
fn own_body(m: &ValidModule, func: u32) -> &Body
    requires imported { import_count m.now ≤ func }
    requires own { func < length (func_types m.now) }
    ensures body { body_of m.now func ≡ Some result.now }
    ensures points { HasPoints result.now }
    ensures sealed { IsSealed m.now }
{
    law_bodies_have_points();
    let module = m.module();
    let Some(body) = module.body(func) else {
        unreachable!()
    };
    body
}

/// The kept set of a live position, by the names of its body.
fn close_live(
    alloc: Global,
    m: &ValidModule,
    func: u32,
    names: &Names,
    at: Pos,
    called: Called,
) -> Result<Kept, NoMemory>
    requires imported { import_count m.now ≤ func }
    requires own { func < length (func_types m.now) }
    requires names { (w : ℕ → Bool) → HasValues m.now func w names.now }
    requires called { IsCalled m.now called }
    requires live { is_live_in names.now.positions at.0 ≡ true }
    ensures kept { IfOk result (λ kept. TellsKept m.now called.entry.rows.now func at.0 kept) }
    ensures made { IfOk result (λ _. TellsMade m.now called.entry.rows.now func at.0) }
{
    law_valid_has_heights();
    let body = own_body(m, func);
    let flow = Flow::of(alloc, body)?;
    let nest = Nest::of(alloc, body)?;
    let deciders = Deciders::of(alloc, &nest)?;
    let tables = Tables {
        body,
        flow: &flow,
        names,
        nest: &nest,
        deciders: &deciders,
        called,
    };
    let kept = close_tables(alloc, m, func, tables, at)?;
    Ok(kept)
}

/// The kept set of a position of an own function (docs/ANALYSES.md, "The kept set"), by the names of its body, the calls of the module and the rows of its
/// functions: exactly what the rules keep by these rows, and no node where the position is not live. It takes time by what is met, and memory by the body, the
/// functions in the table and what is met. It fails only where memory is refused.
pub fn close_named(
    alloc: Global,
    m: &ValidModule,
    func: u32,
    names: &Names,
    at: Pos,
    graph: &CallGraph,
    table: &SummaryTable,
) -> Result<Kept, NoMemory>
    requires imported { import_count m.now ≤ func }
    requires own { func < length (func_types m.now) }
    requires names { (w : ℕ → Bool) → HasValues m.now func w names.now }
    requires graph { IsCallGraph m.now graph.now }
    requires table { IsTableOf m.now table.now }
    ensures kept { IfOk result (λ kept. TellsKept m.now table.now func at.0 kept) }
    ensures made { IfOk result (λ _. TellsMade m.now table.now func at.0) }
{
    if !names.live(at) {
        return Ok(Kept::new(alloc));
    }
    let targets = TargetTable::of(alloc, m, graph, table)?;
    let called = Called::new(graph, table, &targets);
    let kept = close_live(alloc, m, func, names, at, called)?;
    Ok(kept)
}

/// The kept set of a position of an own function, as `close_named` answers it.
pub fn close(
    alloc: Global,
    m: &ValidModule,
    func: u32,
    at: Pos,
    graph: &CallGraph,
    table: &SummaryTable,
) -> Result<Kept, NoMemory>
    requires imported { import_count m.now ≤ func }
    requires own { func < length (func_types m.now) }
    requires graph { IsCallGraph m.now graph.now }
    requires table { IsTableOf m.now table.now }
    ensures kept { IfOk result (λ kept. TellsKept m.now table.now func at.0 kept) }
    ensures made { IfOk result (λ _. TellsMade m.now table.now func at.0) }
{
    let names = value_names(alloc, m, func)?;
    let kept = close_named(alloc, m, func, &names, at, graph, table)?;
    Ok(kept)
}
