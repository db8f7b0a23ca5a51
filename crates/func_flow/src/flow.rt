//! What each output of a function leads to.

ghost use Rattle.std.specs.Prelude.{◌≡◌, ◌+◌, ◌*◌, ◌<◌, ◌≤◌, ◌↔◌, ℕ, IfOk, IsSome, Some, length, slice_get};
ghost use Rattle.std.specs.List.{All};
ghost use Rattle.wasm_types.specs.declared.module.FuncType.{FuncType};
ghost use Rattle.wasm_types.specs.declared.place.Loc.{Loc};
ghost use Rattle.wasm_types.specs.Code.{code_of, count};
ghost use Rattle.wasm_types.specs.Spaces.{body_of, globals_of, type_of_func};
ghost use Rattle.wasm_types.specs.Subset.{IsSealed};
ghost use Rattle.block_cfg.specs.Graph.{number};
ghost use Rattle.block_cfg.specs.Points.{HasPoints};
ghost use Rattle.block_cfg.specs.Walk.{first_of};
ghost use Rattle.single_entry.specs.Entries.{IsGraph};
ghost use Rattle.flow_domain.specs.Bounds.{Cover, bounds};
ghost use Rattle.flow_domain.specs.LocTables.{row_in};
ghost use Rattle.flow_domain.specs.Rows.{LedTo, Output as Asked};
ghost use Rattle.flow_domain.specs.Summaries.{HasInput, IsKnown, IsShape, IsTableOf, TableRows};
ghost use Rattle.flow_domain.specs.Touch.{IsExact};
ghost use Rattle.call_graph.specs.Graph.{IsCallGraph};
ghost use Rattle.called_rows.specs.Classes.{IsTargetTable};
ghost use Rattle.func_flow.specs.Items.{index_of};
ghost use Rattle.func_flow.specs.Made.{AreMade};
ghost use Rattle.func_flow.specs.Met.{IsFound};
ghost use Rattle.func_flow.specs.Next as spec;
ghost use Rattle.func_flow.specs.Runs.{AreQuiet, AreRuns};

use crate::bounds::locs_bound;
use crate::numbering::Numbering;
use crate::rows::rows_at;
use crate::runs::Runs;
use crate::search::Flow;
use crate::steps::steps;
use crate::tables::Tables;
use block_cfg::{Cfg, edges, law_bodies_have_points, point_number};
use call_graph::CallGraph;
use called_rows::{Called, TargetTable};
use control_deps::{Deciders, Nest};
use flow_domain::{LocTable, Summary, SummaryTable, plain_locs};
use sparse_reach::reach_sparse;
use stack_names::value_names_by;
use stack_repair::law_valid_has_heights;
use std::alloc::Global;
use wasm_types::{Body, Instr, NoMemory, Node, Point, Pos, ValidModule};

/// By the number of a node whether it is a point.
fn points_of(alloc: Global, cfg: &Cfg, nodes: usize) -> Result<Vec<bool>, NoMemory>
    requires { All (λ point. number point < nodes) cfg.now.points }
    ensures { IfOk result (λ marks. spec.AreMarked cfg.now.points nodes marks.items) }
{
    let mut marks = vec![in alloc; false; nodes].map_err(|_| NoMemory)?;
    for point in cfg.points() {
        marks[point_number(*point)] = true;
    }
    Ok(marks)
}

/// The body of an own function.
fn own_body(m: &ValidModule, func: u32) -> &Body
    requires { IsSome (body_of m.now func) }
    ensures body { body_of m.now func ≡ Some result.now }
    ensures points { HasPoints result.now }
    ensures sealed { IsSealed m.now }
{
    law_bodies_have_points();
    let module = m.module();
    let Some(body) = module.body(func) else {
        unreachable!()
    };
    body
}

/// The summary of an own function in a table: its shape is asked for.
fn own_rows<'a>(m: &ValidModule, func: u32, table: &'a SummaryTable) -> &'a Summary
    requires own { IsSome (body_of m.now func) }
    requires table { IsTableOf m.now table.now }
    ensures { (t : FuncType) → type_of_func m.now func ≡ Some t → IsShape (length (globals_of m.now)) (length t.params) result.now }
{
    let Some(rows) = table.get(func) else {
        unreachable!()
    };
    rows
}

/// The point at which a body begins.
fn first_point(code: &[Instr]) -> Point
    ensures { result ≡ first_of 0 (code_of code.now) Node.Exit }
{
    if code.is_empty() {
        Node::Exit
    } else {
        Node::At(Pos(0))
    }
}

/// How many items a body has of each kind, for a summary of this shape.
fn numbering_of(body: &Body, locs: &LocTable, own: &Summary) -> Numbering
    requires { HasPoints body.now }
    ensures nodes { result.nodes ≡ 2 * count (code_of body.now.code) + 1 }
    ensures globals { result.globals ≡ own.now.globals }
    ensures params { own.now.params ≤ result.locals }
    ensures locals { (p : ℕ) → All (λ one. index_of one.loc < result.locals) (row_in (slice_get locs.now p)) }
{
    let nodes = 2 * body.count() as usize + 1;
    let globals = own.globals() as usize;
    let params = own.params() as usize;
    let bound = locs_bound(locs);
    let locals = params.max(bound);
    Numbering {
        nodes,
        globals,
        locals,
    }
}

/// What the search from the outputs meets at the point where a body begins, its end or its first position, as a summary.
fn search(
    alloc: Global,
    flow: &Flow,
    first: Point,
    globals: u32,
    params: u32,
) -> Result<Summary, NoMemory>
    requires first { number first < flow.now.tables.numbering.nodes }
    requires begins { number first ≤ 1 }
    requires runs { AreRuns flow.now.tables flow.now.runs.now }
    requires quiet { AreQuiet flow.now.tables }
    requires graph { IsGraph flow.now.tables.cfg.now }
    requires begun { slice_get flow.now.tables.cfg.now.points 0 ≡ Some first }
    requires globals { flow.now.tables.numbering.globals ≡ globals }
    requires params { params ≤ flow.now.tables.numbering.locals }
    ensures shape { IfOk result (λ s. IsShape globals params s) }
    ensures exact { IfOk result (λ s. (o : Asked) (x : Loc) → HasInput s o x ↔ IsFound flow.now.tables first globals params o x) }
{
    let labels = flow.tables.numbering.globals + 5;
    let roots = flow.roots(alloc)?;
    let met = reach_sparse(alloc, flow, labels, &roots)?;
    let rows = rows_at(alloc, flow.tables.numbering, &met, first, globals, params)?;
    Ok(rows)
}

/// The rows of an own function, by the tables of its body.
fn rows_by(
    alloc: Global,
    m: &ValidModule,
    func: u32,
    tables: Tables,
    globals: u32,
    params: u32,
) -> Result<Summary, NoMemory>
    requires made { AreMade m.now func tables }
    requires body { body_of m.now func ≡ Some tables.body.now }
    requires globals { tables.numbering.globals ≡ globals }
    requires params { (t : FuncType) → type_of_func m.now func ≡ Some t → params ≡ length t.params }
    ensures shape { IfOk result (λ s. IsShape globals params s) }
    ensures exact { IfOk result (λ s. (W : Cover) → IsExact m.now W → (o : Asked) → IsKnown globals o → (x : Loc) →
        HasInput s o x ↔ LedTo (TableRows tables.entry.called.rows.now) (bounds m.now W) func o x) }
{
    let first = first_point(tables.body.code.as_slice());
    let points = points_of(alloc, tables.cfg, tables.numbering.nodes)?;
    let runs = Runs::new(alloc, &tables, &points)?;
    let flow = Flow {
        tables,
        points: &points,
        runs: &runs,
    };
    let rows = search(alloc, &flow, first, globals, params)?;
    Ok(rows)
}

/// The rows of an own function by one round (docs/ANALYSES.md, "Rows"): for each output the inputs that it leads to, by the rows that a table has for the
/// functions called. It takes time and memory by the body and by the locations that are needed at the beginnings of its runs of points for each output. It
/// fails only where memory is refused.
pub fn flow_rows(
    alloc: Global,
    m: &ValidModule,
    func: u32,
    graph: &CallGraph,
    table: &SummaryTable,
    targets: &TargetTable,
) -> Result<Summary, NoMemory>
    requires own { IsSome (body_of m.now func) }
    requires graph { IsCallGraph m.now graph.now }
    requires table { IsTableOf m.now table.now }
    requires targets { IsTargetTable m.now graph.now table.now targets.now }
    ensures shape { IfOk result (λ s. (t : FuncType) → type_of_func m.now func ≡ Some t → IsShape (length (globals_of m.now)) (length t.params) s) }
    // The rows are the same for each exact cover.
    ensures exact { IfOk result (λ s. (W : Cover) → IsExact m.now W → (o : Asked) → IsKnown (length (globals_of m.now)) o → (x : Loc) →
        HasInput s o x ↔ LedTo (TableRows table.now) (bounds m.now W) func o x) }
{
    law_valid_has_heights();
    let body = own_body(m, func);
    let own = own_rows(m, func, table);
    let names = value_names_by(alloc, m, targets.spaces(), func)?;
    let cfg = edges(alloc, body)?;
    let locs = plain_locs(alloc, m, func)?;
    let nest = Nest::of(alloc, body)?;
    let deciders = Deciders::of(alloc, &nest)?;
    let steps = steps(alloc, body)?;
    let numbering = numbering_of(body, &locs, own);
    let called = Called::new(graph, table, targets);
    let tables = Tables {
        body,
        cfg: &cfg,
        names: &names,
        locs: &locs,
        nest: &nest,
        deciders: &deciders,
        steps: &steps,
        called,
        numbering,
    };
    let globals = own.globals();
    let params = own.params();
    let rows = rows_by(alloc, m, func, tables, globals, params)?;
    Ok(rows)
}
