//! The graph of a module's calls, and what it tells.

ghost use Rattle.std.specs.Prelude.{◌≡◌, ◌^◌, ◌<◌, ◌≤◌, ◌↔◌, ℕ, IfOk, IsTrue, length, slice_get};
ghost use Rattle.std.specs.List.{All, Contains};
ghost use Rattle.wasm_types.specs.declared.module.Module.{Module};
ghost use Rattle.wasm_types.specs.Spaces.{func_types, globals_of};
ghost use Rattle.worklist.specs.declared.labels.Root.{Root};
ghost use Rattle.worklist.specs.Lists.{Has};
ghost use Rattle.worklist.specs.Reached.{Reached as IsReached};
ghost use Rattle.worklist.specs.Roots.{IsRootOf};
ghost use Rattle.call_graph.specs.declared.acts.Act.{Act};
ghost use Rattle.call_graph.specs.declared.edges.Edge.{Edge};
ghost use Rattle.call_graph.specs.Built.{IsGraphBy};
ghost use Rattle.call_graph.specs.Edges.{class_in};
ghost use Rattle.call_graph.specs.Graph.{IsCallGraph, IsReachedFrom, LeadsTo, TellsCaller, TellsLoc, TellsNumber};
ghost use Rattle.call_graph.specs.Pairs.{HasPair};
ghost use Rattle.call_graph.specs.Tells.{HasClass};

use crate::acts::{Act, acts_of};
use crate::classes::Classes;
use crate::edges::{Edge, Way, count_nodes, edges_of, lists_of, members_of};
use crate::labels::{columns, label, touches, writes};
use crate::order::{order_of, those_below};
use crate::pairs::Pairs;
use crate::reached::Reached;
use body_check::Spaces;
use std::alloc::Global;
use wasm_types::{Loc, Module, NoMemory, ValidModule};
use worklist::{ListGraph, Root, reach};

/// What the functions of a module call, reach, touch and write (docs/ANALYSES.md, "What functions write").
#[derive(Drop)]
pub struct CallGraph {
    classes: Classes,
    /// For each node the nodes that it leads to.
    callees: ListGraph,
    /// For each node the nodes that lead to it.
    callers: ListGraph,
    touches: Pairs,
    writes: Pairs,
    /// For each class its functions.
    members: Vec<Vec<usize>>,
    order: Vec<usize>,
}

/// For each of the first nodes, so many of them, the labels of the roots that it leads to.
fn spread(
    alloc: Global,
    count: usize,
    callers: &ListGraph,
    order: &[usize],
    roots: &[Root],
) -> Result<Pairs, NoMemory>
    requires count { count ≤ length callers.now.next.items }
    requires order { (x : ℕ) → Contains order.now x ↔ (x < length callers.now.next.items) }
    requires nodes { All (λ (root : Root). root.node < length callers.now.next.items) roots.now }
    ensures { IfOk result (λ pairs. (x o : ℕ) → HasPair pairs x o ↔ ((x < count) × IsReached (IsRootOf roots.now o) (Has callers.now.next.items) x)) }
{
    let columns = columns(roots)?;
    let pairs = Pairs::of_labels(alloc, count, columns, callers, order, roots)?;
    Ok(pairs)
}

/// All nodes, each behind those that it leads to, but for edges of cycles.
fn order_by(alloc: Global, nodes: usize, edges: &[Edge]) -> Result<Vec<usize>, NoMemory>
    requires { All (λ (e : Edge). (e.from < nodes) × (e.to < nodes)) edges.now }
    ensures { IfOk result (λ order. (x : ℕ) → Contains order.items x ↔ (x < nodes)) }
{
    let callers = lists_of(alloc, nodes, edges, Way::Callers)?;
    let mut order = order_of(alloc, callers)?;
    order.reverse();
    Ok(order)
}

/// The graph of a module's calls, by its classes and by what its functions do.
fn graph_by(alloc: Global, classes: Classes, acts: &[Act]) -> Result<CallGraph, NoMemory>
    requires { All (λ (act : Act). act.func < length classes.by_func.items) acts.now }
    ensures { IfOk result (λ graph. IsGraphBy classes acts.now graph) }
{
    let count = classes.by_func.len();
    let nodes = count_nodes(&classes);
    let edges = edges_of(alloc, &classes, acts)?;
    let order = order_by(alloc, nodes, &edges)?;
    let callees = lists_of(alloc, nodes, &edges, Way::Callees)?;
    let callers = lists_of(alloc, nodes, &edges, Way::Callers)?;
    let touched = touches(alloc, acts)?;
    let touches = spread(alloc, count, &callers, &order, &touched)?;
    let written = writes(alloc, acts)?;
    let writes = spread(alloc, count, &callers, &order, &written)?;
    let members = members_of(alloc, &classes)?;
    let functions = those_below(alloc, count, &order)?;
    Ok(CallGraph {
        classes,
        callees,
        callers,
        touches,
        writes,
        members,
        order: functions,
    })
}

/// The graph of the calls of a module that has not too many functions and globals.
fn graph_of(alloc: Global, m: &Module) -> Result<CallGraph, NoMemory>
    requires funcs { length (func_types m.now) < 2 ^ 32 }
    requires globals { length (globals_of m.now) < 2 ^ 32 }
    ensures { IfOk result (λ graph. IsCallGraph m.now graph) }
{
    let spaces = Spaces::new(alloc, m)?;
    let classes = Classes::of(alloc, m, &spaces)?;
    let acts = acts_of(alloc, m, &spaces)?;
    let graph = graph_by(alloc, classes, &acts)?;
    Ok(graph)
}

/// The graph of a module's calls. It fails only where an allocation is refused.
pub fn graph(alloc: Global, m: &ValidModule) -> Result<CallGraph, NoMemory>
    ensures { IfOk result (λ graph. IsCallGraph m.now graph) }
{
    let graph = graph_of(alloc, m.module())?;
    Ok(graph)
}

impl CallGraph {
    ghost use Rattle.flow_domain.specs.Reach.{CallsFunc, MayWrite};
    ghost use Rattle.flow_domain.specs.Rows.{Target};
    ghost use Rattle.flow_domain.specs.Touch.{MayTouch};
    ghost use Rattle.wasm_types.specs.Hosts.{IsFunction};
    ghost use Rattle.worklist.specs.Gains.{Gains};

    /// How many classes there are: the functions of one are those that a call through the table by one type may find.
    pub fn class_count(&self) -> usize
        ensures { result ≡ self.now.classes.count }
    {
        self.classes.count
    }

    /// The class of a function.
    pub fn class_of(&self, func: usize) -> Option<usize>
        ensures { result ≡ class_in (slice_get self.now.classes.by_func.items func) }
    {
        *self.classes.by_func.get(func)?
    }

    /// The class of a type number.
    pub fn class_by(&self, kind: u32) -> Option<usize>
        ensures { result ≡ class_in (slice_get self.now.classes.by_type.items kind) }
    {
        *self.classes.by_type.get(kind as usize)?
    }

    /// The functions of a class.
    pub fn members_of(&self, class: usize) -> &[usize]
        ensures { (m : Module) → IsCallGraph m self.now → (f : ℕ) → Contains result.now f ↔ HasClass self.now.classes f class }
    {
        match self.members.get(class) {
            Some(members) => members.as_slice(),
            None => &[],
        }
    }

    /// Whether a function leads to a node.
    fn leads(&self, func: usize, node: usize) -> bool
        ensures { IsTrue result ↔ LeadsTo self.now func node }
    {
        match self.callees.next.get(func) {
            Some(nodes) => func < self.classes.by_func.len() && nodes.contains(&node),
            None => false,
        }
    }

    /// Whether an instruction at a live position of a function calls another, by its number or through the table. No function is called that isn't there. It
    /// takes time by what the function calls, so a loop over all functions asks `reached` or `push_callers` once instead.
    pub fn calls(&self, func: u32, other: u32) -> bool
        ensures { (m : Module) → IsCallGraph m self.now → IsFunction m other → (IsTrue result ↔ CallsFunc m func other) }
    {
        if self.leads(func as usize, other as usize) {
            return true;
        }
        match self.class_of(other as usize) {
            Some(class) => self.leads(func as usize, self.classes.by_func.len() + class),
            None => false,
        }
    }

    /// The functions that calls, one after another, lead to from one of them. The search takes time and room by the number of nodes, and time by the calls of
    /// those that it meets. It fails only where an allocation is refused.
    pub fn reached(&self, alloc: Global, func: u32) -> Result<Reached, NoMemory>
        ensures { IfOk result (λ reached. (m : Module) → IsCallGraph m self.now → IsFunction m func → IsReachedFrom m func reached) }
    {
        let root = func as usize;
        if root >= self.callees.next.len() {
            return Ok(Reached {
                met: Vec::new(alloc),
            });
        }
        let met = reach(alloc, &self.callees, &[root])?;
        Ok(Reached { met })
    }

    /// Whether a function that is reached reads, checks or writes a location. No local is touched so.
    pub fn touches(&self, func: u32, loc: Loc) -> bool
        ensures touches { (m : Module) → IsCallGraph m self.now → (IsTrue result ↔ MayTouch m func loc) }
        ensures told { IsTrue result ↔ TellsLoc self.now.touches func loc }
    {
        match label(loc) {
            Some(label) => self.touches.has(func as usize, label),
            None => false,
        }
    }

    /// Whether a function that is reached writes a location. No local is written so.
    pub fn writes(&self, func: u32, loc: Loc) -> bool
        ensures writes { (m : Module) → IsCallGraph m self.now → (IsTrue result ↔ MayWrite m func loc) }
        ensures told { IsTrue result ↔ TellsLoc self.now.writes func loc }
    {
        match label(loc) {
            Some(label) => self.writes.has(func as usize, label),
            None => false,
        }
    }

    /// Whether a call through the table by a type number may find a function.
    pub fn targets(&self, kind: u32, other: u32) -> bool
        ensures { (m : Module) → IsCallGraph m self.now → (IsTrue result ↔ Target m kind other) }
    {
        match self.class_by(kind) {
            Some(class) => match self.class_of(other as usize) {
                Some(own) => own == class,
                None => false,
            },
            None => false,
        }
    }

    /// The functions that a call through the table by a type number may find.
    pub fn targets_of(&self, kind: u32) -> &[usize]
        ensures { (m : Module) → IsCallGraph m self.now → (f : ℕ) → Contains result.now f ↔ Target m kind f }
    {
        match self.class_by(kind) {
            Some(class) => self.members_of(class),
            None => &[],
        }
    }

    /// The functions of the module, by their numbers: callees first but where calls go round (a postorder), which the clause doesn't say.
    pub fn order(&self) -> &[usize]
        ensures { (m : Module) → IsCallGraph m self.now → (f : ℕ) → Contains result.now f ↔ IsFunction m f }
    {
        &self.order
    }

    /// Puts the functions that lead to a node at the end.
    fn push_functions(&self, node: usize, funcs: &mut Vec<usize>) -> Result<(), NoMemory>
        ensures { IfOk result (λ _. Gains (λ f. (f < length self.now.classes.by_func.items) × Has self.now.callers.next.items node f)
            funcs.old.items funcs.new.items) }
    {
        let Some(nodes) = self.callers.next.get(node) else {
            return Ok(());
        };
        for other in nodes {
            if *other < self.classes.by_func.len() {
                funcs.push(*other).map_err(|_| NoMemory)?;
            }
        }
        Ok(())
    }

    /// Puts the functions that call another by its number at the end, in any order and however often. It fails only where an allocation is refused.
    pub fn push_number_callers(&self, func: usize, funcs: &mut Vec<usize>) -> Result<(), NoMemory>
        ensures { IfOk result (λ _. Gains (TellsNumber self.now func) funcs.old.items funcs.new.items) }
    {
        self.push_functions(func, funcs)?;
        Ok(())
    }

    /// Puts the functions that call another, by its number or through the table, at the end, in any order and however often. It fails only where an
    /// allocation is refused.
    pub fn push_callers(&self, func: usize, funcs: &mut Vec<usize>) -> Result<(), NoMemory>
        ensures { IfOk result (λ _. Gains (TellsCaller self.now func) funcs.old.items funcs.new.items) }
    {
        self.push_functions(func, funcs)?;
        if let Some(class) = self.class_of(func) {
            self.push_functions(self.classes.by_func.len() + class, funcs)?;
        }
        Ok(())
    }
}
