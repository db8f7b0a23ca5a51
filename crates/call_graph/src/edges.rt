//! The graph of a module's calls: its nodes are the functions, and then the classes.

ghost use Rattle.std.specs.Prelude.{◌≡◌, ℕ, ◌+◌, ◌++◌, ◌<◌, ◌↔◌, ◌⊎◌, IfOk, IsTrue, Some, length, slice_get};
ghost use Rattle.std.specs.List.{All, Contains, filter_map};
ghost use Rattle.worklist.specs.Lists.{Has};
ghost use Rattle.call_graph.specs.declared.edges.Edge.{Edge};
ghost use Rattle.call_graph.specs.Edges.{edge_along, edge_of, target_of, IsMember};

use crate::acts::Act;
use crate::classes::Classes;
use crate::deeds::Deed;
use std::alloc::Global;
use wasm_types::NoMemory;
use worklist::ListGraph;

/// A function or class, and what it leads to: a function to those that it calls and to the classes through which it calls, a class to its functions.
#[derive(Clone, Copy)]
pub(crate) struct Edge {
    pub(crate) from: usize,
    pub(crate) to: usize,
}

/// How many nodes there are.
pub(crate) fn count_nodes(classes: &Classes) -> usize
    ensures { result ≡ length classes.now.by_func.items + classes.now.count }
{
    classes.by_func.len() + classes.count
}

/// The node that one leads to which does that.
fn target(classes: &Classes, deed: Deed) -> Option<usize>
    ensures { result ≡ target_of classes.now deed }
{
    match deed {
        Deed::Calls(func) => {
            let node = func as usize;
            if node < classes.by_func.len() {
                Some(node)
            } else {
                None
            }
        }
        Deed::CallsThrough(kind) => {
            let class = (*classes.by_type.get(kind as usize)?)?;
            Some(classes.by_func.len() + class)
        }
        _ => None,
    }
}

/// Puts the edges of what functions do at the end.
fn add_calls(classes: &Classes, acts: &[Act], edges: &mut Vec<Edge>) -> Result<(), NoMemory>
    ensures { IfOk result (λ _. edges.new.items ≡ edges.old.items ++ filter_map (edge_of classes.now) acts.now) }
{
    for act in acts {
        match target(classes, act.deed) {
            Some(to) => edges
                .push(Edge { from: act.func, to })
                .map_err(|_| NoMemory)?,
            None => {}
        }
    }
    Ok(())
}

/// Puts the edges from classes to their functions at the end.
fn add_members(classes: &Classes, edges: &mut Vec<Edge>) -> Result<(), NoMemory>
    ensures { IfOk result (λ _. (e : Edge) → Contains edges.new.items e ↔ (Contains edges.old.items e ⊎ IsMember classes.now e)) }
{
    for (func, class) in classes.by_func.iter().enumerate() {
        match *class {
            Some(class) => edges
                .push(Edge {
                    from: classes.by_func.len() + class,
                    to: func,
                })
                .map_err(|_| NoMemory)?,
            None => {}
        }
    }
    Ok(())
}

/// All edges, those of what functions do first. It fails only where an allocation is refused.
pub(crate) fn edges_of(
    alloc: Global,
    classes: &Classes,
    acts: &[Act],
) -> Result<Vec<Edge>, NoMemory>
    ensures { IfOk result (λ edges. (e : Edge) → Contains edges.items e ↔ (Contains (filter_map (edge_of classes.now) acts.now) e ⊎ IsMember classes.now e)) }
{
    let mut edges = Vec::new(alloc);
    add_calls(classes, acts, &mut edges)?;
    add_members(classes, &mut edges)?;
    Ok(edges)
}

/// So many empty lists.
fn empty_lists(alloc: Global, count: usize) -> Result<Vec<Vec<usize>>, NoMemory>
    ensures length { IfOk result (λ lists. length lists.items ≡ count) }
    ensures none { IfOk result (λ lists. (x y : ℕ) → Has lists.items x y → ⊥) }
{
    let mut lists = Vec::new(alloc);
    for _node in 0..count {
        lists.push(Vec::new(alloc)).map_err(|_| NoMemory)?;
    }
    Ok(lists)
}

/// Whether a list ends with a number.
fn ends_with(list: &[usize], number: usize) -> bool
    ensures { IsTrue result → Contains list.now number }
{
    match list.last() {
        Some(last) => *last == number,
        None => false,
    }
}

/// Puts a number at the end of a list, where it doesn't stand there.
fn push_at(lists: &mut Vec<Vec<usize>>, list: usize, number: usize) -> Result<(), NoMemory>
    requires { list < length lists.old.items }
    ensures length { IfOk result (λ _. length lists.new.items ≡ length lists.old.items) }
    ensures gains { IfOk result (λ _. (x y : ℕ) → Has lists.new.items x y ↔ (Has lists.old.items x y ⊎ ((x ≡ list) × (y ≡ number)))) }
{
    if ends_with(&lists[list], number) {
        return Ok(());
    }
    lists[list].push(number).map_err(|_| NoMemory)?;
    Ok(())
}

/// What the list of a node has: those that it leads to, or those that lead to it.
#[derive(Clone, Copy)]
pub(crate) enum Way {
    Callees,
    Callers,
}

/// An edge, from the node of the list to the node in it.
fn along(edge: Edge, way: Way) -> Edge
    ensures { result ≡ edge_along way edge }
{
    match way {
        Way::Callees => edge,
        Way::Callers => Edge {
            from: edge.to,
            to: edge.from,
        },
    }
}

/// For each node its list, which has a node once where the edges of the two stand together. It fails only where an allocation is refused.
pub(crate) fn lists_of(
    alloc: Global,
    count: usize,
    edges: &[Edge],
    way: Way,
) -> Result<ListGraph, NoMemory>
    requires { All (λ (e : Edge). (e.from < count) × (e.to < count)) edges.now }
    ensures length { IfOk result (λ graph. length graph.next.items ≡ count) }
    ensures exact { IfOk result (λ graph. (x y : ℕ) → Has graph.next.items x y ↔ Contains edges.now (edge_along way (record { from = x; to = y }))) }
{
    let mut next = empty_lists(alloc, count)?;
    for edge in edges {
        let edge = along(*edge, way);
        push_at(&mut next, edge.from, edge.to)?;
    }
    Ok(ListGraph { next })
}

/// For each class its functions. It fails only where an allocation is refused.
pub(crate) fn members_of(alloc: Global, classes: &Classes) -> Result<Vec<Vec<usize>>, NoMemory>
    ensures { IfOk result (λ lists. (c f : ℕ) → Has lists.items c f ↔ (slice_get classes.now.by_func.items f ≡ Some (Some c))) }
{
    let mut lists = empty_lists(alloc, classes.count)?;
    for (func, class) in classes.by_func.iter().enumerate() {
        match *class {
            Some(class) => push_at(&mut lists, class, func)?,
            None => {}
        }
    }
    Ok(lists)
}
