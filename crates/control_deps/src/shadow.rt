//! The shadow of an if or a branch: the nodes that it decides about (docs/ANALYSES.md, "Shadow").

ghost use Rattle.std.specs.Prelude.{◌≡◌, ◌↔◌, ◌<◌, ◌+◌, ◌⊎◌, List, AllPairs, IfOk, IfSome, IsTrue, length, slice_get};
ghost use Rattle.wasm_types.specs.Labels.{Label};
ghost use Rattle.wasm_types.specs.Nodes.{Join};
ghost use Rattle.control_deps.specs.Chain.{Decides, IsChain, IsOfLabel, IsLabelAt, StandsWithin, holds, joins_at, live_at};
ghost use Rattle.control_deps.specs.Nest.{AreNested};
ghost use Rattle.control_deps.specs.Deciders.{AddsDecider, AreDeciders, Tells};

use crate::nest::Nest;
use crate::spot::{Form, Packed, Spot, spot_at};
use std::alloc::Global;
use wasm_types::{NoMemory, Node, Pos};

/// Whether a position is there and live.
fn is_live(spots: &[Packed], pos: Pos) -> bool
    ensures { result ≡ live_at (slice_get spots.now pos.0) }
{
    match spots.get(pos.0 as usize) {
        Some(spot) => spot.get().live,
        None => false,
    }
}

/// Whether it is a block, a loop or an if.
fn holds(form: Form) -> bool
    ensures { result ≡ holds form }
{
    matches!(form, Form::Block | Form::Loop | Form::If)
}

/// Whether a live block, loop or if is at a position.
fn has_join(spots: &[Packed], pos: Pos) -> bool
    ensures { result ≡ joins_at (slice_get spots.now pos.0) }
{
    match spots.get(pos.0 as usize) {
        Some(spot) => holds(spot.get().form) && spot.get().live,
        None => false,
    }
}

/// Whether a node is at a position from `start` on that is below `stop`.
fn is_inside(spots: &[Packed], start: usize, stop: usize, node: Node) -> bool
    ensures { IsTrue result ↔ StandsWithin spots.now start stop node }
{
    match node {
        Node::At(pos) => is_live(spots, pos) && start <= pos.0 as usize && (pos.0 as usize) < stop,
        Node::Join(pos) => {
            has_join(spots, pos) && start <= pos.0 as usize && (pos.0 as usize) < stop
        }
        Node::Exit => false,
    }
}

/// Whether a node is the join of a block, loop or if, or inside it where it is a loop.
fn is_of_block(spots: &[Packed], block: Pos, spot: Spot, node: Node) -> bool
    ensures { (L : Label) → IsLabelAt block.0 spot L → (IsTrue result ↔ IsOfLabel spots.now L node) }
{
    if node == Node::Join(block) {
        return true;
    }
    spot.form == Form::Loop && is_inside(spots, block.0 as usize + 1, spot.stop as usize, node)
}

/// Whether a node is the end of the body, or stands behind a branch.
fn is_of_body(spots: &[Packed], after: usize, node: Node) -> bool
    ensures { IsTrue result ↔ ((node ≡ Node.Exit) ⊎ StandsWithin spots.now after (length spots.now) node) }
{
    if node == Node::Exit {
        return true;
    }
    is_inside(spots, after, spots.len(), node)
}

/// Whether a branch decides about a node, where `around` is around it, `after` is the position behind it, and `label` is its outermost target.
fn decides(spots: &[Packed], after: usize, around: Option<Pos>, label: u32, node: Node) -> bool
    requires nested { AreNested spots.now }
    requires within { IfSome around (λ b. b.0 < length spots.now) }
    ensures { (ctx : List Label) → IsChain spots.now around ctx → label < length ctx → (IsTrue result ↔ Decides spots.now after ctx label node) }
{
    let Some(block) = around else {
        return is_of_body(spots, after, node);
    };
    let spot = spot_at(spots, block.0 as usize);
    if is_of_block(spots, block, spot, node) {
        return true;
    }
    if label == 0 {
        return is_inside(spots, after, spot.stop as usize, node);
    }
    decides(spots, after, spot.around, label - 1, node)
}

/// Whether a node is the join of an if, or inside it.
fn is_of_if(spots: &[Packed], branch: Pos, stop: u32, node: Node) -> bool
    ensures { IsTrue result ↔ ((node ≡ Join branch.0) ⊎ StandsWithin spots.now (branch.0 + 1) stop node) }
{
    if node == Node::Join(branch) {
        return true;
    }
    is_inside(spots, branch.0 as usize + 1, stop as usize, node)
}

/// Whether the shadow of a position has a node.
fn shades(spots: &[Packed], branch: Pos, node: Node) -> bool
    requires { AreNested spots.now }
    ensures { Tells spots.now branch.0 node result }
{
    if branch.0 as usize >= spots.len() {
        return false;
    }
    let spot = spot_at(spots, branch.0 as usize);
    if !spot.live {
        return false;
    }
    match spot.form {
        Form::If => is_of_if(spots, branch, spot.stop, node),
        Form::Branch(label) => decides(spots, branch.0 as usize + 1, spot.around, label, node),
        _ => false,
    }
}

/// Whether the shadow of an if or a branch of the body has a node. It is false where no live branch or if is at the position, and for what is no node. It
/// takes time by the nesting.
pub fn in_shadow(nest: &Nest, branch: Pos, node: Node) -> bool
    ensures { Tells nest.now branch.0 node result }
{
    match nest.spots() {
        Some(spots) => shades(spots, branch, node),
        None => false,
    }
}

/// Adds a position whose shadow has a node.
fn add_decider(
    spots: &[Packed],
    branch: Pos,
    node: Node,
    found: &mut Vec<Pos>,
) -> Result<(), NoMemory>
    requires { AreNested spots.now }
    ensures { IfOk result (λ _. AddsDecider spots.now branch node found.old.items found.new.items) }
{
    if shades(spots, branch, node) {
        found.push(branch).map_err(|_| NoMemory)?;
    }
    Ok(())
}

/// All ifs and branches among some positions whose shadow has a node, rising.
fn all_of(alloc: Global, spots: &[Packed], node: Node) -> Result<Vec<Pos>, NoMemory>
    requires { AreNested spots.now }
    ensures rising { IfOk result (λ found. AllPairs (λ a b. a.0 < b.0) found.items) }
    ensures exact { IfOk result (λ found. AreDeciders spots.now node found.items) }
{
    let mut found = Vec::new(alloc);
    for at in 0..spots.len() {
        add_decider(spots, Pos(at as u32), node, &mut found)?;
    }
    Ok(found)
}

/// All ifs and branches whose shadow has a node, rising. An error comes only where memory is refused.
pub fn decided_by(alloc: Global, nest: &Nest, node: Node) -> Result<Vec<Pos>, NoMemory>
    ensures rising { IfOk result (λ found. AllPairs (λ a b. a.0 < b.0) found.items) }
    ensures exact { IfOk result (λ found. AreDeciders nest.now node found.items) }
{
    match nest.spots() {
        Some(spots) => {
            let found = all_of(alloc, spots, node)?;
            Ok(found)
        }
        None => Ok(Vec::new(alloc)),
    }
}
