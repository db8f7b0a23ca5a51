//! Where labels lead.

ghost use Rattle.std.specs.Prelude.{◌≡◌, ◌++◌, ◌∷◌, [], IfOk, map, reverse};
ghost use Rattle.wasm_types.specs.Takers.{distinct};
ghost use Rattle.stack_names.specs.Found.{join_at, outermost_of, target_at};
ghost use Rattle.stack_names.specs.Named.{number_of};
ghost use Rattle.stack_names.specs.Distinct.{added};

use crate::groups::number;
use crate::place::Target;
use crate::push::push;
use indexmap::IndexSet;
use std::alloc::Global;
use wasm_types::{NoMemory, Node};

/// The target of a label, of which the innermost is the last: the end of the body where there is no such label.
pub(crate) fn target(labels: &[Target], label: u32) -> Target
    ensures { result ≡ target_at (reverse labels.now) label }
{
    let depth = label as usize;
    if depth >= labels.len() {
        return Target {
            join: Node::Exit,
            arity: 0,
        };
    }
    labels[labels.len() - 1 - depth]
}

/// The target of the outermost label.
pub(crate) fn outermost(labels: &[Target]) -> Target
    ensures { result ≡ outermost_of (reverse labels.now) }
{
    match labels.first() {
        Some(target) => *target,
        None => Target {
            join: Node::Exit,
            arity: 0,
        },
    }
}

/// Puts a node at the end, where it isn't among the nodes yet, of which `seen` has the numbers.
fn add(found: &mut Vec<Node>, seen: &mut IndexSet<usize>, node: Node) -> Result<(), NoMemory>
    requires { seen.old.keys ≡ map number_of found.old.items }
    ensures seen { IfOk result (λ _. seen.new.keys ≡ map number_of found.new.items) }
    ensures found { IfOk result (λ _. reverse found.new.items ≡ added node (reverse found.old.items)) }
{
    let Ok(is_new) = seen.insert(number(node)) else {
        return Err(NoMemory);
    };
    if is_new {
        push(found, node)?;
    }
    Ok(())
}

/// Where the labels lead, each node once, and the last first. The innermost of `labels` is the last.
pub(crate) fn joins(
    alloc: Global,
    labels: &[Target],
    some: &[u32],
    other: u32,
) -> Result<Vec<Node>, NoMemory>
    ensures { IfOk result (λ nodes. reverse nodes.items ≡ distinct (map (join_at (reverse labels.now)) (some.now ++ other ∷ []))) }
{
    let mut found = Vec::new(alloc);
    let mut seen = IndexSet::new(alloc);
    add(&mut found, &mut seen, target(labels, other).join)?;
    let mut left = some.len();
    while left > 0 {
        left -= 1;
        add(&mut found, &mut seen, target(labels, some[left]).join)?;
    }
    Ok(found)
}
