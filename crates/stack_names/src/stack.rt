//! Stacks of places, the top last.

ghost use Rattle.std.specs.Prelude.{◌≡◌, IfOk};
ghost use Rattle.stack_names.specs.Found.{below, grown, top_places};

use crate::place::Place;
use crate::push::push;
use wasm_types::{NoMemory, Node, ValType};

/// The last so many places of a stack, all where there are fewer.
pub(crate) fn top(stack: &[Place], count: usize) -> &[Place]
    ensures { result.now ≡ top_places count stack.now }
{
    &stack[stack.len().saturating_sub(count)..]
}

/// What is below the last so many places.
pub(crate) fn below_top(stack: &[Place], count: usize) -> &[Place]
    ensures { result.now ≡ below count stack.now }
{
    &stack[..stack.len().saturating_sub(count)]
}

/// Takes the last so many places off the stack, and puts a value there, where one is left.
pub(crate) fn turn(
    stack: &mut Vec<Place>,
    taken: usize,
    maker: Node,
    left: Option<ValType>,
) -> Result<(), NoMemory>
    ensures { IfOk result (λ _. stack.new.items ≡ grown left maker (below taken stack.old.items)) }
{
    stack.truncate(stack.len().saturating_sub(taken));
    if let Some(kind) = left {
        push(stack, Place { maker, kind })?;
    }
    Ok(())
}
