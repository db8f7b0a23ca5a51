//! Values on the operand stack.

use wasm_types::{Node, ValType};

/// A value on the operand stack: the node that makes it, and its type.
#[derive(Clone, Copy, Debug, PartialEq, Eq)]
pub struct Place {
    pub maker: Node,
    pub kind: ValType,
}

/// Where a branch to a label leads, and how many values it carries there.
#[derive(Clone, Copy)]
pub(crate) struct Target {
    pub(crate) join: Node,
    pub(crate) arity: u32,
}
