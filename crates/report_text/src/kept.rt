//! The nodes of a kept set.

ghost use Rattle.std.specs.Prelude.{◌≡◌, ◌++◌, IfOk, OnOk};
ghost use Rattle.flow_domain.specs.KeptSets.{holds};
ghost use Rattle.report_text.specs.Drafts.{written};
ghost use Rattle.report_text.specs.KeptTexts.{kept_lines, node_line};

use crate::draft::Draft;
use crate::instruction::push_text;
use crate::listing::push_node;
use flow_domain::Kept;
use std::alloc::{AllocError, Global};
use wasm_types::{NoMemory, Node, Pos};

/// Adds the line of a node, where it is kept.
fn push_kept(out: &mut Draft, kept: &Kept, node: Node) -> Result<(), AllocError>
    ensures { OnOk result (written out.new ≡ written out.old ++ node_line (holds kept.now) node) }
{
    if !kept.has(node) {
        return Ok(());
    }
    push_node(out, node)?;
    push_text(out, "\n")
}

/// A line for each kept node of a body of so many positions, in the order of the positions: a position as its number, and the end of a block, loop or if, which
/// stands after its beginning, as j and its number. The end of the body has no line.
pub fn kept_text(alloc: Global, kept: &Kept, count: u32) -> Result<Vec<u8>, NoMemory>
    ensures { IfOk result (λ text. text.items ≡ kept_lines (holds kept.now) count) }
{
    let mut text = Draft::new(alloc);
    for at in 0..count {
        push_kept(&mut text, kept, Node::At(Pos(at)))?;
        push_kept(&mut text, kept, Node::Join(Pos(at)))?;
    }
    Ok(text.into_bytes())
}
