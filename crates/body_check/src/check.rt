//! Sequences of instructions.

ghost use Rattle.std.specs.Prelude.{◌≡◌, ◌↔◌, [], ◌∷◌, ◌++◌, OnOk, OnErr, IfOk, IsTrue};
ghost use Rattle.wasm_types.specs.Code.{done, onto, code_of};
ghost use Rattle.wasm_types.specs.Validity.{Leads, values_of};
ghost use Rattle.body_check.specs.Labels.{labels_of};
ghost use Rattle.body_check.specs.Signatures.{context_of};
ghost use Rattle.body_check.specs.Stacks.{Follows};

use crate::place::Place;
use crate::plain::check_plain;
use crate::stack::Stack;
use std::alloc::Global;
use wasm_types::{Instr, NoMemory, ValType};

/// What the labels around an instruction carry, the innermost last.
pub(crate) type Labels = Vec<Option<ValType>>;

/// Goes past an instruction: false where it is not valid there.
#[cycle(check)]
#[tactic(auto, using(crate::proofs::CheckLemmas::steps))]
fn check_instr(
    alloc: Global,
    place: &Place,
    labels: &mut Labels,
    stack: &mut Stack,
    instr: &Instr,
) -> Result<bool, NoMemory>
    ensures labels { labels.new.items ≡ labels.old.items }
    ensures follows { IfOk result (λ ok. Follows stack.old (Leads (context_of place.now) (labels_of labels.old.items) (onto instr.now done)) ok stack.new) }
{
    match instr {
        Instr::Block(kind, inner) => {
            if !check_inner(alloc, place, labels, *kind, *kind, inner.as_slice())? {
                return Ok(false);
            }
            stack.push_values(*kind)?;
            Ok(true)
        }
        Instr::Loop(kind, inner) => {
            if !check_inner(alloc, place, labels, None, *kind, inner.as_slice())? {
                return Ok(false);
            }
            stack.push_values(*kind)?;
            Ok(true)
        }
        Instr::If(kind, first, second) => {
            if !stack.pop(ValType::I32) {
                return Ok(false);
            }
            if !check_inner(alloc, place, labels, *kind, *kind, first.as_slice())? {
                return Ok(false);
            }
            if !check_inner(alloc, place, labels, *kind, *kind, second.as_slice())? {
                return Ok(false);
            }
            stack.push_values(*kind)?;
            Ok(true)
        }
        _ => check_plain(alloc, place, labels.as_slice(), stack, instr),
    }
}

/// Whether the contents of a block, a loop or an if leave its values, within one label more.
#[cycle(check)]
pub(crate) fn check_inner(
    alloc: Global,
    place: &Place,
    labels: &mut Labels,
    label: Option<ValType>,
    kind: Option<ValType>,
    code: &[Instr],
) -> Result<bool, NoMemory>
    ensures labels { labels.new.items ≡ labels.old.items }
    ensures valid { IfOk result (λ ok. IsTrue ok ↔ Leads (context_of place.now) (values_of label ∷ labels_of labels.old.items) (code_of code.now) [] (values_of kind)) }
{
    push_label(labels, label)?;
    let mut stack = Stack::new(alloc);
    let checked = check_code(alloc, place, labels, &mut stack, code);
    labels.pop();
    match checked {
        Ok(true) => Ok(stack.ends_with(kind)),
        Ok(false) => Ok(false),
        Err(e) => Err(e),
    }
}

/// One label more.
fn push_label(labels: &mut Labels, label: Option<ValType>) -> Result<(), NoMemory>
    ensures ok { OnOk result (labels.new.items ≡ labels.old.items ++ label ∷ []) }
    ensures err { OnErr result (labels.new.items ≡ labels.old.items) }
{
    labels.push(label).map_err(|_| NoMemory)?;
    Ok(())
}

/// Goes past a sequence: false where it is not valid there.
#[cycle(check)]
fn check_code(
    alloc: Global,
    place: &Place,
    labels: &mut Labels,
    stack: &mut Stack,
    code: &[Instr],
) -> Result<bool, NoMemory>
    ensures labels { labels.new.items ≡ labels.old.items }
    ensures follows { IfOk result (λ ok. Follows stack.old (Leads (context_of place.now) (labels_of labels.old.items) (code_of code.now)) ok stack.new) }
{
    for instr in code {
        if !check_instr(alloc, place, labels, stack, instr)? {
            return Ok(false);
        }
    }
    Ok(true)
}
