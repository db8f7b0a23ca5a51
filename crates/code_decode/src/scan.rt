//! Where an expression ends, however deep it nests.

ghost use Rattle.std.specs.Prelude.{◌≡◌, ◌<◌, ◌≤◌, IfOk, length, reverse, slice_index};
ghost use Rattle.wasm_types.specs.Grammar.{SpellsInstrs};
ghost use Rattle.code_decode.specs.Reading.{Skips};
ghost use Rattle.code_decode.specs.Scan.{Steps, Opens};

use crate::plain::skip_plain;
use opcode_table::block_kind;
use std::alloc::{AllocError, Global};

/// What one step of the scan found.
#[derive(Clone, Copy, Debug, PartialEq, Eq)]
pub(crate) enum Step {
    End(usize),
    On(usize),
    Bad,
}

fn open_step(
    bytes: &[u8],
    place: usize,
    half: bool,
    blocks: &mut Vec<bool>,
) -> Result<Step, AllocError>
    requires within { place < length bytes.now }
    requires opens { Opens half (slice_index bytes.now place) }
    ensures { IfOk result (λ found. Steps bytes.now place (reverse blocks.old.items) (reverse blocks.new.items) found) }
{
    if place + 1 >= bytes.len() {
        return Ok(Step::Bad);
    }
    match block_kind(bytes[place + 1]) {
        None => Ok(Step::Bad),
        Some(_) => {
            blocks.push(half)?;
            Ok(Step::On(place + 2))
        }
    }
}

fn next_step(bytes: &[u8], place: usize, blocks: &mut Vec<bool>) -> Result<Step, AllocError>
    requires { place < length bytes.now }
    ensures { IfOk result (λ found. Steps bytes.now place (reverse blocks.old.items) (reverse blocks.new.items) found) }
{
    match bytes[place] {
        0x0B => match blocks.pop() {
            None => Ok(Step::End(place + 1)),
            Some(_) => Ok(Step::On(place + 1)),
        },
        0x05 => match blocks.pop() {
            None => Ok(Step::Bad),
            Some(half) => {
                if !half {
                    return Ok(Step::Bad);
                }
                blocks.push(false)?;
                Ok(Step::On(place + 1))
            }
        },
        0x02 | 0x03 => open_step(bytes, place, false, blocks),
        0x04 => open_step(bytes, place, true, blocks),
        _ => match skip_plain(bytes, place) {
            Some(next) => Ok(Step::On(next)),
            None => Ok(Step::Bad),
        },
    }
}

/// The place after the end of the expression that stands at `at`, if one does.
pub(crate) fn expr_end(alloc: Global, bytes: &[u8], at: usize) -> Result<Option<usize>, AllocError>
    requires { at ≤ length bytes.now }
    ensures { IfOk result (λ found. Skips SpellsInstrs bytes.now at found) }
{
    let mut blocks = Vec::new(alloc);
    let mut place = at;
    while place < bytes.len() {
        match next_step(bytes, place, &mut blocks)? {
            Step::End(next) => return Ok(Some(next)),
            Step::On(next) => place = next,
            Step::Bad => return Ok(None),
        }
    }
    Ok(None)
}
