//! Plain instructions, those that hold no others (section 5.4).

ghost use Rattle.std.specs.Prelude.{◌≡◌, ◌≢◌, ◌<◌, ◌+◌, MatchOption, Some, length, slice_index};
ghost use Rattle.wasm_types.specs.Numbers.{SpellsU32};
ghost use Rattle.wasm_types.specs.Standing.{Reads};
ghost use Rattle.wasm_types.specs.Parts.{Both, Counted};
ghost use Rattle.wasm_types.specs.Plain.{SpellsAddress, SpellsSignature, SpellsRaw32, SpellsRaw64, SpellsBulk, SpellsPlain};
ghost use Rattle.opcode_table.specs.declared.instructions.Following.TheVariants as kind;
ghost use Rattle.opcode_table.specs.Table.{Follows};
ghost use Rattle.code_decode.specs.Reading.{ReadsOr, Skips, NoZero};

use crate::outcome::Stop;
use leb_codec::{read_s32, read_s64, read_u32};
use opcode_table::{
    Following, bare, what_follows, with_address, with_bulk, with_labels, with_memory, with_number,
    with_raw_32, with_raw_64, with_signature, with_signed_32, with_signed_64,
};
use sqlite_items::Items;
use std::alloc::Global;
use wasm_types::{Instr, MemArg};

/// The vector of unsigned 32-bit numbers that stands at `at` (section 5.1.3), and the place after it. `No` where none does.
pub(crate) fn read_numbers(
    alloc: Global,
    bytes: &[u8],
    at: usize,
) -> Result<(Items<u32>, usize), Stop>
    ensures { ReadsOr (Counted SpellsU32) bytes.now at result }
{
    let (count, mut place) = match read_u32(bytes, at) {
        Some(found) => found,
        None => return Err(Stop::No),
    };
    let mut numbers = Items::new(alloc);
    for _k in 0..count {
        match read_u32(bytes, place) {
            Some((number, next)) => {
                numbers.push(number)?;
                place = next;
            }
            None => return Err(Stop::No),
        }
    }
    Ok((numbers, place))
}

/// The place after the number that stands at `at`.
fn skip_number(bytes: &[u8], at: usize) -> Option<usize>
    ensures { Skips SpellsU32 bytes.now at result }
{
    match read_u32(bytes, at) {
        Some((_number, end)) => Some(end),
        None => None,
    }
}

/// The place after the vector of numbers that stands at `at`.
fn skip_numbers(bytes: &[u8], at: usize) -> Option<usize>
    ensures { Skips (Counted SpellsU32) bytes.now at result }
{
    let (count, mut place) = match read_u32(bytes, at) {
        Some(found) => found,
        None => return None,
    };
    for _k in 0..count {
        match skip_number(bytes, place) {
            Some(next) => place = next,
            None => return None,
        }
    }
    Some(place)
}

/// The place after the byte 0.
fn read_zero(bytes: &[u8], at: usize) -> Option<usize>
    ensures { MatchOption result (NoZero bytes.now at) (λ end. (end ≡ at + 1) × (at < length bytes.now) × (slice_index bytes.now at ≡ 0)) }
{
    if at < bytes.len() && bytes[at] == 0 {
        Some(at + 1)
    } else {
        None
    }
}

fn read_address(bytes: &[u8], at: usize) -> Option<(MemArg, usize)>
    ensures { Reads SpellsAddress bytes.now at result }
{
    match read_u32(bytes, at) {
        Some((align, middle)) => match read_u32(bytes, middle) {
            Some((offset, end)) => Some((MemArg { align, offset }, end)),
            None => None,
        },
        None => None,
    }
}

/// The type of an indirect call, whose table is number 0.
fn read_signature(bytes: &[u8], at: usize) -> Option<(u32, usize)>
    ensures { Reads SpellsSignature bytes.now at result }
{
    match read_u32(bytes, at) {
        Some((kind, middle)) => match read_u32(bytes, middle) {
            Some((table, end)) => { if table == 0 { Some((kind, end)) } else { None } }
            None => None,
        },
        None => None,
    }
}

/// Four bytes, the least first.
fn read_raw_32(bytes: &[u8], at: usize) -> Option<(u32, usize)>
    ensures { Reads SpellsRaw32 bytes.now at result }
{
    if bytes.len() < 4 || at > bytes.len() - 4 {
        return None;
    }
    let low = u32::from(bytes[at]) + 256 * u32::from(bytes[at + 1]);
    let high = u32::from(bytes[at + 2]) + 256 * u32::from(bytes[at + 3]);
    Some((low + 65536 * high, at + 4))
}

/// Eight bytes, the least first.
fn read_raw_64(bytes: &[u8], at: usize) -> Option<(u64, usize)>
    ensures { Reads SpellsRaw64 bytes.now at result }
{
    match read_raw_32(bytes, at) {
        Some((low, middle)) => match read_raw_32(bytes, middle) {
            Some((high, end)) => Some((u64::from(low) + 4294967296 * u64::from(high), end)),
            None => None,
        },
        None => None,
    }
}

/// A vector of labels, and the label for all greater numbers.
fn read_branches(alloc: Global, bytes: &[u8], at: usize) -> Result<((Items<u32>, u32), usize), Stop>
    ensures { ReadsOr (Both (Counted SpellsU32) SpellsU32) bytes.now at result }
{
    match read_numbers(alloc, bytes, at) {
        Ok((some, middle)) => match read_u32(bytes, middle) {
            Some((label, end)) => Ok(((some, label), end)),
            None => Err(Stop::No),
        },
        Err(stop) => Err(stop),
    }
}

/// The place after a vector of labels and one more label.
fn skip_branches(bytes: &[u8], at: usize) -> Option<usize>
    ensures { Skips (Both (Counted SpellsU32) SpellsU32) bytes.now at result }
{
    match skip_numbers(bytes, at) {
        Some(middle) => skip_number(bytes, middle),
        None => None,
    }
}

/// The number of an instruction on ranges of memory, and a byte 0 for each memory.
fn read_bulk(bytes: &[u8], at: usize) -> Option<(u32, usize)>
    ensures { Reads SpellsBulk bytes.now at result }
{
    let Some((which, middle)) = read_u32(bytes, at) else {
        return None;
    };
    let Some(next) = read_zero(bytes, middle) else {
        return None;
    };
    if which != 10 {
        return Some((which, next));
    }
    let Some(end) = read_zero(bytes, next) else {
        return None;
    };
    Some((which, end))
}

/// The instruction that stands at `at`, where this follows its opcode and no labels do.
fn read_behind(bytes: &[u8], at: usize, follows: Following) -> Option<(Instr, usize)>
    requires within { at < length bytes.now }
    requires known { Follows (slice_index bytes.now at) (Some follows) }
    requires other { follows ≢ kind.Labels }
    ensures { Reads SpellsPlain bytes.now at result }
{
    let opcode = bytes[at];
    match follows {
        Following::Nothing => {
            let Some(instr) = bare(opcode) else {
                return None;
            };
            Some((instr, at + 1))
        }
        Following::Number => {
            let Some((x, end)) = read_u32(bytes, at + 1) else {
                return None;
            };
            let Some(instr) = with_number(opcode, x) else {
                return None;
            };
            Some((instr, end))
        }
        Following::Labels => None,
        Following::Signature => {
            let Some((kind, end)) = read_signature(bytes, at + 1) else {
                return None;
            };
            let Some(instr) = with_signature(opcode, kind) else {
                return None;
            };
            Some((instr, end))
        }
        Following::Address => {
            let Some((place, end)) = read_address(bytes, at + 1) else {
                return None;
            };
            let Some(instr) = with_address(opcode, place) else {
                return None;
            };
            Some((instr, end))
        }
        Following::Memory => {
            let Some(end) = read_zero(bytes, at + 1) else {
                return None;
            };
            let Some(instr) = with_memory(opcode) else {
                return None;
            };
            Some((instr, end))
        }
        Following::Signed32 => {
            let Some((value, end)) = read_s32(bytes, at + 1) else {
                return None;
            };
            let Some(instr) = with_signed_32(opcode, value.cast_unsigned()) else {
                return None;
            };
            Some((instr, end))
        }
        Following::Signed64 => {
            let Some((value, end)) = read_s64(bytes, at + 1) else {
                return None;
            };
            let Some(instr) = with_signed_64(opcode, value.cast_unsigned()) else {
                return None;
            };
            Some((instr, end))
        }
        Following::Raw32 => {
            let Some((value, end)) = read_raw_32(bytes, at + 1) else {
                return None;
            };
            let Some(instr) = with_raw_32(opcode, value) else {
                return None;
            };
            Some((instr, end))
        }
        Following::Raw64 => {
            let Some((value, end)) = read_raw_64(bytes, at + 1) else {
                return None;
            };
            let Some(instr) = with_raw_64(opcode, value) else {
                return None;
            };
            Some((instr, end))
        }
        Following::Bulk => {
            let Some((which, end)) = read_bulk(bytes, at + 1) else {
                return None;
            };
            let Some(instr) = with_bulk(opcode, which) else {
                return None;
            };
            Some((instr, end))
        }
    }
}

/// The instruction that stands at `at`, if it is one that holds no others. Only the labels of a br_table are allocated.
pub(crate) fn read_plain(alloc: Global, bytes: &[u8], at: usize) -> Result<(Instr, usize), Stop>
    requires { at < length bytes.now }
    ensures { ReadsOr SpellsPlain bytes.now at result }
{
    let opcode = bytes[at];
    match what_follows(opcode) {
        Some(Following::Labels) => {
            let (branches, end) = match read_branches(alloc, bytes, at + 1) {
                Ok(found) => found,
                Err(stop) => return Err(stop),
            };
            match with_labels(opcode, branches.0, branches.1) {
                Some(instr) => Ok((instr, end)),
                None => Err(Stop::No),
            }
        }
        Some(follows) => match read_behind(bytes, at, follows) {
            Some(found) => Ok(found),
            None => Err(Stop::No),
        },
        None => Err(Stop::No),
    }
}

/// The place after the instruction that stands at `at`, if it is one that holds no others. Nothing is allocated.
pub(crate) fn skip_plain(bytes: &[u8], at: usize) -> Option<usize>
    requires { at < length bytes.now }
    ensures { Skips SpellsPlain bytes.now at result }
{
    match what_follows(bytes[at]) {
        Some(Following::Labels) => skip_branches(bytes, at + 1),
        Some(follows) => match read_behind(bytes, at, follows) {
            Some((_instr, end)) => Some(end),
            None => None,
        },
        None => None,
    }
}
