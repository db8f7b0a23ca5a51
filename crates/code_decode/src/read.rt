//! Sequences of instructions (sections 5.4.1 and 5.4.6).

ghost use Rattle.std.specs.Prelude.{◌≡◌, ◌<◌, ◌≤◌, length, slice_index};
ghost use Rattle.code_decode.specs.Reading.{ReadsCode, ReadsInstr, ReadsEnclosed};

use crate::outcome::Stop;
use crate::plain::read_plain;
use opcode_table::block_kind;
use sqlite_items::Items;
use std::alloc::Global;
use wasm_types::{Instr, ValType};

/// The items, without the room that was kept for more: a module has many short sequences, and most of its memory is theirs.
fn fitted<T>(mut items: Vec<T>) -> Items<T>
    ensures { result ≡ items.items }
{
    items.shrink_to_fit();
    Items::from_vec(items)
}

#[cycle(code)]
fn read_enclosed(
    alloc: Global,
    bytes: &[u8],
    at: usize,
    room: u32,
) -> Result<(Option<ValType>, Items<Instr>, usize), Stop>
    requires { at < length bytes.now }
    ensures { ReadsEnclosed (slice_index bytes.now at) room bytes.now at result }
{
    if room == 0 || at + 1 >= bytes.len() {
        return Err(Stop::No);
    }
    let Some(kind) = block_kind(bytes[at + 1]) else {
        return Err(Stop::No);
    };
    let (inner, end) = read_code(alloc, bytes, at + 2, room - 1)?;
    if bytes[end] != 0x0B {
        return Err(Stop::No);
    }
    Ok((kind, inner, end + 1))
}

#[cycle(code)]
fn read_if(alloc: Global, bytes: &[u8], at: usize, room: u32) -> Result<(Instr, usize), Stop>
    requires within { at < length bytes.now }
    requires opened { slice_index bytes.now at ≡ 0x04 }
    ensures { ReadsInstr room bytes.now at result }
{
    if room == 0 || at + 1 >= bytes.len() {
        return Err(Stop::No);
    }
    let kind = match block_kind(bytes[at + 1]) {
        Some(kind) => kind,
        None => return Err(Stop::No),
    };
    let (first, middle) = match read_code(alloc, bytes, at + 2, room - 1) {
        Ok(found) => found,
        Err(stop) => return Err(stop),
    };
    if bytes[middle] == 0x0B {
        return Ok((Instr::If(kind, first, Items::new(alloc)), middle + 1));
    }
    let (second, end) = match read_code(alloc, bytes, middle + 1, room - 1) {
        Ok(found) => found,
        Err(stop) => return Err(stop),
    };
    if bytes[end] != 0x0B {
        return Err(Stop::No);
    }
    Ok((Instr::If(kind, first, second), end + 1))
}

#[cycle(code)]
fn read_instr(alloc: Global, bytes: &[u8], at: usize, room: u32) -> Result<(Instr, usize), Stop>
    requires { at < length bytes.now }
    ensures { ReadsInstr room bytes.now at result }
{
    match bytes[at] {
        0x02 => match read_enclosed(alloc, bytes, at, room) {
            Ok((kind, inner, end)) => Ok((Instr::Block(kind, inner), end)),
            Err(stop) => Err(stop),
        },
        0x03 => match read_enclosed(alloc, bytes, at, room) {
            Ok((kind, inner, end)) => Ok((Instr::Loop(kind, inner), end)),
            Err(stop) => Err(stop),
        },
        0x04 => read_if(alloc, bytes, at, room),
        _ => match read_plain(alloc, bytes, at) {
            Ok((instr, end)) => Ok((instr, end)),
            Err(stop) => Err(stop),
        },
    }
}

#[cycle(code)]
pub(crate) fn read_code(
    alloc: Global,
    bytes: &[u8],
    at: usize,
    room: u32,
) -> Result<(Items<Instr>, usize), Stop>
    requires { at ≤ length bytes.now }
    ensures { ReadsCode room bytes.now at result }
{
    let mut code = Vec::new(alloc);
    let mut place = at;
    while place < bytes.len() && bytes[place] != 0x0B && bytes[place] != 0x05 {
        let (instr, next) = read_instr(alloc, bytes, place, room)?;
        let Ok(()) = code.push(instr) else {
            return Err(Stop::Memory);
        };
        place = next;
    }
    if place >= bytes.len() {
        return Err(Stop::No);
    }
    Ok((fitted(code), place))
}
