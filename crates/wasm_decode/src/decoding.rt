//! Whole modules (section 5.5.15).

ghost use Rattle.std.specs.Prelude.{◌≡◌, ◌^◌, ◌<◌, [], All, ℕ, length, map, None};
ghost use Rattle.wasm_types.specs.Modules.{InOrder};
ghost use Rattle.wasm_decode.specs.Frames.{frame_at, IsWithin};
ghost use Rattle.wasm_decode.specs.Decode.{IsRead, first_deep as first_deep_of, Refuses, ReadsSections, Decodes};

use crate::contents::read_section;
use crate::frames::{Frame, read_frames};
use crate::refusal::DecodeEnd;
use code_decode::Stop;
use sqlite_items::Items;
use std::alloc::Global;
use wasm_types::Module;

/// The module of no sections.
fn empty(alloc: Global) -> Module
    ensures { IsRead [] None result }
{
    Module {
        types: Items::new(alloc),
        imports: Items::new(alloc),
        funcs: Items::new(alloc),
        tables: Items::new(alloc),
        mems: Items::new(alloc),
        globals: Items::new(alloc),
        exports: Items::new(alloc),
        start: None,
        elems: Items::new(alloc),
        bodies: Items::new(alloc),
        segments: Items::new(alloc),
        names: None,
    }
}

/// The first place where code nests too deep, as a section's id and an entry, after one more section.
fn first_deep(deep: Option<(u8, u32)>, id: u8, entry: Option<u32>) -> Option<(u8, u32)>
    ensures { result ≡ first_deep_of deep id entry }
{
    match deep {
        Some(at) => Some(at),
        None => Some((id, entry?)),
    }
}

fn refuse(stop: Stop, k: u32, id: u8) -> DecodeEnd
    ensures { Refuses stop k id result }
{
    match stop {
        Stop::No => DecodeEnd::Section { k, id },
        Stop::Memory => DecodeEnd::Memory,
    }
}

/// Reads all sections into a module; beside it the first place where code nests too deep.
fn read_sections(
    alloc: Global,
    bytes: &[u8],
    frames: &[Frame],
) -> Result<(Module, Option<(u8, u32)>), DecodeEnd>
    requires within { All (IsWithin bytes.now) frames.now }
    requires ordered { (final : ℕ) × InOrder 0 (map (frame_at bytes.now) frames.now) final }
    requires few { length frames.now < 2 ^ 32 }
    ensures { ReadsSections (map (frame_at bytes.now) frames.now) result }
{
    let mut module = empty(alloc);
    let mut deep = None;
    for k in 0..frames.len() {
        let frame = frames[k];
        let text = &bytes[frame.start..frame.end];
        match read_section(alloc, text, frame.id, &mut module) {
            Ok(entry) => deep = first_deep(deep, frame.id, entry),
            Err(stop) => return Err(refuse(stop, k as u32, frame.id)),
        }
    }
    Ok((module, deep))
}

/// The module that the bytes spell (docs/FORMAT.md), if at most 1,024 blocks, loops and ifs nest in its code.
///
/// Fewer than 2^32 bytes are taken. Where they spell no such module, the refusal is the first that holds in the order of
/// `DecodeEnd`, for its first place; a section in which code nests too deep counts as spelled.
pub fn decode(alloc: Global, bytes: &[u8]) -> Result<Module, DecodeEnd>
    requires { length bytes.now < 2 ^ 32 }
    ensures { Decodes bytes.now result }
{
    let frames = read_frames(alloc, bytes)?;
    let (module, deep) = read_sections(alloc, bytes, frames.as_slice())?;
    if let Some((id, entry)) = deep {
        return Err(DecodeEnd::TooDeep { id, entry });
    }
    if module.funcs.len() != module.bodies.len() {
        return Err(DecodeEnd::Counts);
    }
    Ok(module)
}
