//! The walk over a body: what is kept of its positions, in reading order.

ghost use Rattle.std.specs.Prelude.{◌≡◌, ◌+◌, ◌^◌, ◌<◌, ◌≤◌, ◌∷◌, ◌++◌, [], ◌&&◌, IfOk, Some, length, set};
ghost use Rattle.wasm_types.specs.Code.{done, onto, code_of, count};
ghost use Rattle.block_cfg.specs.Walk.{goes_on};
ghost use Rattle.control_deps.specs.Spots.{place, spots_in};

use crate::spot::{Form, Packed, Spot, plain_form};
use wasm_types::{Instr, NoMemory, Pos};

/// Whether what follows an instruction in its sequence is live, where `live` says whether the instruction is.
fn stays_live(instr: &Instr, live: bool) -> bool
    ensures { result ≡ (goes_on instr.now && live) }
{
    match instr {
        Instr::Br(_) | Instr::BrTable(_, _) | Instr::Return | Instr::Unreachable => false,
        _ => live,
    }
}

/// Goes past an instruction at a position, and answers the position after it. `depth` is how many blocks, loops and ifs are around it.
#[cycle(walk)]
fn walk_instr(
    spots: &mut Vec<Packed>,
    instr: &Instr,
    at: u32,
    around: Option<Pos>,
    depth: u32,
    live: bool,
) -> Result<u32, NoMemory>
    requires room { at + count (onto instr.now done) < 2 ^ 32 }
    requires deep { depth ≤ at }
    ensures end { IfOk result (λ end. end ≡ at + count (onto instr.now done)) }
    ensures spots { IfOk result (λ _. spots.new.items ≡ spots.old.items ++ spots_in live around depth (onto instr.now done) at) }
{
    match instr {
        Instr::Block(_, inner) => {
            let inner = inner.as_slice();
            let end = walk_block(spots, Form::Block, inner, at, around, depth, live)?;
            Ok(end)
        }
        Instr::Loop(_, inner) => {
            let inner = inner.as_slice();
            let end = walk_block(spots, Form::Loop, inner, at, around, depth, live)?;
            Ok(end)
        }
        Instr::If(_, first, second) => {
            let (first, second) = (first.as_slice(), second.as_slice());
            let end = walk_if(spots, first, second, at, around, depth, live)?;
            Ok(end)
        }
        _ => {
            let form = plain_form(instr, depth);
            let stop = at + 1;
            push_spot(spots, around, stop, live, form)?;
            Ok(stop)
        }
    }
}

/// Adds a position.
fn push_spot(
    spots: &mut Vec<Packed>,
    around: Option<Pos>,
    stop: u32,
    live: bool,
    form: Form,
) -> Result<(), NoMemory>
    ensures { IfOk result (λ _. spots.new.items ≡ spots.old.items ++ record { around = around; stop = stop; live = live; form = form } ∷ []) }
{
    let spot = Spot {
        around,
        stop,
        live,
        form,
    };
    spots.push(Packed::of(spot)).map_err(|_| NoMemory)?;
    Ok(())
}

/// Writes a position anew.
fn set_spot(spots: &mut Vec<Packed>, here: usize, spot: Spot)
    requires { here < length spots.old.items }
    ensures { spots.new.items ≡ set spots.old.items here spot }
{
    spots[here] = Packed::of(spot);
}

/// Goes past a block or a loop.
#[cycle(walk)]
fn walk_block(
    spots: &mut Vec<Packed>,
    form: Form,
    inner: &[Instr],
    at: u32,
    around: Option<Pos>,
    depth: u32,
    live: bool,
) -> Result<u32, NoMemory>
    requires room { at + 1 + count (code_of inner.now) < 2 ^ 32 }
    requires deep { depth ≤ at }
    ensures end { IfOk result (λ end. end ≡ at + 1 + count (code_of inner.now)) }
    ensures spots { IfOk result (λ end. spots.new.items ≡ spots.old.items ++ record { around = around; stop = end; live = live; form = form } ∷ spots_in live (Some (place at)) (depth + 1) (code_of inner.now) (at + 1)) }
{
    let here = spots.len();
    push_spot(spots, around, at, live, form)?;
    let end = walk_code(spots, inner, at + 1, Some(Pos(at)), depth + 1, live)?;
    let spot = Spot {
        around,
        stop: end,
        live,
        form,
    };
    set_spot(spots, here, spot);
    Ok(end)
}

/// Goes past an if.
#[cycle(walk)]
fn walk_if(
    spots: &mut Vec<Packed>,
    first: &[Instr],
    second: &[Instr],
    at: u32,
    around: Option<Pos>,
    depth: u32,
    live: bool,
) -> Result<u32, NoMemory>
    requires room { at + 1 + count (code_of first.now) + count (code_of second.now) < 2 ^ 32 }
    requires deep { depth ≤ at }
    ensures end { IfOk result (λ end. end ≡ at + 1 + count (code_of first.now) + count (code_of second.now)) }
    ensures spots { IfOk result (λ end. spots.new.items ≡ spots.old.items ++ record { around = around; stop = end; live = live; form = Form.If } ∷ (spots_in live (Some (place at)) (depth + 1) (code_of first.now) (at + 1) ++ spots_in live (Some (place at)) (depth + 1) (code_of second.now) (at + 1 + count (code_of first.now)))) }
{
    let here = spots.len();
    push_spot(spots, around, at, live, Form::If)?;
    let middle = walk_code(spots, first, at + 1, Some(Pos(at)), depth + 1, live)?;
    let end = walk_code(spots, second, middle, Some(Pos(at)), depth + 1, live)?;
    let spot = Spot {
        around,
        stop: end,
        live,
        form: Form::If,
    };
    set_spot(spots, here, spot);
    Ok(end)
}

/// Goes past a sequence at a position, and answers the position after it.
#[cycle(walk)]
pub(crate) fn walk_code(
    spots: &mut Vec<Packed>,
    code: &[Instr],
    at: u32,
    around: Option<Pos>,
    depth: u32,
    live: bool,
) -> Result<u32, NoMemory>
    requires room { at + count (code_of code.now) < 2 ^ 32 }
    requires deep { depth ≤ at }
    ensures end { IfOk result (λ end. end ≡ at + count (code_of code.now)) }
    ensures spots { IfOk result (λ _. spots.new.items ≡ spots.old.items ++ spots_in live around depth (code_of code.now) at) }
{
    let mut here = at;
    let mut reached = live;
    for instr in code {
        here = walk_instr(spots, instr, here, around, depth, reached)?;
        reached = stays_live(instr, reached);
    }
    Ok(here)
}
