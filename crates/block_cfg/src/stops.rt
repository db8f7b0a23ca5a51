//! Where the contents of positions end.

ghost use Rattle.std.specs.Prelude.{◌≡◌, ◌++◌, IfOk, length};
ghost use Rattle.wasm_types.specs.Code.{code_of, done, onto};
ghost use Rattle.block_cfg.specs.Stops.{stops_in};

use std::alloc::Global;
use wasm_types::{Body, Instr, NoMemory};

/// Of an instruction and of what it holds: the position after all that is known when they are gone through.
#[cycle(stops)]
fn add_instr(stops: &mut Vec<usize>, instr: &Instr) -> Result<(), NoMemory>
    ensures { IfOk result (λ _. stops.new.items ≡ stops.old.items ++ stops_in (onto instr.now done) (length stops.old.items)) }
{
    let place = stops.len();
    stops.push(0).map_err(|_| NoMemory)?;
    match instr {
        Instr::Block(_, inner) => add_code(stops, inner.as_slice())?,
        Instr::Loop(_, inner) => add_code(stops, inner.as_slice())?,
        Instr::If(_, first, second) => {
            add_code(stops, first.as_slice())?;
            add_code(stops, second.as_slice())?;
        }
        _ => {}
    }
    stops[place] = stops.len();
    Ok(())
}

/// Of a sequence. It calls itself for each block that it goes into.
#[cycle(stops)]
fn add_code(stops: &mut Vec<usize>, code: &[Instr]) -> Result<(), NoMemory>
    ensures { IfOk result (λ _. stops.new.items ≡ stops.old.items ++ stops_in (code_of code.now) (length stops.old.items)) }
{
    for instr in code {
        add_instr(stops, instr)?;
    }
    Ok(())
}

/// Where the contents of each position of a body end, which has so many positions.
pub(crate) fn stops(alloc: Global, body: &Body, positions: usize) -> Result<Vec<usize>, NoMemory>
    ensures { IfOk result (λ stops. stops.items ≡ stops_in (code_of body.now.code) 0) }
{
    let mut stops = Vec::with_capacity(alloc, positions).map_err(|_| NoMemory)?;
    add_code(&mut stops, body.code.as_slice())?;
    Ok(stops)
}
