//! The lines of a report.

ghost use Rattle.std.specs.Prelude.{◌≡◌, ◌++◌, IfOk, OnOk};
ghost use Rattle.mill_report.specs.Lines.{figure_line, figure_lines};

use std::alloc::Global;
use wasm_types::NoMemory;

/// The numbers of a report.
#[derive(Clone, Copy, Debug, PartialEq, Eq)]
pub struct Figures {
    pub bytes: usize,
    pub functions: usize,
    pub positions: usize,
    pub inputs: usize,
    pub kept: usize,
    pub slice_bytes: usize,
}

/// The line of a number.
fn line(alloc: Global, name: &str, figure: usize) -> Result<Vec<u8>, NoMemory>
    ensures { IfOk result (λ text. text.items ≡ figure_line name.now figure) }
{
    let line = format!(in alloc; "{name} {figure}\n")?;
    Ok(line.into_bytes())
}

/// Adds the line of a number.
fn push_line(alloc: Global, text: &mut Vec<u8>, name: &str, figure: usize) -> Result<(), NoMemory>
    ensures { OnOk result (text.new.items ≡ text.old.items ++ figure_line name.now figure) }
{
    let line = line(alloc, name, figure)?;
    text.extend_from_slice(&line)?;
    Ok(())
}

/// A line for each number (docs/COMMANDS.md, "What mill tells").
pub fn figures_text(alloc: Global, figures: Figures) -> Result<Vec<u8>, NoMemory>
    ensures { IfOk result (λ text. text.items ≡ figure_lines figures) }
{
    let mut text = Vec::new(alloc);
    push_line(alloc, &mut text, "bytes", figures.bytes)?;
    push_line(alloc, &mut text, "functions", figures.functions)?;
    push_line(alloc, &mut text, "positions", figures.positions)?;
    push_line(alloc, &mut text, "inputs", figures.inputs)?;
    push_line(alloc, &mut text, "kept", figures.kept)?;
    push_line(alloc, &mut text, "slice bytes", figures.slice_bytes)?;
    Ok(text)
}
