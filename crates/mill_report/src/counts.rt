//! How many inputs the rows of a large module have, and how many positions its bodies.

ghost use Rattle.std.specs.Prelude.{◌≡◌, ◌≤◌, count_by};
ghost use Rattle.report_text.specs.SummaryTexts.{rows_in};
ghost use Rattle.mill_report.specs.Counts.{all_positions, inputs_below, row_inputs};
ghost use Rattle.module_mill.specs.Mill.{mill};

use flow_domain::{Input, Output, SummaryTable};
use module_mill::MOST_MILLED;
use wasm_types::ValidModule;

/// What each function of a large module leaves.
const OUTPUTS: &[Output] = &[
    Output::Ret,
    Output::Global(0),
    Output::Global(1),
    Output::Global(2),
    Output::Global(3),
    Output::Mem,
    Output::Size,
    Output::Done,
];

/// What each begins with.
const INPUTS: &[Input] = &[
    Input::Param(0),
    Input::Param(1),
    Input::Global(0),
    Input::Global(1),
    Input::Global(2),
    Input::Global(3),
    Input::Mem,
    Input::Size,
    Input::Host,
];

/// Whether an output of a function may depend on an input.
fn has(table: &SummaryTable, func: u32, output: Output, input: Input) -> bool
    ensures { result ≡ rows_in table.now func output input }
{
    table.has(func, output, input)
}

/// How many inputs an output of a function may depend on.
fn row_size(table: &SummaryTable, func: u32, output: Output) -> usize
    ensures size { result ≡ count_by (rows_in table.now func output) INPUTS.now }
    ensures few { result ≤ 9 }
{
    INPUTS
        .iter()
        .filter(|input| has(table, func, output, **input))
        .count()
}

/// The same of all outputs of a function together.
fn func_size(table: &SummaryTable, func: u32) -> usize
    ensures size { result ≡ row_inputs (rows_in table.now func) OUTPUTS.now INPUTS.now }
    ensures few { result ≤ 72 }
{
    let mut size = 0;
    for output in OUTPUTS {
        size += row_size(table, func, *output);
    }
    size
}

/// The number of inputs in all rows of a table of the large module of so many functions.
pub fn count_inputs(table: &SummaryTable, count: u32) -> usize
    requires { count ≤ MOST_MILLED }
    ensures { result ≡ inputs_below (mill count) (rows_in table.now) count }
{
    let mut size = 0;
    for func in 0..count {
        size += func_size(table, func);
    }
    size
}

/// The number of positions of all bodies of a module together.
pub fn count_positions(valid: &ValidModule) -> usize
    ensures { result ≡ all_positions valid.now }
{
    let module = valid.module();
    let mut total = 0;
    for body in module.bodies.as_slice() {
        total += body.count() as usize;
    }
    total
}
