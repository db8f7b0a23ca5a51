//! What a run prints, with its trace.

ghost use Rattle.std.specs.Prelude.{◌≡◌, ◌++◌, IfOk};
ghost use Rattle.std.specs.String.{string_bytes};
ghost use Rattle.report_text.specs.Texts.{line_of};
ghost use Rattle.report_text.specs.RunTexts.{ended_lines, event_line, event_lines, reason_text, result_texts, run_lines, trapped_in, turns_line, value_text, value_texts};

use std::alloc::{AllocError, Global};
use wasm_types::{Ended, Event, NoMemory, Reason, Value};

/// How the run of a function ended, or what ended before it began.
#[derive(Drop)]
pub enum Outcome {
    /// The run, or the start function before it, ended so; the turns are those of both. The trace is that of the run.
    Ran {
        ended: Ended,
        trace: Vec<Event>,
        in_start: bool,
    },
    /// Element segment `k` doesn't fit the table.
    ElemOut {
        k: u32,
    },
    /// Data segment `k` doesn't fit the memory.
    DataOut {
        k: u32,
    },
}

/// A value as its unsigned number.
fn value_word(alloc: Global, value: Value) -> Result<String, AllocError>
    ensures { IfOk result (λ word. string_bytes word ≡ value_text value) }
{
    match value {
        Value::I32(n) => format!(in alloc; "{n}"),
        Value::I64(n) => format!(in alloc; "{n}"),
    }
}

/// A space and the value for each of them, to the end of the line.
fn values_end(alloc: Global, values: &[Value]) -> Result<String, AllocError>
    ensures { IfOk result (λ text. string_bytes text ≡ line_of (value_texts values.now)) }
{
    let mut text = String::new(alloc);
    for value in values {
        let word = value_word(alloc, *value)?;
        text.push(' ')?;
        text.push_str(word.as_str())?;
    }
    text.push('\n')?;
    Ok(text)
}

/// What is seen of a watched instruction.
fn event_text(alloc: Global, event: &Event) -> Result<String, AllocError>
    ensures { IfOk result (λ text. string_bytes text ≡ event_line event.now) }
{
    match event {
        Event::Take(values) => {
            let end = values_end(alloc, values.as_slice())?;
            format!(in alloc; "take{end}")
        }
        Event::Leave(values) => {
            let end = values_end(alloc, values.as_slice())?;
            format!(in alloc; "leave{end}")
        }
    }
}

/// Why a run stopped.
fn reason_name(reason: Reason) -> &'static str
    ensures { result.now ≡ reason_text reason }
{
    match reason {
        Reason::Unreachable => "unreachable",
        Reason::DivideByZero => "divide by zero",
        Reason::Overflow => "integer overflow",
        Reason::MemoryBounds => "memory out of bounds",
        Reason::NoEntry => "no table entry",
        Reason::EmptyEntry => "empty table entry",
        Reason::WrongType => "wrong function type",
        Reason::ReplyMissing => "host reply missing",
        Reason::ReplyUnfit => "host reply unfit",
    }
}

/// A space and the result, where there is one.
fn result_word(alloc: Global, value: Option<Value>) -> Result<String, AllocError>
    ensures { IfOk result (λ text. string_bytes text ≡ line_of (result_texts value)) }
{
    match value {
        Some(Value::I32(n)) => format!(in alloc; " {n}\n"),
        Some(Value::I64(n)) => format!(in alloc; " {n}\n"),
        None => format!(in alloc; "\n"),
    }
}

/// How a run ended.
fn ended_text(alloc: Global, in_start: bool, ended: Ended) -> Result<String, AllocError>
    ensures { IfOk result (λ text. string_bytes text ≡ ended_lines in_start ended) }
{
    match ended {
        Ended::Returned { value, turns } => {
            let end = result_word(alloc, value)?;
            format!(in alloc; "returned{end}turns {turns}\n")
        }
        Ended::Trapped { reason, turns } => {
            let name = reason_name(reason);
            if in_start {
                format!(in alloc; "start trapped {name}\nturns {turns}\n")
            } else {
                format!(in alloc; "trapped {name}\nturns {turns}\n")
            }
        }
        Ended::OutOfTurns => format!(in alloc; "out of turns\n"),
    }
}

/// The events and how the run ended, a line each (docs/COMMANDS.md, "What a run prints").
pub fn run_text(alloc: Global, outcome: &Outcome) -> Result<Vec<u8>, NoMemory>
    ensures { IfOk result (λ text. text.items ≡ run_lines outcome.now) }
{
    let text = match outcome {
        Outcome::Ran {
            ended,
            trace,
            in_start,
        } => ran_text(alloc, trace.as_slice(), *in_start, *ended)?,
        Outcome::ElemOut { k } => format!(in alloc; "element segment {k} does not fit\n")?,
        Outcome::DataOut { k } => format!(in alloc; "data segment {k} does not fit\n")?,
    };
    Ok(text.into_bytes())
}

/// The events, and then how the run ended.
fn ran_text(
    alloc: Global,
    trace: &[Event],
    in_start: bool,
    ended: Ended,
) -> Result<String, AllocError>
    ensures { IfOk result (λ text. string_bytes text ≡ event_lines trace.now ++ ended_lines in_start ended) }
{
    let mut text = String::new(alloc);
    for event in trace {
        let line = event_text(alloc, event)?;
        text.push_str(line.as_str())?;
    }
    let end = ended_text(alloc, in_start, ended)?;
    text.push_str(end.as_str())?;
    Ok(text)
}
