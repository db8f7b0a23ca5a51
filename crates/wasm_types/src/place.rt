//! Places of a body and of a module.

use crate::module::Pos;

/// Where a value of a body comes from, or where paths meet: an instruction, the end of a block, loop or if, by its opening, or the end of the body.
#[derive(Clone, Copy, Debug, PartialEq, Eq)]
pub enum Node {
    At(Pos),
    Join(Pos),
    Exit,
}

/// A point of a body, where paths lead: the same three forms, for the end of each block, loop or if, also of one that has no result.
pub type Point = Node;

/// What holds a value that instructions read and write: a local, a global, all bytes of the memory, the number of its pages, the host with the calls that
/// it got.
#[derive(Clone, Copy, Debug, PartialEq, Eq)]
pub enum Loc {
    Local(u32),
    Global(u32),
    Mem,
    Size,
    Host,
}

/// What may have written a location last: the entry of the body, or an instruction.
#[derive(Clone, Copy, Debug, PartialEq, Eq)]
pub enum Def {
    Entry,
    At(Pos),
}

/// What takes a value off the stack: an instruction, as an operand, or the end of a block, of an arm or of the body.
#[derive(Clone, Copy, Debug, PartialEq, Eq)]
pub enum Taker {
    Instr(Pos),
    End(Point),
}

/// A part of a module. Functions and globals have their number in the module, the imported ones first; the other numbers count the entries of a section.
#[derive(Clone, Copy, Debug, PartialEq, Eq)]
pub enum Part {
    TypeAt(u32),
    ImportAt(u32),
    FuncTypeAt(u32),
    TableAll,
    MemoryAll,
    GlobalAt(u32),
    FuncAt(u32),
    ExportAt(u32),
    StartAt,
    ElemAt(u32),
    DataAt(u32),
}

/// What a limit counts.
#[derive(Clone, Copy, Debug, PartialEq, Eq)]
pub enum LimitKind {
    Functions,
    Params,
    Globals,
    TableSize,
    Locals,
    Positions,
}
