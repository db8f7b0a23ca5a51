//! What is kept of a position.

ghost use Rattle.std.specs.Prelude.{◌≡◌, ◌↔◌, IsTrue, Some};
ghost use Rattle.slice_closure.specs.Flow as spec;
ghost use Rattle.slice_closure.specs.Runs.{goes_straight, is_quiet};
ghost use Rattle.slice_closure.specs.Takens.{taken_by};

use crate::items::loc_number;
use called_rows::Whom;
use wasm_types::{Instr, Loc, Point};

/// How a walk comes to an instruction: not at all where it is dead, first of all, or after a point that leads to it.
#[derive(Clone, Copy, Drop)]
pub(crate) enum Came {
    Never,
    First,
    After(Point),
}

/// What an instruction does to locations. A change keeps a part of what was there; what loads and stores depends on the size of the memory, too; and what a call does
/// depends on whom it calls.
#[derive(Clone, Copy, Drop)]
pub(crate) enum Touch {
    Nothing,
    Reads(Loc),
    Writes(Loc),
    Changes(Loc),
    Loads,
    Stores,
    Calls(Whom),
}

/// Which of its operands a kept instruction takes: all, the last alone, or nothing. A branch doesn't take the values that it carries. An if takes what it
/// tests, and has a word of its own since it leads to two points.
#[derive(Clone, Copy, Drop)]
pub(crate) enum Taken {
    All,
    Last,
    Nothing,
    Test,
}

/// A position.
#[derive(Clone, Copy, Drop)]
pub(crate) struct Spot {
    pub(crate) came: Came,
    pub(crate) touch: Touch,
    pub(crate) taken: Taken,
}

/// On from a point, where the walk came there at all.
pub(crate) fn through(came: Came, point: Point) -> Came
    ensures { result ≡ spec.through came point }
{
    match came {
        Came::Never => Came::Never,
        _ => Came::After(point),
    }
}

pub(crate) fn touch_of(instr: &Instr) -> Touch
    ensures { result ≡ spec.touch_of instr.now }
{
    match instr {
        Instr::LocalGet(local) => Touch::Reads(Loc::Local(*local)),
        Instr::LocalSet(local) | Instr::LocalTee(local) => Touch::Writes(Loc::Local(*local)),
        Instr::GlobalGet(global) => Touch::Reads(Loc::Global(*global)),
        Instr::GlobalSet(global) => Touch::Writes(Loc::Global(*global)),
        Instr::Load(_, _) => Touch::Loads,
        Instr::Store(_, _) | Instr::MemoryCopy | Instr::MemoryFill => Touch::Stores,
        Instr::MemorySize => Touch::Reads(Loc::Size),
        Instr::MemoryGrow => Touch::Changes(Loc::Size),
        Instr::Call(func) => Touch::Calls(Whom::Own(*func)),
        Instr::CallIndirect(kind) => Touch::Calls(Whom::Through(*kind)),
        _ => Touch::Nothing,
    }
}

pub(crate) fn taken_by(instr: &Instr) -> Taken
    ensures { result ≡ taken_by instr.now }
{
    match instr {
        Instr::Br(_) | Instr::Return => Taken::Nothing,
        Instr::BrIf(_) | Instr::BrTable(_, _) => Taken::Last,
        _ => Taken::All,
    }
}

fn is_same(first: Loc, second: Loc) -> bool
    ensures { IsTrue result ↔ first ≡ second }
{
    first == second
}

impl Touch {
    /// Whom it calls.
    pub(crate) fn whom(self) -> Option<Whom>
        ensures { result ≡ spec.whom_in_touch self }
    {
        match self {
            Touch::Calls(whom) => Some(whom),
            _ => None,
        }
    }

    /// What it writes.
    fn written(self) -> Option<Loc>
        ensures { result ≡ spec.written_by self }
    {
        match self {
            Touch::Writes(loc) => Some(loc),
            Touch::Changes(loc) => Some(loc),
            Touch::Stores => Some(Loc::Mem),
            _ => None,
        }
    }

    /// Whether it writes a location.
    pub(crate) fn writes(self, loc: Loc) -> bool
        ensures { IsTrue result ↔ spec.written_by self ≡ Some loc }
    {
        match self.written() {
            Some(written) => is_same(written, loc),
            None => false,
        }
    }
    /// Whether it neither reads nor writes a location, or checks it. Of a call that isn't told.
    pub(crate) fn is_quiet(self, loc: Loc) -> bool
        ensures { result ≡ is_quiet self loc }
    {
        let number = loc_number(loc);
        match self {
            Touch::Nothing => true,
            Touch::Reads(other) => loc_number(other) != number,
            Touch::Writes(other) => loc_number(other) != number,
            Touch::Changes(other) => loc_number(other) != number,
            Touch::Loads => 1 < number,
            Touch::Stores => 1 < number,
            Touch::Calls(_) => false,
        }
    }
}

impl Taken {
    /// Whether one point alone comes after what takes its operands so.
    pub(crate) fn goes_straight(self) -> bool
        ensures { result ≡ goes_straight self }
    {
        matches!(self, Taken::All)
    }
}
