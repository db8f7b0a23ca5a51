//! What a run shows: its events, how it ended, and what the host answers.

use crate::module::Value;
use sqlite_items::Items;

/// Why a run traps.
#[derive(Clone, Copy, Debug, PartialEq, Eq)]
pub enum Reason {
    Unreachable,
    DivideByZero,
    Overflow,
    MemoryBounds,
    NoEntry,
    EmptyEntry,
    WrongType,
    ReplyMissing,
    ReplyUnfit,
}

/// What happens at the watched position: it takes these operands, the deepest first, or leaves these values.
#[derive(Drop)]
pub enum Event {
    Take(Items<Value>),
    Leave(Items<Value>),
}

/// What the host answers to a call: a result, values for globals by their numbers, and bytes from an address on. A negative number stands for itself and
/// 2 to the width of the type.
#[derive(Drop)]
pub struct Reply {
    pub result: Option<i128>,
    pub globals: Items<(u32, i128)>,
    pub bytes: Items<(u32, Items<u8>)>,
}

/// How a run ended, and after how many turns: calls, and branches back to a loop.
#[derive(Clone, Copy, Debug, PartialEq, Eq)]
pub enum Ended {
    Returned { value: Option<Value>, turns: u32 },
    Trapped { reason: Reason, turns: u32 },
    OutOfTurns,
}
