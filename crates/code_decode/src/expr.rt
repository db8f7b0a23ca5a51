//! Expressions.

ghost use Rattle.std.specs.Prelude.{◌≤◌, length};
ghost use Rattle.code_decode.specs.Expr.{ReadsExpr};

use crate::outcome::Stop;
use crate::read::read_code;
use crate::scan::expr_end;
use sqlite_items::Items;
use std::alloc::Global;
use thiserror::Error;
use wasm_types::{Instr, MOST_NESTING};

/// Why no expression was read.
#[derive(Clone, Copy, Debug, PartialEq, Eq, Error)]
pub enum CodeRefusal {
    /// None stands there.
    #[error("malformed code")]
    Malformed,
    /// One stands there, and nests more than 1,024 blocks; the place after it.
    #[error("blocks nest too deep before {end}")]
    TooDeep { end: usize },
    /// Memory was refused.
    #[error("memory refused")]
    Memory,
}

/// The expression that stands at `at` (section 5.4.6), and the place after it.
///
/// `Malformed` where none stands there, `TooDeep` where one does and nests more than 1,024 blocks, loops and ifs.
pub fn read_expr(
    alloc: Global,
    bytes: &[u8],
    at: usize,
) -> Result<(Items<Instr>, usize), CodeRefusal>
    requires { at ≤ length bytes.now }
    ensures { ReadsExpr bytes.now at result }
{
    match read_code(alloc, bytes, at, MOST_NESTING) {
        Ok((code, end)) => {
            if bytes[end] == 0x0B {
                Ok((code, end + 1))
            } else {
                Err(CodeRefusal::Malformed)
            }
        }
        Err(Stop::Memory) => Err(CodeRefusal::Memory),
        Err(Stop::No) => match expr_end(alloc, bytes, at) {
            Ok(Some(end)) => Err(CodeRefusal::TooDeep { end }),
            Ok(None) => Err(CodeRefusal::Malformed),
            Err(_) => Err(CodeRefusal::Memory),
        },
    }
}
