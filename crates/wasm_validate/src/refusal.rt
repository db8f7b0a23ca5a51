//! Why a module isn't admitted.

use thiserror::Error;
use wasm_types::{LimitKind, Part};

/// Why a module isn't admitted. Of several causes that hold, the first in this order is answered, each for its first place (docs/VALIDITY.md, "The order
/// of refusals").
#[derive(Clone, Copy, Debug, PartialEq, Eq, Error)]
pub enum AdmitEnd {
    /// A float type or a float instruction stands in a part: the first of the types, imports, globals, element segments, functions and data segments.
    #[error("float type or instruction in {part:?}")]
    Float {
        part: Part,
    },
    /// A number is over its limit, the first in the order of `LimitKind`. `at` is the number of the type or of the function, or 0; `count` is the number
    /// that was counted.
    #[error("{which:?} of {at}: {count}")]
    Limit {
        which: LimitKind,
        at: u32,
        count: u64,
    },
    /// A part isn't valid (section 3.4), the first in the order of `Part`.
    #[error("invalid {part:?}")]
    Invalid {
        part: Part,
    },
    /// Memory was refused.
    #[error("memory refused")]
    Memory,
}
