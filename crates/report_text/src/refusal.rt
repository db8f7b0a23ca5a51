//! Why there is no answer.

use wasm_types::{LimitKind, Part};

/// Why there is no answer, by what is refused. Each refusal has one line on standard error.
#[derive(Clone, Copy, Debug, PartialEq, Eq)]
pub enum Refusal {
    /// The words are no command.
    Words,
    /// A read failed.
    ReadFailed,
    /// The bytes that were read are too many, or no module that is analysed.
    Module(ModuleRefusal),
    /// What is asked of the module has no answer.
    Query(QueryRefusal),
}

/// Why a module is refused, in the order in which the causes are tested.
#[derive(Clone, Copy, Debug, PartialEq, Eq)]
pub enum ModuleRefusal {
    /// More bytes came than a module may have.
    TooLong,
    /// The bytes don't begin with the header of a module.
    NoHeader,
    /// Section `k`, counted from 0 with custom ones, has no known id, no legal size, a size past the end, or stands out of order.
    NoFrame {
        k: u32,
    },
    /// Section `k` does not read: its contents don't spell a section of its id.
    DoesNotRead {
        k: u32,
        id: u8,
    },
    /// An expression in entry `entry` of section `id` nests over 1,024 blocks.
    TooDeep {
        id: u8,
        entry: u32,
    },
    /// The function section and the code section differ in count.
    Counts,
    /// A part of the module has a float type or a float instruction.
    Float {
        part: Part,
    },
    /// A number of the module, counted as `count`, is over its limit; `at` is the number of the type or of the function, or 0.
    Limit {
        which: LimitKind,
        at: u32,
        count: u64,
    },
    /// A part of the module isn't valid.
    Invalid {
        part: Part,
    },
}

/// Why a query about a module is refused, in the order in which the causes are tested.
#[derive(Clone, Copy, Debug, PartialEq, Eq)]
pub enum QueryRefusal {
    /// The module has no function of this number.
    NoFunction { func: u32 },
    /// The function is imported: it has no body.
    Imported { func: u32 },
    /// The function has only `count` instructions.
    NoInstruction { at: u32, count: u32 },
    /// The instruction is dead: no run reaches it.
    Dead { at: u32 },
    /// An export of the module has the name already.
    NameTaken,
    /// The arguments differ from the function's parameters in number, or one is out of its type's range.
    BadArguments,
    /// The memory begins with `min` pages, which are more than a run may have.
    TooManyPages { min: u32 },
}
