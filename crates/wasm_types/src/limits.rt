//! The greatest numbers of what is read (docs/ANALYSES.md, "Limits"). Code and definitions read them here.

/// The most bytes of a module.
pub const MOST_BYTES: usize = 8_388_608;
/// The most blocks, loops and ifs around or at an instruction.
pub const MOST_NESTING: u32 = 1_024;
/// The most functions, imported and own.
pub const MOST_FUNCTIONS: usize = 10_000;
/// The most parameters of a function type.
pub const MOST_PARAMS: usize = 64;
/// The most globals, imported and own.
pub const MOST_GLOBALS: usize = 128;
/// The most entries that a table begins with.
pub const MOST_ENTRIES: u32 = 1_000_000;
/// The most locals that a body declares.
pub const MOST_LOCALS: u32 = 8_192;
/// The most positions of a body.
pub const MOST_POSITIONS: u32 = 100_000;
/// The most bytes of a name among the words.
pub const MOST_NAME_BYTES: usize = 65_536;
/// The most pages of a memory (WebAssembly Core Specification 1.0, section 3.2.4).
pub const MOST_PAGES: u32 = 65_536;
