//! Why bytes aren't read as a module.

use thiserror::Error;

/// Why no module was read. Of several that hold, the first in this order is answered, each for its first place.
#[derive(Clone, Copy, Debug, PartialEq, Eq, Error)]
pub enum DecodeEnd {
    /// The first eight bytes aren't those of every module (section 5.5.15).
    #[error("no module header")]
    Header,
    /// Section `k`, counted from 0 with custom ones, has no known id, no legal size, a size past the end, or an id other
    /// than 0 that isn't above all earlier ids (section 5.5.2).
    #[error("section {k} has no frame")]
    Frame { k: u32 },
    /// The contents of section `k` don't spell a section of its id (sections 5.5.3 to 5.5.14).
    #[error("section {k} is malformed, with id {id}")]
    Section { k: u32, id: u8 },
    /// Blocks nest more than 1,024 deep in an expression of entry `entry` of the section with the id.
    #[error("nesting over 1024 in section id {id} entry {entry}")]
    TooDeep { id: u8, entry: u32 },
    /// The function section and the code section differ in count (section 5.5.15).
    #[error("function and code sections differ in count")]
    Counts,
    /// Memory was refused.
    #[error("memory refused")]
    Memory,
}
