//! Numbers in LEB128 (WebAssembly Core Specification 1.0, section 5.2.2): readers of every spelling, and writers of the shortest one.
#![tactic(auto)]

mod laws;
mod read;
mod write;

pub use laws::{law_one_text, law_shortest_signed, law_shortest_unsigned};
pub use read::{read_s32, read_s64, read_u32};
pub use write::{write_i32_bits, write_i64_bits, write_s32, write_s64, write_u32};
