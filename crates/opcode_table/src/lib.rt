//! Opcodes, and the bytes of types and of kinds: each table once, to be read and to be written (WebAssembly Core Specification 1.0, chapter 5).
#![tactic(auto)]

mod instructions;
mod laws;
mod operations;
mod table;
mod types;

pub use instructions::{
    Following, MEMORY_COPY, MEMORY_FILL, bare, opcode_of, what_follows, with_address, with_bulk,
    with_labels, with_memory, with_number, with_raw_32, with_raw_64, with_signature,
    with_signed_32, with_signed_64,
};
pub use laws::law_read_back;
pub use operations::{load_byte, load_op, num_byte, num_op, store_byte, store_op};
pub use types::{
    block_byte, block_kind, export_byte, export_kind, mutable_byte, mutable_of, type_byte, val_type,
};
