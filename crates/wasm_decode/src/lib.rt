//! Modules from bytes (WebAssembly Core Specification 1.0, section 5.5).
#![tactic(auto)]

mod code;
mod contents;
mod decoding;
mod frames;
mod laws;
mod list;
mod production;
mod refusal;
mod sections;
mod types;

pub use decoding::decode;
pub use laws::law_one_answer;
pub use refusal::DecodeEnd;
