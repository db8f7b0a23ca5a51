//! Expressions from bytes (WebAssembly Core Specification 1.0, section 5.4).
#![tactic(auto)]

mod expr;
mod outcome;
mod plain;
mod read;
mod scan;

pub use expr::{CodeRefusal, read_expr};
pub use outcome::Stop;
