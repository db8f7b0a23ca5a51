//! The operations on integers (WebAssembly Core Specification 1.0, section 4.3.2). An operand is the number below 2 to its width, and so is an answer.
#![tactic(auto)]

mod arithmetic;
mod comparing;
mod counting;
mod widths;

pub use arithmetic::binary;
pub use comparing::relation;
pub use counting::unary;
pub use widths::{extend_low, extend_s, extend_u, wrap};
