//! Whether the body of a function is valid (docs/VALIDITY.md).
#![tactic(auto)]

mod body;
mod check;
mod locals;
mod place;
mod plain;
mod spaces;
mod stack;
mod typing;

pub use body::{check_body, is_valid_body};
pub use spaces::Spaces;
