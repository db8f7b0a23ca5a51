//! Modules to bytes, in the canonical spelling (docs/FORMAT.md).
#![tactic(auto)]

mod code;
mod items;
mod module;
mod sections;
mod text;

pub use module::encode;
