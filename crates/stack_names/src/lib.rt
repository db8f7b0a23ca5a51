//! The names of the values on the operand stack of a body: what each instruction takes, what takes each value, and which values come together (docs/ANALYSES.md,
//! "Places", "Takers").
#![tactic(auto)]

mod effect;
mod groups;
mod labels;
mod lists;
mod naming;
mod part;
mod place;
mod plain;
mod push;
mod readers;
mod scope;
mod stack;
mod trail;
mod walk;

pub use naming::{end_names, names, operand_names, value_names, value_names_by};
pub use place::Place;
pub use readers::Names;
pub use wasm_types::{Node, Point, Taker};
