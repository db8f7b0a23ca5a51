//! The sliced module of a function, an instruction and a name.
#![tactic(auto)]

mod keeping;
mod laws;
mod slicing;

pub use keeping::kept_named;
pub use laws::law_slice_follows;
pub use slicing::{SliceRefusal, Sliced, slice};
