//! What a run stands on: the memory's pages, the replies that a host gives in order, and which replies fit.
#![tactic(auto)]

mod bytes;
mod fitness;
mod pages;
mod script;

pub use fitness::fits;
pub use pages::{PAGE_BYTES, PageStore};
pub use script::Script;
pub use wasm_types::Reply;
