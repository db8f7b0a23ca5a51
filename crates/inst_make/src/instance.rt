//! What a run needs besides the module.

use run_store::{PageStore, Script};
use wasm_types::Value;

/// A module's instance: the values of all its globals in the order of their numbers, its memory, the entries of its table, each a function's number or
/// empty, and the host's replies. Where there is no memory, the page store has no pages and the maximum 0; where there is no table, there are no entries.
/// A spent instance was given up in the middle of a run, and can't be run again.
#[derive(Drop)]
pub struct Instance {
    pub globals: Vec<Value>,
    pub store: PageStore,
    pub entries: Vec<Option<u32>>,
    pub script: Script,
    pub spent: bool,
}
