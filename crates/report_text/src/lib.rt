//! The texts that the program prints, each worded here alone (docs/COMMANDS.md).
#![tactic(auto)]

mod draft;
mod front;
mod gaps;
mod instruction;
mod kept;
mod listing;
mod page;
mod place;
mod refusal;
mod room;
mod run;
mod summary;
mod text;

pub use gaps::{Rest, Spaced};
pub use kept::kept_text;
pub use listing::list_text;
pub use refusal::{ModuleRefusal, QueryRefusal, Refusal};
pub use run::{Outcome, run_text};
pub use summary::summary_text;
pub use text::{refusal_text, slice_text, valid_text};
