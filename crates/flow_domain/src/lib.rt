//! The definitions of the analyses: what is kept, what a cut is, and what a sliced module is; and the tables of what positions read, check and write. They speak of
//! code, and of no run.
#![tactic(auto)]

mod kept;
mod laws;
mod loc_table;
mod plain_walk;
mod summary;
mod summary_table;

pub use kept::Kept;
pub use laws::{law_kept_is_closed, law_kept_is_least};
pub use loc_table::{LocTable, LocUse};
pub use plain_walk::plain_locs;
pub use summary::{Input, Output, Summary};
pub use summary_table::SummaryTable;
