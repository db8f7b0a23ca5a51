//! Where bytes come from and where they go: sources and sinks that count their faults.
//!
//! A source or a sink may fail at any call, and its count of faults then rises. So a caller that passes a failure on
//! can prove that it made none up. Those in memory tell their bytes to contracts; those over files and pipes don't.
#![tactic(auto)]

mod errors;
mod memory;
mod sink;
mod source;
mod whole;

pub use errors::{Failed, NoMemory};
pub use memory::{MemSink, MemSource, QuietSource};
pub use sink::{Sink, StdSink};
pub use source::{Source, StdSource};
pub use whole::{ReadEnd, read_all, write_all};
