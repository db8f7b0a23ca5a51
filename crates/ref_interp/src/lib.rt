//! The interpreter: invocations of a module's functions, exactly by the meaning.
#![tactic(auto)]

mod callees;
mod host;
mod invocation;
mod machine;
mod memory;
mod numbers;
mod run;
mod step;

pub use invocation::{Call, InvokeEnd, Run, invoke};
pub use numbers::value_for;
