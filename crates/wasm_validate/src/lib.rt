//! Which modules are analysed: the valid ones (WebAssembly Core Specification 1.0, chapter 3) without floats and within the limits.
#![tactic(auto)]

mod admission;
mod exports;
mod externals;
mod floats;
mod funcs;
mod globals;
mod imports;
mod laws;
mod limits;
mod parts;
mod refusal;
mod segments;
mod storage;
mod types;

pub use admission::admit;
pub use laws::law_one_refusal;
pub use refusal::AdmitEnd;
