//! Tests of the public calls of lower layers that the program doesn't make, each once on its happy path. They stand in a crate of their own, since a crate with
//! tests is proved twice. The rows of the whole program are in `program_tests`, and reach the other calls.
#![tactic(auto)]

#[cfg(test)]
mod flow;
#[cfg(test)]
mod modules;
#[cfg(test)]
mod runs;
#[cfg(test)]
mod streams;
