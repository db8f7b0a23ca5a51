//! Rows of the whole program over sources and sinks in memory: words and bytes, and what comes out. They stand in a crate of their own, since a crate with
//! tests is proved twice. Tables of rows are constants: a test that builds its table costs the checker much more.
#![tactic(auto)]

#[cfg(test)]
mod broken;
#[cfg(test)]
mod faults;
#[cfg(test)]
mod milling;
#[cfg(test)]
mod modules;
#[cfg(test)]
mod reading;
#[cfg(test)]
mod refusing;
#[cfg(test)]
mod row;
#[cfg(test)]
mod running;
#[cfg(test)]
mod slicing;
#[cfg(test)]
mod summarising;
