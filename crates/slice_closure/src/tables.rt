//! What is known of a body, and of the functions that it calls.

use crate::flow::Flow;
use called_rows::Called;
use control_deps::{Deciders, Nest};
use stack_names::Names;
use wasm_types::Body;

/// The tables of one body, and what calls depend on.
#[derive(Clone, Copy, Drop)]
pub(crate) struct Tables<'a> {
    pub(crate) body: &'a Body,
    pub(crate) flow: &'a Flow,
    pub(crate) names: &'a Names,
    pub(crate) nest: &'a Nest,
    pub(crate) deciders: &'a Deciders,
    pub(crate) called: Called<'a>,
}
