//! What is known of a body and of the functions that it calls.

use crate::numbering::Numbering;
use crate::steps::Step;
use block_cfg::Cfg;
use called_rows::Called;
use control_deps::{Deciders, Nest};
use flow_domain::LocTable;
use stack_names::Names;
use wasm_types::Body;

/// The tables of one body, and what is known of the functions that it calls.
#[derive(Clone, Copy, Drop)]
pub(crate) struct Tables<'a> {
    pub(crate) body: &'a Body,
    pub(crate) cfg: &'a Cfg,
    pub(crate) names: &'a Names,
    pub(crate) locs: &'a LocTable,
    pub(crate) nest: &'a Nest,
    pub(crate) deciders: &'a Deciders,
    pub(crate) steps: &'a [Step],
    pub(crate) called: Called<'a>,
    pub(crate) numbering: Numbering,
}
