//! Code that is cut, so that unkept instructions become drops and constants: it is a valid body again, and a small one.
#![tactic(auto)]

mod cutting;
mod laws;
mod plan;
mod tally;

pub use cutting::{CutBody, cut};
pub use laws::{
    law_cut_is_one, law_cut_is_small, law_cut_is_valid, law_places_have_types, law_slice_is_sealed,
    law_valid_has_heights,
};
