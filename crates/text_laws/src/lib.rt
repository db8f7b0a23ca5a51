//! The laws of spellings: a text spells at most one module, the canonical spelling spells its module and is shortest, and what is spelled is well formed.
#![tactic(auto)]

mod laws;

pub use laws::{
    law_canon, law_canon_is_shortest, law_lists_are_short, law_one_module,
    law_spelled_is_well_formed,
};
