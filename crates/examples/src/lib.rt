//! Examples, computed by the checker: what the definitions say of small modules, and modules that meet the premises of the laws. No code stands here, and no
//! crate stands on this one.
#![tactic(auto)]
