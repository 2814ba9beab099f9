//! What there is: closed windows, codebooks, matrices, findings and events exist.
#![tactic(auto)]

pub mod laws;
