//! A small model to try things on, for tests.
#![tactic(auto)]

mod sample;

pub use sample::sample_model;
