//! Edits as lines of words.
#![tactic(auto)]

pub mod laws;
mod read;
mod stop;

pub use read::read_edit;
pub use stop::EditText;
