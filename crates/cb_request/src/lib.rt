//! What the words of the command line ask for.
#![tactic(auto)]

mod file_name;
pub mod laws;
mod node_word;
mod numbers;
mod request;
mod table;

pub use file_name::FileName;
pub use node_word::NodeWord;
pub use request::Request;
