//! Readers over slices of bytes: words, names, nodes, numbers and lines. None of them takes memory.
#![tactic(auto)]

mod decimal;
mod limits;
mod line;
mod name;
mod node;
mod word;

pub use decimal::decimal_of;
pub use limits::{LONGEST_LINE, LONGEST_NAME};
pub use line::{LineAt, LineIter, first_long, line_from, lines, lines_are_met};
pub use name::{is_instance, is_name};
pub use node::{node_parts, nodes_are_read_once};
pub use word::{WordIter, has_no_word, is_passed_over, only_word, words};
