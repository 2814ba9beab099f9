//! Rows of words of one width, in one block, under slots that are taken and given back.
#![tactic(auto)]

mod block;
mod laws;
mod pool;
mod slot;
mod slots;

pub use laws::one_row_is_written;
pub use pool::RowPool;
pub use slot::Slot;
