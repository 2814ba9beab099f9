//! What a log is correlated by.

use crate::basis::Ready;
use cb_model::Wish;

/// What a log is correlated by, with what is ready for it.
#[derive(Drop)]
pub(crate) enum Course {
    /// By codebooks for a wish, which follow the edits. One is ready from the first window that closes until an edit is accepted.
    Wanted { wish: Wish, ready: Option<Ready> },
    /// By one codebook, of a topology that takes no edits.
    Fixed { ready: Ready },
}
