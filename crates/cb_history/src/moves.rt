//! What can be done to a history.
use cb_network::Edit;

/// An edit to be made, or the undo of the last accepted edit that isn't undone.
#[derive(Drop)]
pub enum Move {
    Make(Edit),
    Undo,
}
