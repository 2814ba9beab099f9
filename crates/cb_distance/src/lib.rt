//! How far codes are apart: the first pair that is too close, over all columns or over some, and the radii of codes for a cap.
#![tactic(auto)]

mod chosen;
mod close;
mod needs;
mod tolerance;

pub use close::{first_close, first_close_from, first_short};
pub use tolerance::radii;
