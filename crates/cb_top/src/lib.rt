//! The top call: from the words of the command line and the bytes of the files to the output.
#![tactic(auto)]

mod conclude;
mod perform;
mod top;

pub use cb_report::Status;
pub use top::run;
