//! Certificates, each a claim about a topology with all that it takes to check it, and the one text of each.
#![tactic(auto)]

mod certificate;
mod fault;
pub mod laws;
mod limits;
mod line;
mod parts;
mod piece;
mod reader;
mod reading;
mod words;
mod writer;

pub use certificate::{Certificate, Entry, Side, Span};
pub use fault::CertText;
pub use line::{CertificateLine, Version};
pub use reading::read;
pub use writer::write;
