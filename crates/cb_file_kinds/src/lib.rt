//! The files of a command, by their kinds, read and judged one after the other.
#![tactic(auto)]

mod book_file;
mod certificate_file;
mod kind;
mod levels_file;
mod model_file;
mod network;
mod output;
mod script_file;
mod symptom_file;
mod topology_file;

pub use book_file::{BookFile, GivenBook, GivenWish, ShownBook};
pub use certificate_file::CertificateFile;
pub use kind::{FileKind, read_as};
pub use levels_file::{ProvedLevels, read_proved};
pub use model_file::{ModelFile, TreeFile};
pub use network::read_network;
pub use output::{Output, deliver};
pub use script_file::ScriptFile;
pub use symptom_file::SymptomFile;
pub use topology_file::TopologyFile;
