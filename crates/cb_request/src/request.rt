//! What may be asked for.
use crate::file_name::FileName;
use crate::node_word::NodeWord;
use cb_model::Wish;

/// A command with the names of its files, with its node and with its numbers, in the order of its words.
#[derive(Drop)]
pub enum Request<'w> {
    /// What causes the symptoms of a file.
    Burst {
        model: FileName<'w>,
        topology: FileName<'w>,
        symptoms: FileName<'w>,
    },
    /// The canonical text of a model.
    Model {
        model: FileName<'w>,
    },
    /// Columns, groups and codes.
    Matrix {
        model: FileName<'w>,
        topology: FileName<'w>,
    },
    /// A certificate of the codebook for a wanted distance or a cap.
    Codebook {
        model: FileName<'w>,
        topology: FileName<'w>,
        wish: Wish,
    },
    /// What a certificate shows.
    Verify {
        model: FileName<'w>,
        topology: FileName<'w>,
        certificate: FileName<'w>,
    },
    /// The events of a log, by the codebook of a certificate.
    Decode {
        model: FileName<'w>,
        topology: FileName<'w>,
        certificate: FileName<'w>,
        log: FileName<'w>,
        window: u64,
    },
    /// The events of a log, by codebooks for a wanted distance or a cap.
    Correlate {
        model: FileName<'w>,
        topology: FileName<'w>,
        log: FileName<'w>,
        wish: Wish,
        window: u64,
    },
    /// Which group, or which two at once, fit the symptoms of a file.
    Pairs {
        model: FileName<'w>,
        topology: FileName<'w>,
        symptoms: FileName<'w>,
    },
    /// What causes the symptoms of a file, with the shortest chains to them.
    Explain {
        model: FileName<'w>,
        topology: FileName<'w>,
        symptoms: FileName<'w>,
    },
    /// The levels of all that a problem causes.
    Levels {
        model: FileName<'w>,
        topology: FileName<'w>,
        node: NodeWord<'w>,
    },
    /// What levels show.
    Prove {
        model: FileName<'w>,
        topology: FileName<'w>,
        levels: FileName<'w>,
    },
    /// The matrix after the edits and undos of a script, of which at most `depth` edits can be taken back.
    Rewind {
        model: FileName<'w>,
        topology: FileName<'w>,
        script: FileName<'w>,
        depth: u64,
    },
    /// A summary of a generated log.
    Grow {
        sites: u64,
        start: u64,
    },
}
