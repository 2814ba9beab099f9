//! What results from the lines of a log.
use cb_finding::Finding;
use cb_model::{GroupName, Name};
use cb_network::EditRefusal;

/// Why a line has no record. Where several of these hold, the answer is the one that stands first here.
#[derive(Clone, Copy, Debug, PartialEq, Eq)]
pub enum SkipKind {
    /// The line is no JSON, by its bytes or because it nests too deep.
    NotJson,
    /// It is no object.
    NotObject,
    /// Its time is absent, or no whole number of 64 bits.
    BadAt,
    /// An alarm's source is absent, or no name.
    BadSource,
    /// It says not exactly one thing, or says it in a wrong form.
    BadBody,
    /// What is raised or cleared isn't written as a node. Whether the topology has that node is not asked here.
    BadName,
    /// What stands as the edit spells none. Whether the topology allows an edit is not asked here.
    BadEdit,
}

/// Why a line is skipped.
#[derive(Clone, Copy, Debug, PartialEq, Eq)]
pub enum SkipWhy {
    /// It has too many bytes.
    Long,
    /// It has no record.
    Bad(SkipKind),
}

/// Why an edit of the log is refused.
#[derive(Clone, Copy, Debug, PartialEq, Eq)]
pub enum RefusedWhy {
    /// The topology doesn't allow it.
    Edit(EditRefusal),
    /// The codebook is fixed, so no edit is taken.
    Fixed,
}

/// One thing that results from a log.
#[derive(Drop)]
pub enum Event {
    /// The line of this number has no record.
    Skipped {
        line: u64,
        why: SkipWhy,
    },
    /// The edit of the line of this number changes nothing.
    Refused {
        line: u64,
        why: RefusedWhy,
    },
    /// Two groups are closer than wanted over all columns; these are the first two, and `distance` is theirs.
    Thin {
        wanted: u32,
        first: GroupName,
        second: GroupName,
        distance: u32,
    },
    /// From now on a codebook is in use, with `columns` of all, over which the groups are at least `distance` apart.
    BookMade {
        columns: u32,
        of: u32,
        distance: u32,
        radius: u32,
        groups: u32,
    },
    /// From now on a codebook for a cap is in use, with `columns` of all. Each group has a radius of its own, from `least` to
    /// `greatest`.
    CapMade {
        columns: u32,
        of: u32,
        cap: u32,
        least: u32,
        greatest: u32,
        groups: u32,
    },
    /// What explains the nodes of a window that closes.
    Diagnosis {
        from: Name,
        opened: u64,
        closed: u64,
        finding: Finding,
    },
}
