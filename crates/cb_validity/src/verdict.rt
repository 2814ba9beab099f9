//! The result of checking a certificate.

use cb_model::{GroupName, NodeName};

/// What an accepted certificate shows.
#[derive(Drop)]
pub enum Accepted {
    /// Over the columns any two groups are at least the distance apart, so that as many lost or spurious symptoms as the
    /// radius tells lead to no wrong group.
    Book {
        distance: u32,
        radius: u32,
        groups: u32,
        columns: u32,
    },
    /// Over the columns any two groups are as far apart as over all columns, or at least as the cap, so that as many lost or
    /// spurious symptoms as a group's radius tells lead from it to no wrong group. The radii are from the least to the greatest.
    Capped {
        cap: u32,
        least: u32,
        greatest: u32,
        groups: u32,
        columns: u32,
    },
    /// Over all columns the two groups are only the distance apart, which is less than is wanted.
    Thin {
        wanted: u32,
        first: GroupName,
        second: GroupName,
        distance: u32,
    },
}

/// The first check that fails. Positions of nodes, columns and spans count from 1, and so do entries, over all spans.
#[derive(Debug, Drop)]
pub enum Rejected {
    /// No node of the topology has this name, or it doesn't stand above the one before.
    BadNode {
        place: u32,
    },
    /// The number is that of no column, or the column doesn't stand above the one before.
    BadColumn {
        place: u32,
    },
    /// A problem is without a span.
    NoSpan {
        problem: NodeName,
    },
    /// A span is without a problem.
    ExtraSpan {
        place: u32,
    },
    /// The span doesn't begin with the root that is asked for.
    BadRoot {
        entry: u32,
    },
    /// The parent is no position of an earlier entry of the span.
    BadParent {
        entry: u32,
    },
    /// No edge leads from the parent's node to this one.
    NoEdge {
        entry: u32,
    },
    /// The node stands earlier in the span.
    Repeated {
        entry: u32,
    },
    /// The node has a successor that the span doesn't list.
    NotClosed {
        entry: u32,
        successor: NodeName,
    },
    /// Over the columns these two groups are only this distance apart, and more is claimed.
    TooClose {
        first: GroupName,
        second: GroupName,
        distance: u32,
    },
    /// Over all columns the two groups are this far apart, which isn't what is claimed.
    NotThin {
        distance: u32,
    },
    /// At this position, which counts from 1, there is a radius without a group, a group without a radius, or a radius that isn't
    /// the group's.
    BadRadius {
        place: u32,
    },
    /// There is not memory enough for the check.
    NoMemory,
}
