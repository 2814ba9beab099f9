//! A topology whose last edits can be undone.
//!
//! `History::new(alloc, network, depth)?`, then `history.edit(alloc, &edit, steps)?` and `history.undo(alloc, steps)?` in any order. The
//! network is a `Topology`, or a `Cache`, whose rows are right after each edit and each undo. Beside it the history keeps the inverse of
//! each of the last accepted edits, and no second topology.
//!
//! Contracts see the topology and the lists of edits that undo, which represent a topology and those before it (`StandFor` of
//! cb_history). Numbers of instances and nodes may be others after an undo.
#![tactic(auto)]

mod edited;
mod fault;
mod history;
mod make;
mod record;
mod undo;

pub use edited::EditedTopology;
pub use fault::UndoFault;
pub use history::History;
