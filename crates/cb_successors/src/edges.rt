//! What a search asks of a graph.
ghost use Rattle.std.specs.Prelude.{◌≡◌, ◌<◌, ◌+◌, ◌↔◌, ◌⊎◌, ℕ, length, OnOk};
ghost use Rattle.std.specs.List.{Contains};
ghost use Rattle.cb_successors.specs.Rows.{Has};

use cb_bits::Row;
use cb_steps::Steps;
use std::alloc::AllocError;
use std::sync::ledger::Ledger;

/// A graph over the numbers below a count.
pub trait Edges {
    // an edge leads from the first node to the second
    ghost edge: { Self → ℕ → ℕ → Type 0 };

    // how many nodes there are
    ghost count: { Self → ℕ };

    /// Adds the successors of a node to a row, and counts one step. The graph may use hidden buffers of its own for it, but
    /// its value, as contracts see it, stays as it is.
    fn add_successors<L: Ledger>(&mut self, node: usize, row: &mut Row, steps: &mut Steps<L>)
        requires node { node < count self.old }
        requires row { length row.old ≡ count self.old }
        ensures same { self.new ≡ self.old }
        ensures length { length row.new ≡ length row.old }
        ensures row { (k : ℕ) → Has row.new k ↔ (Has row.old k ⊎ edge self.old node k) }
        ensures step { steps.new ≡ steps.old + 1 };

    /// Makes the list, whatever it had, exactly that of the successors of a node, in any order, some perhaps more than once,
    /// and counts one step: whoever asks for many nodes then goes over no row of all nodes. The graph's value stays as it is.
    fn list_successors<L: Ledger>(
        &mut self,
        node: usize,
        list: &mut Vec<usize>,
        steps: &mut Steps<L>,
    ) -> Result<(), AllocError>
        requires node { node < count self.old }
        ensures same { self.new ≡ self.old }
        ensures list { OnOk result ((k : ℕ) → Contains list.new.items k ↔ edge self.old node k) }
        ensures step { steps.new ≡ steps.old + 1 };
}
