//! The codes of problems, made one after the other.
ghost use Rattle.std.specs.Prelude.{List as Items, ◌≡◌, ◌≤◌, ℕ, length, replicate, false, None, IfOk, OnOk};
ghost use Rattle.cb_lanes.specs.Words.{word_limit};
ghost use Rattle.cb_cache.specs.Rows.{IsNodeRow};
ghost use Rattle.cb_matrix.specs.Coded.{IsCodeOfRow, IsCoder};

use crate::codes::pass_code;
use crate::listed::list_columns;
use cb_bits::Row;
use cb_cache::Rows;
use cb_compact::CompactRow;
use cb_nodes::NodeId;
use cb_topo::ColumnIndex;
use std::alloc::{AllocError, Global};

/// What is kept from one code to the next.
#[derive(Drop)]
pub(crate) struct Coder {
    /// As many words as a row has, without a one.
    pub none: Vec<u64>,
    /// The buffer for the columns of a code that has few of them.
    pub list: Vec<u32>,
    /// The problem whose code was made last of those with many columns, and that code. Without such a problem it has no column.
    pub last: Option<NodeId>,
    pub code: Row,
}

impl Coder {
    /// For codes over these columns, of rows with `width` words. No code is made yet.
    pub fn new(alloc: Global, columns: &ColumnIndex, width: usize) -> Result<Coder, AllocError>
        ensures none { IfOk result (λ coder. coder.none.items ≡ replicate width 0) }
        ensures last { IfOk result (λ coder. coder.last ≡ None) }
        ensures code { IfOk result (λ coder. coder.code ≡ replicate (length columns.now) false) }
    {
        Ok(Coder {
            none: vec![in alloc; 0; width]?,
            list: Vec::new(alloc),
            last: None,
            code: Row::zeroed(alloc, columns.len())?,
        })
    }

    /// The code of a problem: for each column, whether the problem's row has it. Where these are few, they are listed.
    pub fn code_of(
        &mut self,
        alloc: Global,
        rows: &Rows,
        columns: &ColumnIndex,
        problem: NodeId,
    ) -> Result<CompactRow, AllocError>
        requires few { rows.now.pool.width ≤ word_limit }
        requires row { (words : Items ℕ) × IsNodeRow rows.now problem words }
        requires coder { IsCoder rows.now columns.now self.old }
        ensures code { IfOk result (IsCodeOfRow rows.now columns.now problem) }
        ensures coder { OnOk result (IsCoder rows.now columns.now self.new) }
    {
        if list_columns(columns, rows.row(problem), &self.none, &mut self.list)? {
            let positions = Vec::from_slice(alloc, &self.list)?;
            return Ok(CompactRow::of_positions(columns.len(), positions));
        }
        self.go_on(rows, columns, problem);
        CompactRow::of(alloc, &self.code)
    }

    // Goes on to the code of a problem from the last one. Rows that are nearly alike, as those of a chain or of a mesh, cost little.
    fn go_on(&mut self, rows: &Rows, columns: &ColumnIndex, problem: NodeId)
        requires few { rows.now.pool.width ≤ word_limit }
        requires row { (words : Items ℕ) × IsNodeRow rows.now problem words }
        requires coder { IsCoder rows.now columns.now self.old }
        ensures coder { IsCoder rows.now columns.now self.new }
        ensures code { IsCodeOfRow rows.now columns.now problem self.new.code }
    {
        let row = rows.row(problem);
        match self.last {
            Some(last) => pass_code(columns, rows.row(last), row, &mut self.code),
            None => pass_code(columns, &self.none, row, &mut self.code),
        }
        self.last = Some(problem);
    }
}
