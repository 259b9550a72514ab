//! Lists of plan rows.

ghost use Rattle.std.specs.Prelude.{◌≡◌, ◌+◌, ◌<◌, [], ◌∷◌, ◌++◌, length, OnOk, OnErr};
ghost use Rattle.std.specs.Prelude.{slice_index_or, MatchOption, IfOk};

use crate::plan_row::PlanRow;
use crate::steps::Steps;
use sql_values::NoMemory;
use std::alloc::Global;
use std::collections::VecDeque;
use std::marker::Model;
use std::sync::ledger::Ledger;

/// A list of plan rows. Its rows are read by `at` and `take_first` alone, and each call of these is
/// a step.
#[derive(Drop)]
pub struct RowList {
    rows: VecDeque<PlanRow>,
}

impl Model for RowList {
    ghost use Rattle.std.specs.Prelude.{List};
    ghost use Rattle.row_types.specs.Cells.{PlanRow as Plain};

    ghost Value = { List Plain };

    ghost view = { λ l. l.rows.items };
}

impl RowList {
    /// A list without rows. It takes no memory.
    pub fn new(alloc: Global) -> RowList
        ensures { result ≡ [] }
    {
        RowList {
            rows: VecDeque::new(alloc),
        }
    }

    /// A list without rows, with memory for so many.
    pub fn with_capacity(alloc: Global, rows: usize) -> Result<RowList, NoMemory>
        ensures { IfOk result (λ l. l ≡ []) }
    {
        Ok(RowList {
            rows: VecDeque::with_capacity(alloc, rows)?,
        })
    }

    /// A row more, at the end. Without memory the list stays.
    pub fn push(&mut self, row: PlanRow) -> Result<(), NoMemory>
        ensures ok { OnOk result (self.new ≡ self.old ++ row ∷ []) }
        ensures err { OnErr result (self.new ≡ self.old) }
    {
        self.rows.push_back(row)?;
        Ok(())
    }

    /// The number of rows.
    pub fn len(&self) -> usize
        ensures { result ≡ length self.now }
    {
        self.rows.len()
    }

    /// The row at a place. It is a step.
    pub fn at<L: Ledger>(&self, place: usize, steps: &mut Steps<L>) -> &PlanRow
        requires { place < length self.now }
        ensures row { result.now ≡ slice_index_or self.now place result.now }
        ensures step { steps.new ≡ steps.old + 1 }
    {
        steps.tick();
        &self.rows[place]
    }

    /// Takes the first row out; `None` exactly where there is none. It is a step.
    pub fn take_first<L: Ledger>(&mut self, steps: &mut Steps<L>) -> Option<PlanRow>
        ensures row { MatchOption result ((self.old ≡ []) × (self.new ≡ []))
            (λ row. self.old ≡ row ∷ self.new) }
        ensures step { steps.new ≡ steps.old + 1 }
    {
        steps.tick();
        self.rows.pop_front()
    }
}
