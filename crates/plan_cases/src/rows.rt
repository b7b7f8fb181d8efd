// Rows of each sort, which hold something before a plan.
ghost use Rattle.std.specs.Prelude.{◌≡◌, IfOk};
ghost use Rattle.plan_cases.specs.Used.{as_many, used_cell, used_queue_row, used_step, AreUsed};

use search::cell::{Cell, CellRow, Link, Reached};
use search::check::RowCounts;
use std::alloc::{AllocError, Global};
use subject::charge::Charge;
use subject::rows::rows_of;
use subject::run::Step;
use tree_queue::row::QueueRow;

/// Cell rows, queue rows and run rows.
#[derive(Drop)]
pub struct Rows<C> {
    pub cells: Vec<CellRow<C>>,
    pub queue: Vec<QueueRow<C>>,
    pub run: Vec<Step>,
}

/// As many rows of each sort.
pub fn each(count: usize) -> RowCounts
    ensures { result ≡ as_many count }
{
    RowCounts {
        cells: count,
        queue: count,
        run: count,
    }
}

// A cell row as a plan might have left it.
fn used_cell<C: Charge>() -> CellRow<C>
    ensures { result ≡ used_cell C.Charge.nothing }
{
    CellRow {
        cell: Cell::Settled(Reached {
            charge: C::nothing(),
            link: Some(Link {
                from: 3,
                step: Step { way: 7, mark: true },
            }),
            steps: 5,
        }),
        hint: Some(9),
        head: Some(1),
        next: Some(0),
    }
}

// A queue row as a plan might have left it.
fn used_queue_row<C: Charge>() -> QueueRow<C>
    ensures { result ≡ used_queue_row C.Charge.nothing }
{
    QueueRow {
        charge: C::nothing(),
        cell: 7,
        position: 3,
    }
}

// A run row as a plan might have left it.
fn used_step() -> Step
    ensures { result ≡ used_step }
{
    Step { way: 9, mark: true }
}

impl<C: Charge> Rows<C> {
    /// So many rows as a plan might have left them, to show that the next one reads nothing of that. Fails only for
    /// want of memory.
    pub fn used(alloc: Global, counts: RowCounts) -> Result<Rows<C>, AllocError>
        ensures { IfOk result (λ rows. AreUsed C.Charge.nothing counts rows) }
    {
        let cells = rows_of(alloc, used_cell(), counts.cells)?;
        let queue = rows_of(alloc, used_queue_row(), counts.queue)?;
        let run = rows_of(alloc, used_step(), counts.run)?;
        Ok(Rows { cells, queue, run })
    }
}
