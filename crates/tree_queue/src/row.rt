ghost use Rattle.std.specs.Prelude.{◌≡◌, replicate, IfOk};
ghost use Rattle.tree_queue.specs.Rows.{blank_row};

use std::alloc::{AllocError, Global};
use subject::charge::Charge;
use subject::rows::rows_of;

/// One row of a queue: the row with number k holds the charge of cell k, the cell at position k, and the position
/// of cell k.
#[derive(Clone, Copy, Debug)]
pub struct QueueRow<C> {
    pub charge: C,
    pub cell: usize,
    pub position: usize,
}

impl<C: Charge> QueueRow<C> {
    /// A row that says nothing: the charge nothing, cell 0 and position 0.
    pub fn blank() -> QueueRow<C>
        ensures { result ≡ blank_row C.Charge.nothing }
    {
        QueueRow {
            charge: C::nothing(),
            cell: 0,
            position: 0,
        }
    }
}

/// So many rows that say nothing, for a program to lend to a queue. Fails only for want of memory.
pub fn blank_rows<C: Charge>(alloc: Global, count: usize) -> Result<Vec<QueueRow<C>>, AllocError>
    ensures { IfOk result (λ rows. rows.items ≡ replicate count (blank_row C.Charge.nothing)) }
{
    rows_of(alloc, QueueRow::blank(), count)
}
