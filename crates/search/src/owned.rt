//! Working memory in vectors, for programs that plan.
ghost use Rattle.std.specs.Prelude.{◌≡◌, IfOk};
ghost use Rattle.search.specs.Owned.{Holds, blank_filling};

use crate::cell::CellRow;
use crate::memory::Memory;
use std::alloc::{AllocError, Global};
use subject::rows::rows_of;
use subject::run::Step;

/// What each row holds before a plan uses it.
#[derive(Clone, Copy)]
pub struct Filling<C> {
    pub cell: CellRow<C>,
    pub step: Step,
}

impl<C> Filling<C> {
    /// Rows that tell nothing.
    pub fn blank() -> Filling<C>
        ensures { result ≡ blank_filling }
    {
        Filling {
            cell: CellRow::blank(),
            step: Step {
                way: 0,
                mark: false,
            },
        }
    }
}

/// Cell rows and run rows, which are lent to a plan together with a queue.
#[derive(Drop)]
pub struct OwnedRows<C> {
    pub cells: Vec<CellRow<C>>,
    pub run: Vec<Step>,
}

impl<C: Copy> OwnedRows<C> {
    /// So many rows of each sort, which hold the filling.
    pub fn filled(
        alloc: Global,
        count: usize,
        filling: Filling<C>,
    ) -> Result<OwnedRows<C>, AllocError>
        ensures { IfOk result (λ r. Holds count filling r) }
    {
        let cells = rows_of(alloc, filling.cell, count)?;
        let run = rows_of(alloc, filling.step, count)?;
        Ok(OwnedRows { cells, run })
    }

    /// So many rows of each sort, which tell nothing.
    pub fn blank(alloc: Global, count: usize) -> Result<OwnedRows<C>, AllocError>
        ensures { IfOk result (λ r. Holds count blank_filling r) }
    {
        OwnedRows::filled(alloc, count, Filling::blank())
    }

    /// All rows, lent to a plan with a queue.
    pub fn lend<Q>(&mut self, queue: Q) -> Memory<'_, C, Q>
        ensures cells { result.cells.now ≡ self.old.cells.items }
        ensures queue { result.queue ≡ queue }
        ensures run { result.run.now ≡ self.old.run.items }
    {
        Memory {
            cells: &mut self.cells,
            queue,
            run: &mut self.run,
        }
    }
}

#[cfg(test)]
mod tests {
    use super::*;
    use std::test::Fail;
    use subject::money::Money;

    #[test]
    fn there_is_memory(rt: HostRuntime) -> Result<(), Fail> {
        let rows: OwnedRows<Money> = OwnedRows::blank(rt.alloc(), 144)?;
        assert_eq!(rt; rows.cells.len(), 144);
        assert_eq!(rt; rows.run.len(), 144);
        Ok(())
    }
}
