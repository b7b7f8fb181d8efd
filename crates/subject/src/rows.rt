ghost use Rattle.std.specs.Prelude.{◌≡◌, replicate, IfOk};

use std::alloc::{AllocError, Global};

/// So many rows that are all the same, for a program to lend. Fails only for want of memory.
///
/// They are pushed one by one, since the clones that `vec!` makes are not known to be the row.
pub fn rows_of<R: Copy>(alloc: Global, row: R, count: usize) -> Result<Vec<R>, AllocError>
    ensures { IfOk result (λ rows. rows.items ≡ replicate count row) }
{
    let mut rows = Vec::with_capacity(alloc, count)?;
    for _ in 0..count {
        rows.push_reserved(row);
    }
    Ok(rows)
}
