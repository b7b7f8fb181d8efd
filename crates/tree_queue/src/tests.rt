// Both kinds of queue as programs use them, also handed over with other things.
ghost use Rattle.std.specs.Prelude.{◌≡◌};

use crate::heap::Heap;
use crate::ordered_row::OrderedRow;
use crate::row::{QueueRow, blank_rows};
use std::test::Fail;
use subject::money::Money;
use subject::queue::PriorityQueue;

// A queue that is handed over with other things.
#[derive(Drop)]
struct Lent<Q> {
    queue: Q,
}

fn lend<Q>(queue: Q) -> Lent<Q>
    ensures { result.queue ≡ queue }
{
    Lent { queue }
}

// Cells 2, 0 and 2 again are put, and two are taken: what the queue then says to two more calls.
fn answers<Q: PriorityQueue<Charge = Money> + Drop>(
    mut lent: Lent<Q>,
) -> (Option<usize>, Option<usize>, bool)
    requires { Q.PriorityQueue.is_ordered lent.queue }
{
    let queue = &mut lent.queue;
    let _ = queue.put(2, Money::of_cents(5));
    let _ = queue.put(0, Money::of_cents(10));
    let _ = queue.put(2, Money::of_cents(30));
    let first = queue.take().map(|(cell, _)| cell);
    let second = queue.take().map(|(cell, _)| cell);
    (first, second, queue.take().is_none())
}

#[test]
fn a_heap_gives_the_lowest_first(rt: HostRuntime) -> Result<(), Fail> {
    let mut rows: Vec<QueueRow<Money>> = blank_rows(rt.alloc(), 3)?;
    let (first, second, none) = answers(lend(Heap::over(&mut rows)));
    assert_eq!(rt; first, Some(0));
    assert_eq!(rt; second, Some(2));
    assert!(rt; none);
    Ok(())
}

#[test]
fn an_ordered_row_gives_the_lowest_first(rt: HostRuntime) -> Result<(), Fail> {
    let mut rows: Vec<QueueRow<Money>> = blank_rows(rt.alloc(), 3)?;
    let (first, second, none) = answers(lend(OrderedRow::over(&mut rows)));
    assert_eq!(rt; first, Some(0));
    assert_eq!(rt; second, Some(2));
    assert!(rt; none);
    Ok(())
}
