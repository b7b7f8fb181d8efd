// The heap for money behind a C interface, to be timed against another heap: on charges and answers of the caller.
use std::alloc::Global;
use subject::charge::Charge;
use subject::money::Money;
use subject::queue::PriorityQueue;
use tree_queue::heap::Heap;
use tree_queue::row::QueueRow;

// A row as another use might have left it.
fn used_row() -> QueueRow<Money> {
    QueueRow {
        charge: Money { cents: 0 },
        cell: 7,
        position: 3,
    }
}

// Each cell is put with its charge.
fn put_all<Q: PriorityQueue<Charge = Money>>(queue: &mut Q, charges: &[u64])
    requires { Q.PriorityQueue.is_ordered queue.old }
    ensures { Q.PriorityQueue.is_ordered queue.new }
{
    for (cell, cents) in charges.iter().enumerate() {
        let _ = queue.put(cell, Money { cents: *cents });
    }
}

// As many charges are taken as there is room for.
fn take_all<Q: PriorityQueue<Charge = Money>>(queue: &mut Q, taken: &mut [u64])
    requires { Q.PriorityQueue.is_ordered queue.old }
{
    for place in taken {
        if let Some((_, charge)) = queue.take() {
            *place = charge.amount();
        }
    }
}

// At each step that has room a lowest cell is taken, and put again with a charge that is higher by the step.
fn churn<Q: PriorityQueue<Charge = Money>>(queue: &mut Q, steps: &[u64], taken: &mut [u64])
    requires { Q.PriorityQueue.is_ordered queue.old }
{
    for (step, place) in steps.iter().zip(taken) {
        if let Some((cell, charge)) = queue.take() {
            *place = charge.amount();
            let _ = queue.put(cell, charge.join(Money { cents: *step }));
        }
    }
}

/// Puts every charge, then takes them in order, on rows that hold whatever was there before. False where there is no
/// memory for the rows, since C has no Result.
#[unsafe(no_mangle)]
pub extern "C" fn heap_fill_and_drain(alloc: Global, charges: &[u64], taken: &mut [u64]) -> bool {
    let Ok(mut rows) = vec![in alloc; used_row(); charges.len()] else {
        return false;
    };
    let mut heap = Heap::over(&mut rows);
    put_all(&mut heap, charges);
    take_all(&mut heap, taken);
    true
}

/// Puts every charge, then takes and puts again, once for each step that has room in `taken`. False where there is no
/// memory for the rows.
#[unsafe(no_mangle)]
pub extern "C" fn heap_churn(
    alloc: Global,
    charges: &[u64],
    steps: &[u64],
    taken: &mut [u64],
) -> bool {
    let Ok(mut rows) = vec![in alloc; used_row(); charges.len()] else {
        return false;
    };
    let mut heap = Heap::over(&mut rows);
    put_all(&mut heap, charges);
    churn(&mut heap, steps, taken);
    true
}
