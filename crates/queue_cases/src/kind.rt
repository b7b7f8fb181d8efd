// The kinds of queue that are compared.
ghost use Rattle.std.specs.Prelude.{◌≡◌, length, map, replicate, vec_len, IfOk};
ghost use Rattle.std.specs.List.{All};
ghost use Rattle.subject.specs.Queues.{NoneWaits};
ghost use Rattle.queue_cases.specs.Answers.{AreNewAnswers};
ghost use Rattle.queue_cases.specs.Kinds.{kind_of, waits_in, rows_in, lenders_of, IsInItsOrder};

use crate::answer::{Answer, ask_all};
use crate::call::Line;
use std::alloc::{AllocError, Global};
use subject::money::Money;
use subject::queue::PriorityQueue;
use subject::refusal::Refusal;
use tree_queue::heap::Heap;
use tree_queue::ordered_row::OrderedRow;
use tree_queue::row::QueueRow;

/// A kind of queue.
#[derive(Clone, Copy)]
pub enum Kind {
    Heap,
    OrderedRow,
}

/// All kinds. The answers of the first are those that the others are compared with.
pub const KINDS: [Kind; 2] = [Kind::Heap, Kind::OrderedRow];

/// What print calls a queue of each kind together.
pub const ALL_QUEUES: &str = "both queues";

/// A queue of one of the kinds, over lent rows.
#[derive(Drop)]
pub enum AnyQueue<'a> {
    Heap(Heap<'a, Money>),
    OrderedRow(OrderedRow<'a, Money>),
}

impl PriorityQueue for AnyQueue<'_> {
    type Charge = Money;

    ghost waits = { waits_in };

    ghost is_ordered = { IsInItsOrder };

    ghost rows = { rows_in };

    ghost lenders = { lenders_of };

    fn rows(&self) -> usize {
        match self {
            AnyQueue::Heap(queue) => queue.rows(),
            AnyQueue::OrderedRow(queue) => queue.rows(),
        }
    }

    fn clear(&mut self) {
        match self {
            AnyQueue::Heap(queue) => queue.clear(),
            AnyQueue::OrderedRow(queue) => queue.clear(),
        }
    }

    fn put(&mut self, cell: usize, charge: Money) -> Result<(), Refusal> {
        match self {
            AnyQueue::Heap(queue) => queue.put(cell, charge),
            AnyQueue::OrderedRow(queue) => queue.put(cell, charge),
        }
    }

    fn take(&mut self) -> Option<(usize, Money)> {
        match self {
            AnyQueue::Heap(queue) => queue.take(),
            AnyQueue::OrderedRow(queue) => queue.take(),
        }
    }
}

impl Kind {
    /// A queue of this kind over the rows, in which no cell waits, whatever the rows held.
    pub fn over<'a>(self, rows: &'a mut [QueueRow<Money>]) -> AnyQueue<'a>
        ensures kind { kind_of result ≡ self }
        ensures ordered { IsInItsOrder result }
        ensures rows { rows_in result ≡ length rows.old }
        ensures empty { NoneWaits (waits_in result) }
    {
        match self {
            Kind::Heap => AnyQueue::Heap(Heap::over(rows)),
            Kind::OrderedRow => AnyQueue::OrderedRow(OrderedRow::over(rows)),
        }
    }

    /// What a queue of this kind answers to the lines, over rows that hold whatever was there before.
    pub fn answers(
        self,
        alloc: Global,
        row_count: usize,
        lines: &[Line],
    ) -> Result<Vec<Option<Answer>>, AllocError>
        ensures { IfOk result (λ v. AreNewAnswers row_count lines.now v.items) }
    {
        let mut rows = used_rows(alloc, row_count)?;
        ask_all(alloc, self.over(&mut rows), lines)
    }
}

// So many rows that hold whatever was there before.
fn used_rows(alloc: Global, row_count: usize) -> Result<Vec<QueueRow<Money>>, AllocError>
    ensures { IfOk result (λ rows. vec_len rows ≡ row_count) }
{
    let used = QueueRow {
        charge: Money { cents: 0 },
        cell: 7,
        position: 3,
    };
    vec![in alloc; used; row_count]
}

/// So many rows for a queue of each kind, that hold whatever was there before.
pub fn rows_of_kinds(
    alloc: Global,
    row_count: usize,
) -> Result<Vec<Vec<QueueRow<Money>>>, AllocError>
    ensures { IfOk result (λ v. map vec_len v.items ≡ replicate (length KINDS) row_count) }
{
    let mut rows_of_kinds = Vec::new(alloc);
    for _kind in KINDS {
        rows_of_kinds.push(used_rows(alloc, row_count)?)?;
    }
    Ok(rows_of_kinds)
}

/// A queue of each kind, over the rows at its place in the list of kinds. No cell waits, whatever the rows held.
pub fn queues_over<'a>(
    alloc: Global,
    rows_of_kinds: &'a mut [Vec<QueueRow<Money>>],
) -> Result<Vec<AnyQueue<'a>>, AllocError>
    requires { length rows_of_kinds.old ≡ length KINDS }
    ensures kinds { IfOk result (λ v. map kind_of v.items ≡ KINDS) }
    ensures ordered { IfOk result (λ v. All IsInItsOrder v.items) }
    ensures rows { IfOk result (λ v. map rows_in v.items ≡ map vec_len rows_of_kinds.old) }
    ensures empty { IfOk result (λ v. All (λ q. NoneWaits (waits_in q)) v.items) }
{
    let mut queues = Vec::new(alloc);
    for (i, rows) in rows_of_kinds.iter_mut().enumerate() {
        queues.push(KINDS[i].over(rows))?;
    }
    Ok(queues)
}
