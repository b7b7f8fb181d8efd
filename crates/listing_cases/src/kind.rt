// The kinds of queue with which runs are planned, on rows that serve one plan after another.
ghost use Rattle.std.specs.Prelude.{◌≡◌, IfOk, IfErr, replicate};
ghost use Rattle.subject.specs.Problems.{problem_of};
ghost use Rattle.tree_queue.specs.Rows.{blank_row};
ghost use Rattle.search.specs.Owned.{Holds, blank_filling};
ghost use Rattle.planner.specs.Outcome.{RunHandedOut};
ghost use Rattle.listing_cases.specs.RowsLent.{counts_in, IsRefusal};

use planner::plan::{Planned, plan_owned};
use search::owned::OwnedRows;
use std::alloc::{AllocError, Global};
use subject::charge::Charge;
use subject::refusal::Refusal;
use subject::run::Request;
use subject::site::Site;
use tree_queue::heap::Heap;
use tree_queue::ordered_row::OrderedRow;
use tree_queue::row::{QueueRow, blank_rows};

/// A kind of queue.
#[derive(Clone, Copy)]
pub enum Kind {
    Heap,
    OrderedRow,
}

/// All kinds.
pub const KINDS: [Kind; 2] = [Kind::Heap, Kind::OrderedRow];

/// Rows for a plan and for its queue, which the next plan gets as they are.
#[derive(Drop)]
pub struct Rows<C> {
    pub plan: OwnedRows<C>,
    pub queue: Vec<QueueRow<C>>,
}

impl<C: Charge> Rows<C> {
    /// So many rows of each sort, which tell nothing. Fails only for want of memory.
    pub fn new(alloc: Global, count: usize) -> Result<Rows<C>, AllocError>
        ensures plan { IfOk result (λ rows. Holds count blank_filling rows.plan) }
        ensures queue { IfOk result (λ rows. rows.queue.items ≡ replicate count (blank_row C.Charge.nothing)) }
    {
        let plan = OwnedRows::blank(alloc, count)?;
        let queue = blank_rows(alloc, count)?;
        Ok(Rows { plan, queue })
    }
}

impl Kind {
    /// Plans with a queue of this kind over the rows, whatever they hold.
    pub fn plan<S: Site>(
        self,
        site: &S,
        request: Request,
        rows: &mut Rows<S::Charge>,
    ) -> Result<Planned<S::Charge>, Refusal>
        ensures ok { IfOk result (λ p.
            RunHandedOut (problem_of S.Site S.Charge.Charge site.now request)
            rows.old.plan.run.items rows.new.plan.run.items p) }
        ensures err { IfErr result (λ e.
            IsRefusal (problem_of S.Site S.Charge.Charge site.now request) (counts_in rows.old) e) }
    {
        let Rows { plan, queue } = rows;
        match self {
            Kind::Heap => plan_owned(site, request, plan, Heap::over(queue)),
            Kind::OrderedRow => plan_owned(site, request, plan, OrderedRow::over(queue)),
        }
    }
}
