ghost use Rattle.std.specs.Prelude.{◌≡◌, ◌<◌, ◌≤◌, length, IfOk, IfErr};
ghost use Rattle.subject.specs.declared.refusal.Refusal.TheVariants.{NoRun};
ghost use Rattle.subject.specs.Problems.{problem_of};
ghost use Rattle.subject.specs.Runs.{NoLawfulRun};
ghost use Rattle.search.specs.Rows.{RoomSuffices};
ghost use Rattle.search.specs.Owned.{AsManyRows};
ghost use Rattle.search.specs.Memories.{lent_memory, SameLenders};
ghost use Rattle.planner.specs.Outcome.{OwnedOutcome, PlanOutcome, RunHandedOut};
ghost use Rattle.planner.specs.Workspaces.{problem, SameWorkspace};

use crate::query::Query;
use crate::workspace::Workspace;
use search::cell::CellRow;
use search::check::{RowCounts, rows_needed};
use search::memory::Memory;
use search::owned::OwnedRows;
use subject::queue::PriorityQueue;
use subject::refusal::Refusal;
use subject::run::{Request, Step};
use subject::site::Site;

/// What a plan answers: how many steps the run has, and its total.
#[derive(Clone, Copy, Debug)]
pub struct Planned<C> {
    pub steps: usize,
    pub total: C,
}

impl<S: Site> Query<'_, S> {
    // Searches for a least run where there is room for every cell, and writes it.
    fn search<Q: PriorityQueue<Charge = S::Charge>>(
        &self,
        work: &mut Workspace<'_, '_, S::Charge, Q>,
        run: &mut [Step],
    ) -> Result<Planned<S::Charge>, Refusal>
        requires room { RoomSuffices (problem self.now) (length work.old.cells.now) (Q.PriorityQueue.rows work.old.queue.now) }
        requires start { self.now.request.start < (problem self.now).site.places }
        requires steps { length work.old.cells.now ≤ length run.old }
        ensures same { SameWorkspace Q.PriorityQueue work.old work.new }
        ensures ok { IfOk result (λ p. RunHandedOut (problem self.now) run.old run.new p) }
        ensures err { IfErr result (λ e. (e ≡ NoRun) × NoLawfulRun (problem self.now) × (run.new ≡ run.old)) }
    {
        self.start(work);
        let last = self.seek(work).ok_or(Refusal::NoRun)?;
        Ok(self.trace(&*work, last, run))
    }
}

/// Plans a least run for the request, over slices of cell rows and run rows, into the first run rows.
///
/// The cell rows and the queue are working memory: whatever they hold is overwritten. Refused are, in this order, a start or
/// an end that is no place, a bound of 0 or over 1,000, fewer than places × (bound + 1) rows of a sort; then nothing
/// changes. A request for which no run is lawful is refused last, and the run rows stay as they were.
pub fn plan_slices<S: Site, Q: PriorityQueue<Charge = S::Charge>>(
    site: &S,
    request: Request,
    cells: &mut [CellRow<S::Charge>],
    queue: &mut Q,
    run: &mut [Step],
) -> Result<Planned<S::Charge>, Refusal>
    ensures outcome { PlanOutcome (problem_of S.Site S.Charge.Charge site.now request) Q.PriorityQueue
        (record { cells = cells.old; queue = queue.old; run = run.old })
        (record { cells = cells.new; queue = queue.new; run = run.new }) result }
    ensures lenders { Q.PriorityQueue.lenders queue.new ≡ Q.PriorityQueue.lenders queue.old }
{
    let counts = RowCounts {
        cells: cells.len(),
        queue: queue.rows(),
        run: run.len(),
    };
    let rows = rows_needed(site, request, counts)?;
    let query = Query { site, request };
    let cells = &mut cells[..rows];
    let mut work = Workspace { cells, queue };
    query.search(&mut work, run)
}

/// Plans a least run for the request with what is lent, into the first run rows; refused as `plan_slices` says.
pub fn plan<S: Site, Q: PriorityQueue<Charge = S::Charge>>(
    site: &S,
    request: Request,
    memory: &mut Memory<'_, S::Charge, Q>,
) -> Result<Planned<S::Charge>, Refusal>
    ensures outcome { PlanOutcome (problem_of S.Site S.Charge.Charge site.now request) Q.PriorityQueue
        (lent_memory memory.old) (lent_memory memory.new) result }
    ensures same { SameLenders Q.PriorityQueue memory.old memory.new }
{
    plan_slices(site, request, memory.cells, &mut memory.queue, memory.run)
}

/// Plans a least run for the request over rows that the caller owns, with a queue that is handed in, for example
/// `Heap::over(&mut queue_rows)`; refused as `plan_slices` says.
pub fn plan_owned<S: Site, Q: PriorityQueue<Charge = S::Charge> + Drop>(
    site: &S,
    request: Request,
    rows: &mut OwnedRows<S::Charge>,
    mut queue: Q,
) -> Result<Planned<S::Charge>, Refusal>
    ensures outcome { OwnedOutcome (problem_of S.Site S.Charge.Charge site.now request) Q.PriorityQueue
        queue rows.old rows.new result }
    ensures same { AsManyRows rows.old rows.new }
{
    plan_slices(site, request, &mut rows.cells, &mut queue, &mut rows.run)
}
