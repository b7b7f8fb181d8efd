ghost use Rattle.std.specs.Prelude.{◌≡◌, ℕ, IfOk, OnErr};
ghost use Rattle.search.specs.Owned.{AsManyRows};
ghost use Rattle.search.specs.Memories.{lent_memory, SameLenders};
ghost use Rattle.job.specs.Book.{after_call, empty_book};
ghost use Rattle.job.specs.Jobs.{site_below, closed_by, way_count, state_of, state_over};
ghost use Rattle.job.specs.Replay.{book_after, calls_of, CallOutcome, CallsOutcome, ReplayOutcome, OwnedReplay, IsUntouched};

use crate::job::Job;
use crate::list::{Answer, Call, Entry};
use planner::plan::{Planned, plan_slices};
use search::cell::CellRow;
use search::memory::Memory;
use search::owned::OwnedRows;
use std::alloc::{AllocError, Global};
use subject::queue::PriorityQueue;
use subject::refusal::Refusal;
use subject::run::{Request, Step};
use subject::site::Site;

// Tries one call on a job.
fn attempt<S: Site, Q: PriorityQueue<Charge = S::Charge>>(
    job: &mut Job<S>,
    call: Call,
    cells: &mut [CellRow<S::Charge>],
    queue: &mut Q,
    run: &mut [Step],
) -> Answer<S::Charge>
    ensures below { site_below job.new ≡ site_below job.old }
    ensures book { (n : ℕ) → closed_by job.new n ≡ after_call (way_count S.Site job.old) (closed_by job.old) call n }
    ensures outcome { CallOutcome (state_of S.Site S.Charge.Charge job.old) Q.PriorityQueue
        (record { cells = cells.old; queue = queue.old; run = run.old })
        (record { cells = cells.new; queue = queue.new; run = run.new }) call result }
    ensures lenders { Q.PriorityQueue.lenders queue.new ≡ Q.PriorityQueue.lenders queue.old }
{
    match call {
        Call::Close(way) => Answer::from(job.close(way)),
        Call::Reopen(way) => Answer::from(job.reopen(way)),
        Call::Plan(request) => Answer::from(plan_slices(&*job, request, cells, queue, run)),
    }
}

// Tries the listed calls one by one, and writes beside each what it gave.
fn try_all<S: Site, Q: PriorityQueue<Charge = S::Charge>>(
    job: &mut Job<S>,
    entries: &mut [Entry<S::Charge>],
    cells: &mut [CellRow<S::Charge>],
    queue: &mut Q,
    run: &mut [Step],
)
    ensures below { site_below job.new ≡ site_below job.old }
    ensures calls { calls_of entries.new ≡ calls_of entries.old }
    ensures book { (n : ℕ) → closed_by job.new n ≡ book_after S.Site job.old entries.old n }
    ensures listed { CallsOutcome (state_of S.Site S.Charge.Charge job.old) Q.PriorityQueue
        (record { cells = cells.old; queue = queue.old; run = run.old })
        (record { cells = cells.new; queue = queue.new; run = run.new }) entries.new }
    ensures lenders { Q.PriorityQueue.lenders queue.new ≡ Q.PriorityQueue.lenders queue.old }
{
    for entry in entries.iter_mut() {
        entry.answer = attempt(job, entry.call, cells, queue, run);
    }
}

/// Tries the listed calls on a job one by one, writes beside each what it gave, and then plans once more for
/// the request, over slices of cell rows and run rows.
///
/// It takes no memory. The plan made at the end follows the law of docs/SUBJECT.md: it is a least run over the
/// ways that are open below and not in the closing book for the list, or there is none.
pub fn replay_slices<S: Site, Q: PriorityQueue<Charge = S::Charge>>(
    job: &mut Job<S>,
    entries: &mut [Entry<S::Charge>],
    request: Request,
    cells: &mut [CellRow<S::Charge>],
    queue: &mut Q,
    run: &mut [Step],
) -> Result<Planned<S::Charge>, Refusal>
    ensures below { site_below job.new ≡ site_below job.old }
    ensures book { (n : ℕ) → closed_by job.new n ≡ book_after S.Site job.old entries.old n }
    ensures replayed { ReplayOutcome (state_of S.Site S.Charge.Charge job.old) Q.PriorityQueue request
        entries.old entries.new (record { cells = cells.old; queue = queue.old; run = run.old })
        (record { cells = cells.new; queue = queue.new; run = run.new }) result }
    ensures lenders { Q.PriorityQueue.lenders queue.new ≡ Q.PriorityQueue.lenders queue.old }
{
    try_all(job, entries, cells, queue, run);
    plan_slices(&*job, request, cells, queue, run)
}

/// Does as `replay_slices`, with what is lent.
pub fn replay_on<S: Site, Q: PriorityQueue<Charge = S::Charge>>(
    job: &mut Job<S>,
    entries: &mut [Entry<S::Charge>],
    request: Request,
    memory: &mut Memory<'_, S::Charge, Q>,
) -> Result<Planned<S::Charge>, Refusal>
    ensures below { site_below job.new ≡ site_below job.old }
    ensures book { (n : ℕ) → closed_by job.new n ≡ book_after S.Site job.old entries.old n }
    ensures replayed { ReplayOutcome (state_of S.Site S.Charge.Charge job.old) Q.PriorityQueue request
        entries.old entries.new (lent_memory memory.old) (lent_memory memory.new) result }
    ensures same { SameLenders Q.PriorityQueue memory.old memory.new }
{
    replay_slices(
        job,
        entries,
        request,
        memory.cells,
        &mut memory.queue,
        memory.run,
    )
}

/// Does as `replay_slices`, over rows that the caller owns, with a queue that is handed in, for example
/// `Heap::over(&mut queue_rows)`.
pub fn replay_on_owned<S: Site, Q: PriorityQueue<Charge = S::Charge> + Drop>(
    job: &mut Job<S>,
    entries: &mut [Entry<S::Charge>],
    request: Request,
    rows: &mut OwnedRows<S::Charge>,
    mut queue: Q,
) -> Result<Planned<S::Charge>, Refusal>
    ensures below { site_below job.new ≡ site_below job.old }
    ensures book { (n : ℕ) → closed_by job.new n ≡ book_after S.Site job.old entries.old n }
    ensures replayed { OwnedReplay (state_of S.Site S.Charge.Charge job.old) Q.PriorityQueue queue request
        entries.old entries.new rows.old rows.new result }
    ensures same { AsManyRows rows.old rows.new }
{
    replay_slices(
        job,
        entries,
        request,
        &mut rows.cells,
        &mut queue,
        &mut rows.run,
    )
}

/// Sets up a job over a site, and then does as `replay_on`. Only the set-up takes memory: the outer result says
/// whether it was had, the inner one what the plan gave.
pub fn replay<S: Site + Drop, Q: PriorityQueue<Charge = S::Charge>>(
    alloc: Global,
    site: S,
    entries: &mut [Entry<S::Charge>],
    request: Request,
    memory: &mut Memory<'_, S::Charge, Q>,
) -> Result<Result<Planned<S::Charge>, Refusal>, AllocError>
    ensures ok { IfOk result (λ planned.
        ReplayOutcome (state_over S.Site S.Charge.Charge site empty_book) Q.PriorityQueue request
        entries.old entries.new (lent_memory memory.old) (lent_memory memory.new) planned) }
    ensures err { OnErr result (IsUntouched entries.old entries.new (lent_memory memory.old) (lent_memory memory.new)) }
    ensures same { SameLenders Q.PriorityQueue memory.old memory.new }
{
    let mut job = Job::new(alloc, site)?;
    Ok(replay_on(&mut job, entries, request, memory))
}

/// Sets up a job over a site, and then does as `replay_on_owned`. Only the set-up takes memory; where it is not
/// had, nothing was tried, and entries and rows are as they were.
pub fn replay_owned<S: Site + Drop, Q: PriorityQueue<Charge = S::Charge> + Drop>(
    alloc: Global,
    site: S,
    entries: &mut [Entry<S::Charge>],
    request: Request,
    rows: &mut OwnedRows<S::Charge>,
    queue: Q,
) -> Result<Result<Planned<S::Charge>, Refusal>, AllocError>
    ensures ok { IfOk result (λ planned.
        OwnedReplay (state_over S.Site S.Charge.Charge site empty_book) Q.PriorityQueue queue request
        entries.old entries.new rows.old rows.new planned) }
    ensures err { OnErr result ((entries.new ≡ entries.old) × (rows.new ≡ rows.old)) }
    ensures same { AsManyRows rows.old rows.new }
{
    let mut job = Job::new(alloc, site)?;
    Ok(replay_on_owned(&mut job, entries, request, rows, queue))
}
