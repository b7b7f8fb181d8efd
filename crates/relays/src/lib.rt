// Planning for money over a sealed survey, also where some of its ways are closed by a job: the minimum cost
// path problem with relays. docs/RELAYS.md states the problem.
#![tactic(auto)]

ghost use Rattle.std.specs.Prelude.{◌≡◌, ℕ, IfOk, OnErr};
ghost use Rattle.survey.specs.Sealing.{sealed_contents};
ghost use Rattle.survey.specs.SurveySite.{money_problem};
ghost use Rattle.search.specs.Memories.{counts_of, lent_memory, SameLenders};
ghost use Rattle.search.specs.Owned.{AsManyRows, owned_memory};
ghost use Rattle.planner.specs.Outcome.{OwnedOutcome, PlanOutcome};
ghost use Rattle.job.specs.Jobs.{closed_by, site_below};
ghost use Rattle.job.specs.Replay.{IsUntouched, OwnedReplay, ReplayOutcome};
ghost use Rattle.relays.specs.Problem.{all_open};
ghost use Rattle.relays.specs.Answers.{IsAnswer};
ghost use Rattle.relays.specs.MoneyJobs.{job_problem, job_state, new_job_problem, new_job_state};

use job::job::Job;
use job::list::Entry;
use job::replay::{replay, replay_on, replay_on_owned, replay_owned};
use planner::plan::{Planned, plan, plan_owned};
use search::memory::Memory;
use search::owned::OwnedRows;
use std::alloc::{AllocError, Global};
use subject::money::Money;
use subject::queue::PriorityQueue;
use subject::refusal::Refusal;
use subject::run::Request;
use survey::sealed::Sealed;
use survey::view::MoneyView;

/// Plans a cheapest run over a sealed survey with what is lent, into the first run rows.
///
/// The run is an optimal path of the problem of docs/RELAYS.md with no way shut, and the total is what it
/// costs, to the cent. Refused are, in this order, a start or an end that is no place, a bound of 0 or over
/// 1,000, fewer than places × (bound + 1) rows of a sort; then nothing changes. Refused last is a request for
/// which no path is feasible; then the run rows stay as they were.
pub fn plan_for_money<Q: PriorityQueue<Charge = Money>>(
    survey: &Sealed,
    request: Request,
    memory: &mut Memory<'_, Money, Q>,
) -> Result<Planned<Money>, Refusal>
    ensures plan { PlanOutcome (money_problem (sealed_contents survey.now) request) Q.PriorityQueue
        (lent_memory memory.old) (lent_memory memory.new) result }
    ensures answer { IsAnswer (all_open (sealed_contents survey.now) request)
        (counts_of Q.PriorityQueue (lent_memory memory.old)) memory.new.run.now result }
    ensures same { SameLenders Q.PriorityQueue memory.old memory.new }
{
    plan(&MoneyView::over(survey), request, memory)
}

/// Does as `plan_for_money`, over rows that the caller owns, with a queue that is handed in, for example
/// `Heap::over(&mut queue_rows)`.
pub fn plan_owned_for_money<Q: PriorityQueue<Charge = Money> + Drop>(
    survey: &Sealed,
    request: Request,
    rows: &mut OwnedRows<Money>,
    queue: Q,
) -> Result<Planned<Money>, Refusal>
    ensures plan { OwnedOutcome (money_problem (sealed_contents survey.now) request) Q.PriorityQueue
        queue rows.old rows.new result }
    ensures answer { IsAnswer (all_open (sealed_contents survey.now) request)
        (counts_of Q.PriorityQueue (owned_memory rows.old queue)) rows.new.run.items result }
    ensures same { AsManyRows rows.old rows.new }
{
    plan_owned(&MoneyView::over(survey), request, rows, queue)
}

/// Tries the listed calls on a job over a survey one by one, writes beside each what it gave, and then plans
/// once more for the request, with what is lent. It takes no memory.
///
/// The plan made at the end answers the problem of docs/RELAYS.md in which the ways are shut that are in the
/// closing book for the list; it is refused as `plan_for_money` says.
pub fn replay_on_for_money<Q: PriorityQueue<Charge = Money>>(
    job: &mut Job<MoneyView<'_>>,
    entries: &mut [Entry<Money>],
    request: Request,
    memory: &mut Memory<'_, Money, Q>,
) -> Result<Planned<Money>, Refusal>
    ensures below { site_below job.new ≡ site_below job.old }
    ensures book { (n : ℕ) → closed_by job.new n ≡ (job_problem job.old entries.old request).is_shut n }
    ensures replayed { ReplayOutcome (job_state job.old) Q.PriorityQueue request entries.old entries.new
        (lent_memory memory.old) (lent_memory memory.new) result }
    ensures answer { IsAnswer (job_problem job.old entries.old request)
        (counts_of Q.PriorityQueue (lent_memory memory.old)) memory.new.run.now result }
    ensures same { SameLenders Q.PriorityQueue memory.old memory.new }
{
    replay_on(job, entries, request, memory)
}

/// Does as `replay_on_for_money`, over rows that the caller owns, with a queue that is handed in.
pub fn replay_on_owned_for_money<Q: PriorityQueue<Charge = Money> + Drop>(
    job: &mut Job<MoneyView<'_>>,
    entries: &mut [Entry<Money>],
    request: Request,
    rows: &mut OwnedRows<Money>,
    queue: Q,
) -> Result<Planned<Money>, Refusal>
    ensures below { site_below job.new ≡ site_below job.old }
    ensures book { (n : ℕ) → closed_by job.new n ≡ (job_problem job.old entries.old request).is_shut n }
    ensures replayed { OwnedReplay (job_state job.old) Q.PriorityQueue queue request entries.old entries.new
        rows.old rows.new result }
    ensures answer { IsAnswer (job_problem job.old entries.old request)
        (counts_of Q.PriorityQueue (owned_memory rows.old queue)) rows.new.run.items result }
    ensures same { AsManyRows rows.old rows.new }
{
    replay_on_owned(job, entries, request, rows, queue)
}

/// Sets up a job over a sealed survey, with no way closed, and then does as `replay_on_for_money`. Only the
/// set-up takes memory: the outer result says whether it was had, the inner one what the plan gave.
pub fn replay_for_money<Q: PriorityQueue<Charge = Money>>(
    alloc: Global,
    survey: &Sealed,
    entries: &mut [Entry<Money>],
    request: Request,
    memory: &mut Memory<'_, Money, Q>,
) -> Result<Result<Planned<Money>, Refusal>, AllocError>
    ensures replayed { IfOk result (λ planned.
        ReplayOutcome (new_job_state survey.now) Q.PriorityQueue request entries.old entries.new
        (lent_memory memory.old) (lent_memory memory.new) planned) }
    ensures answer { IfOk result (λ planned.
        IsAnswer (new_job_problem survey.now entries.old request)
        (counts_of Q.PriorityQueue (lent_memory memory.old)) memory.new.run.now planned) }
    ensures err { OnErr result (IsUntouched entries.old entries.new (lent_memory memory.old) (lent_memory memory.new)) }
    ensures same { SameLenders Q.PriorityQueue memory.old memory.new }
{
    replay(alloc, MoneyView::over(survey), entries, request, memory)
}

/// Does as `replay_for_money`, over rows that the caller owns, with a queue that is handed in. Where the memory
/// for a job is not had, nothing was tried, and entries and rows are as they were.
pub fn replay_owned_for_money<Q: PriorityQueue<Charge = Money> + Drop>(
    alloc: Global,
    survey: &Sealed,
    entries: &mut [Entry<Money>],
    request: Request,
    rows: &mut OwnedRows<Money>,
    queue: Q,
) -> Result<Result<Planned<Money>, Refusal>, AllocError>
    ensures replayed { IfOk result (λ planned.
        OwnedReplay (new_job_state survey.now) Q.PriorityQueue queue request entries.old entries.new
        rows.old rows.new planned) }
    ensures answer { IfOk result (λ planned.
        IsAnswer (new_job_problem survey.now entries.old request)
        (counts_of Q.PriorityQueue (owned_memory rows.old queue)) rows.new.run.items planned) }
    ensures err { OnErr result ((entries.new ≡ entries.old) × (rows.new ≡ rows.old)) }
    ensures same { AsManyRows rows.old rows.new }
{
    replay_owned(
        alloc,
        MoneyView::over(survey),
        entries,
        request,
        rows,
        queue,
    )
}
