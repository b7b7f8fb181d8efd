// The kinds of queue with which cases are planned.
ghost use Rattle.std.specs.Prelude.{◌≡◌, length};
ghost use Rattle.subject.specs.Problems.{problem_of};
ghost use Rattle.plan_cases.specs.Plans.{request_only, Answers};
ghost use Rattle.plan_cases.specs.Used.{counts_in};

use crate::rows::Rows;
use planner::plan::{Planned, plan_slices};
use search::cell::CellRow;
use std::fmt;
use subject::queue::PriorityQueue;
use subject::refusal::Refusal;
use subject::run::{Request, Step};
use subject::site::Site;
use tree_queue::heap::Heap;
use tree_queue::ordered_row::OrderedRow;

/// A kind of queue.
#[derive(Clone, Copy)]
pub enum Kind {
    Heap,
    OrderedRow,
}

/// All kinds, in the order in which they are printed.
pub const KINDS: [Kind; 2] = [Kind::Heap, Kind::OrderedRow];

/// What print calls a queue of each kind together.
pub const ALL_QUEUES: &str = "both queues";

impl fmt::Display for Kind {
    fn fmt<W: fmt::Write>(&self, f: &mut fmt::Formatter<W>) -> fmt::Result {
        match self {
            Kind::Heap => write!(f, "heap"),
            Kind::OrderedRow => write!(f, "ordered row"),
        }
    }
}

/// What is planned for: a request, and before it another one with the same queue, or none.
#[derive(Clone, Copy)]
pub struct Asked {
    pub before: Option<Request>,
    pub request: Request,
}

impl Asked {
    /// A request with none before it.
    pub fn only(request: Request) -> Asked
        ensures { result ≡ request_only request }
    {
        Asked {
            before: None,
            request,
        }
    }
}

// Plans with a queue over rows that hold whatever was there before. A request before is planned for first, and
// leaves the queue and the rows to the other.
fn plan_with<S: Site, Q: PriorityQueue<Charge = S::Charge> + Drop>(
    site: &S,
    asked: Asked,
    cells: &mut [CellRow<S::Charge>],
    mut queue: Q,
    run: &mut [Step],
) -> Result<Planned<S::Charge>, Refusal>
    ensures { Answers (problem_of S.Site S.Charge.Charge site.now asked.request)
        (record { cells = length cells.old; queue = Q.PriorityQueue.rows queue; run = length run.old }) run.new result }
{
    if let Some(before) = asked.before {
        let _ = plan_slices(site, before, cells, &mut queue, run);
    }
    plan_slices(site, asked.request, cells, &mut queue, run)
}

impl Kind {
    /// Plans with a queue of this kind over the rows, whatever they hold: first for the request before, if there is
    /// one, and then for the other, with the queue and the rows as that plan left them.
    pub fn plan<S: Site>(
        self,
        site: &S,
        asked: Asked,
        rows: &mut Rows<S::Charge>,
    ) -> Result<Planned<S::Charge>, Refusal>
        ensures { Answers (problem_of S.Site S.Charge.Charge site.now asked.request)
            (counts_in rows.old) rows.new.run.items result }
    {
        let Rows { cells, queue, run } = rows;
        match self {
            Kind::Heap => plan_with(site, asked, cells, Heap::over(queue), run),
            Kind::OrderedRow => plan_with(site, asked, cells, OrderedRow::over(queue), run),
        }
    }
}
