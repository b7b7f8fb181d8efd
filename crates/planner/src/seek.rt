ghost use Rattle.std.specs.Prelude.{IfNone, IfSome};
ghost use Rattle.subject.specs.Runs.{NoLawfulRun};
ghost use Rattle.search.specs.Rows.{EndTaken};
ghost use Rattle.search.specs.Columns.{cells_of};
ghost use Rattle.planner.specs.Workspaces.{problem, IsReady, SameWorkspace, RestState};

use crate::query::Query;
use crate::workspace::{Settled, Workspace, settle};
use subject::queue::PriorityQueue;
use subject::site::Site;

impl<S: Site> Query<'_, S> {
    /// Takes a lowest waiting cell again and again until one of the end is taken, which it answers, or none waits: then there
    /// is no lawful run.
    pub fn seek<Q: PriorityQueue<Charge = S::Charge>>(
        &self,
        work: &mut Workspace<'_, '_, S::Charge, Q>,
    ) -> Option<usize>
        requires ready { IsReady (problem self.now) Q.PriorityQueue work.old }
        requires rest { RestState (problem self.now) Q.PriorityQueue work.old }
        ensures same { SameWorkspace Q.PriorityQueue work.old work.new }
        ensures none { IfNone result (NoLawfulRun (problem self.now)) }
        ensures some { IfSome result (λ x. EndTaken (problem self.now) (cells_of work.new.cells.now) x) }
    {
        while let Some((at, _)) = work.queue.take() {
            if self.is_end(at) {
                return Some(at);
            }
            let here = settle(work.cells, at);
            self.visit(work, Settled { at, here });
        }
        None
    }
}
