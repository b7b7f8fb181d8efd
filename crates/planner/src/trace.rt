ghost use Rattle.std.specs.Prelude.{◌≡◌, ◌<◌, ◌≤◌, length, Some, IsSome, slice_set};
ghost use Rattle.search.specs.Rows.{EndTaken, reached_in};
ghost use Rattle.search.specs.Columns.{cells_of};
ghost use Rattle.planner.specs.Outcome.{RunHandedOut};
ghost use Rattle.planner.specs.Workspaces.{problem};

use crate::plan::Planned;
use crate::query::Query;
use crate::workspace::{Workspace, reached_at};
use search::cell::{CellRow, Link, Reached};
use subject::charge::Charge;
use subject::queue::PriorityQueue;
use subject::run::Step;
use subject::site::Site;

// Goes back over a link: writes its step at the place `at`, and answers how the cell that it was taken from was reached.
fn one_back<C: Charge>(cells: &[CellRow<C>], link: Link, run: &mut [Step], at: usize) -> Reached<C>
    requires inside { at < length run.old }
    requires reached { IsSome (reached_in (cells_of cells.now) link.from) }
    ensures wrote { run.new ≡ slice_set run.old at link.step }
    ensures reached { reached_in (cells_of cells.now) link.from ≡ Some result }
{
    run[at] = link.step;
    reached_at(cells, link.from)
}

impl<S: Site> Query<'_, S> {
    /// Writes the run that led to the cell `last`, from its last step to its first, and answers its length and its total.
    pub fn trace<Q: PriorityQueue<Charge = S::Charge>>(
        &self,
        work: &Workspace<'_, '_, S::Charge, Q>,
        last: usize,
        run: &mut [Step],
    ) -> Planned<S::Charge>
        requires found { EndTaken (problem self.now) (cells_of work.now.cells.now) last }
        requires room { length work.now.cells.now ≤ length run.old }
        ensures { RunHandedOut (problem self.now) run.old run.new result }
    {
        let cells = &*work.cells;
        let end = reached_at(cells, last);
        let mut here = end;
        for left in (0..end.steps).rev() {
            here = one_back(cells, here.link.unwrap(), run, left);
        }
        Planned {
            steps: end.steps,
            total: end.charge,
        }
    }
}
