ghost use Rattle.std.specs.Prelude.{◌≡◌, ◌<◌, length, replicate};
ghost use Rattle.search.specs.Rows.{RoomSuffices};
ghost use Rattle.search.specs.Columns.{blank_row};
ghost use Rattle.planner.specs.Workspaces.{problem, IsReady, SameWorkspace, RestState};

use crate::index::build;
use crate::query::Query;
use crate::workspace::Workspace;
use search::cell::{CellRow, Reached};
use subject::charge::Charge;
use subject::queue::PriorityQueue;
use subject::site::Site;

// Makes every row blank, whatever it held.
fn clear<C: Charge>(cells: &mut [CellRow<C>])
    ensures { cells.new ≡ replicate (length cells.old) blank_row }
{
    for row in cells.iter_mut() {
        *row = CellRow::blank();
    }
}

impl<S: Site> Query<'_, S> {
    /// Prepares rows and queue: the ways are indexed, and the start's cell with no loss waits alone, with the charge nothing.
    pub fn start<Q: PriorityQueue<Charge = S::Charge>>(
        &self,
        work: &mut Workspace<'_, '_, S::Charge, Q>,
    )
        requires room { RoomSuffices (problem self.now) (length work.old.cells.now) (Q.PriorityQueue.rows work.old.queue.now) }
        requires start { self.now.request.start < (problem self.now).site.places }
        ensures ready { IsReady (problem self.now) Q.PriorityQueue work.new }
        ensures same { SameWorkspace Q.PriorityQueue work.old work.new }
        ensures rest { RestState (problem self.now) Q.PriorityQueue work.new }
    {
        clear(work.cells);
        build(self.site, work.cells);
        work.queue.clear();
        let first = self.cell_of(self.request.start, 0);
        work.wait(
            first,
            Reached {
                charge: S::Charge::nothing(),
                link: None,
                steps: 0,
            },
        );
    }
}
