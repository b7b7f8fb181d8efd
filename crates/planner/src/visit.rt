ghost use Rattle.std.specs.Prelude.{◌≡◌, ◌<◌, true, length, IsSome};
ghost use Rattle.search.specs.Search.{IsDominated};
ghost use Rattle.search.specs.Rows.{settled_as, done_in};
ghost use Rattle.search.specs.Columns.{cells_of};
ghost use Rattle.planner.specs.Workspaces.{problem, IsReady, ReadyStays, IsTurn, RestState};

use crate::query::Query;
use crate::workspace::{Settled, Workspace, set_hint};
use search::cell::Cell;
use subject::charge::Charge;
use subject::queue::PriorityQueue;
use subject::site::Site;

// Whether a cell is settled.
fn is_settled<C: Charge>(cell: Cell<C>) -> bool
    ensures { result ≡ true → IsSome (settled_as cell) }
{
    matches!(cell, Cell::Settled(_))
}

impl<S: Site> Query<'_, S> {
    // Whether the cell that the place's row hints at dominates the cell `at`: it is another one of the same place, settled,
    // with no more loss. Everything about the hint is looked at, so it need not be a good one.
    #[tactic(auto, using(search::proofs::Trails::place_below))]
    fn is_dominated<Q: PriorityQueue<Charge = S::Charge>>(
        &self,
        work: &Workspace<'_, '_, S::Charge, Q>,
        at: usize,
    ) -> bool
        requires { at < length work.now.cells.now }
        ensures { result ≡ true → IsDominated (problem self.now) (done_in (cells_of work.now.cells.now)) at }
    {
        let place = self.place_of(at);
        let Some(hint) = work.cells[place].hint else {
            return false;
        };
        let hint = hint as usize;
        if hint == at || hint >= work.cells.len() {
            return false;
        }
        if self.place_of(hint) != place || self.loss_of(hint) > self.loss_of(at) {
            return false;
        }
        is_settled(work.cells[hint].cell)
    }

    /// Offers the ways out of a cell that was settled just now, unless it is dominated: then each of them leads where
    /// the dominating cell's has led with no more loss for no more.
    pub fn visit<Q: PriorityQueue<Charge = S::Charge>>(
        &self,
        work: &mut Workspace<'_, '_, S::Charge, Q>,
        from: Settled<S::Charge>,
    )
        requires ready { IsReady (problem self.now) Q.PriorityQueue work.old }
        requires inside { from.at < length work.old.cells.now }
        requires turn { IsTurn (problem self.now) Q.PriorityQueue work.old from }
        ensures still { ReadyStays (problem self.now) Q.PriorityQueue work.old work.new }
        ensures rest { RestState (problem self.now) Q.PriorityQueue work.new }
    {
        if self.is_dominated(&*work, from.at) {
            return;
        }
        let place = self.place_of(from.at);
        set_hint(work.cells, place, from.at);
        self.expand(work, from);
    }
}
