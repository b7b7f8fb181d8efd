ghost use Rattle.std.specs.Prelude.{◌<◌, length};
ghost use Rattle.subject.specs.Runs.{IsStepOver};
ghost use Rattle.search.specs.Cells.{place_of, loss_of};
ghost use Rattle.planner.specs.Workspaces.{problem, IsReady, ReadyStays, IsTurn, TurnStays, RestState, CoversStep, OffersWay};

use crate::query::Query;
use crate::workspace::{Settled, Workspace};
use search::cell::{Link, Reached};
use search::step::{charge_after, is_markable, is_within_bound, loss_after};
use subject::queue::PriorityQueue;
use subject::run::Step;
use subject::site::Site;
use subject::way::Way;

impl<S: Site> Query<'_, S> {
    // Offers the cell to which a lawful step over the way `w` leads from a settled cell.
    fn arrive<Q: PriorityQueue<Charge = S::Charge>>(
        &self,
        work: &mut Workspace<'_, '_, S::Charge, Q>,
        from: Settled<S::Charge>,
        step: Step,
        w: Way<S::Charge>,
    )
        requires ready { IsReady (problem self.now) Q.PriorityQueue work.old }
        requires turn { IsTurn (problem self.now) Q.PriorityQueue work.old from }
        requires goes { let P = problem self.now in
            IsStepOver P (place_of P from.at) (loss_of P from.at) step w }
        ensures still { TurnStays (problem self.now) Q.PriorityQueue work.old work.new from }
        ensures covered { CoversStep (problem self.now) Q.PriorityQueue work.new from step w }
    {
        let Settled { at, here } = from;
        let loss = loss_after(step.mark, self.loss_of(at) + w.loss as usize);
        let target = self.cell_of(w.to, loss);
        let charge = charge_after(self.site, self.request, here.charge, step.mark, w);
        work.offer(
            target,
            Reached {
                charge,
                link: Some(Link { from: at, step }),
                steps: here.steps + 1,
            },
        );
    }

    // Offers the way `n` from a settled cell: without a mark and, where one is allowed, with a mark too.
    fn offer_way<Q: PriorityQueue<Charge = S::Charge>>(
        &self,
        work: &mut Workspace<'_, '_, S::Charge, Q>,
        from: Settled<S::Charge>,
        n: usize,
    )
        requires ready { IsReady (problem self.now) Q.PriorityQueue work.old }
        requires turn { IsTurn (problem self.now) Q.PriorityQueue work.old from }
        ensures still { TurnStays (problem self.now) Q.PriorityQueue work.old work.new from }
        ensures offered { OffersWay (problem self.now) Q.PriorityQueue work.new from n }
    {
        if let Some(w) = self.site.way(n) {
            if w.from != self.place_of(from.at) {
                return;
            }
            if !is_within_bound(self.request, self.loss_of(from.at), w.loss) {
                return;
            }
            self.arrive(
                work,
                from,
                Step {
                    way: n,
                    mark: false,
                },
                w,
            );
            if is_markable(self.site, self.request, w.to) {
                self.arrive(work, from, Step { way: n, mark: true }, w);
            }
        }
    }

    /// Offers every way out of a settled cell: first those past the index, one by one, then those that the index has.
    #[tactic(auto, using(search::proofs::Trails::place_below))]
    pub fn expand<Q: PriorityQueue<Charge = S::Charge>>(
        &self,
        work: &mut Workspace<'_, '_, S::Charge, Q>,
        from: Settled<S::Charge>,
    )
        requires ready { IsReady (problem self.now) Q.PriorityQueue work.old }
        requires inside { from.at < length work.old.cells.now }
        requires turn { IsTurn (problem self.now) Q.PriorityQueue work.old from }
        ensures still { ReadyStays (problem self.now) Q.PriorityQueue work.old work.new }
        ensures rest { RestState (problem self.now) Q.PriorityQueue work.new }
    {
        let ways = self.site.ways();
        let limit = ways.min(work.cells.len());
        for n in limit..ways {
            self.offer_way(work, from, n);
        }
        let mut after = work.cells[self.place_of(from.at)].head;
        while let Some(way) = after {
            self.offer_way(work, from, way as usize);
            after = work.cells[way as usize].next;
        }
    }
}
