//! Runs that were drawn by hand: whether one is lawful, and its total.
ghost use Rattle.std.specs.Prelude.{◌≡◌, ◌↔◌, IsTrue, IfNone, IfSome};
ghost use Rattle.subject.specs.Problems.{problem_of};
ghost use Rattle.subject.specs.Runs.{IsMarkAllowed, IsRun};
ghost use Rattle.sheet.specs.Positions.{NoStepFrom, IsStepTo, IsBehind, IsPriced};

use search::step::{charge_after, is_markable, is_within_bound, loss_after};
use subject::charge::Charge;
use subject::run::{Request, Step};
use subject::site::Site;

/// Where a run has come to: a place, what it has lost since the last repeater, and its total so far.
#[derive(Clone, Copy, Debug)]
pub struct Position<C> {
    pub place: usize,
    pub loss: usize,
    pub sum: C,
}

// Whether a step may mark a repeater at a place, if it does.
fn is_mark_allowed<S: Site>(site: &S, request: Request, mark: bool, place: usize) -> bool
    ensures { IsTrue result ↔ IsMarkAllowed (problem_of S.Site S.Charge.Charge site.now request) mark place }
{
    !mark || is_markable(site, request, place)
}

/// Where a step leads from where the run has come to, or none where it may not be made.
pub fn step_on<S: Site>(
    site: &S,
    request: Request,
    here: Position<S::Charge>,
    step: Step,
) -> Option<Position<S::Charge>>
    ensures none { IfNone result (NoStepFrom (problem_of S.Site S.Charge.Charge site.now request) here step) }
    ensures some { IfSome result (IsStepTo (problem_of S.Site S.Charge.Charge site.now request) here step) }
{
    let way = site.way(step.way)?;
    if way.from != here.place {
        return None;
    }
    if !is_within_bound(request, here.loss, way.loss) {
        return None;
    }
    if !is_mark_allowed(site, request, step.mark, way.to) {
        return None;
    }
    let loss = loss_after(step.mark, here.loss + way.loss as usize);
    let sum = charge_after(site, request, here.sum, step.mark, way);
    Some(Position {
        place: way.to,
        loss,
        sum,
    })
}

// Where the steps lead from the start, or none where one of them may not be made.
fn follow<S: Site>(site: &S, request: Request, steps: &[Step]) -> Option<Position<S::Charge>>
    ensures none { IfNone result (IsRun (problem_of S.Site S.Charge.Charge site.now request) steps.now → ⊥) }
    ensures some { IfSome result (IsBehind (problem_of S.Site S.Charge.Charge site.now request) steps.now) }
{
    let mut here = Position {
        place: request.start,
        loss: 0,
        sum: S::Charge::nothing(),
    };
    for step in steps {
        here = step_on(site, request, here, *step)?;
    }
    Some(here)
}

/// The total of a run, or none where the steps are no lawful run for the request.
pub fn total_of<S: Site>(site: &S, request: Request, steps: &[Step]) -> Option<S::Charge>
    ensures none { IfNone result (IsRun (problem_of S.Site S.Charge.Charge site.now request) steps.now → ⊥) }
    ensures some { IfSome result (IsPriced (problem_of S.Site S.Charge.Charge site.now request) steps.now) }
{
    let here = follow(site, request, steps)?;
    (here.place == request.end).then_some(here.sum)
}
