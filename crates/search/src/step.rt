//! One step of a run: over a way, with a mark where it arrives or without.
ghost use Rattle.std.specs.Prelude.{◌≡◌, ◌+◌, ◌≤◌, ◌↔◌, IsTrue, Some};
ghost use Rattle.subject.specs.Problems.{problem_of};
ghost use Rattle.subject.specs.Runs.{after_way, loss_after, IsMarkable};

use subject::charge::Charge;
use subject::run::Request;
use subject::site::Site;
use subject::way::Way;

/// A sum with the charge of a way joined to it and then, if marked, that of the repeater where the way arrives.
pub fn charge_after<S: Site>(
    site: &S,
    request: Request,
    sum: S::Charge,
    mark: bool,
    way: Way<S::Charge>,
) -> S::Charge
    ensures { result ≡ after_way (problem_of S.Site S.Charge.Charge site.now request) sum mark (Some way) }
{
    let plain = sum.join(way.charge);
    if !mark {
        return plain;
    }
    site.repeater(way.to)
        .map_or(plain, |repeater| plain.join(repeater))
}

/// Whether a repeater may be marked at a place: one can be hung there, and it is neither the start nor the end.
pub fn is_markable<S: Site>(site: &S, request: Request, place: usize) -> bool
    ensures { IsTrue result ↔ IsMarkable (problem_of S.Site S.Charge.Charge site.now request) place }
{
    place != request.start && place != request.end && site.repeater(place).is_some()
}

/// Whether a run that has lost `loss` may go over a way that loses `more`: on arrival that is at most the bound.
pub fn is_within_bound(request: Request, loss: usize, more: u16) -> bool
    ensures { IsTrue result ↔ (loss + more ≤ request.bound) }
{
    loss <= request.bound && more as usize <= request.bound - loss
}

/// The loss with which a run goes on that has lost `loss` on arrival: a mark clears it.
pub fn loss_after(mark: bool, loss: usize) -> usize
    ensures { result ≡ loss_after mark loss }
{
    if mark { 0 } else { loss }
}
