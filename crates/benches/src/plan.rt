// Planning with the heap behind a C interface, to be timed against another planner: from the first place of a
// square grid.
use grid::grid::FloorGrid;
use planner::plan::plan;
use search::owned::OwnedRows;
use std::alloc::Global;
use subject::money::Money;
use subject::run::{MOST_BOUND, Request};
use subject::site::{MOST_PLACES, Site};
use tree_queue::heap::Heap;
use tree_queue::row::blank_rows;

// The cents of a plan's total, made over and over on the same rows; none where it is refused or memory is wanting.
fn plan_over(alloc: Global, site: &FloorGrid<Money>, request: Request, plans: u32) -> Option<u64> {
    let places = site.places();
    if places > MOST_PLACES || request.bound > MOST_BOUND {
        return None;
    }
    let row_count = places * (request.bound + 1);
    let mut queue_rows = blank_rows(alloc, row_count).ok()?;
    let mut rows = OwnedRows::blank(alloc, row_count).ok()?;
    let mut memory = rows.lend(Heap::over(&mut queue_rows));
    let mut total = None;
    for _ in 0..plans {
        total = plan(site, request, &mut memory)
            .map(|planned| planned.total.amount())
            .ok();
    }
    total
}

/// Plans so many times over from the first place of a square grid to the place `end`, on rows that are taken for
/// it, and gives the cents of the total. It is the largest number where the grid or the plan is refused or memory
/// is wanting, since C has no Option.
#[unsafe(no_mangle)]
pub extern "C" fn plan_on_square(
    alloc: Global,
    side: usize,
    way_cents: u64,
    loss: u16,
    repeater_cents: u64,
    bound: usize,
    end: usize,
    plans: u32,
) -> u64 {
    let way = Money { cents: way_cents };
    let repeater = Money {
        cents: repeater_cents,
    };
    let Ok(site) = FloorGrid::new(side, side, way, loss, Some(repeater)) else {
        return u64::MAX;
    };
    let request = Request {
        start: 0,
        end,
        bound,
    };
    plan_over(alloc, &site, request, plans).unwrap_or(u64::MAX)
}
