//! How a program calls the planner: a cheapest run over a survey, and another while a way is closed.
use anyhow::anyhow;
use job::job::Job;
use planner::plan::{Planned, plan_owned};
use relays::plan_owned_for_money;
use search::owned::OwnedRows;
use std::alloc::Global;
use std::test::Fail;
use subject::money::Money;
use subject::refusal::Refusal;
use subject::run::{Request, Step};
use survey::draft::Draft;
use survey::entry::WayEntry;
use survey::sealed::Sealed;
use survey::view::MoneyView;
use tree_queue::heap::Heap;
use tree_queue::row::blank_rows;

// A refusal as an error.
fn refused(refusal: Refusal) -> anyhow::Error {
    anyhow!("REFUSED {refusal}")
}

// Two places without a repeater, and two ways from the first to the second: one for 300 cents, one for 450.
fn two_ways(alloc: Global) -> anyhow::Result<Sealed> {
    let mut draft = Draft::new(alloc)?;
    draft.add_place(None).map_err(refused)?;
    draft.add_place(None).map_err(refused)?;
    for price in [300, 450] {
        let way = WayEntry {
            from: 0,
            to: 1,
            letter: 'U',
            grade: 1,
            metres: 10,
            price,
        };
        draft.add_way(way).map_err(refused)?;
    }
    Ok(draft.seal())
}

// What a run costs, and its first way.
#[derive(Clone, Copy, Debug, PartialEq)]
struct Offer {
    cents: u64,
    way: usize,
}

fn offer_of(planned: Planned<Money>, run: &[Step]) -> Option<Offer> {
    let first = run.first()?;
    let cents = planned.total.amount();
    Some(Offer {
        cents,
        way: first.way,
    })
}

// The cheapest run, and the cheapest while the way 0 is closed.
fn two_offers(alloc: Global) -> anyhow::Result<[Option<Offer>; 2]> {
    let survey = two_ways(alloc)?;
    let request = Request {
        start: 0,
        end: 1,
        bound: 35,
    };
    let count = 2 * (35 + 1);
    let mut rows = OwnedRows::blank(alloc, count)?;
    let mut queue = blank_rows(alloc, count)?;
    let planned = plan_owned_for_money(&survey, request, &mut rows, Heap::over(&mut queue));
    let cheapest = offer_of(planned.map_err(refused)?, &rows.run);

    let mut job = Job::new(alloc, MoneyView::over(&survey))?;
    job.close(0).map_err(refused)?;
    let planned = plan_owned(&job, request, &mut rows, Heap::over(&mut queue));
    let other = offer_of(planned.map_err(refused)?, &rows.run);
    Ok([cheapest, other])
}

#[test]
fn a_run_and_another_while_a_way_is_closed(rt: HostRuntime) -> Result<(), Fail> {
    let cheapest = Some(Offer { cents: 300, way: 0 });
    let other = Some(Offer { cents: 450, way: 1 });
    assert_eq!(rt; two_offers(rt.alloc()).ok(), Some([cheapest, other]));
    Ok(())
}
