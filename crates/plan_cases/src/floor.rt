// Plans on floor grids: ways for 100 cents that lose 1 tenth, repeaters for 500 cents.
use crate::case::{Case, Cases};
use crate::jobs::accepted;
use crate::kind::Asked;
use crate::rows::each;
use anyhow::anyhow;
use grid::grid::FloorGrid;
use job::job::Job;
use subject::money::Money;
use subject::run::Request;

// A square grid with so many places on each side.
fn square(side: usize) -> anyhow::Result<FloorGrid<Money>> {
    let way = Money { cents: 100 };
    let repeater = Money { cents: 500 };
    FloorGrid::new(side, side, way, 1, Some(repeater)).map_err(|_| anyhow!(
        "a side of the grid was refused"
    ))
}

// On a grid of 3 by 3, from the corner 0 to the corner 2.
fn along_the_top(name: &str, total: u64) -> Case<'_> {
    let request = Request {
        start: 0,
        end: 2,
        bound: 10,
    };
    Case {
        name,
        asked: Asked::only(request),
        expected: Ok(total),
    }
}

/// With the way 0 from 0 to 1 closed it is four ways, over 3, 4 and 1 or 5; with the way 12 from 3 to 4 closed too,
/// on a job over that one, it is six, over 3, 6 and 7.
pub fn on_two_jobs(cases: &mut Cases) -> anyhow::Result<()> {
    let mut below = Job::new(cases.rt.alloc(), square(3)?)?;
    accepted(below.close(0))?;
    let one = "grid of 3 by 3, way 0 closed";
    cases.play(along_the_top(one, 400), &below, each(99))?;
    let mut above = Job::new(cases.rt.alloc(), below)?;
    accepted(above.close(12))?;
    let both = "grid of 3 by 3, way 0 closed on a job and way 12 on a job over it";
    cases.play(along_the_top(both, 600), &above, each(99))
}

/// The same two ways closed on one job.
pub fn on_one_job(cases: &mut Cases) -> anyhow::Result<()> {
    let mut job = Job::new(cases.rt.alloc(), square(3)?)?;
    accepted(job.close(0))?;
    accepted(job.close(12))?;
    let both = "grid of 3 by 3, ways 0 and 12 closed on one job";
    cases.play(along_the_top(both, 600), &job, each(99))
}

/// From corner to corner of the largest grid there are 126 ways, and a bound of 100 asks for one repeater.
pub fn corner_to_corner(cases: &mut Cases) -> anyhow::Result<()> {
    let request = Request {
        start: 0,
        end: 4095,
        bound: 100,
    };
    let case = Case {
        name: "grid of 64 by 64, bound 100",
        asked: Asked::only(request),
        expected: Ok(13100),
    };
    cases.play(case, &square(64)?, each(413696))
}
