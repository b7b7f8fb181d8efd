// Plans on jobs over the house, and on jobs over jobs.
use crate::case::{Case, Cases, across};
use crate::kind::Asked;
use crate::rows::each;
use anyhow::anyhow;
use job::job::Job;
use sample_house::house::survey_of_house;
use subject::refusal::Refusal;
use survey::view::MoneyView;

/// A closing or a reopening that has to be accepted.
pub fn accepted(changed: Result<(), Refusal>) -> anyhow::Result<()> {
    changed.map_err(|_| anyhow!("a closing or a reopening was refused"))
}

// A plan across the house within 35.
fn within_35(name: &str, total: u64) -> Case<'_> {
    Case {
        name,
        asked: Asked::only(across(35)),
        expected: Ok(total),
    }
}

/// The way 2 closed on a job, and reopened.
pub fn closing(cases: &mut Cases) -> anyhow::Result<()> {
    let survey = survey_of_house(cases.rt.alloc(), Some(2000))?;
    let mut job = Job::new(cases.rt.alloc(), MoneyView::over(&survey))?;
    cases.play(within_35("a new job, bound 35", 1500), &job, each(144))?;
    accepted(job.close(2))?;
    cases.play(within_35("way 2 closed, bound 35", 2600), &job, each(144))?;
    accepted(job.reopen(2))?;
    cases.play(within_35("way 2 reopened, bound 35", 1500), &job, each(144))
}

/// The way 2 closed on a job and on a job over it: to reopen it above leaves it shut below.
pub fn closing_twice(cases: &mut Cases) -> anyhow::Result<()> {
    let survey = survey_of_house(cases.rt.alloc(), Some(2000))?;
    let mut below = Job::new(cases.rt.alloc(), MoneyView::over(&survey))?;
    accepted(below.close(2))?;
    let mut above = Job::new(cases.rt.alloc(), below)?;
    let once = within_35("way 2 closed below, bound 35", 2600);
    cases.play(once, &above, each(144))?;
    accepted(above.close(2))?;
    let twice = within_35("way 2 closed below and above, bound 35", 2600);
    cases.play(twice, &above, each(144))?;
    accepted(above.reopen(2))?;
    let reopened = within_35("way 2 reopened above, bound 35", 2600);
    cases.play(reopened, &above, each(144))
}
