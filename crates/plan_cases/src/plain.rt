// Plans on the house with all ways open.
use crate::case::{Case, Cases, across};
use crate::kind::Asked;
use crate::rows::each;
use sample_house::house::survey_of_house;
use subject::refusal::Refusal;
use subject::run::Request;
use survey::view::{DisturbanceView, MoneyView};

// A run across the house within a bound, with a price of a repeater at the place 1, or none.
fn at_bound(
    cases: &mut Cases,
    name: &str,
    repeater: Option<u32>,
    bound: usize,
    expected: Result<u64, Refusal>,
) -> anyhow::Result<()> {
    let case = Case {
        name,
        asked: Asked::only(across(bound)),
        expected,
    };
    let survey = survey_of_house(cases.rt.alloc(), repeater)?;
    cases.play(case, &MoneyView::over(&survey), each(180))
}

/// The lower the bound, the more repeaters are needed, until none helps.
pub fn bounds(cases: &mut Cases) -> anyhow::Result<()> {
    let priced = Some(2000);
    at_bound(cases, "bound 44", priced, 44, Ok(600))?;
    at_bound(cases, "bound 43", priced, 43, Ok(1500))?;
    at_bound(cases, "bound 33", priced, 33, Ok(1500))?;
    at_bound(cases, "bound 32", priced, 32, Ok(2600))?;
    at_bound(cases, "bound 22", priced, 22, Ok(2600))?;
    at_bound(cases, "bound 21", priced, 21, Err(Refusal::NoRun))
}

/// A blank at the place 1, where no repeater can be hung, and a price of 0, where one is hung for nothing.
pub fn repeaters(cases: &mut Cases) -> anyhow::Result<()> {
    let blank = "place 1 blank, bound 32";
    at_bound(cases, blank, None, 32, Err(Refusal::NoRun))?;
    let free = "place 1 priced 0, bound 35";
    at_bound(cases, free, Some(0), 35, Ok(600))
}

/// From a place to itself it is no step, for nothing.
pub fn nowhere(cases: &mut Cases) -> anyhow::Result<()> {
    let request = Request {
        start: 0,
        end: 0,
        bound: 35,
    };
    let case = Case {
        name: "from 0 to 0",
        asked: Asked::only(request),
        expected: Ok(0),
    };
    let survey = survey_of_house(cases.rt.alloc(), Some(2000))?;
    cases.play(case, &MoneyView::over(&survey), each(144))
}

/// The disturbance of a run is its greatest grade.
pub fn disturbance(cases: &mut Cases) -> anyhow::Result<()> {
    let case = Case {
        name: "disturbance, bound 35",
        asked: Asked::only(across(35)),
        expected: Ok(1),
    };
    let survey = survey_of_house(cases.rt.alloc(), Some(2000))?;
    cases.play(case, &DisturbanceView::over(&survey), each(144))
}
