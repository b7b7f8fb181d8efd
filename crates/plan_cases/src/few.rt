// How many rows a plan needs, and rows and a queue that a plan before has left.
use crate::case::{Case, Cases, across};
use crate::kind::Asked;
use crate::rows::each;
use sample_house::house::survey_of_house;
use search::check::RowCounts;
use subject::refusal::Refusal;
use survey::view::MoneyView;

// A plan within 35 with so many rows of each sort.
fn with_rows(
    cases: &mut Cases,
    cells: usize,
    queue: usize,
    run: usize,
    expected: Result<u64, Refusal>,
) -> anyhow::Result<()> {
    let name = format!(in cases.rt.alloc();
        "bound 35 with {cells} cell rows, {queue} queue rows and {run} run rows"
    )?;
    let case = Case {
        name: name.as_str(),
        asked: Asked::only(across(35)),
        expected,
    };
    let survey = survey_of_house(cases.rt.alloc(), Some(2000))?;
    let counts = RowCounts { cells, queue, run };
    cases.play(case, &MoneyView::over(&survey), counts)
}

/// Four places with the losses 0 to 35 take 144 rows of each sort.
pub fn few_rows(cases: &mut Cases) -> anyhow::Result<()> {
    with_rows(cases, 144, 144, 144, Ok(1500))?;
    with_rows(cases, 143, 144, 144, Err(Refusal::TooFewRows))?;
    with_rows(cases, 144, 143, 144, Err(Refusal::TooFewRows))?;
    with_rows(cases, 144, 144, 143, Err(Refusal::TooFewRows))?;
    with_rows(cases, 143, 143, 143, Err(Refusal::TooFewRows))
}

/// A plan within 44 and then one within 33, on the rows and the queue that the first has left.
pub fn used_rows(cases: &mut Cases) -> anyhow::Result<()> {
    let case = Case {
        name: "bound 33 on the rows and the queue that bound 44 has left",
        asked: Asked {
            before: Some(across(44)),
            request: across(33),
        },
        expected: Ok(1500),
    };
    let survey = survey_of_house(cases.rt.alloc(), Some(2000))?;
    cases.play(case, &MoneyView::over(&survey), each(180))
}
