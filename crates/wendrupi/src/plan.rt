ghost use Rattle.std.specs.Prelude.{◌≡◌, ◌≤◌, take, IfOk};
ghost use Rattle.survey.specs.Sealing.{sealed_contents};
ghost use Rattle.wendrupi.specs.Runs.{IsPlanned, IsMoneyAnswer, page_of, problem_over, row_count};

use crate::answer::Answer;
use crate::args::PlanOptions;
use crate::input::NamedSurvey;
use crate::kind::Kind;
use crate::list::push_list;
use answers::line::answer_plan;
use planner::plan::{Planned, plan_owned};
use search::owned::OwnedRows;
use sheet::print::print_sheet;
use sheet::refused::Refused;
use std::alloc::{AllocError, Global};
use std::io::Write;
use subject::disturbance::Disturbance;
use subject::money::Money;
use subject::refusal::Refusal;
use subject::run::{MOST_BOUND, Request, Step};
use survey::sealed::Sealed;
use survey::view::{Charged, SurveyView};
use tree_queue::heap::Heap;
use tree_queue::row::blank_rows;

/// A run with its total.
#[derive(Drop)]
pub struct Run<C> {
    pub steps: Vec<Step>,
    pub total: C,
}

// How many rows a plan over so many places needs.
fn row_count(places: usize, bound: usize) -> usize
    requires { places ≤ 256 }
    ensures { result ≡ row_count places bound }
{
    places * (bound.min(MOST_BOUND) + 1)
}

/// A least run of a kind over a survey, with as many rows as it needs.
///
/// The outer error is want of memory.
pub fn planned<K: Charged>(
    alloc: Global,
    survey: &Sealed,
    request: Request,
) -> Result<Result<Run<K>, Refusal>, AllocError>
    ensures { IfOk result (IsPlanned
        (problem_over K.Charge K.Charged.of_way K.Charged.of_repeater (sealed_contents survey.now) request)) }
{
    let count = row_count(survey.places(), request.bound);
    let mut rows: OwnedRows<K> = OwnedRows::blank(alloc, count)?;
    let mut queue_rows = blank_rows(alloc, count)?;
    let queue: Heap<'_, K> = Heap::over(&mut queue_rows);
    match plan_owned(&SurveyView::<K>::over(survey), request, &mut rows, queue) {
        Ok(planned) => Ok(Ok(run_in(rows, planned))),
        Err(refusal) => Ok(Err(refusal)),
    }
}

// The run that is in the first run rows.
fn run_in<K: Charged>(rows: OwnedRows<K>, planned: Planned<K>) -> Run<K>
    ensures steps { result.steps.items ≡ take planned.steps rows.run.items }
    ensures total { result.total ≡ planned.total }
{
    let mut steps = rows.run;
    steps.truncate(planned.steps);
    Run {
        steps,
        total: planned.total,
    }
}

/// How many bytes the sheet of so many steps may have: a line of it has less than 128.
pub fn page_of(steps: usize) -> usize
    ensures { result ≡ page_of steps }
{
    (steps.saturating_add(2)).saturating_mul(128)
}

// What is printed of a run: its sheet.
fn sheet_of(
    alloc: Global,
    survey: &Sealed,
    request: Request,
    steps: &[Step],
) -> anyhow::Result<Vec<u8>> {
    let mut text = Vec::new(alloc);
    print_sheet(
        alloc,
        &mut text,
        survey,
        request,
        steps,
        page_of(steps.len()),
    )?;
    Ok(text)
}

/// The sheet of a cheapest run, or the line of the refusal.
pub fn money_sheet(alloc: Global, survey: &Sealed, request: Request) -> anyhow::Result<Answer>
    ensures { IfOk result (λ a. IsMoneyAnswer (sealed_contents survey.now) request a.text.items) }
{
    let rows = row_count(survey.places(), request.bound);
    let mut text = Vec::new(alloc);
    answer_plan(alloc, survey, request, rows, page_of(rows), &mut text)?;
    Ok(Answer::of_text(text))
}

// The sheet of a cheapest run, and its list where there are to be names.
fn plan_for_money(
    alloc: Global,
    input: &NamedSurvey,
    request: Request,
    has_names: bool,
) -> anyhow::Result<Answer> {
    let mut answer = money_sheet(alloc, &input.survey, request)?;
    if has_names {
        if let Ok(run) = planned::<Money>(alloc, &input.survey, request)? {
            push_list(alloc, &mut answer.text, input, &run.steps)?;
        }
    }
    Ok(answer)
}

// The sheet of a least disturbing run with its grade, and its list where there are to be names.
fn plan_for_disturbance(
    alloc: Global,
    input: &NamedSurvey,
    request: Request,
    has_names: bool,
) -> anyhow::Result<Answer> {
    let run = match planned::<Disturbance>(alloc, &input.survey, request)? {
        Ok(run) => run,
        Err(refusal) => return Answer::refused(alloc, Refused::Call(refusal)),
    };
    let mut text = sheet_of(alloc, &input.survey, request, &run.steps)?;
    let grade = run.total.grade;
    writeln!(text, "GRADE {grade}")?;
    if has_names {
        push_list(alloc, &mut text, input, &run.steps)?;
    }
    Ok(Answer::given(text))
}

/// A plan: the sheet of a least run, or the line of the refusal.
pub fn plan(
    alloc: Global,
    input: &NamedSurvey,
    request: Request,
    options: PlanOptions,
) -> anyhow::Result<Answer> {
    match options.kind {
        Kind::Money => plan_for_money(alloc, input, request, options.has_names),
        Kind::Disturbance => plan_for_disturbance(alloc, input, request, options.has_names),
    }
}
