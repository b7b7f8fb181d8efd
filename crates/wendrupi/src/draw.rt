use crate::answer::Answer;
use crate::input::NamedSurvey;
use crate::kind::Kind;
use crate::plan::planned;
use drawing::mark::Plan;
use drawing::picture::picture;
use sheet::refused::Refused;
use std::alloc::{AllocError, Global};
use subject::disturbance::Disturbance;
use subject::money::Money;
use subject::refusal::Refusal;
use subject::run::{Request, Step};
use survey::sealed::Sealed;
use survey::view::Charged;

// The steps of a least run of a kind.
fn steps_for<K: Charged>(
    alloc: Global,
    survey: &Sealed,
    request: Request,
) -> Result<Result<Vec<Step>, Refusal>, AllocError> {
    match planned::<K>(alloc, survey, request)? {
        Ok(run) => Ok(Ok(run.steps)),
        Err(refusal) => Ok(Err(refusal)),
    }
}

// The steps of a least run of the kind that is asked for.
fn steps_of(
    alloc: Global,
    survey: &Sealed,
    request: Request,
    kind: Kind,
) -> Result<Result<Vec<Step>, Refusal>, AllocError> {
    match kind {
        Kind::Money => steps_for::<Money>(alloc, survey, request),
        Kind::Disturbance => steps_for::<Disturbance>(alloc, survey, request),
    }
}

/// The picture of a survey.
pub fn draw(alloc: Global, input: &NamedSurvey) -> anyhow::Result<Answer> {
    let text = picture(alloc, &input.survey, &input.names, None)?;
    Ok(Answer::given(text.into_bytes()))
}

/// The picture of a survey with a least run, or the line of the refusal.
pub fn draw_run(
    alloc: Global,
    input: &NamedSurvey,
    request: Request,
    kind: Kind,
) -> anyhow::Result<Answer> {
    let steps = match steps_of(alloc, &input.survey, request, kind)? {
        Ok(steps) => steps,
        Err(refusal) => return Answer::refused(alloc, Refused::Call(refusal)),
    };
    let plan = Plan {
        request,
        run: Some(&steps),
    };
    let text = picture(alloc, &input.survey, &input.names, Some(plan))?;
    Ok(Answer::given(text.into_bytes()))
}
