//! The sheet of a run over a sealed survey.
ghost use Rattle.std.specs.Prelude.{◌≡◌, ◌<◌, ◌≤◌, length, IfOk, IfErr, OnErr};
ghost use Rattle.survey_file.specs.Pieces.{put_answer, put_bytes};
ghost use Rattle.subject.specs.declared.refusal.Refusal.TheVariants.{NotLawful};
ghost use Rattle.subject.specs.Runs.{IsRun};
ghost use Rattle.survey.specs.SurveySite.{money_problem, view_contents};
ghost use Rattle.sheet.specs.Drawings.{drawing_problem, drawing_text};
ghost use Rattle.sheet.specs.Positions.{IsPriced};
ghost use Rattle.sheet.specs.Page.{sealed_problem, PageDrawn, PageRefused};

use crate::lines::{run_line, total_line};
use crate::pricing::total_of;
use crate::steps::Drawing;
use search::check::check_request;
use subject::money::Money;
use subject::refusal::Refusal;
use subject::run::{Request, Step};
use survey::sealed::Sealed;
use survey::view::MoneyView;

// The sheet of a lawful run, whose total is known, at the front of the bytes.
fn put_sheet(
    drawing: &Drawing<'_, MoneyView<'_>>,
    sum: Money,
    out: &mut [u8],
) -> Result<usize, Refusal>
    requires { IsPriced (drawing_problem drawing.now) drawing.now.steps.now sum }
    ensures answer { result ≡ put_answer out.old 0 (drawing_text drawing.now) }
    ensures after { out.new ≡ put_bytes out.old 0 (drawing_text drawing.now) }
{
    let first = run_line(drawing.request);
    let last = total_line(sum);
    let ends = first.len() + last.len();
    let room = out.len().checked_sub(ends).ok_or(Refusal::NoRoom)?;
    drawing.length(room).ok_or(Refusal::NoRoom)?;
    let after_first = first.put_into(out, 0)?;
    let after_steps = drawing.put(out, after_first)?;
    last.put_into(out, after_steps)
}

// The total of a lawful run; other steps are refused.
fn lawful_total(view: &MoneyView<'_>, request: Request, steps: &[Step]) -> Result<Money, Refusal>
    ensures ok { IfOk result (IsPriced (money_problem (view_contents view.now) request) steps.now) }
    ensures err { IfErr result (λ e. e ≡ NotLawful) }
    ensures unlawful { OnErr result (IsRun (money_problem (view_contents view.now) request) steps.now → ⊥) }
{
    total_of(view, request, steps).ok_or(Refusal::NotLawful)
}

///! The sheet of a run over a survey, into the front of the bytes, and how long it is.
///
/// Refused are, in this order, a missing start or end with 14, a wrong bound with 15, steps that are no lawful run for
/// money with 19, and a sheet that does not fit with 18; then all bytes stay.
pub fn sheet(
    survey: &Sealed,
    request: Request,
    steps: &[Step],
    out: &mut [u8],
) -> Result<usize, Refusal>
    ensures ok { IfOk result (PageDrawn (sealed_problem survey.now request) steps.now out.old out.new) }
    ensures err { IfErr result (PageRefused (sealed_problem survey.now request) steps.now (length out.old)) }
    ensures unchanged { OnErr result (out.new ≡ out.old) }
{
    check_request(survey.places(), request)?;
    let site = &MoneyView::over(survey);
    let sum = lawful_total(site, request, steps)?;
    let drawing = Drawing {
        site,
        request,
        steps,
    };
    put_sheet(&drawing, sum, out)
}
