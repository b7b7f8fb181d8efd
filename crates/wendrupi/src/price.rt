ghost use Rattle.std.specs.Prelude.{IfOk, length};
ghost use Rattle.sheet.specs.Printing.{Shown};
ghost use Rattle.wendrupi.specs.Runs.{page_of};

use crate::answer::Answer;
use crate::plan::page_of;
use sheet::print::print_sheet;
use std::alloc::Global;
use subject::run::{Request, Step};
use survey::sealed::Sealed;

/// The sheet of steps that were drawn by hand, or the line of the refusal.
pub fn price(
    alloc: Global,
    survey: &Sealed,
    request: Request,
    steps: &[Step],
) -> anyhow::Result<Answer>
    ensures { IfOk result (λ a. Shown survey.now request steps.now (page_of (length steps.now)) a.text.items) }
{
    let mut text = Vec::new(alloc);
    print_sheet(
        alloc,
        &mut text,
        survey,
        request,
        steps,
        page_of(steps.len()),
    )?;
    Ok(Answer::of_text(text))
}
