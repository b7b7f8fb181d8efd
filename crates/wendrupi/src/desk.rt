ghost use Rattle.std.specs.Prelude.{IfOk};
ghost use Rattle.job.specs.Replay.{calls_of};
ghost use Rattle.survey.specs.Sealing.{sealed_contents};
ghost use Rattle.answers.specs.Desk.{IsReplayText};

use crate::answer::Answer;
use answers::desk::try_script;
use job::script::Script;
use std::alloc::Global;
use survey::sealed::Sealed;

/// Tries the calls of a script on a job over a survey, and then its plan: a line for each call, and the sheet of
/// the plan or the line of its refusal.
pub fn desk(alloc: Global, survey: &Sealed, script: Script) -> anyhow::Result<Answer>
    ensures { IfOk result (λ a.
        IsReplayText (sealed_contents survey.now) (calls_of script.entries.items) script.last a.text.items) }
{
    let mut text = Vec::new(alloc);
    try_script(alloc, survey, script, &mut text)?;
    Ok(Answer::of_text(text))
}
