//! Lists of calls on a job, with what each gave beside it.
ghost use Rattle.std.specs.Prelude.{◌≡◌};
ghost use Rattle.job.specs.Gives.{of_change, of_plan};

use planner::plan::Planned;
use subject::refusal::Refusal;
use subject::run::Request;

/// A call on a job.
#[derive(Clone, Copy)]
pub enum Call {
    /// Close the way with this number.
    Close(usize),
    /// Reopen the way with this number.
    Reopen(usize),
    /// Plan a run.
    Plan(Request),
}

/// What a call gave.
#[derive(Clone, Copy)]
pub enum Answer<C> {
    /// Not tried yet.
    Untried,
    /// The way was closed or reopened.
    Done,
    /// A run was found.
    Found(Planned<C>),
    /// The call was refused.
    Refused(Refusal),
}

/// A call with its answer beside it.
#[derive(Clone, Copy)]
pub struct Entry<C> {
    pub call: Call,
    pub answer: Answer<C>,
}

/// What is written beside a closing or a reopening.
impl<C> From<Result<(), Refusal>> for Answer<C> {
    ghost from_gives = { λ gave answer. answer ≡ of_change gave };

    fn from(gave: Result<(), Refusal>) -> Answer<C> {
        match gave {
            Ok(()) => Answer::Done,
            Err(refusal) => Answer::Refused(refusal),
        }
    }
}

/// What is written beside a plan.
impl<C> From<Result<Planned<C>, Refusal>> for Answer<C> {
    ghost from_gives = { λ gave answer. answer ≡ of_plan gave };

    fn from(gave: Result<Planned<C>, Refusal>) -> Answer<C> {
        match gave {
            Ok(planned) => Answer::Found(planned),
            Err(refusal) => Answer::Refused(refusal),
        }
    }
}
