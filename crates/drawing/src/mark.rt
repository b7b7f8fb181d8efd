ghost use Rattle.std.specs.Prelude.{◌≡◌, false, count_by, IfSome, IfNone};
ghost use Rattle.survey.specs.Sealing.{sealed_contents};
ghost use Rattle.drawing.specs.Marks.{has_way, leads_to, arrives, marks};

use subject::run::{Request, Step};
use survey::sealed::Sealed;

/// What is marked in a picture: the request of a run, and the steps of the run that was planned for it, or none where
/// there is no run.
#[derive(Clone, Copy)]
pub struct Plan<'a> {
    pub request: Request,
    pub run: Option<&'a [Step]>,
}

impl Plan<'_> {
    /// Whether the run leads over a way.
    pub fn leads_over(self, way: usize) -> bool
        ensures some { IfSome self.entry.run (λ s. result ≡ has_way s.now way) }
        ensures none { IfNone self.entry.run (result ≡ false) }
    {
        match self.run {
            Some(steps) => has_way(steps, way),
            None => false,
        }
    }

    /// Whether a step of the run leads to a place.
    pub fn arrives_at(self, survey: &Sealed, place: usize) -> bool
        ensures some { IfSome self.entry.run (λ s. result ≡ arrives (sealed_contents survey.now).ways s.now place) }
        ensures none { IfNone self.entry.run (result ≡ false) }
    {
        match self.run {
            Some(steps) => arrives(steps, survey, place),
            None => false,
        }
    }

    /// Whether the run has a repeater at a place: whether a marked step leads there.
    pub fn has_repeater(self, survey: &Sealed, place: usize) -> bool
        ensures some { IfSome self.entry.run (λ s. result ≡ marks (sealed_contents survey.now).ways s.now place) }
        ensures none { IfNone self.entry.run (result ≡ false) }
    {
        match self.run {
            Some(steps) => marks(steps, survey, place),
            None => false,
        }
    }

    /// How many steps of the run are marked.
    pub fn repeaters(self) -> usize
        ensures some { IfSome self.entry.run (λ s. result ≡ count_by (λ x. x.mark) s.now) }
        ensures none { IfNone self.entry.run (result ≡ 0) }
    {
        match self.run {
            Some(steps) => steps.iter().filter(|step| step.mark).count(),
            None => 0,
        }
    }

    /// How many metres the run has.
    pub fn metres(self, survey: &Sealed) -> u64 {
        let mut sum: u64 = 0;
        for step in self.run.unwrap_or(&[]) {
            if let Some(way) = survey.way(step.way) {
                sum = sum.saturating_add(way.metres as u64);
            }
        }
        sum
    }
}

// Whether one of the steps leads over a way.
fn has_way(steps: &[Step], way: usize) -> bool
    ensures { result ≡ has_way steps.now way }
{
    steps.iter().any(|step| step.way == way)
}

// Whether a way of the survey leads to a place.
fn leads_to(survey: &Sealed, way: usize, place: usize) -> bool
    ensures { result ≡ leads_to (sealed_contents survey.now).ways way place }
{
    match survey.way(way) {
        Some(way) => way.to as usize == place,
        None => false,
    }
}

// Whether one of the steps leads to a place.
fn arrives(steps: &[Step], survey: &Sealed, place: usize) -> bool
    ensures { result ≡ arrives (sealed_contents survey.now).ways steps.now place }
{
    steps.iter().any(|step| leads_to(survey, step.way, place))
}

// Whether one of the steps that are marked leads to a place.
fn marks(steps: &[Step], survey: &Sealed, place: usize) -> bool
    ensures { result ≡ marks (sealed_contents survey.now).ways steps.now place }
{
    steps
        .iter()
        .any(|step| step.mark && leads_to(survey, step.way, place))
}
