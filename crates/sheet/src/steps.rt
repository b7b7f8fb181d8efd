//! The lines of the steps of a lawful run: first how long they are, then into the bytes.
ghost use Rattle.std.specs.Prelude.{◌≡◌, ◌+◌, ◌<◌, ◌≤◌, length, Ok, IfSome, IfNone};
ghost use Rattle.subject.specs.declared.run.TheConstants.{MOST_BOUND};

use crate::lines::step_line;
use crate::text::TextLine;
use search::step::loss_after;
use subject::refusal::Refusal;
use subject::run::{Request, Step};
use subject::site::Site;

// The line of a step, and the loss with which the run goes on.
#[derive(Drop)]
pub(crate) struct Arrival {
    line: TextLine,
    loss: usize,
}

// Steps over a site for a request, with a bound that can be asked for.
#[derive(Drop)]
pub(crate) struct Drawing<'a, S: Site> {
    pub(crate) site: &'a S,
    pub(crate) request: Request,
    pub(crate) steps: &'a [Step],
    ghost bound: { request.bound ≤ MOST_BOUND },
}

impl<S: Site> Drawing<'_, S> {
    ghost use Rattle.subject.specs.Runs.{IsRun, loss_behind};
    ghost use Rattle.survey_file.specs.Pieces.{put_bytes};
    ghost use Rattle.sheet.specs.Lines.{text_of};
    ghost use Rattle.sheet.specs.Sheet.{line_of};
    ghost use Rattle.sheet.specs.Drawings.{drawing_problem, drawing_lines};

    // A step that is made with some loss so far.
    fn arrive(&self, loss: usize, step: Step) -> Arrival
        requires { loss ≤ MOST_BOUND }
        ensures line { text_of result.line ≡ line_of loss step ((drawing_problem self.now).site.way step.way) }
        ensures loss { result.loss ≡ loss_behind ((drawing_problem self.now).site.way step.way) step.mark loss }
    {
        match self.site.way(step.way) {
            Some(way) => {
                let arrived = loss + way.loss as usize;
                let line = step_line(step.way, way.from, way.to, arrived, step.mark);
                Arrival {
                    line,
                    loss: loss_after(step.mark, arrived),
                }
            }
            None => Arrival {
                line: TextLine::new(),
                loss,
            },
        }
    }

    // How long the lines of all steps are, or none where they are longer than `most`.
    pub(crate) fn length(&self, most: usize) -> Option<usize>
        requires { IsRun (drawing_problem self.now) self.now.steps.now }
        ensures none { IfNone result (most < length (drawing_lines self.now)) }
        ensures value { IfSome result (λ n. n ≡ length (drawing_lines self.now)) }
        ensures few { IfSome result (λ n. n ≤ most) }
    {
        let mut loss = 0;
        let mut length = 0;
        for step in self.steps {
            let arrival = self.arrive(loss, *step);
            if arrival.line.len() > most - length {
                return None;
            }
            length += arrival.line.len();
            loss = arrival.loss;
        }
        Some(length)
    }

    // The lines of all steps, into the bytes from a place on; the place behind them.
    pub(crate) fn put(&self, out: &mut [u8], start: usize) -> Result<usize, Refusal>
        requires lawful { IsRun (drawing_problem self.now) self.now.steps.now }
        requires room { start + length (drawing_lines self.now) ≤ length out.old }
        ensures answer { result ≡ Ok (start + length (drawing_lines self.now)) }
        ensures after { out.new ≡ put_bytes out.old start (drawing_lines self.now) }
    {
        let mut loss = 0;
        let mut at = start;
        for step in self.steps {
            let arrival = self.arrive(loss, *step);
            at = arrival.line.put_into(out, at)?;
            loss = arrival.loss;
        }
        Ok(at)
    }
}
