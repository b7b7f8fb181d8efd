//! A run as a list that is easy to read: a line for each step, in columns.

use crate::input::NamedSurvey;
use search::step::loss_after;
use std::alloc::{AllocError, Global};
use std::fmt;
use std::io::Write;
use subject::run::Step;
use subject::site::Site;
use survey::entry::WayEntry;
use survey::view::MoneyView;

// A step as it is listed: its way, the names of its ends, the loss on arrival, and whether a repeater is set there.
#[derive(Clone, Copy)]
struct ListedStep<'a> {
    from: &'a str,
    to: &'a str,
    way: WayEntry,
    loss: usize,
    has_repeater: bool,
}

// How wide the columns of names are.
#[derive(Clone, Copy)]
struct Widths {
    from: usize,
    to: usize,
}

// The line of a step, in columns.
#[derive(Clone, Copy)]
struct Line<'a> {
    step: ListedStep<'a>,
    widths: Widths,
}

impl fmt::Display for Line<'_> {
    fn fmt<W: fmt::Write>(&self, f: &mut fmt::Formatter<W>) -> fmt::Result {
        let from_width = self.widths.from;
        let to_width = self.widths.to;
        let from = self.step.from;
        let to = self.step.to;
        let cable = self.step.way.letter;
        let metres = self.step.way.metres;
        let loss = self.step.loss;
        let repeater = if self.step.has_repeater { 'R' } else { '-' };
        write!(
            f,
            "{from:<from_width$}  {to:<to_width$}  {cable:<5}  {metres:>6}  {loss:>4}  {repeater}"
        )
    }
}

// The name of a place.
fn name_of(names: &[String], place: usize) -> &str {
    match names.get(place) {
        Some(name) => name.as_str(),
        None => "?",
    }
}

// The steps as they are listed.
fn listed_steps<'a>(
    alloc: Global,
    input: &'a NamedSurvey,
    steps: &[Step],
) -> Result<Vec<ListedStep<'a>>, AllocError> {
    let site = MoneyView::over(&input.survey);
    let mut listed = Vec::new(alloc);
    let mut loss: usize = 0;
    for step in steps {
        if let (Some(way), Some(open)) = (input.survey.way(step.way), site.way(step.way)) {
            let arrived = loss.saturating_add(open.loss as usize);
            listed.push(ListedStep {
                from: name_of(&input.names, way.from as usize),
                to: name_of(&input.names, way.to as usize),
                way,
                loss: arrived,
                has_repeater: step.mark,
            })?;
            loss = loss_after(step.mark, arrived);
        }
    }
    Ok(listed)
}

// How wide the columns have to be.
fn widths_of(steps: &[ListedStep<'_>]) -> Widths {
    let mut widths = Widths { from: 4, to: 2 };
    for step in steps {
        widths.from = widths.from.max(step.from.chars().count());
        widths.to = widths.to.max(step.to.chars().count());
    }
    widths
}

/// Writes the list of a run behind a text: a blank line, the heading, and a line for each step.
pub fn push_list(
    alloc: Global,
    text: &mut Vec<u8>,
    input: &NamedSurvey,
    steps: &[Step],
) -> anyhow::Result<()> {
    let listed = listed_steps(alloc, input, steps)?;
    let widths = widths_of(&listed);
    let from_width = widths.from;
    let to_width = widths.to;
    writeln!(text, "")?;
    writeln!(
        text,
        "{:<from_width$}  {:<to_width$}  CABLE  METRES  LOSS  REPEATER",
        "FROM", "TO"
    )?;
    for step in listed {
        let line = Line { step, widths };
        writeln!(text, "{line}")?;
    }
    Ok(())
}
