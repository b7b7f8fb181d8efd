//! The command line: the words of each subcommand, and what they ask for.

use crate::kind::Kind;
use anyhow::Context;
use clap::{Arg, ArgAction, ArgMatches, Command, Error, value_parser};
use std::alloc::{AllocError, Global};

/// A run that is asked for: its start and its end by name or number, and the bound in tenths of a decibel.
#[derive(Clone, Copy, Debug)]
pub struct RunWords<'a> {
    pub start: &'a str,
    pub end: &'a str,
    pub bound: usize,
}

/// How a plan is asked for and shown.
#[derive(Clone, Copy, Debug)]
pub struct PlanOptions {
    pub kind: Kind,
    pub has_names: bool,
}

/// What a command line asks for; files are given by their names.
#[derive(Clone, Copy, Debug)]
pub enum Asked<'a> {
    Plan {
        survey: &'a str,
        run: RunWords<'a>,
        options: PlanOptions,
    },
    Price {
        survey: &'a str,
        steps: &'a str,
        run: RunWords<'a>,
    },
    Desk {
        survey: &'a str,
        calls: &'a str,
    },
    Pack {
        survey: &'a str,
        file: &'a str,
    },
    Show {
        survey: &'a str,
    },
    Draw {
        survey: &'a str,
        run: Option<RunWords<'a>>,
        kind: Kind,
    },
}

impl<'a> Asked<'a> {
    /// The name of the file with the survey.
    pub fn survey(&self) -> &'a str {
        match self {
            Asked::Plan { survey, .. } => survey,
            Asked::Price { survey, .. } => survey,
            Asked::Desk { survey, .. } => survey,
            Asked::Pack { survey, .. } => survey,
            Asked::Show { survey } => survey,
            Asked::Draw { survey, .. } => survey,
        }
    }
}

// A word that has to be there.
fn word<'a>(alloc: Global, id: &'a str, value_name: &'a str, help: &'a str) -> Arg<'a> {
    Arg::new(alloc, id)
        .value_name(value_name)
        .help(help)
        .required(true)
}

// The survey, which each subcommand has first.
fn survey_word<'a>(alloc: Global) -> Arg<'a> {
    word(
        alloc,
        "survey",
        "SURVEY",
        "A survey: its text (CSV), or its survey file",
    )
}

// The three words of a run.
fn start_word<'a>(alloc: Global) -> Arg<'a> {
    word(
        alloc,
        "start",
        "START",
        "The place where the run starts, by name or number",
    )
}

fn end_word<'a>(alloc: Global) -> Arg<'a> {
    word(
        alloc,
        "end",
        "END",
        "The place where it ends, by name or number",
    )
}

fn bound_word<'a>(alloc: Global) -> Arg<'a> {
    word(alloc, "bound", "BOUND", BOUND_HELP).value_parser(value_parser!(usize))
}

// The kind of charge in which a run is least.
fn kind_option<'a>(alloc: Global) -> Arg<'a> {
    Arg::new(alloc, "kind")
        .long("kind")
        .value_name("KIND")
        .help("What the run is least in")
        .value_parser(Kind::WORDS.as_slice())
        .default_value("money")
}

// A subcommand with the three words of a run behind its own.
fn with_run<'a>(alloc: Global, command: Command<'a>) -> Result<Command<'a>, AllocError> {
    command
        .arg(start_word(alloc))?
        .arg(end_word(alloc))?
        .arg(bound_word(alloc))
}

// A subcommand with the three words of a run behind its own, which are all there or none.
fn with_optional_run<'a>(alloc: Global, command: Command<'a>) -> Result<Command<'a>, AllocError> {
    command
        .arg(start_word(alloc).required(false).requires_arg("bound")?)?
        .arg(end_word(alloc).required(false).requires_arg("bound")?)?
        .arg(bound_word(alloc).required(false))
}

fn plan_command<'a>(alloc: Global) -> Result<Command<'a>, AllocError> {
    let names = Arg::new(alloc, "names")
        .long("names")
        .help("List the steps with the names of their places, too")
        .action(ArgAction::SetTrue);
    let command = Command::new(alloc, "plan")
        .about("Plan a least run and print its sheet")
        .after_help(PLAN_HELP)
        .arg(survey_word(alloc))?;
    with_run(alloc, command)?
        .arg(kind_option(alloc))?
        .arg(names)
}

fn price_command<'a>(alloc: Global) -> Result<Command<'a>, AllocError> {
    let command = Command::new(alloc, "price")
        .about("Price a run that was drawn by hand and print its sheet")
        .after_help(PRICE_HELP)
        .arg(survey_word(alloc))?
        .arg(word(alloc, "steps", "STEPS", "The steps of the run, as a text"))?;
    with_run(alloc, command)
}

fn desk_command<'a>(alloc: Global) -> Result<Command<'a>, AllocError> {
    Command::new(alloc, "desk")
        .about(
            "Try calls on a job over a survey, and print what each gives and the sheet of the last",
        )
        .after_help(DESK_HELP)
        .arg(survey_word(alloc))?
        .arg(word(alloc, "calls", "CALLS", "The calls, as a text"))
}

fn pack_command<'a>(alloc: Global) -> Result<Command<'a>, AllocError> {
    Command::new(alloc, "pack")
        .about("Write the survey file of a survey")
        .after_help(PACK_HELP)
        .arg(survey_word(alloc))?
        .arg(word(alloc, "file", "FILE", "The survey file that is written"))
}

fn show_command<'a>(alloc: Global) -> Result<Command<'a>, AllocError> {
    Command::new(alloc, "show")
        .about("Print the text of a survey")
        .after_help(SHOW_HELP)
        .arg(survey_word(alloc))
}

fn draw_command<'a>(alloc: Global) -> Result<Command<'a>, AllocError> {
    let command = Command::new(alloc, "draw")
        .about("Print a picture of a survey (SVG), with a least run where one is asked for")
        .after_help(DRAW_HELP)
        .arg(survey_word(alloc))?;
    with_optional_run(alloc, command)?.arg(kind_option(alloc))
}

/// The command line of the program.
pub fn command<'a>(alloc: Global) -> Result<Command<'a>, AllocError> {
    Command::new(alloc, "wendrupi")
        .bin_name("wendrupi")?
        .about("Plans cable runs with repeaters over a survey of a house")
        .after_help(HELP)
        .subcommand_required(true)
        .subcommand(plan_command(alloc)?)?
        .subcommand(price_command(alloc)?)?
        .subcommand(desk_command(alloc)?)?
        .subcommand(pack_command(alloc)?)?
        .subcommand(show_command(alloc)?)?
        .subcommand(draw_command(alloc)?)
}

const HELP: &str = "\
Example: wendrupi plan house.csv office landing 35 --names

The status is 0 for an answer, 1 for a refusal or a trouble in a text, and 2 for a wrong
command line or a file that cannot be read or written.";

const BOUND_HELP: &str =
    "The most that the run may lose since its last repeater, in tenths of a decibel: 1 to 1000";

const PLAN_HELP: &str = "\
Examples: wendrupi plan house.csv office landing 35 --names
          wendrupi plan house.survey 0 2 35 --kind disturbance

A line of the sheet is a step: its way, from, to, the loss on arrival, and R where a repeater
is set. TOTAL is in cents, and GRADE is the highest grade of a way, to which the house is
disturbed.";

const PRICE_HELP: &str = "\
Example: wendrupi price house.csv house.steps office floor3 35

A line of STEPS is a step: the number of its way, and R where a repeater is set behind it or -
where none is, such as \"2 R\". Blank lines and lines that begin with # are passed over.";

const DESK_HELP: &str = "\
Example: wendrupi desk house.csv house.calls

A line of CALLS is a call: \"close W\", \"reopen W\" or \"plan START END BOUND\", with W the number
of a way. A name with a space is in quotes, such as plan \"front office\" lobby 35. The last
call is a plan. Blank lines and lines that begin with # are passed over.";

const PACK_HELP: &str = "\
Example: wendrupi pack house.csv house.survey

A survey file has no names. A file that exists is replaced, once all of the survey was read.";

const SHOW_HELP: &str = "\
Example: wendrupi show house.survey > house.csv

A survey file has no names, so the places are named by their numbers.";

const DRAW_HELP: &str = "\
Examples: wendrupi draw house.csv > house.svg
          wendrupi draw house.csv office floor3 35 > house.svg";

// A word of the command line.
fn word_in<'a>(matches: &ArgMatches<'a>, id: &str) -> anyhow::Result<&'a str> {
    matches.get_str(id).context("a word is missing")
}

// The run that is asked for.
fn run_in<'a>(matches: &ArgMatches<'a>) -> anyhow::Result<RunWords<'a>> {
    Ok(RunWords {
        start: word_in(matches, "start")?,
        end: word_in(matches, "end")?,
        bound: matches
            .get_one::<usize>("bound")
            .context("BOUND is no number")?,
    })
}

// The kind that is asked for.
fn kind_in(matches: &ArgMatches<'_>) -> anyhow::Result<Kind> {
    Kind::of_word(word_in(matches, "kind")?).context("there is no such kind")
}

// The run that is asked for, if one is.
fn optional_run_in<'a>(matches: &ArgMatches<'a>) -> anyhow::Result<Option<RunWords<'a>>> {
    if matches.contains_id("start") {
        Ok(Some(run_in(matches)?))
    } else {
        Ok(None)
    }
}

fn plan_in<'a>(matches: &ArgMatches<'a>) -> anyhow::Result<Asked<'a>> {
    Ok(Asked::Plan {
        survey: word_in(matches, "survey")?,
        run: run_in(matches)?,
        options: PlanOptions {
            kind: kind_in(matches)?,
            has_names: matches.get_flag("names"),
        },
    })
}

/// What the words that were read ask for.
pub fn asked_in<'a>(matches: &ArgMatches<'a>) -> anyhow::Result<Asked<'a>> {
    let (name, words) = matches.subcommand().context("a subcommand is missing")?;
    let survey = word_in(words, "survey")?;
    match name {
        "plan" => plan_in(words),
        "price" => Ok(Asked::Price {
            survey,
            steps: word_in(words, "steps")?,
            run: run_in(words)?,
        }),
        "desk" => Ok(Asked::Desk {
            survey,
            calls: word_in(words, "calls")?,
        }),
        "pack" => Ok(Asked::Pack {
            survey,
            file: word_in(words, "file")?,
        }),
        "show" => Ok(Asked::Show { survey }),
        "draw" => Ok(Asked::Draw {
            survey,
            run: optional_run_in(words)?,
            kind: kind_in(words)?,
        }),
        _ => anyhow::bail!("there is no subcommand {name}"),
    }
}

/// Why a command line is wrong, in one line.
pub fn trouble(alloc: Global, error: &Error) -> Result<anyhow::Error, AllocError> {
    let text = format!(in alloc; "{error}")?;
    let (first, _) = text
        .as_str()
        .split_once("\n\n")
        .unwrap_or((text.as_str(), ""));
    let cause = first.strip_prefix("error: ").unwrap_or(first);
    let mut line = String::new(alloc);
    for part in cause.lines() {
        if !line.is_empty() {
            line.push_str(" ")?;
        }
        line.push_str(part.trim())?;
    }
    Ok(anyhow::anyhow!("{line}"))
}
