//! What each subcommand does, from the names of files to an answer.

use crate::answer::Answer;
use crate::args::{Asked, PlanOptions, RunWords};
use crate::calls::read_calls;
use crate::desk::desk;
use crate::draw::{draw, draw_run};
use crate::input::{NamedSurvey, Unread, read_survey};
use crate::kind::Kind;
use crate::pack::{packed, shown};
use crate::place::place_of_word;
use crate::plan::plan;
use crate::price::price;
use crate::steps::read_steps;
use anyhow::Context;
use std::fs;
use subject::run::Request;

// The bytes of a file.
fn bytes_of(rt: &HostRuntime, name: &str) -> anyhow::Result<Vec<u8>> {
    fs::read(rt, name).context(format_args!("cannot read {name}"))
}

// The survey of a file, or why there is none.
fn survey_in(rt: &HostRuntime, name: &str) -> anyhow::Result<Result<NamedSurvey, Unread>> {
    let bytes = bytes_of(rt, name)?;
    Ok(read_survey(rt.alloc(), &bytes)?)
}

// The place of a word, which has to be there.
fn place_in(input: &NamedSurvey, word: &str) -> anyhow::Result<usize> {
    place_of_word(&input.names, word).context(format_args!("there is no place {word:?}"))
}

// The request of the words of a run.
fn request_in(input: &NamedSurvey, run: RunWords<'_>) -> anyhow::Result<Request> {
    Ok(Request {
        start: place_in(input, run.start)?,
        end: place_in(input, run.end)?,
        bound: run.bound,
    })
}

fn plan_in(
    rt: &HostRuntime,
    input: &NamedSurvey,
    run: RunWords<'_>,
    options: PlanOptions,
) -> anyhow::Result<Answer> {
    plan(rt.alloc(), input, request_in(input, run)?, options)
}

fn price_in(
    rt: &HostRuntime,
    input: &NamedSurvey,
    name: &str,
    run: RunWords<'_>,
) -> anyhow::Result<Answer> {
    let alloc = rt.alloc();
    let text = bytes_of(rt, name)?;
    let request = request_in(input, run)?;
    match read_steps(alloc, &text)? {
        Ok(steps) => price(alloc, &input.survey, request, &steps),
        Err(trouble) => Ok(Answer::trouble(format!(in alloc; "{name}: {trouble}\n")?)),
    }
}

fn desk_in(rt: &HostRuntime, input: &NamedSurvey, name: &str) -> anyhow::Result<Answer> {
    let alloc = rt.alloc();
    let text = bytes_of(rt, name)?;
    match read_calls(alloc, &input.names, &text)? {
        Ok(script) => desk(alloc, &input.survey, script),
        Err(trouble) => Ok(Answer::trouble(format!(in alloc;
            "{name}: {trouble}; nothing was tried\n"
        )?)),
    }
}

// Writes the survey file, once all of it is there.
fn pack_in(
    rt: &HostRuntime,
    input: &NamedSurvey,
    survey_name: &str,
    name: &str,
) -> anyhow::Result<Answer> {
    if survey_name == name {
        anyhow::bail!("{name} is the survey itself, which is not replaced");
    }
    let file = packed(rt.alloc(), &input.survey)?;
    fs::write(rt, name, &file).context(format_args!("cannot write {name}"))?;
    Ok(Answer::given(Vec::new(rt.alloc())))
}

fn show_in(rt: &HostRuntime, input: &NamedSurvey) -> anyhow::Result<Answer> {
    Ok(Answer::given(shown(rt.alloc(), input)?))
}

fn draw_in(
    rt: &HostRuntime,
    input: &NamedSurvey,
    run: Option<RunWords<'_>>,
    kind: Kind,
) -> anyhow::Result<Answer> {
    match run {
        Some(run) => draw_run(rt.alloc(), input, request_in(input, run)?, kind),
        None => draw(rt.alloc(), input),
    }
}

/// What a command line comes to.
pub fn answer(rt: &HostRuntime, asked: Asked<'_>) -> anyhow::Result<Answer> {
    let input = match survey_in(rt, asked.survey())? {
        Ok(input) => input,
        Err(unread) => return unread.answer(rt.alloc(), asked.survey()),
    };
    match asked {
        Asked::Plan { run, options, .. } => plan_in(rt, &input, run, options),
        Asked::Price { steps, run, .. } => price_in(rt, &input, steps, run),
        Asked::Desk { calls, .. } => desk_in(rt, &input, calls),
        Asked::Pack { survey, file } => pack_in(rt, &input, survey, file),
        Asked::Show { .. } => show_in(rt, &input),
        Asked::Draw { run, kind, .. } => draw_in(rt, &input, run, kind),
    }
}
