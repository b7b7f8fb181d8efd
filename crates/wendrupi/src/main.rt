//! A program for an estimator at a prompt: it plans, prices and draws cable runs over a survey, and converts surveys.
//!
//! Status 0 is an answer and 1 is a refusal or a trouble in a text; both are on standard output. Status 2 is a wrong
//! command line, or a file that cannot be read or written; a line on standard error says which.
#![tactic(auto)]

mod answer;
mod args;
mod calls;
mod commands;
mod desk;
mod draw;
mod input;
mod kind;
mod lines;
mod list;
mod pack;
mod place;
mod plan;
mod price;
mod steps;
#[cfg(test)]
mod tests;

use crate::answer::Answer;
use std::env;
use std::io::Write;
use std::process::ExitCode;

// Prints an answer; the status that goes with it.
fn print_answer(rt: &HostRuntime, answer: &Answer) -> anyhow::Result<ExitCode> {
    rt.stdout().write_all(answer.text.as_slice())?;
    Ok(ExitCode::from(answer.status()))
}

// Does what the words of the command line ask for; the status.
fn run(rt: &HostRuntime) -> anyhow::Result<ExitCode> {
    let words: Vec<String> = env::args(rt)?.collect(rt.alloc())?;
    let command = args::command(rt.alloc())?;
    match command.try_get_matches_from(words.as_slice()) {
        Ok(matches) => {
            let answer = commands::answer(rt, args::asked_in(&matches)?)?;
            print_answer(rt, &answer)
        }
        Err(error) if error.use_stderr() => Err(args::trouble(rt.alloc(), &error)?),
        Err(help) => {
            help.print(rt)?;
            Ok(ExitCode::SUCCESS)
        }
    }
}

fn main(rt: HostRuntime) -> ExitCode {
    match run(&rt) {
        Ok(status) => status,
        Err(error) => {
            let _ = eprintln!(&rt; "wendrupi: {error:#}");
            ExitCode::from(2)
        }
    }
}
