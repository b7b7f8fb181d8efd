//! The steps of a run as a text, a step to a line: the number of its way, and R where a repeater is set or - where
//! none is.

ghost use Rattle.std.specs.Prelude.{◌≡◌, ℕ, ◌^◌, ◌<◌, IfOk, IfSome, IfNone, Some, Bool, decimal, string_bytes};
ghost use Rattle.subject.specs.declared.run.Step.{Step as Drawn};
ghost use Rattle.wendrupi.specs.Steps.{mark_text, step_text, IsNoStep};

use crate::lines::{says_nothing, without_return};
use std::alloc::{AllocError, Global};
use std::fmt;
use std::str::from_utf8;
use subject::run::Step;

/// The line with this number, from 1, is the first that is no step.
#[derive(Clone, Copy, Debug, PartialEq, Eq)]
pub struct NoStep {
    pub line: usize,
}

impl fmt::Display for NoStep {
    fn fmt<W: fmt::Write>(&self, f: &mut fmt::Formatter<W>) -> fmt::Result {
        let line = self.line;
        write!(
            f,
            "line {line}: it is no step, the number of a way and R or -, such as \"2 R\""
        )
    }
}

// Whether a word sets a repeater.
fn mark_of(word: &str) -> Option<bool>
    ensures { (b : Bool) → word.now ≡ mark_text b → result ≡ Some b }
{
    match word {
        "R" => Some(true),
        "-" => Some(false),
        _ => None,
    }
}

// The word of a mark.
fn mark_word(mark: bool) -> &'static str
    ensures { result.now ≡ mark_text mark }
{
    if mark { "R" } else { "-" }
}

// The number that a word writes, if it writes one.
fn number(word: &str) -> Option<usize>
    ensures { (n : ℕ) → n < 2 ^ 64 → word.now ≡ decimal n → result ≡ Some n }
{
    word.parse::<usize>().ok()
}

// The text of a step.
fn text_of(alloc: Global, step: Step) -> Result<String, AllocError>
    ensures { IfOk result (λ s. string_bytes s ≡ step_text step) }
{
    let way = step.way;
    let mark = mark_word(step.mark);
    format!(in alloc; "{way} {mark}")
}

// The step over this way with this mark, if both are there.
fn step_with(way: Option<usize>, mark: Option<bool>) -> Option<Step>
    ensures { (s : Drawn) → way ≡ Some s.way → mark ≡ Some s.mark → result ≡ Some s }
{
    Some(Step {
        way: way?,
        mark: mark?,
    })
}

// What the words of a line say, if they say anything.
fn words_say(line: &str) -> Option<Step>
    ensures { (s : Drawn) → s.way < 2 ^ 64 → line.now ≡ step_text s → result ≡ Some s }
{
    let (way, mark) = line.split_once(' ')?;
    step_with(number(way), mark_of(mark))
}

/// The step of which a line is the text, to the byte, or none.
pub fn step_of_line(alloc: Global, line: &[u8]) -> Result<Option<Step>, AllocError>
    ensures some { IfOk result (λ o. IfSome o (λ s. line.now ≡ step_text s)) }
    ensures none { IfOk result (λ o. IfNone o (IsNoStep line.now)) }
{
    let Ok(line) = from_utf8(line) else {
        return Ok(None);
    };
    let Some(step) = words_say(line) else {
        return Ok(None);
    };
    let text = text_of(alloc, step)?;
    Ok((text.as_str() == line).then_some(step))
}

/// The steps of a text, or its first line that is no step. Blank lines and remarks are passed over.
///
/// The outer error is want of memory.
pub fn read_steps(alloc: Global, text: &[u8]) -> Result<Result<Vec<Step>, NoStep>, AllocError> {
    let mut steps = Vec::new(alloc);
    let mut number: usize = 0;
    for line in text.split(|byte| *byte == b'\n') {
        number = number.saturating_add(1);
        let line = without_return(line);
        if says_nothing(line) {
            continue;
        }
        match step_of_line(alloc, line)? {
            Some(step) => steps.push(step)?,
            None => return Ok(Err(NoStep { line: number })),
        }
    }
    Ok(Ok(steps))
}
