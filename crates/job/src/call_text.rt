//! The text of one call.
ghost use Rattle.std.specs.Prelude.{◌≡◌, ℕ, ◌^◌, ◌<◌, IfOk, Some, string_bytes, decimal, IfNone, IfSome};
ghost use Rattle.subject.specs.declared.run.Request.{Request as Asked};
ghost use Rattle.job.specs.declared.list.Call.{Call as Asking};
ghost use Rattle.job.specs.declared.list.Call.TheVariants.{Plan};
ghost use Rattle.job.specs.Texts.{request_text, call_text, Counted, IsNoCall};

use crate::list::Call;
use std::alloc::{AllocError, Global};
use std::str::from_utf8;
use subject::run::Request;

/// The text of a call.
pub fn text_of(alloc: Global, call: Call) -> Result<String, AllocError>
    ensures { IfOk result (λ s. string_bytes s ≡ call_text call) }
{
    match call {
        Call::Close(way) => format!(in alloc; "close {way}"),
        Call::Reopen(way) => format!(in alloc; "reopen {way}"),
        Call::Plan(request) => {
            let start = request.start;
            let end = request.end;
            let bound = request.bound;
            format!(in alloc; "plan {start} {end} {bound}")
        }
    }
}

// The number that a word writes, if it writes one.
fn number(word: &str) -> Option<usize>
    ensures { (n : ℕ) → n < 2 ^ 64 → word.now ≡ decimal n → result ≡ Some n }
{
    word.parse::<usize>().ok()
}

// The plan with these numbers, if all are there.
fn plan_with(start: Option<usize>, end: Option<usize>, bound: Option<usize>) -> Option<Call>
    ensures { (q : Asked) → start ≡ Some q.start → end ≡ Some q.end → bound ≡ Some q.bound → result ≡ Some (Plan q) }
{
    Some(Call::Plan(Request {
        start: start?,
        end: end?,
        bound: bound?,
    }))
}

// The plan that the words behind its name ask for, if they ask for one.
fn plan_of(rest: &str) -> Option<Call>
    ensures { (q : Asked) → Counted (Plan q) → rest.now ≡ request_text q → result ≡ Some (Plan q) }
{
    let (start, others) = rest.split_once(' ')?;
    let (end, bound) = others.split_once(' ')?;
    plan_with(number(start), number(end), number(bound))
}

// What the words of a line say, if they say anything.
fn words_say(line: &str) -> Option<Call>
    ensures { (c : Asking) → Counted c → line.now ≡ call_text c → result ≡ Some c }
{
    let (name, rest) = line.split_once(' ')?;
    match name {
        "close" => Some(Call::Close(number(rest)?)),
        "reopen" => Some(Call::Reopen(number(rest)?)),
        "plan" => plan_of(rest),
        _ => None,
    }
}

/// The call of which the line is the text, to the byte, or none.
pub fn read_call(alloc: Global, line: &str) -> Result<Option<Call>, AllocError>
    ensures some { IfOk result (λ o. IfSome o (λ c. line.now ≡ call_text c)) }
    ensures none { IfOk result (λ o. IfNone o (IsNoCall line.now)) }
{
    let Some(call) = words_say(line) else {
        return Ok(None);
    };
    let text = text_of(alloc, call)?;
    Ok((text.as_str() == line).then_some(call))
}

/// The same of bytes; a line that is not UTF-8 is the text of no call.
pub fn read_line(alloc: Global, line: &[u8]) -> Result<Option<Call>, AllocError>
    ensures some { IfOk result (λ o. IfSome o (λ c. line.now ≡ call_text c)) }
    ensures none { IfOk result (λ o. IfNone o (IsNoCall line.now)) }
{
    let Ok(text) = from_utf8(line) else {
        return Ok(None);
    };
    read_call(alloc, text)
}
