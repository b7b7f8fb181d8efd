//! A whole text: the calls that are tried, and the plan that is made at the end.
ghost use Rattle.std.specs.Prelude.{◌≡◌, ℕ, ◌<◌, ◌≤◌, ◌≢◌, [], ◌∷◌, ◌++◌, length, Some, IfErr, IfNone, IfOk, IfSome, slice_index};
ghost use Rattle.job.specs.declared.list.Call.TheVariants.{Plan};
ghost use Rattle.job.specs.Replay.{calls_of};
ghost use Rattle.std.specs.List.{AllByRecursion};
ghost use Rattle.job.specs.Covering.{Covers, larger, largest};
ghost use Rattle.job.specs.Texts.{TextOf, FirstLine};
ghost use Rattle.job.specs.Scripts.{AllUntried, IsNotPlan, EndTrouble, TroubleOf, ScriptOf, trouble_text};

use crate::call_text::read_line;
use crate::list::{Answer, Call, Entry};
use std::alloc::{AllocError, Global};
use std::fmt;
use subject::money::Money;
use subject::run::{MOST_BOUND, Request};

/// The calls before the last, none of them tried yet, and the request of the last
#[derive(Drop)]
pub struct Script {
    pub entries: Vec<Entry<Money>>,
    pub last: Request,
}

/// Why a text is not a script.
#[derive(Clone, Copy, Debug)]
pub enum Trouble {
    /// The line with this number, from 1, is the first that is the text of no call
    NoCall(u64),
    /// Every line is the text of a call, but the last, with this number, is no plan
    NoPlan(u64),
    /// There are no lines.
    NoLines,
}

impl fmt::Display for Trouble {
    ghost output = { λ t. Some (trouble_text t) };

    fn fmt<W: fmt::Write>(&self, f: &mut fmt::Formatter<W>) -> fmt::Result {
        match self {
            Trouble::NoCall(number) => write!(
                f,
                "line {number} cannot be read: it is not \"close W\", \"reopen W\" or \"plan START END BOUND\""
            ),
            Trouble::NoPlan(number) => write!(f, "line {number}, the last, is not a plan"),
            Trouble::NoLines => f.write_str("the text has no line"),
        }
    }
}

// Where the first line feed stands, or the length of a text that has none.
fn feed_at(text: &[u8]) -> usize
    ensures within { result ≤ length text.now }
    ensures before { (k : ℕ) → k < result → slice_index text.now k ≢ 10 }
    ensures found { result < length text.now → slice_index text.now result ≡ 10 }
{
    text.iter()
        .position(|byte| *byte == b'\n')
        .unwrap_or(text.len())
}

// The first line of a text, and what stands behind its line feed.
fn cut_line(text: &[u8]) -> (&[u8], &[u8])
    ensures { FirstLine text.now result.0.now result.1.now }
{
    let at = feed_at(text);
    if at < text.len() {
        (&text[..at], &text[at + 1..])
    } else {
        (text, &text[at..])
    }
}

// The calls of the lines, in their order, none of them tried yet, or the number of the first line that is none. The outer result
// says whether there was memory.
fn read_lines(alloc: Global, text: &[u8]) -> Result<Result<Vec<Entry<Money>>, Trouble>, AllocError>
    ensures ok { IfOk result (λ r. IfOk r (λ v. TextOf text.now (calls_of v.items))) }
    ensures untried { IfOk result (λ r. IfOk r (λ v. AllUntried v.items)) }
    ensures trouble { IfOk result (λ r. IfErr r (TroubleOf text.now)) }
{
    let mut entries = Vec::new(alloc);
    let mut rest = text;
    while !rest.is_empty() {
        let (line, others) = cut_line(rest);
        match read_line(alloc, line)? {
            Some(call) => entries.push(Entry {
                call,
                answer: Answer::Untried,
            })?,
            None => return Ok(Err(Trouble::NoCall(entries.len() as u64 + 1))),
        }
        rest = others;
    }
    Ok(Ok(entries))
}

// The request of a plan, or none where the call is no plan.
fn request_of(call: Call) -> Option<Request>
    ensures some { IfSome result (λ q. call ≡ Plan q) }
    ensures none { IfNone result (IsNotPlan call) }
{
    match call {
        Call::Plan(request) => Some(request),
        _ => None,
    }
}

// The script of the calls that were read: the last of them has to be a plan.
fn script_of(mut entries: Vec<Entry<Money>>) -> Result<Script, Trouble>
    ensures calls { IfOk result (λ s. calls_of entries.items ≡ calls_of s.entries.items ++ Plan s.last ∷ []) }
    ensures untried { IfOk result (λ s. AllUntried entries.items → AllUntried s.entries.items) }
    ensures trouble { IfErr result (EndTrouble (calls_of entries.items)) }
{
    let lines = entries.len() as u64;
    let entry = entries.pop().ok_or(Trouble::NoLines)?;
    let last = request_of(entry.call).ok_or(Trouble::NoPlan(lines))?;
    Ok(Script { entries, last })
}

/// The script of the bytes of a text, or why they are none. The outer result says whether there was memory.
pub fn read_script_bytes(alloc: Global, text: &[u8]) -> Result<Result<Script, Trouble>, AllocError>
    ensures script { IfOk result (λ r. IfOk r (ScriptOf text.now)) }
    ensures trouble { IfOk result (λ r. IfErr r (TroubleOf text.now)) }
{
    Ok(read_lines(alloc, text)?.and_then(script_of))
}

/// The script of a text, or why it is none. The outer result says whether there was memory.
pub fn read_script(alloc: Global, text: &str) -> Result<Result<Script, Trouble>, AllocError>
    ensures script { IfOk result (λ r. IfOk r (ScriptOf text.now)) }
    ensures trouble { IfOk result (λ r. IfErr r (TroubleOf text.now)) }
{
    read_script_bytes(alloc, text.as_bytes())
}

// The larger of a bound and that of a call, if it is a plan with a bound that can be asked for.
fn larger_bound(bound: usize, call: Call) -> usize
    requires { bound ≤ MOST_BOUND }
    ensures low { result ≤ MOST_BOUND }
    ensures grows { bound ≤ result }
    ensures covers { Covers result call }
    ensures value { result ≡ larger bound call }
{
    match call {
        Call::Plan(request) if request.bound <= MOST_BOUND => bound.max(request.bound),
        _ => bound,
    }
}

impl Script {
    /// The largest bound of the plans of the script, as far as it can be asked for: no plan needs more rows than one with it.
    pub fn largest_bound(&self) -> usize
        ensures value { result ≡ largest 0 (Plan self.now.last ∷ calls_of self.now.entries.items) }
        ensures low { result ≤ MOST_BOUND }
        ensures last { Covers result (Plan self.now.last) }
        ensures listed { AllByRecursion (λ e. Covers result e.call) self.now.entries.items }
    {
        let mut bound = larger_bound(0, Call::Plan(self.last));
        for entry in self.entries.as_slice() {
            bound = larger_bound(bound, entry.call);
        }
        bound
    }
}
