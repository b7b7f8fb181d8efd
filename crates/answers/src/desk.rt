//! What a desk prints: calls tried on a job over a survey, for money, and then the run of a plan.
ghost use Rattle.std.specs.Prelude.{◌≡◌, ◌<◌, ◌≤◌, ◌^◌, length, OnOk, Some};
ghost use Rattle.std.specs.Result.{ForOk};
ghost use Rattle.search.specs.Memories.{counts_of, lent_memory};
ghost use Rattle.job.specs.Replay.{calls_of};
ghost use Rattle.survey.specs.Sealing.{sealed_contents};
ghost use Rattle.sheet.specs.Printing.{IsPrinted, SomePrinted};
ghost use Rattle.answers.specs.Desk.{answer_words, done_word, entry_line, entry_lines, trouble_line};
ghost use Rattle.answers.specs.Desk.{IsDeskAnswer, IsReplayText};
ghost use Rattle.answers.specs.Rooms.{IsGivenText, RowsCover};

use arrayvec::ArrayVec;
use job::list::{Answer, Call, Entry};
use job::script::{Script, Trouble, read_script_bytes};
use planner::plan::Planned;
use relays::replay_for_money;
use search::memory::Memory;
use search::owned::OwnedRows;
use sheet::print::{print_refusal, print_sheet, print_text, survey_in};
use sheet::refused::Refused;
use std::alloc::Global;
use std::fmt;
use std::io::Write;
use subject::money::Money;
use subject::queue::PriorityQueue;
use subject::refusal::Refusal;
use subject::run::{Request, Step};
use survey::sealed::Sealed;
use tree_queue::heap::Heap;
use tree_queue::row::blank_rows;

// The room for a line of an entry or of a trouble. The longest has 119 bytes, with a number of 20 digits.
const LINE: usize = 128;

// What one listed call gave, as it is printed.
#[derive(Clone, Copy)]
struct Gave {
    entry: Entry<Money>,
}

impl fmt::Display for Gave {
    ghost output = { λ g. Some (answer_words g.entry.call g.entry.answer) };

    fn fmt<W: fmt::Write>(&self, f: &mut fmt::Formatter<W>) -> fmt::Result {
        match self.entry.answer {
            Answer::Untried => f.write_str("UNTRIED"),
            Answer::Done => f.write_str(done_word(self.entry.call)),
            Answer::Refused(refusal) => write!(f, "REFUSED {refusal}"),
            Answer::Found(planned) => {
                let steps = planned.steps;
                let total = planned.total.amount();
                write!(f, "PLANNED {steps} STEPS TOTAL {total}")
            }
        }
    }
}

// A call that was accepted, in a word.
fn done_word(call: Call) -> &'static str
    ensures { result.now ≡ done_word call }
{
    match call {
        Call::Close(_) => "CLOSED",
        Call::Reopen(_) => "REOPENED",
        Call::Plan(_) => "PLANNED",
    }
}

// The line of one entry. It is laid out first, so that a line is one write.
fn print_entry<W: Write>(entry: Entry<Money>, out: &mut W) -> anyhow::Result<()>
    ensures { OnOk result (IsPrinted W.Write out.old out.new (entry_line entry)) }
{
    let gave = Gave { entry };
    let mut line: ArrayVec<u8, LINE> = ArrayVec::new();
    writeln!(line, "{gave}")?;
    print_text(out, line.as_slice())
}

// A line for each entry.
fn print_entries<W: Write>(entries: &[Entry<Money>], out: &mut W) -> anyhow::Result<()>
    ensures { OnOk result (IsPrinted W.Write out.old out.new (entry_lines entries.now)) }
{
    for entry in entries {
        print_entry(*entry, out)?;
    }
    Ok(())
}

// The line that says why a text is no script.
fn print_trouble<W: Write>(trouble: Trouble, out: &mut W) -> anyhow::Result<()>
    ensures { OnOk result (IsPrinted W.Write out.old out.new (trouble_line trouble)) }
{
    let mut line: ArrayVec<u8, LINE> = ArrayVec::new();
    writeln!(line, "{trouble}; nothing was tried")?;
    print_text(out, line.as_slice())
}

// What a plan over a survey gave: the sheet of its run, which is in the first run rows, or why there is none.
fn print_plan<W: Write>(
    alloc: Global,
    survey: &Sealed,
    request: Request,
    run: &[Step],
    gave: Result<Planned<Money>, Refusal>,
    out: &mut W,
) -> anyhow::Result<()>
    requires { ForOk gave (λ p. (p.steps ≤ length run.now) × (p.steps < 2 ^ 32)) }
    ensures { OnOk result (SomePrinted W.Write out.old out.new (IsGivenText survey.now request run.now gave)) }
{
    match gave {
        Ok(planned) => print_sheet(
            alloc,
            out,
            survey,
            request,
            &run[..planned.steps],
            (planned.steps + 2) * 128,
        ),
        Err(refusal) => print_refusal(out, Refused::Call(refusal)),
    }
}

// Tries the listed calls and then the plan, and prints what each gave, where there are rows enough.
fn replay_in<W: Write, Q: PriorityQueue<Charge = Money>>(
    alloc: Global,
    survey: &Sealed,
    entries: &mut [Entry<Money>],
    last: Request,
    memory: &mut Memory<'_, Money, Q>,
    out: &mut W,
) -> anyhow::Result<()>
    requires { RowsCover (length (sealed_contents survey.now).places) (calls_of entries.old) last
        (counts_of Q.PriorityQueue (lent_memory memory.old)) }
    ensures { OnOk result (SomePrinted W.Write out.old out.new
        (IsReplayText (sealed_contents survey.now) (calls_of entries.old) last)) }
{
    let gave = replay_for_money(alloc, survey, entries, last, memory)?;
    print_entries(entries, out)?;
    print_plan(alloc, survey, last, memory.run, gave, out)
}

/// Tries the calls of a script one by one on a job over a survey, for money, and writes what each gave, and then the sheet of
/// the script's last plan, or the line of its refusal, with rows enough for the plan that needs most.
///
/// There is an error only where memory is not had or the writer fails.
pub fn try_script<W: Write>(
    alloc: Global,
    survey: &Sealed,
    mut script: Script,
    out: &mut W,
) -> anyhow::Result<()>
    ensures { OnOk result (SomePrinted W.Write out.old out.new
        (IsReplayText (sealed_contents survey.now) (calls_of script.entries.items) script.last)) }
{
    let count = survey.places() * (script.largest_bound() + 1);
    let mut queue_rows = blank_rows(alloc, count)?;
    let mut rows = OwnedRows::blank(alloc, count)?;
    let mut memory = rows.lend(Heap::over(&mut queue_rows));
    let last = script.last;
    replay_in(
        alloc,
        survey,
        script.entries.as_mut_slice(),
        last,
        &mut memory,
        out,
    )
}

/// Answers a survey file and a text of calls: tries the calls one by one on a job over the survey, for money, and prints what
/// each gave, and then the sheet of the plan that the last line asks for.
///
/// A listed call gets a line: `CLOSED`, `REOPENED`, `PLANNED n STEPS TOTAL t` with the total in cents, or `REFUSED` and a
/// number. The last plan gets the sheet of an optimal path over the ways that are open after the listed calls, or the line
/// of its refusal by its number alone, which is 14, 15 or 17: there are rows enough for every plan, and the page is long
/// enough for every sheet. A survey file that is refused gets the line of its fault with the byte place, and nothing else;
/// and a text that is no script gets a line that says why, and nothing is tried.
///
/// An error comes only where memory is not had or the writer fails. What was written before then stays written.
pub fn answer<W: Write>(alloc: Global, file: &[u8], text: &[u8], out: &mut W) -> anyhow::Result<()>
    ensures { OnOk result (SomePrinted W.Write out.old out.new (IsDeskAnswer file.now text.now)) }
{
    let Some(survey) = survey_in(alloc, out, file)? else {
        return Ok(());
    };
    match read_script_bytes(alloc, text)? {
        Ok(script) => try_script(alloc, &survey, script, out),
        Err(trouble) => print_trouble(trouble, out),
    }
}

#[cfg(test)]
mod tests;
