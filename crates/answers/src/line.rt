//! A request and a survey file, answered by the sheet of a cheapest run.
ghost use Rattle.std.specs.Prelude.{IfSome, OnOk, take};
ghost use Rattle.std.specs.Io.KnownBytes.{Consumes};
ghost use Rattle.survey.specs.Sealing.{sealed_contents};
ghost use Rattle.search.specs.Memories.{counts_of, lent_memory};
ghost use Rattle.sheet.specs.Printing.{SomePrinted};
ghost use Rattle.answers.specs.Texts.{FileAnswer, page_bytes};
ghost use Rattle.answers.specs.Plans.{PlanText, IsPlanAnswer};
ghost use Rattle.answers.specs.Line.{line_input, line_rows, IsLineAnswer};

use crate::input::input_from;
use relays::plan_for_money;
use search::memory::Memory;
use search::owned::OwnedRows;
use sheet::print::{PAGE, print_refusal, print_sheet, request_in, survey_in};
use sheet::refused::Refused;
use std::alloc::Global;
use std::io::{Read, Write};
use subject::money::Money;
use subject::queue::PriorityQueue;
use subject::run::Request;
use survey::sealed::Sealed;
use tree_queue::heap::Heap;
use tree_queue::row::blank_rows;

/// How many bytes of input there may be: the request and the longest survey file have 17,166, and with forty more a
/// byte behind such a file is met.
pub const MOST_INPUT: usize = 17206;

/// How many bytes a request has.
pub const REQUEST_LENGTH: usize = 6;

/// How many rows of each sort a plan has: enough for 64 places with losses of 0 to 60.
pub const ROWS: usize = 3904;

// Plans a cheapest run with what is lent, and prints its sheet, or the line of the first refusal.
fn print_plan<W: Write, Q: PriorityQueue<Charge = Money>>(
    alloc: Global,
    survey: &Sealed,
    request: Request,
    memory: &mut Memory<'_, Money, Q>,
    page: usize,
    out: &mut W,
) -> anyhow::Result<()>
    ensures { OnOk result (SomePrinted W.Write out.old out.new
        (PlanText (sealed_contents survey.now) request (counts_of Q.PriorityQueue (lent_memory memory.old)) page)) }
{
    match plan_for_money(survey, request, memory) {
        Ok(planned) => print_sheet(
            alloc,
            out,
            survey,
            request,
            &memory.run[..planned.steps],
            page,
        ),
        Err(refusal) => print_refusal(out, Refused::Call(refusal)),
    }
}

/// Plans a cheapest run over a survey, and prints its sheet, or the line of the first refusal.
///
/// There are `rows` rows of each sort, for which memory is taken, and the sheet may have `page` bytes. Refused are, in
/// this order, a missing start or end with 14, a wrong bound with 15, fewer rows than places × (bound + 1) with 16, a
/// request for which no run is feasible with 17, and a sheet that does not fit with 18. An error comes only where
/// memory is not had or the writer fails.
pub fn answer_plan<W: Write>(
    alloc: Global,
    survey: &Sealed,
    request: Request,
    rows: usize,
    page: usize,
    out: &mut W,
) -> anyhow::Result<()>
    ensures { OnOk result (SomePrinted W.Write out.old out.new
        (IsPlanAnswer (sealed_contents survey.now) request rows page)) }
{
    let mut owned = OwnedRows::blank(alloc, rows)?;
    let mut queue_rows = blank_rows(alloc, rows)?;
    let queue: Heap<'_, Money> = Heap::over(&mut queue_rows);
    print_plan(alloc, survey, request, &mut owned.lend(queue), page, out)
}

// Answers a request for a run over the survey of a file.
fn answer_file<W: Write>(
    alloc: Global,
    request: Request,
    file: &[u8],
    out: &mut W,
) -> anyhow::Result<()>
    ensures { OnOk result (SomePrinted W.Write out.old out.new
        (FileAnswer file.now (λ c. IsPlanAnswer c request line_rows page_bytes))) }
{
    match survey_in(alloc, out, file)? {
        Some(survey) => answer_plan(alloc, &survey, request, ROWS, PAGE, out),
        None => Ok(()),
    }
}

/// Answers a request and, behind it, a survey file: prints the sheet of a cheapest run, or the line of the first
/// refusal.
///
/// A request that is cut short and a fault of the file are printed with the byte place, and what `answer_plan` refuses
/// by number alone. An error comes only where memory is not had or the writer fails.
pub fn answer<W: Write>(alloc: Global, input: &[u8], out: &mut W) -> anyhow::Result<()>
    ensures { OnOk result (SomePrinted W.Write out.old out.new (IsLineAnswer input.now)) }
{
    match request_in(input) {
        Ok(request) => answer_file(alloc, request, &input[REQUEST_LENGTH..], out),
        Err(fault) => print_refusal(out, Refused::File(fault)),
    }
}

/// Reads the input from a reader, and answers it to a writer.
///
/// At most `MOST_INPUT` bytes are read, and answered as `answer` does; what is behind them is left with the reader. An
/// error comes only where memory is not had, or the reader or the writer fails.
pub fn answer_from<R: Read, W: Write>(
    alloc: Global,
    source: &mut R,
    out: &mut W,
) -> anyhow::Result<()>
    ensures answer { IfSome (R.Read.remaining source.old) (λ bytes. OnOk result (SomePrinted W.Write out.old out.new
        (IsLineAnswer (take line_input bytes)))) }
    ensures left { IfSome (R.Read.remaining source.old) (λ bytes. OnOk result
        (Consumes (R.Read.remaining source.old) (R.Read.remaining source.new) (take line_input bytes))) }
{
    let input = input_from(alloc, source, MOST_INPUT)?;
    answer(alloc, &input, out)
}

#[cfg(test)]
mod tests;
