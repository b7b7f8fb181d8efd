//! The lines of a sheet.
ghost use Rattle.std.specs.Prelude.{◌≡◌};
ghost use Rattle.sheet.specs.Lines.{text_of};
ghost use Rattle.sheet.specs.Sheet.{run_line, mark_end, step_line, total_line};

use crate::text::TextLine;
use subject::money::Money;
use subject::run::Request;

// The first line: RUN, start, end and bound.
pub(crate) fn run_line(request: Request) -> TextLine
    ensures { text_of result ≡ run_line request }
{
    let mut line = TextLine::new();
    line.push(b"RUN ");
    line.push_number_then(request.start as u64, b' ');
    line.push_number_then(request.end as u64, b' ');
    line.push_number_then(request.bound as u64, b'\n');
    line
}

// The line of a step: way, from, to, loss on arrival, and R for a repeater or -.
pub(crate) fn step_line(way: usize, from: usize, to: usize, loss: usize, mark: bool) -> TextLine
    ensures { text_of result ≡ step_line way from to loss mark }
{
    let mut line = TextLine::new();
    line.push_number_then(way as u64, b' ');
    line.push_number_then(from as u64, b' ');
    line.push_number_then(to as u64, b' ');
    line.push_number_then(loss as u64, b' ');
    line.push(mark_end(mark));
    line
}

// The end of a step's line.
fn mark_end(mark: bool) -> &'static [u8]
    ensures { result.now ≡ mark_end mark }
{
    if mark { b"R\n" } else { b"-\n" }
}

// The last line: TOTAL and the money total.
pub(crate) fn total_line(total: Money) -> TextLine
    ensures { text_of result ≡ total_line total }
{
    let mut line = TextLine::new();
    line.push(b"TOTAL ");
    line.push_number_then(total.amount(), b'\n');
    line
}
