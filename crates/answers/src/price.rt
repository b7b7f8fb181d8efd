//! A run that was drawn by hand, answered by its sheet.
ghost use Rattle.std.specs.Prelude.{◌≡◌, length, take, IfNone, IfOk, IfSome, OnOk};
ghost use Rattle.std.specs.Io.KnownBytes.{Consumes};
ghost use Rattle.sheet.specs.Printing.{SomePrinted};
ghost use Rattle.answers.specs.Texts.{FileAnswer, page_bytes};
ghost use Rattle.answers.specs.Price.{steps_in, IsCutShort, IsPartsOf, IsStepsAnswer, IsPriceAnswer, price_input};

use crate::input::input_from;
use crate::line::REQUEST_LENGTH;
use sheet::print::{PAGE, print_refusal, print_sheet, request_in, survey_in};
use sheet::refused::Refused;
use std::alloc::{AllocError, Global};
use std::io::{Read, Write};
use subject::refusal::{Fault, Refusal};
use subject::run::{Request, Step};
use survey_file::writer::LONGEST_FILE;

/// Where the steps begin: behind the request and their number in two bytes.
pub const STEPS_START: usize = REQUEST_LENGTH + 2;

/// How many bytes a step has: the way in two, high byte first, and one that is 1 for a mark.
pub const STEP_LENGTH: usize = 3;

/// How many bytes of input there may be: those of the most steps and of the longest survey file, and one more, so that
/// a byte behind such a file is met.
pub const MOST_INPUT: usize = STEPS_START + 65535 * STEP_LENGTH + LONGEST_FILE + 1;

// The input in its parts: the request, the bytes of the steps, and the survey file.
#[derive(Clone, Copy)]
struct Parts<'a> {
    request: Request,
    steps: &'a [u8],
    file: &'a [u8],
}

// The parts of an input; none where it ends before the survey file begins.
fn parts_of(input: &[u8]) -> Option<Parts<'_>>
    ensures some { IfSome result (λ p. IsPartsOf input.now p.request p.steps.now p.file.now) }
    ensures none { IfNone result (IsCutShort input.now) }
{
    let request = request_in(input).ok()?;
    let [_, _, _, _, _, _, high, low, rest @ ..] = input else {
        return None;
    };
    let count = u16::from_be_bytes([*high, *low]) as usize;
    let (steps, file) = rest.split_at_checked(STEP_LENGTH * count)?;
    Some(Parts {
        request,
        steps,
        file,
    })
}

// The steps in the bytes.
fn read_steps(alloc: Global, bytes: &[u8]) -> Result<Vec<Step>, AllocError>
    ensures { IfOk result (λ steps. steps.items ≡ steps_in bytes.now) }
{
    let mut steps = Vec::new(alloc);
    let mut rest = bytes;
    while let [high, low, mark, behind @ ..] = rest {
        steps.push(Step {
            way: u16::from_be_bytes([*high, *low]) as usize,
            mark: *mark == 1,
        })?;
        rest = behind;
    }
    Ok(steps)
}

// Prices the steps over the survey of the file.
fn answer_parts<W: Write>(alloc: Global, parts: &Parts<'_>, out: &mut W) -> anyhow::Result<()>
    ensures { OnOk result (SomePrinted W.Write out.old out.new
        (FileAnswer parts.now.file.now
        (λ c. IsStepsAnswer c parts.now.request (steps_in parts.now.steps.now) page_bytes))) }
{
    let steps = read_steps(alloc, parts.steps)?;
    match survey_in(alloc, out, parts.file)? {
        Some(survey) => print_sheet(alloc, out, &survey, parts.request, &steps, PAGE),
        None => Ok(()),
    }
}

/// Prices steps over a survey: prints the sheet of just these steps, or the line of the first refusal.
///
/// The input is a request, the number of the steps in two bytes, high byte first, the steps, and a survey file. Where
/// it ends before the file begins, it is refused like a file that is cut short at its start. A fault of the file is
/// printed with the byte place; by number alone are refused a missing start or end with 14, a wrong bound with 15,
/// steps that are no lawful run for money with 19, and a sheet over 65,536 bytes with 18. An error comes only where
/// memory is not had or the writer fails.
pub fn answer<W: Write>(alloc: Global, input: &[u8], out: &mut W) -> anyhow::Result<()>
    ensures { OnOk result (SomePrinted W.Write out.old out.new (IsPriceAnswer input.now)) }
{
    match parts_of(input) {
        Some(parts) => answer_parts(alloc, &parts, out),
        None => print_refusal(
            out,
            Refused::File(Fault {
                refusal: Refusal::CutShort,
                place: 0,
            }),
        ),
    }
}

/// Reads the input from a reader, and answers it to a writer.
///
/// At most `MOST_INPUT` bytes are read, and answered as `answer` does; what is behind them is left with the reader. An
/// error comes only where memory is not had, or the reader or the writer fails.
pub fn answer_from<R: Read, W: Write>(
    alloc: Global,
    source: &mut R,
    out: &mut W,
) -> anyhow::Result<()>
    ensures answer { IfSome (R.Read.remaining source.old) (λ bytes. OnOk result (SomePrinted W.Write out.old out.new
        (IsPriceAnswer (take price_input bytes)))) }
    ensures left { IfSome (R.Read.remaining source.old) (λ bytes. OnOk result
        (Consumes (R.Read.remaining source.old) (R.Read.remaining source.new) (take price_input bytes))) }
{
    let input = input_from(alloc, source, MOST_INPUT)?;
    answer(alloc, &input, out)
}

#[cfg(test)]
mod tests {
    use super::*;
    use crate::failing::Failing;
    use std::test::Fail;

    // A request for a run from the place 0 to 1, a step over the way 0, and a file of these two places and that way.
    const INPUT: [u8; 40] = [
        0, 0, 0, 1, 0, 35, 0, 1, 0, 0, 0, 1, 0, 2, 0, 1, 2, 0, 0, 2, 0, 0, 3, 0, 12, 0, 0, 0, 1,
        85, 1, 0, 10, 0, 0, 1, 44, 4, 0, 0,
    ];

    const SHEET: &[u8] = b"RUN 0 1 35\n0 0 1 22 -\nTOTAL 300\n";

    #[test]
    fn a_sheet_is_printed(rt: HostRuntime) -> Result<(), Fail> {
        let mut out = Vec::new(rt.alloc());
        assert!(rt; answer(rt.alloc(), &INPUT, &mut out).is_ok());
        assert_eq!(rt; out.as_slice(), SHEET);
        Ok(())
    }

    // The input is read from a reader, in which it comes in two pieces.
    #[test]
    fn a_reader_is_answered(rt: HostRuntime) -> Result<(), Fail> {
        let mut source = std::io::Read::chain(&INPUT[..9], &INPUT[9..]);
        let mut out = Vec::new(rt.alloc());
        assert!(rt; answer_from(rt.alloc(), &mut source, &mut out).is_ok());
        assert_eq!(rt; out.as_slice(), SHEET);
        Ok(())
    }

    // There are fewer bytes than eleven steps have.
    #[test]
    fn steps_are_cut_short(rt: HostRuntime) -> Result<(), Fail> {
        let mut input = INPUT;
        input[7] = 11;
        let mut out = Vec::new(rt.alloc());
        assert!(rt; answer(rt.alloc(), &input, &mut out).is_ok());
        assert_eq!(rt; out.as_slice(), b"REFUSED 1 0\n".as_slice());
        Ok(())
    }

    // Wherever the writer fails, the call fails, and the front of the sheet was written.
    #[test]
    fn a_writer_fails(rt: HostRuntime) -> Result<(), Fail> {
        for room in 0..SHEET.len() {
            let mut out = Failing {
                taken: Vec::new(rt.alloc()),
                room,
            };
            assert!(rt; answer(rt.alloc(), &INPUT, &mut out).is_err());
            assert_eq!(rt; out.taken.as_slice(), &SHEET[..room]);
        }
        Ok(())
    }
}
