//! What programs read and print: a request in six bytes, standard input up to a number of bytes, survey files, sheets
//! and refusals.
ghost use Rattle.std.specs.Prelude.{◌≡◌, ℕ, ◌<◌, ◌≤◌, length, drop, IfOk, IfErr, OnOk, OnErr};
ghost use Rattle.std.specs.Io.KnownBytes.{IsAtEnd, Keeps};
ghost use Rattle.std.specs.Option.{option_map};
ghost use Rattle.std.specs.Result.{result_ok};
ghost use Rattle.survey.specs.Sealing.{sealed_contents};
ghost use Rattle.survey_file.specs.Decode.{decode};
ghost use Rattle.survey_file.specs.Fields.{IsFileRefusal};
ghost use Rattle.sheet.specs.Refused.{refusal_text};
ghost use Rattle.sheet.specs.Filling.{Filled};
ghost use Rattle.sheet.specs.Printing.{IsPrinted, SomePrinted, fault_text, Shown};
ghost use Rattle.sheet.specs.Requests.{request_in};

use crate::page::sheet;
use crate::refused::{Refused, refusal_text};
use std::alloc::Global;
use std::io;
use std::io::{Read, Write};
use subject::refusal::{Fault, Refusal};
use subject::run::{Request, Step};
use survey::draft::Draft;
use survey::sealed::Sealed;
use survey_file::reader::FileReader;

/// How many bytes a sheet may have that a program prints.
pub const PAGE: usize = 65536;

// How many bytes are read at once.
const PIECE: usize = 4096;

/// A request from its bytes: start, end and bound, of two bytes each, high byte first.
///
/// Under six bytes it is cut short, and refused like a file, with 1 and place 0. Bytes behind the six are left alone.
pub fn request_in(bytes: &[u8]) -> Result<Request, Fault>
    ensures value { result ≡ request_in bytes.now }
    ensures enough { OnOk result (6 ≤ length bytes.now) }
    ensures refusal { IfErr result (λ f. IsFileRefusal f.refusal) }
{
    let [s0, s1, e0, e1, b0, b1, ..] = bytes else {
        return Err(Fault {
            refusal: Refusal::CutShort,
            place: 0,
        });
    };
    Ok(Request {
        start: u16::from_be_bytes([*s0, *s1]) as usize,
        end: u16::from_be_bytes([*e0, *e1]) as usize,
        bound: u16::from_be_bytes([*b0, *b1]) as usize,
    })
}

// Reads once, to the front of the buffer; how many bytes came.
//
// They come by way of a piece of our own, since a reader may write behind the bytes that it counts.
fn read_piece<R: Read>(source: &mut R, buffer: &mut [u8]) -> io::Result<usize>
    ensures ok { IfOk result (Filled R.Read source.old source.new buffer.old buffer.new) }
    ensures end { IfOk result (λ n. n ≡ 0 → 0 < length buffer.old → IsAtEnd (R.Read.remaining source.new)) }
    ensures err { OnErr result (Keeps (R.Read.remaining source.old) (R.Read.remaining source.new)) }
    ensures unchanged { OnErr result (buffer.new ≡ buffer.old) }
{
    let mut piece = [0u8; PIECE];
    let most = buffer.len().min(PIECE);
    let count = source.read(&mut piece[..most])?;
    buffer[..count].copy_from_slice(&piece[..count]);
    Ok(count)
}

/// Fills the buffer from a reader, as far as that gives bytes; how many came.
///
/// The bytes behind them stay as they were. Where the reader fails, what came before is at the front of the buffer.
pub fn fill<R: Read>(source: &mut R, buffer: &mut [u8]) -> io::Result<usize>
    ensures ok { IfOk result (Filled R.Read source.old source.new buffer.old buffer.new) }
    ensures all { IfOk result (λ n. n < length buffer.old → IsAtEnd (R.Read.remaining source.new)) }
    ensures err { OnErr result ((n : ℕ) × Filled R.Read source.old source.new buffer.old buffer.new n) }
{
    let mut at = 0;
    while at < buffer.len() {
        let count = read_piece(source, &mut buffer[at..])?;
        if count == 0 {
            return Ok(at);
        }
        at += count;
    }
    Ok(at)
}

/// Fills the buffer from standard input, as far as that gives bytes; how many came.
///
/// The bytes behind them stay as they were.
pub fn read_input(rt: &HostRuntime, buffer: &mut [u8]) -> io::Result<usize>
    ensures fits { IfOk result (λ n. n ≤ length buffer.old) }
    ensures behind { IfOk result (λ n. drop n buffer.new ≡ drop n buffer.old) }
{
    fill(&mut rt.stdin(), buffer)
}

/// Prints a text to a writer.
pub fn print_text<W: Write>(out: &mut W, text: &[u8]) -> anyhow::Result<()>
    ensures { OnOk result (IsPrinted W.Write out.old out.new text.now) }
{
    out.write_all(text)?;
    Ok(())
}

/// Prints the line of a refusal: REFUSED, its number and, for a file, the byte place.
pub fn print_refusal<W: Write>(out: &mut W, refused: Refused) -> anyhow::Result<()>
    ensures { OnOk result (IsPrinted W.Write out.old out.new (refusal_text refused)) }
{
    print_text(out, refusal_text(refused).as_bytes())
}

/// The survey of a file, or none where the file is refused: then the line of its fault is printed.
///
/// Memory is taken for a reader and for the survey.
pub fn survey_in<W: Write>(
    alloc: Global,
    out: &mut W,
    file: &[u8],
) -> anyhow::Result<Option<Sealed>>
    ensures survey { IfOk result (λ o. option_map sealed_contents o ≡ result_ok (decode file.now)) }
    ensures printed { OnOk result (IsPrinted W.Write out.old out.new (fault_text (decode file.now))) }
{
    let mut reader = FileReader::new(alloc)?;
    let mut draft = Draft::new(alloc)?;
    match reader.read(file, &mut draft) {
        Ok(()) => Ok(Some(draft.seal())),
        Err(fault) => {
            print_refusal(out, Refused::File(fault))?;
            Ok(None)
        }
    }
}

// Prints the sheet of the steps over a survey, or why there is none, by way of a page that is lent.
#[tactic(auto, using(crate::proofs::Pages::refusal_shown))]
fn print_page<W: Write>(
    out: &mut W,
    survey: &Sealed,
    request: Request,
    steps: &[Step],
    page: &mut [u8],
) -> anyhow::Result<()>
    ensures { OnOk result (SomePrinted W.Write out.old out.new (Shown survey.now request steps.now (length page.old))) }
{
    match sheet(survey, request, steps, page) {
        Ok(length) => print_text(out, &page[..length]),
        Err(refusal) => print_refusal(out, Refused::Call(refusal)),
    }
}

/// Prints the sheet of the steps over a survey, or the line of why there is none.
///
/// A sheet may have `most` bytes, and memory for so many is taken.
pub fn print_sheet<W: Write>(
    alloc: Global,
    out: &mut W,
    survey: &Sealed,
    request: Request,
    steps: &[Step],
    most: usize,
) -> anyhow::Result<()>
    ensures { OnOk result (SomePrinted W.Write out.old out.new (Shown survey.now request steps.now most)) }
{
    let mut page = vec![in alloc; 0u8; most]?;
    print_page(out, survey, request, steps, &mut page)
}

#[cfg(test)]
mod tests {
    use super::*;
    use std::test::Fail;

    // There is memory for a page, and a page that is too short is no error: no steps from a place to itself.
    #[test]
    fn a_sheet_is_printed(rt: HostRuntime) -> Result<(), Fail> {
        let mut draft = Draft::new(rt.alloc())?;
        assert_eq!(rt; draft.add_place(None), Ok(0));
        let survey = draft.seal();
        let request = Request {
            start: 0,
            end: 0,
            bound: 1,
        };
        let mut out = Vec::new(rt.alloc());
        for most in [512, 0] {
            let printed = print_sheet(rt.alloc(), &mut out, &survey, request, &[], most);
            assert!(rt; printed.is_ok());
        }
        assert_eq!(rt;
            out.as_slice(),
            b"RUN 0 0 1\nTOTAL 0\nREFUSED 18\n".as_slice()
        );
        Ok(())
    }

    // There is memory for a survey: a file of one place is read and nothing printed, and one without bytes is refused
    // and its fault printed.
    #[test]
    fn a_survey_is_read(rt: HostRuntime) -> Result<(), Fail> {
        let file = [1, 0, 2, 0, 1, 2, 0, 0, 4, 0, 0];
        let mut out = Vec::new(rt.alloc());
        let read = survey_in(rt.alloc(), &mut out, &file);
        assert!(rt; matches!(read, Ok(Some(_))));
        assert!(rt; out.is_empty());
        let refused = survey_in(rt.alloc(), &mut out, &[]);
        assert!(rt; matches!(refused, Ok(None)));
        assert_eq!(rt; out.as_slice(), b"REFUSED 1 0\n".as_slice());
        Ok(())
    }

    // A buffer is filled with what a reader gives, one read behind the other.
    #[test]
    fn a_buffer_is_filled(rt: HostRuntime) -> Result<(), Fail> {
        let mut source = std::io::Read::chain(&b"abc"[..], &b"defg"[..]);
        let mut buffer = [0u8; 6];
        assert!(rt; matches!(fill(&mut source, &mut buffer), Ok(6)));
        assert_eq!(rt; buffer, *b"abcdef");
        Ok(())
    }
}
