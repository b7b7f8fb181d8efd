//! The line that says why a call or a file was refused.
ghost use Rattle.std.specs.Prelude.{◌≡◌};
ghost use Rattle.survey_file.specs.Pieces.{put_answer, put_bytes};
ghost use Rattle.sheet.specs.Lines.{text_of};
ghost use Rattle.sheet.specs.Refused.{refusal_text};

use crate::text::TextLine;
use subject::refusal::{Fault, Refusal};

/// What was refused: a call, or a survey file or a request in bytes, with the byte place of the fault.
///
/// A place so goes with refusals of a file alone, which have the numbers 1 to 10.
#[derive(Clone, Copy, Debug, PartialEq, Eq)]
pub enum Refused {
    Call(Refusal),
    File(Fault),
}

// REFUSED, the number and, for a file, the byte place.
pub(crate) fn refusal_text(refused: Refused) -> TextLine
    ensures { text_of result ≡ refusal_text refused }
{
    let mut line = TextLine::new();
    line.push(b"REFUSED ");
    match refused {
        Refused::Call(refusal) => line.push_number_then(refusal.code() as u64, b'\n'),
        Refused::File(fault) => {
            line.push_number_then(fault.refusal.code() as u64, b' ');
            line.push_number_then(fault.place as u64, b'\n');
        }
    }
    line
}

/// The line of a refusal, into the front of the bytes, and how long it is: REFUSED, the number and, for a file, the
/// byte place.
///
/// Refused with 18 where the line does not fit, and all bytes stay.
pub fn refusal_line(refused: Refused, out: &mut [u8]) -> Result<usize, Refusal>
    ensures answer { result ≡ put_answer out.old 0 (refusal_text refused) }
    ensures after { out.new ≡ put_bytes out.old 0 (refusal_text refused) }
{
    refusal_text(refused).put_into(out, 0)
}
