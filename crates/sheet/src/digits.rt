//! Numbers in decimal.
ghost use Rattle.std.specs.Prelude.{◌≡◌, decimal};
ghost use Rattle.survey_file.specs.Pieces.{put_answer, put_bytes};
ghost use Rattle.sheet.specs.Decimals.{IsPlainDecimal};
ghost use Rattle.sheet.specs.Lines.{text_of};

use crate::text::TextLine;
use subject::refusal::Refusal;

/// A number in decimal, into the front of the bytes, and how many digits it has.
///
/// There is no zero in front but for the number zero, which is a single 0, and the digits read as the number again.
/// Refused with 18 where the digits do not fit, and all bytes stay.
pub fn put_decimal(n: u64, out: &mut [u8]) -> Result<usize, Refusal>
    ensures answer { result ≡ put_answer out.old 0 (decimal n) }
    ensures after { out.new ≡ put_bytes out.old 0 (decimal n) }
    ensures plain { IsPlainDecimal n }
{
    decimal_line(n).put_into(out, 0)
}

// The digits of n, as a line of their own.
fn decimal_line(n: u64) -> TextLine
    ensures text { text_of result ≡ decimal n }
    ensures plain { IsPlainDecimal n }
{
    let mut line = TextLine::new();
    line.push_number(n);
    line
}
