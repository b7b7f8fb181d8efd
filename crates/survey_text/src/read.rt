// Reading a whole text.
ghost use Rattle.std.specs.Prelude.{◌≡◌, map, true, Ok, Err, IfOk, IfErr};
ghost use Rattle.csv.specs.Records.{fields_of};
ghost use Rattle.csv.specs.Reading.{default_config, records};
ghost use Rattle.survey_text.specs.Filled.{filled_line};
ghost use Rattle.survey_text.specs.Texts.{word_of, trouble_on, walk, nothing_read, survey_of_text};
ghost use Rattle.survey_text.specs.Texts.{named_contents, Tells};
ghost use Rattle.survey_text.specs.Written.{is_lawful};

use crate::field::{field, first_filled};
use crate::lines::filled_line;
use crate::reader::{Reading, rows_of, without_mark};
use crate::text::SurveyText;
use crate::trouble::{Cause, Column, Trouble};
use crate::word::Word;
use csv::ByteRecord;
use std::alloc::{AllocError, Global};

// The field that a cause speaks of, or nothing.
fn word_of(cause: Cause, row: &ByteRecord) -> &[u8]
    ensures { result.now ≡ word_of cause (fields_of row.now) }
{
    match cause {
        Cause::NoKind => field(row, 0),
        Cause::NotLetter => field(row, Column::Cable.index()),
        Cause::TakenName | Cause::OtherNumber => field(row, Column::Name.index()),
        Cause::NotNumber(column) | Cause::TooLarge(column) | Cause::NoPlace(column) => field(
            row,
            column.index(),
        ),
        Cause::Behind(column) => first_filled(row, column.index() + 1).unwrap_or(&[]),
        _ => &[],
    }
}

// The trouble of the row with this number, which stands on the line with that number among those that are not blank.
fn trouble(
    alloc: Global,
    text: &[u8],
    number: usize,
    row: &ByteRecord,
    cause: Cause,
) -> Result<Trouble, AllocError>
    ensures { IfOk result (λ t. t ≡ trouble_on (filled_line text.now number) (fields_of row.now) cause) }
{
    let line = filled_line(text, number);
    let word = Word::of(alloc, word_of(cause, row))?;
    Ok(Trouble { line, cause, word })
}

// The rows in their order, up to the first trouble.
fn read_rows(
    alloc: Global,
    text: &[u8],
    rows: &[ByteRecord],
) -> Result<Result<SurveyText, Trouble>, AllocError>
    requires { map fields_of rows.now ≡ records default_config text.now }
    ensures { IfOk result (Tells (walk text.now 0 nothing_read (map fields_of rows.now))) }
{
    let mut reading = Reading::new(alloc)?;
    for (number, row) in rows.iter().enumerate() {
        match reading.turn(alloc, row)? {
            Ok(()) => {}
            Err(cause) => return Ok(Err(trouble(alloc, text, number, row, cause)?)),
        }
    }
    Ok(Ok(reading.survey))
}

/// The survey that a text says, with the names of its places, or the first trouble. The names are lawful.
///
/// The outer error is want of memory; over bytes in memory csv's reader gives no other.
pub fn read(alloc: Global, text: &[u8]) -> Result<Result<SurveyText, Trouble>, AllocError>
    ensures ok { IfOk result (λ r. IfOk r (λ s. survey_of_text text.now ≡ Ok (named_contents s))) }
    ensures lawful { IfOk result (λ r. IfOk r (λ s. is_lawful (named_contents s) ≡ true)) }
    ensures err { IfOk result (λ r. IfErr r (λ t. survey_of_text text.now ≡ Err t)) }
{
    let rows = rows_of(alloc, text)?;
    read_rows(alloc, without_mark(text), &rows)
}
