// Reading a text.
ghost use Rattle.std.specs.Prelude.{◌≡◌, map, true, Some, IfOk};
ghost use Rattle.csv.specs.Reading.{default_config, records, strip_bom, Ready, is_flexible, source_of};
ghost use Rattle.csv.specs.Reading.{reader_config, reader_state, reader_trim};
ghost use Rattle.csv.specs.declared.parser.State.TheVariants as st;
ghost use Rattle.csv.specs.declared.reader.Trim.TheVariants as trim;
ghost use Rattle.csv.specs.Records.{fields_of};

use crate::field::check_row;
use crate::row::{is_heading, says_nothing};
use crate::text::SurveyText;
use crate::trouble::Cause;
use csv::{ByteRecord, ErrorKind, Reader, ReaderBuilder};
use std::alloc::{AllocError, Global};

// A survey that is being read, and whether a row has said something.
#[derive(Drop)]
pub(crate) struct Reading {
    pub survey: SurveyText,
    pub is_begun: bool,
}

// Behind the byte-order mark of a text, if it has one.
pub(crate) fn without_mark(text: &[u8]) -> &[u8]
    ensures { result.now ≡ strip_bom text.now }
{
    match text {
        [first, second, third, rest @ ..] if *first == 0xEF && *second == 0xBB && *third == 0xBF =>
            rest,
        _ => text,
    }
}

// A reader of the rows of a text, which may have any length and follow no header row.
fn row_reader(alloc: Global, text: &[u8]) -> Reader<&[u8]>
    ensures config { reader_config result ≡ default_config }
    ensures trim { reader_trim result ≡ trim.None }
    ensures flexible { is_flexible result ≡ true }
    ensures ready { Ready result }
    ensures state { reader_state result ≡ st.StartRecord }
    ensures source { source_of (λ s. Some s.now) result ≡ Some (strip_bom text.now) }
{
    ReaderBuilder::new()
        .has_headers(false)
        .flexible(true)
        .from_reader(alloc, text)
}

// The rows of a text: its records as CSV.
pub(crate) fn rows_of(alloc: Global, text: &[u8]) -> Result<Vec<ByteRecord>, AllocError>
    ensures { IfOk result (λ rows. map fields_of rows.items ≡ records default_config (strip_bom text.now)) }
{
    let reader = row_reader(alloc, text);
    let mut rows = Vec::new(alloc);
    for row in reader.into_byte_records() {
        match row {
            Ok(row) => rows.push(row)?,
            Err(error) => {
                // Rows may have any length, so nothing but the reader underneath or memory can fail.
                prove!(matches!(error.kind(), ErrorKind::Io(_) | ErrorKind::OutOfMemory));
                return Err(AllocError);
            }
        }
    }
    Ok(rows)
}

impl Reading {
    ghost use Rattle.survey_text.specs.Texts.{progress, nothing_read, turn_of, Does};

    // Nothing is read.
    pub(crate) fn new(alloc: Global) -> Result<Reading, AllocError>
        ensures { IfOk result (λ r. progress r ≡ nothing_read) }
    {
        let survey = SurveyText::new(alloc)?;
        Ok(Reading {
            survey,
            is_begun: false,
        })
    }

    // One row.
    pub(crate) fn turn(
        &mut self,
        alloc: Global,
        row: &ByteRecord,
    ) -> Result<Result<(), Cause>, AllocError>
        ensures { IfOk result (λ r. Does (turn_of (progress self.old) (fields_of row.now)) r (progress self.new)) }
    {
        if let Err(cause) = check_row(row) {
            return Ok(Err(cause));
        }
        if says_nothing(row) {
            return Ok(Ok(()));
        }
        let heads = !self.is_begun && is_heading(row);
        self.is_begun = true;
        if heads {
            return Ok(Ok(()));
        }
        self.survey.enter(alloc, row)
    }
}
