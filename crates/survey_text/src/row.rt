// What the rows of a text say, and what they enter.
ghost use Rattle.std.specs.Prelude.{◌≡◌, ◌≤◌, length, Ok, Err, IfOk, IfErr};
ghost use Rattle.csv.specs.Records.{fields_of};
ghost use Rattle.survey_text.specs.Columns.{index};
ghost use Rattle.survey_text.specs.Fields.{field, number_of};
ghost use Rattle.survey_text.specs.Names.{texts, end_of};
ghost use Rattle.survey_text.specs.Texts.{place_in_row, way_in_row, enter_place, enter_way, enter_row};
ghost use Rattle.survey_text.specs.Texts.{says_nothing, is_heading, Enters};

use crate::field::{check_end, field, first_filled, letter, number, repeater};
use crate::names::{end_of as place_at_end, name_of};
use crate::text::SurveyText;
use crate::trouble::{Cause, Column};
use csv::ByteRecord;
use std::alloc::{AllocError, Global};
use survey::entry::WayEntry;

// A row of a place.
#[derive(Drop)]
struct PlaceRow<'a> {
    name: &'a str,
    repeater: Option<u32>,
}

// What a row of a place says.
fn place_row<'a>(names: &[String], row: &'a ByteRecord) -> Result<PlaceRow<'a>, Cause>
    ensures ok { IfOk result (λ p. place_in_row (texts names.now) (fields_of row.now)
        ≡ Ok (record { name = p.name.now; repeater = p.repeater })) }
    ensures err { IfErr result (λ e. place_in_row (texts names.now) (fields_of row.now) ≡ Err e) }
{
    let name = name_of(names, field(row, Column::Name.index()))?;
    let repeater = repeater(Column::Repeater, field(row, Column::Repeater.index()))?;
    check_end(Column::Repeater, row)?;
    Ok(PlaceRow { name, repeater })
}

// A number of a row.
fn number_in(row: &ByteRecord, column: Column, most: u64) -> Result<u64, Cause>
    ensures value { result ≡ number_of column most (field (fields_of row.now) (index column)) }
    ensures low { IfOk result (λ n. n ≤ most) }
{
    number(column, most, field(row, column.index()))
}

// An end of a way.
fn end_in(row: &ByteRecord, column: Column, names: &[String]) -> Result<u16, Cause>
    requires { length names.now ≤ 256 }
    ensures { result ≡ end_of column (texts names.now) (field (fields_of row.now) (index column)) }
{
    let place = place_at_end(column, names, field(row, column.index()))?;
    Ok(place as u16)
}

// What a row of a way says.
fn way_row(names: &[String], row: &ByteRecord) -> Result<WayEntry, Cause>
    requires { length names.now ≤ 256 }
    ensures { result ≡ way_in_row (texts names.now) (fields_of row.now) }
{
    let from = end_in(row, Column::From, names)?;
    let to = end_in(row, Column::To, names)?;
    let letter = letter(field(row, Column::Cable.index()))?;
    let metres = number_in(row, Column::Metres, 65_535)? as u16;
    let price = number_in(row, Column::Price, 4_294_967_295)? as u32;
    let grade = number_in(row, Column::Grade, 255)? as u8;
    check_end(Column::Grade, row)?;
    Ok(WayEntry {
        from,
        to,
        letter,
        grade,
        metres,
        price,
    })
}

impl SurveyText {
    // Enters the place of a row.
    fn enter_place(
        &mut self,
        alloc: Global,
        row: &ByteRecord,
    ) -> Result<Result<(), Cause>, AllocError>
        ensures { IfOk result (λ r. Enters enter_place self.old row.now r self.new) }
    {
        let place = match place_row(&self.names, row) {
            Ok(place) => place,
            Err(cause) => return Ok(Err(cause)),
        };
        let name = String::from_str(alloc, place.name)?;
        self.names.reserve(1)?;
        if let Err(refusal) = self.draft.add_place(place.repeater) {
            return Ok(Err(Cause::Refused(refusal)));
        }
        self.names.push_reserved(name);
        Ok(Ok(()))
    }

    // Enters the way of a row.
    fn enter_way(&mut self, row: &ByteRecord) -> Result<(), Cause>
        ensures { Enters enter_way self.old row.now result self.new }
    {
        let way = way_row(&self.names, row)?;
        match self.draft.add_way(way) {
            Ok(_) => Ok(()),
            Err(refusal) => Err(Cause::Refused(refusal)),
        }
    }

    /// Enters what a row says.
    pub(crate) fn enter(
        &mut self,
        alloc: Global,
        row: &ByteRecord,
    ) -> Result<Result<(), Cause>, AllocError>
        ensures { IfOk result (λ r. Enters enter_row self.old row.now r self.new) }
    {
        match field(row, 0) {
            b"place" => self.enter_place(alloc, row),
            b"way" => Ok(self.enter_way(row)),
            _ => Ok(Err(Cause::NoKind)),
        }
    }
}

/// Whether a row is blank or a remark.
pub(crate) fn says_nothing(row: &ByteRecord) -> bool
    ensures { result ≡ says_nothing (fields_of row.now) }
{
    first_filled(row, 0).is_none() || field(row, 0).first() == Some(&b'#')
}

/// Whether a row begins as the heading does.
pub(crate) fn is_heading(row: &ByteRecord) -> bool
    ensures { result ≡ is_heading (fields_of row.now) }
{
    field(row, 0) == b"place".as_slice() && field(row, 1) == b"name".as_slice()
}
