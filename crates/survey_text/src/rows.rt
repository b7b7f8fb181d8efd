// The rows that are written of a survey, and their text.
ghost use Rattle.std.specs.Prelude.{◌≡◌, ◌++◌, map, IfOk, OnOk};
ghost use Rattle.csv.specs.Records.{fields_of};
ghost use Rattle.survey_text.specs.Fields.{field};
ghost use Rattle.survey_text.specs.Names.{texts};
ghost use Rattle.survey_text.specs.Written.{heading, place_fields, way_fields, place_rows, survey_rows};
ghost use Rattle.survey_text.specs.Written.{rows_text, rows_in, with_names};

use csv::{ByteRecord, WriterBuilder};
use std::alloc::{AllocError, Global};
use survey::entry::{Place, WayEntry};
use survey::sealed::Sealed;

// The heading.
fn heading_row(alloc: Global) -> Result<ByteRecord, AllocError>
    ensures { IfOk result (λ r. fields_of r ≡ heading) }
{
    ByteRecord::from_fields(
        alloc,
        &[
            b"place".as_slice(),
            b"name".as_slice(),
            b"repeater".as_slice(),
        ],
    )
}

// The name of a place, or nothing where it has none.
fn name_at(names: &[String], place: usize) -> &str
    ensures { result.now ≡ field (texts names.now) place }
{
    match names.get(place) {
        Some(name) => name.as_str(),
        None => "",
    }
}

// The row of a place.
fn place_row(alloc: Global, name: &str, repeater: Option<u32>) -> Result<ByteRecord, AllocError>
    ensures { IfOk result (λ r. fields_of r ≡ place_fields name.now repeater) }
{
    let kind = b"place".as_slice();
    match repeater {
        None => ByteRecord::from_fields(alloc, &[kind, name.as_bytes()]),
        Some(price) => {
            let price = format!(in alloc; "{price}")?;
            ByteRecord::from_fields(alloc, &[kind, name.as_bytes(), price.as_bytes()])
        }
    }
}

// The row of a way.
fn way_row(alloc: Global, names: &[String], way: &WayEntry) -> Result<ByteRecord, AllocError>
    ensures { IfOk result (λ r. fields_of r ≡ way_fields (texts names.now) way.now) }
{
    let WayEntry {
        from,
        to,
        letter,
        grade,
        metres,
        price,
    } = *way;
    let letter = format!(in alloc; "{letter}")?;
    let metres = format!(in alloc; "{metres}")?;
    let price = format!(in alloc; "{price}")?;
    let grade = format!(in alloc; "{grade}")?;
    ByteRecord::from_fields(
        alloc,
        &[
            b"way".as_slice(),
            name_at(names, from as usize).as_bytes(),
            name_at(names, to as usize).as_bytes(),
            letter.as_bytes(),
            metres.as_bytes(),
            price.as_bytes(),
            grade.as_bytes(),
        ],
    )
}

// The rows of places, behind other rows.
fn push_places(
    alloc: Global,
    names: &[String],
    places: &[Place],
    rows: &mut Vec<ByteRecord>,
) -> Result<(), AllocError>
    ensures { OnOk result (rows_in rows.new ≡ rows_in rows.old ++ place_rows (texts names.now) 0 places.now) }
{
    for (number, place) in places.iter().enumerate() {
        rows.push(place_row(alloc, name_at(names, number), place.repeater)?)?;
    }
    Ok(())
}

// The rows of ways, behind other rows.
fn push_ways(
    alloc: Global,
    names: &[String],
    ways: &[WayEntry],
    rows: &mut Vec<ByteRecord>,
) -> Result<(), AllocError>
    ensures { OnOk result (rows_in rows.new ≡ rows_in rows.old ++ map (way_fields (texts names.now)) ways.now) }
{
    for way in ways {
        rows.push(way_row(alloc, names, way)?)?;
    }
    Ok(())
}

/// All rows of a survey.
pub(crate) fn survey_rows(
    alloc: Global,
    survey: &Sealed,
    names: &[String],
) -> Result<Vec<ByteRecord>, AllocError>
    ensures { IfOk result (λ rows. rows_in rows ≡ survey_rows (with_names survey.now names.now)) }
{
    let mut rows = Vec::new(alloc);
    rows.push(heading_row(alloc)?)?;
    push_places(alloc, names, survey.all_places(), &mut rows)?;
    push_ways(alloc, names, survey.all_ways(), &mut rows)?;
    Ok(rows)
}

/// The text of rows, of any lengths.
pub(crate) fn rows_text(alloc: Global, rows: &[ByteRecord]) -> Result<Vec<u8>, AllocError>
    ensures { IfOk result (λ text. text.items ≡ rows_text (map fields_of rows.now)) }
{
    let mut writer = WriterBuilder::new()
        .flexible(true)
        .from_writer(Vec::new(alloc));
    for row in rows {
        match writer.write_byte_record(row) {
            Ok(()) => {}
            Err(_) => return Err(AllocError),
        }
    }
    match writer.into_inner() {
        Ok(text) => Ok(text),
        Err(_) => Err(AllocError),
    }
}
