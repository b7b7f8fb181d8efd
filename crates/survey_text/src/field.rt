// The fields of a row.
ghost use Rattle.std.specs.Prelude.{◌≡◌, ◌≤◌, ◌^◌, ◌<◌, true, cond, is_some, IfOk, Ok, Err, nat_le, option_map};
ghost use Rattle.std.specs.Prelude.{drop};
ghost use Rattle.std.specs.Char.{is_ascii_digit};
ghost use Rattle.std.specs.List.{list_all, list_any};
ghost use Rattle.std.specs.Str.{is_utf8};
ghost use Rattle.std.specs.Str.Parse.{digits_value};
ghost use Rattle.csv.specs.Records.{fields_of};
ghost use Rattle.survey_text.specs.Fields.{field, first_filled, is_control, text_check, row_check, is_number};
ghost use Rattle.survey_text.specs.Fields.{number_of, repeater_of, letter_of, end_check};
ghost use Rattle.survey_text.specs.declared.trouble.Cause.TheVariants.{TooLarge};

use crate::trouble::{Cause, Column};
use csv::ByteRecord;
use std::str::from_utf8;

/// A field by its place; what a row does not have is blank.
pub(crate) fn field(row: &ByteRecord, place: usize) -> &[u8]
    ensures { result.now ≡ field (fields_of row.now) place }
{
    match row.get(place) {
        Some(field) => field,
        None => &[],
    }
}

/// The first field, from a place on, that is not blank.
pub(crate) fn first_filled(row: &ByteRecord, start: usize) -> Option<&[u8]>
    ensures { option_map (λ f. f.now) result ≡ first_filled (drop start (fields_of row.now)) }
{
    for place in start..row.len() {
        let field = field(row, place);
        if !field.is_empty() {
            return Some(field);
        }
    }
    None
}

// Whether a field is UTF-8.
fn is_text(field: &[u8]) -> bool
    ensures { result ≡ is_utf8 field.now }
{
    from_utf8(field).is_ok()
}

// Whether a field holds a control character.
fn has_control(field: &[u8]) -> bool
    ensures { result ≡ list_any is_control field.now }
{
    field.iter().any(|byte| *byte < 32 || *byte == 127)
}

/// A field has to be UTF-8 with no control character.
pub(crate) fn check_text(field: &[u8]) -> Result<(), Cause>
    ensures { result ≡ text_check field.now }
{
    if !is_text(field) {
        return Err(Cause::NotText);
    }
    if has_control(field) {
        return Err(Cause::ControlCharacter);
    }
    Ok(())
}

/// Each field of a row has to be such a text.
pub(crate) fn check_row(row: &ByteRecord) -> Result<(), Cause>
    ensures { result ≡ row_check (fields_of row.now) }
{
    for place in 0..row.len() {
        check_text(field(row, place))?;
    }
    Ok(())
}

// Whether all bytes of a field are digits.
fn is_digits(field: &[u8]) -> bool
    ensures { result ≡ list_all is_ascii_digit field.now }
{
    field.iter().all(|byte| byte.is_ascii_digit())
}

/// Whether a field is one digit or more, and nothing else.
pub(crate) fn is_number(field: &[u8]) -> bool
    ensures { result ≡ is_number field.now }
{
    !field.is_empty() && is_digits(field)
}

// The number that digits write, if it is at most `most`.
pub(crate) fn value(digits: &[u8], most: u64) -> Option<u64>
    requires { list_all is_ascii_digit digits.now ≡ true }
    ensures { result ≡ cond (nat_le (digits_value 10 digits.now) most) (Some (digits_value 10 digits.now)) None }
{
    let mut value: u128 = 0;
    let mut rest = digits;
    while let [digit, others @ ..] = rest {
        value = value * 10 + u128::from(*digit - b'0');
        if value > u128::from(most) {
            return None;
        }
        rest = others;
    }
    Some(value as u64)
}

/// The number that a field writes, of at most `most`.
pub(crate) fn number(column: Column, most: u64, field: &[u8]) -> Result<u64, Cause>
    ensures value { result ≡ number_of column most field.now }
    ensures low { IfOk result (λ n. n ≤ most) }
{
    if field.is_empty() {
        return Err(Cause::Blank(column));
    }
    if !is_number(field) {
        return Err(Cause::NotNumber(column));
    }
    match value(field, most) {
        Some(number) => Ok(number),
        None => Err(Cause::TooLarge(column)),
    }
}

/// The price of a repeater; a blank is no repeater.
pub(crate) fn repeater(column: Column, field: &[u8]) -> Result<Option<u32>, Cause>
    ensures { result ≡ repeater_of column field.now }
{
    if field.is_empty() {
        return Ok(None);
    }
    let price = number(column, 4_294_967_295, field)?;
    Ok(Some(price as u32))
}

/// The letter of a cable, a field of one byte.
pub(crate) fn letter(field: &[u8]) -> Result<char, Cause>
    ensures { result ≡ letter_of field.now }
{
    match field {
        [] => Err(Cause::Blank(Column::Cable)),
        [letter] => Ok(char::from(*letter)),
        _ => Err(Cause::NotLetter),
    }
}

/// Nothing may stand behind the last field of a row.
pub(crate) fn check_end(last: Column, row: &ByteRecord) -> Result<(), Cause>
    ensures { result ≡ end_check last (fields_of row.now) }
{
    match first_filled(row, last.index() + 1) {
        None => Ok(()),
        Some(_) => Err(Cause::Behind(last)),
    }
}
