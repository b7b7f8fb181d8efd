// The names of places.
ghost use Rattle.std.specs.Prelude.{◌≡◌, ◌<◌, IfOk, IfSome, ◌&&◌, ◌==◌, not, length, Ok, Err, IfErr, [], true};
ghost use Rattle.std.specs.Prelude.{List};
ghost use Rattle.std.specs.Str.Parse.{digits_value};
ghost use Rattle.survey_text.specs.Fields.{is_number};
ghost use Rattle.survey_text.specs.Names.{number_names, place_named, place_numbered, place_of, end_of};
ghost use Rattle.survey_text.specs.Names.{name_check, name_of, lawful_names, are_names, texts};

use crate::field::{check_text, is_number, value};
use crate::trouble::{Cause, Column};
use std::alloc::{AllocError, Global};
use std::str::from_utf8;

// The place of this name.
fn place_named(names: &[String], word: &[u8]) -> Option<usize>
    ensures place { IfSome result (λ n. n < length names.now) }
    ensures value { result ≡ place_named 0 (texts names.now) word.now }
{
    for (number, name) in names.iter().enumerate() {
        if name.as_bytes() == word {
            return Some(number);
        }
    }
    None
}

/// The place of this number, of so many, where the number is in digits.
pub fn place_numbered(places: usize, word: &[u8]) -> Option<usize>
    ensures place { IfSome result (λ n. n < places) }
    ensures value { result ≡ place_numbered places word.now }
{
    if !is_number(word) {
        return None;
    }
    match value(word, places as u64) {
        Some(number) if number < places as u64 => Some(number as usize),
        _ => None,
    }
}

/// The place that a word means, by its number: the place of this name, or else the one of this number in digits.
pub fn place_of(names: &[String], word: &[u8]) -> Option<usize>
    ensures place { IfSome result (λ n. n < length names.now) }
    ensures value { result ≡ place_of (texts names.now) word.now }
{
    match place_named(names, word) {
        Some(number) => Some(number),
        None => place_numbered(names.len(), word),
    }
}

/// The place at an end of a way.
pub(crate) fn end_of(column: Column, names: &[String], word: &[u8]) -> Result<usize, Cause>
    ensures place { IfOk result (λ n. n < length names.now) }
    ensures value { result ≡ end_of column (texts names.now) word.now }
{
    if word.is_empty() {
        return Err(Cause::Blank(column));
    }
    place_of(names, word).ok_or(Cause::NoPlace(column))
}

// Whether a name is the number of another place than the next, which has this number.
fn is_other_number(next: usize, name: &[u8]) -> bool
    ensures { result ≡ (is_number name.now && not (digits_value 10 name.now == next)) }
{
    if !is_number(name) {
        return false;
    }
    match value(name, next as u64) {
        Some(number) => number != next as u64,
        None => true,
    }
}

// What a name may not be.
fn check_name(names: &[String], name: &[u8]) -> Result<(), Cause>
    ensures { result ≡ name_check (texts names.now) name.now }
{
    if name.is_empty() {
        return Err(Cause::Blank(Column::Name));
    }
    if place_named(names, name).is_some() {
        return Err(Cause::TakenName);
    }
    if is_other_number(names.len(), name) {
        return Err(Cause::OtherNumber);
    }
    Ok(())
}

/// The name of the next place, behind those that have these names.
pub(crate) fn name_of<'a>(names: &[String], field: &'a [u8]) -> Result<&'a str, Cause>
    ensures ok { IfOk result (λ s. name_of (texts names.now) field.now ≡ Ok s.now) }
    ensures err { IfErr result (λ e. name_of (texts names.now) field.now ≡ Err e) }
{
    check_text(field)?;
    check_name(names, field)?;
    match from_utf8(field) {
        Ok(name) => Ok(name),
        Err(_) => Err(Cause::NotText),
    }
}

// Whether each name is one for the next place.
fn are_names(names: &[String]) -> bool
    ensures { result ≡ are_names [] (texts names.now) }
{
    for (number, next) in names.iter().enumerate() {
        match name_of(&names[..number], next.as_bytes()) {
            Ok(_) => {}
            Err(_) => return false,
        }
    }
    true
}

/// Whether these are names for so many places: as many, and each of them a name for its place.
pub fn are_lawful(places: usize, names: &[String]) -> bool
    ensures { result ≡ lawful_names places (texts names.now) }
{
    names.len() == places && are_names(names)
}

/// The numbers of so many places as their names.
pub fn number_names(alloc: Global, places: usize) -> Result<Vec<String>, AllocError>
    ensures value { IfOk result (λ names. texts names.items ≡ number_names 0 places) }
    ensures lawful { IfOk result (λ names. lawful_names places (texts names.items) ≡ true) }
{
    let mut names = Vec::new(alloc);
    for number in 0..places {
        names.push(format!(in alloc; "{number}")?)?;
    }
    Ok(names)
}
