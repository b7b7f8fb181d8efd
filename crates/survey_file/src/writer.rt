ghost use Rattle.std.specs.Prelude.{◌≡◌, ◌+◌, ◌≤◌, length, Ok};
ghost use Rattle.std.specs.List.{All, flat_map};
ghost use Rattle.survey.specs.Sealing.{sealed_contents};
ghost use Rattle.survey_file.specs.Decode.{decode};
ghost use Rattle.survey_file.specs.Encode.{place_field, file_of};
ghost use Rattle.survey_file.specs.Pieces.{put_answer, put_bytes};

use crate::bytes::put;
use crate::entry::Entry;
use subject::refusal::Refusal;
use survey::draft::{MOST_DRAFT_PLACES, MOST_DRAFT_WAYS};
use survey::entry::Place;
use survey::sealed::Sealed;

// How many bytes each field has: the head, a place with no repeater and one with a price, a way, and the end.
const HEAD_LENGTH: usize = 5;

const BLANK_LENGTH: usize = 3;

const PRICE_LENGTH: usize = 7;

const WAY_LENGTH: usize = 15;

const END_LENGTH: usize = 3;

/// How many bytes the longest file has.
pub const LONGEST_FILE: usize = HEAD_LENGTH
    + MOST_DRAFT_PLACES * PRICE_LENGTH
    + MOST_DRAFT_WAYS * WAY_LENGTH
    + END_LENGTH;

// How many bytes the field of a place has.
fn place_length(place: &Place) -> usize
    ensures { result ≡ length (place_field place.now) }
{
    match place.repeater {
        None => BLANK_LENGTH,
        Some(_) => PRICE_LENGTH,
    }
}

/// How many bytes the file of a survey has.
pub fn file_length(survey: &Sealed) -> usize
    ensures value { result ≡ length (file_of (sealed_contents survey.now)) }
    ensures bound { result ≤ LONGEST_FILE }
{
    let mut length = HEAD_LENGTH + END_LENGTH;
    for place in survey.all_places() {
        length += place_length(place);
    }
    length + WAY_LENGTH * survey.ways()
}

// The fields of all entries, one behind the other.
fn put_all<E: Entry>(entries: &[E], out: &mut [u8], start: usize) -> Result<usize, Refusal>
    requires writable { All E.Entry.is_writable entries.now }
    requires room { start + length (flat_map E.Entry.bytes entries.now) ≤ length out.old }
    ensures answer { result ≡ Ok (start + length (flat_map E.Entry.bytes entries.now)) }
    ensures after { out.new ≡ put_bytes out.old start (flat_map E.Entry.bytes entries.now) }
{
    let mut at = start;
    for entry in entries {
        at = entry.put(out, at)?;
    }
    Ok(at)
}

// The file of a survey, at the front of bytes that have room for it.
fn put_file(survey: &Sealed, out: &mut [u8]) -> Result<usize, Refusal>
    requires { length (file_of (sealed_contents survey.now)) ≤ length out.old }
    ensures answer { result ≡ put_answer out.old 0 (file_of (sealed_contents survey.now)) }
    ensures after { out.new ≡ put_bytes out.old 0 (file_of (sealed_contents survey.now)) }
    ensures reads { decode (file_of (sealed_contents survey.now)) ≡ Ok (sealed_contents survey.now) }
{
    let after_head = put(out, 0, &[1, 0, 2, 0, 1])?;
    let after_places = put_all(survey.all_places(), out, after_head)?;
    let after_ways = put_all(survey.all_ways(), out, after_places)?;
    put(out, after_ways, &[4, 0, 0])
}

/// Writes the file of a survey to the front of the bytes; its length.
///
/// The bytes behind it stay. Refused with 18 where the file does not fit, and all bytes stay. What is written reads as
/// the survey.
pub fn write(survey: &Sealed, out: &mut [u8]) -> Result<usize, Refusal>
    ensures answer { result ≡ put_answer out.old 0 (file_of (sealed_contents survey.now)) }
    ensures after { out.new ≡ put_bytes out.old 0 (file_of (sealed_contents survey.now)) }
    ensures reads { decode (file_of (sealed_contents survey.now)) ≡ Ok (sealed_contents survey.now) }
{
    if file_length(survey) > out.len() {
        return Err(Refusal::NoRoom);
    }
    put_file(survey, out)
}
