ghost use Rattle.std.specs.Prelude.{◌≡◌};
ghost use Rattle.survey_text.specs.Names.{texts};
ghost use Rattle.wendrupi.specs.Places.{place_of_word};

use survey_text::names::{place_numbered, place_of};

/// The place that a word means, by its number: the place of this name, or else the one of this number in digits.
///
/// A number of no place is taken as it stands: a request with it is refused.
pub fn place_of_word(names: &[String], word: &str) -> Option<usize>
    ensures { result ≡ place_of_word (texts names.now) word.now }
{
    match place_of(names, word.as_bytes()) {
        Some(number) => Some(number),
        None => place_numbered(usize::MAX, word.as_bytes()),
    }
}
