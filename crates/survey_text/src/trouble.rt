// Why a text is no survey: the line, the cause, and the word that the cause speaks of.
ghost use Rattle.std.specs.Prelude.{◌≡◌, Some};
ghost use Rattle.survey_text.specs.Columns.{index};
ghost use Rattle.survey_text.specs.Words.{column_text, refusal_text, trouble_text};

use crate::word::Word;
use std::fmt;
use subject::refusal::Refusal;

/// A field of a row, by the name that docs/SURVEY-TEXT.md gives it.
#[derive(Clone, Copy, Debug, PartialEq, Eq)]
pub enum Column {
    Name,
    Repeater,
    From,
    To,
    Cable,
    Metres,
    Price,
    Grade,
}

/// Why a row is refused.
#[derive(Clone, Copy, Debug, PartialEq, Eq)]
pub enum Cause {
    /// A field is no UTF-8.
    NotText,
    /// A field holds a control character, such as a line break.
    ControlCharacter,
    /// The row begins neither with `place` nor with `way`.
    NoKind,
    /// A field that has to be filled is blank.
    Blank(Column),
    /// A field is no whole number in plain digits.
    NotNumber(Column),
    /// A number is too large for its field.
    TooLarge(Column),
    /// The cable is not one letter.
    NotLetter,
    /// A place of that name is entered already.
    TakenName,
    /// The name is a number, but not the place's own.
    OtherNumber,
    /// No place of that name or number is entered yet.
    NoPlace(Column),
    /// A field behind the last one, which this is, is filled.
    Behind(Column),
    /// The survey refuses the entry.
    Refused(Refusal),
}

/// The first row of a text that is refused: the line on which it begins, from 1, why, and the field in question.
#[derive(Debug, Drop)]
pub struct Trouble {
    pub line: usize,
    pub cause: Cause,
    pub word: Word,
}

impl Column {
    /// The place of the field in its row, from 0.
    pub(crate) fn index(self) -> usize
        ensures { result ≡ index self }
    {
        match self {
            Column::Name | Column::From => 1,
            Column::Repeater | Column::To => 2,
            Column::Cable => 3,
            Column::Metres => 4,
            Column::Price => 5,
            Column::Grade => 6,
        }
    }
}

/// A field is printed by its name, in capitals.
impl fmt::Display for Column {
    ghost output = { λ c. Some (column_text c) };

    fn fmt<W: fmt::Write>(&self, f: &mut fmt::Formatter<W>) -> fmt::Result {
        match self {
            Column::Name => f.write_str("NAME"),
            Column::Repeater => f.write_str("REPEATER"),
            Column::From => f.write_str("FROM"),
            Column::To => f.write_str("TO"),
            Column::Cable => f.write_str("CABLE"),
            Column::Metres => f.write_str("METRES"),
            Column::Price => f.write_str("PRICE"),
            Column::Grade => f.write_str("GRADE"),
        }
    }
}

// What a draft refuses, in words.
fn refusal_words(refusal: Refusal) -> &'static str
    ensures { result.now ≡ refusal_text refusal }
{
    match refusal {
        Refusal::DraftFull => "a survey has at most 256 places and 1,024 ways",
        Refusal::WrongEnds => "a way leads from a place to another",
        Refusal::WrongLetter => "the cable is not U, S or F",
        Refusal::TooLong => "over 200 metres",
        Refusal::TooDear => "a price over 1,000,000 cents",
        _ => "no entry of a survey",
    }
}

impl std::error::Error for Trouble {}

/// A trouble is printed as its line and its cause, in words.
impl fmt::Display for Trouble {
    ghost output = { λ t. Some (trouble_text t) };

    fn fmt<W: fmt::Write>(&self, f: &mut fmt::Formatter<W>) -> fmt::Result {
        let line = self.line;
        let word = &self.word;
        match self.cause {
            Cause::NotText => write!(f, "line {line}: a field is no UTF-8 text"),
            Cause::ControlCharacter => {
                write!(
                    f,
                    "line {line}: a field holds a control character, such as a line break"
                )
            }
            Cause::NoKind => write!(
                f,
                "line {line}: the row begins with \"{word}\", not with place or way"
            ),
            Cause::Blank(column) => write!(f, "line {line}: {column} is blank"),
            Cause::NotNumber(column) => write!(
                f,
                "line {line}: {column} is \"{word}\", not a whole number"
            ),
            Cause::TooLarge(column) => write!(f, "line {line}: {column} is \"{word}\", too large"),
            Cause::NotLetter => write!(
                f,
                "line {line}: CABLE is \"{word}\", not one of the letters U, S and F"
            ),
            Cause::TakenName => write!(f, "line {line}: there is a place \"{word}\" already"),
            Cause::OtherNumber => write!(
                f,
                "line {line}: the name \"{word}\" is the number of another place"
            ),
            Cause::NoPlace(_) => write!(f, "line {line}: there is no place \"{word}\""),
            Cause::Behind(column) => write!(
                f,
                "line {line}: \"{word}\" stands behind {column}, the last field"
            ),
            Cause::Refused(refusal) => {
                let words = refusal_words(refusal);
                write!(f, "line {line}: REFUSED {refusal}: {words}")
            }
        }
    }
}
