ghost use Rattle.std.specs.Prelude.{◌≡◌, Some, decimal};
ghost use Rattle.subject.specs.Refusals.{number};

use std::fmt;

/// Why a call says no. Each refusal has a number of its own, which programs print; docs/REFUSALS.md has the table.
#[derive(Clone, Copy, Debug, PartialEq, Eq)]
pub enum Refusal {
    /// a field or a file that is cut short
    CutShort = 1,
    /// a tag that is unknown, or that stands in the wrong phase of the file
    WrongTag = 2,
    /// a length that the tag does not have
    WrongLength = 3,
    /// an edition other than 1
    WrongEdition = 4,
    /// a 257th place or a 1,025th way
    DraftFull = 5,
    /// an end of a way that is no entered place, or both ends at one place
    WrongEnds = 6,
    /// a cable letter other than U, S and F
    WrongLetter = 7,
    /// over 200 metres
    TooLong = 8,
    /// a price over 1,000,000 cents
    TooDear = 9,
    /// bytes behind the end field
    BytesBehind = 10,
    /// a way number that is not below the number of ways
    NoSuchWay = 11,
    /// a way that this job has closed already
    AlreadyClosed = 12,
    /// a way that this job has not closed
    NotClosed = 13,
    /// a start or an end that is not below the number of places
    NoSuchPlace = 14,
    /// a bound of 0, or over 1,000
    WrongBound = 15,
    /// too few rows
    TooFewRows = 16,
    /// no lawful run
    NoRun = 17,
    /// a sheet, a file or a refusal line that does not fit the bytes
    NoRoom = 18,
    /// steps that are no lawful run
    NotLawful = 19,
    /// a side of a grid of 0, or over 64
    WrongSide = 20,
    /// a cell number that is not below the number of rows
    NoSuchCell = 21,
}

/// A refusal that is met in a survey file: why, and how many bytes stand before the field in question.
#[derive(Clone, Copy, Debug, PartialEq, Eq)]
pub struct Fault {
    pub refusal: Refusal,
    pub place: usize,
}

impl Refusal {
    /// The number that a refusal has in print.
    pub fn code(self) -> u8
        ensures { result ≡ number self }
    {
        self as u8
    }
}

/// A refusal is printed as its number.
impl fmt::Display for Refusal {
    ghost output = { λ r. Some (decimal (number r)) };

    fn fmt<W: fmt::Write>(&self, f: &mut fmt::Formatter<W>) -> fmt::Result {
        let code = self.code();
        write!(f, "{code}")
    }
}
