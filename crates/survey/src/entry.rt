/// The highest price of a way or a repeater, in cents.
pub const MOST_CENTS: u32 = 1_000_000;

/// A place of a survey.
///
/// It has the price of a repeater there, in cents, or a blank: no repeater can be hung there. A price of 0 is a
/// repeater for nothing.
#[derive(Clone, Copy, Debug, PartialEq, Eq)]
pub struct Place {
    pub repeater: Option<u32>,
}

/// A way of a survey, as it was entered.
///
/// It has the places that it leads from and to, the letter of its cable, the grade to which the work disturbs the
/// house, its metres, and its price in cents.
#[derive(Clone, Copy, Debug, PartialEq, Eq)]
pub struct WayEntry {
    pub from: u16,
    pub to: u16,
    pub letter: char,
    pub grade: u8,
    pub metres: u16,
    pub price: u32,
}
