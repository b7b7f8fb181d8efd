// The loss card: how much signal a cable loses, in tenths of a decibel, by its letter and its metres.
ghost use Rattle.std.specs.Prelude.{◌≡◌, ◌*◌, ◌<◌, ◌≤◌, IfOk};
ghost use Rattle.survey.specs.Card.{row_of, loss_per_100_metres, hundredth, loss_of, IsLossOf};

use subject::refusal::Refusal;

/// The longest way, in metres.
pub const MOST_METRES: u16 = 200;

/// What unscreened cable, U, loses per 100 metres, in tenths of a decibel.
pub const U_LOSS: u16 = 220;

/// What screened cable, S, loses per 100 metres, in tenths of a decibel.
pub const S_LOSS: u16 = 90;

/// What fibre, F, loses per 100 metres, in tenths of a decibel.
pub const F_LOSS: u16 = 4;

// Each row has an entry for each number of metres, 0 too.
const ENTRIES: usize = MOST_METRES as usize + 1;

// The rows are U, S and F.
const CARD: [[u16; ENTRIES]; 3] = [
    [
        0, 3, 5, 7, 9, 11, 14, 16, 18, 20, 22, 25, 27, 29, 31, 33, 36, 38, 40, 42, 44, 47, 49, 51,
        53, 55, 58, 60, 62, 64, 66, 69, 71, 73, 75, 77, 80, 82, 84, 86, 88, 91, 93, 95, 97, 99,
        102, 104, 106, 108, 110, 113, 115, 117, 119, 121, 124, 126, 128, 130, 132, 135, 137, 139,
        141, 143, 146, 148, 150, 152, 154, 157, 159, 161, 163, 165, 168, 170, 172, 174, 176, 179,
        181, 183, 185, 187, 190, 192, 194, 196, 198, 201, 203, 205, 207, 209, 212, 214, 216, 218,
        220, 223, 225, 227, 229, 231, 234, 236, 238, 240, 242, 245, 247, 249, 251, 253, 256, 258,
        260, 262, 264, 267, 269, 271, 273, 275, 278, 280, 282, 284, 286, 289, 291, 293, 295, 297,
        300, 302, 304, 306, 308, 311, 313, 315, 317, 319, 322, 324, 326, 328, 330, 333, 335, 337,
        339, 341, 344, 346, 348, 350, 352, 355, 357, 359, 361, 363, 366, 368, 370, 372, 374, 377,
        379, 381, 383, 385, 388, 390, 392, 394, 396, 399, 401, 403, 405, 407, 410, 412, 414, 416,
        418, 421, 423, 425, 427, 429, 432, 434, 436, 438, 440,
    ],
    [
        0, 1, 2, 3, 4, 5, 6, 7, 8, 9, 9, 10, 11, 12, 13, 14, 15, 16, 17, 18, 18, 19, 20, 21, 22,
        23, 24, 25, 26, 27, 27, 28, 29, 30, 31, 32, 33, 34, 35, 36, 36, 37, 38, 39, 40, 41, 42, 43,
        44, 45, 45, 46, 47, 48, 49, 50, 51, 52, 53, 54, 54, 55, 56, 57, 58, 59, 60, 61, 62, 63, 63,
        64, 65, 66, 67, 68, 69, 70, 71, 72, 72, 73, 74, 75, 76, 77, 78, 79, 80, 81, 81, 82, 83, 84,
        85, 86, 87, 88, 89, 90, 90, 91, 92, 93, 94, 95, 96, 97, 98, 99, 99, 100, 101, 102, 103,
        104, 105, 106, 107, 108, 108, 109, 110, 111, 112, 113, 114, 115, 116, 117, 117, 118, 119,
        120, 121, 122, 123, 124, 125, 126, 126, 127, 128, 129, 130, 131, 132, 133, 134, 135, 135,
        136, 137, 138, 139, 140, 141, 142, 143, 144, 144, 145, 146, 147, 148, 149, 150, 151, 152,
        153, 153, 154, 155, 156, 157, 158, 159, 160, 161, 162, 162, 163, 164, 165, 166, 167, 168,
        169, 170, 171, 171, 172, 173, 174, 175, 176, 177, 178, 179, 180, 180,
    ],
    [
        0, 1, 1, 1, 1, 1, 1, 1, 1, 1, 1, 1, 1, 1, 1, 1, 1, 1, 1, 1, 1, 1, 1, 1, 1, 1, 2, 2, 2, 2,
        2, 2, 2, 2, 2, 2, 2, 2, 2, 2, 2, 2, 2, 2, 2, 2, 2, 2, 2, 2, 2, 3, 3, 3, 3, 3, 3, 3, 3, 3,
        3, 3, 3, 3, 3, 3, 3, 3, 3, 3, 3, 3, 3, 3, 3, 3, 4, 4, 4, 4, 4, 4, 4, 4, 4, 4, 4, 4, 4, 4,
        4, 4, 4, 4, 4, 4, 4, 4, 4, 4, 4, 5, 5, 5, 5, 5, 5, 5, 5, 5, 5, 5, 5, 5, 5, 5, 5, 5, 5, 5,
        5, 5, 5, 5, 5, 5, 6, 6, 6, 6, 6, 6, 6, 6, 6, 6, 6, 6, 6, 6, 6, 6, 6, 6, 6, 6, 6, 6, 6, 6,
        6, 7, 7, 7, 7, 7, 7, 7, 7, 7, 7, 7, 7, 7, 7, 7, 7, 7, 7, 7, 7, 7, 7, 7, 7, 7, 8, 8, 8, 8,
        8, 8, 8, 8, 8, 8, 8, 8, 8, 8, 8, 8, 8, 8, 8, 8, 8, 8, 8, 8, 8,
    ],
];

// The entry of a row at some metres.
fn entry(row: usize, metres: u16) -> u16
    requires row { row < 3 }
    requires metres { metres ≤ MOST_METRES }
    ensures { result ≡ hundredth (metres * loss_per_100_metres row) }
{
    CARD[row][metres as usize]
}

/// The row of the loss card for a cable letter: 0 for U, 1 for S, 2 for F.
///
/// Refused with 7 where it is another letter.
pub fn row_of(letter: char) -> Result<usize, Refusal>
    ensures { result ≡ row_of letter }
{
    match letter {
        'U' => Ok(0),
        'S' => Ok(1),
        'F' => Ok(2),
        _ => Err(Refusal::WrongLetter),
    }
}

/// The loss of so many metres of a cable, in tenths of a decibel, rounded up.
///
/// Refused with 7 where the letter is none of U, S and F, or else with 8 where the metres are over 200.
pub fn loss(letter: char, metres: u16) -> Result<u16, Refusal>
    ensures value { result ≡ loss_of letter metres }
    ensures smallest { IfOk result (IsLossOf letter metres) }
{
    let row = row_of(letter)?;
    if metres > MOST_METRES {
        return Err(Refusal::TooLong);
    }
    Ok(entry(row, metres))
}
