ghost use Rattle.std.specs.Prelude.{◌≡◌, ℕ, ◌+◌, ◌*◌, ◌%◌, ◌<◌, ◌≤◌, ◌↔◌, IsTrue, IfOk, IfErr, IsOk};
ghost use Rattle.subject.specs.declared.refusal.Refusal.TheVariants.{WrongSide};
ghost use Rattle.subject.specs.declared.site.TheConstants.{MOST_LOSS};
ghost use Rattle.grid.specs.declared.grid.TheConstants.{MOST_SIDE};
ghost use Rattle.grid.specs.Floor.{IsSide, floor, number_of, neighbour};

use subject::charge::Charge;
use subject::refusal::Refusal;
use subject::site::Site;
use subject::way::Way;

/// The most places that a side of a grid has.
pub const MOST_SIDE: usize = 64;

/// A floor of rows and columns of places, each joined to those right beside it.
///
/// The place in a row and a column has the number row × columns + column. From the place p the ways 4 × p, 4 × p + 1,
/// 4 × p + 2 and 4 × p + 3 go right, left, down and up; a way that would leave the floor is shut. All ways charge and
/// lose the same, and a repeater is charged the same at every place, or can be hung at none.
#[derive(Drop)]
pub struct FloorGrid<C> {
    rows: usize,
    columns: usize,
    charge: C,
    loss: u16,
    repeater: Option<C>,
    ghost some_rows: { 0 < rows },
    ghost few_rows: { rows ≤ MOST_SIDE },
    ghost some_columns: { 0 < columns },
    ghost few_columns: { columns ≤ MOST_SIDE },
    ghost small_loss: { loss ≤ MOST_LOSS },
}

// Where a way leads from its place.
#[derive(Clone, Copy)]
enum Direction {
    Right,
    Left,
    Down,
    Up,
}

// The direction of a way, by its number: the four in turn.
fn direction_of(way: usize) -> Direction
    ensures { number_of result ≡ way % 4 }
{
    match way % 4 {
        0 => Direction::Right,
        1 => Direction::Left,
        2 => Direction::Down,
        _ => Direction::Up,
    }
}

// Whether a grid can have a side of so many places.
fn is_side(side: usize) -> bool
    ensures { IsTrue result ↔ IsSide side }
{
    side > 0 && side <= MOST_SIDE
}

// The place next to a place in a direction. None where that would leave the grid.
fn next_to(rows: usize, columns: usize, place: usize, direction: Direction) -> Option<usize>
    requires rows { rows ≤ MOST_SIDE }
    requires some { 0 < columns }
    requires columns { columns ≤ MOST_SIDE }
    requires place { place < rows * columns }
    ensures { result ≡ neighbour rows columns place (number_of direction) }
{
    let row = place / columns;
    let column = place % columns;
    match direction {
        Direction::Right if column + 1 < columns => Some(row * columns + (column + 1)),
        Direction::Left if column > 0 => Some(row * columns + (column - 1)),
        Direction::Down if row + 1 < rows => Some((row + 1) * columns + column),
        Direction::Up if row > 0 => Some((row - 1) * columns + column),
        _ => None,
    }
}

impl<C: Charge> FloorGrid<C> {
    ghost use Rattle.grid.specs.Grids.{floor_of};

    /// A grid of so many rows and columns, with what every way charges and loses, in tenths of a decibel, and what a
    /// repeater is charged, or none.
    ///
    /// Refused with 20 where a side has 0 places, or over 64.
    pub fn new(
        rows: usize,
        columns: usize,
        charge: C,
        loss: u16,
        repeater: Option<C>,
    ) -> Result<FloorGrid<C>, Refusal>
        ensures fits { IsOk result ↔ (IsSide rows × IsSide columns) }
        ensures ok { IfOk result (λ g. floor_of g ≡ floor rows columns charge loss repeater) }
        ensures err { IfErr result (λ e. e ≡ WrongSide) }
    {
        if !is_side(rows) || !is_side(columns) {
            return Err(Refusal::WrongSide);
        }
        Ok(FloorGrid {
            rows,
            columns,
            charge,
            loss,
            repeater,
        })
    }
}

impl<C: Charge> Site for FloorGrid<C> {
    ghost use Rattle.grid.specs.Floor.{floor_site};
    ghost use Rattle.grid.specs.Grids.{floor_of};
    ghost use Rattle.grid.specs.Bounds.{grid_is_bounded};

    type Charge = C;

    ghost meaning = { λ g. floor_site (floor_of g) };

    ghost is_bounded = { grid_is_bounded };

    fn places(&self) -> usize {
        self.rows * self.columns
    }

    fn ways(&self) -> usize {
        4 * self.places()
    }

    fn repeater(&self, place: usize) -> Option<C> {
        if place < self.places() {
            self.repeater
        } else {
            None
        }
    }

    fn way(&self, number: usize) -> Option<Way<C>> {
        if number >= self.ways() {
            return None;
        }
        let from = number / 4;
        let to = next_to(self.rows, self.columns, from, direction_of(number))?;
        Some(Way {
            from,
            to,
            charge: self.charge,
            loss: self.loss,
        })
    }
}
