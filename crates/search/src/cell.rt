ghost use Rattle.std.specs.Prelude.{◌≡◌};
ghost use Rattle.search.specs.Columns.{blank_row, reached_as};

use subject::run::Step;

/// The last step over which a cell was reached, and the cell that it was taken from.
#[derive(Clone, Copy)]
pub struct Link {
    pub from: usize,
    pub step: Step,
}

/// How a cell was reached: with the lowest charge found for it, over which link, and in how many steps from the start. The
/// start's cell has no link.
#[derive(Clone, Copy)]
pub struct Reached<C> {
    pub charge: C,
    pub link: Option<Link>,
    pub steps: usize,
}

/// What the search knows of a cell. A cell is a place together with a loss: to be there, having lost that much since the
/// last repeater.
#[derive(Clone, Copy)]
pub enum Cell<C> {
    /// Never reached.
    Unseen,
    /// Reached, and in the queue.
    Waiting(Reached<C>),
    /// Taken from the queue.
    Settled(Reached<C>),
}

/// A row of cells, which serves three numbers at once, since the lent rows are all the memory that a plan has.
///
/// Of the cell with the row's number it has what is known. Of the place with that number it has `hint`, a cell of the place
/// that was settled lately, and `head`, the largest way that leaves the place. Of the way with that number it has `next`,
/// the next smaller way that leaves the same place.
#[derive(Clone, Copy)]
pub struct CellRow<C> {
    pub cell: Cell<C>,
    pub hint: Option<u32>,
    pub head: Option<u16>,
    pub next: Option<u16>,
}

impl<C: Copy> Cell<C> {
    /// How the cell was reached, if it was.
    pub fn reached(self) -> Option<Reached<C>>
        ensures { result ≡ reached_as self }
    {
        match self {
            Cell::Unseen => None,
            Cell::Waiting(reached) | Cell::Settled(reached) => Some(reached),
        }
    }
}

impl<C> CellRow<C> {
    /// A row that tells nothing: no cell was reached, and no way is in the index.
    pub fn blank() -> CellRow<C>
        ensures { result ≡ blank_row }
    {
        CellRow {
            cell: Cell::Unseen,
            hint: None,
            head: None,
            next: None,
        }
    }
}
