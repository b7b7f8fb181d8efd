ghost use Rattle.std.specs.Prelude.{◌≡◌, ◌+◌, ◌*◌, ◌<◌, ◌≤◌, ◌↔◌, IsTrue};
ghost use Rattle.subject.specs.declared.run.TheConstants.{MOST_BOUND};

use subject::run::Request;
use subject::site::{MOST_PLACES, Site};

/// A run that is asked for over a site, with a bound that can be asked for; and its cells by number:
/// place × (bound + 1) + loss.
#[derive(Drop)]
pub struct Query<'a, S: Site> {
    pub site: &'a S,
    pub request: Request,
    ghost bound: { request.bound ≤ MOST_BOUND },
}

impl<S: Site> Query<'_, S> {
    ghost use Rattle.search.specs.Cells.{place_of, loss_of};
    ghost use Rattle.planner.specs.Workspaces.{problem};

    /// The place of a cell.
    pub fn place_of(&self, cell: usize) -> usize
        ensures { result ≡ place_of (problem self.now) cell }
    {
        cell / (self.request.bound + 1)
    }

    /// The loss of a cell.
    pub fn loss_of(&self, cell: usize) -> usize
        ensures same { result ≡ loss_of (problem self.now) cell }
        ensures low { result ≤ self.now.request.bound }
    {
        cell % (self.request.bound + 1)
    }

    /// The cell of a place and a loss.
    pub fn cell_of(&self, place: usize, loss: usize) -> usize
        requires place { place < MOST_PLACES }
        requires loss { loss ≤ self.now.request.bound }
        ensures { result ≡ place * (self.now.request.bound + 1) + loss }
    {
        place * (self.request.bound + 1) + loss
    }

    /// Whether a cell is one of the end.
    pub fn is_end(&self, cell: usize) -> bool
        ensures { IsTrue result ↔ (place_of (problem self.now) cell ≡ self.now.request.end) }
    {
        self.place_of(cell) == self.request.end
    }
}
