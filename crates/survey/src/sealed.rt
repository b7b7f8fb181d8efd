ghost use Rattle.std.specs.Prelude.{◌≡◌, ◌≤◌, length};
ghost use Rattle.std.specs.List.{slice_get};
ghost use Rattle.survey.specs.Contents.{contents};
ghost use Rattle.survey.specs.Sealing.{sealed_contents};

use crate::draft::{Draft, MOST_DRAFT_PLACES, MOST_DRAFT_WAYS};
use crate::entry::{Place, WayEntry};

/// A survey to which nothing can be added, over which sites are made.
#[derive(Drop)]
pub struct Sealed {
    draft: Draft,
}

impl Draft {
    /// The survey that the draft is. Sealing uses the draft up, and never refuses.
    pub fn seal(self) -> Sealed
        ensures { sealed_contents result ≡ contents self }
    {
        Sealed { draft: self }
    }
}

impl Sealed {
    /// How many places the survey has.
    pub fn places(&self) -> usize
        ensures value { result ≡ length (sealed_contents self.now).places }
        ensures few { result ≤ MOST_DRAFT_PLACES }
    {
        self.draft.places()
    }

    /// How many ways the survey has.
    pub fn ways(&self) -> usize
        ensures value { result ≡ length (sealed_contents self.now).ways }
        ensures few { result ≤ MOST_DRAFT_WAYS }
    {
        self.draft.ways()
    }

    /// A place by its number, or none where there is no such number.
    pub fn place(&self, number: usize) -> Option<Place>
        ensures { result ≡ slice_get (sealed_contents self.now).places number }
    {
        self.draft.place(number)
    }

    /// A way by its number, or none where there is no such number.
    pub fn way(&self, number: usize) -> Option<WayEntry>
        ensures { result ≡ slice_get (sealed_contents self.now).ways number }
    {
        self.draft.way(number)
    }

    /// All places, by their numbers.
    pub fn all_places(&self) -> &[Place]
        ensures value { result.now ≡ (sealed_contents self.now).places }
        ensures few { length result.now ≤ MOST_DRAFT_PLACES }
    {
        self.draft.all_places()
    }

    /// All ways, by their numbers.
    pub fn all_ways(&self) -> &[WayEntry]
        ensures value { result.now ≡ (sealed_contents self.now).ways }
        ensures few { length result.now ≤ MOST_DRAFT_WAYS }
    {
        self.draft.all_ways()
    }
}
