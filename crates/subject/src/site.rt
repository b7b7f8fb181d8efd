ghost use Rattle.std.specs.Prelude.{◌≡◌};
ghost use Rattle.subject.specs.Sites.{SiteMeaning, IsBounded};

use crate::charge::Charge;
use crate::way::Way;

/// The most places that a site has.
pub const MOST_PLACES: usize = 4096;

/// The most ways that a site has, shut ones too.
pub const MOST_WAYS: usize = 16384;

/// The most that an open way loses, in tenths of a decibel.
pub const MOST_LOSS: u16 = 65535;

/// A house as the planner sees it.
///
/// It has numbered places, each with the charge of a repeater there or none, and numbered ways, each open or shut. It
/// answers in one charge kind. Asking changes nothing.
pub trait Site {
    type Charge: Charge;

    // what the site is
    ghost meaning: { Self → SiteMeaning Self.Charge };

    // Each site keeps within the bounds. This stands with the data, above the functions, so that a site may borrow what it
    // is made over.
    ghost is_bounded: { (s : Self) → IsBounded (meaning s) };

    /// How many places there are.
    fn places(&self) -> usize
        ensures { result ≡ (meaning self.now).places };

    /// How many ways there are, shut ones too.
    fn ways(&self) -> usize
        ensures { result ≡ (meaning self.now).ways };

    /// What a repeater at a place is charged, or none where none can be hung.
    fn repeater(&self, place: usize) -> Option<Self::Charge>
        ensures { result ≡ (meaning self.now).repeater place };

    /// An open way by its number, or none where it is shut.
    fn way(&self, number: usize) -> Option<Way<Self::Charge>>
        ensures { result ≡ (meaning self.now).way number };
}
