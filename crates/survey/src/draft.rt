ghost use Rattle.std.specs.Prelude.{◌≡◌, ◌≤◌, true, vec_len, vec_capacity};
ghost use Rattle.survey.specs.declared.draft.TheConstants.{MOST_DRAFT_PLACES, MOST_DRAFT_WAYS};
ghost use Rattle.survey.specs.Checks.{price_check, place_check, way_check, good_places, good_ways};

use crate::card;
use crate::entry::{MOST_CENTS, Place, WayEntry};
use std::alloc::{AllocError, Global};
use subject::refusal::Refusal;

/// The most places of a survey.
pub const MOST_DRAFT_PLACES: usize = 256;

/// The most ways of a survey.
pub const MOST_DRAFT_WAYS: usize = 1024;

// The ways of a draft, by their numbers.
#[derive(Drop)]
pub struct WayTable {
    ways: Vec<WayEntry>,
}

/// A survey that is still written: up to 256 places and 1,024 ways, numbered from 0.
///
/// It takes all its memory when it is made. What is in it has passed the checks of its calls.
#[derive(Drop)]
pub struct Draft {
    places: Vec<Place>,
    table: WayTable,
    ghost place_room: { MOST_DRAFT_PLACES ≤ vec_capacity places },
    ghost few_places: { vec_len places ≤ MOST_DRAFT_PLACES },
    ghost good_places: { good_places places.items ≡ true },
    ghost way_room: { MOST_DRAFT_WAYS ≤ vec_capacity table.ways },
    ghost few_ways: { vec_len table.ways ≤ MOST_DRAFT_WAYS },
    ghost good_ways: { good_ways (vec_len places) table.ways.items ≡ true },
}

impl WayTable {
    ghost use Rattle.std.specs.Prelude.{is_some, IfSome, nat_lt, slice_index_or};
    ghost use Rattle.std.specs.Borrow.{sem};
    ghost use Rattle.survey.specs.Lending.{LendsWay};

    // Lends one way to be changed, or none where there is no such number.
    fn way_mut(&mut self, number: usize) -> Option<&mut WayEntry>
        ensures* lends { sem 𝓛 (LendsWay self.entry number result) }
        ensures found { is_some result ≡ nat_lt number (vec_len self.old.ways) }
        ensures way { IfSome result (λ x. x.now ≡ slice_index_or self.old.ways.items number x.now) }
    {
        self.ways.get_mut(number)
    }
}

impl Draft {
    ghost use Rattle.std.specs.Prelude.{length, IfOk};
    ghost use Rattle.std.specs.List.{slice_get};
    ghost use Rattle.survey.specs.Contents.{contents, no_contents};
    ghost use Rattle.survey.specs.Edits.{add_place, add_way, reprice, answer_of, contents_after};

    /// An empty draft, with all the memory that it will need.
    pub fn new(alloc: Global) -> Result<Draft, AllocError>
        ensures { IfOk result (λ d. contents d ≡ no_contents) }
    {
        let places = Vec::with_capacity(alloc, MOST_DRAFT_PLACES)?;
        let ways = Vec::with_capacity(alloc, MOST_DRAFT_WAYS)?;
        Ok(Draft {
            places,
            table: WayTable { ways },
        })
    }

    /// The draft is empty again, and keeps its memory.
    pub fn clear(&mut self)
        ensures { contents self.new ≡ no_contents }
    {
        self.table.ways.clear();
        self.places.clear();
    }

    /// One place more, with the price of a repeater there in cents, or a blank; its number.
    ///
    /// Refused with 5 where there are 256 places, or else with 9 where the price is over 1,000,000 cents. A refused
    /// call leaves the draft as it was.
    pub fn add_place(&mut self, repeater: Option<u32>) -> Result<usize, Refusal>
        ensures answer { let c = contents self.old in result ≡ answer_of (length c.places) (add_place c repeater) }
        ensures after { let c = contents self.old in contents self.new ≡ contents_after c (add_place c repeater) }
    {
        let number = self.places.len();
        if number >= MOST_DRAFT_PLACES {
            return Err(Refusal::DraftFull);
        }
        check_place(repeater)?;
        self.places.push_reserved(Place { repeater });
        Ok(number)
    }

    /// One way more; its number.
    ///
    /// Refused, in this order, with 5 where there are 1,024 ways, 6 where an end is no entered place or both are the
    /// same, 7 where the letter is none of U, S and F, 8 where it has over 200 metres, and 9 where it costs over
    /// 1,000,000 cents. A refused call leaves the draft as it was.
    pub fn add_way(&mut self, way: WayEntry) -> Result<usize, Refusal>
        ensures answer { let c = contents self.old in result ≡ answer_of (length c.ways) (add_way c way) }
        ensures after { let c = contents self.old in contents self.new ≡ contents_after c (add_way c way) }
    {
        let number = self.table.ways.len();
        if number >= MOST_DRAFT_WAYS {
            return Err(Refusal::DraftFull);
        }
        check_way(way, self.places.len())?;
        self.table.ways.push_reserved(way);
        Ok(number)
    }

    /// Another price for one way, in cents. All else of it, every other way and all places stay.
    ///
    /// Refused with 11 where there is no way of that number, or else with 9 where the price is over 1,000,000 cents.
    /// A refused call leaves the draft as it was.
    pub fn reprice(&mut self, number: usize, price: u32) -> Result<(), Refusal>
        ensures answer { result ≡ answer_of tt (reprice (contents self.old) number price) }
        ensures after { let c = contents self.old in contents self.new ≡ contents_after c (reprice c number price) }
    {
        let way = self.table.way_mut(number).ok_or(Refusal::NoSuchWay)?;
        check_price(price)?;
        way.price = price;
        Ok(())
    }

    /// How many places are entered.
    pub fn places(&self) -> usize
        ensures value { result ≡ length (contents self.now).places }
        ensures few { result ≤ MOST_DRAFT_PLACES }
    {
        self.places.len()
    }

    /// How many ways are entered.
    pub fn ways(&self) -> usize
        ensures value { result ≡ length (contents self.now).ways }
        ensures few { result ≤ MOST_DRAFT_WAYS }
    {
        self.table.ways.len()
    }

    /// A place by its number, or none where there is no such number.
    pub fn place(&self, number: usize) -> Option<Place>
        ensures { result ≡ slice_get (contents self.now).places number }
    {
        self.places.get(number).copied()
    }

    /// A way by its number, or none where there is no such number.
    pub fn way(&self, number: usize) -> Option<WayEntry>
        ensures { result ≡ slice_get (contents self.now).ways number }
    {
        self.table.ways.get(number).copied()
    }

    // All places, by their numbers.
    pub(crate) fn all_places(&self) -> &[Place]
        ensures { result.now ≡ (contents self.now).places }
    {
        self.places.as_slice()
    }

    // All ways, by their numbers.
    pub(crate) fn all_ways(&self) -> &[WayEntry]
        ensures { result.now ≡ (contents self.now).ways }
    {
        self.table.ways.as_slice()
    }
}

// A price is at most 1,000,000 cents.
fn check_price(price: u32) -> Result<(), Refusal>
    ensures { result ≡ price_check price }
{
    if price > MOST_CENTS {
        return Err(Refusal::TooDear);
    }
    Ok(())
}

// A place has a price that passes, or a blank.
fn check_place(repeater: Option<u32>) -> Result<(), Refusal>
    ensures { result ≡ place_check repeater }
{
    match repeater {
        Some(price) => check_price(price),
        None => Ok(()),
    }
}

// What is checked of a way, in this order: its ends, its letter, its metres, its price.
fn check_way(way: WayEntry, places: usize) -> Result<(), Refusal>
    ensures { result ≡ way_check places way }
{
    let from = way.from as usize;
    let to = way.to as usize;
    if from >= places || to >= places || from == to {
        return Err(Refusal::WrongEnds);
    }
    let _ = card::loss(way.letter, way.metres)?;
    check_price(way.price)
}
