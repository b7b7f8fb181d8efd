// Small houses, and what is asked of them.
use crate::random::Random;
use std::alloc::{AllocError, Global};
use subject::run::Request;
use survey::draft::Draft;
use survey::entry::WayEntry;

/// A request, and two way numbers to close, which may be no ways of the house.
#[derive(Clone, Copy)]
pub struct Question {
    pub request: Request,
    pub closed: [usize; 2],
}

// A blank, a free repeater, or one at a price.
fn repeater(random: &mut Random) -> Option<u32> {
    match random.below(6) {
        0 | 1 => None,
        2 => Some(0),
        _ => u32::try_from(random.below(9) * 100).ok(),
    }
}

// A way between two of the places, which a draft refuses where they are the same.
fn way(random: &mut Random, places: u64) -> WayEntry {
    WayEntry {
        from: u16::try_from(random.below(places)).unwrap_or(0),
        to: u16::try_from(random.below(places)).unwrap_or(0),
        letter: if random.below(2) == 0 { 'S' } else { 'F' },
        metres: u16::try_from(random.below(5)).unwrap_or(0),
        price: u32::try_from(random.below(10) * 100).unwrap_or(0),
        grade: u8::try_from(random.below(10)).unwrap_or(0),
    }
}

/// A house of 0 to 5 places and up to 8 ways.
pub fn make_draft(alloc: Global, random: &mut Random) -> Result<Draft, AllocError> {
    let mut draft = Draft::new(alloc)?;
    let places = random.below(6);
    for _ in 0..places {
        let _ = draft.add_place(repeater(random));
    }
    let ways = random.below(9);
    for _ in 0..ways {
        let _ = draft.add_way(way(random, places));
    }
    Ok(draft)
}

/// From one place to another within a small bound, with up to two ways closed.
pub fn make_question(random: &mut Random, places: usize) -> Question {
    let start = random.below(places as u64) as usize;
    let end = random.below(places as u64) as usize;
    let bound = 1 + random.below(7) as usize;
    let first = random.below(12) as usize;
    let second = random.below(12) as usize;
    Question {
        request: Request { start, end, bound },
        closed: [first, second],
    }
}
