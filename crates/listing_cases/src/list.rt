// All lawful runs of a small house that never leave a place twice with the same loss, by plain recursion.
use crate::house::Question;
use std::alloc::{AllocError, Global};
use std::collections::HashSet;
use subject::run::MOST_BOUND;
use survey::entry::WayEntry;
use survey::sealed::Sealed;

/// How many runs there are, and the least figures of them.
#[derive(Clone, Copy)]
pub struct Found {
    pub runs: u64,
    pub money: Option<u64>,
    pub grade: Option<u64>,
}

// Where a run is, what it has lost since the last repeater, and what it has come to.
#[derive(Clone, Copy)]
struct Here {
    place: usize,
    loss: usize,
    cents: u64,
    grade: u64,
}

// The lower of two figures, of which the first may be none.
fn lower(old: Option<u64>, new: u64) -> Option<u64> {
    Some(old.map_or(new, |best| best.min(new)))
}

// A survey, and what is asked of it.
#[derive(Clone, Copy)]
struct Listing<'a> {
    survey: &'a Sealed,
    asked: &'a Question,
}

impl Listing<'_> {
    // The price of a repeater where one may be marked.
    fn mark_price(&self, place: usize) -> Option<u64> {
        if place == self.asked.request.start || place == self.asked.request.end {
            return None;
        }
        let price = self.survey.place(place)?.repeater?;
        Some(price as u64)
    }

    // Where a way leads from where the run is, without a mark.
    fn after_way(&self, here: Here, number: usize, way: &WayEntry) -> Option<Here> {
        let per_hundred = match way.letter {
            'U' => 220,
            'S' => 90,
            _ => 4,
        };
        let loss = here
            .loss
            .saturating_add((way.metres as usize * per_hundred).div_ceil(100));
        let goes = way.from as usize == here.place && loss <= self.asked.request.bound;
        if !goes || self.asked.closed.contains(&number) {
            return None;
        }
        Some(Here {
            place: way.to as usize,
            loss,
            cents: here.cents.saturating_add(way.price as u64),
            grade: here.grade.max(way.grade as u64),
        })
    }

    // The number of the cell that a place with a loss is.
    fn cell_of(&self, here: Here) -> usize {
        here.place
            .saturating_mul(self.asked.request.bound.saturating_add(1))
            .saturating_add(here.loss)
    }

    // Lists the runs that go on from here, in at most `depth` steps. The run has come by the cells `behind`.
    fn walk(
        &self,
        here: Here,
        depth: usize,
        behind: &mut HashSet<usize>,
        found: &mut Found,
    ) -> Result<(), AllocError> {
        if here.place == self.asked.request.end {
            found.runs = found.runs.saturating_add(1);
            found.money = lower(found.money, here.cents);
            found.grade = lower(found.grade, here.grade);
        }
        let cell = self.cell_of(here);
        if depth == 0 || !behind.insert(cell)? {
            return Ok(());
        }
        for (number, way) in self.survey.all_ways().iter().enumerate() {
            if let Some(there) = self.after_way(here, number, way) {
                self.walk(there, depth - 1, behind, found)?;
                if let Some(price) = self.mark_price(there.place) {
                    let cleared = Here {
                        loss: 0,
                        cents: there.cents.saturating_add(price),
                        ..there
                    };
                    self.walk(cleared, depth - 1, behind, found)?;
                }
            }
        }
        behind.remove(&cell);
        Ok(())
    }
}

/// Lists the runs of a question. Where the start is no place there is none.
pub fn list_runs(alloc: Global, survey: &Sealed, asked: &Question) -> Result<Found, AllocError> {
    let mut found = Found {
        runs: 0,
        money: None,
        grade: None,
    };
    let cells = survey.places() * (MOST_BOUND + 1);
    let mut behind = HashSet::new(alloc);
    if asked.request.start < survey.places() {
        let here = Here {
            place: asked.request.start,
            loss: 0,
            cents: 0,
            grade: 0,
        };
        Listing { survey, asked }.walk(here, cells, &mut behind, &mut found)?;
    }
    Ok(found)
}
