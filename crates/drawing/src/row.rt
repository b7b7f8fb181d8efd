ghost use Rattle.std.specs.Prelude.{◌≡◌, ◌<◌, IfOk, length, vec_len};

use crate::pixel::{Px, counted};
use std::alloc::{AllocError, Global};
use survey::entry::WayEntry;

// How often the places of the layers are put in order.
const SWEEPS: usize = 24;

// How often places that are close to each other are exchanged, and how many rows apart they are at most.
const EXCHANGES: usize = 8;

const MOST_ROWS_APART: usize = 4;

// Half of the height of a row, while the places are put in order.
const HALF_ROW: Px = Px(64);

/// Where a place is among the others: in which layer, and in which row of it, from the top.
#[derive(Clone, Copy)]
pub struct Spot {
    pub place: usize,
    pub layer: usize,
    pub row: usize,
    /// How far it is below the middle of its layer, where all rows are of one height.
    pub depth: Px,
    /// How far below the middle its neighbours are, in the mean.
    pub pull: Px,
}

impl Spot {
    // Whether a spot is in the same layer, and at most so many rows below this one.
    fn is_shortly_above(self, other: Spot) -> bool {
        self.layer == other.layer && self.row < other.row && other.row - self.row <= MOST_ROWS_APART
    }

    /// The spot at the other end of a way that has one end here.
    pub fn neighbour(self, spots: &[Spot], way: WayEntry) -> Option<Spot> {
        if way.from as usize == self.place {
            return spots.get(way.to as usize).copied();
        }
        if way.to as usize == self.place {
            return spots.get(way.from as usize).copied();
        }
        None
    }
}

// The neighbours that pull at a place, with those of its own layer.
#[derive(Clone, Copy)]
enum Neighbours {
    Before,
    Behind,
    All,
}

impl Neighbours {
    // Who pulls in a sweep.
    fn at(sweep: usize) -> Neighbours {
        match sweep % 3 {
            0 => Neighbours::Before,
            1 => Neighbours::Behind,
            _ => Neighbours::All,
        }
    }

    // Whether a place pulls at another.
    fn pull(self, spot: Spot, other: Spot) -> bool {
        match self {
            Neighbours::Before => other.layer <= spot.layer,
            Neighbours::Behind => other.layer >= spot.layer,
            Neighbours::All => true,
        }
    }
}

/// The spot of each place, by its number.
///
/// The places of a layer are ordered so that the ways to their neighbours are short. Fails only for want of memory.
pub fn spots_of(alloc: Global, layers: &[usize], ways: &[WayEntry]) -> Result<Vec<Spot>, AllocError>
    ensures { IfOk result (λ spots. vec_len spots ≡ length layers.now) }
{
    let mut spots = first_spots(alloc, layers)?;
    line_up(&mut spots)?;
    let mut best = Vec::from_slice(alloc, spots.as_slice())?;
    for sweep in 0..SWEEPS {
        pull_all(spots.as_mut_slice(), ways, Neighbours::at(sweep));
        line_up(&mut spots)?;
        if length_of(spots.as_slice(), ways) < length_of(best.as_slice(), ways) {
            best = Vec::from_slice(alloc, spots.as_slice())?;
        }
    }
    for _ in 0..EXCHANGES {
        exchange_all(best.as_mut_slice(), ways);
    }
    Ok(best)
}

// The spots in the order of the numbers.
fn first_spots(alloc: Global, layers: &[usize]) -> Result<Vec<Spot>, AllocError>
    ensures { IfOk result (λ spots. vec_len spots ≡ length layers.now) }
{
    let mut spots = Vec::new(alloc);
    for (place, layer) in layers.iter().enumerate() {
        spots.push(Spot {
            place,
            layer: *layer,
            row: place,
            depth: Px(0),
            pull: Px(0),
        })?;
    }
    Ok(spots)
}

// The places of each layer in the order in which they are pulled, and else as before.
fn line_up(spots: &mut Vec<Spot>) -> Result<(), AllocError>
    ensures { vec_len spots.new ≡ vec_len spots.old }
{
    spots.sort_by_key(|spot| (spot.layer, spot.pull, spot.row))?;
    number_rows(spots.as_mut_slice());
    set_depths(spots.as_mut_slice());
    spots.sort_by_key(|spot| spot.place)
}

// The rows of each layer get their numbers, from the top.
fn number_rows(spots: &mut [Spot]) {
    let mut layer = 0;
    let mut row: usize = 0;
    for spot in spots.iter_mut() {
        if spot.layer != layer {
            layer = spot.layer;
            row = 0;
        }
        spot.row = row;
        row = row.saturating_add(1);
    }
}

// The middle of each layer is at 0.
fn set_depths(spots: &mut [Spot]) {
    let mut layer = usize::MAX;
    let mut last_row = 0;
    for spot in spots.iter_mut().rev() {
        if spot.layer != layer {
            layer = spot.layer;
            last_row = spot.row;
        }
        spot.depth = HALF_ROW * 2 * counted(spot.row) - HALF_ROW * counted(last_row);
    }
}

// Each place is pulled to the mean of its neighbours.
fn pull_all(spots: &mut [Spot], ways: &[WayEntry], neighbours: Neighbours) {
    for place in 0..spots.len() {
        spots[place].pull = pull_on(spots, ways, spots[place], neighbours);
    }
}

// The mean of a place's neighbours; where it is, if it has none.
fn pull_on(spots: &[Spot], ways: &[WayEntry], spot: Spot, neighbours: Neighbours) -> Px {
    let mut sum = Px(0);
    let mut count: usize = 0;
    for way in ways {
        if let Some(other) = spot.neighbour(spots, *way) {
            if neighbours.pull(spot, other) {
                sum = sum + other.depth;
                count = count.saturating_add(1);
            }
        }
    }
    if count == 0 {
        return spot.depth;
    }
    sum.share(count)
}

// Exchanges places of a layer that are close to each other, where that makes the ways shorter.
fn exchange_all(spots: &mut [Spot], ways: &[WayEntry]) {
    for a in 0..spots.len() {
        for b in 0..spots.len() {
            if spots[a].is_shortly_above(spots[b]) {
                exchange_if_shorter(spots, ways, a, b);
            }
        }
    }
}

// Exchanges the rows of two places of a layer, unless the ways are then no shorter.
fn exchange_if_shorter(spots: &mut [Spot], ways: &[WayEntry], a: usize, b: usize)
    requires a { a < length spots.old }
    requires b { b < length spots.old }
{
    let length = length_of(spots, ways);
    exchange(spots, a, b);
    if length_of(spots, ways) >= length {
        exchange(spots, a, b);
    }
}

// Exchanges the rows of two places of a layer.
fn exchange(spots: &mut [Spot], a: usize, b: usize)
    requires a { a < length spots.old }
    requires b { b < length spots.old }
{
    let above = spots[a];
    let below = spots[b];
    spots[a].row = below.row;
    spots[a].depth = below.depth;
    spots[b].row = above.row;
    spots[b].depth = above.depth;
}

// How far all ways go up or down.
fn length_of(spots: &[Spot], ways: &[WayEntry]) -> Px {
    let mut sum = Px(0);
    for way in ways {
        let from = spots.get(way.from as usize).copied();
        let to = spots.get(way.to as usize).copied();
        if let (Some(from), Some(to)) = (from, to) {
            sum = sum + from.depth.distance(to.depth);
        }
    }
    sum
}
