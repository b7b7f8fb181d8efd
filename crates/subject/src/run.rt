/// The largest bound of a request, in tenths of a decibel.
pub const MOST_BOUND: usize = 1000;

/// A step of a run: over a way, by its number, and whether a repeater is marked where the way arrives.
#[derive(Clone, Copy, Debug, PartialEq, Eq)]
pub struct Step {
    pub way: usize,
    pub mark: bool,
}

/// What a run is asked for: where it starts, where it ends, and the bound.
///
/// The bound is the most that the run may have lost since the last repeater on any arrival, in tenths of a decibel.
#[derive(Clone, Copy, Debug)]
pub struct Request {
    pub start: usize,
    pub end: usize,
    pub bound: usize,
}
