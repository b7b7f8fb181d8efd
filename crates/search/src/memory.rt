use crate::cell::CellRow;
use subject::run::Step;

/// What a caller lends to a plan: cell rows and a queue, in which the search works, and run rows, for the run that is found.
///
/// The queue is here by value, and may be a `&mut` of one.
#[derive(Drop)]
pub struct Memory<'a, C, Q> {
    pub cells: &'a mut [CellRow<C>],
    pub queue: Q,
    pub run: &'a mut [Step],
}
