//! Priority queues over rows that a caller lends: an indexed heap and an ordered row, each a tree over positions.
#![tactic(auto)]

pub mod heap;
pub mod layout;
pub mod ordered_row;
pub mod queue;
pub mod row;
mod sift;
pub mod take_lowest;
#[cfg(test)]
mod tests;
