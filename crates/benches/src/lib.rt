//! The heap and the planner behind a C interface, to be timed against programs in Rust.
#![tactic(auto)]

pub mod plan;
pub mod queue;
