//! The subject's words: refusals, charges, sites, runs, and the interface of a priority queue.
#![tactic(auto)]

pub mod charge;
pub mod disturbance;
pub mod money;
pub mod queue;
pub mod refusal;
pub mod rows;
pub mod run;
pub mod site;
pub mod way;
