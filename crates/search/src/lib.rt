//! What a search for a least run counts on: the checks before it, single steps over ways, and the rows of working memory.
//!
//! The argument why keeping the rows so suffices is in specs/ and proofs/; the search itself is in the crate `planner`.
#![tactic(auto)]

pub mod cell;
pub mod check;
pub mod memory;
pub mod owned;
pub mod step;
