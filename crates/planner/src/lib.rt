//! Planning a least run over any site, for any charge kind, with any priority queue.
//!
//! `plan` checks the request, `start` prepares the rows, `seek` takes a lowest waiting cell again and again, `visit` and
//! `expand` offer the ways out of it, and `trace` writes the run that was found. docs/PLANNING.md says why it is a least one.
#![tactic(auto)]

mod expand;
mod index;
pub mod plan;
mod query;
mod seek;
mod start;
mod trace;
mod visit;
mod workspace;
