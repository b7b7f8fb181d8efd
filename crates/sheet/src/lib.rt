//! What programs read and print: decimal numbers, refusal lines, the sheet of a run, requests and survey files.
#![tactic(auto)]

pub mod digits;
mod lines;
pub mod page;
pub mod pricing;
pub mod print;
pub mod refused;
mod steps;
pub mod text;
