//! The floor grid: a site of rows and columns, in any charge kind.
#![tactic(auto)]

pub mod grid;
