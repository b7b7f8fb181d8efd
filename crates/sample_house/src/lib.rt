//! The worked cases: one small house, and what least runs through it come to under several bounds.
#![tactic(auto)]

pub mod house;

ghost use Rattle.sample_house.specs.Cases.{WorkedCases};

/// The worked cases hold of the definitions that planning is proved to follow: of lawful runs, totals, surveys and the
/// loss card. There is nothing to compute.
pub fn worked_cases()
    ensures { WorkedCases }
{}
